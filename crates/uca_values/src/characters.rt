//! The properties of code points that collation needs: combining classes and Han ranges.

ghost use Rattle.std.specs.Prelude.{◌≡◌, ℕ, ◌<◌, ◌≤◌, List, length, true, [], ◌≢◌, ◌+◌, OnOk, IfErr, MatchOption, slice_index, if◌then◌else◌};
ghost use Rattle.std.specs.List.Sorted.{IsPartitionPoint};
ghost use Rattle.uca_values.specs.Ranges.{is_between, is_within, class_in, AreRising, AreRisingClasses};
ghost use Rattle.uca_values.specs.inside.LowClasses.{AreLowClasses};
ghost use Rattle.uca_values.specs.declared.ClassRange.{ClassRange};
ghost use Rattle.std.specs.List.{AllByRecursion};
ghost use Rattle.uca_values.specs.inside.Gaps.{HasRangeIn, IsGap, IsPut};
ghost use Rattle.uca_values.specs.Content.{IsClass};
ghost use Rattle.uca_values.specs.Adding.{AddsClass, AddsCore, AddsOther, RefusesClass, RefusesCore, RefusesOther, RefusesRange};

use crate::ranges::{is_held, range_place};
use crate::{ClassRange, CodePointRange};
use std::alloc::{AllocError, Allocator, Global};
use std::marker::Model;
use thiserror::Error;

/// What a data file says: the combining class of each code point, and which code points are core Han
/// or other unified ideographs (UTS #10, section 10.1.3). The classes of the code points below U+2000 are also
/// in a list of 8,192 bytes. The first range with a class makes it. So most code points of a text need no search.
#[derive(Drop)]
pub struct Data<A: Allocator = Global> {
    classes: Vec<ClassRange, A>,
    // The class of each code point below U+2000; empty while no range has a class.
    low_classes: Vec<u8, A>,
    core: Vec<CodePointRange, A>,
    other: Vec<CodePointRange, A>,
}

impl<A: Allocator> Model for Data<A> {
    ghost use Rattle.uca_values.specs.Content.{DataContent, IsData};
    ghost use Rattle.uca_values.specs.inside.LowClasses.{AreLowClasses};

    ghost Value = { DataContent };

    ghost view = { λ d. record { classes = d.classes.items; core = d.core.items; other = d.other.items } };

    ghost invariant = { λ d. record {
      ranges : IsData (record { classes = d.classes.items; core = d.core.items; other = d.other.items });
      low : AreLowClasses d.classes.items d.low_classes.items;
    } };
}

/// How many ranges of each kind there may be.
const MOST_RANGES: usize = 4096;

/// How many code points have their class in a list.
const LOW_CLASSES: usize = 0x2000;

/// Why a range is not added. Of several causes the first of this list is returned.
#[derive(Clone, Copy, Debug, PartialEq, Eq, Error)]
pub enum RangeFault {
    /// Its last code point is less than its first.
    #[error("the range is empty")]
    Empty,
    /// One of its code points has that property already, or for a Han range either Han property.
    #[error("the range overlaps another")]
    Overlap,
    /// There are 4,096 ranges of its kind.
    #[error("there are too many ranges")]
    Limit,
    /// An allocation failed.
    #[error("out of memory")]
    Memory,
}

impl<A: Allocator> Data<A> {
    /// No code point has a class or is Han. It takes no memory.
    pub fn new(alloc: A) -> Self
    where
        A: Copy,
        ensures { result ≡ record { classes = []; core = []; other = [] } }
    {
        Data {
            classes: Vec::new(alloc),
            low_classes: Vec::new(alloc),
            core: Vec::new(alloc),
            other: Vec::new(alloc),
        }
    }

    /// Gives the code points of a range their class.
    ///
    /// # Errors
    ///
    /// Nothing changes at an error. The first of these is returned:
    ///
    /// - `Empty`: the range is empty.
    /// - `Overlap`: one of its code points has a class already.
    /// - `Limit`: there are 4,096 ranges with a class.
    /// - `Memory`: an allocation failed.
    pub fn add_class(&mut self, range: ClassRange) -> Result<(), RangeFault>
        requires { IsClass range.class }
        ensures added { OnOk result (AddsClass self.old range self.new) }
        ensures refused { IfErr result (λ fault. (self.new ≡ self.old) × RefusesClass self.old range fault) }
    {
        if range.last < range.first {
            return Err(RangeFault::Empty);
        }
        let Some(at) = class_gap(&self.classes, range) else {
            return Err(RangeFault::Overlap);
        };
        if self.classes.len() >= MOST_RANGES {
            return Err(RangeFault::Limit);
        }
        if make_low_classes(&mut self.low_classes).is_err() {
            return Err(RangeFault::Memory);
        }
        if self.classes.insert(at, range).is_err() {
            return Err(RangeFault::Memory);
        }
        write_class(&mut self.low_classes, range);
        Ok(())
    }

    /// Makes the code points of a range core Han.
    ///
    /// # Errors
    ///
    /// Nothing changes at an error. The first of these is returned:
    ///
    /// - `Empty`: the range is empty.
    /// - `Overlap`: one of its code points is core Han or another unified ideograph already.
    /// - `Limit`: there are 4,096 ranges of core Han.
    /// - `Memory`: an allocation failed.
    pub fn add_core(&mut self, range: CodePointRange) -> Result<(), RangeFault>
        ensures added { OnOk result (AddsCore self.old range self.new) }
        ensures refused { IfErr result (λ fault. (self.new ≡ self.old) × RefusesCore self.old range fault) }
    {
        insert_range(&mut self.core, &self.other, range)
    }

    /// Makes the code points of a range unified ideographs outside core Han.
    ///
    /// # Errors
    ///
    /// Those of [`Data::add_core`]; `Limit` counts the ranges of other ideographs.
    pub fn add_other(&mut self, range: CodePointRange) -> Result<(), RangeFault>
        ensures added { OnOk result (AddsOther self.old range self.new) }
        ensures refused { IfErr result (λ fault. (self.new ≡ self.old) × RefusesOther self.old range fault) }
    {
        insert_range(&mut self.other, &self.core, range)
    }

    /// The canonical combining class of a code point (UAX #44); 0 if no range of the file has it.
    pub fn class(&self, point: char) -> u8
        ensures { result ≡ class_in self.now.classes point }
    {
        let place = point as usize;
        if place < self.low_classes.len() {
            return self.low_classes[place];
        }
        class_at(&self.classes, point)
    }

    /// Whether a code point is core Han (UTS #10, section 10.1.3).
    pub fn is_core(&self, point: char) -> bool
        ensures { result ≡ is_within self.now.core point }
    {
        is_held(&self.core, point)
    }

    /// Whether a code point is a unified ideograph outside core Han (UTS #10, section 10.1.3).
    pub fn is_other(&self, point: char) -> bool
        ensures { result ≡ is_within self.now.other point }
    {
        is_held(&self.other, point)
    }

    /// The ranges with a class, in rising order.
    pub fn classes(&self) -> &[ClassRange]
        ensures { result.now ≡ self.now.classes }
    {
        &self.classes
    }

    /// The ranges of core Han, in rising order.
    pub fn core(&self) -> &[CodePointRange]
        ensures { result.now ≡ self.now.core }
    {
        &self.core
    }

    /// The ranges of other unified ideographs, in rising order.
    pub fn other(&self) -> &[CodePointRange]
        ensures { result.now ≡ self.now.other }
    {
        &self.other
    }
}

// Makes the list of the classes of low code points, unless it is there. All its classes are 0.
fn make_low_classes<A: Allocator>(low_classes: &mut Vec<u8, A>) -> Result<(), AllocError>
    ensures kept { (ranges : List ClassRange) → AreLowClasses ranges low_classes.old.items → AreLowClasses ranges low_classes.new.items }
    ensures made { OnOk result (0 < length low_classes.new.items) }
{
    if low_classes.is_empty() {
        low_classes.extend_from_slice(&[0; LOW_CLASSES])?;
    }
    Ok(())
}

// Writes the class of a range at those of its code points that the list has.
fn write_class(low_classes: &mut [u8], range: ClassRange)
    requires { range.first ≤ range.last }
    ensures len { length low_classes.new ≡ length low_classes.old }
    ensures each { (point : ℕ) → point < length low_classes.old →
        slice_index low_classes.new point ≡ (if is_between range.first range.last point then range.class else slice_index low_classes.old point) }
{
    let end = low_classes.len().min(range.last as usize + 1);
    for place in range.first as usize..end {
        low_classes[place] = range.class;
    }
}

// The position of the first range that ends at the code point or above it.
fn class_place(ranges: &[ClassRange], point: char) -> usize
    requires { AreRisingClasses ranges.now }
    ensures bound { result ≤ length ranges.now }
    ensures place { IsPartitionPoint (λ r. r.last < point) (λ r. point ≤ r.last) ranges.now result }
{
    ranges.partition_point(|range| range.last < point)
}

// The position where the range fits between the others, unless it overlaps one of them.
fn class_gap(ranges: &[ClassRange], range: ClassRange) -> Option<usize>
    requires rising { AreRisingClasses ranges.now }
    requires numbers { AllByRecursion (λ r. IsClass r.class) ranges.now }
    requires sound { range.first ≤ range.last }
    ensures { MatchOption result
        ((point : ℕ) × (range.first ≤ point) × (point ≤ range.last) × (class_in ranges.now point ≢ 0))
        (λ at. (at ≤ length ranges.now) × IsGap (λ r. r.first) (λ r. r.last) range.first range.last ranges.now at) }
{
    let at = class_place(ranges, range.first);
    if at < ranges.len() && ranges[at].first <= range.last {
        return None;
    }
    Some(at)
}

// The position where the range without a class fits between the others, unless it overlaps one of them.
fn range_gap(ranges: &[CodePointRange], range: CodePointRange) -> Option<usize>
    requires rising { AreRising ranges.now }
    requires sound { range.first ≤ range.last }
    ensures { MatchOption result
        ((point : ℕ) × (range.first ≤ point) × (point ≤ range.last) × (is_within ranges.now point ≡ true))
        (λ at. (at ≤ length ranges.now) × IsGap (λ r. r.first) (λ r. r.last) range.first range.last ranges.now at) }
{
    let at = range_place(ranges, range.first);
    if at < ranges.len() && ranges[at].first <= range.last {
        return None;
    }
    Some(at)
}

// Adds a range to the Han ranges of its kind. `beside` has those of the other kind.
fn insert_range<A: Allocator>(
    ranges: &mut Vec<CodePointRange, A>,
    beside: &[CodePointRange],
    range: CodePointRange,
) -> Result<(), RangeFault>
    requires rising { AreRising ranges.old.items }
    requires few { length ranges.old.items ≤ 4096 }
    requires beside { AreRising beside.now }
    ensures rising { AreRising ranges.new.items }
    ensures few { length ranges.new.items ≤ 4096 }
    ensures put { OnOk result (IsPut ranges.old.items beside.now range ranges.new.items) }
    ensures refused { IfErr result (λ fault. (ranges.new.items ≡ ranges.old.items)
        × RefusesRange (HasRangeIn ranges.old.items beside.now) (length ranges.old.items) range.first range.last fault) }
{
    if range.last < range.first {
        return Err(RangeFault::Empty);
    }
    let Some(at) = range_gap(ranges, range) else {
        return Err(RangeFault::Overlap);
    };
    let Some(_) = range_gap(beside, range) else {
        return Err(RangeFault::Overlap);
    };
    if ranges.len() >= MOST_RANGES {
        return Err(RangeFault::Limit);
    }
    if ranges.insert(at, range).is_err() {
        return Err(RangeFault::Memory);
    }
    Ok(())
}

fn class_at(ranges: &[ClassRange], point: char) -> u8
    requires { AreRisingClasses ranges.now }
    ensures { result ≡ class_in ranges.now point }
{
    // Most text lies below the first range.
    if ranges.is_empty() || point < ranges[0].first {
        return 0;
    }
    let at = class_place(ranges, point);
    if at < ranges.len() && ranges[at].first <= point {
        ranges[at].class
    } else {
        0
    }
}
