//! What changes: texts and ranges of code points, in their order.

ghost use Rattle.std.specs.Prelude.{◌≡◌, ◌↔◌, ◌⊎◌, ◌≤◌, [], length, Contains, IsTrue, OnOk, OnErr, IfErr, IfNone, IfSome};
ghost use Rattle.std.specs.List.Sorted.{IsPartitionPoint};
ghost use Rattle.uca_values.specs.declared.faults.FaultKind.{FaultKind};
ghost use Rattle.uca_values.specs.Ranges.{is_within};
ghost use Rattle.uca_change_files.specs.Changes.{AreInOrder, OfText, OfRange, IsBelow, IsBefore, IsChangeList, MayCome};
ghost use Rattle.uca_change_files.specs.Steps.{Adds, MayAdd, Refuses};

use std::alloc::{Allocator, Global};
use std::cmp::Ordering;
use std::marker::Model;
use uca_values::ranges::is_held;
use uca_values::{CodePointRange, FaultKind};

/// How many code points a text has at most.
const MOST_POINTS: usize = 16;

/// How many texts and ranges there are at most: with the header a million lines.
const MOST_ITEMS: usize = 999_999;

/// A text that changes.
#[derive(Drop)]
pub struct ChangedText<A: Allocator = Global> {
    /// Its code points, 1 to 16 in a list of changes.
    pub points: Vec<char, A>,
}

impl<A: Allocator> Model for ChangedText<A> {
    ghost use Rattle.std.specs.Prelude.{ℕ, List};

    ghost Value = { List ℕ };

    ghost view = { λ t. t.points.items };
}

/// The texts and the ranges of code points that change from one table and data file to others. Each text has 1 to 16
/// code points, and is above the one before it by its code points. Each range begins after the end of the one before it.
#[derive(Drop)]
pub struct ChangeList<A: Allocator = Global> {
    texts: Vec<ChangedText<A>, A>,
    ranges: Vec<CodePointRange, A>,
}

impl<A: Allocator> Model for ChangeList<A> {
    ghost use Rattle.uca_change_files.specs.Changes.{ChangeContent, IsChangeList};

    ghost Value = { ChangeContent };

    ghost view = { λ l. record { texts = l.texts.items; ranges = l.ranges.items } };

    ghost invariant = { λ l. IsChangeList (record { texts = l.texts.items; ranges = l.ranges.items }) };
}

impl<A: Allocator + Copy> ChangeList<A> {
    /// Nothing changes. It takes no memory.
    pub fn new(alloc: A) -> ChangeList<A>
        ensures { result ≡ record { texts = []; ranges = [] } }
    {
        ChangeList {
            texts: Vec::new(alloc),
            ranges: Vec::new(alloc),
        }
    }
}

impl<A: Allocator> ChangeList<A> {
    /// Adds a text after all others.
    ///
    /// # Errors
    ///
    /// Nothing changes at an error. The first of these is returned:
    ///
    /// - `Line`: it has no code point, or more than 16.
    /// - `Order`: there is a range, or the text is not above the one before it.
    /// - `Limit`: there are 999,999 texts.
    /// - `Memory`: an allocation failed.
    pub fn push_text(&mut self, text: ChangedText<A>) -> Result<(), FaultKind>
        ensures ok { OnOk result (Adds self.old (OfText text) self.new) }
        ensures same { OnErr result (self.new ≡ self.old) }
        ensures fault { IfErr result (λ kind. (kind ≡ FaultKind.Memory) ⊎ Refuses (λ item. OfText text ≡ item) self.old kind) }
    {
        match text_fault(self, &text) {
            Some(kind) => Err(kind),
            None => match self.texts.push(text) {
                Ok(()) => Ok(()),
                Err(_) => Err(FaultKind::Memory),
            },
        }
    }

    /// Adds a range after all others.
    ///
    /// # Errors
    ///
    /// Nothing changes at an error. The first of these is returned:
    ///
    /// - `Line`: its last code point is less than its first.
    /// - `Order`: it does not begin after the end of the range before it.
    /// - `Limit`: there are 999,999 texts and ranges.
    /// - `Memory`: an allocation failed.
    pub fn push_range(&mut self, range: CodePointRange) -> Result<(), FaultKind>
        ensures ok { OnOk result (Adds self.old (OfRange range) self.new) }
        ensures same { OnErr result (self.new ≡ self.old) }
        ensures fault { IfErr result (λ kind. (kind ≡ FaultKind.Memory) ⊎ Refuses (λ item. OfRange range ≡ item) self.old kind) }
    {
        if range.last < range.first {
            Err(FaultKind::Line)
        } else if !is_after(&self.ranges, range) {
            Err(FaultKind::Order)
        } else if self.texts.len() + self.ranges.len() >= MOST_ITEMS {
            Err(FaultKind::Limit)
        } else {
            match self.ranges.push(range) {
                Ok(()) => Ok(()),
                Err(_) => Err(FaultKind::Memory),
            }
        }
    }

    /// The texts, in rising order.
    pub fn texts(&self) -> &[ChangedText<A>]
        ensures value { result.now ≡ self.now.texts }
        ensures list { IsChangeList self.now }
    {
        &self.texts
    }

    /// The ranges, in rising order.
    pub fn ranges(&self) -> &[CodePointRange]
        ensures value { result.now ≡ self.now.ranges }
        ensures list { IsChangeList self.now }
    {
        &self.ranges
    }

    /// Whether the list has this text. The texts rise, so it is looked for by halves.
    pub fn has_text(&self, text: &[char]) -> bool
        ensures { IsTrue result ↔ Contains self.now.texts text.now }
    {
        let place = text_place(&self.texts, text);
        if place == self.texts.len() {
            return false;
        }
        self.texts[place].points.as_slice() == text
    }

    /// Whether a range of the list has the code point.
    pub fn has_point(&self, point: char) -> bool
        ensures { result ≡ is_within self.now.ranges point }
    {
        is_held(&self.ranges, point)
    }
}

// The position of the first text that is not before this one.
fn text_place<A: Allocator>(texts: &[ChangedText<A>], text: &[char]) -> usize
    requires { AreInOrder IsBelow texts.now }
    ensures bound { result ≤ length texts.now }
    ensures place { IsPartitionPoint (λ other. IsBelow other text.now) (λ other. ¬ (IsBelow other text.now)) texts.now result }
{
    texts.partition_point(|other| is_below(&other.points, text))
}

// Why a text may not be added, if so.
fn text_fault<A: Allocator>(list: &ChangeList<A>, text: &ChangedText<A>) -> Option<FaultKind>
    ensures ok { IfNone result (MayAdd list.now (OfText text.now)) }
    ensures fault { IfSome result (λ kind. Refuses (λ item. OfText text.now ≡ item) list.now kind) }
{
    let points = text.points.as_slice();
    if points.is_empty() || points.len() > MOST_POINTS {
        Some(FaultKind::Line)
    } else if !list.ranges().is_empty() || !is_above(list.texts(), points) {
        Some(FaultKind::Order)
    } else if list.texts().len() >= MOST_ITEMS {
        Some(FaultKind::Limit)
    } else {
        None
    }
}

// Whether the text is above the last one, if there is one.
fn is_above<A: Allocator>(texts: &[ChangedText<A>], text: &[char]) -> bool
    ensures { IsTrue result ↔ MayCome IsBelow texts.now text.now }
{
    match texts.last() {
        None => true,
        Some(last) => is_below(&last.points, text),
    }
}

// Whether a text comes before another by their code points.
fn is_below(text: &[char], other: &[char]) -> bool
    ensures { IsTrue result ↔ IsBelow text.now other.now }
{
    match text.cmp(other) {
        Ordering::Less => true,
        Ordering::Equal | Ordering::Greater => false,
    }
}

// Whether the range begins after the end of the last one, if there is one.
fn is_after(ranges: &[CodePointRange], range: CodePointRange) -> bool
    ensures { IsTrue result ↔ MayCome IsBefore ranges.now range }
{
    match ranges.last() {
        None => true,
        Some(last) => last.last < range.first,
    }
}
