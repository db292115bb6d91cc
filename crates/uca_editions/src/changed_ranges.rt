//! The ranges of code points that change. A border is a code point at which a range begins or has ended. Between two borders
//! nothing changes, so a border says how it is for all code points up to the next one.

ghost use Rattle.std.specs.Prelude.{◌≡◌, OnOk};
ghost use Rattle.uca_change_files.specs.Changes.{OfRange, put_last};
ghost use Rattle.uca_change_files.specs.Steps.{MayAdd};

use crate::Editions;
use crate::borders::{push_data_borders, push_implicit_borders};
use crate::changed_texts::unless_memory;
use crate::points::{have_same_pair, say_same};
use std::alloc::{AllocError, Allocator};
use uca_change_files::{ChangeList, CodePointRange};
use uca_values::{Data, Table};

/// The last code point below the surrogates.
const BELOW_SURROGATES: char = '\u{D7FF}';
/// The last code point.
pub(crate) const LAST_POINT: char = '\u{10FFFF}';

/// Lists the ranges of code points that change. An error means that it ran out of memory.
pub(crate) fn list_ranges<A: Allocator + Copy>(
    alloc: A,
    list: &mut ChangeList<A>,
    editions: &Editions<A>,
) -> Result<(), AllocError> {
    let mut borders = Vec::from_slice(alloc, &['\0', '\u{E000}'])?;
    let listed = list_between(alloc, list, editions, &mut borders);
    drop(borders);
    listed
}

// As `list_ranges`, given the first code points before and after the surrogates. The borders of all ranges are added.
fn list_between<A: Allocator + Copy>(
    alloc: A,
    list: &mut ChangeList<A>,
    editions: &Editions<A>,
    borders: &mut Vec<char, A>,
) -> Result<(), AllocError> {
    push_edition(borders, editions.old, editions.old_data)?;
    push_edition(borders, editions.new, editions.new_data)?;
    borders.sort_unstable();
    push_between(alloc, list, editions, borders)
}

// Lists the ranges that change, each from a border to one after it.
fn push_between<A: Allocator + Copy>(
    alloc: A,
    list: &mut ChangeList<A>,
    editions: &Editions<A>,
    borders: &[char],
) -> Result<(), AllocError> {
    let mut open: Option<char> = None;
    for border in borders {
        let changes = is_changed(alloc, editions, *border);
        pass_border(list, &mut open, *border, changes)?;
    }
    match open {
        None => Ok(()),
        Some(first) => push_range(list, first, LAST_POINT),
    }
}

// Opens a range at a border if it changes, and ends the open one if it does not. A range that ends is listed.
fn pass_border<A: Allocator>(
    list: &mut ChangeList<A>,
    open: &mut Option<char>,
    border: char,
    changes: bool,
) -> Result<(), AllocError> {
    match *open {
        None if changes => {
            *open = Some(border);
            Ok(())
        }
        Some(first) if !changes => {
            *open = None;
            push_range(list, first, point_before(border))
        }
        _ => Ok(()),
    }
}

/// Lists a range. One that a list cannot have is left out: the audit names its first code point. An error means that it ran
/// out of memory.
pub(crate) fn push_range<A: Allocator>(
    list: &mut ChangeList<A>,
    first: char,
    last: char,
) -> Result<(), AllocError>
    ensures { OnOk result (MayAdd list.old (OfRange (record { first = first; last = last })) →
        list.new ≡ put_last (OfRange (record { first = first; last = last })) list.old) }
{
    match list.push_range(CodePointRange { first, last }) {
        Ok(()) => Ok(()),
        Err(kind) => unless_memory(kind),
    }
}

// The code point before another one.
fn point_before(point: char) -> char {
    match char::from_u32(u32::from(point).saturating_sub(1)) {
        Some(before) => before,
        None => BELOW_SURROGATES,
    }
}

// Whether a code point has another class, is another kind of Han, or has other implicit weights by the ranges of the headers.
fn is_changed<A: Allocator + Copy>(alloc: A, editions: &Editions<A>, point: char) -> bool {
    let old = editions.old;
    let new = editions.new;
    !say_same(editions.old_data, editions.new_data, point)
        || !have_same_pair(alloc, &old.header, &new.header, point)
}

// Adds the borders of the ranges of a table and its data file.
fn push_edition<A: Allocator>(
    borders: &mut Vec<char, A>,
    table: &Table<A>,
    data: &Data<A>,
) -> Result<(), AllocError> {
    push_implicit_borders(borders, &table.header.ranges)?;
    push_data_borders(borders, data)
}
