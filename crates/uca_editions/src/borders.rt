//! Borders: the code points at which ranges begin, and those at which they have ended. Between two of them nothing changes.

ghost use Rattle.std.specs.Prelude.{ℕ, ◌+◌, IfOk, OnOk, Contains};
ghost use Rattle.std.specs.Char.{IsScalar};
ghost use Rattle.uca_editions.specs.inside.Borders.{AddsBorders, HasFirsts, HasPairBorders, HasPointBorders, HasDataBorders};

use std::alloc::{AllocError, Allocator};
use uca_change_files::ChangeList;
use uca_values::{ClassRange, CodePointRange, Data, Header, ImplicitRange};

/// Adds the borders of the ranges of two headers and of changed ranges. An error means that it ran out of memory.
pub(crate) fn push_pair_borders<A: Allocator, T: Allocator>(
    list: &mut Vec<char, A>,
    old: &Header<T>,
    new: &Header<T>,
    changes: &ChangeList<T>,
) -> Result<(), AllocError>
    requires { HasFirsts list.old.items }
    ensures { OnOk result (HasPairBorders old.now.ranges new.now.ranges changes.now.ranges list.new.items) }
{
    push_implicit_borders(list, &old.ranges)?;
    push_implicit_borders(list, &new.ranges)?;
    push_ranges(list, changes.ranges())
}

/// Adds the borders of the ranges of two data files and of changed ranges. An error means that it ran out of memory.
pub(crate) fn push_point_borders<A: Allocator, T: Allocator>(
    list: &mut Vec<char, A>,
    old: &Data<T>,
    new: &Data<T>,
    changes: &ChangeList<T>,
) -> Result<(), AllocError>
    requires { HasFirsts list.old.items }
    ensures { OnOk result (HasPointBorders old.now new.now changes.now.ranges list.new.items) }
{
    push_data_borders(list, old)?;
    push_data_borders(list, new)?;
    push_ranges(list, changes.ranges())
}

/// The first code point, and the first after the surrogates. An error means that it ran out of memory.
pub(crate) fn first_points<A: Allocator>(alloc: A) -> Result<Vec<char, A>, AllocError>
    ensures { IfOk result (λ list. HasFirsts list.items) }
{
    Vec::from_slice(alloc, &['\0', '\u{E000}'])
}

/// Adds the borders of the ranges of a data file. An error means that it ran out of memory; some may then be added.
pub(crate) fn push_data_borders<A: Allocator, T: Allocator>(
    list: &mut Vec<char, A>,
    data: &Data<T>,
) -> Result<(), AllocError>
    ensures kept { OnOk result ((point : ℕ) → Contains list.old.items point → Contains list.new.items point) }
    ensures added { OnOk result (HasDataBorders «data».now list.new.items) }
{
    push_class_ranges(list, data.classes())?;
    push_ranges(list, data.core())?;
    push_ranges(list, data.other())
}

// Adds the borders of ranges with a class.
fn push_class_ranges<A: Allocator>(
    list: &mut Vec<char, A>,
    ranges: &[ClassRange],
) -> Result<(), AllocError>
    ensures { OnOk result (AddsBorders (λ r. r.first) (λ r. r.last) ranges.now list.old.items list.new.items) }
{
    for range in ranges {
        push_border(list, range.first, range.last)?;
    }
    Ok(())
}

// Adds the borders of ranges of code points.
fn push_ranges<A: Allocator>(
    list: &mut Vec<char, A>,
    ranges: &[CodePointRange],
) -> Result<(), AllocError>
    ensures { OnOk result (AddsBorders (λ r. r.first) (λ r. r.last) ranges.now list.old.items list.new.items) }
{
    for range in ranges {
        push_border(list, range.first, range.last)?;
    }
    Ok(())
}

/// Adds the borders of ranges for implicit weights. An error means that it ran out of memory; some may then be added.
pub(crate) fn push_implicit_borders<A: Allocator>(
    list: &mut Vec<char, A>,
    ranges: &[ImplicitRange],
) -> Result<(), AllocError>
    ensures { OnOk result (AddsBorders (λ r. r.first) (λ r. r.last) ranges.now list.old.items list.new.items) }
{
    for range in ranges {
        push_border(list, range.first, range.last)?;
    }
    Ok(())
}

// Adds the first code point of a range, and the one after its last, if there is one.
fn push_border<A: Allocator>(
    list: &mut Vec<char, A>,
    first: char,
    last: char,
) -> Result<(), AllocError>
    ensures kept { OnOk result ((point : ℕ) → Contains list.old.items point → Contains list.new.items point) }
    ensures first { OnOk result (Contains list.new.items first) }
    ensures after { OnOk result (IsScalar (last + 1) → Contains list.new.items (last + 1)) }
{
    push_point(list, first)?;
    match char::from_u32(u32::from(last) + 1) {
        None => Ok(()),
        Some(after) => push_point(list, after),
    }
}

// Adds a code point.
fn push_point<A: Allocator>(list: &mut Vec<char, A>, point: char) -> Result<(), AllocError>
    ensures kept { OnOk result ((other : ℕ) → Contains list.old.items other → Contains list.new.items other) }
    ensures added { OnOk result (Contains list.new.items point) }
{
    match list.push(point) {
        Ok(()) => Ok(()),
        Err(_) => Err(AllocError),
    }
}
