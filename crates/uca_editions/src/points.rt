//! The first code point outside of changed ranges that is not as it was.

ghost use Rattle.std.specs.Prelude.{◌↔◌, IfOk, IsTrue};
ghost use Rattle.uca_values.specs.Content.{properties_of};
ghost use Rattle.uca_values.specs.Implicit.{implicit};
ghost use Rattle.uca_changes.specs.Points.{IsSamePair, IsSamePoint, FindsFirstOutside};
ghost use Rattle.uca_editions.specs.inside.Borders.{FindsLeast, IfOutside, IsBelow};

use crate::borders::{first_points, push_pair_borders, push_point_borders};
use std::alloc::{AllocError, Allocator};
use uca_change_files::ChangeList;
use uca_values::{Data, Header};

/// The first code point outside of the changed ranges that has other implicit weights by the ranges of the new header
/// than by those of the old.
///
/// It looks at the code points at which a range begins or has ended, and at no others.
///
/// # Errors
///
/// An allocation that fails.
pub(crate) fn first_other_pair<A: Allocator + Copy, T: Allocator>(
    alloc: A,
    old: &Header<T>,
    new: &Header<T>,
    changes: &ChangeList<T>,
) -> Result<Option<char>, AllocError>
    ensures { IfOk result (FindsFirstOutside changes.now.ranges (IsSamePair old.now.ranges new.now.ranges)) }
{
    let mut borders = first_points(alloc)?;
    match push_pair_borders(&mut borders, old, new, changes) {
        Ok(()) => Ok(least_other_pair(alloc, old, new, changes, &borders)),
        Err(_) => Err(AllocError),
    }
}

/// The first code point outside of the changed ranges that has another class, or is another kind of Han, in the new data
/// file.
///
/// It looks at the code points at which a range begins or has ended, and at no others.
///
/// # Errors
///
/// An allocation that fails.
pub(crate) fn first_other_point<A: Allocator + Copy, T: Allocator>(
    alloc: A,
    old: &Data<T>,
    new: &Data<T>,
    changes: &ChangeList<T>,
) -> Result<Option<char>, AllocError>
    ensures { IfOk result (FindsFirstOutside changes.now.ranges (IsSamePoint (properties_of old.now) (properties_of new.now))) }
{
    let mut borders = first_points(alloc)?;
    match push_point_borders(&mut borders, old, new, changes) {
        Ok(()) => Ok(least_other_point(old, new, changes, &borders)),
        Err(_) => Err(AllocError),
    }
}

// The least of these code points whose implicit weights differ.
fn least_other_pair<A: Allocator + Copy, T: Allocator>(
    alloc: A,
    old: &Header<T>,
    new: &Header<T>,
    changes: &ChangeList<T>,
    points: &[char],
) -> Option<char>
    ensures { FindsLeast (IfOutside changes.now.ranges (IsSamePair old.now.ranges new.now.ranges)) points.now result }
{
    let mut least = None;
    for point in points {
        if is_below(*point, least) && !is_same_pair(alloc, old, new, changes, *point) {
            least = Some(*point);
        }
    }
    least
}

// The least of these code points that the data files differ in.
fn least_other_point<T: Allocator>(
    old: &Data<T>,
    new: &Data<T>,
    changes: &ChangeList<T>,
    points: &[char],
) -> Option<char>
    ensures { FindsLeast (IfOutside changes.now.ranges (IsSamePoint (properties_of old.now) (properties_of new.now))) points.now result }
{
    let mut least = None;
    for point in points {
        if is_below(*point, least) && !is_same_point(old, new, changes, *point) {
            least = Some(*point);
        }
    }
    least
}

// Whether the code point is less than the least so far, if there is one.
fn is_below(point: char, least: Option<char>) -> bool
    ensures { IsTrue result ↔ IsBelow point least }
{
    match least {
        None => true,
        Some(least) => point < least,
    }
}

// Whether a changed range has the code point, or its implicit weights by the ranges of both headers are the same.
fn is_same_pair<A: Allocator + Copy, T: Allocator>(
    alloc: A,
    old: &Header<T>,
    new: &Header<T>,
    changes: &ChangeList<T>,
    point: char,
) -> bool
    ensures { IsTrue result ↔ IfOutside changes.now.ranges (IsSamePair old.now.ranges new.now.ranges) point }
{
    changes.has_point(point) || have_same_pair(alloc, old, new, point)
}

/// Whether the implicit weights of a code point by the ranges of both headers are the same.
pub(crate) fn have_same_pair<A: Allocator + Copy, T: Allocator>(
    alloc: A,
    old: &Header<T>,
    new: &Header<T>,
    point: char,
) -> bool
    ensures { IsTrue result ↔ IsSamePair old.now.ranges new.now.ranges point }
{
    // Looked at, so that the proof knows which leads the ranges may have.
    let _ = &old.ranges;
    let _ = &new.ranges;
    // By a data file that says nothing the weights are the same exactly then.
    let nothing = Data::new(alloc);
    old.implicit(&nothing, point) == new.implicit(&nothing, point)
}

// Whether a changed range has the code point, or both data files say the same of it.
fn is_same_point<T: Allocator>(
    old: &Data<T>,
    new: &Data<T>,
    changes: &ChangeList<T>,
    point: char,
) -> bool
    ensures { IsTrue result ↔ IfOutside changes.now.ranges (IsSamePoint (properties_of old.now) (properties_of new.now)) point }
{
    changes.has_point(point) || say_same(old, new, point)
}

/// Whether both data files say the same for a code point: its class, and whether it is an ideograph of either kind.
pub(crate) fn say_same<T: Allocator>(old: &Data<T>, new: &Data<T>, point: char) -> bool
    ensures { IsTrue result ↔ IsSamePoint (properties_of old.now) (properties_of new.now) point }
{
    old.class(point) == new.class(point)
        && old.is_core(point) == new.is_core(point)
        && old.is_other(point) == new.is_other(point)
}
