//! What numbers of a caller mean, and which numbers a caller gets.

ghost use Rattle.std.specs.Prelude.{◌≡◌};
ghost use Rattle.uca_c.specs.Numbers.{asked_of, weighting_of, depth_of, range_of, end_of, kind_number, order_number};

use std::cmp::Ordering;
use uca_values::FaultKind;
use uca_weights::{Asked, Depth, Numbers, Weighting};

/// Which keys a range has.
#[derive(Clone, Copy, Debug, PartialEq, Eq)]
pub enum RangeOf {
    /// Those whose level 1 is the same.
    SameLetters,
    /// Those whose levels 1 and 2 are the same.
    SameAccents,
    /// Those whose level 1 begins with the letters.
    Begins,
}

/// An end of a range.
#[derive(Clone, Copy, Debug, PartialEq, Eq)]
pub enum End {
    /// The least key of the range is not less than it.
    Low,
    /// All keys of the range are less than it.
    High,
}

// The weighting that is asked for: 0 asks for none. Other numbers have no meaning.
fn asked_weighting(number: u32) -> Option<Option<Weighting>>
    ensures { result ≡ weighting_of number }
{
    match number {
        0 => Some(None),
        1 => Some(Some(Weighting::NonIgnorable)),
        2 => Some(Some(Weighting::Shifted)),
        _ => None,
    }
}

// How far texts are compared that is asked for, and how their numbers are. Other numbers have no meaning.
fn asked_depth(number: u32) -> Option<(Depth, Numbers)>
    ensures { result ≡ depth_of number }
{
    match number {
        0 => Some((Depth::Weights, Numbers::AsText)),
        1 => Some((Depth::Identical, Numbers::AsText)),
        2 => Some((Depth::Weights, Numbers::ByValue)),
        3 => Some((Depth::Identical, Numbers::ByValue)),
        _ => None,
    }
}

// The settings that are asked for.
pub fn asked_settings(weighting: u32, depth: u32) -> Option<Asked>
    ensures { result ≡ asked_of weighting depth }
{
    match asked_weighting(weighting) {
        Some(weighting) => match asked_depth(depth) {
            Some((depth, numbers)) => Some(Asked {
                weighting,
                depth,
                numbers,
            }),
            None => None,
        },
        None => None,
    }
}

// The range that is asked for. Other numbers have no meaning.
pub fn asked_range(number: u32) -> Option<RangeOf>
    ensures { result ≡ range_of number }
{
    match number {
        1 => Some(RangeOf::SameLetters),
        2 => Some(RangeOf::SameAccents),
        3 => Some(RangeOf::Begins),
        _ => None,
    }
}

// The end that is asked for. Other numbers have no meaning.
pub fn asked_end(number: u32) -> Option<End>
    ensures { result ≡ end_of number }
{
    match number {
        0 => Some(End::Low),
        1 => Some(End::High),
        _ => None,
    }
}

// The number of the kind of an error.
pub fn number_of_kind(kind: FaultKind) -> u32
    ensures { result ≡ kind_number kind }
{
    match kind {
        FaultKind::Line => 1,
        FaultKind::Order => 2,
        FaultKind::CodePoint => 3,
        FaultKind::Weight => 4,
        FaultKind::DuplicateKey => 5,
        FaultKind::Range => 6,
        FaultKind::Limit => 7,
        FaultKind::Read => 8,
        FaultKind::Memory => 9,
    }
}

// -1, 0 or 1.
pub fn number_of_order(order: Ordering) -> i32
    ensures { result ≡ order_number order }
{
    match order {
        Ordering::Less => -1,
        Ordering::Equal => 0,
        Ordering::Greater => 1,
    }
}
