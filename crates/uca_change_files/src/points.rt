//! Code points in a line, each in its one spelling.

ghost use Rattle.std.specs.Prelude.{◌≡◌, ℕ, List, MatchOption, IfOk};
ghost use Rattle.std.specs.Option.{option_map};
ghost use Rattle.uca_values.specs.declared.CodePointRange.{CodePointRange};
ghost use Rattle.uca_change_files.specs.Steps.{IsPoint, ArePoints, AreEnds, space_at};

use std::alloc::{AllocError, Allocator};
use uca_lines::fields::{code_point, cut_at, halves, six_digits, spare_digits};
use uca_values::CodePointRange;

// The code point that a word spells; `None` if it spells none.
fn point_of(word: &[u8]) -> Option<char>
    ensures { MatchOption result ((c : ℕ) → ¬ (IsPoint word.now c)) (IsPoint word.now) }
{
    let point = code_point(word)?;
    let digits = six_digits(u32::from(point));
    if word == &digits[spare_digits(point)..] {
        Some(point)
    } else {
        None
    }
}

/// The code points that a text spells, each after a space; `None` if it spells none.
///
/// # Errors
///
/// An allocation failed.
pub(crate) fn read_points<A: Allocator>(
    alloc: A,
    text: &[u8],
) -> Result<Option<Vec<char, A>>, AllocError>
    ensures { IfOk result (λ found. MatchOption found ((points : List ℕ) → ¬ (ArePoints text.now points)) (λ points. ArePoints text.now points.items)) }
{
    let mut points = Vec::new(alloc);
    let mut rest = text;
    while let Some(more) = after_space(rest) {
        let (word, after) = cut_at(more, b' ');
        let Some(point) = point_of(word) else {
            return Ok(None);
        };
        points.push(point)?;
        rest = after;
    }
    if rest.is_empty() {
        Ok(Some(points))
    } else {
        Ok(None)
    }
}

// What follows the space at the front of a text.
fn after_space(text: &[u8]) -> Option<&[u8]>
    ensures { option_map (λ more. more.now) result ≡ space_at text.now }
{
    match text {
        [b' ', more @ ..] => Some(more),
        _ => None,
    }
}

/// The range `FIRST..LAST` that a text spells, if it spells one. The last code point may be less than the first.
pub(crate) fn read_range(text: &[u8]) -> Option<CodePointRange>
    ensures { MatchOption result ((r : CodePointRange) → ¬ (AreEnds text.now r)) (AreEnds text.now) }
{
    let (first, last) = halves(text)?;
    let first = point_of(first)?;
    let last = point_of(last)?;
    Some(CodePointRange { first, last })
}
