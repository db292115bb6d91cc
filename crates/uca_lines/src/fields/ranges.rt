//! Reads a range of code points, `FIRST..LAST`.

ghost use Rattle.std.specs.Prelude.{◌≡◌};
ghost use Rattle.uca_lines.specs.CodePointRanges.{range_of};

use crate::fields::RangeSyntax;
use crate::fields::cuts::halves;
use crate::fields::numbers::code_point;

/// The ends of the range that the text `FIRST..LAST` stands for, without blanks inside. The first may be greater than
/// the last.
///
/// # Errors
///
/// `NoDots` if the text has no `..`; `CodePoint` if the text before or after its first `..` is not a code point.
pub fn code_point_range(text: &[u8]) -> Result<(char, char), RangeSyntax>
    ensures { result ≡ range_of text.now }
{
    let Some((first, last)) = halves(text) else {
        return Err(RangeSyntax::NoDots);
    };
    match (code_point(first), code_point(last)) {
        (Some(first), Some(last)) => Ok((first, last)),
        _ => Err(RangeSyntax::CodePoint),
    }
}
