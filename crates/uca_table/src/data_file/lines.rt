//! Reads a line of a data file that gives a range a property, such as `ccc 0301..0301 230`.

ghost use Rattle.std.specs.Prelude.{◌≡◌, ℕ, List, [], ◌∷◌, MatchOption, MatchResult, IfOk, codes, true};
ghost use Rattle.uca_lines.specs.Leads.{BeginsWord};
ghost use Rattle.uca_lines.specs.Numbers.{class_of};
ghost use Rattle.uca_lines.specs.CodePointRanges.{range_of};
ghost use Rattle.uca_table.specs.DataLines.{AreWords, read_words, range_read};
ghost use Rattle.uca_table.specs.inside.DataSteps.{IsNumbered};

use uca_lines::fields::{RangeSyntax, class_number, code_point_range, cut_word, skip_blanks};
use uca_lines::files::FaultKind;
use uca_values::{ClassRange, CodePointRange};

/// A line that gives a property to the code points of a range.
#[derive(Drop)]
pub enum RangeLine {
    /// `ccc FIRST..LAST N`: their combining class.
    Class(ClassRange),
    /// `core FIRST..LAST`: they are core Han.
    Core(CodePointRange),
    /// `other FIRST..LAST`: they are unified ideographs outside core Han.
    Other(CodePointRange),
}

/// What a line says that is neither empty nor the header; its comment and its outer blanks are cut off.
///
/// # Errors
///
/// The first of these in the line:
///
/// - `Line`: its first word is not `ccc`, `core` or `other`, it has another number of words, or the range has no `..`.
/// - `CodePoint`: an end of the range is not a code point.
/// - `Weight`: the class is not a decimal number from 1 to 254 without leading zeros.
pub fn range_line(text: &[u8]) -> Result<RangeLine, FaultKind>
    ensures value { (words : List (List ℕ)) → AreWords text.now words → result ≡ read_words words }
    ensures numbered { IfOk result IsNumbered }
{
    let Some((kind, rest)) = next_word(text) else {
        return Err(FaultKind::Line);
    };
    let Some((range, rest)) = next_word(rest) else {
        return Err(FaultKind::Line);
    };
    let Some((number, rest)) = next_word(rest) else {
        return han_line(kind, range);
    };
    if next_word(rest).is_some() {
        return Err(FaultKind::Line);
    }
    class_line(kind, range, number)
}

// The first word, and what follows it; `None` if there is none.
fn next_word(text: &[u8]) -> Option<(&[u8], &[u8])>
    ensures { (words : List (List ℕ)) → AreWords text.now words → MatchOption result (words ≡ [])
        (λ w. (tail : List (List ℕ)) × (words ≡ w.0.now ∷ tail) × AreWords w.1.now tail) }
{
    let text = skip_blanks(text);
    if text.is_empty() {
        return None;
    }
    Some(cut_word(text))
}

fn han_line(kind: &[u8], range: &[u8]) -> Result<RangeLine, FaultKind>
    ensures value { result ≡ read_words (kind.now ∷ range.now ∷ []) }
    ensures numbered { IfOk result IsNumbered }
{
    if kind == b"core".as_slice() {
        Ok(RangeLine::Core(code_points(range)?))
    } else if kind == b"other".as_slice() {
        Ok(RangeLine::Other(code_points(range)?))
    } else {
        Err(FaultKind::Line)
    }
}

fn class_line(kind: &[u8], range: &[u8], number: &[u8]) -> Result<RangeLine, FaultKind>
    ensures value { result ≡ read_words (kind.now ∷ range.now ∷ number.now ∷ []) }
    ensures numbered { IfOk result IsNumbered }
{
    if kind != b"ccc".as_slice() {
        return Err(FaultKind::Line);
    }
    let CodePointRange { first, last } = code_points(range)?;
    match class_number(number) {
        Some(class) => Ok(RangeLine::Class(ClassRange { first, last, class })),
        None => Err(FaultKind::Weight),
    }
}

fn code_points(text: &[u8]) -> Result<CodePointRange, FaultKind>
    ensures { result ≡ range_read (range_of text.now) }
{
    match code_point_range(text) {
        Ok((first, last)) => Ok(CodePointRange { first, last }),
        Err(RangeSyntax::NoDots) => Err(FaultKind::Line),
        Err(RangeSyntax::CodePoint) => Err(FaultKind::CodePoint),
    }
}
