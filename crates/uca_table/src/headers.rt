//! The lines of a table file before its rows.

ghost use Rattle.std.specs.Prelude.{◌≡◌, ◌⊎◌, ◌+◌, ◌<◌, ◌↔◌, IsTrue, IfOk, IfErr, MatchOption};
ghost use Rattle.std.specs.List.{list_all};
ghost use Rattle.uca_values.specs.Content.{is_version_name, is_name_byte, IsImplicitRange, Agree};
ghost use Rattle.uca_table.specs.Headers.{IsRangeText, MayFollow, RangeTextCause};
ghost use Rattle.uca_table.specs.CanonicalWords.{setting_word};

use uca_lines::fields::{RangeSyntax, code_point_range, cut_at, trim, weight};
use uca_values::{FaultKind, ImplicitRange};
use uca_weights::Weighting;

/// How many bytes the name of a version may have.
const LONGEST_VERSION: usize = 32;

/// The leads that a range may have.
const FIRST_LEAD: u16 = 0xFB00;

const LAST_LEAD: u16 = 0xFB3F;

/// How many code points there are below one lead.
const CODE_POINTS_BELOW_LEAD: u32 = 0x8000;

/// Whether a word is 1 to 32 ASCII letters, digits, `.` or `-`.
pub fn is_version_name(word: &[u8]) -> bool
    ensures { result ≡ is_version_name word.now }
{
    if word.is_empty() || word.len() > LONGEST_VERSION {
        return false;
    }
    are_name_bytes(word)
}

fn are_name_bytes(word: &[u8]) -> bool
    ensures { result ≡ list_all is_name_byte word.now }
{
    word.iter().all(|byte| is_name_byte(*byte))
}

fn is_name_byte(byte: u8) -> bool
    ensures { result ≡ is_name_byte byte }
{
    matches!(byte, b'0'..=b'9' | b'A'..=b'Z' | b'a'..=b'z' | b'.' | b'-')
}

/// The weighting that the word after `@variable` names, or `None` for another word.
pub fn setting(word: &[u8]) -> Option<Weighting>
    ensures { MatchOption result ((w : _) → word.now ≡ setting_word w → ⊥) (λ w. word.now ≡ setting_word w) }
{
    if word == b"non-ignorable".as_slice() {
        return Some(Weighting::NonIgnorable);
    }
    if word == b"shifted".as_slice() {
        return Some(Weighting::Shifted);
    }
    None
}

/// The range that the text after `@implicitweights` spells: `FIRST..LAST; LEAD`, with or without blanks
/// around its parts.
///
/// # Errors
///
/// `Line` if there is no `;` or no `..`, then `CodePoint` and `Weight`.
pub fn read_range(text: &[u8]) -> Result<ImplicitRange, FaultKind>
    ensures found { IfOk result (λ range. IsRangeText text.now range) }
    ensures fault { IfErr result (λ kind. RangeTextCause text.now kind) }
{
    let (ends, back) = cut_at(text, b';');
    let Some((_, back)) = back.split_first() else {
        return Err(FaultKind::Line);
    };
    let ends = match code_point_range(trim(ends)) {
        Ok(ends) => ends,
        Err(RangeSyntax::NoDots) => return Err(FaultKind::Line),
        Err(RangeSyntax::CodePoint) => return Err(FaultKind::CodePoint),
    };
    let Some(lead) = weight(trim(back)) else {
        return Err(FaultKind::Weight);
    };
    Ok(ImplicitRange {
        first: ends.0,
        last: ends.1,
        lead,
    })
}

/// Whether a range may come after these.
pub fn may_follow(earlier: &[ImplicitRange], range: ImplicitRange) -> bool
    ensures { IsTrue result ↔ MayFollow earlier.now range }
{
    if !is_implicit_range(range) {
        return false;
    }
    for other in earlier {
        if !agree(*other, range) {
            return false;
        }
    }
    true
}

fn is_implicit_range(range: ImplicitRange) -> bool
    ensures { IsTrue result ↔ IsImplicitRange range }
{
    range.first <= range.last
        && range.lead >= FIRST_LEAD
        && range.lead <= LAST_LEAD
        && u32::from(range.last) < u32::from(range.first) + CODE_POINTS_BELOW_LEAD
}

// Whether two ranges have no code point in common and, if they have one lead, all their code points have room below it.
fn agree(range: ImplicitRange, other: ImplicitRange) -> bool
    ensures { IsTrue result ↔ Agree range other }
{
    are_apart(range, other) && (range.lead != other.lead || are_near(range, other))
}

fn are_apart(range: ImplicitRange, other: ImplicitRange) -> bool
    ensures { IsTrue result ↔ ((range.last < other.first) ⊎ (other.last < range.first)) }
{
    range.last < other.first || other.last < range.first
}

fn are_near(range: ImplicitRange, other: ImplicitRange) -> bool
    ensures { IsTrue result
        ↔ ((range.last < other.first + 0x8000) × (other.last < range.first + 0x8000)) }
{
    u32::from(range.last) < u32::from(other.first) + CODE_POINTS_BELOW_LEAD
        && u32::from(other.last) < u32::from(range.first) + CODE_POINTS_BELOW_LEAD
}
