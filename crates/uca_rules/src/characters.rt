//! The characters of rules, with the bytes at which they begin.

ghost use Rattle.std.specs.Prelude.{◌≡◌, ◌≤◌, IfErr, IfOk, length};
ghost use Rattle.uca_rules.specs.Characters;

use crate::faults::{RuleFault, RuleFaultKind};
use std::alloc::Allocator;

/// A character of rules, or one that an escape gives.
#[derive(Clone, Copy)]
pub(crate) struct Character {
    /// The character.
    pub(crate) code: char,
    /// The byte at which it is written, counted from 0.
    pub(crate) place: usize,
}

/// What a text is made of: its characters, and in a starred text the hyphens of ranges.
#[derive(Clone, Copy)]
pub(crate) enum Symbol {
    /// A character of the text.
    Literal(Character),
    /// The `-` of a range, and its byte.
    Hyphen(usize),
}

/// The characters of rules.
pub(crate) fn characters<A: Allocator>(alloc: A, text: &str) -> Result<Vec<Character, A>, RuleFault>
    ensures found { IfOk result (λ found. found.items ≡ Characters.characters text.now) }
    ensures fault { IfErr result (λ fault. (fault.kind ≡ RuleFaultKind.Memory) × (fault.byte ≤ length text.now)) }
{
    let mut characters = Vec::new(alloc);
    for (place, code) in text.char_indices() {
        if characters.push(Character { code, place }).is_err() {
            return Err(RuleFault {
                byte: place,
                kind: RuleFaultKind::Memory,
            });
        }
    }
    Ok(characters)
}

/// Pattern_White_Space (UAX #31).
pub(crate) fn is_white(c: char) -> bool
    ensures { result ≡ Characters.is_white c }
{
    matches!(
        c,
        '\u{9}'..='\u{D}' | ' ' | '\u{85}' | '\u{200E}' | '\u{200F}' | '\u{2028}' | '\u{2029}'
    )
}

/// Whether a comment ends with the character.
fn ends_comment(c: char) -> bool
    ensures { result ≡ Characters.ends_comment c }
{
    matches!(
        c,
        '\u{A}' | '\u{C}' | '\u{D}' | '\u{85}' | '\u{2028}' | '\u{2029}'
    )
}

/// What follows the white space and the comments at the front.
pub(crate) fn after_gaps(characters: &[Character]) -> &[Character]
    ensures { result.now ≡ Characters.after_gaps characters.now }
{
    let mut inside = false;
    for (at, c) in characters.iter().enumerate() {
        if inside {
            inside = !ends_comment(c.code);
        } else if c.code == '#' {
            inside = true;
        } else if !is_white(c.code) {
            return &characters[at..];
        }
    }
    &[]
}
