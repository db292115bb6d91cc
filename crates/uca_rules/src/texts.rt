//! Reading texts, starred or not. A text is read as symbols: its characters, and in a starred text the hyphens of
//! ranges.

ghost use Rattle.std.specs.Prelude.{◌≡◌, ℕ, ◌<◌, ◌≤◌, ◌≢◌, ◌⊎◌, ◌∷◌, ◌++◌, [], ◌↔◌, take, IsTrue, IsFalse, Some, None, length, List, IfOk, IfErr, OnOk, MatchOption, true, false};
ghost use Rattle.uca_values.specs.Content.{properties_of};
ghost use Rattle.uca_text.specs.Texts.{nfd_text};
ghost use Rattle.uca_relations.specs.Relations.{IsRuleText};
ghost use Rattle.uca_rules.specs.Characters;
ghost use Rattle.uca_rules.specs.Pieces.{BeginsText, EndsText, piece_at, points_of};
ghost use Rattle.uca_rules.specs.Statements.{HasRanges, HasRangesSoFar, IsRange};
ghost use Rattle.uca_rules.specs.Faults;
ghost use Rattle.uca_rules.specs.Faults.{TextCause};
ghost use Rattle.uca_rules.specs.inside.Reading.{IsNoRuleText};
ghost use Rattle.uca_rules.specs.inside.Views.{BeginsRange, BreaksOff, EndsInHyphen, IsTextFault, ShowsWrongHyphen};

use crate::characters::{Character, Symbol};
use crate::faults::{RuleFault, RuleFaultKind};
use crate::pieces::{begins_piece, take_piece};
use std::alloc::{Allocator, Global};
use uca_text::{Normal, TextFault, normal};
use uca_values::Data;
use uca_values::limits::MOST_CODE_POINTS;

/// The byte at which the rest of the rules begins. The rules end at `end`.
pub(crate) fn place_of(end: usize, characters: &[Character]) -> usize
    ensures { result ≡ Characters.place_of end characters.now }
{
    match characters.first() {
        Some(c) => c.place,
        None => end,
    }
}

/// Reads the text at the front: its symbols replace those that are there. Returns the characters after the text.
///
/// # Errors
///
/// `EmptyText`, `Syntax`, `Escape` or `Memory`.
pub(crate) fn read_text<'a, A: Allocator>(
    symbols: &mut Vec<Symbol, A>,
    text: &'a [Character],
    starred: bool,
    end: usize,
) -> Result<&'a [Character], RuleFault>
    ensures found { IfOk result (λ rest. BeginsText starred text.now symbols.new.items rest.now) }
    ensures points { OnOk result (IsFalse starred → points_of symbols.new.items ≢ []) }
    ensures ranges { OnOk result (IsTrue starred → HasRanges symbols.new.items) }
    ensures fault { IfErr result (IsTextFault end starred text.now) }
{
    begins_text(text, starred, end)?;
    let place = place_of(end, text);
    symbols.clear();
    let mut rest = text;
    while !ends_text(rest, starred) {
        let count = symbols.len();
        match take_piece(symbols, rest, starred) {
            Err(_) => return Err(RuleFault {
                byte: place,
                kind: RuleFaultKind::Memory,
            }),
            Ok(None) => return Err(broken(&symbols[..count], rest, starred)),
            Ok(Some(after)) => rest = after,
        }
        if starred {
            test_hyphens(symbols, count)?;
        }
    }
    match last_hyphen(symbols) {
        Some(byte) if starred => Err(RuleFault {
            byte,
            kind: RuleFaultKind::Syntax,
        }),
        _ => Ok(rest),
    }
}

/// Why there is no whole piece where one begins. The symbols are those of the pieces before.
fn broken(symbols: &[Symbol], rest: &[Character], starred: bool) -> RuleFault
    requires begins { ¬ (EndsText starred rest.now) }
    requires none { piece_at starred rest.now ≡ None }
    requires so_far { IsTrue starred → HasRangesSoFar symbols.now }
    ensures { BreaksOff starred symbols.now rest.now result.byte result.kind }
{
    let first = rest[0];
    if first.code == '\\' {
        return RuleFault {
            byte: first.place,
            kind: RuleFaultKind::Escape,
        };
    }
    let byte = match rest.get(1) {
        Some(c) if starred && c.code != '\'' => {
            let hyphen = wrong_hyphen(symbols, Symbol::Literal(*c));
            hyphen.unwrap_or(first.place)
        }
        _ => first.place,
    };
    RuleFault {
        byte,
        kind: RuleFaultKind::Syntax,
    }
}

/// Tests the symbols around each `-`, as far as the symbols from `count` on show them.
fn test_hyphens(symbols: &[Symbol], count: usize) -> Result<(), RuleFault>
    requires within { count ≤ length symbols.now }
    requires so_far { HasRangesSoFar (take count symbols.now) }
    ensures found { OnOk result (HasRangesSoFar symbols.now) }
    ensures fault { IfErr result (λ fault. (fault.kind ≡ RuleFaultKind.Syntax) × ShowsWrongHyphen symbols.now fault.byte) }
{
    for at in count..symbols.len() {
        if let Some(byte) = wrong_hyphen(&symbols[..at], symbols[at]) {
            return Err(RuleFault {
                byte,
                kind: RuleFaultKind::Syntax,
            });
        }
    }
    Ok(())
}

/// The `-` that stands for no range, as the symbol after the others shows.
fn wrong_hyphen(before: &[Symbol], symbol: Symbol) -> Option<usize>
    requires { HasRangesSoFar before.now }
    ensures { MatchOption result (HasRangesSoFar (before.now ++ symbol ∷ [])) (ShowsWrongHyphen (before.now ++ symbol ∷ [])) }
{
    let Some((last, front)) = before.split_last() else {
        return match symbol {
            Symbol::Hyphen(place) => Some(place),
            Symbol::Literal(_) => None,
        };
    };
    match (*last, symbol) {
        (Symbol::Hyphen(_), _) if begins_range(front, symbol) => None,
        (Symbol::Hyphen(place), _) => Some(place),
        (Symbol::Literal(_), Symbol::Hyphen(place)) => match last_hyphen(front) {
            Some(_) => Some(place),
            None => None,
        },
        (Symbol::Literal(_), Symbol::Literal(_)) => None,
    }
}

/// The byte of the last symbol, if it is a hyphen.
fn last_hyphen(symbols: &[Symbol]) -> Option<usize>
    ensures { MatchOption result ((place : ℕ) → ¬ (EndsInHyphen symbols.now place)) (EndsInHyphen symbols.now) }
{
    let (last, _) = symbols.split_last()?;
    match *last {
        Symbol::Hyphen(place) => Some(place),
        Symbol::Literal(_) => None,
    }
}

/// Whether there is a range from the last of the symbols to another one.
fn begins_range(symbols: &[Symbol], end: Symbol) -> bool
    ensures { IsTrue result ↔ BeginsRange symbols.now end }
{
    let Some((last, _)) = symbols.split_last() else {
        return false;
    };
    match (*last, end) {
        (Symbol::Literal(x), Symbol::Literal(y)) => is_range(x.code, y.code),
        _ => false,
    }
}

/// Whether `x-y` stands for code points from x to y, and none of them is a surrogate.
fn is_range(x: char, y: char) -> bool
    ensures { IsTrue result ↔ IsRange x y }
{
    x < y && (y <= '\u{D7FF}' || x >= '\u{E000}')
}

/// Tests that a text may begin there.
fn begins_text(text: &[Character], starred: bool, end: usize) -> Result<(), RuleFault>
    ensures found { OnOk result (¬ (EndsText starred text.now)) }
    ensures fault { IfErr result (λ fault. TextCause end starred text.now fault.byte fault.kind) }
{
    let byte = place_of(end, text);
    match text.first() {
        Some(c) if begins_piece(starred, c.code) => Ok(()),
        Some(c) if !is_part(c.code) => Err(RuleFault {
            byte,
            kind: RuleFaultKind::Syntax,
        }),
        _ => Err(RuleFault {
            byte,
            kind: RuleFaultKind::EmptyText,
        }),
    }
}

/// `&`, `<`, `=` or `/`.
fn is_part(c: char) -> bool
    ensures { result ≡ Faults.is_part c }
{
    matches!(c, '&' | '<' | '=' | '/')
}

/// Whether no piece begins there.
fn ends_text(rest: &[Character], starred: bool) -> bool
    ensures is { IsTrue result → EndsText starred rest.now }
    ensures none { IsFalse result → ¬ (EndsText starred rest.now) }
{
    match rest.first() {
        Some(c) => !begins_piece(starred, c.code),
        None => true,
    }
}

/// The text of the symbols in Normalization Form D.
///
/// # Errors
///
/// `Limit` if it has more than 16 code points, or `Memory`.
pub(crate) fn rule_text<A: Allocator, T: Allocator>(
    global: Global,
    letters: &mut String<A>,
    symbols: &[Symbol],
    properties: &Data<T>,
) -> Result<Normal, RuleFaultKind>
    requires { points_of symbols.now ≢ [] }
    ensures found { IfOk result (λ text. (text ≡ nfd_text (properties_of properties.now) (points_of symbols.now)) × IsRuleText text) }
    ensures fault { IfErr result (IsNoRuleText (points_of symbols.now)) }
{
    letters.clear();
    for symbol in symbols {
        if let Symbol::Literal(c) = symbol {
            letters.push(c.code)?;
        }
    }
    match normal(global, letters, properties) {
        Ok(text) => {
            if text.chars().len() <= MOST_CODE_POINTS {
                Ok(text)
            } else {
                drop(text);
                Err(RuleFaultKind::Limit)
            }
        }
        Err(TextFault::Memory) => Err(RuleFaultKind::Memory),
        Err(TextFault::TooLong) => Err(RuleFaultKind::Limit),
        Err(TextFault::LongRun(_)) => Err(RuleFaultKind::Limit),
    }
}
