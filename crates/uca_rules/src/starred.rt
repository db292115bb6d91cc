//! Reading the targets of a starred text, each range one code point at a time.

ghost use Rattle.std.specs.Prelude.{◌≡◌, ◌≢◌, ◌<◌, ◌++◌, ◌∷◌, [], ℕ, List, length, IfErr, IfNone, IfOk, IfSome, OnOk};
ghost use Rattle.uca_relations.specs.Relations.{IsRuleText};
ghost use Rattle.uca_rules.specs.declared.characters.Character.{Character};
ghost use Rattle.uca_rules.specs.declared.characters.Symbol.{Symbol};
ghost use Rattle.uca_rules.specs.Statements.{HasRanges, IsRange, Starred, between, targets_of};
ghost use Rattle.uca_rules.specs.inside.Reading.{Adds, AddsStarred, HasTargetFault, IsReady, IsStarredFault, properties_in, state_of};

use crate::characters::{Character, Symbol};
use crate::faults::{RuleFault, RuleFaultKind};
use crate::reader::{MOST_RELATIONS, Reader};
use crate::texts::{place_of, read_text};
use std::alloc::Allocator;
use uca_weights::Strength;

impl<'a, A: Allocator + Copy, T: Allocator> Reader<'a, A, T> {
    /// Reads a starred text, and adds a relation for each of its targets.
    pub(crate) fn read_starred<'c>(
        &mut self,
        strength: Strength,
        text: &'c [Character],
    ) -> Result<&'c [Character], RuleFault>
        requires ready { IsReady self.old }
        requires anchored { IsRuleText self.old.anchor }
        requires few { length self.old.rules.relations.items < 5000 }
        ensures found { IfOk result (λ rest. AddsStarred self.old self.new strength text.now rest.now) }
        ensures fault { IfErr result (IsStarredFault (properties_in self.old.texts) self.old.texts.end (state_of self.old) strength text.now) }
    {
        self.read_symbols(strength, text, &mut Vec::new(self.texts.alloc))
    }

    /// Reads a starred text and adds its relations. Its symbols replace those that are there.
    fn read_symbols<'c>(
        &mut self,
        strength: Strength,
        text: &'c [Character],
        symbols: &mut Vec<Symbol, A>,
    ) -> Result<&'c [Character], RuleFault>
        requires ready { IsReady self.old }
        requires anchored { IsRuleText self.old.anchor }
        requires few { length self.old.rules.relations.items < 5000 }
        ensures found { IfOk result (λ rest. AddsStarred self.old self.new strength text.now rest.now) }
        ensures fault { IfErr result (IsStarredFault (properties_in self.old.texts) self.old.texts.end (state_of self.old) strength text.now) }
    {
        let rest = read_text(symbols, text, true, self.texts.end)?;
        match self.add_targets(strength, symbols, place_of(self.texts.end, rest)) {
            Ok(()) => Ok(rest),
            Err(fault) => Err(fault),
        }
    }

    /// Adds a relation for each target of a starred text.
    fn add_targets(
        &mut self,
        strength: Strength,
        symbols: &[Symbol],
        here: usize,
    ) -> Result<(), RuleFault>
        requires ready { IsReady self.old }
        requires anchored { IsRuleText self.old.anchor }
        requires ranges { HasRanges symbols.now }
        ensures added { OnOk result (Adds (Starred strength (targets_of symbols.now)) self.old self.new) }
        ensures fault { IfErr result (HasTargetFault (properties_in self.old.texts) (state_of self.old) strength (targets_of symbols.now) here) }
    {
        for at in 0..symbols.len() {
            let Symbol::Literal(c) = symbols[at] else {
                continue;
            };
            if let Some((start, place)) = open_range(&symbols[..at]) {
                self.add_between(strength, start.code, c.code, place, here)?;
            }
            self.add_character(strength, c, here)?;
        }
        Ok(())
    }

    /// Adds relations for the code points between the ends of a range. Its `-` is at the byte `place`.
    fn add_between(
        &mut self,
        strength: Strength,
        start: char,
        end: char,
        place: usize,
        here: usize,
    ) -> Result<(), RuleFault>
        requires ready { IsReady self.old }
        requires anchored { IsRuleText self.old.anchor }
        requires range { IsRange start end }
        ensures added { OnOk result (Adds (Starred strength (between place start end)) self.old self.new) }
        ensures fault { IfErr result (HasTargetFault (properties_in self.old.texts) (state_of self.old) strength (between place start end) here) }
    {
        for point in start as u32 + 1..end as u32 {
            if let Some(code) = char::from_u32(point) {
                self.add_character(strength, Character { code, place }, here)?;
            }
        }
        Ok(())
    }

    /// Adds the relation of one target of a starred text.
    fn add_character(
        &mut self,
        strength: Strength,
        target: Character,
        here: usize,
    ) -> Result<(), RuleFault>
        requires ready { IsReady self.old }
        requires anchored { IsRuleText self.old.anchor }
        ensures added { OnOk result (Adds (Starred strength (target ∷ [])) self.old self.new) }
        ensures fault { IfErr result (HasTargetFault (properties_in self.old.texts) (state_of self.old) strength (target ∷ []) here) }
    {
        let byte = target.place;
        if self.rules.count() == MOST_RELATIONS {
            return Err(RuleFault {
                byte,
                kind: RuleFaultKind::Limit,
            });
        }
        match self.texts.character_text(target) {
            Ok(text) => self.add(strength, text, None, byte, here),
            Err(RuleFaultKind::Limit) => Err(RuleFault {
                byte,
                kind: RuleFaultKind::Limit,
            }),
            Err(_) => Err(RuleFault {
                byte: here,
                kind: RuleFaultKind::Memory,
            }),
        }
    }
}

/// The character before the `-` with which the symbols end, and the position of the `-`, if they end so.
fn open_range(symbols: &[Symbol]) -> Option<(Character, usize)>
    ensures found { IfSome result (λ found. (front : List Symbol) × (symbols.now ≡ front ++ Symbol.Literal found.0 ∷ Symbol.Hyphen found.1 ∷ [])) }
    ensures none { IfNone result ((front : List Symbol) (x : Character) (place : ℕ) → symbols.now ≢ front ++ Symbol.Literal x ∷ Symbol.Hyphen place ∷ []) }
{
    let count = symbols.len();
    if count < 2 {
        return None;
    }
    let Symbol::Literal(start) = symbols[count - 2] else {
        return None;
    };
    let Symbol::Hyphen(place) = symbols[count - 1] else {
        return None;
    };
    Some((start, place))
}
