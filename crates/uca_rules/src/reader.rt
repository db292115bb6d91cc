//! Reads statements one at a time, from left to right: a reset, a relation, or a starred relation, whose targets
//! `starred.rt` reads.

ghost use Rattle.std.specs.Prelude.{◌≡◌, ◌≢◌, ◌⊎◌, ◌<◌, ◌≤◌, ◌++◌, ◌∷◌, [], ℕ, List, None, Some, IsFalse, IsTrue, length, IfOk, IfErr, IfSome, OnOk, MatchResult};
ghost use Rattle.uca_values.specs.Content.{properties_of};
ghost use Rattle.uca_weights.specs.declared.Strength.{Strength};
ghost use Rattle.uca_relations.specs.declared.Relation.{Relation};
ghost use Rattle.uca_relations.specs.Relations.{AreRules, IsRuleText};
ghost use Rattle.uca_rules.specs.declared.signs.Preceding.{Preceding};
ghost use Rattle.uca_rules.specs.declared.faults.RuleFaultKind.{RuleFaultKind};
ghost use Rattle.uca_rules.specs.Characters;
ghost use Rattle.uca_rules.specs.Meaning.{Means};
ghost use Rattle.uca_rules.specs.inside.Growing.{AreGrowing};
ghost use Rattle.uca_rules.specs.Faults.{IsCause, IsWrongBracket, RelationCause, StatementCause};
ghost use Rattle.uca_rules.specs.Statements;
ghost use Rattle.uca_rules.specs.Statements.{IsAnchorDue, MayFollow, Resets, Signs};
ghost use Rattle.uca_rules.specs.inside.Views.{IsMemoryAt, sign_view};
ghost use Rattle.uca_rules.specs.inside.Reading.{AddsOne, AddsPlain, GoesOn, IsNextFault, IsPlainFault, IsReadingFault, IsReady, PassesOn, ReadsAll, first_code, properties_in, relation_of, start, state_of};

use crate::characters::{Character, after_gaps, characters};
use crate::faults::{RuleFault, RuleFaultKind};
use crate::growing::RulesBuilder;
use crate::signs::{BRACKET_LENGTH, Preceding, Sign, bracket_at, sign_at};
use crate::text_reader::TextReader;
use crate::texts::place_of;
use std::alloc::{AllocError, Allocator, Global};
use std::{mem, str};
use uca_relations::{Relation, Rules};
use uca_text::Normal;
use uca_values::Data;
use uca_weights::Strength;

/// How many bytes rules may have.
const MOST_BYTES: usize = 1_048_576;

/// How many relations rules may have.
pub(crate) const MOST_RELATIONS: usize = 5000;

/// Reads tailoring rules (a profile of UTS #35 Part 5, section 3; docs/FORMATS.md has its syntax). Texts are brought to
/// Normalization Form D, with the classes that `properties` gives their code points.
///
/// # Errors
///
/// The first error, as the rules are read from left to right:
///
/// - `Limit` at byte 1,048,576, if there are more bytes.
/// - Otherwise `Utf8`, at the first byte that is not part of a valid beginning.
/// - Otherwise what [`RuleFaultKind`] says.
/// - `Memory` at any byte, if an allocation fails.
pub fn read_rules<A: Allocator>(
    alloc: Global,
    bytes: &[u8],
    properties: &Data<A>,
) -> Result<Rules, RuleFault>
    ensures found { IfOk result (λ rules. Means (properties_of properties.now) bytes.now rules) }
    ensures only { (relations : List Relation) → Means (properties_of properties.now) bytes.now relations →
        MatchResult result (λ rules. rules ≡ relations) (λ fault. fault.kind ≡ RuleFaultKind.Memory) }
    ensures fault { IfErr result (λ fault. IsCause (properties_of properties.now) bytes.now fault.byte fault.kind) }
{
    read_rules_in(alloc, alloc, bytes, properties)
}

/// Reads rules as [`read_rules`] does, in memory of the caller's choice. Texts in Normalization Form D are taken from
/// `global`; everything else, also the list of relations, is taken from `alloc`.
///
/// # Errors
///
/// Those of [`read_rules`]: `Memory` comes if an allocation from either fails.
pub fn read_rules_in<A: Allocator + Copy, T: Allocator>(
    alloc: A,
    global: Global,
    bytes: &[u8],
    properties: &Data<T>,
) -> Result<Rules<A>, RuleFault>
    ensures found { IfOk result (λ rules. Means (properties_of properties.now) bytes.now rules) }
    ensures only { (relations : List Relation) → Means (properties_of properties.now) bytes.now relations →
        MatchResult result (λ rules. rules ≡ relations) (λ fault. fault.kind ≡ RuleFaultKind.Memory) }
    ensures fault { IfErr result (λ fault. IsCause (properties_of properties.now) bytes.now fault.byte fault.kind) }
{
    read_all(alloc, global, bytes, properties)
}

/// Reads rules to their end or their first error.
fn read_all<A: Allocator + Copy, T: Allocator>(
    alloc: A,
    global: Global,
    bytes: &[u8],
    properties: &Data<T>,
) -> Result<Rules<A>, RuleFault>
    ensures found { IfOk result (λ rules. Means (properties_of properties.now) bytes.now rules) }
    ensures fault { IfErr result (λ fault. IsCause (properties_of properties.now) bytes.now fault.byte fault.kind) }
{
    if bytes.len() > MOST_BYTES {
        return Err(RuleFault {
            byte: MOST_BYTES,
            kind: RuleFaultKind::Limit,
        });
    }
    let text = match str::from_utf8(bytes) {
        Ok(text) => text,
        Err(error) => return Err(RuleFault {
            byte: error.valid_up_to(),
            kind: RuleFaultKind::Utf8,
        }),
    };
    let characters = characters(alloc, text)?;
    read_characters(alloc, global, &characters, properties, bytes.len())
}

/// Reads the characters of rules that end at `end`.
fn read_characters<A: Allocator + Copy, T: Allocator>(
    alloc: A,
    global: Global,
    characters: &[Character],
    properties: &Data<T>,
    end: usize,
) -> Result<Rules<A>, RuleFault>
    ensures found { IfOk result (λ rules. ReadsAll (properties_of properties.now) characters.now rules × AreRules rules) }
    ensures fault { IfErr result (IsReadingFault (properties_of properties.now) end characters.now) }
{
    let mut reader = Reader::new(alloc, global, properties, end);
    match reader.read_statements(characters) {
        Ok(()) => Ok(reader.into_rules()),
        Err(fault) => {
            drop(reader);
            Err(fault)
        }
    }
}

/// The relations so far, and what comes before the next statement.
#[derive(Drop)]
pub(crate) struct Reader<'a, A: Allocator, T: Allocator> {
    pub(crate) texts: TextReader<'a, A, T>,
    pub(crate) rules: RulesBuilder<A>,
    // what the next relation is placed by, and whether before it
    anchor: Normal,
    before: bool,
    last: Preceding,
}

impl<'a, A: Allocator + Copy, T: Allocator> Reader<'a, A, T> {
    /// Before the first statement.
    fn new(alloc: A, global: Global, properties: &'a Data<T>, end: usize) -> Reader<'a, A, T>
        ensures properties { properties_in result.texts ≡ properties_of properties.now }
        ensures end { result.texts.end ≡ end }
        ensures state { state_of result ≡ start }
        ensures ready { IsReady result }
    {
        Reader {
            texts: TextReader::new(alloc, global, properties, end),
            rules: RulesBuilder::new(alloc),
            anchor: Normal::new(global),
            before: false,
            last: Preceding::Nothing,
        }
    }

    /// The rules that the relations make up.
    fn into_rules(self) -> Rules<A>
        requires { AreGrowing self.rules }
        ensures { result ≡ self.entry.rules.relations.items }
    {
        let Reader {
            texts,
            rules,
            anchor,
            before: _,
            last: _,
        } = self;
        drop(texts);
        drop(anchor);
        rules.finish()
    }

    /// Reads statements to the end of the rules.
    fn read_statements(&mut self, characters: &[Character]) -> Result<(), RuleFault>
        requires ready { IsReady self.old }
        requires start { state_of self.old ≡ start }
        ensures ready { OnOk result (IsReady self.new) }
        ensures found { OnOk result (ReadsAll (properties_in self.old.texts) characters.now self.new.rules.relations.items) }
        ensures fault { IfErr result (IsReadingFault (properties_in self.old.texts) self.old.texts.end characters.now) }
    {
        let mut rest = after_gaps(characters);
        while !rest.is_empty() {
            rest = after_gaps(self.read_statement(rest)?);
        }
        if let Preceding::Reset(_) = self.last {
            return Err(RuleFault {
                byte: self.texts.end,
                kind: RuleFaultKind::Syntax,
            });
        }
        Ok(())
    }

    /// Reads the statement at the front. Returns the characters after it.
    fn read_statement<'c>(
        &mut self,
        characters: &'c [Character],
    ) -> Result<&'c [Character], RuleFault>
        requires ready { IsReady self.old }
        requires some { characters.now ≢ [] }
        ensures found { IfOk result (λ rest. GoesOn self.old self.new characters.now rest.now) }
        ensures fault { IfErr result (IsNextFault (properties_in self.old.texts) self.old.texts.end (state_of self.old) characters.now) }
    {
        let first = characters[0];
        match (first.code, self.last) {
            ('&', Preceding::Nothing) | ('&', Preceding::Relation) => self.read_reset(characters),
            ('<' | '=', Preceding::Reset(_)) | ('<' | '=', Preceding::Relation) =>
                self.read_relation(characters),
            _ => Err(RuleFault {
                byte: first.place,
                kind: RuleFaultKind::Syntax,
            }),
        }
    }

    /// Reads a reset: `&`, perhaps a bracket, and a text.
    fn read_reset<'c>(&mut self, characters: &'c [Character]) -> Result<&'c [Character], RuleFault>
        requires ready { IsReady self.old }
        requires ampersand { first_code characters.now ≡ Characters.ampersand }
        requires follows { MayFollow self.old.last Resets }
        ensures found { IfOk result (λ rest. GoesOn self.old self.new characters.now rest.now) }
        ensures fault { IfErr result (IsNextFault (properties_in self.old.texts) self.old.texts.end (state_of self.old) characters.now) }
    {
        let (asked, text) = after_ampersand(characters)?;
        match self.texts.read_plain(text) {
            Ok((anchor, rest)) => {
                self.anchor = anchor;
                self.before = asked.is_some();
                self.last = Preceding::Reset(asked);
                Ok(rest)
            }
            Err(fault) => Err(fault),
        }
    }

    /// Reads a relation: a sign, a text, and perhaps `/` and a text; or a starred sign and a starred text.
    fn read_relation<'c>(
        &mut self,
        characters: &'c [Character],
    ) -> Result<&'c [Character], RuleFault>
        requires ready { IsReady self.old }
        requires sign { (first_code characters.now ≡ Characters.less_than) ⊎ (first_code characters.now ≡ Characters.equals_sign) }
        requires after { self.old.last ≢ Preceding.Nothing }
        ensures found { IfOk result (λ rest. GoesOn self.old self.new characters.now rest.now) }
        ensures fault { IfErr result (IsNextFault (properties_in self.old.texts) self.old.texts.end (state_of self.old) characters.now) }
    {
        let sign = sign_of_relation(self.last, self.rules.count(), characters)?;
        let text = after_gaps(sign.rest);
        self.last = Preceding::Relation;
        if sign.starred {
            self.read_starred(sign.strength, text)
        } else {
            self.read_target(sign.strength, text)
        }
    }

    /// Reads a target, perhaps `/` and an expansion, and adds the relation.
    fn read_target<'c>(
        &mut self,
        strength: Strength,
        text: &'c [Character],
    ) -> Result<&'c [Character], RuleFault>
        requires ready { IsReady self.old }
        requires anchored { IsRuleText self.old.anchor }
        requires few { length self.old.rules.relations.items < 5000 }
        ensures found { IfOk result (λ rest. AddsPlain self.old self.new strength text.now rest.now) }
        ensures fault { IfErr result (IsPlainFault (properties_in self.old.texts) self.old.texts.end (state_of self.old) strength text.now) }
    {
        let (target, tail) = self.texts.read_plain(text)?;
        match self.texts.read_expansion(tail) {
            Ok((expansion, rest)) => {
                let here = place_of(self.texts.end, rest);
                let place = place_of(self.texts.end, text);
                match self.add(strength, target, expansion, place, here) {
                    Ok(()) => Ok(rest),
                    Err(fault) => Err(fault),
                }
            }
            Err(fault) => {
                drop(target);
                Err(fault)
            }
        }
    }

    /// Adds a relation to the anchor; its target is the next anchor. An error of the relation is at `byte`, a failed
    /// allocation at `here`.
    pub(crate) fn add(
        &mut self,
        strength: Strength,
        target: Normal,
        expansion: Option<Normal>,
        byte: usize,
        here: usize,
    ) -> Result<(), RuleFault>
        requires ready { IsReady self.old }
        requires anchored { IsRuleText self.old.anchor }
        requires few { length self.old.rules.relations.items < 5000 }
        requires target { IsRuleText target }
        requires expansion { IfSome expansion IsRuleText }
        ensures added { OnOk result (AddsOne (relation_of self.old strength target expansion) self.old self.new) }
        ensures fault { IfErr result (λ fault. IsMemoryAt here fault
            ⊎ ((fault.byte ≡ byte) × RelationCause self.old.rules.relations.items (relation_of self.old strength target expansion) fault.kind)) }
    {
        match self.take_relation(strength, target, expansion) {
            Ok(relation) => match self.rules.add(relation) {
                Ok(()) => Ok(()),
                Err(RuleFaultKind::Memory) => Err(RuleFault {
                    byte: here,
                    kind: RuleFaultKind::Memory,
                }),
                Err(kind) => Err(RuleFault { byte, kind }),
            },
            Err(_) => Err(RuleFault {
                byte: here,
                kind: RuleFaultKind::Memory,
            }),
        }
    }

    /// The relation of a target to the anchor. The target becomes the anchor.
    fn take_relation(
        &mut self,
        strength: Strength,
        target: Normal,
        expansion: Option<Normal>,
    ) -> Result<Relation, AllocError>
        ensures { IfOk result (λ relation. (relation ≡ relation_of self.old strength target expansion) × PassesOn target self.old self.new) }
    {
        match target.clone() {
            Ok(next) => Ok(Relation {
                anchor: mem::replace(&mut self.anchor, next),
                before: mem::replace(&mut self.before, false),
                strength,
                target,
                expansion,
            }),
            Err(error) => {
                drop(target);
                drop(expansion);
                Err(error)
            }
        }
    }
}

/// The strength that a bracket after `&` asks for, if there is one, and the characters where the anchor begins.
fn after_ampersand<'c>(
    characters: &'c [Character],
) -> Result<(Option<Strength>, &'c [Character]), RuleFault>
    requires { first_code characters.now ≡ Characters.ampersand }
    ensures found { IfOk result (λ found. IsAnchorDue characters.now found.0 found.1.now) }
    ensures fault { IfErr result (λ fault. (fault.kind ≡ RuleFaultKind.Syntax) × IsWrongBracket characters.now fault.byte) }
{
    let after = after_gaps(&characters[1..]);
    match after.first() {
        Some(c) if c.code == '[' => match bracket_at(after) {
            Some(strength) => Ok((Some(strength), after_gaps(&after[BRACKET_LENGTH..]))),
            None => Err(RuleFault {
                byte: c.place,
                kind: RuleFaultKind::Syntax,
            }),
        },
        _ => Ok((None, after)),
    }
}

/// The sign of a relation after `count` others.
///
/// # Errors
///
/// `Syntax` if four or more `<` come in a row, then `Limit` if there are 5,000 relations already, then
/// `BeforeStrength`.
fn sign_of_relation<'c>(
    last: Preceding,
    count: usize,
    characters: &'c [Character],
) -> Result<Sign<'c>, RuleFault>
    requires sign { (first_code characters.now ≡ Characters.less_than) ⊎ (first_code characters.now ≡ Characters.equals_sign) }
    requires after { last ≢ Preceding.Nothing }
    ensures found { IfOk result (λ sign. (Statements.sign_at characters.now ≡ Some (sign_view sign)) × MayFollow last (Signs sign.strength) × (count ≢ 5000)) }
    ensures fault { IfErr result (λ fault. (end : ℕ) → StatementCause end last count characters.now fault.byte fault.kind) }
{
    let byte = characters[0].place;
    let Some(sign) = sign_at(characters) else {
        return Err(RuleFault {
            byte,
            kind: RuleFaultKind::Syntax,
        });
    };
    if count == MOST_RELATIONS {
        return Err(RuleFault {
            byte,
            kind: RuleFaultKind::Limit,
        });
    }
    if !may_have(last, sign.strength) {
        return Err(RuleFault {
            byte,
            kind: RuleFaultKind::BeforeStrength,
        });
    }
    Ok(sign)
}

/// Whether a relation may have the strength there: after a bracket only the strength that it asks for.
fn may_have(last: Preceding, strength: Strength) -> bool
    requires { last ≢ Preceding.Nothing }
    ensures yes { IsTrue result → MayFollow last (Signs strength) }
    ensures no { IsFalse result → (asked : Strength) × (last ≡ Preceding.Reset (Some asked)) × (strength ≢ asked) }
{
    match last {
        Preceding::Reset(Some(asked)) => strength == asked,
        _ => true,
    }
}
