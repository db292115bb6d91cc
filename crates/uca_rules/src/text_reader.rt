//! Reading the texts of relations that are not starred. Each is brought to a `Normal`.

ghost use Rattle.std.specs.Prelude.{◌≡◌, ◌∷◌, [], IfErr, IfOk, List, MatchOption, Option, false};
ghost use Rattle.uca_values.specs.Content.{properties_of};
ghost use Rattle.uca_rules.specs.declared.characters.Character.{Character};
ghost use Rattle.uca_rules.specs.Characters;
ghost use Rattle.uca_rules.specs.Pieces.{BeginsWritten, Written};
ghost use Rattle.uca_rules.specs.Statements.{BeginsExpansion, IsExpansionDue, IsNotAt};
ghost use Rattle.uca_rules.specs.inside.Views.{IsTextFault};
ghost use Rattle.uca_rules.specs.inside.Reading.{AreTextsOf, IsNoRuleText, IsTextOf, Keeps, properties_in};

use crate::characters::{Character, Symbol, after_gaps};
use crate::faults::{RuleFault, RuleFaultKind};
use crate::texts::{place_of, read_text, rule_text};
use std::alloc::{Allocator, Global};
use uca_text::Normal;
use uca_values::Data;

/// A reader of texts that are not starred.
#[derive(Drop)]
pub(crate) struct TextReader<'a, A: Allocator, T: Allocator> {
    pub(crate) alloc: A,
    // the allocator of texts in Normalization Form D
    global: Global,
    pub(crate) properties: &'a Data<T>,
    /// The length of the rules.
    pub(crate) end: usize,
    // buffers for the symbols of a text, and for its letters
    symbols: Vec<Symbol, A>,
    letters: String<A>,
}

impl<'a, A: Allocator + Copy, T: Allocator> TextReader<'a, A, T> {
    /// A reader for rules that end at `end`.
    pub(crate) fn new(
        alloc: A,
        global: Global,
        properties: &'a Data<T>,
        end: usize,
    ) -> TextReader<'a, A, T>
        ensures properties { properties_in result ≡ properties_of properties.now }
        ensures end { result.end ≡ end }
    {
        TextReader {
            alloc,
            global,
            properties,
            end,
            symbols: Vec::new(alloc),
            letters: String::new(alloc),
        }
    }

    /// Reads a text that is not starred. Returns it with the characters after it.
    ///
    /// # Errors
    ///
    /// `EmptyText`, `Syntax`, `Escape`, `Limit` or `Memory`.
    pub(crate) fn read_plain<'c>(
        &mut self,
        text: &'c [Character],
    ) -> Result<(Normal, &'c [Character]), RuleFault>
        ensures kept { Keeps self.old self.new }
        ensures found { IfOk result (λ found. (written : Written) × BeginsWritten text.now written found.1.now × IsTextOf (properties_in self.old) written.points found.0) }
        ensures fault { IfErr result (IsTextFault self.old.end false text.now) }
    {
        let byte = place_of(self.end, text);
        let rest = read_text(&mut self.symbols, text, false, self.end)?;
        match rule_text(
            self.global,
            &mut self.letters,
            &self.symbols,
            self.properties,
        ) {
            Ok(normal) => Ok((normal, rest)),
            Err(kind) => Err(RuleFault { byte, kind }),
        }
    }

    /// Reads `/` and an expansion after a target, if there is a `/`.
    pub(crate) fn read_expansion<'c>(
        &mut self,
        characters: &'c [Character],
    ) -> Result<(Option<Normal>, &'c [Character]), RuleFault>
        ensures kept { Keeps self.old self.new }
        ensures found { IfOk result (λ found. (written : Option Written) × BeginsExpansion characters.now written found.1.now × AreTextsOf (properties_in self.old) written found.0) }
        ensures fault { IfErr result (λ fault. (text : List Character) × IsExpansionDue characters.now text × IsTextFault self.old.end false text fault) }
    {
        let Some(text) = after_slash(characters) else {
            return Ok((None, characters));
        };
        match self.read_plain(text) {
            Ok((expansion, rest)) => Ok((Some(expansion), rest)),
            Err(fault) => Err(fault),
        }
    }

    /// The text of one character.
    ///
    /// # Errors
    ///
    /// `Limit` or `Memory`.
    pub(crate) fn character_text(&mut self, c: Character) -> Result<Normal, RuleFaultKind>
        ensures kept { Keeps self.old self.new }
        ensures found { IfOk result (IsTextOf (properties_in self.old) (c.code ∷ [])) }
        ensures fault { IfErr result (IsNoRuleText (c.code ∷ [])) }
    {
        rule_text(
            self.global,
            &mut self.letters,
            &[Symbol::Literal(c)],
            self.properties,
        )
    }
}

/// The characters where an expansion begins: those after a target and `/`, if there is a `/`.
fn after_slash(characters: &[Character]) -> Option<&[Character]>
    ensures { MatchOption result (IsNotAt Characters.slash (Characters.after_gaps characters.now)) (λ text. IsExpansionDue characters.now text.now) }
{
    let after = after_gaps(characters);
    match after.first() {
        Some(c) if c.code == '/' => Some(after_gaps(&after[1..])),
        _ => None,
    }
}
