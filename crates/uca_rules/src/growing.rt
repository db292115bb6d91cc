//! `RulesBuilder`: rules to which relations are added one at a time. It keeps the relations so far, and copies of the
//! anchors and expansions in which no later target may occur.

ghost use Rattle.std.specs.Prelude.{◌≡◌, ◌<◌, ◌++◌, ◌∷◌, [], ◌⊎◌, ℕ, Contains, IfErr, IsFalse, IsTrue, List, OnOk, length};
ghost use Rattle.uca_text.specs.Occurring.{OccursInOrder};
ghost use Rattle.uca_relations.specs.Relations.{AreRules, HasRuleTexts};
ghost use Rattle.uca_rules.specs.declared.faults.RuleFaultKind.{RuleFaultKind};
ghost use Rattle.uca_rules.specs.Faults.{RelationCause};
ghost use Rattle.uca_rules.specs.inside.Growing.{Admits, AreGrowing, Holds, HoldsOwn};

use crate::faults::RuleFaultKind;
use std::alloc::{AllocError, Allocator};
use std::marker::Model;
use uca_relations::{Relation, Rules, is_target, rules_of};
use uca_text::occurs_in_order;

/// The relations that have been read.
#[derive(Drop)]
pub(crate) struct RulesBuilder<A: Allocator> {
    alloc: A,
    relations: Vec<Relation, A>,
    // The anchors and expansions that are not the target of a relation before their own. No later target may occur in
    // them in order.
    held: Vec<HeldText<A>, A>,
}

/// A text in which no later target may occur.
#[derive(Drop)]
struct HeldText<A: Allocator> {
    text: Vec<char, A>,
}

impl<A: Allocator> Model for HeldText<A> {
    ghost use Rattle.std.specs.Prelude.{ℕ, List};

    ghost Value = { List ℕ };

    ghost view = { λ h. h.text.items };
}

impl<A: Allocator + Copy> RulesBuilder<A> {
    /// No relations.
    pub(crate) fn new(alloc: A) -> RulesBuilder<A>
        ensures none { result.relations.items ≡ [] }
        ensures growing { AreGrowing result }
    {
        RulesBuilder {
            alloc,
            relations: Vec::new(alloc),
            held: Vec::new(alloc),
        }
    }

    /// How many relations there are.
    pub(crate) fn count(&self) -> usize
        ensures { result ≡ length self.now.relations.items }
    {
        self.relations.len()
    }

    /// Adds a relation.
    ///
    /// # Errors
    ///
    /// - `DuplicateTarget`: its target is the target of an earlier one.
    /// - `LateTarget`: otherwise, its target occurs in order in a text that is kept, its own texts included.
    /// - `Memory`: an allocation failed.
    pub(crate) fn add(&mut self, relation: Relation) -> Result<(), RuleFaultKind>
        requires growing { AreGrowing self.old }
        requires few { length self.old.relations.items < 5000 }
        requires texts { HasRuleTexts relation }
        ensures added { OnOk result (self.new.relations.items ≡ self.old.relations.items ++ relation ∷ []) }
        ensures growing { OnOk result (AreGrowing self.new) }
        ensures fault { IfErr result (λ kind. (kind ≡ RuleFaultKind.Memory) ⊎ RelationCause self.old.relations.items relation kind) }
    {
        match self.admit(&relation) {
            Ok(()) => {
                self.relations.push(relation)?;
                Ok(())
            }
            Err(kind) => {
                drop(relation);
                Err(kind)
            }
        }
    }

    /// Tests one more relation, and keeps its texts. The relation itself is not added.
    fn admit(&mut self, relation: &Relation) -> Result<(), RuleFaultKind>
        requires growing { AreGrowing self.old }
        ensures admitted { OnOk result (Admits relation.now self.old self.new) }
        ensures fault { IfErr result (λ kind. (kind ≡ RuleFaultKind.Memory) ⊎ RelationCause self.old.relations.items relation.now kind) }
    {
        let target = relation.target.chars();
        if is_target(&self.relations, target) {
            return Err(RuleFaultKind::DuplicateTarget);
        }
        self.hold_own(relation)?;
        if occurs_in_one(target, &self.held) {
            return Err(RuleFaultKind::LateTarget);
        }
        Ok(())
    }

    /// Keeps the texts of a relation, unless they are targets.
    fn hold_own(&mut self, relation: &Relation) -> Result<(), AllocError>
        ensures { OnOk result (HoldsOwn relation.now self.old self.new) }
    {
        self.hold(relation.anchor.chars())?;
        if let Some(expansion) = &relation.expansion {
            self.hold(expansion.chars())?;
        }
        Ok(())
    }

    /// Keeps a text, unless it is the target of a relation.
    fn hold(&mut self, text: &[char]) -> Result<(), AllocError>
        ensures { OnOk result (Holds text.now self.old self.new) }
    {
        if !is_target(&self.relations, text) {
            let text = Vec::from_slice(self.alloc, text)?;
            self.held.push(HeldText { text })?;
        }
        Ok(())
    }

    /// The rules that the relations make up.
    pub(crate) fn finish(self) -> Rules<A>
        requires { AreGrowing self }
        ensures { result ≡ self.relations.items }
    {
        rules_of(self.relations)
    }
}

/// Whether the part occurs in order in one of the texts.
fn occurs_in_one<A: Allocator>(part: &[char], texts: &[HeldText<A>]) -> bool
    ensures found { IsTrue result → (text : List ℕ) × Contains texts.now text × OccursInOrder part.now text }
    ensures none { IsFalse result → (text : List ℕ) → Contains texts.now text → ¬ (OccursInOrder part.now text) }
{
    for HeldText { text } in texts {
        if occurs_in_order(part, text) {
            return true;
        }
    }
    false
}
