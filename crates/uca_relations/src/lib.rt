//! Relations between texts, and the rules that they make up (UTS #35 Part 5, section 3): the values of tailoring rules,
//! and the texts that rules leave as they are.
//!
//! `specs/Relations.antt` says what is true of all rules. `uca_rules` reads them. It proves this of the relations that it
//! has read, and then makes rules of them (`rules_of`).
#![tactic(auto)]

ghost use Rattle.std.specs.Prelude.{◌≡◌, ◌↔◌, ℕ, IsTrue, List};
ghost use Rattle.uca_relations.specs.Relations.{AreRules, IsTarget, IsUntouched};

use std::alloc::{Allocator, Global};
use std::marker::Model;
use uca_text::{Normal, occurs_in_order};
use uca_weights::Strength;

/// A relation between two texts (UTS #35 Part 5, section 3.3): the target comes after the anchor, or before it, and
/// differs from it at the strength. At `Identical` it sorts like the anchor and then the expansion.
#[derive(Drop)]
pub struct Relation {
    /// The text next to which the target is put.
    pub anchor: Normal,
    /// Whether the target comes before the anchor.
    pub before: bool,
    /// How strongly the target differs from the anchor.
    pub strength: Strength,
    /// The text that gets a new place in the order.
    pub target: Normal,
    /// A text whose collation elements follow those of the target.
    pub expansion: Option<Normal>,
}

/// The relations of rules, in their order. There are at most 5,000, and each text has 1 to 16 code points in Normalization
/// Form D. No two have the same target. No anchor and no expansion of a relation contains, in order, the relation's own
/// target or a later one. The exception is a text that is itself the target of a relation before that one.
#[derive(Drop)]
pub struct Rules<A: Allocator = Global> {
    relations: Vec<Relation, A>,
}

impl<A: Allocator> Model for Rules<A> {
    ghost use Rattle.std.specs.Prelude.{List};
    ghost use Rattle.uca_relations.specs.declared.Relation.{Relation};
    ghost use Rattle.uca_relations.specs.Relations.{AreRules};

    ghost Value = { List Relation };

    ghost view = { λ r. r.relations.items };

    ghost invariant = { λ r. AreRules r.relations.items };
}

impl<A: Allocator> Rules<A> {
    /// The relations, in the order in which they are written.
    pub fn relations(&self) -> &[Relation]
        ensures value { result.now ≡ self.now }
        ensures rules { AreRules self.now }
    {
        self.relations.as_slice()
    }

    /// Whether the rules leave a text as it is: no target's code points all occur in it, in their order. Others may
    /// come between them.
    pub fn untouched(&self, text: &Normal) -> bool
        ensures { IsTrue result ↔ IsUntouched self.now text.now.points }
    {
        leave_untouched(&self.relations, text.chars())
    }
}

/// The rules that these relations make up. What is true of all rules has to be true of them.
pub fn rules_of<A: Allocator>(relations: Vec<Relation, A>) -> Rules<A>
    requires { AreRules relations.items }
    ensures { result ≡ relations.items }
{
    Rules { relations }
}

/// Whether no target occurs in order in the text.
fn leave_untouched(relations: &[Relation], text: &[char]) -> bool
    ensures { IsTrue result ↔ IsUntouched relations.now text.now }
{
    for relation in relations {
        if occurs_in_order(relation.target.chars(), text) {
            return false;
        }
    }
    true
}

/// Whether the text is the target of a relation.
pub fn is_target(relations: &[Relation], text: &[char]) -> bool
    ensures { IsTrue result ↔ IsTarget relations.now text.now }
{
    for relation in relations {
        if relation.target.chars() == text {
            return true;
        }
    }
    false
}
