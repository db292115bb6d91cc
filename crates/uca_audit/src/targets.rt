//! The targets of rules as a set.

ghost use Rattle.std.specs.Prelude.{◌↔◌, IfOk, IsTrue, Contains};
ghost use Rattle.uca_audit.specs.inside.Chaining.{AreTargetsOf};

use std::alloc::{AllocError, Allocator};
use std::collections::BTreeSet;
use std::marker::Model;
use uca_relations::Relation;

/// The targets of relations, to be looked up by their code points.
#[derive(Drop)]
pub(crate) struct Targets<A: Allocator> {
    keys: BTreeSet<Vec<char, A>, A>,
}

impl<A: Allocator> Model for Targets<A> {
    ghost use Rattle.std.specs.Prelude.{ℕ, List, map};

    ghost Value = { List (List ℕ) };

    ghost view = { λ t. map (λ key. key.items) t.keys.keys };
}

impl<A: Allocator + Copy> Targets<A> {
    /// The targets of these relations. An error means that it ran out of memory.
    pub(crate) fn new(alloc: A, relations: &[Relation]) -> Result<Targets<A>, AllocError>
        ensures { IfOk result (AreTargetsOf relations.now) }
    {
        let mut keys = BTreeSet::new(alloc);
        for relation in relations {
            let key = Vec::from_slice(alloc, relation.target.chars())?;
            keys.insert(key)?;
        }
        Ok(Targets { keys })
    }

    /// Whether one of the targets has these code points.
    pub(crate) fn contains(&self, key: &[char]) -> bool
        ensures { IsTrue result ↔ Contains self.now key.now }
    {
        self.keys.contains(key)
    }
}
