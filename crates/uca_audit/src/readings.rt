//! The collation elements of the texts of relations, collected.

ghost use Rattle.std.specs.Prelude.{◌≡◌, OnOk};
ghost use Rattle.uca_elements.specs.Collations.{collation_of, elements_of};
ghost use Rattle.uca_tailorings.specs.Tailorings.{elements_of_expansion};

use std::alloc::{AllocError, Allocator};
use uca_elements::{Collator, Lookup};
use uca_match::Trie;
use uca_relations::Relation;
use uca_text::Normal;
use uca_weights::Element;

/// The elements of the anchor and of the expansion of a relation. The lists are used again for each relation.
#[derive(Drop)]
pub(crate) struct Readings<A: Allocator> {
    /// The elements of the anchor.
    pub anchor: Vec<Element, A>,
    /// The elements of the expansion, empty if there is no expansion.
    pub expansion: Vec<Element, A>,
}

impl<A: Allocator + Copy> Readings<A> {
    /// Lists that take no memory yet.
    pub(crate) fn new(alloc: A) -> Readings<A> {
        Readings {
            anchor: Vec::new(alloc),
            expansion: Vec::new(alloc),
        }
    }

    /// Reads the texts of a relation. An error means that it ran out of memory.
    pub(crate) fn read<T: Allocator>(
        &mut self,
        collator: &Collator<Trie<A>, T>,
        relation: &Relation,
    ) -> Result<(), AllocError>
        ensures anchor { OnOk result (self.new.anchor.items
            ≡ elements_of (collation_of ⟦<Trie<A> as Lookup>⟧.content collator.now) relation.now.anchor) }
        ensures expansion { OnOk result (self.new.expansion.items
            ≡ elements_of_expansion (collation_of ⟦<Trie<A> as Lookup>⟧.content collator.now) relation.now.expansion) }
    {
        read_elements(&mut self.anchor, collator, &relation.anchor)?;
        match &relation.expansion {
            Some(text) => read_elements(&mut self.expansion, collator, text),
            None => {
                self.expansion.clear();
                Ok(())
            }
        }
    }
}

/// Puts the elements of a text in place of those that are in the list. An error means that it ran out of memory.
pub(crate) fn read_elements<A: Allocator + Copy, T: Allocator>(
    elements: &mut Vec<Element, A>,
    collator: &Collator<Trie<A>, T>,
    text: &Normal,
) -> Result<(), AllocError>
    ensures { OnOk result (elements.new.items
        ≡ elements_of (collation_of ⟦<Trie<A> as Lookup>⟧.content collator.now) text.now) }
{
    elements.clear();
    for element in collator.elements(text) {
        elements.push(element)?;
    }
    Ok(())
}
