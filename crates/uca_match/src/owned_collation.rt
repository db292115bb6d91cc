//! `OwnedCollation`: what texts are read by, for a value that keeps it.

ghost use Rattle.std.specs.Prelude.{◌≡◌};
ghost use Rattle.uca_elements.specs.Collations.{collation_of};
ghost use Rattle.uca_match.specs.OwnedCollations.{owned_collation};

use crate::Trie;
use std::alloc::{Allocator, Global};
use uca_elements::{Collator, Lookup};
use uca_values::{Data, Header};

/// What texts are read by, owned: the rows of a table, its header, and the properties of code points. It lends a collator.
#[derive(Drop)]
pub struct OwnedCollation<A: Allocator = Global> {
    /// The rows of the table, ready to be looked up.
    pub rows: Trie<A>,
    /// The header of the table.
    pub header: Header<A>,
    /// The properties of code points.
    pub properties: Data<A>,
}

impl<A: Allocator> OwnedCollation<A> {
    /// A collator of these. It takes no memory.
    pub fn collator(&self) -> Collator<'_, Trie<A>, A>
        ensures { collation_of ⟦<Trie<A> as Lookup>⟧.content result ≡ owned_collation self.now }
    {
        Collator::new(&self.rows, &self.header, &self.properties)
    }
}
