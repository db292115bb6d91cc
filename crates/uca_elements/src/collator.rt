//! `Collator`: a table and a data file, from which texts get their collation elements.
ghost use Rattle.std.specs.Prelude.{◌≡◌, ⊤};
ghost use Rattle.uca_elements.specs.Collations.{collation_of, elements_of};

use crate::places::Place;
use crate::{Elements, Lookup};
use std::alloc::{AllocError, Allocator, Global};
use uca_text::Normal;
use uca_values::{Data, Header};

/// What gives a text its collation elements: the rows of a table as a lookup, the table's header, and a data file.
#[derive_where(Copy)]
pub struct Collator<'a, L: Lookup, A: Allocator = Global> {
    /// The rows.
    pub lookup: &'a L,
    /// The header of their table, which has the ranges for implicit weights.
    pub header: &'a Header<A>,
    /// Which code points are Han, for implicit weights.
    pub data: &'a Data<A>,
}

impl<'a, L: Lookup, A: Allocator> Collator<'a, L, A> {
    /// A collator of these. It takes no memory.
    pub fn new(lookup: &'a L, header: &'a Header<A>, data_file: &'a Data<A>) -> Self
        ensures lookup { result.lookup.now ≡ lookup.now }
        ensures header { result.header.now ≡ header.now }
        ensures data_file { result.data.now ≡ data_file.now }
    {
        Collator {
            data: data_file,
            lookup,
            header,
        }
    }

    /// The collation elements of `text`, in order (UTS #10, section 7.2). It takes no memory.
    pub fn elements<'t>(&'t self, text: &'t Normal) -> Elements<'t, L, A>
        ensures { result ≡ elements_of (collation_of L.content self.now) text.now }
    {
        Elements {
            collator: *self,
            text,
            place: Place::start(),
            second: None,
            row: &[],
        }
    }
}

impl<'a, L: Lookup, A: Allocator> Clone for Collator<'a, L, A> {
    ghost is_clone = { λ collator copy. copy ≡ collator };

    ghost is_infallible = { λ _. ⊤ };

    fn clone(&self) -> Result<Self, AllocError> {
        Ok(*self)
    }
}
