//! `ElementStream`: what gives the collation elements of a text, one after another.

ghost use Rattle.std.specs.Prelude.{◌≡◌, ◌∷◌, [], List, MatchOption};
ghost use Rattle.uca_weights.specs.declared.Element.{Element};

use std::alloc::Allocator;
use uca_elements::{Elements, Lookup};
use uca_weights::Element;

/// The collation elements of a text that are left.
pub trait ElementStream: Drop {
    ghost left: { Self → List Element };

    /// The next element, if there is one.
    fn take_next(&mut self) -> Option<Element>
        ensures { MatchOption result ((left self.old ≡ []) × (left self.new ≡ []))
            (λ element. left self.old ≡ element ∷ left self.new) };
}

impl<'a, L: Lookup, A: Allocator> ElementStream for Elements<'a, L, A> {
    ghost left = { λ elements. elements };

    fn take_next(&mut self) -> Option<Element> {
        self.next()
    }
}

/// Elements that are in memory.
#[derive(Drop)]
pub struct Listed<'a> {
    /// Those that are left.
    pub elements: &'a [Element],
}

impl<'a> ElementStream for Listed<'a> {
    ghost left = { λ list. list.elements.now };

    fn take_next(&mut self) -> Option<Element> {
        let (first, rest) = self.elements.split_first()?;
        self.elements = rest;
        Some(*first)
    }
}
