//! The collation elements of a text, in turn.
ghost use Rattle.std.specs.Iterator.{YieldsFirst, item_count};

use crate::key_sets::{LookupKeys, row_at};
use crate::matches::{Match, next_portion};
use crate::places::Place;
use crate::{Collator, Lookup};
use std::alloc::{Allocator, Global};
use std::marker::Model;
use uca_text::Normal;
use uca_weights::Element;

/// The collation elements of a text (UTS #10, section 7.2), seen as the list of those that are left.
///
/// It takes no memory: the elements of a row are those that the lookup lends.
#[derive(Drop)]
pub struct Elements<'a, L: Lookup, A: Allocator = Global> {
    pub(crate) collator: Collator<'a, L, A>,
    pub(crate) text: &'a Normal,
    // what follows the elements below is what the text is read as from here on
    pub(crate) place: Place,
    // the second element of an implicit pair, whose first has been given
    pub(crate) second: Option<Element>,
    // the elements of a row that have not been given
    pub(crate) row: &'a [Element],
}

impl<'a, L: Lookup, A: Allocator> Model for Elements<'a, L, A> {
    ghost use Rattle.std.specs.Prelude.{List};
    ghost use Rattle.uca_weights.specs.declared.Element.{Element};
    ghost use Rattle.uca_elements.specs.Collations.{collation_of};
    ghost use Rattle.uca_elements.specs.Places.{left_of, IsPlace};
    ghost use Rattle.uca_elements.specs.inside.Rest.{rest_of};

    ghost Value = { List Element };

    ghost view = { λ s. rest_of (collation_of L.content s.collator) s.second s.row.now (left_of s.text.now s.place) };

    ghost invariant = { λ s. IsPlace s.text.now s.place };
}

impl<'a, L: Lookup, A: Allocator> Iterator for Elements<'a, L, A> {
    type Item = Element;

    ghost next_gives = { YieldsFirst (λ rest. rest) };

    ghost remaining = { item_count (λ rest. rest) };

    fn next(&mut self) -> Option<Element> {
        if let Some(second) = self.second.take() {
            return Some(second);
        }
        loop {
            if let Some((first, rest)) = self.row.split_first() {
                self.row = rest;
                return Some(*first);
            }
            let Collator {
                lookup,
                header,
                data,
            } = self.collator;
            let portion = next_portion(&LookupKeys { lookup }, self.text, self.place)?;
            self.place = portion.next;
            match portion.given {
                Match::Key(node) => self.row = row_at(lookup, node),
                Match::Unlisted(point) => {
                    let [first, second] = header.implicit(data, point);
                    self.second = Some(second);
                    return Some(first);
                }
            }
        }
    }
}
