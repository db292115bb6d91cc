//! `Matches`: what a text is matched as by the keys of a map, part by part, as positions of keys.
ghost use Rattle.std.specs.Prelude.{◌≡◌};
ghost use Rattle.std.specs.Iterator.{YieldsFirst, item_count};
ghost use Rattle.uca_text.specs.Texts.{classed};
ghost use Rattle.uca_match.specs.Tries.{positions};
ghost use Rattle.uca_elements.specs.Positions.{is_placed};
ghost use Rattle.uca_elements.specs.Reading.{parts};
ghost use Rattle.uca_match.specs.TextMatches.{matches_of};

use crate::KeyMap;
use std::alloc::{Allocator, Global};
use std::marker::Model;
use uca_elements::matches::{Match, next_portion};
use uca_elements::places::Place;
use uca_text::Normal;

/// What a text is matched as (UTS #10, S2.1 to S2.1.3), seen as the list of the matches that are left. Each is the
/// position of a key, or a code point that no key covers.
#[derive(Drop)]
pub struct Matches<'a, A: Allocator = Global> {
    keys: &'a KeyMap<A>,
    text: &'a Normal,
    // what is left of the text is matched from here on
    place: Place,
}

impl<'a, A: Allocator> Model for Matches<'a, A> {
    ghost use Rattle.std.specs.Prelude.{ℕ, List};
    ghost use Rattle.uca_elements.specs.declared.matches.Match.{Match};
    ghost use Rattle.uca_match.specs.Tries.{positions};
    ghost use Rattle.uca_elements.specs.Positions.{is_placed};
    ghost use Rattle.uca_elements.specs.Reading.{parts};
    ghost use Rattle.uca_elements.specs.Places.{left_of, IsPlace};
    ghost use Rattle.uca_match.specs.TextMatches.{matches_of};

    ghost Value = { List (Match ℕ) };

    ghost view = { λ s. matches_of (positions s.keys.now) (parts (is_placed (positions s.keys.now)) (left_of s.text.now s.place)) };

    ghost invariant = { λ s. IsPlace s.text.now s.place };
}

impl<'a, A: Allocator> Matches<'a, A> {
    /// The matches of `text`, in order. It takes no memory.
    pub fn new(keys: &'a KeyMap<A>, text: &'a Normal) -> Self
        ensures { result ≡ matches_of (positions keys.now) (parts (is_placed (positions keys.now)) (classed text.now)) }
    {
        Matches {
            keys,
            text,
            place: Place::start(),
        }
    }
}

impl<'a, A: Allocator> Iterator for Matches<'a, A> {
    type Item = Match<usize>;

    ghost next_gives = { YieldsFirst (λ rest. rest) };

    ghost remaining = { item_count (λ rest. rest) };

    fn next(&mut self) -> Option<Match<usize>> {
        let portion = next_portion(self.keys, self.text, self.place)?;
        self.place = portion.next;
        Some(match portion.given {
            Match::Key(node) => Match::Key(self.keys.position_at(node).unwrap_or(0)),
            Match::Unlisted(point) => Match::Unlisted(point),
        })
    }
}
