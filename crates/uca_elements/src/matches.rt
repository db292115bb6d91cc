//! The portions of a text that match keys. A text is matched against keys alone (`KeySet`). `Elements` gives the
//! elements of each match, and `Matches` of `uca_match` its position in a list of keys.
ghost use Rattle.std.specs.Prelude.{◌≡◌, ◌≢◌, ℕ, ◌-◌, ◌<◌, ◌≤◌, true, false, length, [], ◌∷◌, ◌++◌, MatchOption, List, ◌+◌, slice_index};
ghost use Rattle.uca_text.specs.Texts.{Text, code_points};
ghost use Rattle.uca_elements.specs.Places.{left_at, left_of, IsPlace};
ghost use Rattle.uca_elements.specs.Matches.{IsFound, IsLongest, IsExtended, IsPortion, len_left};
ghost use Rattle.uca_elements.specs.inside.Extensions.{IsAfter, IsGoing};
ghost use Rattle.uca_elements.specs.declared.places.Place.{Place};

use crate::key_sets::KeySet;
use crate::places::Place;
use uca_text::Normal;

/// A key at the front of what is left of a text, and the position after it.
#[derive(Drop)]
pub struct Longest<N> {
    /// The node that stands for the key.
    pub node: N,
    /// The position after the code points that are the key.
    pub after: usize,
}

/// What a part of a text is matched as: a key, or a code point that no key covers.
#[derive(Drop)]
pub enum Match<K> {
    /// A key, by what stands for it.
    Key(K),
    /// A code point.
    Unlisted(char),
}

/// What the front of a text is matched as, and the position to read on from.
#[derive(Drop)]
pub struct Portion<N> {
    /// What is given.
    pub given: Match<N>,
    /// What is left is read from here on.
    pub next: Place,
}

/// The node of the key that a node stands for followed by `c`, if that is a key.
fn longer<K: KeySet>(keys: &K, node: K::Node, c: char) -> Option<K::Node>
    requires { (key : List ℕ) × K.stands_for keys.now node key }
    ensures { (key : List ℕ) → K.stands_for keys.now node key →
        MatchOption result (K.keys keys.now (key ++ c ∷ []) ≡ false)
        (IsFound (K.stands_for keys.now) (K.keys keys.now) (key ++ c ∷ [])) }
{
    let next = keys.step(node, c)?;
    if keys.is_key(next) { Some(next) } else { None }
}

/// The longest key at the front of what is left from `first` on.
fn longest_match<K: KeySet>(
    keys: &K,
    text: &Normal,
    place: Place,
    first: usize,
) -> Option<Longest<K::Node>>
    requires { first ≤ length text.now.points }
    ensures { IsLongest (K.stands_for keys.now) (K.keys keys.now) text.now place first
        (len_left text.now place first) result }
{
    let chars = text.chars();
    let mut node = keys.root();
    let mut best = None;
    for i in first..chars.len() {
        if !keys.may_go_on(node) {
            return best;
        }
        if place.is_removed(i) {
            continue;
        }
        let Some(next) = keys.step(node, chars[i]) else {
            return best;
        };
        node = next;
        if keys.is_key(node) {
            best = Some(Longest { node, after: i + 1 });
        }
    }
    best
}

/// The non-starters after a key, as far as they have been gone through.
#[derive(Drop)]
pub struct Extension<N> {
    /// The node that stands for the key, as extended so far.
    pub node: N,
    /// The position after the key, from which the non-starters that the key took have been removed.
    pub next: Place,
    /// The highest class of the non-starters that were skipped, or 0.
    pub highest: u8,
}

/// Goes on with the non-starter at `i`: it is removed if it is not blocked and makes the key a longer one.
fn extended<K: KeySet>(
    keys: &K,
    text: &Normal,
    so_far: Extension<K::Node>,
    i: usize,
) -> Extension<K::Node>
    requires found { (key : List ℕ) × K.stands_for keys.now so_far.node key }
    requires within { i < length text.now.points }
    requires non_starter { slice_index text.now.classes i ≢ 0 }
    requires after { so_far.next.run ≤ i }
    requires near { i - so_far.next.run < 64 }
    ensures non_starters { (place : Place) → IsAfter text.now place i so_far.next → IsAfter text.now place (i + 1) result.next }
    ensures matched { (place : Place) (front : Text) → IsAfter text.now place i so_far.next →
        IsGoing (K.stands_for keys.now) (K.keys keys.now) text.now place front i so_far →
        IsGoing (K.stands_for keys.now) (K.keys keys.now) text.now place front (i + 1) result }
{
    let class = text.classes()[i];
    if class <= so_far.highest || so_far.next.is_removed(i) {
        return so_far;
    }
    let Extension {
        node,
        next,
        highest,
    } = so_far;
    match longer(keys, node, text.chars()[i]) {
        Some(taken) => Extension {
            node: taken,
            next: next.with_removed(i),
            highest,
        },
        None => Extension {
            node,
            next,
            highest: class,
        },
    }
}

/// Extends a key at the front of a text, which goes on at `place` after it. The key takes the non-starters
/// that follow and are not blocked, where that makes a longer key (UTS #10, S2.1.1 to S2.1.3).
fn extend<K: KeySet>(keys: &K, text: &Normal, node: K::Node, place: Place) -> Portion<K::Node>
    requires place { IsPlace text.now place }
    requires found { (front : Text) × K.stands_for keys.now node (code_points front) }
    ensures { (front : Text) → K.stands_for keys.now node (code_points front) →
        IsExtended (K.stands_for keys.now) (K.keys keys.now) text.now front place result }
{
    let classes = text.classes();
    let mut so_far = Extension {
        node,
        next: place,
        highest: 0,
    };
    let mut i = place.at;
    while i < classes.len() && classes[i] != 0 {
        so_far = extended(keys, text, so_far, i);
        i += 1;
    }
    Portion {
        given: Match::Key(so_far.node),
        next: Place {
            end: i,
            ..so_far.next
        },
    }
}

/// What the front of a text is matched as, or `None` at its end.
pub fn next_portion<K: KeySet>(keys: &K, text: &Normal, place: Place) -> Option<Portion<K::Node>>
    requires { IsPlace text.now place }
    ensures { MatchOption result (left_of text.now place ≡ [])
        (IsPortion (K.stands_for keys.now) (K.keys keys.now) text.now place) }
{
    let first = place.first_left(text);
    let chars = text.chars();
    if first >= chars.len() {
        return None;
    }
    let Some(key) = longest_match(keys, text, place, first) else {
        return Some(Portion {
            given: Match::Unlisted(chars[first]),
            next: place.moved(text, first + 1),
        });
    };
    let after = place.moved(text, key.after);
    if !keys.may_go_on(key.node) {
        return Some(Portion {
            given: Match::Key(key.node),
            next: after,
        });
    }
    Some(extend(keys, text, key.node, after))
}
