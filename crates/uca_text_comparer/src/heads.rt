//! `Heads`: what is known at level 1 of the first code points, in one array, and of the bytes of UTF-8, in another.

ghost use Rattle.std.specs.Prelude.{◌≡◌, ◌⊎◌, ◌∷◌, ◌+◌, ◌<◌, ◌≤◌, ℕ, chars, drop, length, IfSome, OnOk};
ghost use Rattle.std.specs.Bool.{OnTrue};
ghost use Rattle.std.specs.Str.{IsCharBoundary};
ghost use Rattle.uca_elements.specs.Collations.{Collation, collation_of};
ghost use Rattle.uca_plain.specs.PointCache.{IsTrueEntry, AreTrueEntries};
ghost use Rattle.uca_plain.specs.Plain.{IsPlain};
ghost use Rattle.uca_text_comparer.specs.Heads.{IsTrueHead, IsTrueFirst, AreFirstsFrom, AreHeadsFrom, AreTrueHeads, HasHeads};
ghost use Rattle.uca_text_comparer.specs.inside.LevelOne.{HasNext, Decides};
ghost use Rattle.uca_text_comparer.specs.inside.Shared.{BeginsPlain};

use crate::ascii::ASCII;
use crate::primaries::primary_of;
use std::alloc::{AllocError, Allocator, Global};
use uca_elements::{Collator, Lookup};
use uca_plain::plain::{KnownPoint, PointCache};
use uca_plain::points::split_first;
use uca_weights::Weighting;

/// So many code points have a head: those that UTF-8 writes in one or two bytes.
const HEADS: usize = 0x800;

/// So many bytes there are.
pub(crate) const BYTES: usize = 0x100;

/// What is known of a code point at level 1.
#[derive(Clone, Copy)]
pub struct Head {
    /// The weight of its first element, or 0. If it is not 0, the code point is plain.
    pub weight: u16,
    /// That it is plain. `false` says nothing.
    pub plain: bool,
    /// That this weight is not 0, and it has no other one. `false` says nothing.
    pub alone: bool,
}

/// What stands for the end of a text: alone, and no weight.
pub(crate) const END: Head = Head {
    weight: 0,
    plain: false,
    alone: true,
};

/// What says nothing.
const UNKNOWN: Head = Head {
    weight: 0,
    plain: false,
    alone: false,
};

impl Head {
    /// The head of a code point. An entry has room for three elements. Those after its own ones may have a weight, and then
    /// the head does not say that its weight is alone.
    #[inline(always)]
    pub(crate) fn of(weighting: Weighting, known: &KnownPoint) -> Head
        ensures { (c : Collation) → IsTrueEntry c known.now → IsTrueHead c weighting known.now.point result }
    {
        let [first, second, third] = known.elements;
        let plain = !known.is_bound();
        if !plain || known.count == 0 {
            return Head {
                weight: 0,
                plain,
                alone: false,
            };
        }
        let weight = primary_of(weighting, first);
        if weight == 0 || second.primary != 0 || third.primary != 0 {
            return Head {
                weight,
                plain,
                alone: false,
            };
        }
        Head {
            weight,
            plain,
            alone: true,
        }
    }

    /// Whether it decides, where another one has another weight.
    #[inline(always)]
    pub(crate) fn decides(&self) -> bool
        ensures { OnTrue result (Decides self.now) }
    {
        self.weight != 0 || self.alone
    }
}

/// What is known of the first code points at level 1, under one weighting.
#[derive(Drop)]
pub struct Heads {
    /// The weighting.
    pub weighting: Weighting,
    /// The heads of the code points from U+0000 on, of none at first. What they say is true.
    pub items: Vec<Head>,
    /// The heads of the bytes from 00 on, of none at first. Each says what is true of all code points whose UTF-8 begins with
    /// this byte.
    pub firsts: Vec<Head>,
}

// The code point of a text at this position, and the position after it. There is no result inside a code point.
#[inline(always)]
fn point_at(text: &str, at: usize) -> Option<(usize, usize)>
    requires { at < length text.now }
    ensures point { IfSome result (λ found. chars (drop at text.now) ≡ found.0 ∷ chars (drop found.1 text.now)) }
    ensures boundary { IfSome result (λ found. IsCharBoundary text.now found.1) }
    ensures on { IfSome result (λ found. at < found.1) }
{
    let byte = text.as_bytes()[at];
    if byte < 0x80 {
        Some((usize::from(byte), at + 1))
    } else {
        long_point_at(text, at)
    }
}

// What `point_at` returns, whatever the code point is.
#[inline(never)]
fn long_point_at(text: &str, at: usize) -> Option<(usize, usize)>
    requires { at < length text.now }
    ensures point { IfSome result (λ found. chars (drop at text.now) ≡ found.0 ∷ chars (drop found.1 text.now)) }
    ensures boundary { IfSome result (λ found. IsCharBoundary text.now found.1) }
    ensures on { IfSome result (λ found. at < found.1) }
{
    let (_, rest) = text.split_at_checked(at)?;
    let (point, _) = split_first(rest)?;
    Some((u32::from(point) as usize, at + point.len_utf8()))
}

impl Heads {
    /// Nothing is known, and no memory is taken yet.
    pub(crate) fn new(global: Global) -> Heads
        ensures { (c : Collation) → AreTrueHeads c result }
    {
        Heads {
            weighting: Weighting::NonIgnorable,
            items: Vec::new(global),
            firsts: Vec::new(global),
        }
    }

    /// Finds out about all code points that have a head, under this weighting. What is known under another one is forgotten.
    ///
    /// # Errors
    ///
    /// An allocation failed. What was found out before it stays.
    pub(crate) fn fill<L: Lookup, T: Allocator, A: Allocator>(
        &mut self,
        collator: &Collator<L, T>,
        points: &mut PointCache<A>,
        weighting: Weighting,
    ) -> Result<(), AllocError>
        requires entries { AreTrueEntries (collation_of L.content collator.now) points.old.entries.items }
        requires heads { AreTrueHeads (collation_of L.content collator.now) self.old }
        ensures entries { AreTrueEntries (collation_of L.content collator.now) points.new.entries.items }
        ensures heads { AreTrueHeads (collation_of L.content collator.now) self.new }
        ensures learned { OnOk result (HasHeads weighting self.new) }
    {
        if self.weighting != weighting {
            self.items.clear();
            self.firsts.clear();
            self.weighting = weighting;
        }
        while self.items.len() < HEADS {
            let Some(point) = char::from_u32(self.items.len() as u32) else {
                return Ok(());
            };
            let known = points.get(collator, point)?;
            self.items.push(Head::of(weighting, &known))?;
        }
        self.fill_firsts()
    }

    // Finds out about all bytes, by the heads of the code points.
    fn fill_firsts(&mut self) -> Result<(), AllocError>
        ensures heads { (c : Collation) → AreTrueHeads c self.old → AreTrueHeads c self.new }
        ensures same { (self.new.weighting ≡ self.old.weighting) × (self.new.items.items ≡ self.old.items.items) }
        ensures learned { OnOk result (256 ≤ length self.new.firsts.items) }
    {
        while self.firsts.len() < BYTES {
            let head = self.first_of(self.firsts.len());
            self.firsts.push(head)?;
        }
        Ok(())
    }

    // The head of a byte. 64 code points begin with each byte from C2 to DF, and none with C0 or C1.
    fn first_of(&self, byte: usize) -> Head
        ensures { (c : Collation) → AreHeadsFrom c self.now.weighting 0 self.now.items.items → IsTrueFirst c self.now.weighting byte result }
    {
        if byte < ASCII {
            return match self.items.get(byte) {
                Some(head) => *head,
                None => UNKNOWN,
            };
        }
        if byte < 0xC0 || byte >= 0xE0 {
            return UNKNOWN;
        }
        Head {
            weight: 0,
            plain: self.are_plain((byte - 0xC0) * 64),
            alone: false,
        }
    }

    // Whether the 64 code points from this one on are plain.
    fn are_plain(&self, from: usize) -> bool
        requires { from < 2048 }
        ensures { (c : Collation) → AreHeadsFrom c self.now.weighting 0 self.now.items.items →
            OnTrue result ((x : ℕ) → from ≤ x → x < from + 64 → IsPlain c x) }
    {
        let mut code = from;
        while code < from + 64 {
            match self.items.get(code) {
                Some(head) => {
                    if !head.plain {
                        return false;
                    }
                }
                None => return false,
            }
            code += 1;
        }
        true
    }

    /// The heads of all bytes, if they are known.
    #[inline(always)]
    pub(crate) fn firsts(&self) -> Option<&[Head; BYTES]>
        ensures { (c : Collation) → AreTrueHeads c self.now →
            IfSome result (λ firsts. AreFirstsFrom c self.now.weighting 0 firsts.now) }
    {
        let (firsts, _) = self.firsts.split_first_chunk::<BYTES>()?;
        Some(firsts)
    }

    /// The heads of ASCII, if they are known.
    #[inline(always)]
    pub(crate) fn ascii(&self) -> Option<&[Head; ASCII]>
        ensures { (c : Collation) → AreTrueHeads c self.now →
            IfSome result (λ heads. AreHeadsFrom c self.now.weighting 0 heads.now) }
    {
        let (heads, _) = self.items.split_first_chunk::<ASCII>()?;
        Some(heads)
    }

    /// The head of what a text has at this position, and the position after it. There is no result for a code point that has
    /// no head here.
    #[inline(always)]
    pub(crate) fn next_head(&self, text: &str, at: usize) -> Option<(Head, usize)>
        requires { IsCharBoundary text.now at }
        ensures next { (c : Collation) → AreTrueHeads c self.now →
            IfSome result (λ next. HasNext c self.now.weighting (chars (drop at text.now)) (chars (drop next.1 text.now)) next.0) }
        ensures boundary { IfSome result (λ next. IsCharBoundary text.now next.1) }
        ensures on { IfSome result (λ next. (next.0.weight ≡ 0) ⊎ (at < next.1)) }
    {
        if at == text.len() {
            return Some((END, at));
        }
        let (code, next) = point_at(text, at)?;
        Some((*self.items.get(code)?, next))
    }

    /// Whether a text ends at this position, or goes on there with a plain code point. There is no result for a code point that
    /// has no head here.
    #[inline(always)]
    pub(crate) fn goes_on_plain(&self, text: &str, at: usize) -> Option<bool>
        requires { IsCharBoundary text.now at }
        ensures { (c : Collation) → AreTrueHeads c self.now →
            IfSome result (λ plain. OnTrue plain (BeginsPlain c (chars (drop at text.now)))) }
    {
        if at == text.len() {
            return Some(true);
        }
        let (code, _) = point_at(text, at)?;
        Some(self.items.get(code)?.plain)
    }
}
