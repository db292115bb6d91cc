//! `WeightSet`: which weights of each level are in a set, and whether one of them is between two others.

ghost use Rattle.std.specs.Prelude.{◌≡◌, ◌↔◌, ◌⊎◌, ℕ, length, vec_len, IfOk, IsTrue, false, slice_index_or};
ghost use Rattle.uca_weights.specs.declared.Level.{Level};
ghost use Rattle.uca_weights.specs.PerLevel.{at_level};
ghost use Rattle.uca_audit.specs.inside.WeightSets.{HasWeight, HasBetween, AddsWeight};

use std::alloc::{AllocError, Allocator};
use std::marker::Model;
use uca_weights::Level;

/// How many weights of 16 bits there are.
const WEIGHT_COUNT: usize = 0x1_0000;

/// A set of weights for each level.
#[derive(Drop)]
pub(crate) struct WeightSet<A: Allocator> {
    /// Whether each weight of level 1 is in it.
    primary: Vec<bool, A>,
    /// Whether each weight of level 2 is in it.
    secondary: Vec<bool, A>,
    /// Whether each weight of level 3 is in it.
    tertiary: Vec<bool, A>,
}

impl<A: Allocator> Model for WeightSet<A> {
    ghost use Rattle.std.specs.Prelude.{◌≡◌, vec_len};
    ghost use Rattle.uca_audit.specs.inside.WeightSets.{Flags};

    ghost Value = { Flags };

    ghost view = { λ s. record { primary = s.primary.items; secondary = s.secondary.items; tertiary = s.tertiary.items } };

    ghost invariant = { λ s. (vec_len s.primary ≡ 0x1_0000) × (vec_len s.secondary ≡ 0x1_0000) × (vec_len s.tertiary ≡ 0x1_0000) };
}

impl<A: Allocator + Copy> WeightSet<A> {
    /// The set without weights.
    pub(crate) fn new(alloc: A) -> Result<WeightSet<A>, AllocError>
        ensures { IfOk result (λ set. (level : Level) (w : ℕ) → ¬ (HasWeight set level w)) }
    {
        Ok(WeightSet {
            primary: no_flags(alloc, WEIGHT_COUNT)?,
            secondary: no_flags(alloc, WEIGHT_COUNT)?,
            tertiary: no_flags(alloc, WEIGHT_COUNT)?,
        })
    }

    /// Whether a weight of a level is in it.
    pub(crate) fn contains(&self, level: Level, weight: u16) -> bool
        ensures { IsTrue result ↔ HasWeight self.now level weight }
    {
        self.flags(level)[usize::from(weight)]
    }

    /// Whether it has a weight of a level strictly between two; either of the two may be the greater.
    pub(crate) fn contains_between(&self, level: Level, one: u16, other: u16) -> bool
        ensures { IsTrue result ↔ HasBetween self.now level one other }
    {
        let flags = self.flags(level);
        let low = usize::from(one.min(other));
        let high = usize::from(one.max(other));
        for weight in low + 1..high {
            if flags[weight] {
                return true;
            }
        }
        false
    }

    /// Puts a weight of a level in.
    pub(crate) fn insert(&mut self, level: Level, weight: u16)
        ensures { AddsWeight self.old self.new level weight }
    {
        let at = usize::from(weight);
        match level {
            Level::One => self.primary[at] = true,
            Level::Two => self.secondary[at] = true,
            Level::Three => self.tertiary[at] = true,
        }
    }

    /// Whether each weight of a level is in it.
    fn flags(&self, level: Level) -> &[bool]
        ensures value { result.now ≡ at_level level self.now }
        ensures length { length result.now ≡ 0x1_0000 }
    {
        match level {
            Level::One => &self.primary,
            Level::Two => &self.secondary,
            Level::Three => &self.tertiary,
        }
    }
}

/// `count` flags, none of them set.
fn no_flags<A: Allocator + Copy>(alloc: A, count: usize) -> Result<Vec<bool, A>, AllocError>
    ensures length { IfOk result (λ flags. vec_len flags ≡ count) }
    ensures none { IfOk result (λ flags. (w : ℕ) → slice_index_or flags.items w false ≡ false) }
{
    vec![in alloc; false; count]
}
