//! `KeyMover`: the maps of a certificate, ready for many keys.
//!
//! A key of the other weighting has another number of levels, so it has no image. At the depth `Identical` this is so
//! for most such keys, and not for all. A non-ignorable key has as many levels there as a shifted key without it, and
//! whole code points have to follow the weights. The shifted key of three spaces ends in `0209 0209 0209`, which can
//! be read as two code points. The code points of some ideographs from U+20000 on can be read as weights.

ghost use Rattle.std.specs.Prelude.{◌≡◌, ℕ, suc, ◌<◌, ◌≤◌, ◌++◌, List, option_map, if◌then◌else◌, IfOk};
ghost use Rattle.uca_order.specs.Levels as key_levels;
ghost use Rattle.uca_tailorings.specs.Inputs.{maps_of};
ghost use Rattle.uca_tailorings.specs.Moves.{after_weights, are_points, ended, level_images, moved_key};
ghost use Rattle.uca_images.specs.inside.ImageTables.{IsImageTable};

use crate::images::{LevelTables, tables_of};
use crate::levels::{LevelEnd, move_level};
use std::alloc::{AllocError, Allocator, Global};
use std::marker::Model;
use uca_certificates::Certificate;
use uca_weights::{Depth, Settings, Weighting};

/// Puts stored keys through the maps of a certificate. So the key of a text under an old table becomes its key under the
/// new one, if each of its elements becomes its image. `keys_move_by_maps` of `uca_tailorings` says when they do. It holds
/// the images of all weights, and needs no text and no table.
#[derive(Drop)]
pub struct KeyMover<A: Allocator = Global> {
    certificate: Certificate<A>,
    settings: Settings,
    tables: LevelTables<A>,
}

impl<A: Allocator> Model for KeyMover<A> {
    ghost use Rattle.uca_tailorings.specs.Inputs.{maps_of};
    ghost use Rattle.uca_images.specs.inside.ImageTables.{AreLevelTables};
    ghost use Rattle.uca_images.specs.Moving.{MoverState};

    ghost Value = { MoverState };

    ghost view = { λ m. record { certificate = m.certificate; settings = m.settings } };

    ghost invariant = { λ m. AreLevelTables (maps_of m.certificate) m.tables.primary.items m.tables.secondary.items m.tables.tertiary.items };
}

impl<A: Allocator + Copy> KeyMover<A> {
    /// The maps of a certificate, for keys that were made under these settings.
    ///
    /// # Errors
    ///
    /// An allocation failed.
    pub fn new(
        alloc: A,
        certificate: Certificate<A>,
        settings: Settings,
    ) -> Result<KeyMover<A>, AllocError>
        ensures { IfOk result (λ mover. mover ≡ record { certificate = certificate; settings = settings }) }
    {
        match tables_of(alloc, &certificate) {
            Ok(tables) => Ok(KeyMover {
                certificate,
                settings,
                tables,
            }),
            Err(error) => Err(error),
        }
    }
}

impl<A: Allocator> KeyMover<A> {
    /// Puts a key through the maps in place, each weight through the map of its level, and returns `true`. Code points
    /// after the levels of weights stay.
    ///
    /// If a weight has no image, or the bytes have too few levels, too many, or a single byte at the end, it returns
    /// `false`. So it does at depth `Identical` if what follows the weights is not whole code points: three bytes each,
    /// high byte first, each a Unicode scalar value. The bytes are then unspecified.
    pub fn move_key(&self, key: &mut [u8]) -> bool
        ensures { moved_key (maps_of self.now.certificate) self.now.settings.depth self.now.settings.weighting key.old
            ≡ (if result then Some key.new else None) }
    {
        let levels = level_count(self.settings.weighting);
        let mut at = 0;
        for level in 0..levels {
            match move_level(self.images(level), key, at) {
                LevelEnd::Next(next) => at = next,
                LevelEnd::Key => return may_end(self.settings.depth, levels - (level + 1)),
                LevelEnd::Missing => return false,
            }
        }
        may_follow(self.settings.depth, &key[at..])
    }

    /// Writes a key that was put through the maps over the bytes that were there, and returns `true`. The memory is used
    /// again.
    ///
    /// If there is no such key, as for [`KeyMover::move_key`], it returns `false`. The bytes are then unspecified.
    ///
    /// # Errors
    ///
    /// An allocation failed. The bytes are then unspecified.
    pub fn write_moved<B: Allocator>(
        &self,
        key: &[u8],
        moved: &mut Vec<u8, B>,
    ) -> Result<bool, AllocError>
        ensures { IfOk result (λ found. moved_key (maps_of self.now.certificate) self.now.settings.depth self.now.settings.weighting key.now
            ≡ (if found then Some moved.new.items else None)) }
    {
        moved.clear();
        moved.extend_from_slice(key)?;
        Ok(self.move_key(moved.as_mut_slice()))
    }

    // The images of the weights of a level, counted from 0. The fourth has those of the first.
    fn images(&self, level: usize) -> &[u16]
        requires { level < 4 }
        ensures { IsImageTable (level_images (maps_of self.now.certificate) (suc level)) result.now }
    {
        match level {
            1 => &self.tables.secondary,
            2 => &self.tables.tertiary,
            _ => &self.tables.primary,
        }
    }
}

// How many levels of weights a key has.
fn level_count(weighting: Weighting) -> usize
    ensures count { result ≡ key_levels.level_count weighting }
    ensures few { result ≤ 4 }
{
    match weighting {
        Weighting::NonIgnorable => 3,
        Weighting::Shifted => 4,
    }
}

// Whether a key may end in a level with so many levels of weights after it.
fn may_end(depth: Depth, after: usize) -> bool
    ensures { (key : List ℕ) → option_map (λ rest. key ++ rest) (ended depth after) ≡ (if result then Some key else None) }
{
    match depth {
        Depth::Weights => after == 0,
        Depth::Identical => false,
    }
}

// Whether the bytes may follow the levels of weights.
fn may_follow(depth: Depth, bytes: &[u8]) -> bool
    ensures { after_weights depth bytes.now ≡ (if result then Some bytes.now else None) }
{
    match depth {
        Depth::Weights => false,
        Depth::Identical => are_code_points(bytes),
    }
}

// Whether the bytes are whole code points: three each, high byte first.
fn are_code_points(bytes: &[u8]) -> bool
    ensures { result ≡ are_points bytes.now }
{
    let mut rest = bytes;
    while let [high, middle, low, after @ ..] = rest {
        if char::from_u32(u32::from_be_bytes([0, *high, *middle, *low])).is_none() {
            return false;
        }
        rest = after;
    }
    rest.is_empty()
}
