//! What the keys of lines are changed by: `ChangesKeys`, for maps, for compact keys and back.

ghost use Rattle.std.specs.Prelude.{◌≡◌, IfOk, if◌then◌else◌, Some, None};
ghost use Rattle.uca_tailorings.specs.Inputs.{maps_of};
ghost use Rattle.uca_rekey.specs.ChangedLines.{KeyChange, compacts, expands, moves};
ghost use Rattle.uca_rekey.specs.inside.ChangeSoFar.{IsOfKey};

use std::alloc::{AllocError, Allocator};
use uca_compact::{KeyCompacter, KeyExpander};
use uca_images::KeyMover;
use uca_run_parts::StoredKeyKind;

/// What makes other keys of keys.
pub(crate) trait ChangesKeys: Drop {
    // what it makes of them, and of their lines
    ghost means: { Self → KeyChange };

    /// The error that a key becomes none.
    fn none(&self) -> StoredKeyKind
        ensures value { result ≡ (means self.now).none }
        ensures of_key { IsOfKey result };

    /// Whether the spaces of the field of a key stay.
    fn keeps_spaces(&self) -> bool
        ensures { result ≡ (means self.now).keeps_spaces };

    /// Writes what a key becomes over the bytes that were there, and returns `true`. It returns `false` if it becomes
    /// none.
    fn change<A: Allocator>(
        &mut self,
        key: &[u8],
        changed: &mut Vec<u8, A>,
    ) -> Result<bool, AllocError>
        ensures same { self.new ≡ self.old }
        ensures key { IfOk result (λ found. (means self.old).becomes key.now (if found then Some changed.new.items else None)) };
}

impl<M: Allocator> ChangesKeys for KeyMover<M> {
    ghost means = { λ m. moves m.settings.depth m.settings.weighting (maps_of m.certificate) };

    fn none(&self) -> StoredKeyKind {
        StoredKeyKind::NoImage
    }

    fn keeps_spaces(&self) -> bool {
        true
    }

    fn change<A: Allocator>(
        &mut self,
        key: &[u8],
        changed: &mut Vec<u8, A>,
    ) -> Result<bool, AllocError> {
        self.write_moved(key, changed)
    }
}

impl<C: Allocator> ChangesKeys for KeyCompacter<C> {
    ghost means = { λ c. compacts c.settings.depth c.settings.weighting c.book };

    fn none(&self) -> StoredKeyKind {
        StoredKeyKind::OtherKey
    }

    fn keeps_spaces(&self) -> bool {
        false
    }

    fn change<A: Allocator>(
        &mut self,
        key: &[u8],
        changed: &mut Vec<u8, A>,
    ) -> Result<bool, AllocError> {
        self.write_compact(key, changed)
    }
}

impl<C: Allocator> ChangesKeys for KeyExpander<C> {
    ghost means = { λ c. expands c.settings.depth c.settings.weighting c.book };

    fn none(&self) -> StoredKeyKind {
        StoredKeyKind::NoCompactKey
    }

    fn keeps_spaces(&self) -> bool {
        false
    }

    fn change<A: Allocator>(
        &mut self,
        key: &[u8],
        changed: &mut Vec<u8, A>,
    ) -> Result<bool, AllocError> {
        self.write_key(key, changed)
    }
}
