//! `OwnedCollator`: what a collator owns, and how two share it.

ghost use Rattle.std.specs.Prelude.{◌≡◌, [], IfOk};
ghost use Rattle.uca_owned.specs.Owned.{keying_in, key_in};

use std::alloc::{AllocError, Global};
use std::marker::Model;
use std::sync::Arc;
use uca_key_writer::KeyMemory;
use uca_match::OwnedCollation;
use uca_text_comparer::TextComparison;
use uca_weights::Settings;

/// A collator that owns all that it needs: what texts are read by, settings, and memory for texts and for one key.
#[derive(Drop)]
pub struct OwnedCollator {
    // what it reads texts by, which other collators may share
    pub(crate) collation: Arc<OwnedCollation>,
    // the key that was made last, and memory for the next one
    pub(crate) keys: KeyMemory,
    // memory for comparing texts
    pub(crate) comparison: TextComparison,
    pub(crate) settings: Settings,
}

impl Model for OwnedCollator {
    ghost use Rattle.std.specs.Arc.{arc_value};
    ghost use Rattle.uca_match.specs.OwnedCollations.{owned_collation};
    ghost use Rattle.uca_owned.specs.Owned.{OwnedState};
    ghost use Rattle.uca_owned.specs.inside.Kept.{IsKept};

    ghost Value = { OwnedState };

    ghost view = { λ c. record {
      lookup = (arc_value c.collation).rows;
      ranges = (arc_value c.collation).header.ranges;
      data_file = (arc_value c.collation).properties;
      settings = c.settings;
      key = c.keys.buffer.key;
      levels = c.keys.buffer.levels;
    } };

    ghost invariant = { λ c. IsKept (owned_collation (arc_value c.collation)) c.settings c.keys c.comparison };
}

impl OwnedCollator {
    /// The settings of its keys.
    pub fn settings(&self) -> Settings
        ensures { result ≡ (keying_in self.now).settings }
    {
        self.settings
    }

    /// Another collator with all that this one keys texts by. The two share their table and data file, so it takes little
    /// memory. Each has memory for texts and keys of its own, so two threads may use them at the same time. It made no
    /// key yet.
    ///
    /// # Errors
    ///
    /// The table has 2^63 - 1 collators. This one stays as it is.
    pub fn share(&self, alloc: Global) -> Result<OwnedCollator, AllocError>
        ensures keying { IfOk result (λ c. keying_in c ≡ keying_in self.now) }
        ensures key { IfOk result (λ c. key_in c ≡ []) }
    {
        Ok(OwnedCollator {
            collation: Arc::try_clone(&self.collation)?,
            keys: KeyMemory::new(alloc, alloc, self.settings),
            comparison: TextComparison::new(alloc, alloc),
            settings: self.settings,
        })
    }
}
