//! What an open upgrade of C's has.

ghost use Rattle.std.specs.Prelude.{◌≡◌};

use std::alloc::Global;
use std::marker::Model;
use uca_upgrade::OwnedUpgrade;

/// An upgrade, and memory for what a call makes.
#[derive(Drop)]
pub struct OpenUpgrade {
    pub(crate) upgrade: OwnedUpgrade,
    // the bytes that a call makes
    pub(crate) made: Vec<u8>,
}

impl Model for OpenUpgrade {
    ghost use Rattle.uca_upgrade.specs.Upgrades.{UpgradeState};

    ghost Value = { UpgradeState };

    ghost view = { λ u. u.upgrade };
}

impl OpenUpgrade {
    // One without bytes that were made.
    pub(crate) fn new(alloc: Global, upgrade: OwnedUpgrade) -> OpenUpgrade
        ensures { result ≡ upgrade }
    {
        OpenUpgrade {
            upgrade,
            made: Vec::new(alloc),
        }
    }
}
