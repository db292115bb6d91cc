//! `OwnedUpgrade`: what an upgrade owns.

use std::marker::Model;
use uca_editions::ChangeIndex;
use uca_images::KeyMover;
use uca_numbers::WrittenText;
use uca_text::Normal;
use uca_values::Data;
use uca_weights::Numbers;

/// An upgrade of stored keys from an old table and its data file to new ones. It owns all that it needs: the list of
/// changes, the maps of weights, the properties of the new data file, and memory for one text and one key.
#[derive(Drop)]
pub struct OwnedUpgrade {
    // what changes
    pub(crate) index: ChangeIndex,
    // the maps of weights, for keys of these settings
    pub(crate) mover: KeyMover,
    // how the numbers of texts compare
    pub(crate) numbers: Numbers,
    // what texts are normalized by
    pub(crate) data_file: Data,
    // memory for what is read of a text, and for a text by value
    pub(crate) text: Normal,
    pub(crate) written: WrittenText,
    // memory for a key as it was
    pub(crate) before: Vec<u8>,
    // the fingerprints of what keys are made by
    pub(crate) old_fingerprint: [u8; 32],
    pub(crate) new_fingerprint: [u8; 32],
}

impl Model for OwnedUpgrade {
    ghost use Rattle.uca_upgrade.specs.Upgrades.{UpgradeState};

    ghost Value = { UpgradeState };

    ghost view = { λ u. record {
      list = u.index;
      certificate = u.mover.certificate;
      settings = record {
        weighting = u.mover.settings.weighting;
        depth = u.mover.settings.depth;
        numbers = u.numbers;
      };
      data_file = u.data_file;
      old_fingerprint = u.old_fingerprint;
      new_fingerprint = u.new_fingerprint;
    } };
}
