//! Which texts an upgrade affects, and the keys of all others.

ghost use Rattle.std.specs.Prelude.{◌≡◌, IfOk, IfErr, OnOk, OnErr, Some, None, false, if◌then◌else◌};
ghost use Rattle.uca_values.specs.Content.{properties_of};
ghost use Rattle.uca_owned.specs.Causes.{IsAcceptedText, IsKeyCause};
ghost use Rattle.uca_upgrade.specs.Upgrades.{is_affected_in, rekeyed_in};

use crate::OwnedUpgrade;
use std::alloc::AllocError;
use uca_changes::{Affects, renew_text};
use uca_owned::KeyFault;

impl OwnedUpgrade {
    /// Whether the key of a text has to be made anew. A changed text occurs in order in what is read of it, or a changed
    /// range has a code point of that. With numbers by value it is read with the code of each number in place of it.
    /// `uca affected --changes` prints exactly the lines of such texts, and there it needs `--numeric`.
    ///
    /// # Errors
    ///
    /// `Utf8` if the bytes are not UTF-8. `Text` if the text is rejected, as [`normal`](uca_text::normal) says. There
    /// is no key of such a text.
    pub fn affected(&mut self, text: &[u8]) -> Result<bool, KeyFault>
        ensures affected { IfOk result (λ affected. affected ≡ is_affected_in self.old text.now) }
        ensures accepted { OnOk result (IsAcceptedText self.old.settings.numbers (properties_of self.old.data_file) text.now) }
        ensures fault { IfErr result (IsKeyCause self.old.settings.numbers (properties_of self.old.data_file) text.now) }
        ensures upgrade { self.new ≡ self.old }
    {
        let Ok(text) = str::from_utf8(text) else {
            return Err(KeyFault::Utf8);
        };
        match renew_text(
            &mut self.text,
            &mut self.written,
            text,
            self.numbers,
            &self.data_file,
        ) {
            Ok(()) => Ok(self.index.affects(&self.text)),
            Err(fault) => Err(KeyFault::Text(fault)),
        }
    }

    /// The fingerprint of what the stored keys were made by: the bytes of the old table and of its data file, and the
    /// settings. The upgrade is for keys of this fingerprint alone.
    pub fn old_fingerprint(&self) -> [u8; 32]
        ensures { result ≡ self.now.old_fingerprint }
    {
        self.old_fingerprint
    }

    /// The fingerprint of what the new keys are made by: the bytes of the new table and of its data file, and the
    /// settings.
    pub fn new_fingerprint(&self) -> [u8; 32]
        ensures { result ≡ self.now.new_fingerprint }
    {
        self.new_fingerprint
    }

    /// Puts a stored key through the maps in place, and returns `true`. So the old key of a text that is not
    /// [`affected`](OwnedUpgrade::affected) becomes its key by the new files.
    ///
    /// It returns `false`, and the bytes stay, if a weight has no image. So it does if the bytes are no key of the
    /// weighting and the depth that the upgrade was opened with. No other key is told from the right ones. So compare
    /// the fingerprint of your keys with [`old_fingerprint`](OwnedUpgrade::old_fingerprint) first, and do not give it
    /// keys of affected texts.
    ///
    /// # Errors
    ///
    /// An allocation failed. The bytes stay.
    pub fn rekey(&mut self, key: &mut [u8]) -> Result<bool, AllocError>
        ensures moved { IfOk result (λ found. rekeyed_in self.old key.old ≡ (if found then Some key.new else None)) }
        ensures stays { IfOk result (λ found. found ≡ false → key.new ≡ key.old) }
        ensures memory { OnErr result (key.new ≡ key.old) }
        ensures upgrade { self.new ≡ self.old }
    {
        self.before.clear();
        self.before.extend_from_slice(key)?;
        if self.mover.move_key(key) {
            return Ok(true);
        }
        key.copy_from_slice(&self.before);
        Ok(false)
    }
}
