//! Keys and comparisons of texts that are given as bytes.

ghost use Rattle.std.specs.Prelude.{◌≡◌, IfOk, IfErr, IfSome, OnOk, chars};
ghost use Rattle.std.specs.Bool.{OnTrue};
ghost use Rattle.std.specs.Str.{IsUtf8};
ghost use Rattle.uca_weights.specs.declared.Depth.TheVariants.{Weights};
ghost use Rattle.uca_values.specs.Content.{properties_of};
ghost use Rattle.uca_match.specs.OwnedCollations.{owned_collation};
ghost use Rattle.uca_plain.specs.PointCache.{AreTrueEntries};
ghost use Rattle.uca_order.specs.Depths.{read_points};
ghost use Rattle.uca_order.specs.Keyings.{keying_by, key_of_bytes, bytes_compared};
ghost use Rattle.uca_key_writer.specs.KeyLevels.{AreLevelsOf, levels_in};
ghost use Rattle.uca_key_writer.specs.Memories.{settings_in};
ghost use Rattle.uca_owned.specs.Bounds.{BoundsKeys, key_bound};
ghost use Rattle.uca_owned.specs.Owned.{keying_in, key_in};
ghost use Rattle.uca_owned.specs.Causes.{IsAcceptedBy, IsAcceptedText, IsKeyCause, IsCompareCause};

use crate::OwnedCollator;
use crate::comparing::{compare_bytes, order_at_once};
use crate::faults::{CompareFault, KeyFault};
use crate::reading::read_text;
use std::alloc::AllocError;
use std::cmp::Ordering;
use uca_key_writer::{KeyLevels, KeyMemory};
use uca_match::OwnedCollation;

// how many bytes a key has at most for each byte of its text
const MOST_FOR_A_BYTE: usize = 518;

// how many bytes the separators of the levels have at most
const MOST_SEPARATORS: usize = 8;

// Makes the key of a text that is given as bytes.
fn write_key(collation: &OwnedCollation, keys: &mut KeyMemory, text: &[u8]) -> Result<(), KeyFault>
    requires { AreTrueEntries (owned_collation collation.now) keys.old.points.entries.items }
    ensures known { AreTrueEntries (owned_collation collation.now) keys.new.points.entries.items }
    ensures key { OnOk result (keys.new.buffer.key
        ≡ key_of_bytes (keying_by (owned_collation collation.now) (settings_in keys.old)) text.now) }
    ensures accepted { OnOk result (IsAcceptedText keys.old.numbers (properties_of collation.now.properties) text.now) }
    ensures fault { IfErr result (IsKeyCause keys.old.numbers (properties_of collation.now.properties) text.now) }
    ensures settings { settings_in keys.new ≡ settings_in keys.old }
{
    let Some(text) = read_text(text) else {
        return Err(KeyFault::Utf8);
    };
    let collator = collation.collator();
    match keys.write(&collator, text) {
        Ok(()) => Ok(()),
        Err(fault) => Err(KeyFault::Text(fault)),
    }
}

// Writes the levels of the key of a text that is given as bytes, and returns `true`. It returns `false` if the bytes
// are not UTF-8, or the levels are not written without the key.
fn write_levels(
    collation: &OwnedCollation,
    keys: &mut KeyMemory,
    text: &[u8],
) -> Result<bool, AllocError>
    requires { AreTrueEntries (owned_collation collation.now) keys.old.points.entries.items }
    ensures known { AreTrueEntries (owned_collation collation.now) keys.new.points.entries.items }
    ensures levels { let k = keying_by (owned_collation collation.now) (settings_in keys.old) in
        IfOk result (λ written. OnTrue written (AreLevelsOf k.settings.weighting
        (read_points k.collation k.settings.numbers (chars text.now)).elements keys.new.buffer.levels)) }
    ensures accepted { let properties = properties_of collation.now.properties in
        IfOk result (λ written. OnTrue written (IsAcceptedText keys.old.numbers properties text.now)) }
    ensures depth { IfOk result (λ written. OnTrue written (keys.old.buffer.depth ≡ Weights)) }
    ensures utf8 { IfErr result (λ error. IsUtf8 text.now) }
    ensures settings { settings_in keys.new ≡ settings_in keys.old }
{
    let Some(text) = read_text(text) else {
        return Ok(false);
    };
    let collator = collation.collator();
    keys.write_levels(&collator, text)
}

impl OwnedCollator {
    /// Makes the sort key of a text (UTS #10, section 7.3), over the key that was there. [`key`](OwnedCollator::key)
    /// returns it.
    ///
    /// # Errors
    ///
    /// `Utf8` if the bytes are not UTF-8. `Text` if the text is rejected, as [`normal`](uca_text::normal) says of what
    /// is read of it, or if an allocation for the key failed. The key is then unspecified until the next one is made.
    pub fn make_key(&mut self, text: &[u8]) -> Result<(), KeyFault>
        ensures key { OnOk result (key_in self.new ≡ key_of_bytes (keying_in self.old) text.now) }
        ensures accepted { OnOk result (IsAcceptedBy (keying_in self.old) text.now) }
        ensures fault { let k = keying_in self.old in
            IfErr result (IsKeyCause k.settings.numbers k.collation.properties text.now) }
        ensures keying { keying_in self.new ≡ keying_in self.old }
    {
        write_key(&*self.collation, &mut self.keys, text)
    }

    /// The key that was made last, or no bytes if none was.
    pub fn key(&self) -> &[u8]
        ensures { result.now ≡ key_in self.now }
    {
        self.keys.bytes()
    }

    /// Makes the levels of the sort key of a text, over those that were there, and returns `true`.
    /// [`levels`](OwnedCollator::levels) returns them. They are not joined to a key. So it takes less time where a
    /// compact key is made of them, or the caller joins them. The key that was made last is then unspecified.
    ///
    /// It returns `false` if the bytes are not UTF-8, or the levels are not made without the key. So it is at the depth
    /// `Identical`, for a text that is rejected, and where more than 524,288 bytes are read. No clause says when. The
    /// levels are then unspecified, and [`make_key`](OwnedCollator::make_key) makes the key, or says why there is none.
    ///
    /// # Errors
    ///
    /// An allocation failed. The bytes are UTF-8, and the levels are unspecified.
    pub fn make_levels(&mut self, text: &[u8]) -> Result<bool, AllocError>
        ensures levels { let k = keying_in self.old in
            IfOk result (λ made. OnTrue made (AreLevelsOf k.settings.weighting
            (read_points k.collation k.settings.numbers (chars text.now)).elements self.new.levels)) }
        ensures accepted { IfOk result (λ made. OnTrue made (IsAcceptedBy (keying_in self.old) text.now)) }
        ensures depth { IfOk result (λ made. OnTrue made ((keying_in self.old).settings.depth ≡ Weights)) }
        ensures utf8 { IfErr result (λ error. IsUtf8 text.now) }
        ensures keying { keying_in self.new ≡ keying_in self.old }
    {
        write_levels(&*self.collation, &mut self.keys, text)
    }

    /// The levels that were made last. A call that makes a key leaves them unspecified.
    pub fn levels(&self) -> KeyLevels<'_>
        ensures { levels_in result ≡ self.now.levels }
    {
        self.keys.levels()
    }

    /// A bound of the length of sort keys (UTS #10, section 7.3). For example, no key of a text of ten bytes has more than
    /// 5,188 bytes. No key that [`make_key`](OwnedCollator::make_key) makes of a text of at most `len` bytes has more bytes
    /// than this. So a caller can have room for a key before it is made. Most keys are far shorter.
    ///
    /// A bound that is greater than `usize::MAX` becomes that: a longer key fits into no memory.
    pub fn key_bound(&self, len: usize) -> usize
        ensures value { result ≡ key_bound len }
        ensures bounds { BoundsKeys (key_of_bytes (keying_in self.now)) len result }
    {
        // what it reads texts by has short rows
        let _ = &self.collation;
        len.saturating_mul(MOST_FOR_A_BYTE)
            .saturating_add(MOST_SEPARATORS)
    }

    /// How two texts compare (UTS #10, section 1.1), without keys: their order, and the first level at which they
    /// differ, or 0. The key and the levels that were made last stay, at an error too.
    ///
    /// # Errors
    ///
    /// `Left` if the left text is rejected, or else `Right` if the right one is, for the reasons of
    /// [`make_key`](OwnedCollator::make_key).
    pub fn compare(&mut self, left: &[u8], right: &[u8]) -> Result<(Ordering, u8), CompareFault>
        ensures compared { IfOk result (λ found. let answer = bytes_compared (keying_in self.old) left.now right.now in
            (found.0 ≡ answer.order) × (found.1 ≡ answer.level)) }
        ensures accepted { let k = keying_in self.old in
            OnOk result (IsAcceptedBy k left.now × IsAcceptedBy k right.now) }
        ensures fault { let k = keying_in self.old in
            IfErr result (IsCompareCause k.settings.numbers k.collation.properties left.now right.now) }
        ensures keying { keying_in self.new ≡ keying_in self.old }
        ensures key { key_in self.new ≡ key_in self.old }
        ensures levels { self.new.levels ≡ self.old.levels }
    {
        compare_bytes(
            &*self.collation,
            &mut self.comparison,
            &self.settings,
            left,
            right,
        )
    }

    /// The order of two texts of at most 32 bytes by the first bytes that differ, such as `r` and `s` of `cart` and
    /// `cast`. It changes nothing. Where there is a result, it takes less time than
    /// [`compare`](OwnedCollator::compare).
    ///
    /// There is no result where a text has more bytes, is not UTF-8 or has a code point of three bytes or more. Nor is
    /// there one where a text begins with the other. The first bytes that differ have to be code points of ASCII that
    /// differ at level 1, with at most eight bytes before them. What comes after them may not change their weights, as
    /// an accent may. With numbers by value there is no result, and none before `compare` compared two short texts by
    /// their weights. No clause says when there is one.
    #[inline(always)]
    pub fn order_at_once(&self, left: &[u8], right: &[u8]) -> Option<Ordering>
        ensures compared { IfSome result (λ order. let answer = bytes_compared (keying_in self.now) left.now right.now in
            (order ≡ answer.order) × (1 ≡ answer.level)) }
        ensures accepted { let k = keying_in self.now in IfSome result (λ _. IsAcceptedBy k left.now × IsAcceptedBy k right.now) }
    {
        order_at_once(&self.comparison, self.settings, left, right)
    }
}
