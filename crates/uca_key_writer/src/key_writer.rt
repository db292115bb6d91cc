//! `KeyWriter`: writes the keys of texts, one after another.

ghost use Rattle.std.specs.Prelude.{◌≡◌, [], ◌<◌, ◌^◌, ◌⊎◌, length, take, chars, OnOk, IfOk, IfErr};
ghost use Rattle.std.specs.Bool.{OnTrue};
ghost use Rattle.uca_weights.specs.declared.Depth.TheVariants.{Weights};
ghost use Rattle.uca_weights.specs.declared.Numbers.TheVariants.{AsText};
ghost use Rattle.uca_text.specs.Limits.{IsAccepted};
ghost use Rattle.uca_text.specs.Faults.{IsCause};
ghost use Rattle.uca_elements.specs.Collations.{collation_of};
ghost use Rattle.uca_order.specs.Depths.{read_points, text_key, written_text};
ghost use Rattle.uca_order.specs.Lengths.{HasShortRows};
ghost use Rattle.uca_key_writer.specs.KeyLevels.{AreLevelsOf, levels_in};
ghost use Rattle.uca_key_writer.specs.Writers.{collation_by};

use crate::{KeyLevels, KeyMemory};
use std::alloc::{AllocError, Allocator, Global};
use std::marker::Model;
use uca_elements::{Collator, Lookup};
use uca_text::TextFault;
use uca_weights::Settings;

/// Writes the sort keys of texts (UTS #10, section 7.3), one after another, by one collator and under the same settings.
/// Each key that is written replaces the one before, and the memory is used again.
#[derive(Drop)]
pub struct KeyWriter<'a, L: Lookup, T: Allocator = Global, A: Allocator = Global> {
    collator: Collator<'a, L, T>,
    memory: KeyMemory<A>,
}

impl<'a, L: Lookup, T: Allocator, A: Allocator> Model for KeyWriter<'a, L, T, A> {
    ghost use Rattle.uca_elements.specs.Collations.{collation_of};
    ghost use Rattle.uca_plain.specs.PointCache.{AreTrueEntries};
    ghost use Rattle.uca_key_writer.specs.Memories.{settings_in};
    ghost use Rattle.uca_key_writer.specs.Writers.{WriterState};

    ghost Value = { WriterState L };

    ghost view = { λ w. record {
      lookup = w.collator.lookup.now;
      ranges = w.collator.header.now.ranges;
      data_file = w.collator.data.now;
      settings = settings_in w.memory;
      key = w.memory.buffer.key;
      levels = w.memory.buffer.levels;
    } };

    ghost invariant = { λ w. AreTrueEntries (collation_of L.content w.collator) w.memory.points.entries.items };
}

impl<'a, L: Lookup, T: Allocator, A: Allocator + Copy> KeyWriter<'a, L, T, A> {
    /// A writer of keys under the settings. It takes no memory yet.
    pub fn new(alloc: A, global: Global, collator: Collator<'a, L, T>, settings: Settings) -> Self
        ensures collation { collation_by L.content result ≡ collation_of L.content collator.entry }
        ensures settings { result.settings ≡ settings }
        ensures empty { result.key ≡ [] }
    {
        KeyWriter {
            collator,
            memory: KeyMemory::new(alloc, global, settings),
        }
    }
}

impl<'a, L: Lookup, T: Allocator, A: Allocator> KeyWriter<'a, L, T, A> {
    /// Writes the key of a text, over the key that was there.
    ///
    /// # Errors
    ///
    /// Those of [`normal`](uca_text::normal) for the text that is read. With numbers by value it is the text by value.
    /// `Memory` also if an allocation for the key failed. The bytes are then unspecified until the next successful
    /// write.
    pub fn write(&mut self, text: &str) -> Result<(), TextFault>
        ensures key { OnOk result (self.new.key ≡ text_key (collation_by L.content self.old) self.old.settings (chars text.now)) }
        ensures accepted { let c = collation_by L.content self.old in
            OnOk result (IsAccepted (written_text self.old.settings.numbers c.properties (chars text.now))) }
        ensures fault { let c = collation_by L.content self.old in
            IfErr result (IsCause (written_text self.old.settings.numbers c.properties (chars text.now))) }
        ensures short { HasShortRows (collation_by L.content self.old).rows →
            (self.old.settings.numbers ≡ AsText) ⊎ (length text.now < 2 ^ 36) → OnOk result (length self.new.key < 2 ^ 40) }
        ensures collation { collation_by L.content self.new ≡ collation_by L.content self.old }
        ensures settings { self.new.settings ≡ self.old.settings }
    {
        self.memory.write(&self.collator, text)
    }

    /// Writes the levels of the key of a text, over those that were there, without joining them to a key, and returns `true`.
    /// The key that was written last is then no longer there: its bytes are unspecified.
    ///
    /// It may return `false` for any text, and no clause says when. The levels are then unspecified, and
    /// [`write`](KeyWriter::write) makes the key, or says why there is none. So it is where a piece is rejected, where the text
    /// that is read has more than 524,288 bytes, and at the depth `Identical`.
    ///
    /// # Errors
    ///
    /// An allocation failed. The levels and the bytes are then unspecified.
    pub fn write_levels(&mut self, text: &str) -> Result<bool, AllocError>
        ensures levels { let c = collation_by L.content self.old in IfOk result (λ written. OnTrue written
            (AreLevelsOf self.old.settings.weighting (read_points c self.old.settings.numbers (chars text.now)).elements self.new.levels)) }
        ensures accepted { let c = collation_by L.content self.old in IfOk result (λ written. OnTrue written
            (IsAccepted (written_text self.old.settings.numbers c.properties (chars text.now)))) }
        ensures depth { IfOk result (λ written. OnTrue written (self.old.settings.depth ≡ Weights)) }
        ensures collation { collation_by L.content self.new ≡ collation_by L.content self.old }
        ensures settings { self.new.settings ≡ self.old.settings }
    {
        self.memory.write_levels(&self.collator, text)
    }

    /// Writes at least the first sixteen bytes of the key of a text, over the key that was there. A shorter key is written
    /// whole. So keys are compared by their beginnings before any is written whole: this takes less time for a long text,
    /// which is read no further than these bytes need. The rest is only judged.
    ///
    /// # Errors
    ///
    /// Those of [`write`](KeyWriter::write).
    pub fn write_beginning(&mut self, text: &str) -> Result<(), TextFault>
        ensures beginning { OnOk result (take 16 self.new.key ≡ take 16
            (text_key (collation_by L.content self.old) self.old.settings (chars text.now))) }
        ensures accepted { let c = collation_by L.content self.old in
            OnOk result (IsAccepted (written_text self.old.settings.numbers c.properties (chars text.now))) }
        ensures fault { let c = collation_by L.content self.old in
            IfErr result (IsCause (written_text self.old.settings.numbers c.properties (chars text.now))) }
        ensures collation { collation_by L.content self.new ≡ collation_by L.content self.old }
        ensures settings { self.new.settings ≡ self.old.settings }
    {
        self.memory.write_beginning(&self.collator, text)
    }

    /// The levels that were written last, as [`KeyMemory::levels`](crate::KeyMemory::levels) describes them.
    pub fn levels(&self) -> KeyLevels<'_>
        ensures { levels_in result ≡ self.now.levels }
    {
        self.memory.levels()
    }

    /// The key that was written last, as [`KeyBuffer::bytes`](crate::KeyBuffer::bytes) describes it.
    pub fn bytes(&self) -> &[u8]
        ensures { result.now ≡ self.now.key }
    {
        self.memory.bytes()
    }
}
