//! `KeyMemory`: what a writer of keys keeps from text to text, whatever it reads texts by.
//!
//! Where numbers compare by their values, a text with a digit is written by value first (see `uca_numbers`). The weights
//! of its key are those of what was written. At an identical level come the code points of the text itself.

ghost use Rattle.std.specs.Prelude.{◌≡◌, [], ◌<◌, ◌^◌, ◌⊎◌, length, take, chars, OnOk, IfOk, IfErr};
ghost use Rattle.std.specs.Bool.{OnTrue, MatchBool};
ghost use Rattle.uca_weights.specs.declared.Depth.TheVariants.{Weights};
ghost use Rattle.uca_weights.specs.declared.Numbers.TheVariants.{AsText, ByValue};
ghost use Rattle.uca_text.specs.Limits.{IsAccepted};
ghost use Rattle.uca_text.specs.Faults.{IsCause};
ghost use Rattle.uca_elements.specs.Collations.{Collation, collation_of};
ghost use Rattle.uca_order.specs.Depths.{read_points, written, written_text, text_key};
ghost use Rattle.uca_order.specs.Lengths.{HasShortRows};
ghost use Rattle.uca_plain.specs.PointCache.{AreTrueEntries};
ghost use Rattle.uca_key_writer.specs.KeyLevels.{AreLevelsOf, levels_in};
ghost use Rattle.uca_key_writer.specs.Memories.{settings_in};

use crate::pieces::Piece;
use crate::{KeyBuffer, KeyLevels};
use std::alloc::{AllocError, Allocator, Global};
use uca_elements::{Collator, Lookup};
use uca_numbers::{WrittenText, has_no_digit};
use uca_plain::plain::PointCache;
use uca_text::{Normal, TextFault, decompose};
use uca_weights::{Depth, Numbers, Settings};

/// Memory for the keys of texts, and what is known of their code points. All texts have to be read by one collation: what is
/// known of code points is true of that one alone.
#[derive(Drop)]
pub struct KeyMemory<A: Allocator = Global> {
    /// The key that was written last, and the weighting and the depth of all keys.
    pub buffer: KeyBuffer<A>,
    /// How the numbers of all texts compare.
    pub numbers: Numbers,
    /// What is known of the code points of the texts so far.
    pub points: PointCache<A>,
    piece: Piece,
    // the text of a key that is not written piece by piece
    text: Normal,
    // the text by value
    written: WrittenText,
    // the code points of the text itself in Normalization Form D, where it is written by value
    itself: Vec<char>,
    // lends its memory to these
    spare: Vec<char>,
}

impl<A: Allocator + Copy> KeyMemory<A> {
    /// Memory for keys under the settings. Nothing is known yet, and no memory is taken.
    pub fn new(alloc: A, global: Global, settings: Settings) -> KeyMemory<A>
        ensures known { (c : Collation) → AreTrueEntries c result.points.entries.items }
        ensures settings { settings_in result ≡ settings }
        ensures empty { result.buffer.key ≡ [] }
    {
        KeyMemory {
            buffer: KeyBuffer::new(alloc, settings.weighting, settings.depth),
            numbers: settings.numbers,
            points: PointCache::new(alloc, global),
            piece: Piece::new(global),
            text: Normal::new(global),
            written: WrittenText::new(global),
            itself: Vec::new(global),
            spare: Vec::new(global),
        }
    }
}

impl<A: Allocator> KeyMemory<A> {
    /// Writes the key of a text, over the key that was there.
    ///
    /// # Errors
    ///
    /// Those of [`normal`](uca_text::normal) for the text that is read. With numbers by value it is the text by value.
    /// `Memory` also if an allocation for the key failed. The bytes are then unspecified until the next successful
    /// write.
    pub fn write<L: Lookup, T: Allocator>(
        &mut self,
        collator: &Collator<L, T>,
        text: &str,
    ) -> Result<(), TextFault>
        requires { AreTrueEntries (collation_of L.content collator.now) self.old.points.entries.items }
        ensures known { AreTrueEntries (collation_of L.content collator.now) self.new.points.entries.items }
        ensures key { OnOk result (self.new.buffer.key
            ≡ text_key (collation_of L.content collator.now) (settings_in self.old) (chars text.now)) }
        ensures accepted { let c = collation_of L.content collator.now in
            OnOk result (IsAccepted (written_text self.old.numbers c.properties (chars text.now))) }
        ensures fault { let c = collation_of L.content collator.now in
            IfErr result (IsCause (written_text self.old.numbers c.properties (chars text.now))) }
        ensures short { HasShortRows (collation_of L.content collator.now).rows →
            (self.old.numbers ≡ AsText) ⊎ (length text.now < 2 ^ 36) → OnOk result (length self.new.buffer.key < 2 ^ 40) }
        ensures settings { settings_in self.new ≡ settings_in self.old }
    {
        if is_read_as_it_is(self.numbers, text) {
            return self.buffer.write_as_is(
                collator,
                &mut self.points,
                &mut self.piece,
                &mut self.text,
                text,
            );
        }
        self.write_by_value(collator, text)
    }

    // Writes the key of a text that has numbers, over the key that was there.
    fn write_by_value<L: Lookup, T: Allocator>(
        &mut self,
        collator: &Collator<L, T>,
        text: &str,
    ) -> Result<(), TextFault>
        requires numbers { self.old.numbers ≡ ByValue }
        requires entries { AreTrueEntries (collation_of L.content collator.now) self.old.points.entries.items }
        ensures known { AreTrueEntries (collation_of L.content collator.now) self.new.points.entries.items }
        ensures key { OnOk result (self.new.buffer.key
            ≡ text_key (collation_of L.content collator.now) (settings_in self.old) (chars text.now)) }
        ensures accepted { let c = collation_of L.content collator.now in
            OnOk result (IsAccepted (written_text self.old.numbers c.properties (chars text.now))) }
        ensures fault { let c = collation_of L.content collator.now in
            IfErr result (IsCause (written_text self.old.numbers c.properties (chars text.now))) }
        ensures short { HasShortRows (collation_of L.content collator.now).rows → length text.now < 2 ^ 36 →
            OnOk result (length self.new.buffer.key < 2 ^ 40) }
        ensures settings { settings_in self.new ≡ settings_in self.old }
    {
        self.written.renew(text)?;
        match self.buffer.depth() {
            Depth::Weights => self.buffer.write_as_is(
                collator,
                &mut self.points,
                &mut self.piece,
                &mut self.text,
                self.written.as_str(),
            ),
            Depth::Identical => {
                self.text.renew(self.written.as_str(), collator.data)?;
                decompose(&mut self.itself, &mut self.spare, text)?;
                self.buffer.write_with(collator, &self.text, &self.itself)?;
                Ok(())
            }
        }
    }

    /// Writes the levels of the key of a text, over those that were there, without joining them to a key, and returns `true`.
    /// The key that was written last is then no longer there: its bytes are unspecified.
    ///
    /// It may return `false` for any text, and no clause says when. The levels are then unspecified, and
    /// [`write`](KeyMemory::write) makes the key, or says why there is none. So it is where a piece is rejected, where the text
    /// that is read has more than 524,288 bytes, and at the depth `Identical`.
    ///
    /// # Errors
    ///
    /// An allocation failed. The levels and the bytes are then unspecified.
    pub fn write_levels<L: Lookup, T: Allocator>(
        &mut self,
        collator: &Collator<L, T>,
        text: &str,
    ) -> Result<bool, AllocError>
        requires { AreTrueEntries (collation_of L.content collator.now) self.old.points.entries.items }
        ensures known { AreTrueEntries (collation_of L.content collator.now) self.new.points.entries.items }
        ensures levels { let c = collation_of L.content collator.now in IfOk result (λ written. OnTrue written
            (AreLevelsOf self.old.buffer.weighting (read_points c self.old.numbers (chars text.now)).elements self.new.buffer.levels)) }
        ensures accepted { let c = collation_of L.content collator.now in IfOk result (λ written. OnTrue written
            (IsAccepted (written_text self.old.numbers c.properties (chars text.now)))) }
        ensures depth { IfOk result (λ written. OnTrue written (self.old.buffer.depth ≡ Weights)) }
        ensures settings { settings_in self.new ≡ settings_in self.old }
    {
        if is_read_as_it_is(self.numbers, text) {
            return self
                .buffer
                .write_levels(collator, &mut self.points, &mut self.piece, text);
        }
        match self.buffer.depth() {
            Depth::Identical => Ok(false),
            Depth::Weights => {
                self.written.renew(text)?;
                self.buffer.write_levels(
                    collator,
                    &mut self.points,
                    &mut self.piece,
                    self.written.as_str(),
                )
            }
        }
    }

    /// Writes at least the first sixteen bytes of the key of a text, over the key that was there. A shorter key is written
    /// whole. So keys are compared by their beginnings before any is written whole: this takes less time for a long text,
    /// which is read no further than these bytes need. The rest is only judged.
    ///
    /// # Errors
    ///
    /// Those of [`write`](KeyMemory::write).
    pub fn write_beginning<L: Lookup, T: Allocator>(
        &mut self,
        collator: &Collator<L, T>,
        text: &str,
    ) -> Result<(), TextFault>
        requires { AreTrueEntries (collation_of L.content collator.now) self.old.points.entries.items }
        ensures known { AreTrueEntries (collation_of L.content collator.now) self.new.points.entries.items }
        ensures beginning { OnOk result (take 16 self.new.buffer.key ≡ take 16
            (text_key (collation_of L.content collator.now) (settings_in self.old) (chars text.now))) }
        ensures accepted { let c = collation_of L.content collator.now in
            OnOk result (IsAccepted (written_text self.old.numbers c.properties (chars text.now))) }
        ensures fault { let c = collation_of L.content collator.now in
            IfErr result (IsCause (written_text self.old.numbers c.properties (chars text.now))) }
        ensures settings { settings_in self.new ≡ settings_in self.old }
    {
        match self.begin(collator, text) {
            Ok(true) => Ok(()),
            Ok(false) => self.write(collator, text),
            Err(_) => Err(TextFault::Memory),
        }
    }

    // Writes at least the first sixteen bytes of the key of a text, as `write_beginning` does, and returns `true`. If the
    // whole key has to be written for that, it returns `false`, and the bytes are unspecified.
    fn begin<L: Lookup, T: Allocator>(
        &mut self,
        collator: &Collator<L, T>,
        text: &str,
    ) -> Result<bool, AllocError>
        requires { AreTrueEntries (collation_of L.content collator.now) self.old.points.entries.items }
        ensures known { AreTrueEntries (collation_of L.content collator.now) self.new.points.entries.items }
        ensures beginning { let c = collation_of L.content collator.now in IfOk result (λ begun. OnTrue begun
            (take 16 self.new.buffer.key ≡ take 16 (text_key c (settings_in self.old) (chars text.now)))) }
        ensures accepted { let c = collation_of L.content collator.now in IfOk result (λ begun. OnTrue begun
            (IsAccepted (written_text self.old.numbers c.properties (chars text.now)))) }
        ensures settings { settings_in self.new ≡ settings_in self.old }
    {
        if is_read_as_it_is(self.numbers, text) {
            return self
                .buffer
                .write_beginning(collator, &mut self.points, &mut self.piece, text);
        }
        match self.buffer.depth() {
            // What was written by value has other code points than the text, which come last in the key.
            Depth::Identical => Ok(false),
            Depth::Weights => {
                self.written.renew(text)?;
                self.buffer.write_beginning(
                    collator,
                    &mut self.points,
                    &mut self.piece,
                    self.written.as_str(),
                )
            }
        }
    }

    /// The levels that were written last. A call that writes a key, or the beginning of one, leaves them unspecified.
    pub fn levels(&self) -> KeyLevels<'_>
        ensures { levels_in result ≡ self.now.buffer.levels }
    {
        self.buffer.levels()
    }

    /// The key that was written last, as [`KeyBuffer::bytes`] describes it.
    pub fn bytes(&self) -> &[u8]
        ensures { result.now ≡ self.now.buffer.key }
    {
        self.buffer.bytes()
    }
}

// Whether a text is read as it is. Otherwise it is read by value. With numbers as text it is not looked through.
#[inline]
fn is_read_as_it_is(numbers: Numbers, text: &str) -> bool
    ensures { MatchBool result (written numbers (chars text.now) ≡ chars text.now) (numbers ≡ ByValue) }
{
    match numbers {
        Numbers::AsText => true,
        Numbers::ByValue => has_no_digit(text),
    }
}
