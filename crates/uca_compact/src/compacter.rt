//! `KeyCompacter`: stored keys become compact keys.

ghost use Rattle.std.specs.Prelude.{◌≡◌, ◌-◌, ◌++◌, IfOk, OnOk, if◌then◌else◌, true, map, None, Some, option_map};
ghost use Rattle.std.specs.Bool.{MatchBool};
ghost use Rattle.std.specs.Char.{IsScalar};
ghost use Rattle.std.specs.List.{AllByRecursion};
ghost use Rattle.uca_order.specs.Levels.{level_count};
ghost use Rattle.uca_order.specs.Depths.{ReadText, key_at};
ghost use Rattle.uca_compact.specs.CompactKeys.{compact as compact_levels, compact_key, text_parts};
ghost use Rattle.uca_compact.specs.Forms.{forms_of, letters_form};
ghost use Rattle.uca_compact.specs.LevelBytes.{AreWeightBytes, level_bytes_in, weights_in};
ghost use Rattle.uca_compact.specs.PlainLevels.{plain_level};
ghost use Rattle.uca_compact.specs.StoredParts.{stored_parts, IsCompactOf, IsOfNoKey};
ghost use Rattle.uca_compact.specs.inside.Places.{AreTrueEntries};

use crate::buffers::Levels;
use crate::expander::expand;
use crate::key_buffers::KeyBuffers;
use crate::level_bytes::LevelBytes;
use crate::stored::{push_points_after, split_key};
use crate::written_levels::put_levels;
use std::alloc::{AllocError, Allocator, Global};
use std::marker::Model;
use uca_books::Book;
use uca_weights::{Depth, Settings, Weighting};

/// Makes compact keys of stored keys, and stored keys of these again. It needs no text and no table. With its first
/// compact key it takes 16,384 bytes for what it found of weights. It keeps room for the longest compact key that its
/// keys could have: twice the bytes of the longest key.
#[derive(Drop)]
pub struct KeyCompacter<A: Allocator = Global> {
    book: Book<A>,
    settings: Settings,
    // of a key that is expanded
    levels: Levels<A>,
    // of a key that is made compact
    buffers: KeyBuffers<A>,
}

impl<A: Allocator> Model for KeyCompacter<A> {
    ghost use Rattle.std.specs.Prelude.{◌-◌};
    ghost use Rattle.uca_order.specs.Levels.{level_count};
    ghost use Rattle.uca_compact.specs.Forms.{letters_form};
    ghost use Rattle.uca_compact.specs.Programs.{CompacterState};
    ghost use Rattle.uca_compact.specs.inside.Places.{AreTrueEntries};

    ghost Value = { CompacterState };

    ghost view = { λ c. record { book = c.book; settings = c.settings } };

    ghost invariant = { λ c. AreTrueEntries (letters_form c.book (level_count c.settings.weighting - 1)) c.buffers.entries.items };
}

impl<A: Allocator + Copy> KeyCompacter<A> {
    /// A book, for keys that were made under these settings.
    pub fn new(alloc: A, book: Book<A>, settings: Settings) -> KeyCompacter<A>
        ensures { result ≡ record { book = book; settings = settings } }
    {
        KeyCompacter {
            book,
            settings,
            levels: Levels::new(alloc),
            buffers: KeyBuffers::new(alloc),
        }
    }
}

impl<A: Allocator> KeyCompacter<A> {
    /// The book.
    pub fn book(&self) -> &Book<A>
        ensures { result.now ≡ self.now.book }
    {
        &self.book
    }

    /// Writes the compact key of a stored key over the bytes that were there, and returns `true`. The memory is used
    /// again.
    ///
    /// It returns `false` if the bytes are no key of the settings: if they have too few levels, too many, or a single
    /// byte at the end. So it does at depth `Identical` if what follows the weights is not whole code points: three
    /// bytes each, high byte first, each a Unicode scalar value. What was written is then unspecified.
    ///
    /// The key of a text is always a key of its settings. So for it `false` is never returned.
    ///
    /// # Errors
    ///
    /// An allocation failed. The bytes are then unspecified.
    pub fn write_compact<B: Allocator>(
        &mut self,
        key: &[u8],
        compact: &mut Vec<u8, B>,
    ) -> Result<bool, AllocError>
        ensures same { self.new ≡ self.old }
        ensures key { IfOk result (λ found. option_map (compact_key self.old.settings.depth self.old.settings.weighting self.old.book)
            (stored_parts self.old.settings.depth self.old.settings.weighting key.now) ≡ (if found then Some compact.new.items else None)) }
        ensures text { (t : ReadText) → key.now ≡ key_at self.old.settings.depth self.old.settings.weighting t → AllByRecursion IsScalar t.points →
            IfOk result (λ found. (found ≡ true) × (compact.new.items ≡ compact_key self.old.settings.depth self.old.settings.weighting self.old.book
            (text_parts self.old.settings.depth self.old.settings.weighting t))) }
    {
        compact.clear();
        let weighting = self.settings.weighting;
        let Some(split) = split_key(key, weighting) else {
            return Ok(false);
        };
        push_levels(
            weighting,
            &self.book,
            &mut self.buffers,
            &split.levels,
            compact,
        )?;
        push_points_after(compact, self.settings.depth, split.end)
    }

    /// Writes the compact key of these levels over the bytes that were there: what [`write_compact`](Self::write_compact)
    /// makes of a key of them, without code points. So a key need not be joined to be made compact.
    ///
    /// # Errors
    ///
    /// An allocation failed. The bytes are then unspecified.
    pub fn write_levels<B: Allocator>(
        &mut self,
        levels: &LevelBytes<'_>,
        compact: &mut Vec<u8, B>,
    ) -> Result<(), AllocError>
        requires levels { AllByRecursion AreWeightBytes (level_bytes_in self.old.settings.weighting levels.now) }
        ensures same { self.new ≡ self.old }
        ensures compact { OnOk result (compact.new.items ≡ compact_levels plain_level (forms_of self.old.settings.weighting self.old.book)
            (map weights_in (level_bytes_in self.old.settings.weighting levels.now))) }
    {
        compact.clear();
        push_levels(
            self.settings.weighting,
            &self.book,
            &mut self.buffers,
            levels,
            compact,
        )
    }

    /// Writes the stored key of a compact key over the bytes that were there, and returns `true`, as
    /// [`KeyExpander::write_key`](crate::KeyExpander::write_key) does. So a program that needs both ways reads its book once.
    ///
    /// It returns `false` if the bytes are the compact key of no stored key under the book and the settings. What was
    /// written is then unspecified.
    ///
    /// # Errors
    ///
    /// An allocation failed. The bytes are then unspecified.
    pub fn write_key<B: Allocator>(
        &mut self,
        compact: &[u8],
        key: &mut Vec<u8, B>,
    ) -> Result<bool, AllocError>
        ensures same { self.new ≡ self.old }
        ensures key { IfOk result (λ found. MatchBool found
            (IsCompactOf self.old.settings.depth self.old.settings.weighting self.old.book key.new.items compact.now)
            (IsOfNoKey self.old.settings.depth self.old.settings.weighting self.old.book compact.now)) }
    {
        expand(compact, self.settings, &self.book, &mut self.levels, key)
    }
}

// Writes the compact key of these levels after the bytes.
fn push_levels<A: Allocator, B: Allocator>(
    weighting: Weighting,
    book: &Book<A>,
    buffers: &mut KeyBuffers<A>,
    levels: &LevelBytes,
    out: &mut Vec<u8, B>,
) -> Result<(), AllocError>
    requires levels { AllByRecursion AreWeightBytes (level_bytes_in weighting levels.now) }
    requires entries { AreTrueEntries (letters_form book.now (level_count weighting - 1)) buffers.old.entries.items }
    ensures entries { AreTrueEntries (letters_form book.now (level_count weighting - 1)) buffers.new.entries.items }
    ensures levels { OnOk result (out.new.items ≡ out.old.items ++ compact_levels plain_level (forms_of weighting book.now)
        (map weights_in (level_bytes_in weighting levels.now))) }
{
    let last = levels.cases.len().saturating_add(levels.variables.len());
    let later = levels.accents.len().saturating_add(last);
    let len = levels.letters.len().saturating_add(later);
    buffers.open(len.saturating_mul(2).saturating_add(4))?;
    let codes = buffers.codes.as_mut_slice();
    let entries = buffers.entries.as_mut_slice();
    let hints = buffers.hints.as_mut_slice();
    let size = put_levels(weighting, codes, book, entries, hints, levels);
    out.extend_from_slice(&buffers.codes.as_slice()[..size])
}
