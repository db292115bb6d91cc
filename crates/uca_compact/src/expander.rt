//! `KeyExpander`: compact keys become stored keys again.

ghost use Rattle.std.specs.Prelude.{◌≡◌, IfOk, []};
ghost use Rattle.std.specs.Bool.{MatchBool};
ghost use Rattle.uca_weights.specs.declared.Weighting.TheVariants.{NonIgnorable, Shifted};
ghost use Rattle.uca_compact.specs.StoredParts.{IsCompactOf, IsOfNoKey};
ghost use Rattle.uca_compact.specs.inside.LevelSteps.{IsExpanded};

use crate::buffers::Levels;
use crate::key_reader::{read_four, read_three};
use crate::stored_bytes::{push_end, push_next, push_weights};
use std::alloc::{AllocError, Allocator, Global};
use std::marker::Model;
use uca_books::Book;
use uca_weights::{Depth, Settings, Weighting};

/// Makes stored keys of compact keys. It needs no text and no table.
#[derive(Drop)]
pub struct KeyExpander<A: Allocator = Global> {
    book: Book<A>,
    settings: Settings,
    levels: Levels<A>,
}

impl<A: Allocator> Model for KeyExpander<A> {
    ghost use Rattle.uca_compact.specs.Programs.{CompacterState};

    ghost Value = { CompacterState };

    ghost view = { λ e. record { book = e.book; settings = e.settings } };
}

impl<A: Allocator + Copy> KeyExpander<A> {
    /// A book, for keys that were made under these settings.
    pub fn new(alloc: A, book: Book<A>, settings: Settings) -> KeyExpander<A>
        ensures { result ≡ record { book = book; settings = settings } }
    {
        KeyExpander {
            book,
            settings,
            levels: Levels::new(alloc),
        }
    }
}

impl<A: Allocator> KeyExpander<A> {
    /// Writes the stored key of a compact key over the bytes that were there, and returns `true`. The memory is used
    /// again.
    ///
    /// It returns `false` if the bytes are the compact key of no stored key under the book and the settings. So it does
    /// for a level that is written though it is plain, and for an offset past the end of its cell. What was written is
    /// then unspecified.
    ///
    /// # Errors
    ///
    /// An allocation failed. The bytes are then unspecified.
    pub fn write_key<B: Allocator>(
        &mut self,
        compact: &[u8],
        key: &mut Vec<u8, B>,
    ) -> Result<bool, AllocError>
        ensures same { self.new ≡ self.old }
        ensures key { IfOk result (λ found. MatchBool found
            (IsCompactOf self.old.settings.depth self.old.settings.weighting self.old.book key.new.items compact.now)
            (IsOfNoKey self.old.settings.depth self.old.settings.weighting self.old.book compact.now)) }
    {
        expand(compact, self.settings, &self.book, &mut self.levels, key)
    }
}

// Writes the key of a compact key over the bytes that were there.
pub(crate) fn expand<A: Allocator, B: Allocator>(
    compact: &[u8],
    settings: Settings,
    book: &Book<A>,
    levels: &mut Levels<A>,
    key: &mut Vec<u8, B>,
) -> Result<bool, AllocError>
    ensures { IfOk result (λ found. MatchBool found
        (IsCompactOf settings.depth settings.weighting book.now key.new.items compact.now)
        (IsOfNoKey settings.depth settings.weighting book.now compact.now)) }
{
    key.clear();
    match settings.weighting {
        Weighting::NonIgnorable => expand_three(compact, settings.depth, book, levels, key),
        Weighting::Shifted => expand_four(compact, settings.depth, book, levels, key),
    }
}

// Writes the key of a compact key of three levels after no bytes.
fn expand_three<A: Allocator, B: Allocator>(
    compact: &[u8],
    depth: Depth,
    book: &Book<A>,
    levels: &mut Levels<A>,
    key: &mut Vec<u8, B>,
) -> Result<bool, AllocError>
    requires { key.old.items ≡ [] }
    ensures { IfOk result (λ found. IsExpanded depth NonIgnorable book.now compact.now key.new.items found) }
{
    let Some(last) = read_three(book, compact, levels)? else {
        return Ok(false);
    };
    push_weights(key, levels.letters.as_slice())?;
    push_next(key, levels.accents.as_slice())?;
    push_next(key, levels.cases.as_slice())?;
    let found = push_end(key, depth, last.rest)?;
    Ok(found)
}

// Writes the key of a compact key of four levels after no bytes.
fn expand_four<A: Allocator, B: Allocator>(
    compact: &[u8],
    depth: Depth,
    book: &Book<A>,
    levels: &mut Levels<A>,
    key: &mut Vec<u8, B>,
) -> Result<bool, AllocError>
    requires { key.old.items ≡ [] }
    ensures { IfOk result (λ found. IsExpanded depth Shifted book.now compact.now key.new.items found) }
{
    let Some(last) = read_four(book, compact, levels)? else {
        return Ok(false);
    };
    push_weights(key, levels.letters.as_slice())?;
    push_next(key, levels.accents.as_slice())?;
    push_next(key, levels.cases.as_slice())?;
    push_next(key, levels.variables.as_slice())?;
    let found = push_end(key, depth, last.rest)?;
    Ok(found)
}
