//! The key of a line as it is shown: the whole key, or the compact key that a book makes of it.

ghost use Rattle.std.specs.Prelude.{◌≡◌, List, OnOk};
ghost use Rattle.std.specs.Char.{IsScalar};
ghost use Rattle.std.specs.List.{AllByRecursion};
ghost use Rattle.uca_weights.specs.declared.Depth.TheVariants.{Weights};
ghost use Rattle.uca_weights.specs.declared.Element.{Element};
ghost use Rattle.uca_weights.specs.declared.Settings.{Settings};
ghost use Rattle.uca_order.specs.Depths.{ReadText, key_at};
ghost use Rattle.uca_key_writer.specs.KeyLevels.{AreLevelsOf, levels_in};
ghost use Rattle.uca_key_runs.specs.inside.KeyForms.{IsFor, book_of, compacter_of, shown_at, shown_of};
ghost use Rattle.uca_compact.specs.CompactKeys.{compact_key, text_parts};

use std::alloc::{AllocError, Allocator};
use std::marker::Model;
use uca_books::Book;
use uca_compact::{KeyCompacter, LevelBytes};
use uca_key_writer::KeyLevels;
use uca_run_parts::KeySizes;
use uca_weights::Settings;

/// Makes compact keys of keys, in memory that is used again for each.
#[derive(Drop)]
pub(crate) struct Compacting<A: Allocator> {
    compacter: KeyCompacter<A>,
    key: Vec<u8, A>,
    sizes: KeySizes,
}

impl<A: Allocator> Model for Compacting<A> {
    ghost use Rattle.uca_key_runs.specs.inside.KeyForms.{CompactState};

    ghost Value = { CompactState };

    ghost view = { λ c. record { by = c.compacter; key = c.key.items } };
}

impl<A: Allocator> Compacting<A> {
    // Makes the compact key of a key. That of a text's key is the one of its parts.
    fn write(&mut self, key: &[u8]) -> Result<(), AllocError>
        ensures by { self.new.by ≡ self.old.by }
        ensures key { (t : ReadText) → key.now ≡ key_at self.old.by.settings.depth self.old.by.settings.weighting t → AllByRecursion IsScalar t.points →
            OnOk result (self.new.key ≡ compact_key self.old.by.settings.depth self.old.by.settings.weighting self.old.by.book
            (text_parts self.old.by.settings.depth self.old.by.settings.weighting t)) }
    {
        // The key is one of the settings, so it has a compact key.
        match self.compacter.write_compact(key, &mut self.key) {
            Ok(_) => {
                self.sizes.add(key.len(), self.key.len());
                Ok(())
            }
            Err(error) => Err(error),
        }
    }

    /// Makes the compact key of a key at the depth `Weights`, of the levels that the key has.
    ///
    /// # Errors
    ///
    /// An allocation failed.
    pub(crate) fn write_levels(&mut self, levels: &KeyLevels<'_>) -> Result<(), AllocError>
        requires { (es : List Element) × AreLevelsOf self.old.by.settings.weighting es (levels_in levels.now) }
        ensures by { self.new.by ≡ self.old.by }
        ensures key { (t : ReadText) → AreLevelsOf self.old.by.settings.weighting t.elements (levels_in levels.now) →
            OnOk result (self.new.key ≡ compact_key Weights self.old.by.settings.weighting self.old.by.book
            (text_parts Weights self.old.by.settings.weighting t)) }
    {
        let levels = LevelBytes {
            letters: levels.primary,
            accents: levels.secondary,
            cases: levels.tertiary,
            variables: levels.quaternary,
        };
        match self.compacter.write_levels(&levels, &mut self.key) {
            Ok(()) => {
                self.sizes.add(levels_len(&levels), self.key.len());
                Ok(())
            }
            Err(error) => Err(error),
        }
    }
}

// The bytes of a key with these levels: two are between two levels.
fn levels_len(levels: &LevelBytes<'_>) -> usize {
    let first = levels.letters.len().saturating_add(levels.accents.len());
    let later = levels.cases.len().saturating_add(levels.variables.len());
    first.saturating_add(later).saturating_add(4)
}

/// Counts the bytes of the keys and of the compact keys that were made, if compact keys are shown.
pub(crate) fn count_keys<A: Allocator>(sizes: &mut KeySizes, compacting: &Option<Compacting<A>>) {
    if let Some(compacting) = compacting {
        *sizes = compacting.sizes;
    }
}

/// What makes compact keys of the keys of these settings by a book, if there is one.
pub(crate) fn compacting_by<A: Allocator + Copy>(
    alloc: A,
    book: Option<Book<A>>,
    settings: Settings,
) -> Option<Compacting<A>>
    ensures book { book_of result ≡ book }
    ensures settings { IsFor (compacter_of result) settings }
{
    match book {
        Some(book) => Some(Compacting {
            compacter: KeyCompacter::new(alloc, book, settings),
            key: Vec::new(alloc),
            sizes: KeySizes::new().at(settings.weighting, settings.depth),
        }),
        None => None,
    }
}

/// Makes the compact key of a key, if such keys are shown.
///
/// # Errors
///
/// An allocation failed.
pub(crate) fn compact_shown<A: Allocator>(
    compacting: &mut Option<Compacting<A>>,
    key: &[u8],
) -> Result<(), AllocError>
    ensures by { compacter_of compacting.new ≡ compacter_of compacting.old }
    ensures shown { (settings : Settings) (t : ReadText) → IsFor (compacter_of compacting.old) settings →
        key.now ≡ key_at settings.depth settings.weighting t → AllByRecursion IsScalar t.points →
        OnOk result (shown_of compacting.new key.now ≡ shown_at (book_of compacting.old) settings.depth settings.weighting t) }
{
    match compacting {
        Some(compacting) => compacting.write(key),
        None => Ok(()),
    }
}

/// The key that is shown: the compact one that was made last, or else this one.
pub(crate) fn shown<'a, A: Allocator>(
    compacting: &'a Option<Compacting<A>>,
    key: &'a [u8],
) -> &'a [u8]
    ensures { result.now ≡ shown_of compacting.now key.now }
{
    match compacting {
        Some(compacting) => &compacting.key,
        None => key,
    }
}
