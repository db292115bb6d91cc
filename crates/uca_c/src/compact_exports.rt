//! The calls of compact keys that C makes. Their clauses hold for every argument: a wrong one is a status.

ghost use Rattle.std.specs.Prelude.{◌≡◌, ◌≢◌, ◌↔◌, ◌⊎◌, ℕ, List, true, false, Option, None, Some};
ghost use Rattle.uca_weights.specs.declared.Asked.{Asked};
ghost use Rattle.uca_values.specs.Content.{TableContent, Properties};
ghost use Rattle.uca_fingerprint.specs.Fingerprints as fingerprints;
ghost use Rattle.uca_order.specs.Keyings.{keying};
ghost use Rattle.uca_books.specs.Books.{BookContent};
ghost use Rattle.uca_books.specs.BookTexts as books;
ghost use Rattle.uca_c.specs.CompactCalls.{HasCompactKey, IsNoCompactKey, IsOneTooSmall, WritesOne};
ghost use Rattle.uca_c.specs.OpenCollators.{keying_at};
ghost use Rattle.uca_c.specs.RangeCalls.{AsksNoEnd, IsEndOf};
ghost use Rattle.uca_c.specs.Statuses.{IsKeyStatus};
ghost use Rattle.uca_c.specs.Opened.{Asks, OpensBy, HasBook, IsNoFileError, IsCompactOpenStatus, IsCompactStopStatus};
ghost use Rattle.uca_c.specs.Slots.{collator_in};

use crate::slot::Slot;
use crate::statuses::{ALREADY_OPEN, ARGUMENT, CLOSED, MEMORY, NO_BOOK, NO_KEY, OK, SMALL};
use crate::structs::FileError;
use crate::{compact_work, opening, range_work};
use std::alloc::Global;
use uca_fingerprint::compact_fingerprint;

/// Opens a collator that is closed, by the bytes of a table, of a data file and of a book. Its keys are compact.
#[unsafe(no_mangle)]
pub extern "C" fn uca_open_compact(
    alloc: Global,
    collator: &mut Slot,
    table: &[u8],
    data_file: &[u8],
    book: &[u8],
    weighting: u32,
    depth: u32,
    error: &mut FileError,
) -> u32
    ensures already { (result ≡ ALREADY_OPEN) ↔ (collator.old.full ≡ true) }
    ensures ok { result ≡ OK → OpensBy weighting depth table.now data_file.now (keying_at (collator_in collator.new)) }
    ensures book { result ≡ OK → HasBook book.now (collator_in collator.new).book }
    ensures open { result ≡ OK → collator.new.full ≡ true }
    ensures same { result ≢ OK → collator.new ≡ collator.old }
    ensures only { (asked : Asked) (meant : TableContent) (properties : Properties) (content : BookContent) →
        collator.old.full ≡ false → Asks weighting depth table.now data_file.now asked meant properties → books.Means book.now content →
        ((result ≡ OK) × (keying_at (collator_in collator.new) ≡ keying asked meant properties) × ((collator_in collator.new).book ≡ Some content))
        ⊎ IsCompactStopStatus asked meant properties error.new.line error.new.kind result }
    ensures no_error { (result ≡ OK) ⊎ (result ≡ ALREADY_OPEN) → IsNoFileError error.new.line error.new.kind }
    ensures rejected { result ≢ OK → result ≢ ALREADY_OPEN →
        IsCompactOpenStatus weighting depth table.now data_file.now book.now error.new.line error.new.kind result }
{
    if collator.full {
        *error = FileError { line: 0, kind: 0 };
        return ALREADY_OPEN;
    }
    match opening::open_compact(alloc, table, data_file, book, weighting, depth, error) {
        Ok(opened) => collator.keep(alloc, opened),
        Err(status) => status,
    }
}

/// Writes the compact key of a whole key at `out`.
#[unsafe(no_mangle)]
pub extern "C" fn uca_compact(
    collator: &mut Slot,
    key: &[u8],
    out: &mut [u8],
    needed: &mut usize,
) -> u32
    ensures closed { (result ≡ CLOSED) ↔ (collator.old.full ≡ false) }
    ensures no_book { collator.old.full ≡ true → (result ≡ NO_BOOK) ↔ ((collator_in collator.old).book ≡ None) }
    ensures ok { result ≡ OK → WritesOne (HasCompactKey (keying_at (collator_in collator.old)) (collator_in collator.old).book key.now) out.old out.new needed.new }
    ensures small { result ≡ SMALL → IsOneTooSmall (HasCompactKey (keying_at (collator_in collator.old)) (collator_in collator.old).book key.now) out.old needed.new }
    ensures no_key { (compact : List ℕ) → result ≡ NO_KEY → ¬ (HasCompactKey (keying_at (collator_in collator.old)) (collator_in collator.old).book key.now compact) }
    ensures statuses { (result ≡ OK) ⊎ (result ≡ SMALL) ⊎ (result ≡ CLOSED) ⊎ (result ≡ NO_BOOK) ⊎ (result ≡ NO_KEY) ⊎ (result ≡ MEMORY) }
    ensures unwritten { result ≢ OK → out.new ≡ out.old }
    ensures none { result ≢ OK → result ≢ SMALL → needed.new ≡ 0 }
    ensures full { collator.new.full ≡ collator.old.full }
    ensures keying { collator.old.full ≡ true → keying_at (collator_in collator.new) ≡ keying_at (collator_in collator.old) }
    ensures book { collator.old.full ≡ true → (collator_in collator.new).book ≡ (collator_in collator.old).book }
{
    if !collator.full {
        *needed = 0;
        return CLOSED;
    }
    compact_work::write_compact(collator.opened(), key, out, needed)
}

/// Writes the whole key of a compact key at `out`.
#[unsafe(no_mangle)]
pub extern "C" fn uca_expand(
    collator: &mut Slot,
    compact: &[u8],
    out: &mut [u8],
    needed: &mut usize,
) -> u32
    ensures closed { (result ≡ CLOSED) ↔ (collator.old.full ≡ false) }
    ensures no_book { collator.old.full ≡ true → (result ≡ NO_BOOK) ↔ ((collator_in collator.old).book ≡ None) }
    ensures ok { let kept = collator_in collator.old in result ≡ OK → WritesOne (λ key. HasCompactKey (keying_at kept) kept.book key compact.now) out.old out.new needed.new }
    ensures small { let kept = collator_in collator.old in result ≡ SMALL → IsOneTooSmall (λ key. HasCompactKey (keying_at kept) kept.book key compact.now) out.old needed.new }
    ensures no_key { result ≡ NO_KEY → IsNoCompactKey (keying_at (collator_in collator.old)) (collator_in collator.old).book compact.now }
    ensures statuses { (result ≡ OK) ⊎ (result ≡ SMALL) ⊎ (result ≡ CLOSED) ⊎ (result ≡ NO_BOOK) ⊎ (result ≡ NO_KEY) ⊎ (result ≡ MEMORY) }
    ensures unwritten { result ≢ OK → out.new ≡ out.old }
    ensures none { result ≢ OK → result ≢ SMALL → needed.new ≡ 0 }
    ensures full { collator.new.full ≡ collator.old.full }
    ensures keying { collator.old.full ≡ true → keying_at (collator_in collator.new) ≡ keying_at (collator_in collator.old) }
    ensures book { collator.old.full ≡ true → (collator_in collator.new).book ≡ (collator_in collator.old).book }
{
    if !collator.full {
        *needed = 0;
        return CLOSED;
    }
    compact_work::write_whole(collator.opened(), compact, out, needed)
}

/// Writes an end of the range of keys that a lookup by a text scans at `out`.
#[unsafe(no_mangle)]
pub extern "C" fn uca_range(
    alloc: Global,
    collator: &mut Slot,
    text: &[u8],
    range: u32,
    end: u32,
    out: &mut [u8],
    needed: &mut usize,
) -> u32
    ensures closed { (result ≡ CLOSED) ↔ (collator.old.full ≡ false) }
    ensures argument { collator.old.full ≡ true → (result ≡ ARGUMENT) ↔ AsksNoEnd range end }
    ensures ok { result ≡ OK → WritesOne (IsEndOf (keying_at (collator_in collator.old)) (collator_in collator.old).book range end text.now) out.old out.new needed.new }
    ensures small { result ≡ SMALL → IsOneTooSmall (IsEndOf (keying_at (collator_in collator.old)) (collator_in collator.old).book range end text.now) out.old needed.new }
    ensures rejected { collator.old.full ≡ true → result ≢ ARGUMENT → IsKeyStatus (keying_at (collator_in collator.old)) text.now result }
    ensures unwritten { result ≢ OK → out.new ≡ out.old }
    ensures none { result ≢ OK → result ≢ SMALL → needed.new ≡ 0 }
    ensures full { collator.new.full ≡ collator.old.full }
    ensures keying { collator.old.full ≡ true → keying_at (collator_in collator.new) ≡ keying_at (collator_in collator.old) }
    ensures book { collator.old.full ≡ true → (collator_in collator.new).book ≡ (collator_in collator.old).book }
{
    if !collator.full {
        *needed = 0;
        return CLOSED;
    }
    range_work::write_end(alloc, collator.opened(), text, range, end, out, needed)
}

/// Writes the fingerprint of what compact keys are made by at `out`: by the fingerprint of the whole keys, and the bytes of a book.
#[unsafe(no_mangle)]
pub extern "C" fn uca_compact_fingerprint(keys: &[u8; 32], book: &[u8], out: &mut [u8; 32])
    ensures { out.new ≡ fingerprints.compact_fingerprint keys.now book.now }
{
    *out = compact_fingerprint(keys, book);
}
