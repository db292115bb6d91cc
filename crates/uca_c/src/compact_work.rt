//! What a call does with the book of an open collator.

ghost use Rattle.std.specs.Prelude.{◌≡◌, ◌≢◌, ◌↔◌, ◌⊎◌, ℕ, List, None};
ghost use Rattle.uca_c.specs.CompactCalls.{HasCompactKey, IsNoCompactKey, IsOneTooSmall, WritesOne};
ghost use Rattle.uca_c.specs.OpenCollators.{keying_at};

use crate::open_collator::OpenCollator;
use crate::statuses::{MEMORY, NO_BOOK, NO_KEY, OK, SMALL};
use crate::work::copy_out;

// Writes the compact key of a whole key where it has room, and how many bytes it has.
pub fn write_compact(
    collator: &mut OpenCollator,
    key: &[u8],
    out: &mut [u8],
    needed: &mut usize,
) -> u32
    ensures no_book { (result ≡ NO_BOOK) ↔ (collator.old.book ≡ None) }
    ensures ok { result ≡ OK → WritesOne (HasCompactKey (keying_at collator.old) collator.old.book key.now) out.old out.new needed.new }
    ensures small { result ≡ SMALL → IsOneTooSmall (HasCompactKey (keying_at collator.old) collator.old.book key.now) out.old needed.new }
    ensures no_key { (compact : List ℕ) → result ≡ NO_KEY → ¬ (HasCompactKey (keying_at collator.old) collator.old.book key.now compact) }
    ensures statuses { (result ≡ OK) ⊎ (result ≡ SMALL) ⊎ (result ≡ NO_BOOK) ⊎ (result ≡ NO_KEY) ⊎ (result ≡ MEMORY) }
    ensures unwritten { result ≢ OK → out.new ≡ out.old }
    ensures none { result ≢ OK → result ≢ SMALL → needed.new ≡ 0 }
    ensures keying { keying_at collator.new ≡ keying_at collator.old }
    ensures book { collator.new.book ≡ collator.old.book }
{
    *needed = 0;
    match &mut collator.compacter {
        None => NO_BOOK,
        Some(compacter) => match compacter.write_compact(key, &mut collator.made) {
            Ok(true) => copy_out(&collator.made, out, needed),
            Ok(false) => NO_KEY,
            Err(_) => MEMORY,
        },
    }
}

// Writes the whole key of a compact key where it has room, and how many bytes it has.
pub fn write_whole(
    collator: &mut OpenCollator,
    compact: &[u8],
    out: &mut [u8],
    needed: &mut usize,
) -> u32
    ensures no_book { (result ≡ NO_BOOK) ↔ (collator.old.book ≡ None) }
    ensures ok { let c = collator.old in result ≡ OK → WritesOne (λ key. HasCompactKey (keying_at c) c.book key compact.now) out.old out.new needed.new }
    ensures small { let c = collator.old in result ≡ SMALL → IsOneTooSmall (λ key. HasCompactKey (keying_at c) c.book key compact.now) out.old needed.new }
    ensures no_key { result ≡ NO_KEY → IsNoCompactKey (keying_at collator.old) collator.old.book compact.now }
    ensures statuses { (result ≡ OK) ⊎ (result ≡ SMALL) ⊎ (result ≡ NO_BOOK) ⊎ (result ≡ NO_KEY) ⊎ (result ≡ MEMORY) }
    ensures unwritten { result ≢ OK → out.new ≡ out.old }
    ensures none { result ≢ OK → result ≢ SMALL → needed.new ≡ 0 }
    ensures keying { keying_at collator.new ≡ keying_at collator.old }
    ensures book { collator.new.book ≡ collator.old.book }
{
    *needed = 0;
    match &mut collator.compacter {
        None => NO_BOOK,
        Some(compacter) => match compacter.write_key(compact, &mut collator.made) {
            Ok(true) => copy_out(&collator.made, out, needed),
            Ok(false) => NO_KEY,
            Err(_) => MEMORY,
        },
    }
}
