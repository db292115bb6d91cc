//! The calls with one text that C makes: the beginning of its key, how many bytes a key has at most, and where a text is
//! rejected.

ghost use Rattle.std.specs.Prelude.{◌≡◌, ◌≢◌, ◌↔◌, ◌⊎◌, true, false};
ghost use Rattle.uca_owned.specs.Bounds.{BoundsKeys};
ghost use Rattle.uca_c.specs.OpenCollators.{keying_at, key_by};
ghost use Rattle.uca_c.specs.TextCalls.{IsBeginningStatus, IsJudged, WritesBeginning, bound_by};
ghost use Rattle.uca_c.specs.Slots.{collator_in};

use crate::slot::Slot;
use crate::statuses::{CLOSED, OK};
use crate::text_work;

/// Writes the first bytes of the key of a text at `out`: as many as there is room for.
#[unsafe(no_mangle)]
pub extern "C" fn uca_key_beginning(
    collator: &mut Slot,
    text: &[u8],
    out: &mut [u8],
    needed: &mut usize,
) -> u32
    ensures closed { (result ≡ CLOSED) ↔ (collator.old.full ≡ false) }
    ensures ok { result ≡ OK →
        WritesBeginning (key_by (keying_at (collator_in collator.old)) (collator_in collator.old).book text.now) out.old out.new needed.new }
    ensures rejected { collator.old.full ≡ true → IsBeginningStatus (keying_at (collator_in collator.old)) text.now result }
    ensures unwritten { result ≢ OK → out.new ≡ out.old }
    ensures none { result ≢ OK → needed.new ≡ 0 }
    ensures full { collator.new.full ≡ collator.old.full }
    ensures keying { collator.old.full ≡ true → keying_at (collator_in collator.new) ≡ keying_at (collator_in collator.old) }
    ensures book { collator.old.full ≡ true → (collator_in collator.new).book ≡ (collator_in collator.old).book }
{
    if !collator.full {
        *needed = 0;
        return CLOSED;
    }
    text_work::write_beginning(collator.opened(), text, out, needed)
}

/// Tells how many bytes the key of a text of at most `length` bytes has at most.
#[unsafe(no_mangle)]
pub extern "C" fn uca_key_bound(collator: &mut Slot, length: usize, bound: &mut usize) -> u32
    ensures closed { (result ≡ CLOSED) ↔ (collator.old.full ≡ false) }
    ensures statuses { (result ≡ OK) ⊎ (result ≡ CLOSED) }
    ensures ok { result ≡ OK →
        BoundsKeys (key_by (keying_at (collator_in collator.old)) (collator_in collator.old).book) length bound.new }
    ensures value { result ≡ OK → bound.new ≡ bound_by (collator_in collator.old).book length }
    ensures none { result ≢ OK → bound.new ≡ 0 }
    ensures full { collator.new.full ≡ collator.old.full }
    ensures keying { collator.old.full ≡ true → keying_at (collator_in collator.new) ≡ keying_at (collator_in collator.old) }
    ensures book { collator.old.full ≡ true → (collator_in collator.new).book ≡ (collator_in collator.old).book }
{
    if !collator.full {
        *bound = 0;
        return CLOSED;
    }
    *bound = text_work::key_bound(collator.opened(), length);
    OK
}

/// Tells whether a text is accepted, and where it is rejected. That is a byte where it is not UTF-8, or a code point where
/// a long run of non-starters begins.
#[unsafe(no_mangle)]
pub extern "C" fn uca_check_text(collator: &mut Slot, text: &[u8], position: &mut usize) -> u32
    ensures closed { (result ≡ CLOSED) ↔ (collator.old.full ≡ false) }
    ensures judged { collator.old.full ≡ true → IsJudged (keying_at (collator_in collator.old)) text.now result position.new }
    ensures none { collator.old.full ≡ false → position.new ≡ 0 }
    ensures full { collator.new.full ≡ collator.old.full }
    ensures keying { collator.old.full ≡ true → keying_at (collator_in collator.new) ≡ keying_at (collator_in collator.old) }
    ensures book { collator.old.full ≡ true → (collator_in collator.new).book ≡ (collator_in collator.old).book }
{
    if !collator.full {
        *position = 0;
        return CLOSED;
    }
    text_work::judge(collator.opened(), text, position)
}
