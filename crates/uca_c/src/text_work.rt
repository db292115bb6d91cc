//! What a call does with one text of an open collator.

ghost use Rattle.std.specs.Prelude.{◌≡◌, ◌≢◌};
ghost use Rattle.uca_owned.specs.Bounds.{BoundsKeys};
ghost use Rattle.uca_c.specs.OpenCollators.{keying_at, key_by};
ghost use Rattle.uca_c.specs.TextCalls.{IsBeginningStatus, IsJudged, WritesBeginning, bound_by};

use crate::open_collator::OpenCollator;
use crate::statuses::{LONG_RUN, OK, UTF8, status_of_text};
use crate::work::make_compact;
use uca_owned::KeyFault;
use uca_text::TextFault;

// Copies as many bytes as there is room for, and tells how many bytes there are.
fn copy_beginning(bytes: &[u8], out: &mut [u8], needed: &mut usize) -> u32
    ensures ok { result ≡ OK }
    ensures writes { WritesBeginning bytes.now out.old out.new needed.new }
{
    let count = bytes.len().min(out.len());
    out[..count].copy_from_slice(&bytes[..count]);
    *needed = bytes.len();
    OK
}

// Writes the first bytes of the key of a text, as many as there is room for, and how many bytes the key has.
pub fn write_beginning(
    collator: &mut OpenCollator,
    text: &[u8],
    out: &mut [u8],
    needed: &mut usize,
) -> u32
    ensures ok { result ≡ OK → WritesBeginning (key_by (keying_at collator.old) collator.old.book text.now) out.old out.new needed.new }
    ensures rejected { IsBeginningStatus (keying_at collator.old) text.now result }
    ensures unwritten { result ≢ OK → out.new ≡ out.old }
    ensures none { result ≢ OK → needed.new ≡ 0 }
    ensures keying { keying_at collator.new ≡ keying_at collator.old }
    ensures book { collator.new.book ≡ collator.old.book }
{
    *needed = 0;
    match &mut collator.compacter {
        None => {
            if let Err(fault) = collator.collator.make_key(text) {
                return status_of_text(fault);
            }
            copy_beginning(collator.collator.key(), out, needed)
        }
        Some(compacter) => {
            let made = &mut collator.made;
            if let Err(fault) = make_compact(&mut collator.collator, compacter, text, made) {
                return status_of_text(fault);
            }
            copy_beginning(made, out, needed)
        }
    }
}

// How many bytes the key of a text of at most `length` bytes has at most.
pub fn key_bound(collator: &OpenCollator, length: usize) -> usize
    ensures bounds { BoundsKeys (key_by (keying_at collator.now) collator.now.book) length result }
    ensures value { result ≡ bound_by collator.now.book length }
{
    let whole = collator.collator.key_bound(length);
    match collator.compacter {
        None => whole,
        Some(_) => whole.saturating_mul(2).saturating_add(1),
    }
}

// Tells whether a text is accepted, and where it is rejected.
pub fn judge(collator: &mut OpenCollator, text: &[u8], position: &mut usize) -> u32
    ensures judged { IsJudged (keying_at collator.old) text.now result position.new }
    ensures keying { keying_at collator.new ≡ keying_at collator.old }
    ensures book { collator.new.book ≡ collator.old.book }
{
    *position = 0;
    if let Err(error) = str::from_utf8(text) {
        *position = error.valid_up_to();
        return UTF8;
    }
    match collator.collator.make_key(text) {
        Ok(()) => OK,
        Err(KeyFault::Text(TextFault::LongRun(first))) => {
            *position = first as usize;
            LONG_RUN
        }
        Err(fault) => status_of_text(fault),
    }
}
