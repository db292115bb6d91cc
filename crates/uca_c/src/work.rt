//! What a call does with an open collator.

ghost use Rattle.std.specs.Prelude.{◌≡◌, ◌≢◌, ◌⊎◌, Some, pos, IfErr, IfOk, IfSome, OnOk};
ghost use Rattle.std.specs.Bool.{OnTrue};
ghost use Rattle.std.specs.Str.{IsUtf8};
ghost use Rattle.uca_order.specs.Depths.{ReadText};
ghost use Rattle.uca_order.specs.Keyings.{bytes_compared, key_of_bytes};
ghost use Rattle.uca_compact.specs.CompactKeys.{compact_key, text_parts};
ghost use Rattle.uca_owned.specs.Causes.{IsAcceptedBy, IsKeyCause};
ghost use Rattle.uca_owned.specs.Owned.{keying_in};
ghost use Rattle.uca_c.specs.OpenCollators.{keying_at, key_by};
ghost use Rattle.uca_c.specs.inside.TextKeys.{IsKeyOf, IsTextKey};
ghost use Rattle.uca_c.specs.Statuses.{IsKeyStatus, IsCompareStatus};
ghost use Rattle.uca_c.specs.Results.{WritesKey, IsTooSmall, IsComparison, IsOrderNumber};

use crate::joining::join_levels;
use crate::numbers::number_of_order;
use crate::open_collator::OpenCollator;
use crate::statuses::{MEMORY, OK, SMALL, status_of_text, status_of_texts};
use crate::structs::Comparison;
use std::alloc::AllocError;
use std::cmp::Ordering;
use uca_compact::{KeyCompacter, LevelBytes};
use uca_owned::{KeyFault, OwnedCollator};
use uca_text::TextFault;
use uca_weights::Depth;

// Copies bytes to where they have room, and tells how many they are.
pub(crate) fn copy_out(bytes: &[u8], out: &mut [u8], needed: &mut usize) -> u32
    ensures ok { result ≡ OK → WritesKey bytes.now out.old out.new needed.new }
    ensures small { result ≡ SMALL → IsTooSmall bytes.now out.old needed.new }
    ensures statuses { (result ≡ OK) ⊎ (result ≡ SMALL) }
    ensures unwritten { result ≢ OK → out.new ≡ out.old }
{
    let len = bytes.len();
    *needed = len;
    if out.len() < len {
        return SMALL;
    }
    out[..len].copy_from_slice(bytes);
    OK
}

// Makes the compact key of a text over the bytes that were there, of the levels of its key, and returns `true`. It
// returns `false` if the levels are not made without the key.
fn compact_levels(
    collator: &mut OwnedCollator,
    compacter: &mut KeyCompacter,
    text: &[u8],
    made: &mut Vec<u8>,
) -> Result<bool, AllocError>
    requires { compacter.old.settings ≡ collator.old.settings }
    ensures same { compacter.new ≡ compacter.old }
    ensures made { IfOk result (λ found. OnTrue found
        (made.new.items ≡ key_by (keying_in collator.old) (Some compacter.old.book) text.now)) }
    ensures accepted { IfOk result (λ found. OnTrue found (IsAcceptedBy (keying_in collator.old) text.now)) }
    ensures utf8 { IfErr result (λ error. IsUtf8 text.now) }
    ensures keying { keying_in collator.new ≡ keying_in collator.old }
{
    if !collator.make_levels(text)? {
        return Ok(false);
    }
    let levels = collator.levels();
    let levels = LevelBytes {
        letters: levels.primary,
        accents: levels.secondary,
        cases: levels.tertiary,
        variables: levels.quaternary,
    };
    compacter.write_levels(&levels, made)?;
    Ok(true)
}

// Makes the compact key of the key of a text over the bytes that were there.
fn compact_whole(
    compacter: &mut KeyCompacter,
    key: &[u8],
    made: &mut Vec<u8>,
) -> Result<(), AllocError>
    requires { IsTextKey compacter.old.settings key.now }
    ensures same { compacter.new ≡ compacter.old }
    ensures made { let settings = compacter.old.settings in (t : ReadText) → IsKeyOf settings t key.now → OnOk result (made.new.items
        ≡ compact_key settings.depth settings.weighting compacter.old.book (text_parts settings.depth settings.weighting t)) }
{
    let found = compacter.write_compact(key, made)?;
    prove!(found);
    Ok(())
}

// Makes the compact key of a text over the bytes that were there: of the levels of its key, or else of its whole key.
pub(crate) fn make_compact(
    collator: &mut OwnedCollator,
    compacter: &mut KeyCompacter,
    text: &[u8],
    made: &mut Vec<u8>,
) -> Result<(), KeyFault>
    requires { compacter.old.settings ≡ collator.old.settings }
    ensures same { compacter.new ≡ compacter.old }
    ensures made { OnOk result (made.new.items ≡ key_by (keying_in collator.old) (Some compacter.old.book) text.now) }
    ensures accepted { OnOk result (IsAcceptedBy (keying_in collator.old) text.now) }
    ensures fault { let k = keying_in collator.old in
        IfErr result (IsKeyCause k.settings.numbers k.collation.properties text.now) }
    ensures keying { keying_in collator.new ≡ keying_in collator.old }
{
    match compact_levels(collator, compacter, text, made) {
        Ok(true) => Ok(()),
        Ok(false) => {
            collator.make_key(text)?;
            match compact_whole(compacter, collator.key(), made) {
                Ok(()) => Ok(()),
                Err(_) => Err(KeyFault::Text(TextFault::Memory)),
            }
        }
        Err(_) => Err(KeyFault::Text(TextFault::Memory)),
    }
}

// Writes the key of a text from its levels, with no copy of it in the collator. There is no result if the levels are not made
// without the key, as at an identical level.
fn write_joined(
    collator: &mut OwnedCollator,
    text: &[u8],
    out: &mut [u8],
    needed: &mut usize,
) -> Option<u32>
    ensures ok { let key = key_of_bytes (keying_in collator.old) text.now in
        IfSome result (λ status. status ≡ OK → WritesKey key out.old out.new needed.new) }
    ensures small { let key = key_of_bytes (keying_in collator.old) text.now in
        IfSome result (λ status. status ≡ SMALL → IsTooSmall key out.old needed.new) }
    ensures rejected { IfSome result (λ status. IsKeyStatus (keying_in collator.old) text.now status) }
    ensures unwritten { result ≢ Some OK → out.new ≡ out.old }
    ensures none { result ≢ Some OK → result ≢ Some SMALL → needed.new ≡ needed.old }
    ensures keying { keying_in collator.new ≡ keying_in collator.old }
{
    let settings = collator.settings();
    if settings.depth == Depth::Identical {
        return None;
    }
    match collator.make_levels(text) {
        Ok(true) => join_levels(&collator.levels(), settings.weighting, out, needed),
        Ok(false) => None,
        Err(_) => Some(MEMORY),
    }
}

// Writes the key of a text where it has room, and how many bytes it has.
fn write_whole(collator: &mut OwnedCollator, text: &[u8], out: &mut [u8], needed: &mut usize) -> u32
    requires { needed.old ≡ 0 }
    ensures ok { result ≡ OK → WritesKey (key_of_bytes (keying_in collator.old) text.now) out.old out.new needed.new }
    ensures small { result ≡ SMALL → IsTooSmall (key_of_bytes (keying_in collator.old) text.now) out.old needed.new }
    ensures rejected { IsKeyStatus (keying_in collator.old) text.now result }
    ensures unwritten { result ≢ OK → out.new ≡ out.old }
    ensures none { result ≢ OK → result ≢ SMALL → needed.new ≡ 0 }
    ensures keying { keying_in collator.new ≡ keying_in collator.old }
{
    if let Some(status) = write_joined(collator, text, out, needed) {
        return status;
    }
    match collator.make_key(text) {
        Ok(()) => copy_out(collator.key(), out, needed),
        Err(fault) => status_of_text(fault),
    }
}

// Writes the key of a text where it has room, and how many bytes it has.
pub fn write_key(
    collator: &mut OpenCollator,
    text: &[u8],
    out: &mut [u8],
    needed: &mut usize,
) -> u32
    ensures ok { result ≡ OK → WritesKey (key_by (keying_at collator.old) collator.old.book text.now) out.old out.new needed.new }
    ensures small { result ≡ SMALL → IsTooSmall (key_by (keying_at collator.old) collator.old.book text.now) out.old needed.new }
    ensures rejected { IsKeyStatus (keying_at collator.old) text.now result }
    ensures unwritten { result ≢ OK → out.new ≡ out.old }
    ensures none { result ≢ OK → result ≢ SMALL → needed.new ≡ 0 }
    ensures keying { keying_at collator.new ≡ keying_at collator.old }
    ensures book { collator.new.book ≡ collator.old.book }
{
    *needed = 0;
    match &mut collator.compacter {
        None => write_whole(&mut collator.collator, text, out, needed),
        Some(compacter) => {
            let made = &mut collator.made;
            if let Err(fault) = make_compact(&mut collator.collator, compacter, text, made) {
                return status_of_text(fault);
            }
            copy_out(made, out, needed)
        }
    }
}

// Compares two texts.
fn compare_texts(
    collator: &mut OwnedCollator,
    left: &[u8],
    right: &[u8],
    comparison: &mut Comparison,
) -> u32
    ensures ok { result ≡ OK → IsComparison (bytes_compared (keying_in collator.old) left.now right.now) comparison.new.order comparison.new.level }
    ensures rejected { IsCompareStatus (keying_in collator.old) left.now right.now result }
    ensures none { result ≢ OK → (comparison.new.order ≡ pos 0) × (comparison.new.level ≡ 0) }
    ensures keying { keying_in collator.new ≡ keying_in collator.old }
{
    *comparison = Comparison { order: 0, level: 0 };
    match collator.compare(left, right) {
        Ok((order, level)) => {
            *comparison = Comparison {
                order: number_of_order(order),
                level: level.into(),
            };
            OK
        }
        Err(fault) => status_of_texts(fault),
    }
}

// Compares two texts, whatever the book is.
pub fn compare(
    collator: &mut OpenCollator,
    left: &[u8],
    right: &[u8],
    comparison: &mut Comparison,
) -> u32
    ensures ok { result ≡ OK → IsComparison (bytes_compared (keying_at collator.old) left.now right.now) comparison.new.order comparison.new.level }
    ensures rejected { IsCompareStatus (keying_at collator.old) left.now right.now result }
    ensures none { result ≢ OK → (comparison.new.order ≡ pos 0) × (comparison.new.level ≡ 0) }
    ensures keying { keying_at collator.new ≡ keying_at collator.old }
    ensures book { collator.new.book ≡ collator.old.book }
{
    compare_texts(&mut collator.collator, left, right, comparison)
}

// The order of two texts of at most 32 bytes, where their first bytes that differ tell it.
#[inline(always)]
pub fn order_at_once(collator: &OpenCollator, left: &[u8], right: &[u8]) -> Option<Ordering>
    ensures compared { IfSome result (λ order. let answer = bytes_compared (keying_at collator.now) left.now right.now in
        (order ≡ answer.order) × (1 ≡ answer.level)) }
    ensures accepted { let k = keying_at collator.now in IfSome result (λ _. IsAcceptedBy k left.now × IsAcceptedBy k right.now) }
{
    collator.collator.order_at_once(left, right)
}

// Orders two byte strings.
pub fn order(collator: &mut OpenCollator, left: &[u8], right: &[u8], order: &mut i32) -> u32
    ensures ok { result ≡ OK → IsOrderNumber (keying_at collator.old) left.now right.now order.new }
    ensures statuses { (result ≡ OK) ⊎ (result ≡ MEMORY) }
    ensures none { result ≢ OK → order.new ≡ pos 0 }
    ensures keying { keying_at collator.new ≡ keying_at collator.old }
    ensures book { collator.new.book ≡ collator.old.book }
{
    *order = 0;
    match collator.collator.order(left, right) {
        Ok(found) => {
            *order = number_of_order(found);
            OK
        }
        Err(_) => MEMORY,
    }
}
