//! The ends of the ranges of keys that a lookup by a text scans.

ghost use Rattle.std.specs.Prelude.{◌≡◌, ◌≢◌, ◌↔◌, IfSome, IfOk, IfErr, OnOk, option_map};
ghost use Rattle.uca_order.specs.Depths.{ReadText};
ghost use Rattle.uca_compact.specs.Forms.{AreWeights};
ghost use Rattle.uca_c.specs.CompactCalls.{IsOneTooSmall, WritesOne};
ghost use Rattle.uca_order.specs.Keyings.{read_of};
ghost use Rattle.uca_c.specs.OpenCollators.{keying_at};
ghost use Rattle.uca_c.specs.declared.numbers.End.{End};
ghost use Rattle.uca_c.specs.declared.numbers.RangeOf.{RangeOf};
ghost use Rattle.uca_c.specs.RangeCalls.{letters_in, whole_end, compact_end, end_by, AsksNoEnd, IsEndOf};
ghost use Rattle.uca_owned.specs.Causes.{IsAcceptedBy, IsKeyCause};
ghost use Rattle.uca_owned.specs.Owned.{key_in};
ghost use Rattle.uca_c.specs.Statuses.{IsErrorStatus, IsKeyStatus, key_status};
ghost use Rattle.uca_c.specs.inside.TextKeys.{IsKeyOf, IsTextKey};

use crate::numbers::{End, RangeOf, asked_end, asked_range};
use crate::open_collator::OpenCollator;
use crate::statuses::{ARGUMENT, MEMORY, OK, SMALL, status_of_text};
use crate::work::copy_out;
use std::alloc::{AllocError, Global};
use uca_compact::KeyCompacter;
use uca_ranges::{
    read_letters, write_compact_letters_range, write_letters_range,
    write_same_compact_letters_range, write_same_compact_levels_range, write_same_letters_range,
    write_same_levels_range,
};
use uca_weights::Settings;

// Writes both ends of a range of whole keys, by the key of a text and its letters.
fn whole_range(
    settings: Settings,
    range: RangeOf,
    key: &[u8],
    letters: &[u16],
    low: &mut Vec<u8>,
    high: &mut Vec<u8>,
) -> Result<(), AllocError>
    requires text { IsTextKey settings key.now }
    requires letters { (t : ReadText) → IsKeyOf settings t key.now → letters.now ≡ letters_in settings.weighting t }
    ensures low { (t : ReadText) → IsKeyOf settings t key.now → OnOk result (low.new.items ≡ whole_end range End.Low settings.weighting t) }
    ensures high { (t : ReadText) → IsKeyOf settings t key.now → OnOk result (high.new.items ≡ whole_end range End.High settings.weighting t) }
{
    match range {
        RangeOf::SameLetters => write_same_letters_range(letters, low, high),
        RangeOf::SameAccents => {
            let found = write_same_levels_range(key, 2, low, high)?;
            prove!(found);
            Ok(())
        }
        RangeOf::Begins => write_letters_range(letters, low, high),
    }
}

// Writes both ends of a range of compact keys, by the key of a text and its letters.
fn compact_range(
    compacter: &mut KeyCompacter,
    settings: Settings,
    range: RangeOf,
    key: &[u8],
    letters: &[u16],
    low: &mut Vec<u8>,
    high: &mut Vec<u8>,
) -> Result<(), AllocError>
    requires settings { compacter.old.settings ≡ settings }
    requires text { IsTextKey settings key.now }
    requires letters { (t : ReadText) → IsKeyOf settings t key.now → letters.now ≡ letters_in settings.weighting t }
    requires weights { AreWeights letters.now }
    ensures same { compacter.new ≡ compacter.old }
    ensures low { (t : ReadText) → IsKeyOf settings t key.now →
        OnOk result (low.new.items ≡ compact_end compacter.old.book range End.Low settings.weighting t) }
    ensures high { (t : ReadText) → IsKeyOf settings t key.now →
        OnOk result (high.new.items ≡ compact_end compacter.old.book range End.High settings.weighting t) }
{
    let weighting = settings.weighting;
    match range {
        RangeOf::SameLetters => {
            write_same_compact_letters_range(compacter.book(), weighting, letters, low, high)
        }
        RangeOf::SameAccents => {
            let found = write_same_compact_levels_range(compacter, settings, key, 2, low, high)?;
            prove!(found);
            Ok(())
        }
        RangeOf::Begins => {
            write_compact_letters_range(compacter.book(), weighting, letters, low, high)
        }
    }
}

// The letters of a text, by its key.
fn letters_of(alloc: Global, settings: Settings, key: &[u8]) -> Result<Vec<u16>, AllocError>
    requires { IsTextKey settings key.now }
    ensures letters { (t : ReadText) → IsKeyOf settings t key.now → IfOk result (λ letters. letters.items ≡ letters_in settings.weighting t) }
    ensures weights { IfOk result (λ letters. AreWeights letters.items) }
{
    let mut letters = Vec::new(alloc);
    // The key is that of a text, so level 1 is found.
    match read_letters(key, &mut letters) {
        Ok(_) => Ok(letters),
        Err(error) => Err(error),
    }
}

// Writes both ends of a range, by the key of a text and its letters.
fn write_range(
    compacter: &mut Option<KeyCompacter>,
    settings: Settings,
    range: RangeOf,
    key: &[u8],
    letters: &[u16],
    low: &mut Vec<u8>,
    high: &mut Vec<u8>,
) -> Result<(), AllocError>
    requires settings { IfSome compacter.old (λ made_by. made_by.settings ≡ settings) }
    requires text { IsTextKey settings key.now }
    requires letters { (t : ReadText) → IsKeyOf settings t key.now → letters.now ≡ letters_in settings.weighting t }
    requires weights { AreWeights letters.now }
    ensures same { compacter.new ≡ compacter.old }
    ensures low { (t : ReadText) → IsKeyOf settings t key.now →
        OnOk result (low.new.items ≡ end_by (option_map (λ made_by. made_by.book) compacter.old) range End.Low settings.weighting t) }
    ensures high { (t : ReadText) → IsKeyOf settings t key.now →
        OnOk result (high.new.items ≡ end_by (option_map (λ made_by. made_by.book) compacter.old) range End.High settings.weighting t) }
{
    match compacter {
        None => whole_range(settings, range, key, letters, low, high),
        Some(compacter) => compact_range(compacter, settings, range, key, letters, low, high),
    }
}

// An end of a range, by the key of a text.
fn end_bytes(
    alloc: Global,
    compacter: &mut Option<KeyCompacter>,
    settings: Settings,
    key: &[u8],
    range: RangeOf,
    end: End,
) -> Result<Vec<u8>, AllocError>
    requires settings { IfSome compacter.old (λ made_by. made_by.settings ≡ settings) }
    requires text { IsTextKey settings key.now }
    ensures same { compacter.new ≡ compacter.old }
    ensures end { (t : ReadText) → IsKeyOf settings t key.now →
        IfOk result (λ bytes. bytes.items ≡ end_by (option_map (λ made_by. made_by.book) compacter.old) range end settings.weighting t) }
{
    let letters = letters_of(alloc, settings, key)?;
    let mut low = Vec::new(alloc);
    let mut high = Vec::new(alloc);
    write_range(
        compacter, settings, range, key, &letters, &mut low, &mut high,
    )?;
    match end {
        End::Low => Ok(low),
        End::High => Ok(high),
    }
}

// An end of a range, by the key that was made last.
fn last_end(
    alloc: Global,
    collator: &mut OpenCollator,
    range: RangeOf,
    end: End,
) -> Result<Vec<u8>, AllocError>
    requires text { IsTextKey (keying_at collator.old).settings (key_in collator.old.collator) }
    ensures end { (t : ReadText) → IsKeyOf (keying_at collator.old).settings t (key_in collator.old.collator) →
        IfOk result (λ bytes. bytes.items ≡ end_by collator.old.book range end (keying_at collator.old).settings.weighting t) }
    ensures same { collator.new ≡ collator.old }
{
    let key = collator.collator.key();
    let settings = collator.collator.settings();
    end_bytes(alloc, &mut collator.compacter, settings, key, range, end)
}

// Makes the key of a text.
fn make_key(collator: &mut OpenCollator, text: &[u8]) -> Result<(), u32>
    ensures key { OnOk result (IsKeyOf (keying_at collator.old).settings (read_of (keying_at collator.old) text.now) (key_in collator.new.collator)) }
    ensures accepted { OnOk result (IsAcceptedBy (keying_at collator.old) text.now) }
    ensures rejected { let k = keying_at collator.old in
        IfErr result (IsErrorStatus (IsKeyCause k.settings.numbers k.collation.properties text.now) key_status) }
    ensures keying { keying_at collator.new ≡ keying_at collator.old }
    ensures book { collator.new.book ≡ collator.old.book }
{
    if let Err(fault) = collator.collator.make_key(text) {
        return Err(status_of_text(fault));
    }
    Ok(())
}

// Writes an end of a range where it has room, and how many bytes it has.
pub fn write_end(
    alloc: Global,
    collator: &mut OpenCollator,
    text: &[u8],
    range: u32,
    end: u32,
    out: &mut [u8],
    needed: &mut usize,
) -> u32
    ensures argument { (result ≡ ARGUMENT) ↔ AsksNoEnd range end }
    ensures ok { result ≡ OK → WritesOne (IsEndOf (keying_at collator.old) collator.old.book range end text.now) out.old out.new needed.new }
    ensures small { result ≡ SMALL → IsOneTooSmall (IsEndOf (keying_at collator.old) collator.old.book range end text.now) out.old needed.new }
    ensures rejected { result ≢ ARGUMENT → IsKeyStatus (keying_at collator.old) text.now result }
    ensures unwritten { result ≢ OK → out.new ≡ out.old }
    ensures none { result ≢ OK → result ≢ SMALL → needed.new ≡ 0 }
    ensures keying { keying_at collator.new ≡ keying_at collator.old }
    ensures book { collator.new.book ≡ collator.old.book }
{
    *needed = 0;
    let Some(range) = asked_range(range) else {
        return ARGUMENT;
    };
    let Some(end) = asked_end(end) else {
        return ARGUMENT;
    };
    if let Err(status) = make_key(collator, text) {
        return status;
    }
    match last_end(alloc, collator, range, end) {
        Ok(bytes) => copy_out(&bytes, out, needed),
        Err(_) => MEMORY,
    }
}
