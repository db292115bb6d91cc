//! The key of a line that begins with its digits.

ghost use Rattle.std.specs.Prelude.{◌≡◌, [], ◌∷◌, ◌*◌, Some, OnOk, IfOk, IfErr, IfSome, MatchOption, ◌≤◌, ◌<◌, length, take, drop};
ghost use Rattle.uca_rekey.specs.ChangedLines.{digits_of, from_tab, key_in};
ghost use Rattle.uca_rekey.specs.inside.LinesInPlace.{IsKeyCause, IsNextByte, ReadsBytes};

use std::alloc::{AllocError, Allocator};
use uca_lines::fields::hexadecimal_byte;
use uca_run_parts::StoredKeyKind;

/// How many bytes of a key are read at a time.
const ROOM: usize = 128;

/// What comes next in the field of a key.
enum NextByte<'a> {
    /// A byte, and what follows its two digits.
    Byte(u8, &'a [u8]),
    /// Nothing but spaces.
    End,
    /// What is no byte.
    NoByte,
}

/// Reads the key of a line over the bytes that were there, and returns what follows its digits: spaces, and then all from
/// the first tab on.
///
/// # Errors
///
/// `NoKey` if the line begins with no key. `Memory` if an allocation failed.
pub(crate) fn read_key<'a, A: Allocator>(
    line: &'a [u8],
    key: &mut Vec<u8, A>,
) -> Result<&'a [u8], StoredKeyKind>
    ensures key { OnOk result (key_in line.now ≡ Some key.new.items) }
    ensures rest { IfOk result (λ rest. from_tab line.now ≡ from_tab rest.now) }
    ensures cause { IfErr result (IsKeyCause line.now) }
{
    key.clear();
    let Ok(rest) = read_bytes(line, key) else {
        return Err(StoredKeyKind::Memory);
    };
    let mut text = rest;
    loop {
        match next_byte(text) {
            NextByte::Byte(byte, rest) => {
                if key.push(byte).is_err() {
                    return Err(StoredKeyKind::Memory);
                }
                text = rest;
            }
            NextByte::End => return Ok(text),
            NextByte::NoByte => return Err(StoredKeyKind::NoKey),
        }
    }
}

// Adds the bytes to a key that a text begins with, each of two digits and with no spaces among these. It returns what
// follows them.
fn read_bytes<'a, A: Allocator>(
    text: &'a [u8],
    key: &mut Vec<u8, A>,
) -> Result<&'a [u8], AllocError>
    requires { key.old.items ≡ [] }
    ensures { IfOk result (λ rest. ReadsBytes text.now key.new.items rest.now) }
{
    let mut room = [0; ROOM];
    let mut rest = text;
    loop {
        let count = read_into(&mut room, rest);
        key.extend_from_slice(&room[..count])?;
        rest = &rest[2 * count..];
        if count < ROOM {
            return Ok(rest);
        }
    }
}

// Writes the bytes over others that a text begins with, as many as have room, and returns how many these are.
fn read_into(room: &mut [u8; ROOM], text: &[u8]) -> usize
    ensures room { result ≤ ROOM }
    ensures within { 2 * result ≤ length text.now }
    ensures read { ReadsBytes text.now (take result room.new) (drop (2 * result) text.now) }
{
    let most = ROOM.min(text.len() / 2);
    for count in 0..most {
        match hexadecimal_byte(text[2 * count], text[2 * count + 1]) {
            Some(byte) => room[count] = byte,
            None => return count,
        }
    }
    most
}

// What comes next in a key's field. Mostly there are two digits, with no space before them.
#[inline(always)]
fn next_byte(text: &[u8]) -> NextByte<'_>
    ensures { IsNextByte text.now result }
{
    let [high, low, rest @ ..] = text else {
        return next_spaced_byte(text);
    };
    match hexadecimal_byte(*high, *low) {
        Some(byte) => NextByte::Byte(byte, rest),
        None => next_spaced_byte(text),
    }
}

// What comes next in a key's field, digit by digit.
fn next_spaced_byte(text: &[u8]) -> NextByte<'_>
    ensures { IsNextByte text.now result }
{
    let Some((high, rest)) = next_digit(text) else {
        return NextByte::End;
    };
    let Some((low, rest)) = next_digit(rest) else {
        return NextByte::NoByte;
    };
    match hexadecimal_byte(high, low) {
        Some(byte) => NextByte::Byte(byte, rest),
        None => NextByte::NoByte,
    }
}

// The next byte of a key's field that is no space, and what follows it. There is none at the end of the field.
#[inline]
fn next_digit(text: &[u8]) -> Option<(u8, &[u8])>
    ensures digits { MatchOption result (digits_of text.now ≡ []) (λ next. digits_of text.now ≡ next.0 ∷ digits_of next.1.now) }
    ensures shorter { IfSome result (λ next. length next.1.now < length text.now) }
    ensures rest { IfSome result (λ next. from_tab text.now ≡ from_tab next.1.now) }
{
    let mut text = text;
    while let [byte, rest @ ..] = text {
        if *byte == b'\t' {
            return None;
        }
        if *byte != b' ' {
            return Some((*byte, rest));
        }
        text = rest;
    }
    None
}
