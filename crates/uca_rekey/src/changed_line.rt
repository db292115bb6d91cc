//! A line that begins with the digits of a key, and the same line with what that key becomes.

ghost use Rattle.std.specs.Prelude.{◌≡◌, ◌++◌, ◌∷◌, ◌*◌, ◌≤◌, ℕ, List, Option, OnOk, IfErr, length, take, drop, true};
ghost use Rattle.std.specs.List.{flat_map};
ghost use Rattle.uca_run_parts.specs.Print.{byte_digits};
ghost use Rattle.uca_rekey.specs.ChangedLines.{Headers, LineBecomes, from_tab, with_digits, with_key};
ghost use Rattle.uca_rekey.specs.ChangeRun.{IsChangeCause};

use crate::changes::ChangesKeys;
use crate::line::read_key;
use std::alloc::{AllocError, Allocator};
use uca_run_parts::StoredKeyKind;
use uca_run_parts::print::digits_of;

/// Room for the bytes of a key, and for those of what it becomes.
#[derive(Drop)]
pub(crate) struct Keys<A: Allocator> {
    /// The key.
    pub key: Vec<u8, A>,
    /// What it becomes.
    pub changed: Vec<u8, A>,
}

/// Writes the new line of a line over the bytes that were there: with the digits of what its key becomes, and with all
/// from its first tab on.
///
/// # Errors
///
/// `NoKey` if the line begins with no key, and the error of `C` if that key becomes none. `Memory` if an allocation
/// failed.
pub(crate) fn change_line<A: Allocator, C: ChangesKeys>(
    change: &mut C,
    line: &[u8],
    keys: &mut Keys<A>,
    made: &mut Vec<u8, A>,
) -> Result<(), StoredKeyKind>
    ensures same { change.new ≡ change.old }
    ensures becomes { OnOk result (LineBecomes (C.means change.old) line.now made.new.items) }
    ensures cause { (headers : Option Headers) (before : List (List ℕ)) →
        IfErr result (IsChangeCause (C.means change.old) headers before line.now) }
{
    let rest = read_key(line, &mut keys.key)?;
    match change.change(&keys.key, &mut keys.changed) {
        Ok(true) => put_line(change.keeps_spaces(), made, &keys.changed, line, rest),
        Ok(false) => Err(change.none()),
        Err(_) => Err(StoredKeyKind::Memory),
    }
}

// Writes a line with this key in place of its own over the bytes that were there. The rest is what follows its key.
fn put_line<A: Allocator>(
    keeps_spaces: bool,
    made: &mut Vec<u8, A>,
    key: &[u8],
    line: &[u8],
    rest: &[u8],
) -> Result<(), StoredKeyKind>
    requires { from_tab line.now ≡ from_tab rest.now }
    ensures put { OnOk result (made.new.items ≡ with_key keeps_spaces line.now key.now) }
    ensures memory { IfErr result (λ kind. kind ≡ StoredKeyKind.Memory) }
{
    let put = if keeps_spaces {
        put_spaced(made, key, line)
    } else {
        put_bytes(made, key, after_key(rest))
    };
    match put {
        Ok(()) => Ok(()),
        Err(_) => Err(StoredKeyKind::Memory),
    }
}

// Writes a line over the bytes that were there, and then the digits of a key in place of those of its own.
fn put_spaced<A: Allocator>(
    made: &mut Vec<u8, A>,
    key: &[u8],
    line: &[u8],
) -> Result<(), AllocError>
    ensures { OnOk result (made.new.items ≡ with_key true line.now key.now) }
{
    made.clear();
    made.extend_from_slice(line)?;
    write_key(made.as_mut_slice(), key);
    Ok(())
}

// Writes the digits of a key and then other bytes over the bytes that were there.
fn put_bytes<A: Allocator>(made: &mut Vec<u8, A>, key: &[u8], rest: &[u8]) -> Result<(), AllocError>
    ensures { OnOk result (made.new.items ≡ flat_map byte_digits key.now ++ rest.now) }
{
    made.resize(2 * key.len(), 0)?;
    put_digits(made.as_mut_slice(), key);
    made.extend_from_slice(rest)
}

// Writes the digits of a key over these bytes.
fn put_digits(digits: &mut [u8], key: &[u8])
    requires { length digits.old ≡ 2 * length key.now }
    ensures { digits.new ≡ flat_map byte_digits key.now }
{
    for (number, byte) in key.iter().enumerate() {
        let [high, low] = digits_of(*byte);
        digits[2 * number] = high;
        digits[2 * number + 1] = low;
    }
}

// All of a line from its first tab on.
fn after_key(line: &[u8]) -> &[u8]
    ensures { result.now ≡ from_tab line.now }
{
    let mut rest = line;
    while let [byte, later @ ..] = rest {
        if *byte == b'\t' {
            return rest;
        }
        rest = later;
    }
    rest
}

// Writes the digits of a key in place of those of a line's key.
fn write_key(line: &mut [u8], key: &[u8])
    ensures { line.new ≡ with_key true line.old key.now }
{
    let mut at = 0;
    for byte in key {
        let [high, low] = digits_of(*byte);
        at = write_digit(line, at, high);
        at = write_digit(line, at, low);
    }
}

// Writes the next digit of a line's key, from a position on, and returns the position after it. At the end of the key's field nothing is
// written.
#[inline]
fn write_digit(line: &mut [u8], at: usize, digit: u8) -> usize
    requires { at ≤ length line.old }
    ensures within { result ≤ length line.new }
    ensures written { (digits : List ℕ) → take at line.old ++ with_digits (drop at line.old) (digit ∷ digits)
        ≡ take result line.new ++ with_digits (drop result line.new) digits }
{
    let mut at = at;
    while at < line.len() && line[at] == b' ' {
        at += 1;
    }
    if at == line.len() || line[at] == b'\t' {
        return at;
    }
    line[at] = digit;
    at + 1
}
