//! The calls that C makes. Their clauses hold for every argument: a wrong one is a status.

ghost use Rattle.std.specs.Prelude.{◌≡◌, ◌≢◌, ◌↔◌, ◌⊎◌, true, false, pos, Option, None};
ghost use Rattle.uca_weights.specs.declared.Asked.{Asked};
ghost use Rattle.uca_values.specs.Content.{TableContent, Properties};
ghost use Rattle.uca_order.specs.Levels.{lexicographic};
ghost use Rattle.uca_order.specs.StoredKeys.{stored_level};
ghost use Rattle.uca_order.specs.Keyings.{keying, bytes_compared};
ghost use Rattle.uca_owned.specs.Opening.{fingerprint_by};
ghost use Rattle.uca_c.specs.Numbers.{order_number};
ghost use Rattle.uca_c.specs.OpenCollators.{keying_at, key_by};
ghost use Rattle.uca_c.specs.Opened.{Asks, FingerprintsBy, OpensBy, IsNoFileError, IsReadStatus, IsOpenStatus, IsStopStatus, IsOpenStopStatus};
ghost use Rattle.uca_c.specs.Results.{WritesKey, IsTooSmall, IsComparison, IsOrderNumber};
ghost use Rattle.uca_c.specs.Statuses.{IsKeyStatus, IsCompareStatus};
ghost use Rattle.uca_c.specs.Slots.{collator_in};

use crate::at_once::order_at_once;
use crate::numbers::number_of_order;
use crate::open_collator::OpenCollator;
use crate::slot::Slot;
use crate::statuses::{ALREADY_OPEN, CLOSED, MEMORY, OK, SMALL};
use crate::structs::{Comparison, FileError};
use crate::{opening, work};
use std::alloc::Global;
use uca_lanes::{are_same_narrow, are_same_short};

// Two texts of at most so many bytes are judged together.
const SHORT: usize = 15;

/// The number of this interface.
#[unsafe(no_mangle)]
pub extern "C" fn uca_abi() -> u32
    ensures { result ≡ 1 }
{
    1
}

/// The version of this library: major * 1,000,000 + minor * 1,000 + patch.
#[unsafe(no_mangle)]
pub extern "C" fn uca_version() -> u32
    ensures { result ≡ 1000 }
{
    1_000
}

/// How many bytes `struct uca_collator` has.
#[unsafe(no_mangle)]
pub extern "C" fn uca_collator_size() -> usize
    ensures { result ≡ 24 }
{
    size_of::<Slot>()
}

/// Opens a collator that is closed, by the bytes of a table and of a data file.
#[unsafe(no_mangle)]
pub extern "C" fn uca_open(
    alloc: Global,
    collator: &mut Slot,
    table: &[u8],
    data_file: &[u8],
    weighting: u32,
    depth: u32,
    error: &mut FileError,
) -> u32
    ensures already { (result ≡ ALREADY_OPEN) ↔ (collator.old.full ≡ true) }
    ensures ok { result ≡ OK → OpensBy weighting depth table.now data_file.now (keying_at (collator_in collator.new)) }
    ensures book { result ≡ OK → (collator_in collator.new).book ≡ None }
    ensures open { result ≡ OK → collator.new.full ≡ true }
    ensures same { result ≢ OK → collator.new ≡ collator.old }
    ensures only { (asked : Asked) (meant : TableContent) (properties : Properties) → collator.old.full ≡ false →
        Asks weighting depth table.now data_file.now asked meant properties →
        ((result ≡ OK) × (keying_at (collator_in collator.new) ≡ keying asked meant properties))
        ⊎ IsOpenStopStatus asked meant properties error.new.line error.new.kind result }
    ensures no_error { (result ≡ OK) ⊎ (result ≡ ALREADY_OPEN) → IsNoFileError error.new.line error.new.kind }
    ensures rejected { result ≢ OK → result ≢ ALREADY_OPEN →
        IsOpenStatus weighting depth table.now data_file.now error.new.line error.new.kind result }
{
    if collator.full {
        *error = FileError { line: 0, kind: 0 };
        return ALREADY_OPEN;
    }
    match opening::open(alloc, table, data_file, weighting, depth, error) {
        Ok(opened) => collator.keep(alloc, OpenCollator::new(alloc, opened)),
        Err(status) => status,
    }
}

/// Opens a collator that is closed, as one more with all that an open one keys texts by. The two share what was read, and
/// two threads may call them at the same time.
#[unsafe(no_mangle)]
pub extern "C" fn uca_share(alloc: Global, collator: &mut Slot, other: &mut Slot) -> u32
    ensures closed { (result ≡ CLOSED) ↔ (collator.old.full ≡ false) }
    ensures already { (result ≡ ALREADY_OPEN) ↔ ((collator.old.full ≡ true) × (other.old.full ≡ true)) }
    ensures statuses { (result ≡ OK) ⊎ (result ≡ CLOSED) ⊎ (result ≡ ALREADY_OPEN) ⊎ (result ≡ MEMORY) }
    ensures ok { result ≡ OK → keying_at (collator_in other.new) ≡ keying_at (collator_in collator.old) }
    ensures same_book { result ≡ OK → (collator_in other.new).book ≡ (collator_in collator.old).book }
    ensures open { result ≡ OK → other.new.full ≡ true }
    ensures same { result ≢ OK → other.new ≡ other.old }
    ensures full { collator.new.full ≡ collator.old.full }
    ensures keying { collator.old.full ≡ true → keying_at (collator_in collator.new) ≡ keying_at (collator_in collator.old) }
    ensures book { collator.old.full ≡ true → (collator_in collator.new).book ≡ (collator_in collator.old).book }
{
    if !collator.full {
        return CLOSED;
    }
    if other.full {
        return ALREADY_OPEN;
    }
    match collator.opened().share(alloc) {
        Ok(shared) => other.keep(alloc, shared),
        Err(_) => MEMORY,
    }
}

/// Writes the key of a text at `out`.
#[unsafe(no_mangle)]
pub extern "C" fn uca_key(
    collator: &mut Slot,
    text: &[u8],
    out: &mut [u8],
    needed: &mut usize,
) -> u32
    ensures closed { (result ≡ CLOSED) ↔ (collator.old.full ≡ false) }
    ensures ok { result ≡ OK → WritesKey (key_by (keying_at (collator_in collator.old)) (collator_in collator.old).book text.now) out.old out.new needed.new }
    ensures small { result ≡ SMALL → IsTooSmall (key_by (keying_at (collator_in collator.old)) (collator_in collator.old).book text.now) out.old needed.new }
    ensures rejected { collator.old.full ≡ true → IsKeyStatus (keying_at (collator_in collator.old)) text.now result }
    ensures unwritten { result ≢ OK → out.new ≡ out.old }
    ensures none { result ≢ OK → result ≢ SMALL → needed.new ≡ 0 }
    ensures full { collator.new.full ≡ collator.old.full }
    ensures keying { collator.old.full ≡ true → keying_at (collator_in collator.new) ≡ keying_at (collator_in collator.old) }
    ensures book { collator.old.full ≡ true → (collator_in collator.new).book ≡ (collator_in collator.old).book }
{
    if !collator.full {
        *needed = 0;
        return CLOSED;
    }
    work::write_key(collator.opened(), text, out, needed)
}

// Compares any two texts by an open collator, without keys. A short text is equal to itself by any collator.
#[inline(never)]
fn compare_any(collator: &mut Slot, left: &[u8], right: &[u8], comparison: &mut Comparison) -> u32
    requires { collator.old.full ≡ true }
    ensures ok { result ≡ OK → IsComparison (bytes_compared (keying_at (collator_in collator.old)) left.now right.now)
        comparison.new.order comparison.new.level }
    ensures rejected { IsCompareStatus (keying_at (collator_in collator.old)) left.now right.now result }
    ensures none { result ≢ OK → (comparison.new.order ≡ pos 0) × (comparison.new.level ≡ 0) }
    ensures open { collator.new.full ≡ true }
    ensures keying { keying_at (collator_in collator.new) ≡ keying_at (collator_in collator.old) }
    ensures book { (collator_in collator.new).book ≡ (collator_in collator.old).book }
{
    if are_same_short(left, right) {
        *comparison = Comparison { order: 0, level: 0 };
        return OK;
    }
    work::compare(collator.opened(), left, right, comparison)
}

// What `compare_any` does. It asks first whether both are the same text, and then for the order by the first bytes that
// differ, of two texts of at most 32 bytes.
#[inline(never)]
fn compare_longer(
    collator: &mut Slot,
    left: &[u8],
    right: &[u8],
    comparison: &mut Comparison,
) -> u32
    requires { collator.old.full ≡ true }
    ensures ok { result ≡ OK → IsComparison (bytes_compared (keying_at (collator_in collator.old)) left.now right.now)
        comparison.new.order comparison.new.level }
    ensures rejected { IsCompareStatus (keying_at (collator_in collator.old)) left.now right.now result }
    ensures none { result ≢ OK → (comparison.new.order ≡ pos 0) × (comparison.new.level ≡ 0) }
    ensures open { collator.new.full ≡ true }
    ensures keying { keying_at (collator_in collator.new) ≡ keying_at (collator_in collator.old) }
    ensures book { (collator_in collator.new).book ≡ (collator_in collator.old).book }
{
    if are_same_short(left, right) {
        *comparison = Comparison { order: 0, level: 0 };
        return OK;
    }
    match order_at_once(collator, left, right) {
        Some(order) => {
            *comparison = Comparison::of_letters(order);
            OK
        }
        None => compare_any(collator, left, right, comparison),
    }
}

// What `compare_any` does. It asks first for the order by the first bytes that differ, of two texts of at most fifteen
// bytes. All else is in a function that it calls last, so no value is kept across a call.
#[inline(never)]
fn compare_open(collator: &mut Slot, left: &[u8], right: &[u8], comparison: &mut Comparison) -> u32
    requires { collator.old.full ≡ true }
    ensures ok { result ≡ OK → IsComparison (bytes_compared (keying_at (collator_in collator.old)) left.now right.now)
        comparison.new.order comparison.new.level }
    ensures rejected { IsCompareStatus (keying_at (collator_in collator.old)) left.now right.now result }
    ensures none { result ≢ OK → (comparison.new.order ≡ pos 0) × (comparison.new.level ≡ 0) }
    ensures open { collator.new.full ≡ true }
    ensures keying { keying_at (collator_in collator.new) ≡ keying_at (collator_in collator.old) }
    ensures book { (collator_in collator.new).book ≡ (collator_in collator.old).book }
{
    if left.len() > SHORT || right.len() > SHORT {
        return compare_longer(collator, left, right, comparison);
    }
    match order_at_once(collator, left, right) {
        Some(order) => {
            *comparison = Comparison::of_letters(order);
            OK
        }
        None => compare_any(collator, left, right, comparison),
    }
}

/// Compares two texts, without keys.
#[unsafe(no_mangle)]
pub extern "C" fn uca_compare(
    collator: &mut Slot,
    left: &[u8],
    right: &[u8],
    comparison: &mut Comparison,
) -> u32
    ensures closed { (result ≡ CLOSED) ↔ (collator.old.full ≡ false) }
    ensures ok { result ≡ OK → IsComparison (bytes_compared (keying_at (collator_in collator.old)) left.now right.now)
        comparison.new.order comparison.new.level }
    ensures rejected { collator.old.full ≡ true →
        IsCompareStatus (keying_at (collator_in collator.old)) left.now right.now result }
    ensures none { result ≢ OK → (comparison.new.order ≡ pos 0) × (comparison.new.level ≡ 0) }
    ensures full { collator.new.full ≡ collator.old.full }
    ensures keying { collator.old.full ≡ true → keying_at (collator_in collator.new) ≡ keying_at (collator_in collator.old) }
    ensures book { collator.old.full ≡ true → (collator_in collator.new).book ≡ (collator_in collator.old).book }
{
    if !collator.full {
        *comparison = Comparison { order: 0, level: 0 };
        return CLOSED;
    }
    if are_same_narrow(left, right) {
        *comparison = Comparison { order: 0, level: 0 };
        return OK;
    }
    compare_open(collator, left, right, comparison)
}

// Orders any two byte strings by an open collator. A short text is equal to itself by any collator.
#[inline(never)]
fn order_any(collator: &mut Slot, left: &[u8], right: &[u8], order: &mut i32) -> u32
    requires { collator.old.full ≡ true }
    ensures ok { result ≡ OK → IsOrderNumber (keying_at (collator_in collator.old)) left.now right.now order.new }
    ensures statuses { (result ≡ OK) ⊎ (result ≡ MEMORY) }
    ensures none { result ≢ OK → order.new ≡ pos 0 }
    ensures open { collator.new.full ≡ true }
    ensures keying { keying_at (collator_in collator.new) ≡ keying_at (collator_in collator.old) }
    ensures book { (collator_in collator.new).book ≡ (collator_in collator.old).book }
{
    if are_same_short(left, right) {
        *order = 0;
        return OK;
    }
    work::order(collator.opened(), left, right, order)
}

// What `order_any` does, as `compare_longer` does what `compare_any` does.
#[inline(never)]
fn order_longer(collator: &mut Slot, left: &[u8], right: &[u8], order: &mut i32) -> u32
    requires { collator.old.full ≡ true }
    ensures ok { result ≡ OK → IsOrderNumber (keying_at (collator_in collator.old)) left.now right.now order.new }
    ensures statuses { (result ≡ OK) ⊎ (result ≡ MEMORY) }
    ensures none { result ≢ OK → order.new ≡ pos 0 }
    ensures open { collator.new.full ≡ true }
    ensures keying { keying_at (collator_in collator.new) ≡ keying_at (collator_in collator.old) }
    ensures book { (collator_in collator.new).book ≡ (collator_in collator.old).book }
{
    if are_same_short(left, right) {
        *order = 0;
        return OK;
    }
    match order_at_once(collator, left, right) {
        Some(found) => {
            *order = number_of_order(found);
            OK
        }
        None => order_any(collator, left, right, order),
    }
}

// What `order_any` does, as `compare_open` does what `compare_any` does.
#[inline(never)]
fn order_open(collator: &mut Slot, left: &[u8], right: &[u8], order: &mut i32) -> u32
    requires { collator.old.full ≡ true }
    ensures ok { result ≡ OK → IsOrderNumber (keying_at (collator_in collator.old)) left.now right.now order.new }
    ensures statuses { (result ≡ OK) ⊎ (result ≡ MEMORY) }
    ensures none { result ≢ OK → order.new ≡ pos 0 }
    ensures open { collator.new.full ≡ true }
    ensures keying { keying_at (collator_in collator.new) ≡ keying_at (collator_in collator.old) }
    ensures book { (collator_in collator.new).book ≡ (collator_in collator.old).book }
{
    if left.len() > SHORT || right.len() > SHORT {
        return order_longer(collator, left, right, order);
    }
    match order_at_once(collator, left, right) {
        Some(found) => {
            *order = number_of_order(found);
            OK
        }
        None => order_any(collator, left, right, order),
    }
}

/// Orders two byte strings: accepted texts in their order, and all other bytes after them, in the order of bytes.
#[unsafe(no_mangle)]
pub extern "C" fn uca_order(collator: &mut Slot, left: &[u8], right: &[u8], order: &mut i32) -> u32
    ensures closed { (result ≡ CLOSED) ↔ (collator.old.full ≡ false) }
    ensures ok { result ≡ OK → IsOrderNumber (keying_at (collator_in collator.old)) left.now right.now order.new }
    ensures statuses { collator.old.full ≡ true → (result ≡ OK) ⊎ (result ≡ MEMORY) }
    ensures none { result ≢ OK → order.new ≡ pos 0 }
    ensures full { collator.new.full ≡ collator.old.full }
    ensures keying { collator.old.full ≡ true → keying_at (collator_in collator.new) ≡ keying_at (collator_in collator.old) }
    ensures book { collator.old.full ≡ true → (collator_in collator.new).book ≡ (collator_in collator.old).book }
{
    if !collator.full {
        *order = 0;
        return CLOSED;
    }
    if are_same_narrow(left, right) {
        *order = 0;
        return OK;
    }
    order_open(collator, left, right, order)
}

/// Compares two stored keys, which have so many levels.
#[unsafe(no_mangle)]
pub extern "C" fn uca_compare_keys(
    left: &[u8],
    right: &[u8],
    levels: u8,
    comparison: &mut Comparison,
)
    ensures order { comparison.new.order ≡ order_number (lexicographic left.now right.now) }
    ensures level { comparison.new.level ≡ stored_level levels left.now right.now }
{
    let (order, level) = uca_comparison::compare_keys(left, right, levels);
    *comparison = Comparison {
        order: number_of_order(order),
        level: level.into(),
    };
}

/// Writes the fingerprint of what keys are made by under the bytes of a table and of a data file at `out`.
#[unsafe(no_mangle)]
pub extern "C" fn uca_fingerprint(
    alloc: Global,
    table: &[u8],
    data_file: &[u8],
    weighting: u32,
    depth: u32,
    out: &mut [u8; 32],
    error: &mut FileError,
) -> u32
    ensures ok { result ≡ OK → FingerprintsBy weighting depth table.now data_file.now out.new }
    ensures only { (asked : Asked) (meant : TableContent) (properties : Properties) →
        Asks weighting depth table.now data_file.now asked meant properties →
        ((result ≡ OK) × (out.new ≡ fingerprint_by (keying asked meant properties) table.now data_file.now)) ⊎ IsStopStatus result error.new.kind }
    ensures unwritten { result ≢ OK → out.new ≡ out.old }
    ensures no_error { result ≡ OK → IsNoFileError error.new.line error.new.kind }
    ensures rejected { result ≢ OK → IsReadStatus weighting depth table.now data_file.now error.new.line error.new.kind result }
{
    match opening::fingerprint(alloc, table, data_file, weighting, depth, error) {
        Ok(sum) => {
            *out = sum;
            OK
        }
        Err(status) => status,
    }
}

/// Gives back all memory of a collator, which is closed then. One that is closed stays so.
#[unsafe(no_mangle)]
pub extern "C" fn uca_close(alloc: Global, collator: &mut Slot)
    ensures { collator.new.full ≡ false }
{
    collator.close(alloc);
}
