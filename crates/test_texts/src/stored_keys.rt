//! Stored keys, which give an order and a level, also where the slices are no keys.

use crate::cases::bytes_of;
use crate::keys::elements_of;
use std::alloc::{AllocError, Global};
use std::cmp::Ordering;
use std::cmp::Ordering::Greater;
use std::test::Fail;
use test_kit::{halves, holds, same};
use uca_key::{compare_keys, key_of, level_count};
use uca_weights::Depth::{Identical, Weights};
use uca_weights::Weighting;
use uca_weights::Weighting::{NonIgnorable, Shifted};

/// An order, and the level at which the difference lies.
pub fn answer(alloc: Global, order: Ordering, level: u8) -> Result<String, AllocError> {
    format!(in alloc; "{order:?} {level}")
}

/// How two slices compare, and how they do the other way round.
pub fn check_order(
    alloc: Global,
    left: &[u8],
    right: &[u8],
    levels: u8,
    wanted: &str,
) -> Result<(), Fail> {
    let (order, level) = compare_keys(left, right, levels);
    same(&answer(alloc, order, level)?, wanted, "the order")?;
    let (order, level) = compare_keys(right, left, levels);
    same(
        &answer(alloc, order.reverse(), level)?,
        wanted,
        "the order of the others",
    )
}

/// How many levels, two slices, and how they compare.
fn check_slices(alloc: Global, case: &str) -> Result<(), Fail> {
    let (levels, rest) = halves(case)?;
    let (left, rest) = halves(rest)?;
    let (right, wanted) = halves(rest)?;
    let left = bytes_of(alloc, left)?;
    let right = bytes_of(alloc, right)?;
    check_order(alloc, &left, &right, levels.parse()?, wanted)
}

/// Keys of three levels, keys of four, how many levels at most, and slices that are no keys.
const SLICES: &str = r"3 |  |  | Equal 0
3 | 0000 0000 | 0000 0000 | Equal 0
3 | 1C47 0000 0020 0000 0002 | 1C47 0000 0020 0000 0002 | Equal 0
3 | 1C47 0000 0020 0000 0002 | 1C60 0000 0020 0000 0002 | Less 1
3 | 1C47 0000 0020 0024 0000 0002 0002 | 1C47 0000 0020 0000 0002 | Greater 2
3 | 1C47 0000 0020 0000 0002 | 1C47 0000 0020 0000 0008 | Less 3
3 | 1C47 0000 0020 0024 0000 0002 0002 | 1C47 0000 0020 0000 0008 | Greater 2
3 | 1C47 0000 0020 0024 0000 0002 0002 | 1C60 0000 0020 0000 0002 | Less 1
3 | 0000 0000 | 1C47 0000 0020 0000 0002 | Less 1
4 | 1C47 1C60 0000 0020 0020 0000 0002 0002 0000 FFFF 0209 FFFF | 1C47 1C60 0000 0020 0020 0000 0002 0002 0000 FFFF FFFF | Less 4
4 | 1C47 1C60 0000 0020 0020 0000 0002 0002 0000 FFFF 0209 FFFF | 1C47 1C60 0000 0020 0020 0000 0002 0002 0000 FFFF 0209 FFFF | Equal 0
3 | 1C47 1C60 0000 0020 0020 0000 0002 0002 0000 FFFF 0209 FFFF | 1C47 1C60 0000 0020 0020 0000 0002 0002 0000 FFFF FFFF | Less 3
0 | 0000 0000 | 0000 0000 0000 | Less 0
1 | 0000 0000 | 0000 0000 0000 | Less 1
2 | 0000 0000 | 0000 0000 0000 | Less 2
3 | 0000 0000 | 0000 0000 0000 | Less 3
4 | 0000 0000 | 0000 0000 0000 | Less 3
255 | 0000 0000 | 0000 0000 0000 | Less 3
0 | 0001 0000 0000 | 0002 0000 0000 | Less 0
3 |  | 00 | Less 1
3 | 1C | 1C47 | Less 1
3 | 0000 00 | 0000 0000 | Less 2
3 | 0000 01 | 0000 01 | Equal 0
3 | 0000 01 | 0000 02 | Less 2
3 | 0500 0005 01 | 0500 0005 02 | Less 1
3 | 0005 0000 0006 | 0005 0000 0005 | Greater 2
3 | 0700 0000 | 0800 0000 | Less 1
3 | 0000 2000 | 0000 20 | Greater 2";

#[test]
fn stored_keys_and_other_slices(rt: HostRuntime) -> Result<(), Fail> {
    for case in SLICES.lines() {
        check_slices(rt.alloc(), case)?;
    }
    Ok(())
}

#[test]
fn levels() -> Result<(), Fail> {
    holds(level_count(NonIgnorable, Weights) == 3, "three levels")?;
    holds(level_count(Shifted, Identical) == 5, "five levels")?;
    let zeros = [0; 600];
    let all = compare_keys(&zeros, &zeros[..598], 255);
    holds(all == (Greater, 255), "as many levels as there can be")?;
    let some = compare_keys(&zeros, &zeros[..80], 255);
    holds(some == (Greater, 41), "the level after 40")
}

/// The keys of two lists of elements, and how they compare.
fn check_written(
    alloc: Global,
    weighting: Weighting,
    keys: &str,
    wanted: &str,
) -> Result<(), Fail> {
    let (left, right) = halves(keys)?;
    let left = elements_of(alloc, left)?;
    let right = elements_of(alloc, right)?;
    let left = key_of(alloc, weighting, left.iter().copied())?;
    let right = key_of(alloc, weighting, right.iter().copied())?;
    let levels = level_count(weighting, Weights);
    check_order(alloc, &left, &right, levels, wanted)
}

/// Two lists of elements, and how their keys compare under both weightings.
const WRITTEN: &str = r"[.1C47.0020.0002] | [.1C60.0020.0002] : Less 1 : Less 1
[.1C47.0020.0002][.0000.0024.0002] | [.1C47.0020.0002] : Greater 2 : Greater 2
[.1C47.0020.0002] | [.1C47.0020.0008] : Less 3 : Less 3
 |  : Equal 0 : Equal 0
[.1C47.0020.0002][*0209.0020.0002][.1C60.0020.0002] | [.1C47.0020.0002][.1C60.0020.0002] : Less 1 : Less 4
[*0209.0020.0002][.0000.0024.0002] | [*0209.0020.0002] : Greater 2 : Equal 0";

/// Two lists of elements, and how their keys compare under each weighting.
fn check_orders(alloc: Global, case: &str) -> Result<(), Fail> {
    let (keys, orders) = case.split_once(" : ").ok_or("no orders")?;
    let (plainly, shifted) = orders.split_once(" : ").ok_or("one order")?;
    check_written(alloc, NonIgnorable, keys, plainly)?;
    check_written(alloc, Shifted, keys, shifted)
}

#[test]
fn written_keys_compare(rt: HostRuntime) -> Result<(), Fail> {
    for case in WRITTEN.lines() {
        check_orders(rt.alloc(), case)?;
    }
    Ok(())
}
