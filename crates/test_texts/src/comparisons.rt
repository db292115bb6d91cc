//! How two texts compare: without keys, and as their keys do.

use crate::samples::{Check, normal_of, over_both};
use crate::stored_keys::{answer, check_order};
use std::alloc::Global;
use std::test::Fail;
use test_kit::{DATA, TABLE, halves, same};
use uca_key::{Compared, compare, key, level_count};
use uca_match::{Collator, Lookup};
use uca_text::Normal;
use uca_weights::Weighting::{NonIgnorable, Shifted};
use uca_weights::{Depth, Weighting};

/// The keys of two texts compare so.
fn check_by_keys<L: Lookup>(
    alloc: Global,
    collator: &Collator<L>,
    (weighting, depth): (Weighting, Depth),
    (left, right): (&Normal, &Normal),
    wanted: &str,
) -> Result<(), Fail> {
    let left = key(alloc, collator, weighting, depth, left)?;
    let right = key(alloc, collator, weighting, depth, right)?;
    let levels = level_count(weighting, depth);
    check_order(alloc, &left, &right, levels, wanted)
}

/// How two texts compare at a depth, and how many elements the comparison of level 1 fetched. Their keys
/// compare so too.
fn check_depth<L: Lookup>(
    alloc: Global,
    collator: &Collator<L>,
    (weighting, depth): (Weighting, Depth),
    (left, right): (&Normal, &Normal),
    (wanted, counts): (&str, &str),
) -> Result<(), Fail> {
    let Compared {
        order,
        level,
        fetched_left,
        fetched_right,
    } = compare(collator, weighting, depth, left, right);
    same(&answer(alloc, order, level)?, wanted, counts)?;
    same(
        &format!(in alloc; "{fetched_left} {fetched_right}")?,
        counts,
        wanted,
    )?;
    check_by_keys(alloc, collator, (weighting, depth), (left, right), wanted)
}

/// How two texts compare at either depth, and how many of their elements are fetched.
fn check_depths<L: Lookup>(
    alloc: Global,
    collator: &Collator<L>,
    weighting: Weighting,
    texts: (&Normal, &Normal),
    answers: &str,
) -> Result<(), Fail> {
    let (by_weights, rest) = halves(answers)?;
    let (identical, counts) = halves(rest)?;
    let by_weights = (by_weights, counts);
    check_depth(
        alloc,
        collator,
        (weighting, Depth::Weights),
        texts,
        by_weights,
    )?;
    check_depth(
        alloc,
        collator,
        (weighting, Depth::Identical),
        texts,
        (identical, counts),
    )
}

/// A text, another one, and what is returned.
fn check_right<L: Lookup>(
    alloc: Global,
    collator: &Collator<L>,
    weighting: Weighting,
    left: &Normal,
    (right, answers): (&str, &str),
) -> Result<(), Fail> {
    let right = normal_of(alloc, right, collator.data)?;
    let checked = check_depths(alloc, collator, weighting, (left, &right), answers);
    drop(right);
    checked
}

/// Two texts, and what is returned.
fn check_case<L: Lookup>(
    alloc: Global,
    collator: &Collator<L>,
    weighting: Weighting,
    case: &str,
) -> Result<(), Fail> {
    let (left, rest) = halves(case)?;
    let (right, answers) = halves(rest)?;
    let left = normal_of(alloc, left, collator.data)?;
    let checked = check_right(alloc, collator, weighting, &left, (right, answers));
    drop(left);
    checked
}

/// Pairs under `NonIgnorable`, and what is returned.
pub const PLAINLY: &str = r"0041 0061 | 0061 0062 | Less 1 | Less 1 | 2 2
0062 0061 | 0061 0062 | Greater 1 | Greater 1 | 1 1
 | 0061 | Less 1 | Less 1 | 0 1
00E1 | 0061 | Greater 2 | Greater 2 | 2 1
4E00 | 4E01 | Less 1 | Less 1 | 2 2
0301 0061 | 0062 | Less 1 | Less 1 | 2 1
0061 | 0062 | Less 1 | Less 1 | 1 1
0061 | 0061 0001 | Equal 0 | Less 4 | 1 2
0002 0003 | 0003 0002 | Equal 0 | Less 4 | 2 2
0002 0003 | 0003 0002 0003 | Less 2 | Less 2 | 2 3
00E1 | 0061 0301 | Equal 0 | Equal 0 | 2 2
 |  | Equal 0 | Equal 0 | 0 0";

/// Pairs under `Shifted`, and what is returned.
pub const SHIFTED: &str = r"0061 0020 0062 | 0061 0062 | Less 4 | Less 4 | 3 2
0020 0061 | 0062 | Less 1 | Less 1 | 2 1
0020 0301 | 0020 | Equal 0 | Greater 5 | 2 1
0061 0020 0062 | 0061 0020 0062 | Equal 0 | Equal 0 | 3 3";

/// The cases of both weightings.
#[derive(Clone, Copy)]
struct Pairs;

impl Check for Pairs {
    fn check<L: Lookup>(&self, alloc: Global, collator: &Collator<L>) -> Result<(), Fail> {
        for case in PLAINLY.lines() {
            check_case(alloc, collator, NonIgnorable, case)?;
        }
        for case in SHIFTED.lines() {
            check_case(alloc, collator, Shifted, case)?;
        }
        Ok(())
    }
}

/// A code point that is completely ignorable, and two that have no weight at a level at which the other has one.
pub const MORE: &str = r"0001 ; [.0000.0000.0000]
0002 ; [.1000.0000.0000]
0003 ; [.0000.0021.0003]
";

#[test]
fn compares_texts(rt: HostRuntime) -> Result<(), Fail> {
    let table = format!(in rt.alloc(); "{TABLE}{MORE}")?;
    over_both(rt.alloc(), &table, DATA, &Pairs)
}
