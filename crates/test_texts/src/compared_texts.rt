//! How a `TextComparer` compares texts, pair after pair.

use crate::cases::text_of;
use crate::comparisons::{MORE, PLAINLY, SHIFTED};
use crate::samples::{Check, over_both};
use crate::stored_keys::answer;
use crate::written_keys;
use std::alloc::Global;
use std::test::Fail;
use test_kit::{DATA, TABLE, halves, holds, same};
use uca_key::{Compared, TextComparer};
use uca_match::{Collator, Lookup};
use uca_text::TextFault;
use uca_weights::Depth::{Identical, Weights};
use uca_weights::Weighting::{NonIgnorable, Shifted};
use uca_weights::{Numbers, Settings, Weighting};

/// The settings of the comparers of long texts.
const SETTINGS: Settings = Settings {
    weighting: NonIgnorable,
    depth: Weights,
    numbers: Numbers::AsText,
};

/// A comparer at each depth.
#[derive(Drop)]
struct Comparers<'a, L: Lookup> {
    weights: TextComparer<'a, L>,
    identical: TextComparer<'a, L>,
}

fn at_each_depth<'a, L: Lookup>(
    alloc: Global,
    collator: &Collator<'a, L>,
    weighting: Weighting,
) -> Comparers<'a, L> {
    let weights = Settings {
        weighting,
        depth: Weights,
        numbers: Numbers::AsText,
    };
    let identical = Settings {
        weighting,
        depth: Identical,
        numbers: Numbers::AsText,
    };
    Comparers {
        weights: TextComparer::new(alloc, alloc, *collator, weights),
        identical: TextComparer::new(alloc, alloc, *collator, identical),
    }
}

/// How two texts compare, and how many of their elements are fetched.
fn check_pair<L: Lookup>(
    alloc: Global,
    comparer: &mut TextComparer<L>,
    (left, right): (&str, &str),
    (wanted, counts): (&str, &str),
) -> Result<(), Fail> {
    let Compared {
        order,
        level,
        fetched_left,
        fetched_right,
    } = comparer.compare(left, right)?;
    same(&answer(alloc, order, level)?, wanted, counts)?;
    same(
        &format!(in alloc; "{fetched_left} {fetched_right}")?,
        counts,
        wanted,
    )
}

/// How two texts compare at either depth, and how many of their elements are fetched.
fn check_depths<L: Lookup>(
    alloc: Global,
    comparers: &mut Comparers<L>,
    texts: (&str, &str),
    answers: &str,
) -> Result<(), Fail> {
    let (by_weights, rest) = halves(answers)?;
    let (identical, counts) = halves(rest)?;
    check_pair(alloc, &mut comparers.weights, texts, (by_weights, counts))?;
    check_pair(alloc, &mut comparers.identical, texts, (identical, counts))
}

/// Two texts, and what is returned.
fn check_case<L: Lookup>(
    alloc: Global,
    comparers: &mut Comparers<L>,
    case: &str,
) -> Result<(), Fail> {
    let (left, rest) = halves(case)?;
    let (right, answers) = halves(rest)?;
    let left = text_of(alloc, left)?;
    let right = text_of(alloc, right)?;
    check_depths(alloc, comparers, (&left, &right), answers)
}

fn check_cases<L: Lookup>(
    alloc: Global,
    collator: &Collator<L>,
    weighting: Weighting,
    cases: &str,
) -> Result<(), Fail> {
    let mut comparers = at_each_depth(alloc, collator, weighting);
    let checked = check_lines(alloc, &mut comparers, cases);
    drop(comparers);
    checked
}

fn check_lines<L: Lookup>(
    alloc: Global,
    comparers: &mut Comparers<L>,
    cases: &str,
) -> Result<(), Fail> {
    for case in cases.lines() {
        check_case(alloc, comparers, case)?;
    }
    Ok(())
}

/// The pairs that are also compared after normalization.
struct Pairs;

impl Check for Pairs {
    fn check<L: Lookup>(&self, alloc: Global, collator: &Collator<L>) -> Result<(), Fail> {
        check_cases(alloc, collator, NonIgnorable, PLAINLY)?;
        check_cases(alloc, collator, Shifted, SHIFTED)
    }
}

#[test]
fn compares_as_after_normalization(rt: HostRuntime) -> Result<(), Fail> {
    let table = format!(in rt.alloc(); "{TABLE}{MORE}")?;
    over_both(rt.alloc(), &table, DATA, &Pairs)
}

/// Pairs of code points that read alone, and of others: in a contraction, a mark after a letter, and a letter with a class.
const PLAIN_AND_BOUND: &str = r"0063 0061 0062 | 0063 0061 0063 | Greater 1 | Greater 1 | 2 2
0061 0062 | 0078 | Greater 1 | Greater 1 | 1 1
0078 | 0061 0062 | Less 1 | Less 1 | 1 1
0061 0301 | 0061 | Greater 2 | Greater 2 | 2 1
0061 0301 | 0063 | Less 1 | Less 1 | 1 1
00E1 0063 | 0061 0301 0063 | Equal 0 | Equal 0 | 3 3
0063 0301 | 0063 0061 | Greater 1 | Greater 1 | 1 1
0063 0064 0301 | 0063 0064 | Greater 1 | Greater 1 | 1 1
0061 | 0061 0063 | Less 1 | Less 1 | 1 2
0061 0063 | 0061 | Greater 1 | Greater 1 | 2 1
00E1 0061 | 0061 0063 | Less 1 | Less 1 | 3 2
0078 00E1 | 0078 0061 | Greater 2 | Greater 2 | 3 2
0061 0063 | 0061 0063 | Equal 0 | Equal 0 | 2 2
0061 0001 | 0061 | Equal 0 | Greater 4 | 2 1
0002 0003 | 0003 0002 | Equal 0 | Less 4 | 2 2
0020 0061 | 0061 | Less 1 | Less 1 | 1 1";

/// A code point that is completely ignorable, one with a weight at level 1 alone, one with none there, and one after `a`.
const OTHERS: &str = r"0001 ; [.0000.0000.0000]
0002 ; [.1000.0000.0000]
0003 ; [.0000.0021.0003]
0078 ; [.1C48.0020.0002]
";

/// What a variable element takes along, also at the end of what two texts share.
const AFTER_VARIABLE: &str = r"0020 0003 | 0020 | Equal 0 | Greater 5 | 2 1
0020 0061 0003 | 0020 0061 | Greater 2 | Greater 2 | 3 2
0020 0003 0061 | 0020 0061 | Equal 0 | Less 5 | 3 2
0061 0020 0063 | 0061 0063 | Less 4 | Less 4 | 3 2
0061 0020 0063 | 0061 0020 0063 | Equal 0 | Equal 0 | 3 3
0020 0061 | 0020 0063 | Less 1 | Less 1 | 2 2
0020 0061 | 0063 | Less 1 | Less 1 | 2 1";

struct PlainAndBound;

impl Check for PlainAndBound {
    fn check<L: Lookup>(&self, alloc: Global, collator: &Collator<L>) -> Result<(), Fail> {
        check_cases(alloc, collator, NonIgnorable, PLAIN_AND_BOUND)?;
        check_cases(alloc, collator, Shifted, AFTER_VARIABLE)
    }
}

#[test]
fn compares_plain_and_bound_points(rt: HostRuntime) -> Result<(), Fail> {
    let table = format!(in rt.alloc(); "{}{OTHERS}", written_keys::TABLE)?;
    over_both(rt.alloc(), &table, written_keys::DATA, &PlainAndBound)
}

/// A letter so many times, and another one.
fn repeated(alloc: Global, letter: char, times: usize, last: &str) -> Result<String, Fail> {
    let mut text = String::new(alloc);
    for _ in 0..times {
        text.push(letter)?;
    }
    text.push_str(last)?;
    Ok(text)
}

/// A letter so many times and then another one, beside a text, and what is returned.
fn check_repeated<L: Lookup>(
    alloc: Global,
    comparer: &mut TextComparer<L>,
    (letter, times, last): (char, usize, &str),
    (right, answers): (&str, (&str, &str)),
) -> Result<(), Fail> {
    let left = repeated(alloc, letter, times, last)?;
    check_pair(alloc, comparer, (&left, right), answers)
}

/// Texts of more than 32 bytes, of 524,288 bytes, and of one more.
struct Long;

fn check_long<L: Lookup>(alloc: Global, comparer: &mut TextComparer<L>) -> Result<(), Fail> {
    let less = ("c", ("Less 1", "1 1"));
    check_repeated(alloc, comparer, ('a', 33, ""), less)?;
    check_repeated(alloc, comparer, ('a', 33, "b"), less)?;
    let greater = ("a", ("Greater 1", "2 1"));
    check_repeated(alloc, comparer, ('a', 524_288, ""), greater)?;
    check_repeated(alloc, comparer, ('a', 524_288, "c"), greater)
}

impl Check for Long {
    fn check<L: Lookup>(&self, alloc: Global, collator: &Collator<L>) -> Result<(), Fail> {
        let mut comparer = TextComparer::new(alloc, alloc, *collator, SETTINGS);
        let checked = check_long(alloc, &mut comparer);
        drop(comparer);
        checked
    }
}

#[test]
fn compares_long_texts(rt: HostRuntime) -> Result<(), Fail> {
    over_both(rt.alloc(), written_keys::TABLE, written_keys::DATA, &Long)
}

/// Some letters and 65 accents.
fn long_run(alloc: Global, letters: &str) -> Result<String, Fail> {
    let mut text = String::from_str(alloc, letters)?;
    for _ in 0..65 {
        text.push('\u{301}')?;
    }
    Ok(text)
}

/// The first long run is at this place of the left text, or else of the right one.
fn is_rejected<L: Lookup>(
    comparer: &mut TextComparer<L>,
    left: &str,
    right: &str,
    place: u32,
) -> Result<(), Fail> {
    holds(
        comparer.compare(left, right) == Err(TextFault::LongRun(place)),
        "a run of 65 marks",
    )
}

/// Texts with a run of marks that is too long are rejected, and the next pair is compared.
struct LongRuns;

fn are_rejected<L: Lookup>(
    comparer: &mut TextComparer<L>,
    first: &str,
    second: &str,
) -> Result<(), Fail> {
    is_rejected(comparer, first, "a", 2)?;
    is_rejected(comparer, "c", second, 3)?;
    is_rejected(comparer, first, second, 2)?;
    is_rejected(comparer, second, first, 3)
}

fn check_long_runs<L: Lookup>(alloc: Global, comparer: &mut TextComparer<L>) -> Result<(), Fail> {
    let first = long_run(alloc, "ca")?;
    let second = long_run(alloc, "aca")?;
    are_rejected(comparer, &first, &second)?;
    check_pair(alloc, comparer, ("a", "c"), ("Less 1", "1 1"))
}

impl Check for LongRuns {
    fn check<L: Lookup>(&self, alloc: Global, collator: &Collator<L>) -> Result<(), Fail> {
        let mut comparer = TextComparer::new(alloc, alloc, *collator, SETTINGS);
        let checked = check_long_runs(alloc, &mut comparer);
        drop(comparer);
        checked
    }
}

#[test]
fn long_runs_are_rejected(rt: HostRuntime) -> Result<(), Fail> {
    over_both(
        rt.alloc(),
        written_keys::TABLE,
        written_keys::DATA,
        &LongRuns,
    )
}
