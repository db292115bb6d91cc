//! Keys and comparisons of texts whose numbers are ordered by value.

ghost use Rattle.uca_elements.specs.Collations.{collation_of};
ghost use Rattle.uca_plain.specs.PointCache.{AreTrueEntries};

use crate::tries::{Trial, over_table};
use std::alloc::{AllocError, Global};
use std::cmp::Ordering;
use std::cmp::Ordering::{Equal, Greater, Less};
use std::test::Fail;
use test_kit::{DATA, NUMBER_TABLE, data_of, holds, repeated, same_bytes};
use uca_key_writer::KeyMemory;
use uca_match::{Collator, Lookup};
use uca_number_keys::{UnorderedDigits, check_numbers};
use uca_table::read_packed_table;
use uca_text::TextFault;
use uca_text_comparer::{PairFault, TextComparison};
use uca_values::{Data, PackedTable};
use uca_weights::Depth::{Identical, Weights};
use uca_weights::{Depth, Numbers, Settings, Source, Weighting};

/// A text, the weights of its key, and its code points in Normalization Form D.
type Case = (&'static str, &'static [u16], &'static str);

/// `a7` is written `a17`, and so is `a007`; `a10` is written `a210`. An accent comes after the letter or the number
/// that it follows.
const KEYS: &[Case] = &[
    ("ab", &[0x1C47, 0x1C60, 0, 0x20, 0x20, 0, 2, 2], "ab"),
    (
        "a7",
        &[0x1C47, 0x1C3E, 0x1C44, 0, 0x20, 0x20, 0x20, 0, 2, 2, 2],
        "a7",
    ),
    (
        "a007",
        &[0x1C47, 0x1C3E, 0x1C44, 0, 0x20, 0x20, 0x20, 0, 2, 2, 2],
        "a007",
    ),
    (
        "a10",
        &[
            0x1C47, 0x1C3F, 0x1C3E, 0x1C3D, 0, 0x20, 0x20, 0x20, 0x20, 0, 2, 2, 2, 2,
        ],
        "a10",
    ),
    (
        "\u{e1}7",
        &[
            0x1C47, 0x1C3E, 0x1C44, 0, 0x20, 0x24, 0x20, 0x20, 0, 2, 2, 2, 2,
        ],
        "a\u{301}7",
    ),
    (
        "a\u{301}7",
        &[
            0x1C47, 0x1C3E, 0x1C44, 0, 0x20, 0x24, 0x20, 0x20, 0, 2, 2, 2, 2,
        ],
        "a\u{301}7",
    ),
    (
        "7\u{301}",
        &[0x1C3E, 0x1C44, 0, 0x20, 0x20, 0x24, 0, 2, 2, 2],
        "7\u{301}",
    ),
];

/// The key of `0`, which is `10` by value.
const ZERO: &[u8] = b"\x1C\x3E\x1C\x3D\0\0\0\x20\0\x20\0\0\0\x02\0\x02";

/// Two texts, and how they compare: without an identical level, and with one.
type Pair = (&'static str, &'static str, (Ordering, u8), (Ordering, u8));

const PAIRS: &[Pair] = &[
    ("a9", "a10", (Less, 1), (Less, 1)),
    ("a10", "a9", (Greater, 1), (Greater, 1)),
    ("b2", "a10", (Greater, 1), (Greater, 1)),
    ("a2\u{301}", "a2", (Greater, 2), (Greater, 2)),
    ("a7", "a007", (Equal, 0), (Greater, 4)),
    ("a\u{301}1", "\u{e1}01", (Equal, 0), (Greater, 4)),
    ("\u{e1}12", "a\u{301}12", (Equal, 0), (Equal, 0)),
    ("a", "ab", (Less, 1), (Less, 1)),
];

fn settings_at(depth: Depth) -> Settings {
    Settings {
        weighting: Weighting::NonIgnorable,
        depth,
        numbers: Numbers::ByValue,
    }
}

/// A key: the weights, and with an identical level two bytes 0 and the code points.
fn key_of(
    alloc: Global,
    depth: Depth,
    weights: &[u16],
    points: &str,
) -> Result<Vec<u8>, AllocError> {
    let mut key = Vec::new(alloc);
    for weight in weights {
        key.extend_from_slice(&weight.to_be_bytes())?;
    }
    if depth == Weights {
        return Ok(key);
    }
    key.extend_from_slice(&[0, 0])?;
    for point in points.chars() {
        let bytes = u32::from(point).to_be_bytes();
        key.extend_from_slice(&bytes[1..])?;
    }
    Ok(key)
}

/// The first sixteen bytes, or all.
fn beginning(key: &[u8]) -> &[u8] {
    &key[..key.len().min(16)]
}

/// The beginning of a key, and then the whole key.
fn check_written<L: Lookup>(
    keys: &mut KeyMemory,
    collator: &Collator<L>,
    text: &str,
    wanted: &[u8],
) -> Result<(), Fail>
    requires { AreTrueEntries (collation_of L.content collator.now) keys.old.points.entries.items }
    ensures { AreTrueEntries (collation_of L.content collator.now) keys.new.points.entries.items }
{
    keys.write_beginning(collator, text)?;
    same_bytes(beginning(keys.bytes()), beginning(wanted), text)?;
    keys.write(collator, text)?;
    same_bytes(keys.bytes(), wanted, text)
}

fn check_key<L: Lookup>(
    alloc: Global,
    keys: &mut KeyMemory,
    collator: &Collator<L>,
    depth: Depth,
    case: Case,
) -> Result<(), Fail>
    requires { AreTrueEntries (collation_of L.content collator.now) keys.old.points.entries.items }
    ensures { AreTrueEntries (collation_of L.content collator.now) keys.new.points.entries.items }
{
    let (text, weights, points) = case;
    let wanted = key_of(alloc, depth, weights, points)?;
    check_written(keys, collator, text, &wanted)
}

/// The keys of all cases, each over the one before.
fn check_each_key<L: Lookup>(
    alloc: Global,
    keys: &mut KeyMemory,
    collator: &Collator<L>,
    depth: Depth,
) -> Result<(), Fail>
    requires { AreTrueEntries (collation_of L.content collator.now) keys.old.points.entries.items }
{
    for case in KEYS {
        check_key(alloc, keys, collator, depth, *case)?;
    }
    Ok(())
}

fn check_pair<L: Lookup>(
    comparison: &mut TextComparison,
    collator: &Collator<L>,
    pair: Pair,
) -> Result<(), Fail>
    requires { AreTrueEntries (collation_of L.content collator.now) comparison.old.plain.points.entries.items }
    ensures { AreTrueEntries (collation_of L.content collator.now) comparison.new.plain.points.entries.items }
{
    let (left, right, by_weights, identical) = pair;
    let found = comparison.compare(collator, settings_at(Weights), left, right)?;
    holds((found.order, found.level) == by_weights, left)?;
    let found = comparison.compare(collator, settings_at(Identical), left, right)?;
    holds((found.order, found.level) == identical, left)
}

fn check_pairs<L: Lookup>(
    comparison: &mut TextComparison,
    collator: &Collator<L>,
) -> Result<(), Fail>
    requires { AreTrueEntries (collation_of L.content collator.now) comparison.old.plain.points.entries.items }
{
    for pair in PAIRS {
        check_pair(comparison, collator, *pair)?;
    }
    Ok(())
}

/// In `1` and 65 accents a run is too long. By value the text begins with `11`, so the run begins at 2.
fn check_run<L: Lookup>(keys: &mut KeyMemory, collator: &Collator<L>, run: &str) -> Result<(), Fail>
    requires { AreTrueEntries (collation_of L.content collator.now) keys.old.points.entries.items }
{
    let found = keys.write(collator, run);
    holds(found == Err(TextFault::LongRun(2)), "a run of 65 accents")?;
    let found = keys.write_beginning(collator, run);
    let wanted = Err(TextFault::LongRun(2));
    holds(found == wanted, "a run of 65 accents, judged")
}

fn check_long_run<L: Lookup>(
    alloc: Global,
    keys: &mut KeyMemory,
    collator: &Collator<L>,
) -> Result<(), Fail>
    requires { AreTrueEntries (collation_of L.content collator.now) keys.old.points.entries.items }
{
    let marks = repeated(alloc, "\u{301}", 65)?;
    let run = format!(in alloc; "1{marks}")?;
    check_run(keys, collator, &run)
}

/// More zeros than a text may have code points are one zero by value.
fn check_zeros<L: Lookup>(
    alloc: Global,
    keys: &mut KeyMemory,
    collator: &Collator<L>,
) -> Result<(), Fail>
    requires { AreTrueEntries (collation_of L.content collator.now) keys.old.points.entries.items }
{
    let zeros = repeated(alloc, "0", 1_048_577)?;
    check_written(keys, collator, &zeros, ZERO)
}

/// What is written by a memory that was made for it.
#[derive(Clone, Copy)]
enum Part {
    Keys,
    LongRun,
    Zeros,
}

fn check_part<L: Lookup>(
    alloc: Global,
    keys: &mut KeyMemory,
    collator: &Collator<L>,
    depth: Depth,
    part: Part,
) -> Result<(), Fail>
    requires { AreTrueEntries (collation_of L.content collator.now) keys.old.points.entries.items }
{
    match part {
        Part::Keys => check_each_key(alloc, keys, collator, depth),
        Part::LongRun => check_long_run(alloc, keys, collator),
        Part::Zeros => check_zeros(alloc, keys, collator),
    }
}

fn check_keys<L: Lookup>(
    alloc: Global,
    collator: &Collator<L>,
    depth: Depth,
    part: Part,
) -> Result<(), Fail> {
    let mut keys = KeyMemory::new(alloc, alloc, settings_at(depth));
    let found = check_part(alloc, &mut keys, collator, depth, part);
    drop(keys);
    found
}

fn check_right_text<L: Lookup>(
    alloc: Global,
    comparison: &mut TextComparison,
    collator: &Collator<L>,
) -> Result<(), Fail>
    requires { AreTrueEntries (collation_of L.content collator.now) comparison.old.plain.points.entries.items }
{
    let marks = repeated(alloc, "\u{301}", 65)?;
    let found = comparison.compare(collator, settings_at(Weights), "1", &marks);
    let wanted = Err(PairFault::Right(TextFault::LongRun(0)));
    holds(found == wanted, "a run of 65 accents on the right")
}

/// All pairs, or else a text that is too long, by a comparison that was made for it.
fn check_comparison<L: Lookup>(
    alloc: Global,
    collator: &Collator<L>,
    is_pairs: bool,
) -> Result<(), Fail> {
    let mut comparison = TextComparison::new(alloc, alloc);
    let found = if is_pairs {
        check_pairs(&mut comparison, collator)
    } else {
        check_right_text(alloc, &mut comparison, collator)
    };
    drop(comparison);
    found
}

/// All that is checked of numbers by value.
pub fn check_all<L: Lookup>(alloc: Global, collator: &Collator<L>) -> Result<(), Fail> {
    check_keys(alloc, collator, Weights, Part::Keys)?;
    check_keys(alloc, collator, Identical, Part::Keys)?;
    check_keys(alloc, collator, Weights, Part::LongRun)?;
    check_keys(alloc, collator, Weights, Part::Zeros)?;
    check_comparison(alloc, collator, true)?;
    check_comparison(alloc, collator, false)
}

#[test]
fn orders_numbers_by_value(rt: HostRuntime) -> Result<(), Fail> {
    over_table(rt.alloc(), NUMBER_TABLE, Trial::Numbers)
}

/// A part of the table, what comes in place of it, and the row to blame, or `None` if numbers are in order.
const TABLES: &[(&str, &str, Option<u32>)] = &[
    ("0035 ; ", "0035 ; ", None),
    (
        "0061 ; ",
        "0035 0301 ; [.1C50.0020.0002]\n0061 ; ",
        Some(11),
    ),
    (
        "0061 ; ",
        "0062 0061 0035 ; [.1C50.0020.0002]\n0061 ; ",
        Some(11),
    ),
    ("[.1C42.0020.0002]", "[.1C41.0020.0002]", Some(6)),
    ("[.1C42.0020.0002]", "[*1C42.0020.0002]", Some(6)),
    (
        "[.1C42.0020.0002]",
        "[.1C42.0020.0002][.0000.0024.0002]",
        Some(6),
    ),
    ("[.1C3D.0020.0002]", "[.0000.0020.0002]", Some(1)),
    ("[.1C46.0020.0002]", "[.1C3D.0020.0002]", Some(10)),
    ("0035 ; [.1C42.0020.0002]\n", "", Some(0)),
];

fn check_values(
    table: &PackedTable,
    data: &Data,
    file: &str,
    wanted: Option<u32>,
) -> Result<(), Fail> {
    let found = match check_numbers(Numbers::ByValue, table, data) {
        Ok(()) => None,
        Err(UnorderedDigits { row }) => Some(row),
    };
    let is_text = check_numbers(Numbers::AsText, table, data).is_ok();
    holds(found == wanted && is_text, file)
}

fn check_data(
    alloc: Global,
    table: &PackedTable,
    data: &str,
    (file, wanted): (&str, Option<u32>),
) -> Result<(), Fail> {
    let data = data_of(alloc, &mut Source::new(data.as_bytes()))?;
    let found = check_values(table, &data, file, wanted);
    drop(data);
    found
}

/// By which row numbers are not ordered under a table file and a data file. As text each table is taken.
fn check_table(alloc: Global, file: &str, data: &str, wanted: Option<u32>) -> Result<(), Fail> {
    let table = read_packed_table(alloc, &mut Source::new(file.as_bytes()))?;
    let found = check_data(alloc, &table, data, (file, wanted));
    drop(table);
    found
}

/// The table with another part in place of one.
fn changed(alloc: Global, old: &str, new: &str) -> Result<String, Fail> {
    let (front, back) = NUMBER_TABLE.split_once(old).ok_or("no such part")?;
    Ok(format!(in alloc; "{front}{new}{back}")?)
}

#[test]
fn finds_tables_that_order_numbers(rt: HostRuntime) -> Result<(), Fail> {
    let alloc = rt.alloc();
    for (old, new, wanted) in TABLES {
        check_table(alloc, &changed(alloc, old, new)?, DATA, *wanted)?;
    }
    check_table(alloc, NUMBER_TABLE, "@data 1\nccc 0037..0037 9\n", Some(8))
}
