//! Beginnings of keys that a `KeyWriter` writes.

use crate::cases::{points_and_key, same_bytes, text_of};
use crate::samples::{Check, over_both};
use crate::written_keys::{DATA, TABLE};
use std::alloc::Global;
use std::test::Fail;
use test_kit::holds;
use uca_key::KeyWriter;
use uca_match::{Collator, Lookup};
use uca_text::TextFault;
use uca_weights::Weighting::{NonIgnorable, Shifted};
use uca_weights::{Depth, Numbers, Settings, Weighting};

/// Texts and the first sixteen bytes of their keys under each weighting, or all bytes of a shorter key. There are texts with
/// fewer than eight weights at level 1, with eight, and with more. A contraction, a mark or a letter with a class is at the
/// eighth weight, and variable elements are before it.
const CASES: &str = r" | 0000 0000 | 0000 0000 0000
0061 | 1C47 0000 0020 0000 0002 | 1C47 0000 0020 0000 0002 0000 FFFF
0061 0063 | 1C47 1C7A 0000 0020 0020 0000 0002 0002 | 1C47 1C7A 0000 0020 0020 0000 0002 0002
0063 0063 0063 0063 0063 0063 0061 | 1C7A 1C7A 1C7A 1C7A 1C7A 1C7A 1C47 0000 | 1C7A 1C7A 1C7A 1C7A 1C7A 1C7A 1C47 0000
0063 0063 0063 0063 0063 0063 0063 0061 | 1C7A 1C7A 1C7A 1C7A 1C7A 1C7A 1C7A 1C47 | 1C7A 1C7A 1C7A 1C7A 1C7A 1C7A 1C7A 1C47
0063 0063 0063 0063 0063 0063 0063 0061 0062 | 1C7A 1C7A 1C7A 1C7A 1C7A 1C7A 1C7A 1C50 | 1C7A 1C7A 1C7A 1C7A 1C7A 1C7A 1C7A 1C50
0063 0063 0063 0063 0063 0063 0063 0061 0062 0063 | 1C7A 1C7A 1C7A 1C7A 1C7A 1C7A 1C7A 1C50 | 1C7A 1C7A 1C7A 1C7A 1C7A 1C7A 1C7A 1C50
0063 0063 0063 0063 0063 0063 0063 0063 0301 0061 | 1C7A 1C7A 1C7A 1C7A 1C7A 1C7A 1C7A 1C80 | 1C7A 1C7A 1C7A 1C7A 1C7A 1C7A 1C7A 1C80
0063 0063 0063 0063 0063 0063 0063 0064 0301 | 1C7A 1C7A 1C7A 1C7A 1C7A 1C7A 1C80 1C8F | 1C7A 1C7A 1C7A 1C7A 1C7A 1C7A 1C80 1C8F
AC00 AC00 0061 0301 | FBC0 9100 FBC0 9161 FBC0 9100 FBC0 9161 | FBC0 9100 FBC0 9161 FBC0 9100 FBC0 9161
0020 0061 0020 0063 0061 0063 0061 0063 0061 0063 | 0209 1C47 0209 1C7A 1C47 1C7A 1C47 1C7A | 1C47 1C7A 1C47 1C7A 1C47 1C7A 1C47 1C7A
0020 0301 0061 0020 0063 0061 0063 0061 0063 0061 | 0209 1C47 0209 1C7A 1C47 1C7A 1C47 1C7A | 1C47 1C7A 1C47 1C7A 1C47 1C7A 1C47 0000
0061 0063 0061 0063 0061 0063 0061 0063 0061 0063 | 1C47 1C7A 1C47 1C7A 1C47 1C7A 1C47 1C7A | 1C47 1C7A 1C47 1C7A 1C47 1C7A 1C47 1C7A";

/// Texts and the first sixteen bytes of their keys with an identical level, under each weighting.
const IDENTICAL: &str = r" | 0000 0000 0000 | 0000 0000 0000 0000
0061 | 1C47 0000 0020 0000 0002 0000 0000 61 | 1C47 0000 0020 0000 0002 0000 FFFF 0000
0061 0063 | 1C47 1C7A 0000 0020 0020 0000 0002 0002 | 1C47 1C7A 0000 0020 0020 0000 0002 0002
0063 0063 0063 0063 0063 0063 0063 0061 0062 | 1C7A 1C7A 1C7A 1C7A 1C7A 1C7A 1C7A 1C50 | 1C7A 1C7A 1C7A 1C7A 1C7A 1C7A 1C7A 1C50
0020 0061 0020 0063 0061 0063 0061 0063 0061 0063 | 0209 1C47 0209 1C7A 1C47 1C7A 1C47 1C7A | 1C47 1C7A 1C47 1C7A 1C47 1C7A 1C47 1C7A";

/// The first sixteen bytes, or all.
fn beginning(key: &[u8]) -> &[u8] {
    &key[..key.len().min(16)]
}

fn check_case<L: Lookup>(
    alloc: Global,
    writer: &mut KeyWriter<L>,
    weighting: Weighting,
    case: &str,
) -> Result<(), Fail> {
    let (points, wanted) = points_and_key(weighting, case)?;
    let text = text_of(alloc, points)?;
    writer.write_beginning(&text)?;
    same_bytes(alloc, beginning(writer.bytes()), wanted, case)
}

fn check_cases<L: Lookup>(
    alloc: Global,
    collator: &Collator<L>,
    depth: Depth,
    cases: &str,
) -> Result<(), Fail> {
    for weighting in [NonIgnorable, Shifted] {
        check_settings(
            alloc,
            collator,
            Settings {
                weighting,
                depth,
                numbers: Numbers::AsText,
            },
            cases,
        )?;
    }
    Ok(())
}

fn check_settings<L: Lookup>(
    alloc: Global,
    collator: &Collator<L>,
    settings: Settings,
    cases: &str,
) -> Result<(), Fail> {
    let mut writer = KeyWriter::new(alloc, alloc, *collator, settings);
    let checked = check_lines(alloc, &mut writer, settings.weighting, cases);
    drop(writer);
    checked
}

fn check_lines<L: Lookup>(
    alloc: Global,
    writer: &mut KeyWriter<L>,
    weighting: Weighting,
    cases: &str,
) -> Result<(), Fail> {
    for case in cases.lines() {
        check_case(alloc, writer, weighting, case)?;
    }
    Ok(())
}

/// Cases of texts and the beginnings of their keys.
struct Cases;

impl Check for Cases {
    fn check<L: Lookup>(&self, alloc: Global, collator: &Collator<L>) -> Result<(), Fail> {
        check_cases(alloc, collator, Depth::Weights, CASES)?;
        check_cases(alloc, collator, Depth::Identical, IDENTICAL)
    }
}

#[test]
fn beginnings_one_after_another(rt: HostRuntime) -> Result<(), Fail> {
    over_both(rt.alloc(), TABLE, DATA, &Cases)
}

/// Ten letters, so many accents, and a letter.
fn with_accents(alloc: Global, accents: u8) -> Result<String, Fail> {
    let mut text = String::from_str(alloc, "aaaaaaaaaa")?;
    for _ in 0..accents {
        text.push('\u{301}')?;
    }
    text.push('c')?;
    Ok(text)
}

/// So many letters.
fn letters(alloc: Global, count: u32) -> Result<String, Fail> {
    let mut text = String::new(alloc);
    for _ in 0..count {
        text.push('a')?;
    }
    Ok(text)
}

/// What is written of a text that begins with eight letters.
fn check_letters<L: Lookup>(
    alloc: Global,
    writer: &mut KeyWriter<L>,
    text: &str,
) -> Result<(), Fail> {
    writer.write_beginning(text)?;
    same_bytes(
        alloc,
        beginning(writer.bytes()),
        "1C47 1C47 1C47 1C47 1C47 1C47 1C47 1C47",
        "a text that begins with eight letters",
    )
}

/// What comes after the beginning of a key is judged too, and a text of more than 524,288 bytes has one.
struct Longer;

fn check_accents<L: Lookup>(
    alloc: Global,
    writer: &mut KeyWriter<L>,
    count: u8,
) -> Result<(), Fail> {
    let text = with_accents(alloc, count)?;
    check_letters(alloc, writer, &text)
}

fn check_count<L: Lookup>(
    alloc: Global,
    writer: &mut KeyWriter<L>,
    count: u32,
) -> Result<(), Fail> {
    let text = letters(alloc, count)?;
    check_letters(alloc, writer, &text)
}

fn check_long_run<L: Lookup>(alloc: Global, writer: &mut KeyWriter<L>) -> Result<(), Fail> {
    let text = with_accents(alloc, 65)?;
    holds(
        writer.write_beginning(&text) == Err(TextFault::LongRun(10)),
        "a run of 65 marks after the beginning",
    )
}

fn check_longer<L: Lookup>(alloc: Global, writer: &mut KeyWriter<L>) -> Result<(), Fail> {
    check_long_run(alloc, writer)?;
    check_accents(alloc, writer, 60)?;
    check_accents(alloc, writer, 64)?;
    check_count(alloc, writer, 1_000)?;
    check_count(alloc, writer, 524_289)
}

impl Check for Longer {
    fn check<L: Lookup>(&self, alloc: Global, collator: &Collator<L>) -> Result<(), Fail> {
        let settings = Settings {
            weighting: NonIgnorable,
            depth: Depth::Weights,
            numbers: Numbers::AsText,
        };
        let mut writer = KeyWriter::new(alloc, alloc, *collator, settings);
        let checked = check_longer(alloc, &mut writer);
        drop(writer);
        checked
    }
}

#[test]
fn what_comes_after_a_beginning(rt: HostRuntime) -> Result<(), Fail> {
    over_both(rt.alloc(), TABLE, DATA, &Longer)
}
