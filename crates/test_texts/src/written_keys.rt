//! Keys that a `KeyWriter` writes, one after another.

use crate::cases::{points_and_key, same_bytes, text_of};
use crate::samples::{Check, over_both};
use std::alloc::Global;
use std::test::Fail;
use test_kit::holds;
use uca_key::KeyWriter;
use uca_match::{Collator, Lookup};
use uca_text::TextFault;
use uca_weights::Weighting::{NonIgnorable, Shifted};
use uca_weights::{Depth, Numbers, Settings, Weighting};

/// `ab` and `c` with an acute accent are contractions.
pub const TABLE: &str = "@version 1\n\
    0020 ; [*0209.0020.0002]\n\
    0061 ; [.1C47.0020.0002]\n\
    0062 ; [.1C60.0020.0002]\n\
    0063 ; [.1C7A.0020.0002]\n\
    0064 ; [.1C8F.0020.0002]\n\
    0061 0062 ; [.1C50.0020.0002]\n\
    0063 0301 ; [.1C80.0020.0002]\n\
    0301 ; [.0000.0024.0002]\n";

/// The letter `d` has a class.
pub const DATA: &str = "@data 1\n\
    ccc 0064..0064 220\n\
    ccc 0300..0314 230\n";

/// Code points that read alone, and others: in a contraction, a mark after a letter, and a letter with a class.
const CASES: &str = r" | 0000 0000 | 0000 0000 0000
0061 0063 | 1C47 1C7A 0000 0020 0020 0000 0002 0002 | 1C47 1C7A 0000 0020 0020 0000 0002 0002 0000 FFFF FFFF
0063 0061 0062 0063 | 1C7A 1C50 1C7A 0000 0020 0020 0020 0000 0002 0002 0002 | 1C7A 1C50 1C7A 0000 0020 0020 0020 0000 0002 0002 0002 0000 FFFF FFFF FFFF
0062 0061 | 1C60 1C47 0000 0020 0020 0000 0002 0002 | 1C60 1C47 0000 0020 0020 0000 0002 0002 0000 FFFF FFFF
0061 0301 0063 | 1C47 1C7A 0000 0020 0024 0020 0000 0002 0002 0002 | 1C47 1C7A 0000 0020 0024 0020 0000 0002 0002 0002 0000 FFFF FFFF FFFF
00E1 0063 | 1C47 1C7A 0000 0020 0024 0020 0000 0002 0002 0002 | 1C47 1C7A 0000 0020 0024 0020 0000 0002 0002 0002 0000 FFFF FFFF FFFF
0020 0301 0063 | 0209 1C7A 0000 0020 0024 0020 0000 0002 0002 0002 | 1C7A 0000 0020 0000 0002 0000 0209 FFFF
0063 0064 0301 | 1C80 1C8F 0000 0020 0020 0000 0002 0002 | 1C80 1C8F 0000 0020 0020 0000 0002 0002 0000 FFFF FFFF
AC00 0061 | FBC0 9100 FBC0 9161 1C47 0000 0020 0020 0020 0000 0002 0002 0002 | FBC0 9100 FBC0 9161 1C47 0000 0020 0020 0020 0000 0002 0002 0002 0000 FFFF FFFF FFFF FFFF FFFF
0061 0063 | 1C47 1C7A 0000 0020 0020 0000 0002 0002 | 1C47 1C7A 0000 0020 0020 0000 0002 0002 0000 FFFF FFFF";

fn check_case<L: Lookup>(
    alloc: Global,
    writer: &mut KeyWriter<L>,
    weighting: Weighting,
    case: &str,
) -> Result<(), Fail> {
    let (points, wanted) = points_and_key(weighting, case)?;
    let text = text_of(alloc, points)?;
    writer.write(&text)?;
    same_bytes(alloc, writer.bytes(), wanted, case)
}

fn check_cases<L: Lookup>(
    alloc: Global,
    writer: &mut KeyWriter<L>,
    weighting: Weighting,
) -> Result<(), Fail> {
    for case in CASES.lines() {
        check_case(alloc, writer, weighting, case)?;
    }
    Ok(())
}

fn check_weighting<L: Lookup>(
    alloc: Global,
    collator: &Collator<L>,
    weighting: Weighting,
) -> Result<(), Fail> {
    let settings = Settings {
        weighting,
        depth: Depth::Weights,
        numbers: Numbers::AsText,
    };
    let mut writer = KeyWriter::new(alloc, alloc, *collator, settings);
    let checked = check_cases(alloc, &mut writer, weighting);
    drop(writer);
    checked
}

/// Cases of texts and their keys under each weighting.
struct Cases;

impl Check for Cases {
    fn check<L: Lookup>(&self, alloc: Global, collator: &Collator<L>) -> Result<(), Fail> {
        check_weighting(alloc, collator, NonIgnorable)?;
        check_weighting(alloc, collator, Shifted)
    }
}

#[test]
fn keys_one_after_another(rt: HostRuntime) -> Result<(), Fail> {
    over_both(rt.alloc(), TABLE, DATA, &Cases)
}

/// Two letters and 65 accents.
fn long_run(alloc: Global) -> Result<String, Fail> {
    let mut text = String::from_str(alloc, "aa")?;
    for _ in 0..65 {
        text.push('\u{301}')?;
    }
    Ok(text)
}

/// A text with a run of marks that is too long is rejected, and the next text is written.
struct LongRun;

fn check_long_run<L: Lookup>(alloc: Global, writer: &mut KeyWriter<L>) -> Result<(), Fail> {
    let text = long_run(alloc)?;
    holds(
        writer.write(&text) == Err(TextFault::LongRun(2)),
        "a run of 65 marks",
    )?;
    check_case(
        alloc,
        writer,
        NonIgnorable,
        "0061 | 1C47 0000 0020 0000 0002 | ",
    )
}

impl Check for LongRun {
    fn check<L: Lookup>(&self, alloc: Global, collator: &Collator<L>) -> Result<(), Fail> {
        let settings = Settings {
            weighting: NonIgnorable,
            depth: Depth::Weights,
            numbers: Numbers::AsText,
        };
        let mut writer = KeyWriter::new(alloc, alloc, *collator, settings);
        let checked = check_long_run(alloc, &mut writer);
        drop(writer);
        checked
    }
}

#[test]
fn a_long_run_is_rejected(rt: HostRuntime) -> Result<(), Fail> {
    over_both(rt.alloc(), TABLE, DATA, &LongRun)
}
