//! Keys that were worked out by hand: from elements on, and from texts on.

use crate::cases::same_bytes;
use crate::samples::{Check, normal_of, over_both, table_of};
use std::alloc::{AllocError, Global};
use std::test::Fail;
use test_kit::{DATA, TABLE, halves};
use uca_key::{KeyBuffer, key, key_of};
use uca_match::{Collator, Lookup};
use uca_text::Normal;
use uca_values::Table;
use uca_weights::Weighting::{NonIgnorable, Shifted};
use uca_weights::{Depth, Element, Numbers, Settings, Weighting};

/// The elements that are written so in a row.
pub fn elements_of(alloc: Global, text: &str) -> Result<Vec<Element>, Fail> {
    if text.is_empty() {
        return Ok(Vec::new(alloc));
    }
    let file = format!(in alloc; "@version 1\n0061 ; {text}\n")?;
    elements_of_file(alloc, &file)
}

/// The elements of all rows of a table file.
fn elements_of_file(alloc: Global, file: &str) -> Result<Vec<Element>, Fail> {
    let table = table_of(alloc, file)?;
    let elements = elements_of_table(alloc, &table);
    drop(table);
    Ok(elements?)
}

/// The elements of all rows of a table.
fn elements_of_table(alloc: Global, table: &Table) -> Result<Vec<Element>, AllocError> {
    let mut elements = Vec::new(alloc);
    for row in &table.rows {
        elements.extend_from_slice(&row.elements)?;
    }
    Ok(elements)
}

/// Elements and their key.
fn check_elements(alloc: Global, weighting: Weighting, case: &str) -> Result<(), Fail> {
    let (elements, wanted) = halves(case)?;
    let elements = elements_of(alloc, elements)?;
    let found = key_of(alloc, weighting, elements.iter().copied())?;
    same_bytes(alloc, &found, wanted, case)
}

/// The last cases are of contractions.
const NON_IGNORABLE: &str = r" | 0000 0000
[.1C47.0020.0002] | 1C47 0000 0020 0000 0002
[.1C47.0020.0002][.0000.0024.0002] | 1C47 0000 0020 0024 0000 0002 0002
[.FB40.0020.0002][.CE00.0000.0000] | FB40 CE00 0000 0020 0000 0002
[*0209.0020.0002][.0000.0024.0002] | 0209 0000 0020 0024 0000 0002 0002
[.0000.0000.0004][.0000.0000.0000] | 0000 0000 0004
[.1C50.0020.0002][.0000.002C.0002] | 1C50 0000 0020 002C 0000 0002 0002
[.1C47.0020.0002][.0000.0025.0002][.0000.0024.0002] | 1C47 0000 0020 0025 0024 0000 0002 0002 0002
[.1C58.0020.0002][.0000.002C.0002] | 1C58 0000 0020 002C 0000 0002 0002";

const SHIFTED: &str = r" | 0000 0000 0000
[.FB40.0020.0002][.CE00.0000.0000] | FB40 CE00 0000 0020 0000 0002 0000 FFFF FFFF
[.1C47.0020.0002][*0209.0020.0002][.1C60.0020.0002] | 1C47 1C60 0000 0020 0020 0000 0002 0002 0000 FFFF 0209 FFFF
[*0209.0020.0002][.0000.0024.0002] | 0000 0000 0000 0209
[*0209.0020.0002][.0000.0000.0000][.0000.0024.0002] | 0000 0000 0000 0209
[*0209.0020.0002][*0000.0020.0002][.0000.0024.0002] | 0000 0000 0000 0209
[*0000.0020.0002][.0000.0024.0002] | 0000 0024 0000 0002 0000 FFFF
[.0000.0000.0004] | 0000 0000 0004 0000 FFFF
[.0000.0000.0000] | 0000 0000 0000
[*0209.0020.0002][.1C47.0020.0002][.0000.0024.0002] | 1C47 0000 0020 0024 0000 0002 0002 0000 0209 FFFF FFFF";

#[test]
fn keys_of_elements(rt: HostRuntime) -> Result<(), Fail> {
    for (weighting, cases) in [(NonIgnorable, NON_IGNORABLE), (Shifted, SHIFTED)] {
        for case in cases.lines() {
            check_elements(rt.alloc(), weighting, case)?;
        }
    }
    Ok(())
}

/// The key of a text, made at once.
fn check_made<L: Lookup>(
    alloc: Global,
    collator: &Collator<L>,
    settings: Settings,
    text: &Normal,
    wanted: &str,
) -> Result<(), Fail> {
    let made = key(alloc, collator, settings.weighting, settings.depth, text)?;
    same_bytes(alloc, &made, wanted, "a key made at once")
}

/// The key of a text, written after the key of another.
fn check_written<L: Lookup>(
    alloc: Global,
    collator: &Collator<L>,
    buffer: &mut KeyBuffer,
    text: &Normal,
    wanted: &str,
) -> Result<(), Fail> {
    buffer.write_text(collator, text)?;
    same_bytes(alloc, buffer.bytes(), wanted, "a key in a buffer")
}

fn check_text<L: Lookup>(
    alloc: Global,
    collator: &Collator<L>,
    settings: Settings,
    buffer: &mut KeyBuffer,
    text: &Normal,
    wanted: &str,
) -> Result<(), Fail> {
    check_made(alloc, collator, settings, text, wanted)?;
    check_written(alloc, collator, buffer, text, wanted)
}

fn check_key<L: Lookup>(
    alloc: Global,
    collator: &Collator<L>,
    settings: Settings,
    buffer: &mut KeyBuffer,
    points: &str,
    wanted: &str,
) -> Result<(), Fail> {
    let text = normal_of(alloc, points, collator.data)?;
    let checked = check_text(alloc, collator, settings, buffer, &text, wanted);
    drop(text);
    checked
}

/// Canonically equivalent texts with ` = ` between them, and their key.
fn check_keys<L: Lookup>(
    alloc: Global,
    collator: &Collator<L>,
    settings: Settings,
    buffer: &mut KeyBuffer,
    (texts, wanted): (&str, &str),
) -> Result<(), Fail> {
    for points in texts.split(" = ") {
        check_key(alloc, collator, settings, buffer, points, wanted)?;
    }
    Ok(())
}

/// Canonically equivalent texts, and their key under each weighting. Only one weighting is used.
fn check_case<L: Lookup>(
    alloc: Global,
    collator: &Collator<L>,
    settings: Settings,
    buffer: &mut KeyBuffer,
    case: &str,
) -> Result<(), Fail> {
    let (texts, keys) = halves(case)?;
    let (plain, shifted) = halves(keys)?;
    match settings.weighting {
        NonIgnorable => check_keys(alloc, collator, settings, buffer, (texts, plain)),
        Shifted => check_keys(alloc, collator, settings, buffer, (texts, shifted)),
    }
}

fn check_lines<L: Lookup>(
    alloc: Global,
    collator: &Collator<L>,
    settings: Settings,
    buffer: &mut KeyBuffer,
    cases: &str,
) -> Result<(), Fail> {
    for case in cases.lines() {
        check_case(alloc, collator, settings, buffer, case)?;
    }
    Ok(())
}

/// Cases of texts and their keys at a depth.
#[derive(Clone, Copy)]
struct Keys<'a> {
    depth: Depth,
    cases: &'a str,
}

impl<'a> Keys<'a> {
    fn check_under<L: Lookup>(
        &self,
        alloc: Global,
        collator: &Collator<L>,
        weighting: Weighting,
    ) -> Result<(), Fail> {
        let settings = Settings {
            weighting,
            depth: self.depth,
            numbers: Numbers::AsText,
        };
        let mut buffer = KeyBuffer::new(alloc, weighting, self.depth);
        let checked = check_lines(alloc, collator, settings, &mut buffer, self.cases);
        drop(buffer);
        checked
    }
}

impl<'a> Check for Keys<'a> {
    fn check<L: Lookup>(&self, alloc: Global, collator: &Collator<L>) -> Result<(), Fail> {
        self.check_under(alloc, collator, NonIgnorable)?;
        self.check_under(alloc, collator, Shifted)
    }
}

/// Cases of texts over both lookups of a table file.
fn check_texts(
    alloc: Global,
    depth: Depth,
    table: &str,
    data: &str,
    cases: &str,
) -> Result<(), Fail> {
    over_both(alloc, table, data, &Keys { depth, cases })
}

const WEIGHTS: &str = r"0061 | 1C47 0000 0020 0000 0002 | 1C47 0000 0020 0000 0002 0000 FFFF
0041 | 1C47 0000 0020 0000 0008 | 1C47 0000 0020 0000 0008 0000 FFFF
00E1 = 0061 0301 | 1C47 0000 0020 0024 0000 0002 0002 | 1C47 0000 0020 0024 0000 0002 0002 0000 FFFF FFFF
1EA1 0301 = 0061 0301 0323 = 0061 0323 0301 | 1C47 0000 0020 002C 0024 0000 0002 0002 0002 | 1C47 0000 0020 002C 0024 0000 0002 0002 0002 0000 FFFF FFFF FFFF
AC00 = 1100 1161 | FBC0 9100 FBC0 9161 0000 0020 0020 0000 0002 0002 | FBC0 9100 FBC0 9161 0000 0020 0020 0000 0002 0002 0000 FFFF FFFF FFFF FFFF
F900 = 8C48 | FB41 8C48 0000 0020 0000 0002 | FB41 8C48 0000 0020 0000 0002 0000 FFFF FFFF
20000 | FB84 8000 0000 0020 0000 0002 | FB84 8000 0000 0020 0000 0002 0000 FFFF FFFF
17001 | FB00 8001 0000 0020 0000 0002 | FB00 8001 0000 0020 0000 0002 0000 FFFF FFFF";

#[test]
fn keys_of_texts(rt: HostRuntime) -> Result<(), Fail> {
    check_texts(rt.alloc(), Depth::Weights, TABLE, DATA, WEIGHTS)
}

/// The code points of the spelling come last, three bytes each.
const IDENTICAL: &str = r" | 0000 0000 0000 | 0000 0000 0000 0000
0061 | 1C47 0000 0020 0000 0002 0000 00 00 61 | 1C47 0000 0020 0000 0002 0000 FFFF 0000 00 00 61
00E1 = 0061 0301 | 1C47 0000 0020 0024 0000 0002 0002 0000 00 00 61 00 03 01 | 1C47 0000 0020 0024 0000 0002 0002 0000 FFFF FFFF 0000 00 00 61 00 03 01
0020 0301 | 0209 0000 0020 0024 0000 0002 0002 0000 00 00 20 00 03 01 | 0000 0000 0000 0209 0000 00 00 20 00 03 01
2A7C5 | FBC5 A7C5 0000 0020 0000 0002 0000 02 A7 C5 | FBC5 A7C5 0000 0020 0000 0002 0000 FFFF FFFF 0000 02 A7 C5
10FFFF | FBE1 FFFF 0000 0020 0000 0002 0000 10 FF FF | FBE1 FFFF 0000 0020 0000 0002 0000 FFFF FFFF 0000 10 FF FF";

#[test]
fn identical_keys_of_texts(rt: HostRuntime) -> Result<(), Fail> {
    check_texts(rt.alloc(), Depth::Identical, TABLE, DATA, IDENTICAL)
}
