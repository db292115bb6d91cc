//! What lookups say of code points, over tables of a few rows and over one of many. A list of rows, a trie and a trie of packed rows
//! say the same.

use crate::samples::{packed_table_of, table_of};
use std::alloc::{AllocError, Global};
use std::test::Fail;
use test_kit::{code_point, halves, holds, same};
use uca_match::{Lookup, RowList, Trie, row_of};
use uca_values::Table;
use uca_weights::Element;

/// What a lookup says of some code points. `nothing`: no key begins with them. `beginning`: they are not a
/// key, but there is a node for them. The primary weight of the first element: they are a key.
fn said<L: Lookup>(alloc: Global, lookup: &L, points: &[char]) -> Result<String, AllocError> {
    let mut node = lookup.root();
    for point in points {
        match lookup.step(node, *point) {
            Some(next) => node = next,
            None => return String::from_str(alloc, "nothing"),
        }
    }
    match lookup.elements(node) {
        Some([first, ..]) => format!(in alloc; "{:04X}", first.primary),
        Some([]) => String::from_str(alloc, "a key without elements"),
        None => String::from_str(alloc, "beginning"),
    }
}

/// Some code points, each in hexadecimal digits.
pub fn points_of(alloc: Global, numbers: &str) -> Result<Vec<char>, Fail> {
    let mut points = Vec::new(alloc);
    for digits in numbers.split_whitespace() {
        points.push(code_point(digits)?)?;
    }
    Ok(points)
}

/// The elements of a row, if there is one: the primary weight of the first.
fn check_row(alloc: Global, row: Option<&[Element]>, wanted: &str, case: &str) -> Result<(), Fail> {
    match row {
        Some([first, ..]) => same(&format!(in alloc; "{:04X}", first.primary)?, wanted, case),
        _ => holds(wanted == "beginning" || wanted == "nothing", case),
    }
}

/// Some code points, and what the lookup says of them, step by step and at once.
fn check_case<L: Lookup>(alloc: Global, lookup: &L, case: &str) -> Result<(), Fail> {
    let (numbers, wanted) = halves(case)?;
    let points = points_of(alloc, numbers)?;
    same(&said(alloc, lookup, &points)?, wanted, case)?;
    check_row(alloc, row_of(lookup, &points), wanted, case)
}

/// Cases over a lookup.
fn check_lookup<L: Lookup>(alloc: Global, lookup: &L, cases: &str) -> Result<(), Fail> {
    for case in cases.lines() {
        check_case(alloc, lookup, case)?;
    }
    Ok(())
}

/// Cases over a trie of a table.
fn check_trie(alloc: Global, table: &Table, cases: &str) -> Result<(), Fail> {
    let trie = Trie::new(alloc, table)?;
    let checked = check_lookup(alloc, &trie, cases);
    drop(trie);
    checked
}

/// Cases over both lookups of a table.
fn check_both(alloc: Global, table: &Table, cases: &str) -> Result<(), Fail> {
    check_lookup(alloc, &RowList::new(table), cases)?;
    check_trie(alloc, table, cases)
}

/// Cases over a trie that takes over the rows of a table file.
fn check_packed(alloc: Global, file: &str, cases: &str) -> Result<(), Fail> {
    let (header, trie) = Trie::of_table(alloc, packed_table_of(alloc, file)?)?;
    drop(header);
    let checked = check_lookup(alloc, &trie, cases);
    drop(trie);
    checked
}

/// Cases over all lookups of a table file.
fn check(alloc: Global, file: &str, cases: &str) -> Result<(), Fail> {
    let table = table_of(alloc, file)?;
    let checked = check_both(alloc, &table, cases);
    drop(table);
    checked?;
    check_packed(alloc, file, cases)
}

/// A key of 16 code points.
const LONG_KEY: &str = "@version 1\n\
    0061 0062 0063 0064 0065 0066 0067 0068 0069 006A 006B 006C 006D 006E 006F 0070 ; [.0007.0020.0002]\n";

const LONG_KEY_CASES: &str = r" | beginning
0061 | beginning
0061 0062 | beginning
0061 0062 0063 | beginning
0061 0062 0063 0064 | beginning
0061 0062 0063 0064 0065 | beginning
0061 0062 0063 0064 0065 0066 | beginning
0061 0062 0063 0064 0065 0066 0067 | beginning
0061 0062 0063 0064 0065 0066 0067 0068 | beginning
0061 0062 0063 0064 0065 0066 0067 0068 0069 | beginning
0061 0062 0063 0064 0065 0066 0067 0068 0069 006A | beginning
0061 0062 0063 0064 0065 0066 0067 0068 0069 006A 006B | beginning
0061 0062 0063 0064 0065 0066 0067 0068 0069 006A 006B 006C | beginning
0061 0062 0063 0064 0065 0066 0067 0068 0069 006A 006B 006C 006D | beginning
0061 0062 0063 0064 0065 0066 0067 0068 0069 006A 006B 006C 006D 006E | beginning
0061 0062 0063 0064 0065 0066 0067 0068 0069 006A 006B 006C 006D 006E 006F | beginning
0061 0062 0063 0064 0065 0066 0067 0068 0069 006A 006B 006C 006D 006E 006F 0070 | 0007
0061 0062 0063 0064 0065 0066 0067 0068 0069 006A 006B 006C 006D 006E 006F 0070 0071 | nothing
0062 | nothing
0061 0063 | nothing";

/// A key that begins another, in both orders.
const SHORT_FIRST: &str = "@version 1\n\
    0061 ; [.0001.0020.0002]\n\
    0061 0062 ; [.0002.0020.0002]\n";

const LONG_FIRST: &str = "@version 1\n\
    0061 0062 ; [.0002.0020.0002]\n\
    0061 ; [.0001.0020.0002]\n";

const TWO_KEYS_CASES: &str = r" | beginning
0061 | 0001
0061 0062 | 0002
0062 | nothing";

const NO_KEYS: &str = "@version 1\n";

const NO_KEYS_CASES: &str = r" | beginning
0000 | nothing
0061 | nothing
10FFFF | nothing";

/// Letters on both sides of a limit. Below it a trie over them takes its first step by a list: seven of them
/// begin keys, so the list has the positions U+0000 to U+006F. One is not a key, but begins one.
const FIRST_STEPS: &str = "@version 1\n\
    4E00 33FF ; [.0001.0020.0002]\n\
    10FFFF ; [.0002.0020.0002]\n\
    3400 ; [.0003.0020.0002]\n\
    33FF 0061 ; [.0004.0020.0002]\n\
    0000 ; [.0005.0020.0002]\n\
    33FF ; [.0006.0020.0002]\n\
    10FFFF 10FFFF ; [.0007.0020.0002]\n\
    33FF 3400 ; [.0008.0020.0002]\n\
    3400 0061 ; [.0009.0020.0002]\n\
    0000 0000 ; [.000A.0020.0002]\n\
    4E00 3400 ; [.000B.0020.0002]\n\
    0070 ; [.000C.0020.0002]\n\
    006F ; [.000D.0020.0002]\n";

const FIRST_STEPS_CASES: &str = r" | beginning
0000 | 0005
0000 0000 | 000A
0000 0001 | nothing
0001 | nothing
33FE | nothing
33FF | 0006
33FF 0061 | 0004
33FF 33FF | nothing
33FF 3400 | 0008
3400 | 0003
3400 0061 | 0009
3400 3400 | nothing
3401 | nothing
4DFF | nothing
4E00 | beginning
4E00 0061 | nothing
4E00 33FF | 0001
4E00 3400 | 000B
4E01 | nothing
10FFFE | nothing
10FFFF | 0002
10FFFF 10FFFE | nothing
10FFFF 10FFFF | 0007
0061 | nothing
006E | nothing
006F | 000D
0070 | 000C
0071 | nothing";

#[test]
fn finds_keys_and_what_begins_them(rt: HostRuntime) -> Result<(), Fail> {
    let tables = [
        (LONG_KEY, LONG_KEY_CASES),
        (SHORT_FIRST, TWO_KEYS_CASES),
        (LONG_FIRST, TWO_KEYS_CASES),
        (NO_KEYS, NO_KEYS_CASES),
        (FIRST_STEPS, FIRST_STEPS_CASES),
    ];
    for (file, cases) in tables {
        check(rt.alloc(), file, cases)?;
    }
    Ok(())
}

/// A table file in the making, and its cases.
#[derive(Drop)]
struct Made {
    file: String,
    cases: String,
}

impl Made {
    fn new(alloc: Global) -> Result<Made, AllocError> {
        Ok(Made {
            file: String::from_str(alloc, "@version 1\n")?,
            cases: String::new(alloc),
        })
    }

    /// Adds a key that ends in the code point of this number. No key ends so in the next code point.
    fn add(&mut self, front: &str, code: u32, weight: u16) -> Result<(), AllocError> {
        let beside = code.saturating_add(1);
        write!(self.file, "{front}{code:04X} ; [.{weight:04X}.0020.0002]\n")?;
        write!(
            self.cases,
            "{front}{code:04X} | {weight:04X}\n{front}{beside:04X} | nothing\n"
        )
    }
}

#[test]
fn finds_each_of_many_followers(rt: HostRuntime) -> Result<(), Fail> {
    // Each number from 1 to 100 is one multiple modulo 101: in rising order, falling, and mixed.
    for factor in [1, 100, 37] {
        let mut made = Made::new(rt.alloc())?;
        for number in 1..=100u16 {
            let code = 0x4E00 + 3 * (factor * u32::from(number) % 101);
            made.add("0078 ", code, number)?;
        }
        made.cases.push_str("0078 | beginning\n")?;
        check(rt.alloc(), &made.file, &made.cases)?;
    }
    Ok(())
}

/// 30,000 letters: every other code point from U+0100 on, around the surrogates, in mixed order.
fn many_letters(alloc: Global) -> Result<Made, AllocError> {
    let mut made = Made::new(alloc)?;
    for number in 0..30_000u16 {
        let code = 0x100 + 2 * (7 * u32::from(number) % 30_011);
        let code = if code < 0xD800 { code } else { code + 0x800 };
        made.add("", code, number + 1)?;
    }
    Ok(made)
}

/// Cases over a trie alone: a list of so many rows takes long.
fn check_many(alloc: Global, made: &Made) -> Result<(), Fail> {
    let table = table_of(alloc, &made.file)?;
    let checked = check_trie(alloc, &table, &made.cases);
    drop(table);
    checked
}

#[test]
fn finds_each_of_many_letters(rt: HostRuntime) -> Result<(), Fail> {
    let made = many_letters(rt.alloc())?;
    check_many(rt.alloc(), &made)
}
