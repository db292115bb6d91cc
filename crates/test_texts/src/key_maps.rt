//! Maps of keys to their positions, and what texts are matched as by them.

use crate::cases::words_of_case;
use crate::lookups::points_of;
use crate::samples::{CLASSES, data_of, normal_of, table_of};
use std::alloc::{AllocError, Global};
use std::test::Fail;
use test_kit::{halves, holds, same};
use uca_match::{KeyMap, Match, Matches, key_list};
use uca_text::Normal;
use uca_values::{Data, Table};

/// The map of the keys of a table to the positions of their rows.
fn map_of(alloc: Global, table: &Table) -> Result<KeyMap, AllocError> {
    KeyMap::new(alloc, &key_list(alloc, &table.rows)?)
}

/// The position of a key as a number, or `none`.
fn said(alloc: Global, keys: &KeyMap, key: &[char]) -> Result<String, AllocError> {
    match keys.position(key) {
        Some(position) => format!(in alloc; "{position}"),
        None => String::from_str(alloc, "none"),
    }
}

/// Some code points and their position.
fn check_position(alloc: Global, keys: &KeyMap, case: &str) -> Result<(), Fail> {
    let (numbers, wanted) = halves(case)?;
    let points = points_of(alloc, numbers)?;
    same(&said(alloc, keys, &points)?, wanted, case)
}

/// Some code points and their position, in each line of the cases.
fn check_positions(alloc: Global, keys: &KeyMap, cases: &str) -> Result<(), Fail> {
    for case in cases.lines() {
        check_position(alloc, keys, case)?;
    }
    Ok(())
}

/// Cases over the keys of a table.
fn check_keys(alloc: Global, table: &Table, cases: &str) -> Result<(), Fail> {
    let keys = map_of(alloc, table)?;
    let checked = check_positions(alloc, &keys, cases);
    drop(keys);
    checked
}

/// Cases over the keys of a table file.
fn check(alloc: Global, file: &str, cases: &str) -> Result<(), Fail> {
    let table = table_of(alloc, file)?;
    let checked = check_keys(alloc, &table, cases);
    drop(table);
    checked
}

const NO_KEYS: &str = "@version 1\n";

const NO_KEYS_CASES: &str = r" | none
0000 | none
0061 | none
10FFFF | none";

const ONE_KEY: &str = "@version 1\n\
    0061 0062 0063 ; [.0001.0020.0002]\n";

/// Neither the empty text nor a beginning of the key is a key, nor is what is longer than it.
const ONE_KEY_CASES: &str = r" | none
0061 | none
0061 0062 | none
0061 0062 0063 | 0
0061 0062 0063 0061 | none
0062 | none
0063 | none";

/// A key that begins another, in both orders.
const SHORT_FIRST: &str = "@version 1\n\
    0061 ; [.0001.0020.0002]\n\
    0061 0062 ; [.0002.0020.0002]\n";

const SHORT_FIRST_CASES: &str = r"0061 | 0
0061 0062 | 1
0062 | none";

const LONG_FIRST: &str = "@version 1\n\
    0061 0062 ; [.0002.0020.0002]\n\
    0061 ; [.0001.0020.0002]\n";

const LONG_FIRST_CASES: &str = r"0061 | 1
0061 0062 | 0
0062 | none";

/// Keys in falling order: the position is that in the list, and not that in the order of the keys.
const FALLING: &str = "@version 1\n\
    10FFFF ; [.0001.0020.0002]\n\
    4E00 3400 ; [.0002.0020.0002]\n\
    4E00 0061 ; [.0003.0020.0002]\n\
    0062 ; [.0004.0020.0002]\n\
    0061 0063 ; [.0005.0020.0002]\n\
    0061 0062 ; [.0006.0020.0002]\n\
    0000 ; [.0007.0020.0002]\n";

const FALLING_CASES: &str = r"0000 | 6
0061 | none
0061 0062 | 5
0061 0063 | 4
0061 0064 | none
0062 | 3
4E00 | none
4E00 0061 | 2
4E00 0062 | none
4E00 3400 | 1
10FFFF | 0";

#[test]
fn finds_positions(rt: HostRuntime) -> Result<(), Fail> {
    let tables = [
        (NO_KEYS, NO_KEYS_CASES),
        (ONE_KEY, ONE_KEY_CASES),
        (SHORT_FIRST, SHORT_FIRST_CASES),
        (LONG_FIRST, LONG_FIRST_CASES),
        (FALLING, FALLING_CASES),
    ];
    for (file, cases) in tables {
        check(rt.alloc(), file, cases)?;
    }
    Ok(())
}

/// A table file in the making, and cases of its keys.
#[derive(Drop)]
struct Made {
    file: String,
    cases: String,
}

/// Adds two keys: a letter, and the letter with U+0061 after it. The longer one has this position. With U+0062 it is
/// not a key, and the next code point begins no key.
fn add_letter(made: &mut Made, position: u32, code: u32) -> Result<(), AllocError> {
    let (next, beside) = (position.saturating_add(1), code.saturating_add(1));
    write!(
        made.file,
        "{code:04X} 0061 ; [.0001.0020.0002]\n{code:04X} ; [.0002.0020.0002]\n"
    )?;
    write!(
        made.cases,
        "{code:04X} 0061 | {position}\n{code:04X} | {next}\n{code:04X} 0062 | none\n{beside:04X} | none\n"
    )
}

/// 900 letters, each two code points after another from U+3000 on, in mixed order: 907 is a prime, so no remainder comes
/// twice. The list of first steps has 16 positions for each letter, but none from U+3400 on. At most 512 letters are
/// below U+3400, and the others are found by a search.
fn many_letters(alloc: Global) -> Result<Made, AllocError> {
    let mut made = Made {
        file: String::from_str(alloc, "@version 1\n")?,
        cases: String::new(alloc),
    };
    for number in 0..900 {
        add_letter(&mut made, 2 * number, 0x3000 + 2 * (7 * number % 907))?;
    }
    Ok(made)
}

#[test]
fn finds_positions_of_many_keys(rt: HostRuntime) -> Result<(), Fail> {
    let made = many_letters(rt.alloc())?;
    check(rt.alloc(), &made.file, &made.cases)
}

/// Adds a key, with `;` after it.
fn push_key(list: &mut String, key: &[char]) -> Result<(), AllocError> {
    for point in key {
        write!(list, "{:04X} ", u32::from(*point))?;
    }
    list.push_str("; ")
}

/// Keys, each with `;` after it.
fn listed(alloc: Global, keys: &[&[char]]) -> Result<String, AllocError> {
    let mut list = String::new(alloc);
    for key in keys {
        push_key(&mut list, key)?;
    }
    Ok(list)
}

/// The keys of a table.
fn list_of(alloc: Global, table: &Table) -> Result<String, AllocError> {
    listed(alloc, &key_list(alloc, &table.rows)?)
}

/// The keys of a table file.
fn check_list(alloc: Global, file: &str, wanted: &str) -> Result<(), Fail> {
    let table = table_of(alloc, file)?;
    let list = list_of(alloc, &table);
    drop(table);
    same(&list?, wanted, file)
}

#[test]
fn lists_keys(rt: HostRuntime) -> Result<(), Fail> {
    check_list(rt.alloc(), NO_KEYS, "")?;
    check_list(rt.alloc(), LONG_FIRST, "0061 0062 ; 0061 ; ")?;
    check_list(rt.alloc(), ONE_KEY, "0061 0062 0063 ; ")
}

/// The keys have the positions 0 to 7.
const KEYS: &str = "@version 1\n\
    0062 ; [.0001.0020.0002]\n\
    0061 0301 0300 ; [.0002.0020.0002]\n\
    0062 0061 0062 ; [.0003.0020.0002]\n\
    0301 ; [.0004.0020.0002]\n\
    0061 0301 ; [.0005.0020.0002]\n\
    0323 ; [.0006.0020.0002]\n\
    0061 ; [.0007.0020.0002]\n\
    0300 ; [.0008.0020.0002]\n";

/// Texts and what they are matched as, by UTS #10, S2.1 to S2.1.3: the position of a key, or a code point after `U+`,
/// with a space before each. U+0300 and U+0301 have the class 230, U+0323 and U+0324 the class 220.
const MATCHED: &str = r" |
0061 | 6
4E00 | U+4E00
0061 4E00 0062 | 6 U+4E00 0
-- the longest key that begins the text; 0062 0061 begins a key, but is none
0062 0061 0062 | 2
0062 0061 0061 | 0 6 6
0062 0061 | 0 6
0061 0301 0300 | 1
-- the text is matched as it is in Normalization Form D
00E1 | 4
1EA1 0301 | 4 5
-- 0323 is skipped, since 0061 0323 is no key; its class is lower, so it does not block 0301, and it follows the key
0061 0323 0301 | 4 5
0061 0323 0301 0062 | 4 5 0
-- a skipped mark that no key covers
0061 0324 0301 | 4 U+0324
-- 0301 was removed, so it does not block 0300
0061 0323 0301 0300 | 1 5
-- 0300 is skipped, since 0061 0300 is no key, and blocks 0301, which has the same class
0061 0300 0301 | 6 7 3
-- no key takes a mark that stands after another starter
0061 0323 0062 0301 | 6 5 0 3
0061 0301 0061 0323 0301 | 4 4 5
-- a code point that no key covers takes no marks
4E00 0301 | U+4E00 3
-- marks alone
0323 0301 | 5 3";

/// Adds what a part of a text is matched as.
fn push_part(words: &mut String, part: Match<usize>) -> Result<(), AllocError> {
    match part {
        Match::Key(position) => write!(words, " {position}"),
        Match::Unlisted(point) => write!(words, " U+{:04X}", u32::from(point)),
    }
}

/// What a text is matched as.
fn matched(alloc: Global, keys: &KeyMap, text: &Normal) -> Result<String, AllocError> {
    let mut words = String::new(alloc);
    for part in Matches::new(keys, text) {
        push_part(&mut words, part)?;
    }
    Ok(words)
}

/// A text, and what it is matched as.
fn check_match(alloc: Global, keys: &KeyMap, data: &Data, case: &str) -> Result<(), Fail> {
    if case.starts_with("--") {
        return Ok(());
    }
    let (points, wanted) = words_of_case(case)?;
    let text = normal_of(alloc, points, data)?;
    let found = matched(alloc, keys, &text);
    drop(text);
    same(&found?, wanted, case)
}

/// Nothing comes after the last match, however often it is asked for. No key covers the code point.
fn check_end(alloc: Global, keys: &KeyMap, data: &Data) -> Result<(), Fail> {
    let text = normal_of(alloc, "4E00", data)?;
    let mut matches = Matches::new(keys, &text);
    let first = matches.next().is_some();
    let second = matches.next().is_some();
    let third = matches.next().is_some();
    drop(text);
    holds(
        [first, second, third] == [true, false, false],
        "one match, and no more",
    )
}

/// Cases over keys, and the end of the matches.
fn check_cases(alloc: Global, keys: &KeyMap, data: &Data, cases: &str) -> Result<(), Fail> {
    for case in cases.lines() {
        check_match(alloc, keys, data, case)?;
    }
    check_end(alloc, keys, data)
}

/// Cases over the keys of a table.
fn check_texts(alloc: Global, data: &Data, table: &Table, cases: &str) -> Result<(), Fail> {
    let keys = map_of(alloc, table)?;
    let checked = check_cases(alloc, &keys, data, cases);
    drop(keys);
    checked
}

/// Cases over the keys of a table file.
fn check_matches(alloc: Global, data: &Data, file: &str, cases: &str) -> Result<(), Fail> {
    let table = table_of(alloc, file)?;
    let checked = check_texts(alloc, data, &table, cases);
    drop(table);
    checked
}

/// If there are no keys, each code point is matched alone.
const UNMATCHED: &str = r" |
00E1 0062 | U+0061 U+0301 U+0062";

fn check_all_matches(alloc: Global, data: &Data) -> Result<(), Fail> {
    check_matches(alloc, data, KEYS, MATCHED)?;
    check_matches(alloc, data, NO_KEYS, UNMATCHED)
}

#[test]
fn matches_texts(rt: HostRuntime) -> Result<(), Fail> {
    let data = data_of(rt.alloc(), CLASSES)?;
    let checked = check_all_matches(rt.alloc(), &data);
    drop(data);
    checked
}
