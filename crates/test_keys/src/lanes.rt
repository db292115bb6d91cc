//! What `uca_lanes` finds in bytes: whether they are UTF-8, what two texts have in common, and runs of the same
//! pairs.

use std::alloc::Global;
use std::test::Fail;
use test_kit::{bytes_of, holds, repeated, thirds};
use uca_lanes::{
    are_same_narrow, are_same_short, is_utf8, marks_of_pairs, same_pairs, shared_of_longer,
    shared_of_narrow, shared_of_short,
};

/// Each row of table 3-7 of the Unicode Standard, by its first and its last code point.
const WELL_FORMED: &str = r"\x00
\x7F
\xC2\x80
\xDF\xBF
\xE0\xA0\x80
\xE0\xBF\xBF
\xE1\x80\x80
\xEC\xBF\xBF
\xED\x80\x80
\xED\x9F\xBF
\xEE\x80\x80
\xEF\xBF\xBF
\xF0\x90\x80\x80
\xF0\xBF\xBF\xBF
\xF1\x80\x80\x80
\xF3\xBF\xBF\xBF
\xF4\x80\x80\x80
\xF4\x8F\xBF\xBF";

/// Bytes that this table does not have. The first five have a byte 80 to BF too many, and the next five begin with a
/// byte that begins nothing. Then come second and later bytes just outside of their range, and last code points that
/// are cut.
const MALFORMED: &str = r"\x80
\xBF
\xC2\x80\x80
\xE1\x80\x80\x80
\xF1\x80\x80\x80\x80
\xC0\x80
\xC1\xBF
\xF5\x80\x80\x80
\xF8\x80\x80\x80
\xFF
\xC2\x7F
\xC2\xC0
\xDF\x7F
\xDF\xC2\x80
\xE0\x80\x80
\xE0\x9F\xBF
\xE0\xC0\x80
\xE1\x7F\x80
\xE1\xC0\x80
\xE1\x80\x7F
\xE1\x80\xC0
\xED\xA0\x80
\xED\xBF\xBF
\xEF\xBF\xC2\x80
\xF0\x80\x80\x80
\xF0\x8F\xBF\xBF
\xF0\xC0\x80\x80
\xF1\x7F\x80\x80
\xF1\x80\x7F\x80
\xF1\x80\xC0\x80
\xF1\x80\x80\x7F
\xF1\x80\x80\xC0
\xF4\x90\x80\x80
\xF4\xBF\xBF\xBF
\xC2
\xE0
\xE1
\xE1\x80
\xE0\xA0
\xED\x9F
\xF0\x90
\xF1
\xF1\x80
\xF1\x80\x80
\xF4\x8F\xBF";

/// How many ASCII bytes come before those of the two lists above.
const BEFORE: &[usize] = &[0, 1, 2, 3, 4, 5, 7, 8, 12, 13, 15, 16, 17, 29, 31, 32];

/// How many pairs of bytes there are, and which of them spells another number, if there are so many. Then the first
/// pair of a run, how many pairs it may have, and how many it has.
const RUNS: &[(usize, usize, usize, usize, usize)] = &[
    (0, 0, 0, 0, 0),
    (1, 1, 0, 1, 1),
    (1, 0, 0, 1, 0),
    (7, 3, 4, 3, 3),
    (8, 7, 0, 8, 7),
    (8, 8, 3, 5, 5),
    (9, 8, 0, 9, 8),
    (9, 8, 8, 1, 0),
    (16, 15, 2, 14, 13),
    (17, 16, 0, 17, 16),
    (17, 9, 10, 7, 7),
    (24, 20, 17, 7, 3),
    (27, 26, 16, 11, 10),
    (32, 31, 0, 32, 31),
    (40, 40, 30, 2, 2),
    (40, 31, 31, 1, 0),
];

/// A number that two bytes spell, and another one: the same bytes turned, one byte of two, or both.
const NUMBERS: &[(u16, u16)] = &[
    (0x0020, 0x2000),
    (0x0020, 0x0120),
    (0x0020, 0x0021),
    (0xFFFF, 0x0209),
    (0x0000, 0x0001),
];

/// Two texts, and how many bytes they have in common at their beginning. The first number is of texts of at most
/// fifteen bytes. The second is of the first sixteen bytes of texts of at most 32. The third is of the first eight: no
/// code point may have three bytes or more, and both texts go on after what they have in common. There is no number
/// (`-`) where a text is not UTF-8. One that ends within a code point is not, also where the other one begins with the
/// bytes that are missing.
const SHARED: &str = r" |  | 0 | 0 | -
 | a | 0 | 0 | -
cart | cast | 2 | 2 | 2
a | ab | 1 | 1 | -
ab | a | 1 | 1 | -
\x00 |  | 0 | 0 | -
a\x00 | a | 1 | 1 | -
\x00\x00 | \x00 | 1 | 1 | -
\xC3\xA9 | \xC3\xA8 | 1 | 1 | 1
abcdefgh | abcdefgh | 8 | 8 | -
abcdefgh | abcdefghi | 8 | 8 | -
abcdefghijklmno | abcdefghijklmno | 15 | 15 | 8
abcdefghijklmno | abcdefghijklmnp | 14 | 14 | 8
abcdefghijklmno | b | 0 | 0 | 0
abcdefghijklmnop |  | - | 0 | -
 | abcdefghijklmnop | - | 0 | -
abcdefghijklmnop | abcdefghijklmnop | - | 16 | 8
\xC3 | \xA9 | - | - | -
abcdefghijklmn\xC3 | \xA9 | - | - | -
a | a\x80 | - | - | -
a\xFF | a | - | - | -
\xED\xA0\x80 | \xED\xA0\x80 | - | - | -
a | \xE0\x80\x80 | - | - | -
a | \xA9 | - | - | -
b | abcdefghijklmn\xC3 | - | - | -
b | abcdefghijkl\xE1\x80\x80 | 0 | 0 | -
\xF0\x9F\x98\x80 | \xF0\x9F\x98\x81 | 3 | 3 | -
\xF0\x9F\x98\x80 | \xF4\x90\x80\x80 | - | - | -
abcdefg\xC3\xA9 | abcdefg\xC3\xA8 | 8 | 8 | 8
abc\xC3\xA9fghijkl | abc\xC3\xA8fghijkl | 4 | 4 | 4
abcdefg\xC3 | b | - | - | -
\xA9bcdefgh | b | - | - | -
b | abcdefg\xC3ijkl | - | - | -
b | abcd\xA9fghijkl | - | - | -
b | abcdefg\xC1\x80 | - | - | -
\xE1\x80 | b | - | - | -
abcdefg\xC3\xA9jklmno | b | 0 | 0 | 0
abcdefg\xC3ijklmno | b | - | - | -
b | abcdefg\xC3ijklmno | - | - | -
abcdefg\xC3ijklmnop | b | - | - | -
abcdefghijklmno\xC3\xA9 | abcd | - | 4 | -
b | abcdefghijklmno\xC3q | - | - | -
abcdefghijklmnopqrstuvwxyzabcd\xC3\xA9 | a\xC3\xA9 | - | 1 | 1
abcdefghijklmnopqrstuvwxyzabcde\xC3 | b | - | - | -
abcdefghijklmnopqrstuvwxyzabcdefg | b | - | - | -
b | abcdefghijklm\xE0\xA0\x80q | - | 0 | -
a | a\x00 | 1 | 1 | -
Sonnenaufgang | Sonnenblumenfeld | - | 6 | 6
Sonnenblumenfeld | Sonnenblumenfelder | - | 16 | 8
abcdefghijklmnopqr | abcdefghijklmnopqs | - | 16 | 8
abcdefghijklmnopqrstuvwxyzabcdef | b | - | 0 | 0
b | abcdefghijklmnopqrstuvwxyzabcdef | - | 0 | 0
b | abcdefghijklmnopqrstuvwxyzabcdefg | - | - | -
abcdefghijklmno\xC3\xA9 | abcdefghijklmno\xC3\xA8 | - | 16 | 8
abcdefghijklm\xE0\xA0\x80xyz | abcdefghijklm\xE0\xA0\x81xyz | - | 15 | -
abcdefghijklmnopq\xC3 | a | - | - | -
a | abcdefghijklmnopq\xC3 | - | - | -
abcdefghijklmno\x80q | a | - | - | -
a | abcdefghijklmno\xC3\xC3\xA9 | - | - | -
a | a\xFF | - | - | -";

/// Two byte strings, and whether they are the same text of at most 32 bytes. A narrow one has at most fifteen, and no
/// code point of three bytes or more. Fewer than eight bytes are compared as one number. Up to sixteen are compared as
/// two, and more as their first sixteen and their last sixteen.
const SAME: &str = r" |  | narrow
cart | cart | narrow
cart | cast | -
cart | carts | -
a | a\x00 | -
\x00 |  | -
\xC3\xA9 | \xC3\xA9 | narrow
\xDF\xBF | \xDF\xBF | narrow
\xE0\xA0\x80 | \xE0\xA0\x80 | short
abcdefghijklm\xE0\xA0\x80 | abcdefghijklm\xE0\xA0\x80 | short
\xE0\xA0 | \xE0\xA0 | -
\xC1\xBF | \xC1\xBF | -
\xC1 | \xC1 | -
\xC3 | \xC3 | -
abcdefgh\x80 | abcdefgh\x80 | -
abcdefghi | abcdefghi | narrow
abcdefghi | bbcdefghi | -
abcdefghijklmno | abcdefghijklmno | narrow
abcdefghijklmnop | abcdefghijklmnop | short
abcdefghijklmnop | abcdefghijklmnoq | -
abcdefghijklmno\xC3 | abcdefghijklmno\xC3 | -
abcdefghijklmnopq | abcdefghijklmnopq | short
abcdefghijklmnopq | bbcdefghijklmnopq | -
abcdefghijklmnopq | abcdefghijklmnopr | -
abcdefghijklmno\xC3\xA9 | abcdefghijklmno\xC3\xA9 | short
abcdefghijklmnopq\xC3 | abcdefghijklmnopq\xC3 | -
abcdefghijklmnopqrstuvwxyzabcd\xC3\xA9 | abcdefghijklmnopqrstuvwxyzabcd\xC3\xA9 | short
abcdefghijklmnopqrstuvwxyzabcdef | abcdefghijklmnopqrstuvwxyzabcdeg | -
abcdefghijklmnopqrstuvwxyzabcdef | abcdefghijklmnopqrstuvwxyzabcde | -
abcdefghijklmnopqrstuvwxyzabcdefg | abcdefghijklmnopqrstuvwxyzabcdefg | -";

/// The number of a field, if there is one.
fn number_of(field: &str) -> Result<Option<usize>, Fail> {
    if field == "-" {
        return Ok(None);
    }
    Ok(Some(field.parse::<usize>()?))
}

fn check_shared(alloc: Global, case: &str) -> Result<(), Fail> {
    let (left, right, wanted) = thirds(case)?;
    let (left, right) = (bytes_of(alloc, left)?, bytes_of(alloc, right)?);
    let (short, longer, narrow) = thirds(wanted)?;
    holds(shared_of_short(&left, &right) == number_of(short)?, case)?;
    holds(shared_of_longer(&left, &right) == number_of(longer)?, case)?;
    holds(shared_of_narrow(&left, &right) == number_of(narrow)?, case)
}

fn check_same(alloc: Global, case: &str) -> Result<(), Fail> {
    let (left, right, wanted) = thirds(case)?;
    let (left, right) = (bytes_of(alloc, left)?, bytes_of(alloc, right)?);
    holds(are_same_short(&left, &right) == (wanted != "-"), case)?;
    holds(are_same_narrow(&left, &right) == (wanted == "narrow"), case)
}

#[test]
fn finds_what_two_texts_share(rt: HostRuntime) -> Result<(), Fail> {
    for case in SHARED.lines() {
        check_shared(rt.alloc(), case)?;
    }
    for case in SAME.lines() {
        check_same(rt.alloc(), case)?;
    }
    Ok(())
}

/// Bytes after ASCII ones, and the same before an ASCII one too.
fn check_utf8_of(alloc: Global, part: &[u8], wanted: bool) -> Result<(), Fail> {
    for count in BEFORE {
        let mut bytes = Vec::new(alloc);
        bytes.resize(*count, b'a')?;
        bytes.extend_from_slice(part)?;
        holds(is_utf8(bytes.as_slice()) == wanted, "at the end")?;
        bytes.push(b'a')?;
        holds(is_utf8(bytes.as_slice()) == wanted, "before ASCII")?;
    }
    Ok(())
}

/// A text that begins and ends with a code point of two bytes is none without its first byte, or its last one.
fn check_ends(text: &str) -> Result<(), Fail> {
    let bytes = text.as_bytes();
    let first = bytes.get(1..).ok_or("no first byte")?;
    let last = bytes
        .get(..bytes.len().saturating_sub(1))
        .ok_or("no last byte")?;
    let is_so = is_utf8(bytes) && !is_utf8(first) && !is_utf8(last);
    holds(is_so, "code points of two bytes")
}

/// Each length from 0 to 36 is reached: some are judged in ways of their own.
fn check_utf8(alloc: Global) -> Result<(), Fail> {
    holds(is_utf8(&[]), "no bytes")?;
    for part in WELL_FORMED.lines() {
        check_utf8_of(alloc, &bytes_of(alloc, part)?, true)?;
    }
    for part in MALFORMED.lines() {
        check_utf8_of(alloc, &bytes_of(alloc, part)?, false)?;
    }
    for count in 1..20usize {
        check_ends(&repeated(alloc, "\u{e1}", count)?)?;
    }
    Ok(())
}

/// The run of pairs from this one on, where all pairs spell one number, but one pair that spells another.
fn run_of_pairs(
    alloc: Global,
    pairs: (usize, usize),
    numbers: (u16, u16),
    from: usize,
    count: usize,
) -> Result<Option<usize>, Fail> {
    let mut bytes = Vec::new(alloc);
    for pair in 0..pairs.0 {
        let number = if pair == pairs.1 {
            numbers.1
        } else {
            numbers.0
        };
        bytes.extend_from_slice(&number.to_be_bytes())?;
    }
    if bytes.len() % 2 != 0 || from >= 64 {
        return Ok(None);
    }
    let marks = marks_of_pairs(bytes.as_slice(), numbers.0);
    Ok(Some(same_pairs(marks, from, count)))
}

fn check_runs(alloc: Global) -> Result<(), Fail> {
    for (all, apart, from, count, wanted) in RUNS {
        for numbers in NUMBERS {
            let found = run_of_pairs(alloc, (*all, *apart), *numbers, *from, *count)?;
            holds(found == Some(*wanted), "a run of pairs")?;
        }
    }
    Ok(())
}

#[test]
fn finds_utf8_and_runs(rt: HostRuntime) -> Result<(), Fail> {
    check_utf8(rt.alloc())?;
    check_runs(rt.alloc())
}
