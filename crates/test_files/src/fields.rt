//! Each function of the parts of lines on some texts.

use std::alloc::{AllocError, Global};
use std::test::Fail;
use test_kit::{bytes_of, halves, holds, same};
use uca_lines::fields::{
    class_number, code_point, code_point_range, cut_at, cut_word, four_digits,
    halves as dot_halves, line_text, six_digits, skip_blanks, trim, weight,
};

/// A text; without blanks at its front; at both ends; without its comment too; up to the first semicolon; up
/// to the first blank.
const TEXTS: &str = r"|||||
 \t ||||\x20\t\x20|
\ta b; \t|a b; \t|a b;|a b;|\ta b|
a #b# |a #b# |a #b#|a|a #b# |a
;a\tb|;a\tb|;a\tb|;a\tb||;a
 # a|# a|# a|| # a|
a\r|a\r|a\r|a\r|a\r|a\r";

/// A text, and what the functions leave of it.
fn parts_of(alloc: Global, text: &[u8]) -> Result<Vec<u8>, AllocError> {
    let mut parts = Vec::from_slice(alloc, text)?;
    for part in [
        skip_blanks(text),
        trim(text),
        line_text(text),
        cut_at(text, b';').0,
        cut_word(text).0,
    ] {
        parts.push(b'|')?;
        parts.extend_from_slice(part)?;
    }
    Ok(parts)
}

fn check_text(alloc: Global, case: &str) -> Result<(), Fail> {
    let (text, _parts) = case.split_once('|').ok_or("a case without its answer")?;
    let found = parts_of(alloc, &bytes_of(alloc, text)?)?;
    holds(found.as_slice() == bytes_of(alloc, case)?.as_slice(), case)
}

#[test]
fn texts(rt: HostRuntime) -> Result<(), Fail> {
    for case in TEXTS.lines() {
        check_text(rt.alloc(), case)?;
    }
    Ok(())
}

/// A word, and the code point, weight and class that it writes.
const NUMBERS: &str = r"0061 | Some('a') Some(97) None
00061 | Some('a') None None
10FFFF | Some('\u{10ffff}') None None
D7FF | Some('\u{d7ff}') Some(55295) None
E000 | Some('\u{e000}') Some(57344) None
D800 | None Some(55296) None
DFFF | None Some(57343) None
110000 | None None None
061 | None None None
0000061 | None None None
00e1 | None None None
FFFF | Some('\u{ffff}') Some(65535) None
01C47 | Some('᱇') None None
1 | None None Some(1)
230 | None None Some(230)
254 | None None Some(254)
255 | None None None
0 | None None None
01 | None None None
1000 | Some('က') Some(4096) None
E6 | None None None
 | None None None";

fn check_number(alloc: Global, case: &str) -> Result<(), Fail> {
    let (word, wanted) = halves(case)?;
    let word = word.as_bytes();
    let found = format!(in alloc;
        "{:?} {:?} {:?}",
        code_point(word),
        weight(word),
        class_number(word)
    )?;
    same(&found, wanted, case)
}

#[test]
fn numbers(rt: HostRuntime) -> Result<(), Fail> {
    for case in NUMBERS.lines() {
        check_number(rt.alloc(), case)?;
    }
    Ok(())
}

const RANGES: &str = r"0061..007A | Ok(('a', 'z'))
007A..0061 | Ok(('z', 'a'))
0300 | Err(NoDots)
0300.0314 | Err(NoDots)
0300...0314 | Err(CodePoint)
0300.. | Err(CodePoint)
..0314 | Err(CodePoint)
0300 .. 0314 | Err(CodePoint)";

fn check_range(alloc: Global, case: &str) -> Result<(), Fail> {
    let (text, wanted) = halves(case)?;
    let found = format!(in alloc; "{:?}", code_point_range(text.as_bytes()))?;
    same(&found, wanted, case)
}

#[test]
fn ranges(rt: HostRuntime) -> Result<(), Fail> {
    for case in RANGES.lines() {
        check_range(rt.alloc(), case)?;
    }
    let Some((front, back)) = dot_halves(b"a..b..c") else {
        return Err(Fail::new("no halves"));
    };
    holds(
        front == b"a".as_slice() && back == b"b..c".as_slice(),
        "other halves",
    )
}

#[test]
fn digits(_rt: HostRuntime) -> Result<(), Fail> {
    holds(
        four_digits(0x0123) == *b"0123"
            && four_digits(0x4567) == *b"4567"
            && four_digits(0x89AB) == *b"89AB"
            && four_digits(0xCDEF) == *b"CDEF"
            && six_digits(0x10_FFFD) == *b"10FFFD",
        "other digits",
    )
}
