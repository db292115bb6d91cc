//! Texts, and what they are by value.

use std::alloc::{AllocError, Global};
use std::test::Fail;
use test_kit::{halves, holds, same};
use uca_numbers::{has_no_digit, write_by_value};

/// Texts, and what is written of them. Before the digits of a number, without leading zeros, comes how many they are:
/// 1 to 8, and 91 for nine digits.
const WRITTEN: &str = r"file 10 | file 210
1.10 | 11.210
007 | 17
000 | 10
99999999 | 899999999
100000000 | 91100000000
12345678901234567 | 99112345678901234567
7a08 | 17a18
٣ ½ 3 | ٣ ½ 13
a-b | a-b";

/// A text by value, in the memory of an earlier one.
fn by_value(alloc: Global, made: &mut Vec<char>, text: &str) -> Result<String, AllocError> {
    let mut points = Vec::new(alloc);
    for point in text.chars() {
        points.push(point)?;
    }
    write_by_value(made, &points)?;
    let mut written = String::new(alloc);
    for point in made.iter() {
        written.push(*point)?;
    }
    Ok(written)
}

#[test]
fn writes_texts_by_value(rt: HostRuntime) -> Result<(), Fail> {
    let alloc = rt.alloc();
    let mut made = Vec::new(alloc);
    for case in WRITTEN.lines() {
        let (text, wanted) = halves(case)?;
        same(&by_value(alloc, &mut made, text)?, wanted, case)?;
    }
    Ok(())
}

#[test]
fn finds_digits(_rt: HostRuntime) -> Result<(), Fail> {
    for text in ["0", "9", "a7", "\u{e9}5", "7\u{301}"] {
        holds(!has_no_digit(text), text)?;
    }
    for text in ["", "a", "/", ":", "\u{663}", "\u{b2}"] {
        holds(has_no_digit(text), text)?;
    }
    Ok(())
}
