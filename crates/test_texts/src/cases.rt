//! Tables of cases written as text, a case a line. What a test finds is written as text too, and compared with
//! what the case says.

use std::alloc::{AllocError, Global};
use std::test::Fail;
use test_kit::{code_point, halves, same};
use uca_weights::Weighting;

/// The text of some code points, each in hexadecimal digits.
pub fn text_of(alloc: Global, points: &str) -> Result<String, Fail> {
    let mut text = String::new(alloc);
    for digits in points.split_whitespace() {
        text.push(code_point(digits)?)?;
    }
    Ok(text)
}

/// Adds the bytes of a group in hexadecimal digits: four digits are two bytes, and two are one.
fn push_group(bytes: &mut Vec<u8>, digits: &str) -> Result<(), Fail> {
    let [_, _, high, low] = u32::from_str_radix(digits, 16)?.to_be_bytes();
    let group = [high, low];
    let unused = if digits.len() == 4 { 0 } else { 1 };
    Ok(bytes.extend_from_slice(&group[unused..])?)
}

/// The bytes of some groups.
pub fn bytes_of(alloc: Global, groups: &str) -> Result<Vec<u8>, Fail> {
    let mut bytes = Vec::new(alloc);
    for digits in groups.split_whitespace() {
        push_group(&mut bytes, digits)?;
    }
    Ok(bytes)
}

/// Adds a byte in hexadecimal digits, and a space before it where a group begins.
fn push_byte(groups: &mut String, place: usize, byte: u8) -> Result<(), AllocError> {
    let space = if place > 0 && place % 2 == 0 { " " } else { "" };
    write!(groups, "{space}{byte:02X}")
}

/// Bytes as groups of two in hexadecimal digits.
fn groups_of(alloc: Global, bytes: &[u8]) -> Result<String, AllocError> {
    let mut groups = String::new(alloc);
    for (place, byte) in bytes.iter().enumerate() {
        push_byte(&mut groups, place, *byte)?;
    }
    Ok(groups)
}

/// The code points of a case and the bytes of a key under the weighting. The case has the key under `NonIgnorable` first.
pub fn points_and_key(weighting: Weighting, case: &str) -> Result<(&str, &str), Fail> {
    let (points, keys) = halves(case)?;
    let (plain, shifted) = halves(keys)?;
    match weighting {
        Weighting::NonIgnorable => Ok((points, plain)),
        Weighting::Shifted => Ok((points, shifted)),
    }
}

/// A text in code points, and what is said of it with a space before each word.
pub fn words_of_case(case: &str) -> Result<(&str, &str), Fail> {
    Ok(case.split_once(" |").ok_or("a case without its answer")?)
}

/// Fails unless the bytes are those of the groups.
pub fn same_bytes(alloc: Global, found: &[u8], groups: &str, case: &str) -> Result<(), Fail> {
    let wanted = bytes_of(alloc, groups)?;
    if found == wanted.as_slice() {
        return Ok(());
    }
    same(&groups_of(alloc, found)?, groups, case)
}
