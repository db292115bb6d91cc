//! Writes texts by value.

ghost use Rattle.std.specs.Prelude.{◌≡◌, ◌++◌, ◌/◌, ◌-◌, ◌<◌, length, replicate, chars, OnOk};
ghost use Rattle.uca_numbers.specs.Numbers.{significant, number_code};
ghost use Rattle.uca_numbers.specs.Texts.{by_value};

use std::alloc::{AllocError, Allocator};

// Whether a text has a digit, U+0030 to U+0039. It looks at the bytes alone, eight at a time, so it is fast.
pub(crate) fn has_digit(text: &str) -> bool
    ensures { result ≡ Rattle.uca_numbers.specs.Texts.has_digit (chars text.now) }
{
    has_digit_byte(text.as_bytes())
}

// In UTF-8 the byte of a digit is part of no other code point.
fn has_digit_byte(bytes: &[u8]) -> bool
    ensures { result ≡ Rattle.uca_numbers.specs.Texts.has_digit bytes.now }
{
    let mut rest = bytes;
    while let Some((front, more)) = rest.split_first_chunk::<8>() {
        if has_digit_among(front) {
            return true;
        }
        rest = more;
    }
    match rest.split_first_chunk::<4>() {
        Some((front, more)) => has_digit_among(front) || has_digit_of_few(more),
        None => has_digit_of_few(rest),
    }
}

// As `has_digit_byte`, of so many bytes. It does not stop at a digit, so the compiler tests all of them at once.
#[inline(always)]
fn has_digit_among<const N: usize>(bytes: &[u8; N]) -> bool
    ensures { result ≡ Rattle.uca_numbers.specs.Texts.has_digit bytes.now }
{
    let mut found = false;
    for byte in bytes {
        found |= is_digit_byte(*byte);
    }
    found
}

// As `has_digit_byte`, byte by byte.
fn has_digit_of_few(bytes: &[u8]) -> bool
    ensures { result ≡ Rattle.uca_numbers.specs.Texts.has_digit bytes.now }
{
    bytes.iter().any(|byte| is_digit_byte(*byte))
}

fn is_digit_byte(byte: u8) -> bool
    ensures { result ≡ Rattle.uca_numbers.specs.Numbers.is_digit byte }
{
    b'0' <= byte && byte <= b'9'
}

/// Replaces the list by the code points of a text with each number written by value: `a42` becomes `a242`. The list's
/// memory is used again. A number of n digits gets n / 8 + 1 code points more, at most.
///
/// # Errors
///
/// An allocation failed.
pub fn write_by_value<A: Allocator>(
    made: &mut Vec<char, A>,
    points: &[char],
) -> Result<(), AllocError>
    ensures { OnOk result (made.new.items ≡ by_value points.now) }
{
    made.clear();
    made.reserve(points.len())?;
    // the digits from `start` on up to the place are a number that goes on
    let mut start = 0;
    for (place, point) in points.iter().enumerate() {
        if !is_digit(*point) {
            write_code(made, &points[start..place])?;
            made.push(*point)?;
            start = place + 1;
        }
    }
    write_code(made, &points[start..])
}

fn is_digit(point: char) -> bool
    ensures { result ≡ Rattle.uca_numbers.specs.Numbers.is_digit point }
{
    '0' <= point && point <= '9'
}

// Adds the code of a number. Of no digits it is empty.
fn write_code<A: Allocator>(made: &mut Vec<char, A>, number: &[char]) -> Result<(), AllocError>
    ensures { OnOk result (made.new.items ≡ made.old.items ++ number_code number.now) }
{
    if number.is_empty() {
        return Ok(());
    }
    let digits = significant(number);
    let more = digits.len() - 1;
    write_nines(made, more / 8)?;
    made.push(char::from(b'1' + (more % 8) as u8))?;
    made.extend_from_slice(digits)?;
    Ok(())
}

// A number without its leading zeros.
fn significant(number: &[char]) -> &[char]
    ensures { result.now ≡ Rattle.uca_numbers.specs.Numbers.significant number.now }
{
    let mut start = 0;
    while start + 1 < number.len() && number[start] == '0' {
        start += 1;
    }
    &number[start..]
}

// Adds so many nines.
fn write_nines<A: Allocator>(made: &mut Vec<char, A>, count: usize) -> Result<(), AllocError>
    ensures { OnOk result (made.new.items ≡ made.old.items ++ replicate count 0x39) }
{
    for _ in 0..count {
        made.push('9')?;
    }
    Ok(())
}
