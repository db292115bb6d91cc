//! Tables of cases written as text. A case is a line, so a field of it writes other bytes by escapes; a line
//! that begins with `--` is a remark.
//! What a test finds is written as text too, and compared with what the case says.

use std::alloc::{AllocError, Global};
use std::test::Fail;

/// How much of an escape was read.
#[derive(Clone, Copy)]
enum Escape {
    /// None of it: the next byte stands for itself.
    Outside,
    /// Its backslash.
    Begun,
    /// `\x`.
    Byte,
    /// `\x` and the upper half of the byte.
    Half(u8),
}

/// The value of a hexadecimal digit in upper case; 0 for any other byte.
fn digit(byte: u8) -> u8 {
    match byte {
        b'0'..=b'9' => byte - b'0',
        b'A'..=b'F' => byte - b'A' + 10,
        _ => 0,
    }
}

/// The byte that ends here.
fn escaped(escape: Escape, byte: u8) -> u8 {
    match (escape, byte) {
        (Escape::Half(upper), _) => upper | digit(byte),
        (Escape::Begun, b'n') => b'\n',
        (Escape::Begun, b't') => b'\t',
        (Escape::Begun, b'r') => b'\r',
        _ => byte,
    }
}

/// The bytes that a field of a case stands for. `\n`, `\t` and `\r` are LF, tab and carriage return, and `\x41` is the
/// byte 41. A `\` before another byte is left out, and all else stands for itself.
pub fn bytes_of(alloc: Global, field: &str) -> Result<Vec<u8>, AllocError> {
    let mut bytes = Vec::new(alloc);
    let mut escape = Escape::Outside;
    for byte in field.as_bytes() {
        let byte = *byte;
        escape = match (escape, byte) {
            (Escape::Outside, b'\\') => Escape::Begun,
            (Escape::Begun, b'x') => Escape::Byte,
            (Escape::Byte, _) => Escape::Half(digit(byte) << 4),
            (escape, _) => {
                bytes.push(escaped(escape, byte))?;
                Escape::Outside
            }
        };
    }
    Ok(bytes)
}

/// The code point of one to eight hexadecimal digits.
pub fn code_point(digits: &str) -> Result<char, Fail> {
    let number = u32::from_str_radix(digits, 16)?;
    Ok(char::from_u32(number).ok_or("a surrogate, or too great")?)
}

/// Whether a line of a table of cases is a remark and no case.
pub fn is_remark(line: &str) -> bool {
    line.starts_with("--")
}

/// The two parts of a case, around the first ` | `.
pub fn halves(case: &str) -> Result<(&str, &str), Fail> {
    Ok(case.split_once(" | ").ok_or("a case without its answer")?)
}

/// The three parts of a case, around the first two ` | `.
pub fn thirds(case: &str) -> Result<(&str, &str, &str), Fail> {
    let (first, rest) = halves(case)?;
    let (second, third) = halves(rest)?;
    Ok((first, second, third))
}

/// Fails with the case unless this holds.
pub fn holds(is_so: bool, case: &str) -> Result<(), Fail> {
    if is_so { Ok(()) } else { Err(Fail::new(case)) }
}

/// Fails unless the two are equal.
pub fn same(found: &str, wanted: &str, case: &str) -> Result<(), Fail> {
    if found == wanted {
        return Ok(());
    }
    Err(Fail::new(format_args!("{found}\nand not {wanted}\nat {case}")))
}

/// Fails unless the two are equal.
pub fn same_bytes(found: &[u8], wanted: &[u8], case: &str) -> Result<(), Fail> {
    holds(found == wanted, case)
}

/// The parts, put together in their order.
pub fn joined(alloc: Global, parts: &[&str]) -> Result<String, AllocError> {
    let mut text = String::new(alloc);
    for part in parts {
        text.push_str(part)?;
    }
    Ok(text)
}

/// A part this many times.
pub fn repeated(alloc: Global, part: &str, count: usize) -> Result<String, AllocError> {
    let mut text = String::new(alloc);
    for _ in 0..count {
        text.push_str(part)?;
    }
    Ok(text)
}
