//! The tables and the data files of the tests.

use std::alloc::AllocError;

/// A table of a letter and an accent.
pub const SHORT_TABLE: &str = "@version 1\n\
    0061 ; [.1C47.0020.0002]\n\
    0301 ; [.0000.0024.0002]\n";

/// The class of an accent.
pub const SHORT_DATA: &str = "@data 1\nccc 0301..0301 230\n";

/// The key of `a`, as a line.
pub const KEY_OF_A: &str = "1C47 0000 0020 0000 0002\n";

/// Adds a weight this many times, as it is printed.
pub fn push_weights(text: &mut String, weight: &str, count: usize) -> Result<(), AllocError> {
    for _ in 0..count {
        text.push_str(weight)?;
    }
    Ok(())
}

/// Adds the key of a line of this many `a` under `TABLE`, by three levels.
pub fn push_key(text: &mut String, count: usize) -> Result<(), AllocError> {
    push_weights(text, "1C47 ", count)?;
    text.push_str("0000 ")?;
    push_weights(text, "0020 ", count)?;
    text.push_str("0000")?;
    push_weights(text, " 0002", count)?;
    text.push('\n')
}

/// The files of a run, in memory.
#[derive(Clone, Copy)]
pub struct Files<'a> {
    /// The table, in parts.
    pub table: &'a [&'a str],
    /// The data file.
    pub data: &'a str,
    /// The lines.
    pub input: &'a [u8],
}

impl<'a> Files<'a> {
    /// These files with other lines.
    pub fn with_input(self, input: &'a [u8]) -> Files<'a> {
        Files { input, ..self }
    }
}

/// A letter and an accent, and no lines.
pub const SHORT: Files = Files {
    table: &[SHORT_TABLE],
    data: SHORT_DATA,
    input: b"",
};
