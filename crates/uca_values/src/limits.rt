//! Limits that more than one crate uses.

/// How many rows a table may have.
pub const MOST_ROWS: usize = 200_000;

/// How many elements a row may have.
pub const MOST_ELEMENTS: usize = 32;

/// How many code points the key of a row may have, and a text of rules in Normalization Form D.
pub const MOST_CODE_POINTS: usize = 16;
