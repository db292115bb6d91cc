//! Keys of texts whose numbers are ordered by value: what is true of them, and under which tables.
//!
//! A text is put into Normalization Form D, and then written by value (`uca_numbers`), or the other way round: both give
//! the same (`uca_digits`). Its elements and its limits are those of what was written. So canonically equivalent texts
//! stay equal. At an identical level the text itself decides, so that `7` and `007` differ there alone.
//!
//! Numbers need a table that orders them: `check_numbers` tests it. Each digit has a row of one element that is not
//! variable, the primary weights rise from 0 to 9, and no other key has a digit.
#![tactic(auto)]

pub mod laws;
mod tables;

pub use tables::{UnorderedDigits, check_number_rows, check_numbers};
