//! Numbers by value: texts with their numbers written so that a collation orders them by value, if its table orders
//! numbers (`check_numbers` of `uca_number_keys`).
//!
//! `file 9` comes after `file 10`, since 9 comes after 1. Here `file 9` is written `file 19` and `file 10` is written
//! `file 210`: before the digits comes how many they are. So the longer number is greater, and of two numbers of one
//! length the first digit that differs decides. Leading zeros are left out: `007` is written `17`, as `7` is.
//!
//! The code of a length is made of digits too, so that the text is collated as any other. Lengths up to 8 are 1 to 8,
//! and then come 91 to 98, 991 to 998 and so on. No code begins another one, so what follows a number has no part.
//!
//! A number is a run of the digits U+0030 to U+0039, however long. Signs, points and other digits are not part of one.
#![tactic(auto)]

pub mod laws;
mod writing;
mod written_text;

pub use writing::write_by_value;
pub use written_text::{WrittenText, has_no_digit};
