//! What programs use of sort keys (UTS #10, section 7.3) and of comparison. This crate passes on the calls and types of
//! `uca_key_writer`, `uca_comparison` and `uca_text_comparer`, with the laws of keys.
//!
//! A key has the levels of the collation elements of a text in order, with an identical level after them or without.
//! Keys compare as bytes, and give the order of their texts. Two texts also compare without keys.
#![tactic(auto)]

pub mod laws;

pub use uca_comparison::{Compared, compare, compare_keys, level_count};
pub use uca_key_writer::{KeyBuffer, KeyWriter, key, key_of};
pub use uca_order::weighting::{is_after_variable, weights_of};
pub use uca_text_comparer::TextComparer;
