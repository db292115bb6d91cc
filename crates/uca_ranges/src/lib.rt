//! Ranges of keys: a database looks up texts by their keys, from a low end up to, and without, a high end.
//!
//! For example, the stored keys of `cafe`, `Cafe` and `café` are one range: level 1 is the same. One range finds all
//! keys whose first levels are given, or all whose level 1 begins with given weights. So it is for compact keys too.
//! The laws say that a range has exactly these keys, and that its low end tells the first levels.
#![tactic(auto)]

mod compact;
mod compact_levels;
pub mod laws;
mod levels;
mod plain;
mod stored;

pub use compact::{write_compact_letters_range, write_same_compact_letters_range};
pub use compact_levels::write_same_compact_levels_range;
pub use levels::write_same_levels_range;
pub use stored::{read_letters, write_letters_range, write_same_letters_range};
