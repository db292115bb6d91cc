//! Comparison of two texts by one walk over their collation elements (`compare`; UTS #10, section 1.1), and of two
//! stored keys (`compare_keys`).
//!
//! It needs no code that makes keys, and is proved beside that.
#![tactic(auto)]

pub mod comparison;
pub mod element_stream;
pub mod front;
pub mod stored;
pub mod walk;

pub use comparison::{Compared, compare};
pub use stored::{compare_keys, level_count};
