//! Compact sort keys: a shorter form of stored keys that keeps their order.
//!
//! Level 1 is always written, and a later level only if it is not plain. A run of common weights is one byte, and every
//! other weight is one byte, two or three, by a book: the starts of cells of weights. `KeyCompacter` makes compact keys
//! of stored keys, with no text and no table, and `KeyExpander` makes stored keys of these again. The laws say that the
//! order stays, and that keys with one compact key are one.
#![tactic(auto)]

mod book_forms;
mod buffers;
mod cells;
mod compacter;
mod expander;
mod key_buffers;
mod key_reader;
mod later_level;
pub mod laws;
mod letters;
mod level_bytes;
mod level_reader;
mod levels;
mod plain;
mod stored;
mod stored_bytes;
mod written_levels;

pub use compacter::KeyCompacter;
pub use expander::KeyExpander;
pub use level_bytes::LevelBytes;
pub use levels::{LevelForm, push_level};
