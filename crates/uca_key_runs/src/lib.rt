//! The runs that go by the sort keys of lines: they print keys, sort lines by them, or compare two texts. Laws of the keys of lines
//! are here too.
//!
//! A run of keys:
//!
//! ```text
//! table bytes ─> read_packed_table ─> PackedTable ─> Trie, Header ─┐
//! data bytes ──> read_data ──> Data ─────────┬─────────────────────┴────> Collator
//!                                            │                  │
//! input bytes ─> LineReader ─> line ─> UTF-8 ┴─> Normal ─────> Elements
//!                                                               │
//! output bytes <─ Sink <─ OutputBuffer <─ printed groups <─ KeyBuffer (asked, levels)
//! ```
//!
//! `InputLines` (`uca_run_parts`) is its part from the input to the line as UTF-8, and `KeyWriter` (`uca_key_writer`)
//! its part from there to the key. `KeyWriter` takes a line of plain code points without a `Normal`. The other runs
//! differ at the end.
#![tactic(auto)]

mod collations;
mod compacting;
mod compare;
mod key_files;
mod keys;
pub mod laws;
mod line_keys;
mod runs;
mod sort;

pub use compare::{compare_words, run_compare, run_compare_in};
pub use laws::{
    affected_texts_are_the_others, canonically_equivalent_lines_have_one_key_line,
    identical_line_keys_are_of_equivalent_lines, key_order_is_one, line_keys_compare_as_lines,
    numbers_order_lines, untouched_lines_keep_their_order,
};
pub use runs::{KeyOutput, run_keys, run_keys_as};
pub use sort::{run_sort, run_sort_in, sort_lines};
