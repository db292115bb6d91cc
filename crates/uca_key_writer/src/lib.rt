//! Sort keys (UTS #10, section 7.3): the key of one text, and the keys of many texts, one after another.
//!
//! `KeyWriter` reads a text from left to right and cuts it before each plain code point (see `uca_plain`). For example `a`, `b`
//! and `c` are plain, and a mark that can follow them is not. Then `abá` in two code points for the last letter is read so:
//!
//! ```text
//! a b  a U+0301
//! │ │  └──┬───┘
//! │ │   Piece: the code points from the last plain one on. It is normalized, and its elements are
//! │ │     │    looked up in the trie, unless the PointCache knows all of them as leaves.
//! └─┴─ a stretch of plain code points: the PointCache has their elements
//!   │     │
//!   └──┬──┘
//! LevelBuffers: the weights of each level, as bytes ──> the key: levels 1, 2, 3 (and 4), with two bytes 0 between them
//! ```
//!
//! - `key_writer.rt`: `KeyWriter`, the door. It has a collator, and the memory of `key_memory.rt`.
//! - `key_memory.rt`: `KeyMemory` has all memory for keys, and uses it for one text after another. A value that owns what it reads
//!   texts by has such a memory too, and lends it a collator at each call.
//! - `key_buffer.rt`: `KeyBuffer` has the loop over a text that is not normalized yet, and the way of all other texts: a `Normal`,
//!   whose elements are looked up one by one. That way is for texts of more than 524,288 bytes, for texts that the pieces do not
//!   accept, and for the depth `Identical`.
//! - `pieces.rt`: `Piece`. A piece of at most 64 leaves takes the elements of each leaf from the cache.
//! - `stretches.rt`: plain code points in a row, at most 64 at a time. The last one waits, since a mark may follow it.
//! - `level_buffers.rt` and `slots.rt`: each level has slots for weights, and a count of those that are filled. Room for a stretch
//!   is made before its loop: three slots a code point, so 192 a level.
//! - `key_levels.rt`: `KeyLevels`, the levels for a caller who needs no key, as one that makes compact keys of them.
//! - `beginnings.rt`: level 1 comes first in a key. So the first sixteen bytes of a key are known once level 1 has eight weights,
//!   and the rest of the text has only to be accepted.
//!
//! With numbers by value, a text with a digit is written by value first (`uca_numbers`), and what was written is read in
//! this way. At an identical level come the code points of the text itself, so `7` and `007` differ there alone. A text
//! without digits is only looked through for digits.
//!
//! The functions of `stretches.rt` and `slots.rt` take the four levels, their counts and the flag as parameters of their own, and
//! not as one struct. So the loops keep them in registers, and the borrow checker has no struct to account for at each step.
#![tactic(auto)]

mod beginnings;
mod key_buffer;
mod key_levels;
mod key_memory;
mod key_writer;
mod keys;
mod level_buffers;
mod pieces;
mod slots;
mod stretches;

pub use key_buffer::KeyBuffer;
pub use key_levels::KeyLevels;
pub use key_memory::KeyMemory;
pub use key_writer::KeyWriter;
pub use keys::{key, key_of};
