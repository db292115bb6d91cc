//! Files of lines, in any format: the lines of a source, the parts of a line (`fields`), and the reading of a whole
//! file line by line (`files`).
//!
//! A format (`FileForm`) says how long a line may be, how many lines there may be, and what each error is called. A
//! parser (`LineParser`) takes the lines in turn. The crate also has a buffer for what goes to a sink (`OutputBuffer`).
#![tactic(auto)]

pub mod fields;
pub mod files;
mod lines;
mod output;

pub use lines::{LINE_LIMIT, LineFault, LineReader, NextLine};
pub use output::OutputBuffer;
