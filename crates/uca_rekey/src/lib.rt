//! The runs over stored keys, which put other keys in their place. `run_rekey` puts them through the maps of a certificate,
//! `run_compact` makes compact keys of them by a book, and `run_expand` makes keys of these again. A header may come before
//! the lines.
//!
//! None reads a table. All three are one run, over whatever implements `ChangesKeys`. It makes each new line in a buffer of
//! its own:
//!
//! ```text
//! input bytes ─> buffer ─> line ─> digits before the tab ─> key ─> ChangesKeys ─> new key ─> new line ─> OutputBuffer ─> Sink
//! ```
#![tactic(auto)]

mod change;
mod change_run;
mod changed_line;
mod changes;
pub mod laws;
mod line;
mod lines;
mod written;

pub use change::{run_compact, run_expand, run_rekey};
pub use laws::{lines_move_with_keys, worked_lines};
