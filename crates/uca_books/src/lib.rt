//! Book files: where the cells of weights begin by which compact sort keys are written. `Book` has these starts, those of
//! level 1 and those of level 4. `read_book` and `write_book` read and write its one text.
#![tactic(auto)]

mod laws;
mod lines;
mod read;
mod starts;
mod write;

pub use laws::{bytes_mean_at_most_one_book, each_book_has_one_text, worked_books};
pub use read::read_book;
pub use starts::Book;
pub use uca_values::{FaultKind, TableFault};
pub use write::write_book;
