//! The canonical text of a table: one spelling of each line of a table file (UTS #10, section 9.1).

mod buffered;
mod elements;
mod header;
mod rows;
mod write;

pub use write::write_table;
