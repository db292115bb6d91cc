//! What the command has of the system that it runs on, and what it reports to it. `files`: the files of a subcommand are opened
//! in their order, and that of a certificate is kept only as a whole. `reports`: what an error writes, and the status that
//! the program ends with. `help`: the line after that of an error, which says what to do. `arguments` and `standard_streams`: the program's arguments, and its standard streams where they are
//! closed.
#![tactic(auto)]

pub mod arguments;
pub mod files;
mod help;
mod reports;
pub mod standard_streams;

pub use files::opens::{MakeFault, OpenFault, Opens};
pub use help::{write_book_help, write_help};
pub use reports::{DONE, NO_MEMORY, REFUSED, STREAM_FAILED, WRONG_WORDS, report};
