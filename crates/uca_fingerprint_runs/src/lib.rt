//! The run that prints the fingerprint of what keys are made by, or that of compact keys (`run_fingerprint`). Reading a table, a data file and a book with their sums (`read_summed_files`,
//! `read_booked_files`).
#![tactic(auto)]

mod book_sums;
mod fingerprint;
pub mod summed_files;

pub use book_sums::sum_of_book;
pub use fingerprint::run_fingerprint;
