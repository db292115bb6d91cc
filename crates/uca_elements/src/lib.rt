//! Matching a text against the rows of a table: the collation elements that a text reads as (UTS #10, section 7.2,
//! "Produce Collation Element Arrays").
//!
//! A `Collator` is what texts are read by: a `Lookup` of rows, the header of the table, and the data file. `Elements`
//! gives the elements of a text in turn, and `row_of` those of a key. The definitions and the laws of reading are here
//! too. What is proved of texts is proved for every `Lookup`.
#![tactic(auto)]

mod collator;
mod elements;
pub mod key_sets;
pub mod laws;
mod lookup;
pub mod matches;
pub mod places;

pub use collator::Collator;
pub use elements::Elements;
pub use lookup::{Lookup, row_of};
pub use matches::Match;
