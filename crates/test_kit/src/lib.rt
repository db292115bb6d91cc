//! What tests share: readers and writers in memory that fail where a test says, tables of cases written as text, and a
//! table and a data file to begin with. The streams of a run are here too, and an allocator that rejects one allocation
//! (`Refusing`): so each allocation of a call can fail in turn.
#![tactic(auto)]

mod cases;
mod counts;
mod refusing;
mod run_streams;
pub mod samples;
mod streams;

pub use cases::{
    bytes_of, code_point, halves, holds, is_remark, joined, repeated, same, same_bytes, thirds,
};
pub use refusing::Refusing;
pub use run_streams::Streams;
pub use samples::{DATA, NUMBER_TABLE, TABLE, data_of, no_book, table_of, table_text};
pub use streams::{Calls, Failure, FakeReader, FakeWriter, Pace};
