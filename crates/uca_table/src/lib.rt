//! Table files: collation elements in the format of Unicode's `allkeys.txt` (UTS #10, section 9), read line by line
//! (`read_table`, `read_packed_table`). The reader of data files is here too (`read_data`), and the writer of the
//! canonical text of a table (`write_table`). The crate passes on the types of what was read, and the check of tables.
#![tactic(auto)]

mod canonical;
mod data_file;
mod elements;
mod headers;
mod keys;
mod laws;
mod lines;
mod read;
mod rows;

pub use canonical::write_table;
pub use data_file::{DataSoFar, read_data};
pub use laws::{canonical_text_means_its_table, canonical_text_means_the_same, worked_lines};
pub use lines::TableLines;
pub use read::{read_packed_table, read_table};
pub use uca_check::{IllFormed, check};
pub use uca_values::{Data, FaultKind, Header, ImplicitRange, PackedTable, Row, Table, TableFault};
