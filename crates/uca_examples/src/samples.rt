//! The table and the data file of the examples, as bytes in memory.

use std::alloc::Global;
use uca_collation::{Data, Source, Table, TableFault, read_data, read_table};

/// A space, which is variable, the letters a, A, b and c, and the combining acute accent.
const TABLE: &str = "@version 1\n\
    0020 ; [*0209.0020.0002]\n\
    0061 ; [.1C47.0020.0002]\n\
    0041 ; [.1C47.0020.0008]\n\
    0062 ; [.1C60.0020.0002]\n\
    0063 ; [.1C7A.0020.0002]\n\
    0301 ; [.0000.0024.0002]\n";

/// The combining class of the acute accent.
const DATA: &str = "@data 1\n\
    ccc 0301..0301 230\n";

/// The table. A program reads it from a file in place of the bytes: `Source::new` takes any reader.
pub fn table(alloc: Global) -> Result<Table, TableFault> {
    read_table(alloc, &mut Source::new(TABLE.as_bytes()))
}

/// The data file.
pub fn data(alloc: Global) -> Result<Data, TableFault> {
    read_data(alloc, &mut Source::new(DATA.as_bytes()))
}
