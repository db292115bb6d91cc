//! A table and a data file, and the values of files.

use std::alloc::{Allocator, Global};
use std::io::Read;
use uca_table::{read_data, read_table, write_table};
use uca_values::{Data, Table, TableFault};
use uca_weights::{Sink, Source, WriteFault};

/// Letters, accents and a variable space, in canonical text.
pub const TABLE: &str = "@version 1\n\
    @implicitweights 17000..18AFF; FB00\n\
    0020 ; [*0209.0020.0002]\n\
    0061 ; [.1C47.0020.0002]\n\
    0041 ; [.1C47.0020.0008]\n\
    0062 ; [.1C60.0020.0002]\n\
    0300 ; [.0000.0025.0002]\n\
    0301 ; [.0000.0024.0002]\n\
    0323 ; [.0000.002C.0002]\n";

/// The ten digits, two letters and an accent. The digit 7 has the weight 1C44, and 1 has 1C3E.
pub const NUMBER_TABLE: &str = "@version 1\n\
    0030 ; [.1C3D.0020.0002]\n\
    0031 ; [.1C3E.0020.0002]\n\
    0032 ; [.1C3F.0020.0002]\n\
    0033 ; [.1C40.0020.0002]\n\
    0034 ; [.1C41.0020.0002]\n\
    0035 ; [.1C42.0020.0002]\n\
    0036 ; [.1C43.0020.0002]\n\
    0037 ; [.1C44.0020.0002]\n\
    0038 ; [.1C45.0020.0002]\n\
    0039 ; [.1C46.0020.0002]\n\
    0061 ; [.1C47.0020.0002]\n\
    0062 ; [.1C60.0020.0002]\n\
    0301 ; [.0000.0024.0002]\n";

/// Classes of accents, and two ranges of Han.
pub const DATA: &str = "@data 1\n\
    ccc 0300..0314 230\n\
    ccc 0323..0323 220\n\
    core 4E00..9FFF\n\
    other 20000..20FFF\n";

/// The table of a table file.
pub fn table_of<A: Allocator + Copy, R: Read>(
    alloc: A,
    source: &mut Source<R>,
) -> Result<Table<A>, TableFault> {
    read_table(alloc, source)
}

/// The properties of a data file.
pub fn data_of<A: Allocator + Copy, R: Read>(
    alloc: A,
    source: &mut Source<R>,
) -> Result<Data<A>, TableFault> {
    read_data(alloc, source)
}

/// The canonical text of a table.
pub fn table_text(alloc: Global, table: &Table) -> Result<Vec<u8>, WriteFault> {
    let mut out = Sink::new(Vec::new(alloc));
    write_table(table, &mut out)?;
    Ok(out.into_inner())
}

/// A run of keys by no book.
pub fn no_book() -> Option<Source<&'static [u8]>> {
    None
}
