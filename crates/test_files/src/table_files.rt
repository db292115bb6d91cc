//! Table files: what accepted files say. Those that are rejected are tested with the built program, by `tests/run.py`.

use std::alloc::Global;
use std::test::Fail;
use test_kit::{bytes_of, halves, holds, table_of, table_text};
use uca_weights::Source;

/// A table file, and the canonical text of its table.
const WRITTEN: &str = r"@version 1\n | @version 1\n
\n# 1\n@version 1\n@variable shifted\n | @version 1\n@variable shifted\n
@version Z\n@variable non-ignorable\n | @version Z\n@variable non-ignorable\n
# \xFF\n \t\n\t@version\t 1.0-a # 1\n@variable  shifted\n@implicitweights 17000..18AFF ;\tFB00 # Tangut\n@implicitweights 1EFFF..1EFFF;FB00\n@implicitweights \t D700..E000; FB3F#\n#\n00E1 ; [.1C47.0020.0002] [.0000.0024.0002] # a with acute\n\t 0061  0301\t;[*0209.0020.0002]\t[.1C47.0020.0002][.0000.0024.0002]\n10FFFF;[.1C47.0020.0002]\n | @version 1.0-a\n@variable shifted\n@implicitweights 17000..18AFF; FB00\n@implicitweights 1EFFF..1EFFF; FB00\n@implicitweights D700..E000; FB3F\n00E1 ; [.1C47.0020.0002][.0000.0024.0002]\n0061 0301 ; [*0209.0020.0002][.1C47.0020.0002][.0000.0024.0002]\n10FFFF ; [.1C47.0020.0002]\n
# A table\n\n\t@version   16.0-a # its name\n@variable\tshifted\n@implicitweights 017000..018AFF;FB00\n  @implicitweights\t1B170..1B2FF  ;  FB02 \n# rows\n000061;[.1C47.0020.0002]#a\n\n 00061\t 0301  ;  [.1C50.0020.0002] \t[*0209.0020.001F]  # contraction\n | @version 16.0-a\n@variable shifted\n@implicitweights 17000..18AFF; FB00\n@implicitweights 1B170..1B2FF; FB02\n0061 ; [.1C47.0020.0002]\n0061 0301 ; [.1C50.0020.0002][*0209.0020.001F]\n
@version 16.0-a\n@variable non-ignorable\n@implicitweights 0000..0000; FB3F\n@implicitweights FFFF..10000; FB01\n@implicitweights 10FFFF..10FFFF; FB0A\n0000 ; [.0000.0000.0000]\nFFFF ; [.FFFF.FFFF.FFFF]\n10000 FFFFF ; [*ABCD.0020.0002][.EF01.0000.0000]\n100000 ; [.0001.0020.0002]\n10FFFF ; [.0010.0100.1000]\n | @version 16.0-a\n@variable non-ignorable\n@implicitweights 0000..0000; FB3F\n@implicitweights FFFF..10000; FB01\n@implicitweights 10FFFF..10FFFF; FB0A\n0000 ; [.0000.0000.0000]\nFFFF ; [.FFFF.FFFF.FFFF]\n10000 FFFFF ; [*ABCD.0020.0002][.EF01.0000.0000]\n100000 ; [.0001.0020.0002]\n10FFFF ; [.0010.0100.1000]\n";

/// The canonical text of the table of a file.
fn rewritten(alloc: Global, file: &[u8]) -> Result<Vec<u8>, Fail> {
    let table = table_of(alloc, &mut Source::new(file))?;
    let text = table_text(alloc, &table);
    drop(table);
    Ok(text?)
}

fn check_written(alloc: Global, case: &str) -> Result<(), Fail> {
    let (file, text) = halves(case)?;
    let found = rewritten(alloc, &bytes_of(alloc, file)?)?;
    holds(found.as_slice() == bytes_of(alloc, text)?.as_slice(), case)
}

#[test]
fn what_is_read_is_written_in_canonical_text(rt: HostRuntime) -> Result<(), Fail> {
    for case in WRITTEN.lines() {
        check_written(rt.alloc(), case)?;
    }
    Ok(())
}
