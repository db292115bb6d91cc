//! Certificates that are read and written.

use std::alloc::Global;
use std::io::Read;
use std::test::Fail;
use test_kit::{Calls, FakeWriter, Pace, bytes_of, halves, holds, is_remark, repeated, same};
use uca_certificates::{
    Certificate, CertificateFault, CertificateFaultKind, read_certificate, write_certificate,
};
use uca_weights::{Sink, Source};

/// The certificate of a tailoring that changes no weight.
const CERTIFICATE: &str = "1 0209 0209 0001\n\
    1 1C47 1C47 0001\n\
    1 1C60 1C60 0001\n\
    2 0020 0020 0001\n\
    2 0024 0024 0002\n\
    2 002C 002C 0001\n\
    3 0002 0002 0001\n\
    3 0008 0008 0001\n";

/// The bytes of a certificate, and what is said of them: that they are accepted, or the error.
const CASES: &str = r"-- the least one, and runs of which each lies above the one before
2 0020 0020 0001\n3 0002 0002 0001\n | accepted
1 0001 0001 7FFF\n2 0001 0001 FFFF\n3 0001 0001 FFFF\n | accepted
1 0001 0002 0001\n1 0002 0003 0001\n2 0020 0020 0001\n3 0002 0002 0001\n | accepted
-- the form of a line
2 0020 0020 0001 | line 1: Line
2 0020 0020 0001\n3 0002 0002 0001 | line 2: Line
\n | line 1: Line
4 0020 0020 0001\n | line 1: Line
0 0020 0020 0001\n | line 1: Line
2  0020 0020 0001\n | line 1: Line
2 0020 0020 0001 \n | line 1: Line
2 0020 0020 0001\r\n | line 1: Line
2 0020 0020 001\n | line 1: Line
2 0020 0020 00001\n | line 1: Line
2 002a 0020 0001\n | line 1: Line
2 0020 0020\n | line 1: Line
2\t0020 0020 0001\n | line 1: Line
2 0020 0020 0001 # a remark\n | line 1: Line
# a remark\n | line 1: Line
-- the order of levels
2 0020 0020 0001\n1 0001 0001 0001\n | line 2: Order
2 0020 0020 0001\n3 0002 0002 0001\n2 0021 0021 0001\n | line 3: Order
2 0020 0020 0001\n1 0001 0001 001\n | line 2: Line
2 0020 0020 0001\n1 0001 0001 0001 | line 2: Line
-- ranges, where an empty run comes first, and a run that does not rise last
1 FFFF 0001 0002\n | line 1: Map OutOfRange
1 7FFF 8000 0001\n | line 1: Map OutOfRange
1 8000 7FFF 0001\n | line 1: Map OutOfRange
1 7FFF 0001 0002\n | line 1: Map OutOfRange
1 0000 0001 0001\n | line 1: Map OutOfRange
1 0001 0000 0001\n | line 1: Map OutOfRange
2 FFFF FFFF 0002\n | line 1: Map OutOfRange
1 0001 0001 0000\n | line 1: Map Empty
1 0000 0000 0000\n | line 1: Map Empty
1 0002 0002 0001\n1 0001 8000 0001\n | line 2: Map OutOfRange
1 0002 0002 0001\n1 0002 0003 0001\n | line 2: Map NotRising
1 0002 0002 0001\n1 0003 0002 0001\n | line 2: Map NotRising
1 0002 0002 0003\n1 0004 0005 0001\n | line 2: Map NotRising
-- what levels 2 and 3 keep, at the line past the last
 | line 1: Map Fixed
1 0001 0001 0001\n | line 2: Map Fixed
2 0020 0021 0001\n3 0002 0002 0001\n | line 3: Map Fixed
2 0020 0020 0001\n | line 2: Map Fixed
2 0020 0020 0001\n3 0002 0003 0001\n | line 3: Map Fixed
-- level by level, after all lines
2 0021 0021 0001\n3 0000 0000 0001\n | line 3: Map Fixed
1 0001 0001 0000\n2 0020 0020 0001\n2 0019 0021 0001\n | line 1: Map Empty
2 0020 0020 0001\n3 0000 0001 0001\n | line 2: Map OutOfRange
1 0001 0001 0000\n2 0020 | line 2: Line";

/// The certificate is accepted: it is written as the bytes that it was read from.
fn accepted(alloc: Global, read: &Certificate, bytes: &[u8]) -> Result<String, Fail> {
    let calls = Calls::new();
    let mut out = Sink::new(FakeWriter::new(alloc, Pace::steps(5), &calls));
    write_certificate(read, &mut out)?;
    holds(
        out.into_inner().text.as_slice() == bytes,
        "the text that is written",
    )?;
    Ok(String::from_str(alloc, "accepted")?)
}

/// The error. If an allocation failed, that is the error.
fn refused(alloc: Global, fault: CertificateFault) -> Result<String, Fail> {
    if fault.kind == CertificateFaultKind::Memory {
        return Err(Fail::from(fault));
    }
    Ok(format!(in alloc; "{fault}")?)
}

/// What is said of the bytes. If they are accepted, they are written again.
fn said<R: Read>(alloc: Global, source: &mut Source<R>, bytes: &[u8]) -> Result<String, Fail> {
    match read_certificate(alloc, source) {
        Ok(read) => {
            let found = accepted(alloc, &read, bytes);
            drop(read);
            found
        }
        Err(fault) => refused(alloc, fault),
    }
}

fn check(alloc: Global, case: &str) -> Result<(), Fail> {
    if is_remark(case) {
        return Ok(());
    }
    let (bytes, wanted) = halves(case)?;
    let bytes = bytes_of(alloc, bytes)?;
    same(
        &said(alloc, &mut Source::new(bytes.as_slice()), &bytes)?,
        wanted,
        case,
    )
}

#[test]
fn certificates(rt: HostRuntime) -> Result<(), Fail> {
    let alloc = rt.alloc();
    for case in CASES.lines() {
        check(alloc, case)?;
    }
    let bytes = CERTIFICATE.as_bytes();
    same(
        &said(alloc, &mut Source::new(bytes), bytes)?,
        "accepted",
        "the first one",
    )
}

/// 65,535 runs of a level are read, and fail as they do not rise; another is one too many.
#[test]
fn at_most_65_535_runs_of_a_level(rt: HostRuntime) -> Result<(), Fail> {
    let alloc = rt.alloc();
    for (count, wanted) in [
        (65_535, "line 2: Map NotRising"),
        (65_536, "line 65536: Limit"),
    ] {
        let text = repeated(alloc, "2 0020 0020 0001\n", count)?;
        let bytes = text.as_bytes();
        same(
            &said(alloc, &mut Source::new(bytes), bytes)?,
            wanted,
            "runs of a level",
        )?;
    }
    Ok(())
}
