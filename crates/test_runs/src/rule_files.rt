//! The rules of an audit, when few bytes come a call, a read fails, or they are too long.

use std::alloc::Global;
use std::io::ErrorKind;
use std::test::Fail;
use test_kit::{Calls, Failure, FakeReader, Pace, holds};
use uca_cli::{RunFault, report, run_audit};
use uca_weights::{Sink, Source};

const TABLE: &[u8] = b"@version 1\n0061 ; [.1C47.0020.0002]\n";

const DATA: &[u8] = b"@data 1\n";

const RULES: &[u8] = b"& a < b <";

// A source of few bytes a call.
fn slow<'a>(text: &'a [u8], calls: &'a Calls) -> Source<FakeReader<'a>> {
    Source::new(FakeReader::new(text, Pace::steps(7), calls))
}

// An audit with these rules. These are the names of the files before them and after them.
fn run_over(
    alloc: Global,
    rules: &mut Source<FakeReader>,
    (before, after): (&Calls, &Calls),
    out: &mut Sink<Vec<u8>>,
) -> Result<bool, RunFault> {
    let mut base = slow(TABLE, before);
    let mut properties = slow(DATA, before);
    let mut tailored = slow(TABLE, after);
    let mut certificate = slow(b"", after);
    run_audit(
        alloc,
        &mut base,
        &mut properties,
        rules,
        &mut tailored,
        &mut certificate,
        out,
    )
}

// The line of an error; nothing if there is none.
fn line_of(alloc: Global, run: &Result<bool, RunFault>, out: &mut Sink<Vec<u8>>) -> Vec<u8> {
    let mut err = Sink::new(Vec::new(alloc));
    if let Err(fault) = run {
        report(alloc, fault, out, &mut err);
    }
    err.into_inner()
}

// An audit is rejected by its rules, which are read at this pace. The case says whether their source has failed, and
// how many bytes it gave. No file after them is read then, and nothing is written.
fn check(
    alloc: Global,
    (text, pace): (&[u8], Pace),
    line: &str,
    (failed, bytes): (bool, usize),
) -> Result<(), Fail> {
    let (before, calls, after) = (Calls::new(), Calls::new(), Calls::new());
    let mut rules = Source::new(FakeReader::new(text, pace, &calls));
    let mut out = Sink::new(Vec::new(alloc));
    let run = run_over(alloc, &mut rules, (&before, &after), &mut out);
    let said = line_of(alloc, &run, &mut out);
    let is_read = rules.failed() == failed && calls.bytes.get() == bytes && calls.late.get() == 0;
    let is_alone = after.all.get() == 0 && out.into_inner().is_empty();
    holds(
        is_read && is_alone && said.as_slice() == line.as_bytes(),
        line,
    )
}

#[test]
fn rules_in_pieces(rt: HostRuntime) -> Result<(), Fail> {
    for step in 1..=RULES.len() {
        let read = (false, RULES.len());
        let pace = Pace::steps(step);
        check(rt.alloc(), (RULES, pace), "rules byte 9: EmptyText\n", read)?;
    }
    Ok(())
}

#[test]
fn rules_whose_reading_fails(rt: HostRuntime) -> Result<(), Fail> {
    for good in 0..=RULES.len() {
        for kind in [ErrorKind::Interrupted, ErrorKind::Other] {
            let pace = Pace::failing(2, good, Failure::Error(kind));
            check(rt.alloc(), (RULES, pace), "rules: Read\n", (true, good))?;
        }
    }
    Ok(())
}

/// One byte is asked for that is too many, and no more.
#[test]
fn rules_that_are_too_long(rt: HostRuntime) -> Result<(), Fail> {
    let text = vec![in rt.alloc(); b' '; 1_048_600]?;
    for step in [1000, 4096, 2_000_000] {
        let pace = Pace::steps(step);
        let line = "rules byte 1048576: Limit\n";
        check(rt.alloc(), (&text, pace), line, (false, 1_048_577))?;
    }
    Ok(())
}
