//! Files of changes: sources and writers that fail, and lists that are made by calls.

use std::alloc::Global;
use std::io::ErrorKind;
use std::test::Fail;
use test_kit::{Calls, Failure, FakeReader, FakeWriter, Pace, holds};
use uca_change_files::{
    ChangeList, ChangedText, CodePointRange, FaultKind, read_changes, write_changes,
};
use uca_weights::{Sink, Source};

/// After this many bytes the source fails.
fn check_broken(alloc: Global, good: usize, wanted: &str) -> Result<(), Fail> {
    let calls = Calls::new();
    let pace = Pace::failing(3, good, Failure::Error(ErrorKind::Other));
    let reader = FakeReader::new(b"@changes 1\ntext 0061\n", pace, &calls);
    let mut source = Source::new(reader);
    let is_told = match read_changes(alloc, &mut source) {
        Ok(_) => false,
        Err(fault) => fault.message().as_str() == wanted,
    };
    holds(is_told && source.failed() && calls.late.get() == 0, wanted)
}

#[test]
fn sources_that_fail(rt: HostRuntime) -> Result<(), Fail> {
    for (good, wanted) in [
        (0, "line 1: Read"),
        (10, "line 1: Read"),
        (12, "line 2: Read"),
    ] {
        check_broken(rt.alloc(), good, wanted)?;
    }
    Ok(())
}

/// The text of the list that is made.
const TEXT: &[u8] = b"@changes 1\ntext 0061 10FFFF\nrange 0041..1F600\n";

fn push_text(alloc: Global, list: &mut ChangeList, text: &str) -> Result<(), FaultKind> {
    let mut points = Vec::new(alloc);
    for point in text.chars() {
        points.push(point)?;
    }
    list.push_text(ChangedText { points })
}

fn push_range(list: &mut ChangeList, first: char, last: char) -> Result<(), FaultKind> {
    list.push_range(CodePointRange { first, last })
}

/// A list of a text and a range. Nothing else is added.
fn made(alloc: Global) -> Result<ChangeList, Fail> {
    let mut list = ChangeList::new(alloc);
    let found = [
        push_text(alloc, &mut list, ""),
        push_text(alloc, &mut list, "a\u{10FFFF}"),
        push_text(alloc, &mut list, "a"),
        push_range(&mut list, 'B', 'A'),
        push_range(&mut list, 'A', '\u{1F600}'),
        push_range(&mut list, '\u{1F600}', '\u{1F601}'),
        push_text(alloc, &mut list, "b"),
    ];
    let wanted = [
        Err(FaultKind::Line),
        Ok(()),
        Err(FaultKind::Order),
        Err(FaultKind::Line),
        Ok(()),
        Err(FaultKind::Order),
        Err(FaultKind::Order),
    ];
    holds(found == wanted, "what is added")?;
    Ok(list)
}

#[test]
fn lists_that_are_made(rt: HostRuntime) -> Result<(), Fail> {
    let list = made(rt.alloc())?;
    let mut out = Sink::new(Vec::new(rt.alloc()));
    let is_written = write_changes(&list, &mut out).is_ok();
    let text = out.into_inner();
    holds(is_written && text.as_slice() == TEXT, "the text of a list")
}

/// After this many bytes the writer fails.
fn check_cut(alloc: Global, list: &ChangeList, good: usize) -> Result<(), Fail> {
    let calls = Calls::new();
    let pace = Pace::failing(4, good, Failure::Error(ErrorKind::Other));
    let mut out = Sink::new(FakeWriter::new(alloc, pace, &calls));
    let is_told = match write_changes(list, &mut out) {
        Ok(()) => false,
        Err(fault) => fault.written == good as u64,
    };
    let is_told = is_told && out.failed();
    let is_front = TEXT.get(..good) == Some(out.into_inner().text.as_slice());
    holds(is_told && is_front, "a writer that fails")
}

#[test]
fn writers_that_fail(rt: HostRuntime) -> Result<(), Fail> {
    let list = made(rt.alloc())?;
    for good in [0, 1, 11, 27, 45] {
        check_cut(rt.alloc(), &list, good)?;
    }
    Ok(())
}
