//! Runs over readers and writers that fail at a chosen byte.

use crate::files::{Files, KEY_OF_A, SHORT};
use crate::paces::{
    CHECK, COMPARE, Case, FAILED_CHECK, IDENTICAL_KEYS, KEYED_LINES, KEYS, LINES, Outcome, SORT,
    Stream, is_whole, run_at, with_input,
};
use std::alloc::{AllocError, Global};
use std::io::ErrorKind;
use std::test::Fail;
use test_kit::{Failure, Pace, bytes_of, holds, joined, repeated, same, thirds};

/// Each way in which a call fails. A reader that gives nothing has not failed.
const FAILURES: [Failure; 3] = [
    Failure::Error(ErrorKind::Interrupted),
    Failure::Error(ErrorKind::Other),
    Failure::Nothing,
];

/// Streams that give or take all at once.
const WHOLE: Pace = Pace {
    step: usize::MAX,
    good: None,
    failure: Failure::Nothing,
};

/// A reader that fails after two bytes.
const BROKEN: Pace = Pace {
    step: 1,
    good: Some(2),
    failure: Failure::Error(ErrorKind::Other),
};

// This is said of the end of a run, and what else came of it is so.
fn check_end(outcome: &Outcome, is_so: bool, end: &str) -> Result<(), Fail> {
    holds(is_so, end)?;
    same(&outcome.end, end, "the end")
}

// A run in which one reader fails: this is said, and this was printed. The streams that it would use later are
// not called.
fn check_read_at(
    alloc: Global,
    case: &Case,
    which: Stream,
    paces: [Pace; 4],
    (end, printed): (&str, &[u8]),
) -> Result<(), Fail> {
    let outcome = run_at(alloc, case, paces)?;
    let called = which.read_up_to(!printed.is_empty());
    let is_so = outcome.failed == which.alone() && outcome.called == called;
    let checked = check_end(
        &outcome,
        is_so && outcome.printed.as_slice() == printed,
        end,
    );
    drop(outcome);
    checked
}

// A run where one reader fails after this many bytes, in this way.
fn check_read_kind(
    alloc: Global,
    case: &Case,
    (which, good): (Stream, usize),
    kind: ErrorKind,
    ended: (&str, &[u8]),
) -> Result<(), Fail> {
    for step in [1, 9, usize::MAX] {
        let own = Pace::failing(step, good, Failure::Error(kind));
        let paces = which.paces(own, Pace::steps(step));
        check_read_at(alloc, case, which, paces, ended)?;
    }
    Ok(())
}

// A run where one reader fails after this many bytes, in each way. What is said comes without the status.
fn check_read_fault(
    alloc: Global,
    case: &Case,
    from: (Stream, usize),
    end: &str,
    printed: &[u8],
) -> Result<(), Fail> {
    let end = joined(alloc, &[end, ", status 3"])?;
    check_read_kind(alloc, case, from, ErrorKind::Interrupted, (&end, printed))?;
    check_read_kind(alloc, case, from, ErrorKind::Other, (&end, printed))
}

/// After how many bytes a reader of the run of keys fails: that of a table, a data file or an input. Then what was
/// printed, and what is said.
const READ_FAULTS: &str = r"0 |  | table line 1: Read
10 |  | table line 1: Read
11 |  | table line 2: Read
35 |  | table line 2: Read
36 |  | table line 3: Read
60 |  | table line 3: Read
61 |  | table line 4: Read
0 |  | data line 1: Read
7 |  | data line 1: Read
8 |  | data line 2: Read
26 |  | data line 2: Read
27 |  | data line 3: Read
0 |  | input line 1: Read
1 |  | input line 1: Read
2 | 1C47 0000 0020 0000 0002\n | input line 2: Read
4 | 1C47 0000 0020 0000 0002\n | input line 2: Read
5 | 1C47 0000 0020 0000 0002\n1C47 0000 0020 0024 0000 0002 0002\n | input line 3: Read
6 | 1C47 0000 0020 0000 0002\n1C47 0000 0020 0024 0000 0002 0002\n | input line 3: Read";

// The stream that an error names.
fn stream_of(end: &str) -> Stream {
    match end.split(' ').next() {
        Some("table") => Stream::Table,
        Some("data") => Stream::Data,
        _ => Stream::Input,
    }
}

fn check_keys_fault(alloc: Global, case: &str) -> Result<(), Fail> {
    let (good, printed, end) = thirds(case)?;
    let from = (stream_of(end), good.parse::<usize>()?);
    check_read_fault(alloc, &KEYS, from, end, &bytes_of(alloc, printed)?)
}

#[test]
fn readers_of_keys_that_fail(rt: HostRuntime) -> Result<(), Fail> {
    for case in READ_FAULTS.lines() {
        check_keys_fault(rt.alloc(), case)?;
    }
    Ok(())
}

/// After how many bytes a reader of the run of lines with their keys fails. Then what was printed, and what is said.
const KEYED_READ_FAULTS: &str = r"10 |  | table line 1: Read
8 |  | data line 2: Read
1 |  | input line 1: Read
2 | 1C4700000020000000020000000061\ta\n | input line 2: Read
4 | 1C4700000020000000020000000061\ta\n | input line 2: Read
5 | 1C4700000020000000020000000061\ta\n1C470000002000240000000200020000000061000301\t\xC3\xA1\n | input line 3: Read";

fn check_keyed_fault(alloc: Global, case: &str) -> Result<(), Fail> {
    let (good, printed, end) = thirds(case)?;
    let from = (stream_of(end), good.parse::<usize>()?);
    check_read_fault(alloc, &KEYED_LINES, from, end, &bytes_of(alloc, printed)?)
}

#[test]
fn readers_of_keyed_lines_that_fail(rt: HostRuntime) -> Result<(), Fail> {
    for case in KEYED_READ_FAULTS.lines() {
        check_keyed_fault(rt.alloc(), case)?;
    }
    Ok(())
}

// A run that prints nothing where a reader fails after this many bytes of a text. The line of the next byte is named.
fn check_byte(alloc: Global, case: &Case, from: (Stream, usize), line: u32) -> Result<(), Fail> {
    let end = format!(in alloc; "{} line {line}: Read", from.0.name())?;
    check_read_fault(alloc, case, from, &end, b"")
}

// A run that prints nothing where a reader fails after each number of the bytes of a text.
fn check_bytes(alloc: Global, case: &Case, which: Stream, text: &[u8]) -> Result<(), Fail> {
    let mut line = 1;
    for good in 0..text.len() + 1 {
        check_byte(alloc, case, (which, good), line)?;
        if text.get(good) == Some(&b'\n') {
            line = 1u32.saturating_add(line);
        }
    }
    Ok(())
}

// Both files of a run that prints nothing.
fn check_files(alloc: Global, case: &Case) -> Result<(), Fail> {
    check_byte(alloc, case, (Stream::Table, 10), 1)?;
    check_byte(alloc, case, (Stream::Table, 11), 2)?;
    let rows = joined(alloc, case.files.table)?;
    check_bytes(alloc, case, Stream::Table, rows.as_bytes())?;
    check_bytes(alloc, case, Stream::Data, case.files.data.as_bytes())
}

/// The runs that print nothing where a reader fails.
const WITHOUT_KEYS: &[Case<'static>] = &[SORT, CHECK, FAILED_CHECK, COMPARE];

fn check_input_of_sort(alloc: Global) -> Result<(), Fail> {
    check_bytes(alloc, &SORT, Stream::Input, LINES.input)
}

#[test]
fn readers_of_other_runs_that_fail(rt: HostRuntime) -> Result<(), Fail> {
    for case in WITHOUT_KEYS {
        check_files(rt.alloc(), case)?;
    }
    check_input_of_sort(rt.alloc())
}

// A run over such an input and a writer that fails after this many bytes: this is said, and these bytes of the whole
// output went out.
fn check_write_at(
    alloc: Global,
    case: &Case,
    good: usize,
    (input, out): (Pace, Pace),
    end: &str,
) -> Result<(), Fail> {
    let outcome = run_at(alloc, case, [WHOLE, WHOLE, input, out])?;
    let [_, _, _, is_told] = outcome.failed;
    let is_begun = Some(outcome.printed.as_slice()) == case.printed.as_bytes().get(..good);
    let checked = check_end(&outcome, is_told && is_begun, end);
    drop(outcome);
    checked
}

// A run over a writer that takes this many bytes and then fails in each way.
fn check_write_fault(alloc: Global, case: &Case, good: usize, input: Pace) -> Result<(), Fail> {
    let end = format!(in alloc; "output: Write after {good}, status 3")?;
    for failure in FAILURES {
        for step in [1, 4, usize::MAX] {
            let out = Pace::failing(step, good, failure);
            check_write_at(alloc, case, good, (input, out), &end)?;
        }
    }
    Ok(())
}

// Runs over a writer that fails in each way after each number of bytes, up to all but one of the output.
fn check_write_faults(alloc: Global, case: &Case, input: Pace) -> Result<(), Fail> {
    for good in 0..case.printed.len() {
        check_write_fault(alloc, case, good, input)?;
    }
    Ok(())
}

// As `check_write_faults`, for a case with these lines, for which this is printed.
fn check_lines(
    alloc: Global,
    case: &Case,
    (lines, printed): (&[u8], &str),
    input: Pace,
) -> Result<(), Fail> {
    let case = with_input(case, lines, printed);
    check_write_faults(alloc, &case, input)
}

// A run over a writer that fails after the first lines of an output. This is the output as far as it goes.
fn check_begun(
    alloc: Global,
    case: &Case,
    (lines, begun): (&[u8], &str),
    good: usize,
) -> Result<(), Fail> {
    let case = with_input(case, lines, begun);
    check_write_fault(alloc, &case, good, WHOLE)
}

/// Lines, and the pace of their reader. The key of the first line is printed. A later line has an error, or cannot be
/// read: the earlier lines go out first.
const BEFORE_A_FAULT: [(&[u8], Pace); 3] = [
    (b"a\n", WHOLE),
    (b"a\n\xFF\n", WHOLE),
    (b"a\nb\n", BROKEN),
];

#[test]
fn writers_of_keys_that_fail(rt: HostRuntime) -> Result<(), Fail> {
    check_begun(rt.alloc(), &KEYS, (b"a\n", "1C47 00"), 7)?;
    for (lines, input) in BEFORE_A_FAULT {
        check_lines(rt.alloc(), &KEYS, (lines, KEY_OF_A), input)?;
    }
    Ok(())
}

/// The line of output of `a`.
const KEYED_A: &str = "1C4700000020000000020000000061\ta\n";

fn check_keyed_lines(alloc: Global, lines: &[u8], input: Pace) -> Result<(), Fail> {
    check_lines(alloc, &KEYED_LINES, (lines, KEYED_A), input)
}

#[test]
fn writers_of_keyed_lines_that_fail(rt: HostRuntime) -> Result<(), Fail> {
    check_keyed_lines(rt.alloc(), b"a\n\xFF\n", WHOLE)?;
    check_keyed_lines(rt.alloc(), b"a\nb\n", BROKEN)
}

#[test]
fn writers_of_sorted_lines_that_fail(rt: HostRuntime) -> Result<(), Fail> {
    check_begun(rt.alloc(), &SORT, (b"b\na\n", "a\nb"), 3)?;
    check_lines(rt.alloc(), &SORT, (b"b\na\n", "a\nb\n"), WHOLE)
}

/// The runs that are tried over their own lines.
const OVER_OWN_LINES: &[Case<'static>] = &[
    SORT,
    KEYED_LINES,
    IDENTICAL_KEYS,
    CHECK,
    FAILED_CHECK,
    COMPARE,
];

#[test]
fn writers_of_each_run_that_fail(rt: HostRuntime) -> Result<(), Fail> {
    for case in OVER_OWN_LINES {
        check_write_faults(rt.alloc(), case, WHOLE)?;
    }
    Ok(())
}

// One of the lines has an error, or cannot be read: a writer that would fail at once is not called.
fn check_unsorted(alloc: Global, lines: &[u8], input: Pace, end: &str) -> Result<(), Fail> {
    let case = with_input(&SORT, lines, "");
    for failure in FAILURES {
        let out = Pace::failing(1, 0, failure);
        let outcome = run_at(alloc, &case, [WHOLE, WHOLE, input, out])?;
        let [_, _, _, is_called] = outcome.called;
        let is_so = !is_called && outcome.end.as_str() == end;
        drop(outcome);
        holds(is_so, end)?;
    }
    Ok(())
}

#[test]
fn lines_are_sorted_before_any_is_written(rt: HostRuntime) -> Result<(), Fail> {
    let utf8 = "input line 2: Utf8, status 1";
    check_unsorted(rt.alloc(), b"a\n\xFF\n", WHOLE, utf8)?;
    let read = "input line 2: Read, status 3";
    check_unsorted(rt.alloc(), b"a\nbb\n", BROKEN, read)
}

// A run over a writer of this pace is whole.
fn check_whole(alloc: Global, case: &Case, out: Pace) -> Result<(), Fail> {
    let outcome = run_at(alloc, case, [WHOLE, WHOLE, WHOLE, out])?;
    let checked = holds(is_whole(case, &outcome), &outcome.end);
    drop(outcome);
    checked
}

// A writer that would fail in each way takes all that there is, and is not called again.
fn check_late_writer(alloc: Global, case: &Case) -> Result<(), Fail> {
    for failure in FAILURES {
        let out = Pace::failing(5, case.printed.len(), failure);
        check_whole(alloc, case, out)?;
    }
    Ok(())
}

/// The runs that are tried.
const EACH: &[Case<'static>] = &[
    FAULTY_KEYS,
    KEYS,
    KEYED_LINES,
    SORT,
    CHECK,
    FAILED_CHECK,
    COMPARE,
];

/// The second line has an error.
const FAULTY_KEYS: Case<'static> = Case {
    files: Files {
        input: b"a\n\xFF\n",
        ..SHORT
    },
    printed: KEY_OF_A,
    end: "input line 2: Utf8, status 1",
    ..KEYS
};

#[test]
fn a_writer_that_fails_too_late(rt: HostRuntime) -> Result<(), Fail> {
    for case in EACH {
        check_late_writer(rt.alloc(), case)?;
    }
    Ok(())
}

// A run whose output is longer than what is written at once. What is written is counted from the
// first line on, and not from the last call.
fn check_long_output(alloc: Global, case: &Case) -> Result<(), Fail> {
    let length = case.printed.len();
    holds(length > 40_000, "a short output")?;
    check_write_fault(alloc, case, length.saturating_sub(1), WHOLE)?;
    check_write_fault(alloc, case, length.saturating_sub(20_000), WHOLE)?;
    check_whole(alloc, case, WHOLE)
}

#[test]
fn a_long_output(rt: HostRuntime) -> Result<(), Fail> {
    let lines = repeated(rt.alloc(), "a\n", 4000)?;
    let keys = repeated(rt.alloc(), KEY_OF_A, 4000)?;
    let case = with_input(&KEYS, lines.as_bytes(), &keys);
    check_long_output(rt.alloc(), &case)
}

// Lines of ideographs, each longer or each shorter than the one before.
fn lines_of(alloc: Global, is_rising: bool) -> Result<String, AllocError> {
    let mut lines = String::new(alloc);
    for count in 0..150usize {
        let count = if is_rising { count } else { 149 - count };
        push_line(&mut lines, count)?;
    }
    Ok(lines)
}

#[test]
fn a_long_output_of_sorted_lines(rt: HostRuntime) -> Result<(), Fail> {
    let lines = lines_of(rt.alloc(), false)?;
    let sorted = lines_of(rt.alloc(), true)?;
    let case = with_input(&SORT, lines.as_bytes(), &sorted);
    check_long_output(rt.alloc(), &case)
}

// A line of this many ideographs.
fn push_line(text: &mut String, count: usize) -> Result<(), AllocError> {
    for _ in 0..count {
        text.push('\u{20000}')?;
    }
    text.push('\n')
}
