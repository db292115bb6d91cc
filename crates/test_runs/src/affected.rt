//! Whole runs: the lines that rules affect, over files in memory, and over readers and a writer that give or take few bytes
//! a call, or fail.

use std::alloc::{AllocError, Global};
use std::io::ErrorKind;
use std::test::Fail;
use test_kit::{
    Calls, DATA, Failure, FakeReader, FakeWriter, Pace, bytes_of, halves, holds, thirds,
};
use uca_cli::{RunFault, run_affected};
use uca_weights::{Numbers, Sink, Source};

/// The texts of a run: the data file, the rules and the lines.
type Texts<'a> = [&'a [u8]; 3];

/// What came of a run. The four are the data file, the rules, the input and the output.
#[derive(Drop)]
struct Outcome {
    /// What is said of its end.
    end: String,
    /// What went out.
    printed: Vec<u8>,
    /// Which of the four say that they failed.
    failed: [bool; 4],
    /// Which of the four were called.
    called: [bool; 4],
}

// What is told of the end of a run.
fn told(alloc: Global, end: &Result<(), RunFault>) -> Result<String, AllocError> {
    match end {
        Ok(()) => String::from_str(alloc, "done"),
        Err(RunFault::Write { written }) => format!(in alloc; "output: Write after {written}"),
        Err(fault) => format!(in alloc; "{fault}"),
    }
}

// A run over streams of these paces, with these calls.
fn run_over(
    alloc: Global,
    [data, rules, lines]: Texts,
    [data_pace, rules_pace, input_pace, out_pace]: [Pace; 4],
    [data_calls, rules_calls, input_calls, out_calls]: &[Calls; 4],
) -> (Result<(), RunFault>, Vec<u8>, [bool; 4]) {
    let mut properties = Source::new(FakeReader::new(data, data_pace, data_calls));
    let mut rules = Source::new(FakeReader::new(rules, rules_pace, rules_calls));
    let mut input = Source::new(FakeReader::new(lines, input_pace, input_calls));
    let mut out = Sink::new(FakeWriter::new(alloc, out_pace, out_calls));
    let end = run_affected(
        alloc,
        alloc,
        &mut properties,
        &mut rules,
        &mut input,
        &mut out,
        Numbers::AsText,
    );
    let failed = [
        properties.failed(),
        rules.failed(),
        input.failed(),
        out.failed(),
    ];
    (end, out.into_inner().text, failed)
}

// Of each of the four, whether so many calls were made.
fn are_some(counts: [u32; 4]) -> [bool; 4] {
    let [data, rules, input, out] = counts;
    [data > 0, rules > 0, input > 0, out > 0]
}

// What came of a run. A stream says that it failed exactly where a call of it failed, and none is called again after that.
fn run_at(alloc: Global, texts: Texts, paces: [Pace; 4]) -> Result<Outcome, Fail> {
    let calls = [Calls::new(), Calls::new(), Calls::new(), Calls::new()];
    let (end, printed, failed) = run_over(alloc, texts, paces, &calls);
    let end = told(alloc, &end)?;
    let [data, rules, input, out] = &calls;
    let failing = are_some([
        data.failed.get(),
        rules.failed.get(),
        input.failed.get(),
        out.failed.get(),
    ]);
    let late = are_some([
        data.late.get(),
        rules.late.get(),
        input.late.get(),
        out.late.get(),
    ]);
    holds(failed == failing && late == [false; 4], &end)?;
    let called = are_some([
        data.all.get(),
        rules.all.get(),
        input.all.get(),
        out.all.get(),
    ]);
    Ok(Outcome {
        end,
        printed,
        failed,
        called,
    })
}

// A run ended so, and this went out.
fn check_end(outcome: &Outcome, printed: &[u8], end: &str) -> Result<(), Fail> {
    if outcome.end.as_str() == end && outcome.printed.as_slice() == printed {
        return Ok(());
    }
    Err(Fail::new(format_args!("{}, not {end}", outcome.end)))
}

// A run of these paces ends so, and this went out.
fn check_at(
    alloc: Global,
    texts: Texts,
    paces: [Pace; 4],
    (printed, end): (&[u8], &str),
) -> Result<(), Fail> {
    let outcome = run_at(alloc, texts, paces)?;
    let checked = check_end(&outcome, printed, end);
    drop(outcome);
    checked
}

// A run ends so, and this went out, where a call gives or takes few bytes, and where it gives or takes all.
fn check_steps(alloc: Global, texts: Texts, ended: (&[u8], &str)) -> Result<(), Fail> {
    for step in [1, 3, usize::MAX] {
        check_at(alloc, texts, [Pace::steps(step); 4], ended)?;
    }
    Ok(())
}

/// Rules, lines, what is printed, and what is told of the end.
const CASES: &str = r"&a < x | x\nax\na\n\nxa\nX\n | x\nax\nxa\n | done
&a < x | x\na\n\xFF\nx\n | x\n | input line 3: Utf8
&a < | x\n\xFF |  | rules byte 4: EmptyText";

fn check_case(alloc: Global, case: &str) -> Result<(), Fail> {
    let (rules, lines, ended) = thirds(case)?;
    let (printed, end) = halves(ended)?;
    let rules = bytes_of(alloc, rules)?;
    let lines = bytes_of(alloc, lines)?;
    let printed = bytes_of(alloc, printed)?;
    check_steps(alloc, [DATA.as_bytes(), &rules, &lines], (&printed, end))
}

#[test]
fn affected_lines(rt: HostRuntime) -> Result<(), Fail> {
    for case in CASES.lines() {
        check_case(rt.alloc(), case)?;
    }
    Ok(())
}

/// A run, of whose lines the first and the last are affected.
const TEXTS: Texts<'static> = [b"@data 1\nccc 0301..0301 230\n", b"&a < x", b"x\na\nxa"];

/// What it prints.
const PRINTED: &[u8] = b"x\nxa\n";

/// Each way in which a call fails. A reader that gives nothing has not failed.
const FAILURES: [Failure; 3] = [
    Failure::Error(ErrorKind::Interrupted),
    Failure::Error(ErrorKind::Other),
    Failure::Nothing,
];

/// Streams that give or take all at once.
const WHOLE: Pace = Pace {
    step: usize::MAX,
    good: None,
    failure: Failure::Nothing,
};

// The run where a reader fails after so many bytes: this one of the four alone failed, and these were called.
fn check_read(
    alloc: Global,
    paces: [Pace; 4],
    (failed, called): ([bool; 4], [bool; 4]),
    (printed, end): (&[u8], &str),
) -> Result<(), Fail> {
    let outcome = run_at(alloc, TEXTS, paces)?;
    let is_so = outcome.failed == failed && outcome.called == called;
    let is_told = outcome.end.as_str() == end && outcome.printed.as_slice() == printed;
    drop(outcome);
    holds(is_so && is_told, end)
}

/// After how many bytes the reader of the data file fails, and what is told.
const DATA_FAULTS: [(usize, &str); 4] = [
    (0, "data line 1: Read"),
    (7, "data line 1: Read"),
    (8, "data line 2: Read"),
    (27, "data line 3: Read"),
];

#[test]
fn data_files_whose_reading_fails(rt: HostRuntime) -> Result<(), Fail> {
    for (good, end) in DATA_FAULTS {
        let own = Pace::failing(2, good, Failure::Error(ErrorKind::Other));
        let streams = ([true, false, false, false], [true, false, false, false]);
        check_read(rt.alloc(), [own, WHOLE, WHOLE, WHOLE], streams, (b"", end))?;
    }
    Ok(())
}

#[test]
fn rules_whose_reading_fails(rt: HostRuntime) -> Result<(), Fail> {
    for good in 0..7 {
        let own = Pace::failing(2, good, Failure::Error(ErrorKind::Other));
        let streams = ([false, true, false, false], [true, true, false, false]);
        let ended: (&[u8], &str) = (b"", "rules: Read");
        check_read(rt.alloc(), [WHOLE, own, WHOLE, WHOLE], streams, ended)?;
    }
    Ok(())
}

/// After how many bytes the reader of the lines fails, what was printed, and what is told.
const INPUT_FAULTS: [(usize, &[u8], &str); 6] = [
    (0, b"", "input line 1: Read"),
    (1, b"", "input line 1: Read"),
    (2, b"x\n", "input line 2: Read"),
    (3, b"x\n", "input line 2: Read"),
    (4, b"x\n", "input line 3: Read"),
    (6, b"x\n", "input line 3: Read"),
];

#[test]
fn lines_whose_reading_fails(rt: HostRuntime) -> Result<(), Fail> {
    for (good, printed, end) in INPUT_FAULTS {
        let own = Pace::failing(2, good, Failure::Error(ErrorKind::Other));
        let called = [true, true, true, !printed.is_empty()];
        let streams = ([false, false, true, false], called);
        check_read(
            rt.alloc(),
            [WHOLE, WHOLE, own, WHOLE],
            streams,
            (printed, end),
        )?;
    }
    Ok(())
}

// The writer takes so many bytes and then fails in this way.
fn check_write(alloc: Global, good: usize, failure: Failure) -> Result<(), Fail> {
    let end = format!(in alloc; "output: Write after {good}")?;
    let begun = PRINTED.get(..good).unwrap_or(PRINTED);
    let streams = ([false, false, false, true], [true; 4]);
    for step in [1, 4, usize::MAX] {
        let own = Pace::failing(step, good, failure);
        check_read(alloc, [WHOLE, WHOLE, WHOLE, own], streams, (begun, &end))?;
    }
    Ok(())
}

#[test]
fn writers_that_fail(rt: HostRuntime) -> Result<(), Fail> {
    for good in 0..PRINTED.len() {
        for failure in FAILURES {
            check_write(rt.alloc(), good, failure)?;
        }
    }
    let late = Pace::failing(5, PRINTED.len(), Failure::Nothing);
    let ended: (&[u8], &str) = (PRINTED, "done");
    check_read(
        rt.alloc(),
        [WHOLE, WHOLE, WHOLE, late],
        ([false; 4], [true; 4]),
        ended,
    )
}
