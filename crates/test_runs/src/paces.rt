//! Runs over readers and a writer of chosen paces.

use crate::files::{Files, SHORT, SHORT_TABLE};
use crate::runs::{Answer, Run, run_over, told};
use std::alloc::{AllocError, Global};
use std::test::Fail;
use test_kit::{Calls, FakeReader, FakeWriter, Pace, Streams, holds, joined};
use uca_cli::{RunFault, report};
use uca_weights::Depth::{Identical, Weights};
use uca_weights::Weighting::NonIgnorable;
use uca_weights::{Sink, Source};

/// A stream of a run.
#[derive(Clone, Copy)]
pub enum Stream {
    Table,
    Data,
    Input,
    Out,
}

impl Stream {
    /// What is said of it.
    pub fn name(self) -> &'static str {
        match self {
            Stream::Table => "table",
            Stream::Data => "data",
            Stream::Input => "input",
            Stream::Out => "output",
        }
    }

    /// One pace for this stream, and another one for the three others.
    pub fn paces(self, own: Pace, other: Pace) -> [Pace; 4] {
        match self {
            Stream::Table => [own, other, other, other],
            Stream::Data => [other, own, other, other],
            Stream::Input => [other, other, own, other],
            Stream::Out => [other, other, other, own],
        }
    }

    /// This stream alone among the four: the table, the data file, the input and the output.
    pub fn alone(self) -> [bool; 4] {
        match self {
            Stream::Table => [true, false, false, false],
            Stream::Data => [false, true, false, false],
            Stream::Input => [false, false, true, false],
            Stream::Out => [false, false, false, true],
        }
    }

    /// The streams of what is read up to this one; and the output, if this is so.
    pub fn read_up_to(self, is_printed: bool) -> [bool; 4] {
        match self {
            Stream::Table => [true, false, false, is_printed],
            Stream::Data => [true, true, false, is_printed],
            Stream::Input | Stream::Out => [true, true, true, is_printed],
        }
    }
}

/// A run over files, and what comes of it if no stream fails.
#[derive(Clone, Copy)]
pub struct Case<'a> {
    /// The run.
    pub run: Run<'a>,
    /// Its files.
    pub files: Files<'a>,
    /// What it prints.
    pub printed: &'a str,
    /// What is said of its end, with the status of an error.
    pub end: &'a str,
}

/// Three lines, the last one without LF.
pub const LINES: Files = Files {
    input: b"a\n\xC3\xA1\na",
    ..SHORT
};

pub const KEYS: Case = Case {
    run: Run::Keys(Some(NonIgnorable), Weights),
    files: LINES,
    printed: "1C47 0000 0020 0000 0002\n\
        1C47 0000 0020 0024 0000 0002 0002\n\
        1C47 0000 0020 0000 0002\n",
    end: "done",
};

/// A line whose key has an identical level.
pub const IDENTICAL_KEYS: Case = Case {
    run: Run::Keys(Some(NonIgnorable), Identical),
    files: Files {
        input: b"a\n",
        ..SHORT
    },
    printed: "1C47 0000 0020 0000 0002 0000 000061\n",
    end: "done",
};

/// The three lines of `LINES`, each after its key with an identical level.
pub const KEYED_LINES: Case = Case {
    run: Run::KeyedLines(Some(NonIgnorable), Identical),
    files: LINES,
    printed: "1C4700000020000000020000000061\ta\n\
        1C470000002000240000000200020000000061000301\t\u{E1}\n\
        1C4700000020000000020000000061\ta\n",
    end: "done",
};

pub const SORT: Case = Case {
    run: Run::Sort(Some(NonIgnorable), Weights),
    files: LINES,
    printed: "a\na\n\u{E1}\n",
    end: "done",
};

pub const CHECK: Case = Case {
    run: Run::Check,
    files: SHORT,
    printed: "well-formed\n",
    end: "true",
};

/// The table has a contraction without the shorter one.
pub const FAILED_CHECK: Case = Case {
    run: Run::Check,
    files: Files {
        table: &[SHORT_TABLE, "0061 0300 0301 ; [.1C58.0020.0002]\n"],
        ..SHORT
    },
    printed: "WF5 row 3\n",
    end: "false",
};

pub const COMPARE: Case = Case {
    run: Run::Compare("a", "b", Some(NonIgnorable), Weights),
    files: SHORT,
    printed: "< 1\n",
    end: "done",
};

/// The case with these lines, for which this is printed.
pub fn with_input<'a>(case: &Case<'a>, lines: &'a [u8], printed: &'a str) -> Case<'a> {
    Case {
        files: case.files.with_input(lines),
        printed,
        ..*case
    }
}

/// What came of a run. The four are the table, the data file, the input and the output.
#[derive(Drop)]
pub struct Outcome {
    /// What is said of its end, with the status that the program ends with, if by an error.
    pub end: String,
    /// What went out.
    pub printed: Vec<u8>,
    /// Which of the four say that they failed.
    pub failed: [bool; 4],
    /// Which of the four were called.
    pub called: [bool; 4],
}

// The status of an error.
fn status_of(alloc: Global, fault: &RunFault) -> u8 {
    let mut out = Sink::new(Vec::new(alloc));
    let mut err = Sink::new(Vec::new(alloc));
    report(alloc, fault, &mut out, &mut err)
}

// What is said of the end of a run, with the status of an error.
fn end_of(alloc: Global, end: &Result<Answer, RunFault>) -> Result<String, AllocError> {
    let mut text = told(alloc, end)?;
    if let Err(fault) = end {
        write!(text, ", status {}", status_of(alloc, fault))?;
    }
    Ok(text)
}

/// What a run returns, what went out, and which of the four streams say that they failed.
#[derive(Drop)]
struct Ended {
    end: Result<Answer, RunFault>,
    printed: Vec<u8>,
    failed: [bool; 4],
}

// A run with the text of a table, over streams of these paces and with these calls.
fn end_over(
    alloc: Global,
    case: &Case,
    table: &[u8],
    paces: [Pace; 4],
    calls: &[Calls; 4],
) -> Ended {
    let [table_pace, data_pace, input_pace, out_pace] = paces;
    let [table_calls, data_calls, input_calls, out_calls] = calls;
    let data = case.files.data.as_bytes();
    let mut streams = Streams {
        table: Source::new(FakeReader::new(table, table_pace, table_calls)),
        properties: Source::new(FakeReader::new(data, data_pace, data_calls)),
        input: Source::new(FakeReader::new(case.files.input, input_pace, input_calls)),
        out: Sink::new(FakeWriter::new(alloc, out_pace, out_calls)),
    };
    let end = run_over(alloc, &mut streams, case.run);
    Ended {
        end,
        failed: streams.failed(),
        printed: streams.out.into_inner().text,
    }
}

// Whether a call failed, of each of the four.
fn failed_calls(calls: &[Calls; 4]) -> [bool; 4] {
    let [table, data, input, out] = calls;
    [
        table.failed.get() > 0,
        data.failed.get() > 0,
        input.failed.get() > 0,
        out.failed.get() > 0,
    ]
}

// Whether there was a call after one that failed, of each of the four.
fn late_calls(calls: &[Calls; 4]) -> [bool; 4] {
    let [table, data, input, out] = calls;
    [
        table.late.get() > 0,
        data.late.get() > 0,
        input.late.get() > 0,
        out.late.get() > 0,
    ]
}

// Whether there was a call, of each of the four.
fn all_calls(calls: &[Calls; 4]) -> [bool; 4] {
    let [table, data, input, out] = calls;
    [
        table.all.get() > 0,
        data.all.get() > 0,
        input.all.get() > 0,
        out.all.get() > 0,
    ]
}

// How a run with these calls ended. A stream says that it failed exactly if a call of its reader or writer failed.
// So a stream that fails without a call is found, and one that returns without a call. None is called again after a
// call that failed.
fn outcome_of(alloc: Global, ended: Ended, calls: &[Calls; 4]) -> Result<Outcome, Fail> {
    let is_so = ended.failed == failed_calls(calls) && late_calls(calls) == [false; 4];
    holds(is_so, "failed by itself, or tried again")?;
    let end = end_of(alloc, &ended.end)?;
    Ok(Outcome {
        end,
        called: all_calls(calls),
        failed: ended.failed,
        printed: ended.printed,
    })
}

// A run over the text of a table.
fn run_table(alloc: Global, case: &Case, table: &[u8], paces: [Pace; 4]) -> Result<Outcome, Fail> {
    let calls = [Calls::new(), Calls::new(), Calls::new(), Calls::new()];
    let ended = end_over(alloc, case, table, paces, &calls);
    outcome_of(alloc, ended, &calls)
}

/// A run over readers and a writer of these paces.
pub fn run_at(alloc: Global, case: &Case, paces: [Pace; 4]) -> Result<Outcome, Fail> {
    let table = joined(alloc, case.files.table)?;
    run_table(alloc, case, table.as_bytes(), paces)
}

/// Whether a run was whole: it ended and printed as the case says, and no stream failed.
pub fn is_whole(case: &Case, outcome: &Outcome) -> bool {
    outcome.end.as_str() == case.end
        && outcome.printed.as_slice() == case.printed.as_bytes()
        && outcome.failed == [false; 4]
}
