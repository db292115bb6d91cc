//! What fails, and what is then returned and written.

use crate::change_runs::{
    COMPACT, COMPACT_WORDS, EXPANDED, End, HEADED_COMPACT, HEADED_COMPACT_KEYS, HEADED_EXPANDED,
    IMAGE, KEYS, MOVED, Run, call, rekey,
};
use std::alloc::Global;
use std::io::ErrorKind;
use std::test::Fail;
use test_kit::{Calls, Failure, FakeReader, FakeWriter, Pace, Refusing, holds};
use uca_run_parts::RunFault;
use uca_weights::{Sink, Source};

/// A run, the files and the other places where its allocations fail, and what it writes if none fails.
struct Case<'a> {
    run: Run,
    places: &'a str,
    whole: &'a str,
}

const EDITIONS: &[Case<'static>] = &[
    Case {
        run: Run::Changes,
        places: "old old-data new new-data memory",
        whole: "@changes 1\ntext 0063\nrange 0324..0324\n\
            1 1C47 1C47 0001\n1 1C60 1C61 0001\n2 0020 0020 0001\n3 0002 0002 0001\n",
    },
    Case {
        run: Run::Audit,
        places: "old old-data new new-data changes certificate memory",
        whole: "accepted\n",
    },
    Case {
        run: Run::Book,
        places: "certificate book memory",
        whole: IMAGE,
    },
];

/// These are the runs over lines.
const LINES: &[Case<'static>] = &[
    Case {
        run: Run::Affected,
        places: "data changes memory input",
        whole: "c\nccccccccc\u{324}\n",
    },
    Case {
        run: Run::Rekey,
        places: "certificate memory input",
        whole: MOVED,
    },
    Case {
        run: Run::Compact,
        places: "book memory input",
        whole: COMPACT,
    },
    Case {
        run: Run::Expand,
        places: "book memory input",
        whole: EXPANDED,
    },
    Case {
        run: Run::HeadedCompact,
        places: "book memory input",
        whole: HEADED_COMPACT,
    },
    Case {
        run: Run::HeadedExpand,
        places: "book memory input",
        whole: HEADED_EXPANDED,
    },
    Case {
        run: Run::CompactLines,
        places: "table data book memory input",
        whole: COMPACT_WORDS,
    },
    Case {
        run: Run::HeadedCompactKeys,
        places: "table data book memory input",
        whole: HEADED_COMPACT_KEYS,
    },
];

/// The places that are left to come, and the one that came last.
#[derive(Clone, Copy)]
struct Places<'x> {
    last: &'x str,
    rest: &'x str,
}

impl Places<'_> {
    // Whether the place is the last one again, or else the first of those that are left. It is the last one then.
    fn pass(&mut self, place: &str) -> bool {
        if place == self.last {
            return true;
        }
        let (next, rest) = self.rest.split_once(" ").unwrap_or((self.rest, ""));
        self.last = next;
        self.rest = rest;
        place == next
    }
}

// The place that an error of memory names: a file, the input, or `memory`.
fn place_of(said: &str) -> &str {
    let front = said.strip_suffix(": Memory").unwrap_or("");
    match front.split_once(" line ") {
        Some((place, _)) => place,
        None => said,
    }
}

// All is written if the run is done, and else whole lines before the error.
fn is_right_end(end: &End, out: &[u8], whole: &[u8], places: &mut Places) -> bool {
    match end {
        Ok(()) => out == whole,
        Err(fault) => {
            let is_front = whole.starts_with(out) && (out.is_empty() || out.ends_with(b"\n"));
            is_front && places.pass(place_of(fault.message().as_str()))
        }
    }
}

// A run in which the allocation of this number fails, if it asks for so many. All that it took is given back. Returns
// whether it asks for fewer.
fn is_done(ample: Global, case: &Case, number: u32, places: &mut Places) -> Result<bool, Fail> {
    let tried = Refusing::new(ample);
    tried.refuse(Some(number));
    let mut out = Sink::new(Vec::new(ample));
    let end = call(ample, &tried, case.run, &mut out);
    let is_right = is_right_end(&end, &out.into_inner(), case.whole.as_bytes(), places);
    let is_given_back = tried.held() == 0;
    let is_done = tried.asked() <= number;
    holds(
        is_right && is_given_back && end.is_ok() == is_done,
        case.whole,
    )?;
    Ok(is_done)
}

// Each allocation of a run fails in turn, and then none.
fn check_case(ample: Global, case: &Case) -> Result<(), Fail> {
    let mut places = Places {
        last: "",
        rest: case.places,
    };
    for number in 0..1_000 {
        if is_done(ample, case, number, &mut places)? {
            return holds(places.rest.is_empty(), case.places);
        }
    }
    Err(Fail::new("allocations without end"))
}

fn check_cases(ample: Global, cases: &[Case]) -> Result<(), Fail> {
    for case in cases {
        check_case(ample, case)?;
    }
    Ok(())
}

#[test]
fn each_allocation_over_editions_fails(rt: HostRuntime) -> Result<(), Fail> {
    check_cases(rt.alloc(), EDITIONS)
}

#[test]
fn each_allocation_over_lines_fails(rt: HostRuntime) -> Result<(), Fail> {
    check_cases(rt.alloc(), LINES)
}

// Streams that give or take up to seven bytes a call, and fail after this many.
fn pace(good: usize) -> Pace {
    Pace::failing(7, good, Failure::Error(ErrorKind::Other))
}

// How many bytes went out, if the writer has failed.
fn written(fault: &RunFault) -> Option<u64> {
    match fault {
        RunFault::Write { written } => Some(*written),
        _ => None,
    }
}

// Whether a run ends with the error of this text. Where the writer has failed, the error says how many bytes went out.
fn is_told(end: &End, wanted: &str, count: usize) -> bool {
    match end {
        Ok(()) => false,
        Err(fault) => {
            let is_counted = written(fault).unwrap_or(count as u64) == count as u64;
            is_counted && fault.message().as_str() == wanted
        }
    }
}

// A run whose reader fails after so many bytes, and its writer too. It returns the error of this text, and this many bytes go
// out. A stream that has failed is not called again.
fn check_streams(
    ample: Global,
    read: usize,
    taken: usize,
    wanted: &str,
    count: usize,
) -> Result<(), Fail> {
    let reads = Calls::new();
    let writes = Calls::new();
    let mut input = Source::new(FakeReader::new(KEYS.as_bytes(), pace(read), &reads));
    let mut out = Sink::new(FakeWriter::new(ample, pace(taken), &writes));
    let is_told = is_told(&rekey(ample, &mut input, &mut out), wanted, count);
    let is_front = MOVED.as_bytes().get(..count) == Some(out.into_inner().text.as_slice());
    let is_late = reads.late.get() > 0 || writes.late.get() > 0;
    holds(is_told && is_front && !is_late, wanted)
}

/// The error has the line that is being read, and the lines before it are written.
#[test]
fn a_read_fails(rt: HostRuntime) -> Result<(), Fail> {
    for (read, wanted, count) in [
        (0, "input line 1: Read", 0),
        (24, "input line 1: Read", 0),
        (25, "input line 2: Read", 25),
        (64, "input line 3: Read", 61),
    ] {
        check_streams(rt.alloc(), read, usize::MAX, wanted, count)?;
    }
    Ok(())
}

#[test]
fn a_write_fails(rt: HostRuntime) -> Result<(), Fail> {
    for taken in [0, 1, 24, 25, 50, 70] {
        check_streams(rt.alloc(), usize::MAX, taken, "output: Write", taken)?;
    }
    Ok(())
}
