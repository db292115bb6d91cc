//! One failure after the other, in any call.

use crate::answers::{Answer, Memory, Wanted, answered};
use crate::cases::{Case, bytes, field, length_of_lines, line_after, lines_of, refused_ends};
use crate::streams::{FILE, NONE, OUT, READ, Trouble};
use std::alloc::{AllocError, Global};
use std::cell::Cell;
use std::io::ErrorKind;
use std::test::Fail;
use test_kit::{Failure, Pace, Refusing, holds, same};

/// How a stream fails, and how many bytes a call takes at most. A reader that gives nothing has not failed, so readers
/// have the first two.
const WAYS: [(Failure, usize); 3] = [
    (Failure::Error(ErrorKind::Interrupted), 1),
    (Failure::Error(ErrorKind::Other), usize::MAX),
    (Failure::Nothing, 7),
];

/// More allocations than any call asks for.
const MOST: u32 = 10_000;

/// What goes out if nothing fails.
#[derive(Drop)]
pub struct Whole {
    /// To the output.
    pub out: Vec<u8>,
    /// To the file of a certificate.
    pub file: Vec<u8>,
}

/// A case under trial.
#[derive(Clone, Copy)]
pub struct Trial<'a> {
    /// The memory of its calls.
    pub memory: Memory<'a>,
    /// The case.
    pub case: &'a Case<'a>,
    /// What goes out if nothing fails.
    pub whole: &'a Whole,
    /// Whether the call is made again after each failure.
    pub is_repeated: bool,
    /// In how many runs a reader or a writer has failed.
    pub broken: &'a Cell<u32>,
}

/// What goes out by the lines of a case.
pub fn whole_of(ample: Global, block: &str) -> Result<Whole, AllocError> {
    Ok(Whole {
        out: bytes(ample, block, "printed")?,
        file: bytes(ample, block, "file")?,
    })
}

/// What is tried of each case.
#[derive(Clone, Copy)]
pub enum Failing {
    /// Each allocation.
    Allocations,
    /// A read after each number of bytes of each file.
    Reads,
    /// A write after each number of bytes.
    Writes,
    /// Nothing, over streams of several paces.
    Nothing,
}

impl<'a> Trial<'a> {
    /// What comes of the call by the lines of the case.
    pub fn wanted(self) -> Wanted<'a> {
        Wanted {
            end: field(self.case.block, "end"),
            out: self.whole.out.as_slice(),
            file: self.whole.file.as_slice(),
            stream: NONE,
        }
    }

    // What comes of the call if this stream fails with this end, and this has gone out.
    fn failing(self, end: &'a str, stream: usize, out: &'a [u8], file: &'a [u8]) -> Wanted<'a> {
        Wanted {
            end,
            out,
            file,
            stream,
        }
    }

    // What goes out before this end: of a run that prints line after line the lines before the one of the input that it
    // names, and else nothing.
    fn begun(self, end: &str) -> &'a [u8] {
        let before = if self.case.prints_lines() {
            lines_before(end)
        } else {
            0
        };
        let length = length_of_lines(&self.whole.out, before);
        first_bytes(&self.whole.out, length)
    }
}

// How many lines of the input come before the one that an end names.
fn lines_before(end: &str) -> usize {
    let Some(rest) = end.strip_prefix("input line ") else {
        return 0;
    };
    let Some((number, _)) = rest.split_once(":") else {
        return 0;
    };
    match number.parse::<usize>() {
        Ok(number) => number.saturating_sub(1),
        Err(_) => 0,
    }
}

fn first_bytes(text: &[u8], count: usize) -> &[u8] {
    match text.get(..count) {
        Some(bytes) => bytes,
        None => text,
    }
}

/// Nothing fails: the result is whole.
pub fn check_whole(trial: Trial, step: usize) -> Result<(), Fail> {
    trial.memory.tried.refuse(None);
    let found = answered(trial.memory, trial.case, Trouble::none(step))?;
    let checked = found.check(trial.wanted(), trial.case.name);
    drop(found);
    checked
}

// How the call ends if the allocation of this number is rejected; `None` if it asks for fewer.
fn refused(trial: Trial, number: u32) -> Result<Option<Answer>, Fail> {
    trial.memory.tried.refuse(Some(number));
    let found = answered(trial.memory, trial.case, Trouble::none(usize::MAX))?;
    if trial.memory.tried.asked() <= number {
        found.check(trial.wanted(), trial.case.name)?;
        return Ok(None);
    }
    check_end(trial, &found)?;
    Ok(Some(found))
}

// A result when an allocation was rejected: what goes out before its end.
fn check_end(trial: Trial, found: &Answer) -> Result<(), Fail> {
    let wanted = trial.failing(&found.end, NONE, trial.begun(&found.end), b"");
    found.check(wanted, trial.case.name)
}

// Adds an end, unless it is the last one already.
fn push_end(ends: &mut Vec<String>, end: String) -> Result<(), Fail> {
    let is_last = match ends.last() {
        Some(last) => last.as_str() == end.as_str(),
        None => false,
    };
    if !is_last {
        ends.push(end)?;
    }
    Ok(())
}

// The ends when one allocation after the other is rejected. Afterwards the call returns as if nothing had happened.
fn ends_of_refusals(trial: Trial) -> Result<Vec<String>, Fail> {
    let mut ends = Vec::new(trial.memory.ample);
    for number in 0..MOST {
        let Some(found) = refused(trial, number)? else {
            return Ok(ends);
        };
        push_end(&mut ends, found.end)?;
        check_whole(trial, usize::MAX)?;
    }
    Err(Fail::new("allocations without end"))
}

// Each allocation is rejected in turn: they are as many as the case says, and the ends are its ends, in their order.
fn check_allocations(trial: Trial) -> Result<(), Fail> {
    let ample = trial.memory.ample;
    let found = ends_of_refusals(trial)?;
    let count = trial.memory.tried.asked();
    let asked = format!(in ample; "{count}")?;
    same(&asked, field(trial.case.block, "asks"), trial.case.block)?;
    let wanted = refused_ends(ample, trial.case)?;
    same(
        &lines_of(ample, &found)?,
        &lines_of(ample, &wanted)?,
        trial.case.name,
    )
}

// A stream has failed, and this is the result.
fn check_broken_answer(trial: Trial, found: &Answer, wanted: Wanted) -> Result<(), Fail> {
    holds(found.is_broken, wanted.end)?;
    found.check(wanted, trial.case.name)
}

// A stream fails, and this is wanted.
fn check_broken(trial: Trial, trouble: Trouble, wanted: Wanted) -> Result<(), Fail> {
    trial.memory.tried.refuse(None);
    let found = answered(trial.memory, trial.case, trouble)?;
    trial.broken.set(trial.broken.get().saturating_add(1));
    let checked = check_broken_answer(trial, &found, wanted);
    drop(found);
    checked
}

/// A stream fails after this many bytes, in each way, and this is wanted. Afterwards the call returns as if nothing
/// had happened.
pub fn check_each_way(trial: Trial, good: usize, wanted: Wanted) -> Result<(), Fail> {
    let stream = wanted.stream;
    let ways = if stream < READ { 2 } else { 3 };
    for (failure, step) in WAYS.iter().take(ways) {
        let pace = Pace::failing(*step, good, *failure);
        check_broken(trial, Trouble { stream, pace }, wanted)?;
    }
    if !trial.is_repeated {
        return Ok(());
    }
    check_whole(trial, 7)
}

// What is said of the end if a reader fails in a line.
fn read_end(trial: Trial, role: &str, line: usize) -> Result<String, AllocError> {
    let ample = trial.memory.ample;
    if role == "rules" {
        return format!(in ample; "rules: Read, status 3");
    }
    if trial.case.is_run() {
        format!(in ample; "{role} line {line}: Read, status 3")
    } else {
        format!(in ample; "line {line}: Read")
    }
}

// A reader fails after each number of the bytes of its file, and where its end is asked for after all of them.
fn check_reader(trial: Trial, stream: usize, role: &str) -> Result<(), Fail> {
    let Some(text) = trial.case.texts.get(stream) else {
        return Err(Fail::new(role));
    };
    let ends = usize::from(!trial.case.is_refused_for(role));
    for good in 0..text.len().saturating_add(ends) {
        let end = read_end(trial, role, line_after(text, good))?;
        let wanted = trial.failing(&end, stream, trial.begun(&end), b"");
        check_each_way(trial, good, wanted)?;
    }
    Ok(())
}

// Each reader in turn fails after each number of the bytes of its file.
fn check_readers(trial: Trial) -> Result<(), Fail> {
    if trial.case.roles.is_empty() {
        return Ok(());
    }
    let mut stream = 0_usize;
    for role in trial.case.roles.split(' ') {
        check_reader(trial, stream, role)?;
        stream = stream.saturating_add(1);
    }
    Ok(())
}

// What is said of the end if a writer fails after this many bytes.
fn write_end(trial: Trial, role: &str, good: usize) -> Result<String, AllocError> {
    let ample = trial.memory.ample;
    if trial.case.is_run() {
        format!(in ample; "{role}: Write after {good}, status 3")
    } else {
        format!(in ample; "the writer failed after {good} bytes")
    }
}

// The writer of the output fails before each of its bytes: those before have gone out, and the whole file.
fn check_output(trial: Trial) -> Result<(), Fail> {
    let text = trial.whole.out.as_slice();
    for good in 0..text.len() {
        let end = write_end(trial, "output", good)?;
        let out = first_bytes(text, good);
        let wanted = trial.failing(&end, OUT, out, trial.whole.file.as_slice());
        check_each_way(trial, good, wanted)?;
    }
    Ok(())
}

// The writer of the file fails before each of its bytes: those before have gone out, and nothing of the output.
fn check_file(trial: Trial) -> Result<(), Fail> {
    let text = trial.whole.file.as_slice();
    for good in 0..text.len() {
        let end = write_end(trial, "certificate", good)?;
        let wanted = trial.failing(&end, FILE, b"", first_bytes(text, good));
        check_each_way(trial, good, wanted)?;
    }
    Ok(())
}

fn check_writers(trial: Trial) -> Result<(), Fail> {
    if !trial.case.is_written() {
        return Ok(());
    }
    check_file(trial)?;
    check_output(trial)
}

// Streams that give or take this many bytes a call.
fn check_paces(trial: Trial) -> Result<(), Fail> {
    for step in [1, 2, 3, 7, 64, usize::MAX] {
        check_whole(trial, step)?;
    }
    Ok(())
}

fn check_trial(trial: Trial, failing: Failing) -> Result<(), Fail> {
    match failing {
        Failing::Allocations => check_allocations(trial),
        Failing::Reads => check_readers(trial),
        Failing::Writes => check_writers(trial),
        Failing::Nothing => check_paces(trial),
    }
}

fn check_case(
    ample: Global,
    block: &str,
    failing: Failing,
    broken: &Cell<u32>,
) -> Result<(), Fail> {
    let case = Case::new(ample, block)?;
    let whole = whole_of(ample, block)?;
    let tried = Refusing::new(ample);
    let memory = Memory {
        ample,
        tried: &tried,
    };
    let trial = Trial {
        memory,
        case: &case,
        whole: &whole,
        is_repeated: true,
        broken,
    };
    check_trial(trial, failing)
}

/// Tries each case of a table. In this many runs a reader or a writer fails.
pub fn check_cases(ample: Global, cases: &str, failing: Failing, runs: u32) -> Result<(), Fail> {
    let broken = Cell::new(0);
    for block in cases.split("\n\n") {
        check_case(ample, block, failing, &broken)?;
    }
    let found = broken.get();
    if found == runs {
        return Ok(());
    }
    Err(Fail::new(format_args!("{found} runs, and not {runs}")))
}
