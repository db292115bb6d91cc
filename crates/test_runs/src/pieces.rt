//! Runs over readers and a writer that give or take few bytes a call. None of them fails, so no run does.

use crate::files::push_key;
use crate::paces::{
    CHECK, COMPARE, Case, FAILED_CHECK, IDENTICAL_KEYS, KEYED_LINES, KEYS, SORT, is_whole, run_at,
    with_input,
};
use crate::runs::Run;
use std::alloc::{AllocError, Global};
use std::test::Fail;
use test_kit::{Pace, holds};

/// How many bytes a call gives or takes at most. The last gives or takes all.
const STEPS: [usize; 6] = [1, 2, 3, 7, 4096, usize::MAX];

// The streams that a run has a use for, of the table, the data file, the input and the output.
fn used_by(run: Run) -> [bool; 4] {
    match run {
        Run::Keys(..) | Run::KeyedLines(..) | Run::Sort(..) => [true; 4],
        Run::Check | Run::Compare(..) => [true, true, false, true],
    }
}

// If a call gives or takes this many bytes, the run prints all. Each stream that it uses is called, and
// none fails.
fn check_step(alloc: Global, case: &Case, step: usize) -> Result<(), Fail> {
    let outcome = run_at(alloc, case, [Pace::steps(step); 4])?;
    let is_used = outcome.called == used_by(case.run);
    let checked = holds(is_whole(case, &outcome) && is_used, &outcome.end);
    drop(outcome);
    checked
}

// However many bytes a call gives or takes.
fn check_pieces(alloc: Global, case: &Case) -> Result<(), Fail> {
    for step in STEPS {
        check_step(alloc, case, step)?;
    }
    Ok(())
}

/// The cases of all runs.
const EACH: &[Case<'static>] = &[
    KEYS,
    IDENTICAL_KEYS,
    KEYED_LINES,
    SORT,
    CHECK,
    FAILED_CHECK,
    COMPARE,
];

// A source that ends without its reader, and a run that always says that no memory is left, do not print this.
#[test]
fn any_number_of_bytes_a_call(rt: HostRuntime) -> Result<(), Fail> {
    for case in EACH {
        check_pieces(rt.alloc(), case)?;
    }
    Ok(())
}

// A line of this many `a`.
fn push_line(text: &mut String, count: usize) -> Result<(), AllocError> {
    for _ in 0..count {
        text.push('a')?;
    }
    text.push('\n')
}

/// Lines of `a`.
#[derive(Drop)]
struct Lines {
    /// In falling order.
    falling: String,
    /// In rising order.
    rising: String,
    /// The keys of those in falling order, as they are printed.
    keys: String,
}

// Lines of these numbers of `a`, which are in rising order.
fn lines_of(alloc: Global, counts: &[usize]) -> Result<Lines, AllocError> {
    let mut lines = Lines {
        falling: String::new(alloc),
        rising: String::new(alloc),
        keys: String::new(alloc),
    };
    for count in counts {
        push_line(&mut lines.rising, *count)?;
    }
    for count in counts.iter().rev() {
        push_line(&mut lines.falling, *count)?;
        push_key(&mut lines.keys, *count)?;
    }
    Ok(lines)
}

// The keys of these lines.
fn check_keys(alloc: Global, lines: &Lines) -> Result<(), Fail> {
    let case = with_input(&KEYS, lines.falling.as_bytes(), &lines.keys);
    check_pieces(alloc, &case)
}

// These lines sorted.
fn check_sorted(alloc: Global, lines: &Lines) -> Result<(), Fail> {
    let case = with_input(&SORT, lines.falling.as_bytes(), &lines.rising);
    check_pieces(alloc, &case)
}

// The keys of lines of these numbers of `a`, and the lines sorted.
fn check_lines(alloc: Global, counts: &[usize]) -> Result<(), Fail> {
    let lines = lines_of(alloc, counts)?;
    check_keys(alloc, &lines)?;
    check_sorted(alloc, &lines)
}

/// Numbers of letters up to 300: how many numbers, and how far apart.
const LENGTHS: usize = 43;

const STRIDE: usize = 7;

#[test]
fn a_line_of_any_length(rt: HostRuntime) -> Result<(), Fail> {
    for place in 0..LENGTHS {
        check_lines(rt.alloc(), &[place.saturating_mul(STRIDE)])?;
    }
    Ok(())
}

#[test]
fn lines_of_many_lengths(rt: HostRuntime) -> Result<(), Fail> {
    let mut counts = Vec::new(rt.alloc());
    for place in 0..LENGTHS {
        counts.push(place.saturating_mul(STRIDE))?;
    }
    check_lines(rt.alloc(), &counts)
}
