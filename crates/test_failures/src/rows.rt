//! Tests what the documents say of failures, by a case for each row that they have.

use crate::answers::{Answer, Memory, Wanted, answered};
use crate::calls::ROWS;
use crate::cases::{Case, field};
use crate::streams::{FILE, NONE, OUT, Trouble};
use crate::trials::{Trial, check_each_way, check_whole, whole_of};
use std::alloc::Global;
use std::cell::Cell;
use std::test::Fail;
use test_kit::Refusing;

// The number of a stream: a role, or the name of an output.
fn stream_of(roles: &str, name: &str) -> usize {
    match name {
        "file" => FILE,
        "out" => OUT,
        _ => place_of(roles, name),
    }
}

fn place_of(roles: &str, name: &str) -> usize {
    let place = roles.split(' ').position(|role| role == name);
    place.unwrap_or(NONE)
}

// The stream fails in each way after this many bytes, with the end of the case.
fn check_failing(trial: Trial, fails: &str) -> Result<(), Fail> {
    let (name, good) = fails.split_once(' ').ok_or("a stream without bytes")?;
    let wanted = Wanted {
        stream: stream_of(trial.case.roles, name),
        ..trial.wanted()
    };
    check_each_way(trial, good.parse::<usize>()?, wanted)
}

// How the call ends if the allocation of this number is rejected.
fn refused(trial: Trial, number: u32) -> Result<Answer, Fail> {
    trial.memory.tried.refuse(Some(number));
    let found = answered(trial.memory, trial.case, Trouble::none(usize::MAX))?;
    if trial.memory.tried.asked() > number {
        return Ok(found);
    }
    Err(Fail::new(trial.case.block))
}

// The number of the first allocation from this one on that is rejected with this end.
fn refused_with(trial: Trial, first: u32, end: &str) -> Result<u32, Fail> {
    for number in first..1000 {
        if refused(trial, number)?.end.as_str() == end {
            return Ok(number);
        }
    }
    Err(Fail::new(end))
}

// After the first allocation that is rejected with an end of the call, one is rejected with the end of the case.
fn check_refused(trial: Trial, after: &str) -> Result<(), Fail> {
    let end = after.strip_prefix("after ").ok_or("refused after nothing")?;
    let first = refused_with(trial, 0, end)?;
    let wanted = trial.wanted();
    let number = refused_with(trial, first, wanted.end)?;
    refused(trial, number)?.check(wanted, trial.case.block)
}

fn check_row(ample: Global, block: &str) -> Result<(), Fail> {
    let case = Case::new(ample, block)?;
    let whole = whole_of(ample, block)?;
    let tried = Refusing::new(ample);
    let trial = Trial {
        memory: Memory {
            ample,
            tried: &tried,
        },
        case: &case,
        whole: &whole,
        is_repeated: false,
        broken: &Cell::new(0),
    };
    check_kind(trial)
}

fn check_kind(trial: Trial) -> Result<(), Fail> {
    let fails = field(trial.case.block, "fails");
    if !fails.is_empty() {
        return check_failing(trial, fails);
    }
    let after = field(trial.case.block, "refused");
    if !after.is_empty() {
        return check_refused(trial, after);
    }
    check_whole(trial, 1)
}

#[test]
fn rows(rt: HostRuntime) -> Result<(), Fail> {
    for block in ROWS.split("\n\n") {
        check_row(rt.alloc(), block)?;
    }
    Ok(())
}
