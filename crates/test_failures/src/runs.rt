//! The calls that are runs of the subcommands, and what is said of the end of each.

use crate::answers::Memory;
use crate::streams::Streams;
use std::alloc::{Allocator, Global};
use std::test::Fail;
use test_kit::no_book;
use uca_certificates::Certificate;
use uca_host::report;
use uca_key_runs::{KeyOutput, run_compare_in, run_keys_as, run_sort_in};
use uca_run_parts::{KeySizes, RunFault, run_affected, run_check};
use uca_tailor_runs::{run_audit_in, run_tailor_in, write_tailored};
use uca_values::Table;
use uca_weights::Depth::{Identical, Weights};
use uca_weights::Weighting::NonIgnorable;
use uca_weights::{Asked, Depth, Numbers, Sink};

// What keys are asked for.
fn asked_at(depth: Depth) -> Asked {
    Asked {
        weighting: Some(NonIgnorable),
        depth,
        numbers: Numbers::AsText,
    }
}

// The run of keys, with or without the lines.
fn keys(memory: Memory, streams: &mut Streams, depth: Depth, lines: bool) -> Result<(), RunFault> {
    let header = false;
    run_keys_as(
        memory.tried,
        memory.ample,
        &mut streams.table,
        &mut streams.properties,
        &mut no_book(),
        &mut streams.text,
        &mut streams.out,
        asked_at(depth),
        KeyOutput { lines, header },
        &mut KeySizes::new(),
    )
}

// Its files stand one place further to the front: it has no table.
fn affected(memory: Memory, streams: &mut Streams) -> Result<(), RunFault> {
    run_affected(
        memory.tried,
        memory.ample,
        &mut streams.table,
        &mut streams.properties,
        &mut streams.text,
        &mut streams.out,
        Numbers::AsText,
    )
}

fn sort(memory: Memory, streams: &mut Streams) -> Result<(), RunFault> {
    run_sort_in(
        memory.tried,
        memory.ample,
        &mut streams.table,
        &mut streams.properties,
        &mut streams.text,
        &mut streams.out,
        asked_at(Weights),
    )
}

fn compare(memory: Memory, streams: &mut Streams) -> Result<(), RunFault> {
    run_compare_in(
        memory.tried,
        memory.ample,
        &mut streams.table,
        &mut streams.properties,
        "a",
        "b",
        &mut streams.out,
        asked_at(Weights),
    )
}

fn write_plan<A: Allocator>(
    streams: &mut Streams,
    (table, certificate): &(Table<A>, Certificate<A>),
) -> Result<(), RunFault> {
    write_tailored(table, certificate, &mut streams.file, &mut streams.out)
}

fn tailor(memory: Memory, streams: &mut Streams) -> Result<(), RunFault> {
    let run = run_tailor_in(
        memory.tried,
        memory.ample,
        &mut streams.table,
        &mut streams.properties,
        &mut streams.text,
    );
    match run {
        Ok(plan) => {
            let written = write_plan(streams, &plan);
            drop(plan);
            written
        }
        Err(fault) => Err(fault),
    }
}

fn check(memory: Memory, streams: &mut Streams) -> Result<bool, RunFault> {
    run_check(
        memory.tried,
        &mut streams.table,
        &mut streams.properties,
        &mut streams.out,
    )
}

fn audit(memory: Memory, streams: &mut Streams) -> Result<bool, RunFault> {
    run_audit_in(
        memory.tried,
        memory.ample,
        &mut streams.table,
        &mut streams.properties,
        &mut streams.text,
        &mut streams.tailored,
        &mut streams.certificate,
        &mut streams.out,
    )
}

// How many bytes went out before a write failed.
fn written(fault: &RunFault) -> Option<u64> {
    match fault {
        RunFault::Write { written } => Some(*written),
        RunFault::CertificateWrite { written } => Some(*written),
        _ => None,
    }
}

// The line of an error and its status, and how much was written before it.
fn told(ample: Global, fault: &RunFault) -> Result<String, Fail> {
    let mut out = Sink::new(Vec::new(ample));
    let mut err = Sink::new(Vec::new(ample));
    let status = report(ample, fault, &mut out, &mut err);
    let line = err.into_inner();
    let line = str::from_utf8(&line)?.trim_end();
    match written(fault) {
        Some(count) => Ok(format!(in ample; "{line} after {count}, status {status}")?),
        None => Ok(format!(in ample; "{line}, status {status}")?),
    }
}

fn end_of(ample: Global, answer: &Result<(), RunFault>) -> Result<String, Fail> {
    match answer {
        Ok(()) => Ok(String::from_str(ample, "done")?),
        Err(fault) => told(ample, fault),
    }
}

fn end_of_verdict(ample: Global, answer: &Result<bool, RunFault>) -> Result<String, Fail> {
    match answer {
        Ok(verdict) => Ok(format!(in ample; "{verdict}")?),
        Err(fault) => told(ample, fault),
    }
}

// A run with a verdict.
fn run_with_verdict(memory: Memory, streams: &mut Streams, name: &str) -> Result<bool, RunFault> {
    match name {
        "check" => check(memory, streams),
        _ => audit(memory, streams),
    }
}

// A run without a verdict.
fn run(memory: Memory, streams: &mut Streams, name: &str) -> Result<(), RunFault> {
    match name {
        "keys" => keys(memory, streams, Weights, false),
        "identical keys" => keys(memory, streams, Identical, false),
        "keyed lines" => keys(memory, streams, Weights, true),
        "identical keyed lines" => keys(memory, streams, Identical, true),
        "affected" => affected(memory, streams),
        "sort" => sort(memory, streams),
        "compare" => compare(memory, streams),
        _ => tailor(memory, streams),
    }
}

fn told_of_verdict(memory: Memory, streams: &mut Streams, name: &str) -> Result<String, Fail> {
    let answer = run_with_verdict(memory, streams, name);
    let told = end_of_verdict(memory.ample, &answer);
    drop(answer);
    told
}

fn told_of_run(memory: Memory, streams: &mut Streams, name: &str) -> Result<String, Fail> {
    let answer = run(memory, streams, name);
    let told = end_of(memory.ample, &answer);
    drop(answer);
    told
}

/// The run of this name, and what is said of its end.
pub fn runs(memory: Memory, streams: &mut Streams, name: &str) -> Result<String, Fail> {
    match name {
        "check" | "audit" => told_of_verdict(memory, streams, name),
        "keys"
        | "identical keys"
        | "keyed lines"
        | "identical keyed lines"
        | "affected"
        | "sort"
        | "compare"
        | "tailor" => told_of_run(memory, streams, name),
        _ => Err(Fail::new(name)),
    }
}
