//! The runs of the command over any readers and any writer.

use std::alloc::{AllocError, Global};
use std::io::{Read, Write};
use test_kit::{Streams, no_book};
use uca_cli::{
    KeyOutput, KeySizes, RunFault, run_check, run_compare, run_keys, run_keys_as, run_sort,
};
use uca_weights::{Asked, Depth, Numbers, Sink, Source, Weighting};

/// A run, the weighting that it is asked for, if any, and its depth.
#[derive(Clone, Copy)]
pub enum Run<'a> {
    /// It prints the keys of the lines of the input.
    Keys(Option<Weighting>, Depth),
    /// It prints the lines of the input, each after its key.
    KeyedLines(Option<Weighting>, Depth),
    /// It prints the lines of the input in the order of their keys.
    Sort(Option<Weighting>, Depth),
    /// It says whether the table is well-formed.
    Check,
    /// It says how a left text and a right text compare.
    Compare(&'a str, &'a str, Option<Weighting>, Depth),
}

/// What a run without an error returns.
#[derive(Clone, Copy)]
pub enum Answer {
    /// That it is done.
    Done,
    /// Whether the table is well-formed.
    Verdict(bool),
}

/// What is said of the end of a run: what it returns, or the text of its error.
pub fn told(alloc: Global, end: &Result<Answer, RunFault>) -> Result<String, AllocError> {
    match end {
        Ok(Answer::Done) => String::from_str(alloc, "done"),
        Ok(Answer::Verdict(verdict)) => format!(in alloc; "{verdict}"),
        Err(RunFault::Write { written }) => format!(in alloc; "output: Write after {written}"),
        Err(RunFault::CertificateWrite { written }) => {
            format!(in alloc; "certificate: Write after {written}")
        }
        Err(fault) => format!(in alloc; "{fault}"),
    }
}

// What a run without a verdict returns.
fn done(end: Result<(), RunFault>) -> Result<Answer, RunFault> {
    match end {
        Ok(()) => Ok(Answer::Done),
        Err(fault) => Err(fault),
    }
}

// What a run with a verdict returns.
fn verdict(end: Result<bool, RunFault>) -> Result<Answer, RunFault> {
    match end {
        Ok(verdict) => Ok(Answer::Verdict(verdict)),
        Err(fault) => Err(fault),
    }
}

/// Runs over streams.
pub fn run_over<T: Read, D: Read, I: Read, W: Write>(
    alloc: Global,
    streams: &mut Streams<T, D, I, W>,
    run: Run,
) -> Result<Answer, RunFault> {
    let Streams {
        table,
        properties,
        input,
        out,
    } = streams;
    match run {
        Run::Keys(asked, depth) => done(run_keys(
            alloc, table, properties, input, out, asked, depth,
        )),
        Run::KeyedLines(weighting, depth) => {
            let asked = Asked {
                weighting,
                depth,
                numbers: Numbers::AsText,
            };
            let output = KeyOutput {
                lines: true,
                header: false,
            };
            let mut sizes = KeySizes::new();
            done(run_keys_as(
                alloc,
                alloc,
                table,
                properties,
                &mut no_book(),
                input,
                out,
                asked,
                output,
                &mut sizes,
            ))
        }
        Run::Sort(asked, depth) => done(run_sort(
            alloc, table, properties, input, out, asked, depth,
        )),
        Run::Check => verdict(run_check(alloc, table, properties, out)),
        Run::Compare(left, right, asked, depth) => done(run_compare(
            alloc, table, properties, left, right, out, asked, depth,
        )),
    }
}
