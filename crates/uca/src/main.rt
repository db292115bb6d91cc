//! The program `uca`: it passes its arguments, its files and its standard streams to `run_command`.
#![tactic(auto)]

use std::alloc::AllocError;
use std::io::{Stderr, Stdout};
use std::process::ExitCode;
use uca_cli::{RunFault, STREAM_FAILED, WordFault, report, run_command};
use uca_host::arguments::{given_words, words_of};
use uca_host::files::system::SystemFiles;
use uca_host::standard_streams::hold_standard_streams;
use uca_host::write_help;
use uca_weights::{Sink, Source};

fn main(rt: HostRuntime) -> ExitCode {
    match hold_standard_streams(&rt) {
        Ok(()) => ExitCode::from(run(&rt)),
        Err(_) => ExitCode::from(STREAM_FAILED),
    }
}

// Runs the command over the standard streams.
fn run(rt: &HostRuntime) -> u8 {
    let mut out = Sink::new(rt.stdout());
    let mut err = Sink::new(rt.stderr());
    match run_given(rt, &mut out, &mut err) {
        Ok(status) => status,
        Err(_) => report_arguments(rt, &mut out, &mut err),
    }
}

// Reports that there is no memory for the arguments, or that one is not UTF-8.
fn report_arguments(rt: &HostRuntime, out: &mut Sink<Stdout>, err: &mut Sink<Stderr>) -> u8 {
    let fault = RunFault::Words(WordFault::Memory);
    let status = report(rt.alloc(), &fault, out, err);
    write_help(rt.alloc(), &fault, None, err);
    status
}

// Runs the command of the arguments. An error is an allocation that fails before.
fn run_given(
    rt: &HostRuntime,
    out: &mut Sink<Stdout>,
    err: &mut Sink<Stderr>,
) -> Result<u8, AllocError> {
    let given = given_words(rt)?;
    let words = words_of(rt.alloc(), &given)?;
    let mut input = Source::new(rt.stdin());
    Ok(run_command(
        rt.alloc(),
        &mut SystemFiles { rt },
        &words,
        &mut input,
        out,
        err,
    ))
}
