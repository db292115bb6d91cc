//! The run of a command over files in memory.

ghost use Rattle.std.specs.Prelude.{◌≡◌, ◌∷◌, [], IfOk, map};
ghost use Rattle.uca_command_in_memory.specs.Results.{RunsInMemory};

use crate::files::{MadeFile, MemoryFiles};
use std::alloc::Global;
use uca_cli::run_command;
use uca_weights::{Sink, Source};

/// What a command wrote, and its status.
#[derive(Drop)]
pub struct Ended {
    /// The status, from 0 to 4.
    pub status: u8,
    /// What it wrote to standard output.
    pub out: Vec<u8>,
    /// What it wrote to standard error.
    pub err: Vec<u8>,
    /// The file that it made and kept.
    pub kept: Option<MadeFile>,
}

/// Runs the command of these arguments over these files and this input. The first argument is the name of the program.
pub fn run(
    alloc: Global,
    arguments: &[&str],
    names: &[&str],
    files: &[&[u8]],
    input: &[u8],
) -> Ended
    ensures { RunsInMemory (map (λ argument. argument.now) arguments.now) (map (λ name. name.now) names.now)
        (map (λ file. file.now) files.now) input.now result.status result.out.items result.err.items result.kept }
{
    let mut opener = MemoryFiles::new(alloc, names, files);
    let mut input = Source::new(input);
    let mut out = Sink::new(Vec::new(alloc));
    let mut err = Sink::new(Vec::new(alloc));
    let status = run_command(
        alloc,
        &mut opener,
        arguments,
        &mut input,
        &mut out,
        &mut err,
    );
    Ended {
        status,
        out: out.into_inner(),
        err: err.into_inner(),
        kept: opener.into_kept(),
    }
}
