//! Files of any lines: what the reading of files says of every kind of line is true of these.

use std::alloc::{AllocError, Global};
use std::test::Fail;
use test_kit::{halves, same};
use uca_lines::files::laws::{MayEndEarly, no_meaning_with_fault, one_meaning};
use uca_lines::files::{FaultKind, FileForm, LineParser, TABLE_FORM, read_lines};
use uca_weights::Source;

/// Takes any lines, which say nothing.
#[derive(Drop)]
struct AnyLines;

impl LineParser for AnyLines {
    ghost use Rattle.std.specs.Prelude.{⊤};
    ghost use Rattle.uca_lines.specs.declared.files.TheConstants.{TABLE_FORM};
    ghost use Rattle.uca_lines.specs.FileStops.{is_read_kind};

    type Kind = FaultKind;

    ghost form = { TABLE_FORM };

    ghost is_read = { is_read_kind };

    ghost says = { λ _ _. ⊤ };

    ghost cause = { λ _ _ _. ⊥ };

    fn form() -> FileForm<FaultKind> {
        TABLE_FORM
    }

    fn take(&mut self, _line: &[u8]) -> Result<(), FaultKind> {
        Ok(())
    }
}

impl MayEndEarly for AnyLines {
    ghost is_unfinished = { λ _. ⊥ };
}

/// A file, and how many lines it has or why it is rejected.
const FILES: &str = " | Ok(0)
a | Err(LineFileFault { line: 1, kind: Line })";

/// What is said of a file.
fn said(alloc: Global, file: &[u8]) -> Result<String, AllocError> {
    let found = read_lines(alloc, &mut Source::new(file), &mut AnyLines);
    format!(in alloc; "{found:?}")
}

fn check_file(alloc: Global, case: &str) -> Result<(), Fail> {
    let (file, wanted) = halves(case)?;
    same(&said(alloc, file.as_bytes())?, wanted, case)
}

#[test]
fn files_of_any_lines(rt: HostRuntime) -> Result<(), Fail> {
    for case in FILES.lines() {
        check_file(rt.alloc(), case)?;
    }
    Ok(())
}

#[test]
fn laws_of_any_lines() {
    one_meaning::<AnyLines>();
    no_meaning_with_fault::<AnyLines>();
}
