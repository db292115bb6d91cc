//! The run that audits a change.

ghost use Rattle.std.specs.Prelude.{◌≡◌, ◌||◌, ◌∷◌, []};
ghost use Rattle.uca_editions.specs.ReadChange.{change_of};
ghost use Rattle.uca_run_parts.specs.Runs.{ended_by_output};
ghost use Rattle.uca_run_parts.specs.Verdicts.{RunsAudit};
ghost use Rattle.uca_change_runs.specs.AuditRun.{AuditsChanges, change_audit};

use crate::files::{read_editions, read_listed};
use std::alloc::Allocator;
use std::io::{Read, Write};
use uca_editions::{ChangeFault, ChangeFiles, audit_files};
use uca_run_parts::RunFault;
use uca_run_parts::change_faults::change_verdict;
use uca_run_parts::output::end_verdict;
use uca_weights::{Sink, Source};

/// Audits a change: whether texts that it does not affect compare by the new table and data file as by the old ones. Their
/// stored keys are those that the certificate's maps make of the old ones. Returns whether the change is accepted. Writes the
/// verdict as a line: `accepted`, or the first condition that is not met and the first position where it is not, such as
/// `refused 5 RowChanged old row 3`. The files are read in turn, each to its end or its first error.
///
/// # Errors
///
/// `File` for the first file that is rejected, and `Memory` if an allocation failed in the audit: nothing was written.
/// `Write` if the writer failed: the first `written` bytes of the verdict went out.
pub fn run_audit_changes<
    M: Allocator + Copy,
    A: Read,
    B: Read,
    C: Read,
    D: Read,
    E: Read,
    F: Read,
    W: Write,
>(
    alloc: M,
    old: &mut Source<A>,
    old_data: &mut Source<B>,
    new: &mut Source<C>,
    new_data: &mut Source<D>,
    changes: &mut Source<E>,
    certificate: &mut Source<F>,
    out: &mut Sink<W>,
) -> Result<bool, RunFault>
    ensures { AuditsChanges (old.old ∷ old_data.old ∷ new.old ∷ new_data.old ∷ changes.old ∷ certificate.old ∷ [])
        (old.new ∷ old_data.new ∷ new.new ∷ new_data.new ∷ changes.new ∷ certificate.new ∷ []) out.old out.new result }
{
    match read_editions(alloc, old, old_data, new, new_data) {
        Ok(editions) => match read_listed(alloc, changes, certificate) {
            Ok(listed) => {
                // All files are dropped in one step: that keeps the proof short.
                let files = ChangeFiles { editions, listed };
                let verdict = write_verdict(alloc, &files, out);
                drop(files);
                verdict
            }
            Err(fault) => {
                drop(editions);
                Err(fault)
            }
        },
        Err(fault) => Err(fault),
    }
}

// Audits what the files mean, and writes the verdict as a line.
fn write_verdict<M: Allocator + Copy, W: Write>(
    alloc: M,
    files: &ChangeFiles<M>,
    out: &mut Sink<W>,
) -> Result<bool, RunFault>
    ensures runs { RunsAudit change_audit out.old out.new result (change_of files.now) }
    ensures failed { out.new.failed ≡ (out.old.failed || ended_by_output result) }
{
    match audit_files(alloc, files) {
        Ok(()) => end_verdict(true, b"accepted\n", out),
        Err(ChangeFault::Memory) => Err(RunFault::Memory),
        Err(ChangeFault::NotMet(condition, place)) => {
            let verdict = change_verdict(ChangeFault::NotMet(condition, place));
            end_verdict(false, verdict.text("\n").as_str().as_bytes(), out)
        }
    }
}
