//! The run that audits a tailoring.

ghost use Rattle.std.specs.Prelude.{◌≡◌, ◌∷◌, ◌||◌, [], Err, MatchResult};
ghost use Rattle.uca_values.specs.Content.{properties_of};
ghost use Rattle.uca_tailorings.specs.Inputs.{tailoring_of};
ghost use Rattle.uca_run_parts.specs.Runs.{ended_by_output};
ghost use Rattle.uca_run_parts.specs.Verdicts.{RunsAudit};
ghost use Rattle.uca_tailor_runs.specs.AuditRun.{Audits, tailoring_audit};

use std::alloc::{Allocator, Global};
use std::io::{Read, Write};
use uca_audit::audit;
use uca_run_parts::audit_files::{AuditFiles, read_audit_files};
use uca_run_parts::faults::RunFault;
use uca_run_parts::output::end_verdict;
use uca_weights::{Sink, Source};

/// The number that an audit gives to an allocation that failed.
const AUDIT_MEMORY: u8 = 12;

/// Audits a tailoring: whether the tailored table is the base as the rules tailor it, with the weights of the base moved
/// as the certificate says. Returns whether the tailoring is accepted. Writes the verdict as a line: `accepted`, or the
/// first condition that fails and the first position where it does, such as `refused 9 NotPlaced relation 3`. The files
/// are read in turn, each to its end or its first error.
///
/// # Errors
///
/// `File` for the first file that is rejected, and `Memory` if an allocation failed in the audit: nothing was written.
/// `Write` if the writer failed: the first `written` bytes of the verdict went out.
pub fn run_audit<B: Read, D: Read, U: Read, T: Read, C: Read, W: Write>(
    alloc: Global,
    base: &mut Source<B>,
    properties: &mut Source<D>,
    rules: &mut Source<U>,
    tailored: &mut Source<T>,
    certificate: &mut Source<C>,
    out: &mut Sink<W>,
) -> Result<bool, RunFault>
    ensures { Audits (base.old ∷ properties.old ∷ rules.old ∷ tailored.old ∷ certificate.old ∷ [])
        (base.new ∷ properties.new ∷ rules.new ∷ tailored.new ∷ certificate.new ∷ []) out.old out.new result }
{
    run_audit_in(
        alloc,
        alloc,
        base,
        properties,
        rules,
        tailored,
        certificate,
        out,
    )
}

/// As [`run_audit`], with memory of any allocator. Texts in Normalization Form D are in `global`.
///
/// # Errors
///
/// Those of [`run_audit`].
pub fn run_audit_in<A: Allocator + Copy, B: Read, D: Read, U: Read, T: Read, C: Read, W: Write>(
    alloc: A,
    global: Global,
    base: &mut Source<B>,
    properties: &mut Source<D>,
    rules: &mut Source<U>,
    tailored: &mut Source<T>,
    certificate: &mut Source<C>,
    out: &mut Sink<W>,
) -> Result<bool, RunFault>
    ensures { Audits (base.old ∷ properties.old ∷ rules.old ∷ tailored.old ∷ certificate.old ∷ [])
        (base.new ∷ properties.new ∷ rules.new ∷ tailored.new ∷ certificate.new ∷ []) out.old out.new result }
{
    let files = read_audit_files(
        alloc,
        global,
        base,
        properties,
        rules,
        tailored,
        certificate,
    );
    audit_read(alloc, files, out)
}

// Audits what was read. An error of the reading is returned, and then nothing is written.
fn audit_read<A: Allocator + Copy, W: Write>(
    alloc: A,
    read: Result<AuditFiles<A>, RunFault>,
    out: &mut Sink<W>,
) -> Result<bool, RunFault>
    ensures runs { MatchResult read
        (λ files. RunsAudit tailoring_audit out.old out.new result
        (tailoring_of files.base (properties_of files.properties) files.rules files.tailored files.certificate))
        (λ fault. (result ≡ Err fault) × (out.new ≡ out.old)) }
    ensures failed { MatchResult read (λ files. out.new.failed ≡ (out.old.failed || ended_by_output result)) (λ fault. out.new ≡ out.old) }
{
    match read {
        Ok(files) => {
            // All files are dropped in one step: that keeps the proof short.
            let verdict = write_verdict(alloc, &files, out);
            drop(files);
            verdict
        }
        Err(fault) => Err(fault),
    }
}

// Audits what the files mean, and writes the verdict as a line.
fn write_verdict<A: Allocator + Copy, W: Write>(
    alloc: A,
    files: &AuditFiles<A>,
    out: &mut Sink<W>,
) -> Result<bool, RunFault>
    ensures runs { RunsAudit tailoring_audit out.old out.new result
        (tailoring_of files.now.base (properties_of files.now.properties) files.now.rules files.now.tailored files.now.certificate) }
    ensures failed { out.new.failed ≡ (out.old.failed || ended_by_output result) }
{
    let verdict = audit(
        alloc,
        &files.base,
        &files.properties,
        &files.rules,
        &files.tailored,
        &files.certificate,
    );
    let Err(fault) = verdict else {
        return end_verdict(true, b"accepted\n", out);
    };
    if fault.number == AUDIT_MEMORY {
        return Err(RunFault::Memory);
    }
    end_verdict(false, fault.message().text("\n").as_str().as_bytes(), out)
}
