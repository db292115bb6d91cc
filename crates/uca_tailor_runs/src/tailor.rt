//! The run that tailors a table, and the writing of what it returns.

ghost use Rattle.std.specs.Prelude.{◌≡◌, ◌||◌, ◌∷◌, []};
ghost use Rattle.uca_run_parts.specs.Runs.{ended_by_output};
ghost use Rattle.uca_tailor_runs.specs.TailorRun.{TailorsFiles, WritesTailored, is_certificate_write};

use std::alloc::{Allocator, Global};
use std::io::{Read, Write};
use uca_certificates::{Certificate, write_certificate};
use uca_run_parts::faults::RunFault;
use uca_run_parts::tailor_files::read_tailor_files;
use uca_table::write_table;
use uca_tailor::tailor;
use uca_values::Table;
use uca_weights::{Sink, Source, WriteFault};

/// Tailors a table by rules, and returns the tailored table and the certificate of its weights. The files are read in
/// turn, each to its end or its first error. `write_tailored` writes what is returned.
///
/// # Errors
///
/// `File` for the first file that is rejected, `Tailor` if there is no plan, and `Memory` if an allocation failed
/// after the files were read.
pub fn run_tailor<B: Read, D: Read, U: Read>(
    alloc: Global,
    base: &mut Source<B>,
    properties: &mut Source<D>,
    rules: &mut Source<U>,
) -> Result<(Table, Certificate), RunFault>
    ensures { TailorsFiles (base.old ∷ properties.old ∷ rules.old ∷ []) (base.new ∷ properties.new ∷ rules.new ∷ []) result }
{
    run_tailor_in(alloc, alloc, base, properties, rules)
}

/// As [`run_tailor`], with memory of any allocator. Texts in Normalization Form D are in `global`.
///
/// # Errors
///
/// Those of [`run_tailor`].
pub fn run_tailor_in<A: Allocator + Copy, B: Read, D: Read, U: Read>(
    alloc: A,
    global: Global,
    base: &mut Source<B>,
    properties: &mut Source<D>,
    rules: &mut Source<U>,
) -> Result<(Table<A>, Certificate<A>), RunFault>
    ensures { TailorsFiles (base.old ∷ properties.old ∷ rules.old ∷ []) (base.new ∷ properties.new ∷ rules.new ∷ []) result }
{
    let files = read_tailor_files(alloc, global, base, properties, rules)?;
    let tailored = tailor(alloc, &files.base, &files.properties, &files.rules);
    drop(files);
    match tailored {
        Ok(made) => Ok(made),
        Err(fault) => Err(fault.into()),
    }
}

/// Writes a tailored table and its certificate: first the certificate to `file`, then the table in canonical text to
/// `out`. It takes no memory.
///
/// # Errors
///
/// `CertificateWrite` if the writer of the certificate failed: the first `written` bytes of the certificate went out,
/// and nothing of the table. `Write` if the writer of the table failed: the whole certificate went out, and the first
/// `written` bytes of the table.
pub fn write_tailored<A: Allocator, C: Write, W: Write>(
    table: &Table<A>,
    certificate: &Certificate<A>,
    file: &mut Sink<C>,
    out: &mut Sink<W>,
) -> Result<(), RunFault>
    ensures written { WritesTailored table.now certificate.now file.old file.new out.old out.new result }
    ensures file_failed { file.new.failed ≡ (file.old.failed || is_certificate_write result) }
    ensures out_failed { out.new.failed ≡ (out.old.failed || ended_by_output result) }
{
    if let Err(WriteFault { written }) = write_certificate(certificate, file) {
        return Err(RunFault::CertificateWrite { written });
    }
    Ok(write_table(table, out)?)
}
