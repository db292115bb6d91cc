//! Writes a certificate: each run of each level as a line.

ghost use Rattle.std.specs.Prelude.{◌≡◌, ◌||◌, ◌<◌, IfErr, length, is_err};
ghost use Rattle.uca_weights.specs.Writes.{Writes};
ghost use Rattle.uca_lines.specs.Buffered.{HasRoom, WritesThrough};
ghost use Rattle.uca_certificates.specs.Texts.{certificate_text};
ghost use Rattle.uca_certificates.specs.inside.Steps.{level_text};

use crate::Certificate;
use crate::spelling::run_line;
use std::alloc::Allocator;
use std::io::Write;
use uca_lines::OutputBuffer;
use uca_weights::{Level, Run, Sink, WriteFault};

/// Writes the text of a certificate: the runs of level 1, of level 2 and of level 3, each a line `LEVEL FROM TO COUNT`
/// ended by LF.
///
/// # Errors
///
/// The writer failed: `written` says how many bytes went out, counted from the beginning of the text.
pub fn write_certificate<W: Write, A: Allocator>(
    certificate: &Certificate<A>,
    out: &mut Sink<W>,
) -> Result<(), WriteFault>
    ensures text { Writes out.old.contents out.new.contents (certificate_text certificate.now) result }
    ensures not_all { IfErr result (λ fault. fault.written < length (certificate_text certificate.now)) }
    ensures failed { out.new.failed ≡ (out.old.failed || is_err result) }
{
    let mut buffer = OutputBuffer::new();
    write_runs(&mut buffer, out, Level::One, certificate.primary.runs())?;
    write_runs(&mut buffer, out, Level::Two, certificate.secondary.runs())?;
    write_runs(&mut buffer, out, Level::Three, certificate.tertiary.runs())?;
    buffer.flush(out)
}

// Writes the runs of a level, each as a line.
fn write_runs<W: Write>(
    buffer: &mut OutputBuffer,
    out: &mut Sink<W>,
    level: Level,
    runs: &[Run],
) -> Result<(), WriteFault>
    requires { HasRoom buffer.old (length (level_text level runs.now)) }
    ensures { WritesThrough (level_text level runs.now) buffer.old buffer.new out.old out.new result }
{
    for run in runs {
        buffer.write(out, &run_line(level, *run))?;
    }
    Ok(())
}
