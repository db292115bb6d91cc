//! What runs write to their output: short texts, lines, and what waits at the end.

ghost use Rattle.std.specs.Prelude.{◌≡◌, ◌||◌, true, false, ℕ, Bool, List, Option, IfErr, IfSome, OnOk, length};
ghost use Rattle.std.specs.Io.KnownBytes.{Appends};
ghost use Rattle.uca_weights.specs.Streams.{SourceState};
ghost use Rattle.uca_text.specs.Texts.{NfdText};
ghost use Rattle.uca_lines.specs.Lines.{ended};
ghost use Rattle.uca_lines.specs.Buffered.{HasRoom, WritesThrough};
ghost use Rattle.uca_run_parts.specs.EachLine.{WritesEach, ended_before_input};
ghost use Rattle.uca_run_parts.specs.EachLineSoFar.{WritesRest};
ghost use Rattle.uca_run_parts.specs.Files.{ended_by_file};
ghost use Rattle.uca_run_parts.specs.Runs.{ended_before_output, ended_by_output, is_input_read, FailsToWrite};
ghost use Rattle.uca_run_parts.specs.Verdicts.{IsThis, WritesVerdict};

use crate::faults::RunFault;
use std::io::Write;
use uca_lines::OutputBuffer;
use uca_weights::{Sink, WriteFault};

/// Writes a text.
///
/// # Errors
///
/// `Write` if the writer failed: the first `written` bytes of the text went out.
pub fn write_text<W: Write>(text: &[u8], out: &mut Sink<W>) -> Result<(), RunFault>
    ensures written { OnOk result (Appends out.old.contents out.new.contents text.now) }
    ensures failed_in { IfErr result (FailsToWrite RunFault.Write out.old.contents out.new.contents text.now) }
    ensures of_output { ended_before_output result ≡ false }
    ensures no_file { ended_by_file result ≡ false }
    ensures failed { out.new.failed ≡ (out.old.failed || ended_by_output result) }
{
    Ok(out.write_all(text)?)
}

/// Writes the line of a verdict, and returns the verdict.
///
/// # Errors
///
/// `Write` if the writer failed: the first `written` bytes of the line went out.
pub fn end_verdict<W: Write>(
    verdict: bool,
    line: &[u8],
    out: &mut Sink<W>,
) -> Result<bool, RunFault>
    ensures verdict { WritesVerdict (IsThis verdict line.now) out.old.contents out.new.contents result }
    ensures of_output { ended_before_output result ≡ false }
    ensures no_file { ended_by_file result ≡ false }
    ensures failed { out.new.failed ≡ (out.old.failed || ended_by_output result) }
{
    match write_text(line, out) {
        Ok(()) => Ok(verdict),
        Err(fault) => Err(fault),
    }
}

/// Writes a line and its LF.
///
/// # Errors
///
/// Those of [`OutputBuffer::write`]: an error says how many bytes went out of all that was written to the buffer.
pub fn write_line<W: Write>(
    output: &mut OutputBuffer,
    out: &mut Sink<W>,
    line: &[u8],
) -> Result<(), WriteFault>
    requires { HasRoom output.old (length (ended line.now)) }
    ensures writes { WritesThrough (ended line.now) output.old output.new out.old out.new result }
{
    output.write(out, line)?;
    output.write(out, b"\n")
}

/// Ends a run of lines that returns `end`: what waits is written, where the writer has not failed.
///
/// # Errors
///
/// Those of `end`; `Write` where the writer fails now.
pub fn end_output<W: Write>(
    output: &mut OutputBuffer,
    out: &mut Sink<W>,
    end: Result<(), RunFault>,
) -> Result<(), RunFault>
    ensures writes { (read_of : List ℕ → NfdText) (bytes_of : List ℕ → List ℕ) (start begun : Option (List ℕ)) (input : SourceState) →
        WritesRest read_of bytes_of start begun input output.old out.old end →
        IfSome start (λ bytes. WritesEach read_of bytes_of bytes input.remaining begun out.new.contents result) }
    ensures of_lines { ended_before_input end ≡ false → ended_before_input result ≡ false }
    ensures not_read { ended_by_output result ≡ false → is_input_read result ≡ is_input_read end }
    ensures failed { (before : Bool) → out.old.failed ≡ (before || ended_by_output end) →
        out.new.failed ≡ (before || ended_by_output result) }
{
    if is_write_fault(&end) {
        return end;
    }
    output.flush(out)?;
    end
}

// Whether the writer has failed.
fn is_write_fault(end: &Result<(), RunFault>) -> bool
    ensures { result ≡ ended_by_output end.now }
{
    match end {
        Err(RunFault::Write { .. }) => true,
        _ => false,
    }
}
