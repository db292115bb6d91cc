//! The lines that a run writes: how many there are, and how many bytes they have.

ghost use Rattle.std.specs.Prelude.{◌≡◌, ◌^◌, ◌≤◌, ◌||◌, [], ℕ, Bool, false, length};
ghost use Rattle.uca_run_parts.specs.EachLine.{ended_before_input};
ghost use Rattle.uca_run_parts.specs.Runs.{ended_by_output, is_input_read};
ghost use Rattle.uca_rekey.specs.inside.ChangeSoFar.{EndsIf, WritesLine};

use std::io::Write;
use std::marker::Model;
use uca_lines::OutputBuffer;
use uca_run_parts::output::write_line;
use uca_run_parts::{KeySizes, RunFault, StoredKeyKind};
use uca_weights::Sink;

/// How many bytes all lines may have, each with its LF.
const LIMIT: u64 = 0x8000_0000_0000_0000;

/// The lines that go to one sink.
#[derive(Drop)]
pub(crate) struct WrittenLines {
    output: OutputBuffer,
    number: u64,
    // how many bytes they have, each with its LF
    size: u64,
}

impl Model for WrittenLines {
    ghost use Rattle.std.specs.Prelude.{◌≡◌, ◌^◌, ◌≤◌};
    ghost use Rattle.uca_lines.specs.Buffered.{count_of};
    ghost use Rattle.uca_rekey.specs.inside.ChangeSoFar.{WrittenState};

    ghost Value = { WrittenState };

    ghost view = { λ w. record { buffer = w.output; number = w.number } };

    ghost invariant = { λ w. (count_of w.output ≡ w.size) × (w.number ≤ w.size) × (w.size ≤ 2 ^ 63) };
}

impl WrittenLines {
    /// No lines. They take no memory.
    pub fn new() -> WrittenLines
        ensures held { result.buffer.held ≡ [] }
        ensures written { result.buffer.written ≡ 0 }
        ensures number { result.number ≡ 0 }
    {
        WrittenLines {
            output: OutputBuffer::new(),
            number: 0,
            size: 0,
        }
    }

    /// How many lines there are.
    pub fn number(&self) -> u64
        ensures value { result ≡ self.now.number }
        ensures within { result ≤ 2 ^ 63 }
    {
        let _ = &self.size;
        self.number
    }

    /// Writes a line and its LF.
    ///
    /// # Errors
    ///
    /// - `StoredKey` with the number of the line and `TooLong`, if all lines would have more bytes than `LIMIT`. Nothing was written.
    /// - `Write` if the writer failed. The lines are then gone.
    pub fn write<W: Write>(&mut self, out: &mut Sink<W>, line: &[u8]) -> Result<(), RunFault>
        ensures writes { WritesLine line.now self.old self.new out.old out.new result }
        ensures not_read { is_input_read result ≡ false }
        ensures failed { out.new.failed ≡ (out.old.failed || ended_by_output result) }
    {
        let len = line.len() as u64;
        if len >= LIMIT - self.size {
            return Err(RunFault::StoredKey {
                line: self.number + 1,
                kind: StoredKeyKind::TooLong,
            });
        }
        match write_line(&mut self.output, out, line) {
            Ok(()) => {
                self.size += len + 1;
                self.number += 1;
                Ok(())
            }
            Err(fault) => {
                // What waits is not written any more.
                *self = WrittenLines::new();
                Err(RunFault::from(fault))
            }
        }
    }

    /// Ends a run that returns `end`: what waits is written, where the writer has not failed.
    ///
    /// # Errors
    ///
    /// Those of `end`; `Write` where the writer fails now.
    pub fn end<W: Write>(
        &mut self,
        out: &mut Sink<W>,
        end: Result<KeySizes, RunFault>,
    ) -> Result<KeySizes, RunFault>
        ensures ends { EndsIf (ended_by_output end) self.old.buffer out.old out.new end result }
        ensures of_lines { ended_before_input end ≡ false → ended_before_input result ≡ false }
        ensures not_read { ended_by_output result ≡ false → is_input_read result ≡ is_input_read end }
        ensures failed { (before : Bool) → out.old.failed ≡ (before || ended_by_output end) →
            out.new.failed ≡ (before || ended_by_output result) }
    {
        if is_write_fault(&end) {
            return end;
        }
        self.output.flush(out)?;
        end
    }
}

// Whether the writer has failed.
fn is_write_fault(end: &Result<KeySizes, RunFault>) -> bool
    ensures { result ≡ ended_by_output end.now }
{
    match end {
        Err(RunFault::Write { .. }) => true,
        _ => false,
    }
}
