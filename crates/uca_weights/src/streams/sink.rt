//! A writer that knows whether it has failed.

ghost use Rattle.std.specs.Prelude.{◌≡◌, ◌<◌, ◌||◌, false, length, is_err, IfErr};
ghost use Rattle.uca_weights.specs.Writes.{Writes};

use std::io::Write;
use std::marker::Model;
use thiserror::Error;

/// A call of a writer failed, or took none of some bytes.
#[derive(Clone, Copy, Debug, PartialEq, Eq, Error)]
#[error("the writer failed after {written} bytes")]
pub struct WriteFault {
    /// How many bytes, from the beginning of the text, went out before.
    pub written: u64,
}

/// A writer, and whether it has failed: by an error, or as it took none of some bytes.
#[derive(Drop)]
pub struct Sink<W: Write> {
    writer: W,
    failed: bool,
}

impl<W: Write> Model for Sink<W> {
    ghost use Rattle.uca_weights.specs.Streams.{SinkState};

    ghost Value = { SinkState };

    ghost view = { λ s. record { contents = W.contents s.writer; failed = s.failed } };
}

impl<W: Write> Sink<W> {
    /// The sink of a writer. It takes no memory, and calls nothing.
    pub fn new(writer: W) -> Sink<W>
        ensures bytes { result.contents ≡ W.contents writer }
        ensures failed { result.failed ≡ false }
    {
        let failed = false;
        Sink { writer, failed }
    }

    /// Whether the writer has failed.
    pub fn failed(&self) -> bool
        ensures { result ≡ self.now.failed }
    {
        self.failed
    }

    /// Writes the whole text, by as many calls of the writer as it takes.
    ///
    /// # Errors
    ///
    /// A call of the writer failed by an error of any kind, also an interruption, or took none of the bytes left. No
    /// call comes after it. The first `written` bytes went out, and not all did.
    pub fn write_all(&mut self, text: &[u8]) -> Result<(), WriteFault>
        ensures bytes { Writes self.old.contents self.new.contents text.now result }
        ensures not_all { IfErr result (λ e. e.written < length text.now) }
        ensures failed { self.new.failed ≡ (self.old.failed || is_err result) }
    {
        let mut written = 0;
        while written < text.len() {
            match self.writer.write(&text[written..]) {
                Ok(0) | Err(_) => {
                    self.failed = true;
                    return Err(WriteFault {
                        written: written as u64,
                    });
                }
                Ok(count) => written += count,
            }
        }
        Ok(())
    }

    /// The writer.
    pub fn into_inner(self) -> W
        ensures { W.contents result ≡ self.contents }
    {
        self.writer
    }
}
