//! A reader that knows whether it has failed.

ghost use Rattle.std.specs.Prelude.{◌≡◌, ◌||◌, false, is_err};
ghost use Rattle.std.specs.Io.{ReadsAtMost};
ghost use Rattle.std.specs.Io.KnownBytes.{ReadConsumes};

use std::io::Read;
use std::marker::Model;
use thiserror::Error;

/// A call of a reader failed.
#[derive(Clone, Copy, Debug, PartialEq, Eq, Error)]
#[error("the reader failed")]
pub struct ReadFault;

/// A reader, and whether a call of it has failed.
#[derive(Drop)]
pub struct Source<R: Read> {
    reader: R,
    failed: bool,
}

impl<R: Read> Model for Source<R> {
    ghost use Rattle.uca_weights.specs.Streams.{SourceState};

    ghost Value = { SourceState };

    ghost view = { λ s. record { remaining = R.remaining s.reader; failed = s.failed } };
}

impl<R: Read> Source<R> {
    /// The source of a reader. It takes no memory, and calls nothing.
    pub fn new(reader: R) -> Source<R>
        ensures bytes { result.remaining ≡ R.remaining reader }
        ensures failed { result.failed ≡ false }
    {
        let failed = false;
        Source { reader, failed }
    }

    /// Whether a call of the reader has failed.
    pub fn failed(&self) -> bool
        ensures { result ≡ self.now.failed }
    {
        self.failed
    }

    /// Reads into `buf` by one call of the reader, and returns how many bytes it gave: 0 at the end, or if `buf` has no
    /// room.
    ///
    /// # Errors
    ///
    /// The call failed by an error of any kind, also an interruption.
    pub fn read(&mut self, buf: &mut [u8]) -> Result<usize, ReadFault>
        ensures bound { ReadsAtMost result buf.new }
        ensures bytes { ReadConsumes self.old.remaining self.new.remaining result buf.new }
        ensures failed { self.new.failed ≡ (self.old.failed || is_err result) }
    {
        match self.reader.read(buf) {
            Ok(count) => Ok(count),
            Err(_) => {
                self.failed = true;
                Err(ReadFault)
            }
        }
    }
}
