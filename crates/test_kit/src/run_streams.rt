//! The streams of a run over a table, a data file and an input.

ghost use Rattle.std.specs.Prelude.{◌≡◌, ◌∷◌, []};

use std::io::{Read, Write};
use uca_weights::{Sink, Source};

/// The streams of a run.
#[derive(Drop)]
pub struct Streams<T: Read, D: Read, I: Read, W: Write> {
    /// The table.
    pub table: Source<T>,
    /// The data file.
    pub properties: Source<D>,
    /// The input.
    pub input: Source<I>,
    /// The output.
    pub out: Sink<W>,
}

impl<T: Read, D: Read, I: Read, W: Write> Streams<T, D, I, W> {
    /// Which of the four say that they failed.
    pub fn failed(&self) -> [bool; 4]
        ensures { result ≡ self.now.table.failed ∷ self.now.properties.failed ∷ self.now.input.failed ∷ self.now.out.failed ∷ [] }
    {
        [
            self.table.failed(),
            self.properties.failed(),
            self.input.failed(),
            self.out.failed(),
        ]
    }
}
