//! What a command needs of a file system.

ghost use Rattle.uca_host.specs.FileCalls.{FileCalls, unsaid_calls};

use std::io::{Read, Write};
use thiserror::Error;

/// A file does not open.
#[derive(Clone, Copy, Debug, PartialEq, Eq, Error)]
#[error("the file does not open")]
pub struct OpenFault;

/// A file cannot be made, or cannot be kept under its name.
#[derive(Clone, Copy, Debug, PartialEq, Eq, Error)]
pub enum MakeFault {
    /// The file system does not do it.
    #[error("the file cannot be made")]
    Write,
    /// An allocation failed.
    #[error("out of memory")]
    Memory,
}

/// Opens files by their names, and makes files.
///
/// A file is made in three steps: `create`, then writes, then `keep` or `remove`. Until it is kept, the file that had the
/// name before is as it was.
pub trait Opens {
    /// An opened file.
    type File: Read + Drop;

    /// A file that was made, and is not kept yet.
    type Made: Write + Drop;

    // What is true of each call: of the opener before it, its arguments, its result and the opener after, if the impl says it.
    ghost calls: { FileCalls Self Self.File Self.Made } = { unsaid_calls };

    /// Opens the file of this name to be read.
    ///
    /// # Errors
    ///
    /// `OpenFault` if the file does not open.
    fn open(&mut self, name: &str) -> Result<Self::File, OpenFault>
        ensures { calls.gives self.old name.now result self.new };

    /// Whether two names that differ are of one file, so that writing to the one changes the other. Where it cannot be
    /// told, the result is `false`. It opens no file.
    fn is_same(&mut self, left: &str, right: &str) -> bool
        ensures { calls.compares self.old left.now right.now result self.new };

    /// Makes a file to be written, which is to have this name. It gets the name by `keep`.
    ///
    /// # Errors
    ///
    /// `Write` where the file cannot be made, and `Memory` where an allocation failed.
    fn create(&mut self, name: &str) -> Result<Self::Made, MakeFault>
        ensures { calls.makes self.old name.now result self.new };

    /// Closes a file that was made for this name, and gives it the name, in place of a file that has it.
    ///
    /// # Errors
    ///
    /// `Write` where the file cannot have the name, and `Memory` where an allocation failed. Then the file is removed.
    fn keep(&mut self, file: Self::Made, name: &str) -> Result<(), MakeFault>
        ensures { calls.keeps self.old file name.now result self.new };

    /// Closes a file that was made, and removes it.
    fn remove(&mut self, file: Self::Made)
        ensures { calls.removes self.old file self.new };
}
