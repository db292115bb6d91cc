//! Files in memory: those that are given, and one that is made.

ghost use Rattle.std.specs.Prelude.{◌≡◌, Some, None, option_copied, map};
ghost use Rattle.std.specs.Io.{WritesAtMost};
ghost use Rattle.std.specs.Io.KnownBytes.{WriteAppends};
ghost use Rattle.uca_command_in_memory.specs.MemoryFiles.{file_of, given_files, memory_calls};

use std::alloc::Global;
use std::io::{self, Write};
use std::marker::Model;
use uca_host::{MakeFault, OpenFault, Opens};

/// A file that is made: its bytes.
#[derive(Drop)]
pub struct MadeFile {
    bytes: Vec<u8>,
}

impl Model for MadeFile {
    ghost use Rattle.std.specs.Prelude.{ℕ, List};

    ghost Value = { List ℕ };

    ghost view = { λ file. file.bytes.items };
}

impl MadeFile {
    /// The bytes of the file.
    pub fn into_bytes(self) -> Vec<u8>
        ensures { result.items ≡ self }
    {
        self.bytes
    }
}

impl Write for MadeFile {
    ghost contents = { λ file. Some file };

    fn write(&mut self, buf: &[u8]) -> io::Result<usize>
        ensures bound { WritesAtMost result buf.now }
        ensures bytes { WriteAppends (Some self.old) (Some self.new) result buf.now }
    {
        self.bytes.write(buf)
    }

    fn flush(&mut self) -> io::Result<()> {
        Ok(())
    }
}

/// The files that are given, by their names, and the file that is made.
#[derive(Drop)]
pub struct MemoryFiles<'a> {
    alloc: Global,
    names: &'a [&'a str],
    files: &'a [&'a [u8]],
    kept: Option<MadeFile>,
}

impl<'a> Model for MemoryFiles<'a> {
    ghost use Rattle.std.specs.Prelude.{map};
    ghost use Rattle.uca_command_in_memory.specs.MemoryFiles.{MemoryState};

    ghost Value = { MemoryState };

    ghost view = { λ it. record {
      names = map (λ name. name.now) it.names.now;
      files = map (λ file. file.now) it.files.now;
      kept = it.kept;
    } };
}

impl<'a> MemoryFiles<'a> {
    /// Files of these names and bytes, at the same places of both lists.
    pub fn new(alloc: Global, names: &'a [&'a str], files: &'a [&'a [u8]]) -> MemoryFiles<'a>
        ensures { result ≡ given_files (map (λ name. name.now) names.now) (map (λ file. file.now) files.now) }
    {
        MemoryFiles {
            alloc,
            names,
            files,
            kept: None,
        }
    }

    /// The bytes of the file that was made and kept.
    pub fn into_kept(self) -> Option<MadeFile>
        ensures { result ≡ self.entry.kept }
    {
        self.kept
    }
}

// The file at the place of the first such name.
fn find<'a>(names: &[&str], files: &[&'a [u8]], name: &str) -> Option<&'a [u8]>
    ensures { option_copied result ≡ file_of (map (λ given. given.now) names.now) (map (λ file. file.now) files.now) name.now }
{
    for (given, file) in names.iter().zip(files) {
        if *given == name {
            return Some(*file);
        }
    }
    None
}

impl<'a> Opens for MemoryFiles<'a> {
    type File = &'a [u8];

    type Made = MadeFile;

    ghost calls = { memory_calls };

    fn open(&mut self, name: &str) -> Result<&'a [u8], OpenFault> {
        match find(self.names, self.files, name) {
            Some(file) => Ok(file),
            None => Err(OpenFault),
        }
    }

    fn is_same(&mut self, _left: &str, _right: &str) -> bool {
        false
    }

    fn create(&mut self, _name: &str) -> Result<MadeFile, MakeFault> {
        Ok(MadeFile {
            bytes: Vec::new(self.alloc),
        })
    }

    fn keep(&mut self, file: MadeFile, _name: &str) -> Result<(), MakeFault> {
        self.kept = Some(file);
        Ok(())
    }

    fn remove(&mut self, _file: MadeFile) {}
}
