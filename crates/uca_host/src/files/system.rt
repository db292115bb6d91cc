//! The files of the system that the program runs on.

use crate::files::made::{Made, are_of_one_file};
use crate::{MakeFault, OpenFault, Opens};
use std::fs::File;
use std::io::ErrorKind;
use std::{fs, io};

/// The files of the system, by their names.
#[derive(Drop)]
pub struct SystemFiles<'a> {
    /// What the program uses of the system.
    pub rt: &'a HostRuntime,
}

impl Opens for SystemFiles<'_> {
    type File = File;

    type Made = Made;

    fn open(&mut self, name: &str) -> Result<File, OpenFault> {
        fs::open(self.rt, name).map_err(|_| OpenFault)
    }

    fn is_same(&mut self, left: &str, right: &str) -> bool {
        are_of_one_file(self.rt, left, right)
    }

    fn create(&mut self, name: &str) -> Result<Made, MakeFault> {
        Made::new(self.rt, name).map_err(fault_of)
    }

    fn keep(&mut self, file: Made, _name: &str) -> Result<(), MakeFault> {
        file.keep(self.rt).map_err(fault_of)
    }

    fn remove(&mut self, file: Made) {
        file.remove(self.rt);
    }
}

// The error of a file that cannot be made or kept.
fn fault_of(error: io::Error) -> MakeFault {
    if error.kind() == ErrorKind::OutOfMemory {
        MakeFault::Memory
    } else {
        MakeFault::Write
    }
}
