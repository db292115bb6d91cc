//! Files that are written under another name, and get their own once they are whole.
//!
//! The other name is `uca-certificate-N.tmp` in the same folder, with the first N from 0 to 99 that no file has. Once
//! all bytes are on the disk (`fsync`), the file gets its own name in one step (`rename`). Where a step fails, it is
//! removed. A run that is killed may leave it.
//!
//! Two names are of one file where the system gives one device number and one inode for both.

use std::fs::{File, Metadata, OpenOptions};
use std::io::{ErrorKind, Write};
use std::os::unix::fs::{MetadataExt, OpenOptionsExt, fchown};
use std::path::PathBuf;
use std::{fs, io};

/// How many temporary names are tried. One is taken where a run was killed, or where another run makes a file in the folder.
const TEMPORARY_NAMES: u8 = 100;

/// The permission bits of a file that is new, before the system takes off those of the process's mask.
const NEW_MODE: u32 = 0o666;

/// A file that is made for a name.
#[derive(Drop)]
pub struct Made {
    file: File,
    // None of a device or a pipe: it is written in place.
    names: Option<Names>,
}

// The name of a file while it is written, and the name that it gets then. Both are in one folder.
#[derive(Drop)]
struct Names {
    temporary: PathBuf,
    kept: PathBuf,
}

impl Made {
    /// Makes a file for this name. A regular file that has the name stays as it is until the new one is kept. The new
    /// file has its permission bits, and its owner and group where the system allows it. Where the name is a symbolic
    /// link, the file that it leads to is replaced. A device or a pipe is written in place.
    ///
    /// # Errors
    ///
    /// A file of this name cannot be written, or is standard output, or its folder takes no new file. A symbolic link leads
    /// nowhere. `OutOfMemory` where an allocation failed.
    pub fn new(rt: &HostRuntime, name: &str) -> io::Result<Made> {
        match OpenOptions::new().write(true).open(rt, name) {
            Ok(old) => Made::in_place_of(rt, name, old),
            Err(error) => {
                if error.kind() != ErrorKind::NotFound || is_link(rt, name) {
                    return Err(error);
                }
                Made::beside(rt, PathBuf::from_str(rt.alloc(), name)?, NEW_MODE)
            }
        }
    }

    // Makes a file in place of one of this name, which can be written.
    fn in_place_of(rt: &HostRuntime, name: &str, old: File) -> io::Result<Made> {
        let about = old.metadata()?;
        if !about.is_file() {
            return Ok(Made {
                file: old,
                names: None,
            });
        }
        drop(old);
        if is_output(rt, &about) {
            return Err(io::Error::from(ErrorKind::ResourceBusy));
        }
        let kept = if is_link(rt, name) {
            fs::canonicalize(rt, name)?
        } else {
            PathBuf::from_str(rt.alloc(), name)?
        };
        let made = Made::beside(rt, kept, about.mode() & 0o777)?;
        // Where these fail, fewer may read the new file, and no more.
        let _ = fchown(&made.file, Some(about.uid()), Some(about.gid()));
        let _ = made.file.set_permissions(about.permissions());
        Ok(made)
    }

    // Makes a file of these permission bits that is to have this name, in the same folder.
    fn beside(rt: &HostRuntime, kept: PathBuf, mode: u32) -> io::Result<Made> {
        for number in 0..TEMPORARY_NAMES {
            let temporary = temporary_name(rt, &kept, number)?;
            match create_new(rt, &temporary, mode) {
                Ok(file) => {
                    let names = Some(Names { temporary, kept });
                    return Ok(Made { file, names });
                }
                Err(error) => {
                    if error.kind() != ErrorKind::AlreadyExists {
                        return Err(error);
                    }
                }
            }
        }
        Err(io::Error::from(ErrorKind::AlreadyExists))
    }

    /// Closes the file, and gives it its name once its bytes are on the disk. The name is given in one step: at each time it
    /// is that of the old file or of the whole new one.
    ///
    /// # Errors
    ///
    /// The system cannot write the bytes out, or does not give the name. Then the file is removed.
    pub fn keep(self, rt: &HostRuntime) -> io::Result<()> {
        let Made { file, names } = self;
        let Some(names) = names else {
            return Ok(());
        };
        let given = give_name(rt, file, &names);
        if given.is_err() {
            let _ = fs::remove_file(rt, names.temporary.as_path());
        }
        given
    }

    /// Closes the file, and removes it.
    pub fn remove(self, rt: &HostRuntime) {
        let Made { file, names } = self;
        drop(file);
        if let Some(names) = names {
            let _ = fs::remove_file(rt, names.temporary.as_path());
        }
    }
}

impl Write for Made {
    fn write(&mut self, buf: &[u8]) -> io::Result<usize> {
        self.file.write(buf)
    }

    fn flush(&mut self) -> io::Result<()> {
        self.file.flush()
    }
}

// The temporary name of this number, in the folder of this one.
fn temporary_name(rt: &HostRuntime, kept: &PathBuf, number: u8) -> io::Result<PathBuf> {
    let name = format!(in rt.alloc(); "uca-certificate-{number}.tmp")?;
    Ok(kept.with_file_name(rt.alloc(), name.as_str())?)
}

// Makes a file of a name that no file has.
fn create_new(rt: &HostRuntime, path: &PathBuf, mode: u32) -> io::Result<File> {
    OpenOptions::new()
        .write(true)
        .create_new(true)
        .mode(mode)
        .open(rt, path.as_path())
}

fn give_name(rt: &HostRuntime, file: File, names: &Names) -> io::Result<()> {
    file.sync_all()?;
    drop(file);
    fs::rename(rt, names.temporary.as_path(), names.kept.as_path())
}

// Whether this name is a symbolic link.
fn is_link(rt: &HostRuntime, name: &str) -> bool {
    match fs::symlink_metadata(rt, name) {
        Ok(about) => about.is_symlink(),
        Err(_) => false,
    }
}

// Whether standard output goes to this file. Linux gives standard output this name.
fn is_output(rt: &HostRuntime, about: &Metadata) -> bool {
    match fs::metadata(rt, "/dev/stdout") {
        Ok(output) => is_one_file(&output, about),
        Err(_) => false,
    }
}

/// Whether two names are of one regular file.
pub fn are_of_one_file(rt: &HostRuntime, left: &str, right: &str) -> bool {
    match (fs::metadata(rt, left), fs::metadata(rt, right)) {
        (Ok(left), Ok(right)) => is_one_file(&left, &right),
        _ => false,
    }
}

// A device may be read and written at once, so only regular files count.
fn is_one_file(left: &Metadata, right: &Metadata) -> bool {
    left.is_file() && left.dev() == right.dev() && left.ino() == right.ino()
}
