//! Standard streams that are closed: folders stand in their places.
//!
//! A stream is open if the system gives a second descriptor of it (`fcntl` with `F_DUPFD_CLOEXEC`), which is closed
//! at once. The folder is `/`, opened for reading: a read of it fails, and so does a write. A run that does not use
//! the stream goes on.

use std::os::fd::{AsFd, AsRawFd, IntoRawFd};
use std::{fs, io};

// Whether a standard stream is open: only then the system gives another descriptor of it.
fn is_open<S: AsFd>(stream: &S) -> bool {
    stream.as_fd().try_clone_to_owned().is_ok()
}

/// Opens a folder in place of each standard stream that is closed, and keeps it open to the end of the program. So no file
/// that is opened later becomes a standard stream, and each read and write of the closed one fails. Where all three are
/// open, it opens nothing.
///
/// # Errors
///
/// The folder does not open.
pub fn hold_standard_streams(rt: &HostRuntime) -> io::Result<()> {
    if is_open(&rt.stdin()) && is_open(&rt.stdout()) && is_open(&rt.stderr()) {
        return Ok(());
    }
    open_folders(rt)
}

// A descriptor that is opened has the lowest number that is free. One that is taken out of its file is never closed.
fn open_folders(rt: &HostRuntime) -> io::Result<()> {
    for _ in 0..3 {
        let folder = fs::open(rt, "/")?;
        if folder.as_raw_fd() > 2 {
            break;
        }
        let _ = folder.into_raw_fd();
    }
    Ok(())
}
