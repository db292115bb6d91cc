//! An opener of files in memory that sees in which order they are opened, read and made.

use std::alloc::{AllocError, Global};
use std::cell::{Cell, RefCell};
use std::io;
use std::io::{ErrorKind, Read, Write};
use std::iter::once;
use std::test::Fail;
use test_kit::{Calls, Failure, FakeReader, FakeWriter, Pace, holds};
use uca_cli::{MakeFault, OpenFault, Opens, run_command};
use uca_weights::{Sink, Source};

/// The files of a command: their texts, or nothing where one does not open.
#[derive(Clone, Copy)]
pub struct Files<'a> {
    /// The text of the table file.
    pub table: Option<&'a str>,
    /// The text of the data file.
    pub properties: Option<&'a str>,
    /// The names and the texts of further files.
    pub others: &'a [(&'a str, Option<&'a str>)],
}

impl<'a> Files<'a> {
    /// How many files there are, those that do not open too.
    fn count(&self) -> u32 {
        let mut count: u32 = 2;
        for _ in self.others {
            count = count.saturating_add(1);
        }
        count
    }

    /// The text of the file of this name.
    fn text_of(&self, name: &str) -> Option<&'a str> {
        match name {
            "allkeys.txt" => return self.table,
            "data.txt" => return self.properties,
            _ => {}
        }
        for (other, text) in self.others {
            if *other == name {
                return *text;
            }
        }
        None
    }
}

/// Where making a file fails.
#[derive(Clone, Copy)]
pub enum Fails {
    /// Nowhere.
    Nowhere,
    /// No file can be made.
    Making(MakeFault),
    /// A file that was made cannot be kept.
    Keeping(MakeFault),
}

/// The file that a command may replace.
#[derive(Drop)]
pub struct Disk {
    alloc: Global,
    // Its name.
    name: RefCell<String>,
    // Its bytes.
    bytes: RefCell<Vec<u8>>,
    fails: Fails,
    // How many bytes a file that is made takes: the write after them fails.
    room: usize,
}

impl Disk {
    /// A file of this name and this text, which can be replaced.
    pub fn holding(alloc: Global, name: &str, text: &str) -> Result<Disk, AllocError> {
        let mut bytes = Vec::new(alloc);
        bytes.extend_from_slice(text.as_bytes())?;
        Ok(Disk {
            alloc,
            name: RefCell::new(String::from_str(alloc, name)?),
            bytes: RefCell::new(bytes),
            fails: Fails::Nowhere,
            room: usize::MAX,
        })
    }

    /// A file of this name and this text, where making a file fails as `fails` says.
    pub fn failing(
        alloc: Global,
        name: &str,
        text: &str,
        fails: Fails,
    ) -> Result<Disk, AllocError> {
        let mut disk = Disk::holding(alloc, name, text)?;
        disk.fails = fails;
        Ok(disk)
    }

    /// A file of this name and this text, where a file that is made takes this many bytes.
    pub fn with_room(
        alloc: Global,
        name: &str,
        text: &str,
        room: usize,
    ) -> Result<Disk, AllocError> {
        let mut disk = Disk::holding(alloc, name, text)?;
        disk.room = room;
        Ok(disk)
    }

    /// Whether the file has this name and this text.
    pub fn holds(&self, name: &str, text: &str) -> bool {
        let (Ok(own), Ok(bytes)) = (self.name.try_borrow(), self.bytes.try_borrow()) else {
            return false;
        };
        own.as_str() == name && bytes.as_slice() == text.as_bytes()
    }

    // A file of this name and these bytes in place of the one before.
    fn replace(&self, name: &str, bytes: Vec<u8>) -> Result<(), MakeFault> {
        if let Fails::Keeping(fault) = self.fails {
            return Err(fault);
        }
        let name = String::from_str(self.alloc, name).map_err(|_| MakeFault::Memory)?;
        let is_named = self.name.try_replace(name).is_ok();
        if is_named && self.bytes.try_replace(bytes).is_ok() {
            Ok(())
        } else {
            Err(MakeFault::Write)
        }
    }
}

// What the opener and its files saw.
#[derive(Drop)]
struct Seen {
    // How many files were opened.
    opened: Cell<u32>,
    // How many files the arguments name.
    wanted: u32,
    // How many reads there were before all files were opened.
    early: Cell<u32>,
    // How many reads of a file there were after one of a later file.
    back: Cell<u32>,
    // The file that was read last.
    last: Cell<u32>,
    // How many files were read to their end.
    ended: Cell<u32>,
    // How many files were to be made.
    asked: Cell<u32>,
    // How many files were made, and neither kept nor removed.
    left: Cell<u32>,
}

impl Seen {
    fn new(wanted: u32) -> Seen {
        Seen {
            opened: Cell::new(0),
            wanted,
            early: Cell::new(0),
            back: Cell::new(0),
            last: Cell::new(0),
            ended: Cell::new(0),
            asked: Cell::new(0),
            left: Cell::new(0),
        }
    }

    fn see_read(&self, number: u32) {
        if self.opened.get() < self.wanted {
            self.early.set(self.early.get().saturating_add(1));
        }
        if number < self.last.get() {
            self.back.set(self.back.get().saturating_add(1));
        }
        self.last.set(number);
    }

    // Names are compared before a file is opened, and any other comparison is early too.
    fn see_names(&self) {
        if self.opened.get() > 0 {
            self.early.set(self.early.get().saturating_add(1));
        }
    }

    fn see_end(&self) {
        self.ended.set(self.ended.get().saturating_add(1));
    }

    // Whether this many files were opened, all was seen in its order, and a file was made just where this is said. The
    // input is read only if all files are opened.
    fn is_in_order(&self, opened: u32, makes: bool, input_calls: u32) -> bool {
        self.opened.get() == opened
            && self.early.get() == 0
            && self.back.get() == 0
            && self.asked.get() == u32::from(makes)
            && self.left.get() == 0
            && (opened == self.wanted || input_calls == 0)
    }

    // A file that is made before all others are read to their end is early too.
    fn see_making(&self) {
        if self.ended.get() < self.wanted {
            self.early.set(self.early.get().saturating_add(1));
        }
        self.asked.set(self.asked.get().saturating_add(1));
    }
}

#[derive(Drop)]
struct FakeOpener<'a> {
    files: Files<'a>,
    disk: &'a Disk,
    seen: &'a Seen,
}

#[derive(Drop)]
struct FakeFile<'a> {
    rest: &'a [u8],
    number: u32,
    seen: &'a Seen,
}

// A file that is not kept yet, of which a write takes five bytes at most.
#[derive(Drop)]
struct FakeMade<'a> {
    disk: &'a Disk,
    bytes: Vec<u8>,
}

impl<'a> Opens for FakeOpener<'a> {
    type File = FakeFile<'a>;

    type Made = FakeMade<'a>;

    fn open(&mut self, name: &str) -> Result<FakeFile<'a>, OpenFault> {
        let Some(text) = self.files.text_of(name) else {
            return Err(OpenFault);
        };
        let number = self.seen.opened.get().saturating_add(1);
        self.seen.opened.set(number);
        Ok(FakeFile {
            rest: text.as_bytes(),
            number,
            seen: self.seen,
        })
    }

    // Names are of one file where they are equal but for `./` at their start.
    fn is_same(&mut self, left: &str, right: &str) -> bool {
        self.seen.see_names();
        let left = left.strip_prefix("./").unwrap_or(left);
        left == right.strip_prefix("./").unwrap_or(right)
    }

    fn create(&mut self, _name: &str) -> Result<FakeMade<'a>, MakeFault> {
        self.seen.see_making();
        if let Fails::Making(fault) = self.disk.fails {
            return Err(fault);
        }
        self.seen.left.set(self.seen.left.get().saturating_add(1));
        Ok(FakeMade {
            disk: self.disk,
            bytes: Vec::new(self.disk.alloc),
        })
    }

    fn keep(&mut self, file: FakeMade<'a>, name: &str) -> Result<(), MakeFault> {
        self.seen.left.set(self.seen.left.get().saturating_sub(1));
        self.disk.replace(name, file.bytes)
    }

    fn remove(&mut self, _file: FakeMade<'a>) {
        self.seen.left.set(self.seen.left.get().saturating_sub(1));
    }
}

impl Read for FakeFile<'_> {
    fn read(&mut self, buf: &mut [u8]) -> io::Result<usize> {
        self.seen.see_read(self.number);
        let count = self.rest.len().min(buf.len());
        if count == 0 {
            self.seen.see_end();
        }
        let (given, rest) = self.rest.split_at(count);
        buf[..count].copy_from_slice(given);
        self.rest = rest;
        Ok(count)
    }
}

impl Write for FakeMade<'_> {
    fn write(&mut self, buf: &[u8]) -> io::Result<usize> {
        let room = self.disk.room.saturating_sub(self.bytes.len());
        let count = buf.len().min(5).min(room);
        if room == 0 {
            return Err(io::Error::from(ErrorKind::StorageFull));
        }
        self.bytes.extend_from_slice(&buf[..count])?;
        Ok(count)
    }

    fn flush(&mut self) -> io::Result<()> {
        Ok(())
    }
}

/// How a command ends: its status, what it writes on standard output and on standard error, and how many
/// files it opens.
#[derive(Clone, Copy)]
pub struct End<'a> {
    /// The status.
    pub status: u8,
    /// What is written on standard output.
    pub out: &'a str,
    /// What is written on standard error.
    pub err: &'a str,
    /// How many files are opened.
    pub opened: u32,
}

/// What is said where standard output fails.
pub const UNWRITTEN: &str = "output: Write\n\
    help: is the disk full, or did what reads the output end early, such as head?\n";

/// What is said where the file `certificate.txt` cannot be made, written or kept.
pub const UNKEPT: &str = "certificate: Write\n\
    help: certificate.txt: check its folder, your rights and the disk\n";

/// A standard stream that does not fail, and moves seven bytes a call at most.
pub const WHOLE: Pace = Pace {
    step: 7,
    good: None,
    failure: Failure::Nothing,
};

/// What a command works with, other than its files.
#[derive(Clone, Copy)]
pub struct Around<'a> {
    /// The input.
    pub input: &'a [u8],
    /// How standard input gives its bytes, and how standard output and standard error take theirs.
    pub paces: [Pace; 3],
    /// The file that may be made.
    pub disk: &'a Disk,
    /// Whether one is to be made.
    pub makes: bool,
}

// What came of a command.
#[derive(Drop)]
struct Ended {
    status: u8,
    out: Vec<u8>,
    err: Vec<u8>,
    // Whether a standard stream was called after it failed.
    is_late: bool,
}

// A command over an opener.
fn run(
    alloc: Global,
    opener: &mut FakeOpener,
    words: &[&str],
    around: &Around,
    calls: &Calls,
) -> Ended {
    let [given, taken, told] = around.paces;
    let (written, said) = (Calls::new(), Calls::new());
    let mut input = Source::new(FakeReader::new(around.input, given, calls));
    let mut out = Sink::new(FakeWriter::new(alloc, taken, &written));
    let mut err = Sink::new(FakeWriter::new(alloc, told, &said));
    let status = run_command(alloc, opener, words, &mut input, &mut out, &mut err);
    drop(input);
    let ended = Ended {
        status,
        out: out.into_inner().text,
        err: err.into_inner().text,
        is_late: calls.late.get() > 0 || written.late.get() > 0 || said.late.get() > 0,
    };
    drop(written);
    drop(said);
    ended
}

/// The program's name, and the arguments of a line, one after each comma.
fn words_of(alloc: Global, line: &str) -> Result<Vec<&str>, AllocError> {
    once("uca").chain(line.split(',')).collect(alloc)
}

/// The command of some arguments, with commas between them, ends so over these files, this input and this disk. All files
/// are opened before one is read, each is read before the next, and the input is read only if all are opened. A file is to be
/// made on the disk just where this is said, and once all files are read to their end. It is then kept or removed.
pub fn check_around(
    alloc: Global,
    files: &Files,
    words: &str,
    around: &Around,
    end: &End,
) -> Result<(), Fail> {
    check_run(alloc, files, &words_of(alloc, words)?, around, end)
}

fn check_run(
    alloc: Global,
    files: &Files,
    words: &[&str],
    around: &Around,
    end: &End,
) -> Result<(), Fail> {
    let seen = Seen::new(files.count());
    let calls = Calls::new();
    let mut opener = FakeOpener {
        files: *files,
        disk: around.disk,
        seen: &seen,
    };
    let ended = run(alloc, &mut opener, words, around, &calls);
    drop(opener);
    let is_in_order = seen.is_in_order(end.opened, around.makes, calls.all.get());
    drop(seen);
    drop(calls);
    let checked = check_ended(words, &ended, end, is_in_order);
    drop(ended);
    checked
}

// A command ended so.
fn check_ended(words: &[&str], ended: &Ended, end: &End, is_in_order: bool) -> Result<(), Fail> {
    let is_written = ended.out.as_slice() == end.out.as_bytes()
        && ended.err.as_slice() == end.err.as_bytes()
        && ended.status == end.status
        && !ended.is_late;
    if is_written && is_in_order {
        return Ok(());
    }
    Err(Fail::new(format_args!(
        "{words:?} ended with {}, and in order: {is_in_order}",
        ended.status
    )))
}
