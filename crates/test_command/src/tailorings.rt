//! `tailor` where the file of the certificate cannot be made, written or kept, or standard output fails.

use crate::fakes::{Around, Disk, End, Fails, Files, UNKEPT, UNWRITTEN, WHOLE, check_around};
use std::alloc::Global;
use std::io::ErrorKind;
use std::test::Fail;
use test_kit::{DATA, Failure, Pace, TABLE, holds};
use uca_cli::MakeFault;

const WORDS: &str = "tailor,allkeys.txt,data.txt,rules.txt,certificate.txt";

/// The bytes of the certificate's file before, which are more than those of each certificate.
const OLD: &str = "1 0001 0001 0001\n1 0002 0002 0001\n1 0003 0003 0001\n1 0004 0004 0001\n\
    1 0005 0005 0001\n1 0006 0006 0001\n1 0007 0007 0001\n1 0008 0008 0001\n1 0009 0009 0001\n";

/// What is said where an allocation fails.
const MEMORY: &str = "memory\nhelp: give the program more memory, or a smaller input\n";

/// The certificate of a tailoring of the table of the fakes that moves no weight.
const UNMOVED: &str = "1 0209 0209 0001\n\
    1 1C47 1C47 0001\n\
    1 1C60 1C60 0001\n\
    2 0020 0020 0001\n\
    2 0024 0024 0002\n\
    2 002C 002C 0001\n\
    3 0002 0002 0001\n\
    3 0008 0008 0001\n";

/// The table, the data file and the rules.
type Texts<'a> = [Option<&'a str>; 3];

/// A tailoring of these texts ends so, and makes a file on the disk exactly if this is said.
fn check_tailor(
    alloc: Global,
    texts: Texts,
    (words, pace): (&str, Pace),
    (disk, makes): (&Disk, bool),
    end: &End,
) -> Result<(), Fail> {
    let [table, properties, rules] = texts;
    let files = Files {
        table,
        properties,
        others: &[("rules.txt", rules)],
    };
    let around = Around {
        input: b"a\n",
        paces: [WHOLE, pace, WHOLE],
        disk,
        makes,
    };
    check_around(alloc, &files, words, &around, end)
}

// A tailoring of these texts ends so, and makes a file exactly if this is said. Afterwards the disk has this file.
fn check_disk(
    alloc: Global,
    texts: Texts,
    how: (&str, Pace),
    (disk, makes): (&Disk, bool),
    end: &End,
    (name, text): (&str, &str),
) -> Result<(), Fail> {
    check_tailor(alloc, texts, how, (disk, makes), end)?;
    holds(disk.holds(name, text), "another certificate")
}

/// A file that takes so many bytes of the certificate is removed, and nothing is printed.
fn check_full(alloc: Global, room: usize) -> Result<(), Fail> {
    let texts = [Some(TABLE), Some(DATA), Some("&a < x")];
    let disk = Disk::with_room(alloc, "certificate.txt", OLD, room)?;
    let end = End {
        status: 3,
        out: "",
        err: UNKEPT,
        opened: 3,
    };
    let checked = check_disk(
        alloc,
        texts,
        (WORDS, Pace::steps(64)),
        (&disk, true),
        &end,
        ("certificate.txt", OLD),
    );
    drop(disk);
    checked
}

#[test]
fn certificates_without_room(rt: HostRuntime) -> Result<(), Fail> {
    for room in [0, 1, 16, 17, 135] {
        check_full(rt.alloc(), room)?;
    }
    Ok(())
}

/// The three files are read, and then nothing is printed. The old certificate stays as it was.
fn check_unmade(alloc: Global, fails: Fails, (status, err): (u8, &str)) -> Result<(), Fail> {
    let texts = [Some(TABLE), Some(DATA), Some("&a < x")];
    let disk = Disk::failing(alloc, "certificate.txt", OLD, fails)?;
    let end = End {
        status,
        out: "",
        err,
        opened: 3,
    };
    let checked = check_disk(
        alloc,
        texts,
        (WORDS, Pace::steps(64)),
        (&disk, true),
        &end,
        ("certificate.txt", OLD),
    );
    drop(disk);
    checked
}

#[test]
fn certificates_that_cannot_be_made_or_kept(rt: HostRuntime) -> Result<(), Fail> {
    let alloc = rt.alloc();
    let written = (3, UNKEPT);
    check_unmade(alloc, Fails::Making(MakeFault::Write), written)?;
    check_unmade(alloc, Fails::Keeping(MakeFault::Write), written)?;
    let memory = (4, MEMORY);
    check_unmade(alloc, Fails::Making(MakeFault::Memory), memory)?;
    check_unmade(alloc, Fails::Keeping(MakeFault::Memory), memory)
}

/// The certificate was kept before.
fn check_cut(alloc: Global, pace: Pace, out: &str) -> Result<(), Fail> {
    let texts = [Some(TABLE), Some(DATA), Some("&a < x")];
    let disk = Disk::holding(alloc, "certificate.txt", OLD)?;
    let end = End {
        status: 3,
        out,
        err: UNWRITTEN,
        opened: 3,
    };
    let checked = check_disk(
        alloc,
        texts,
        (WORDS, pace),
        (&disk, true),
        &end,
        ("certificate.txt", UNMOVED),
    );
    drop(disk);
    checked
}

#[test]
fn standard_output_that_fails(rt: HostRuntime) -> Result<(), Fail> {
    let alloc = rt.alloc();
    check_cut(alloc, Pace::failing(7, 0, Failure::Nothing), "")?;
    let pace = Pace::failing(7, 17, Failure::Nothing);
    check_cut(alloc, pace, "@version 1\n@impli")?;
    let pace = Pace::failing(7, 17, Failure::Error(ErrorKind::BrokenPipe));
    check_cut(alloc, pace, "@version 1\n@impli")
}
