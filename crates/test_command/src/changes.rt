//! `changes`: which files are opened, when the certificate's file is made, kept or removed, and what is printed after it.

use crate::fakes::{Around, Disk, End, Files, UNKEPT, UNWRITTEN, WHOLE, check_around};
use std::alloc::Global;
use std::test::Fail;
use test_kit::{DATA, Failure, Pace, TABLE, holds};

/// The new table: `b` has another weight than before, and `c` is new.
const NEW: &str = "@version 1\n\
    @implicitweights 17000..18AFF; FB00\n\
    0020 ; [*0209.0020.0002]\n\
    0061 ; [.1C47.0020.0002]\n\
    0041 ; [.1C47.0020.0008]\n\
    0062 ; [.1C61.0020.0002]\n\
    0063 ; [.1C70.0020.0002]\n\
    0300 ; [.0000.0025.0002]\n\
    0301 ; [.0000.0024.0002]\n\
    0323 ; [.0000.002C.0002]\n";

/// A table whose second row is not well-formed: its tertiary weight stands alone.
const ILL_FORMED: &str = "@version 1\n0061 ; [.1C47.0020.0002]\n0062 ; [.1C60.0000.0002]\n";

/// The changes from the table of the tests to the new one.
const CHANGES: &str = "@changes 1\ntext 0063\n";

/// Their certificate, of 136 bytes.
const CERTIFICATE: &str = "1 0209 0209 0001\n\
    1 1C47 1C47 0001\n\
    1 1C60 1C61 0001\n\
    2 0020 0020 0001\n\
    2 0024 0024 0002\n\
    2 002C 002C 0001\n\
    3 0002 0002 0001\n\
    3 0008 0008 0001\n";

/// What the certificate's file has before.
const OLD: &str = "another text\n";

/// A run of `changes`.
struct Case<'a> {
    /// The text of the new table, or nothing where it does not open.
    new: Option<&'a str>,
    /// The arguments.
    words: &'a str,
    /// How many bytes a file that is made takes.
    room: usize,
    /// How standard output takes its bytes.
    pace: Pace,
    /// How the command ends.
    end: End<'a>,
    /// Whether a file is to be made.
    makes: bool,
    /// What the certificate's file has afterwards.
    kept: &'a str,
}

const WORDS: &str = "changes,allkeys.txt,data.txt,new.txt,new-data.txt,certificate.txt";

/// Standard output fails after the first line.
const CUT: Pace = Pace {
    step: 7,
    good: Some(11),
    failure: Failure::Nothing,
};

const CASES: &[Case<'static>] = &[
    Case {
        new: Some(NEW),
        words: WORDS,
        room: 136,
        pace: WHOLE,
        end: End {
            status: 0,
            out: CHANGES,
            err: "",
            opened: 4,
        },
        makes: true,
        kept: CERTIFICATE,
    },
    Case {
        new: Some(NEW),
        words: WORDS,
        room: 135,
        pace: WHOLE,
        end: End {
            status: 3,
            out: "",
            err: UNKEPT,
            opened: 4,
        },
        makes: true,
        kept: OLD,
    },
    Case {
        new: Some(NEW),
        words: WORDS,
        room: 136,
        pace: CUT,
        end: End {
            status: 3,
            out: "@changes 1\n",
            err: UNWRITTEN,
            opened: 4,
        },
        makes: true,
        kept: CERTIFICATE,
    },
    Case {
        new: Some(ILL_FORMED),
        words: WORDS,
        room: 136,
        pace: WHOLE,
        end: End {
            status: 1,
            out: "",
            err: "changes: NewIllFormed new row 2\n\
                help: uca check says which row is not well-formed. docs/UNICODE.md mends Unicode's table\n",
            opened: 4,
        },
        makes: false,
        kept: OLD,
    },
    Case {
        new: None,
        words: WORDS,
        room: 136,
        pace: WHOLE,
        end: End {
            status: 3,
            out: "",
            err: "new: Open\nhelp: new.txt: there is no such file, or you may not read it\n",
            opened: 2,
        },
        makes: false,
        kept: OLD,
    },
    Case {
        new: Some(NEW),
        words: "changes,allkeys.txt,data.txt,new.txt,new-data.txt,./new.txt",
        room: 136,
        pace: WHOLE,
        end: End {
            status: 2,
            out: "",
            err: "certificate: SameAs new\n\
                help: new.txt: this command reads it. Give the certificate another name\n",
            opened: 0,
        },
        makes: false,
        kept: OLD,
    },
];

fn check_case(alloc: Global, case: &Case) -> Result<(), Fail> {
    let disk = Disk::with_room(alloc, "certificate.txt", OLD, case.room)?;
    let checked = check_on(alloc, case, &disk);
    drop(disk);
    checked
}

// The run ends so, and leaves this on the disk.
fn check_on(alloc: Global, case: &Case, disk: &Disk) -> Result<(), Fail> {
    let files = Files {
        table: Some(TABLE),
        properties: Some(DATA),
        others: &[("new.txt", case.new), ("new-data.txt", Some(DATA))],
    };
    let around = Around {
        input: b"",
        paces: [WHOLE, case.pace, WHOLE],
        disk,
        makes: case.makes,
    };
    check_around(alloc, &files, case.words, &around, &case.end)?;
    holds(
        disk.holds("certificate.txt", case.kept),
        "another certificate",
    )
}

#[test]
fn changes_and_their_certificates(rt: HostRuntime) -> Result<(), Fail> {
    for case in CASES {
        check_case(rt.alloc(), case)?;
    }
    Ok(())
}
