//! Standard input, standard output and standard error that fail after each number of bytes.

use crate::fakes::{Around, Disk, End, Files, UNWRITTEN, WHOLE, check_around};
use std::alloc::Global;
use std::io::ErrorKind;
use std::test::Fail;
use test_kit::{Failure, Pace};

/// How a stream fails. A reader that gives nothing has not failed, so a reader has the first two.
const FAILURES: [Failure; 3] = [
    Failure::Error(ErrorKind::Interrupted),
    Failure::Error(ErrorKind::BrokenPipe),
    Failure::Nothing,
];

const FILES: Files<'static> = Files {
    table: Some("@version 1\n0061 ; [.1C47.0020.0002]\n0062 ; [.1C60.0020.0002]\n"),
    properties: Some("@data 1\n"),
    others: &[],
};

const SORT: &str = "sort,allkeys.txt,data.txt";

const KEYS: &str = "keys,--weighting,non-ignorable,allkeys.txt,data.txt";

// A command over two lines ends so.
fn check(alloc: Global, words: &str, paces: [Pace; 3], end: &End) -> Result<(), Fail> {
    let disk = Disk::holding(alloc, "kept.txt", "kept")?;
    let around = Around {
        input: b"b\na\n",
        paces,
        disk: &disk,
        makes: false,
    };
    check_around(alloc, &FILES, words, &around, end)
}

// Standard input fails after this many bytes.
fn check_input(
    alloc: Global,
    words: &str,
    good: usize,
    (out, err): (&str, &str),
) -> Result<(), Fail> {
    let end = End {
        status: 3,
        out,
        err,
        opened: 2,
    };
    for failure in FAILURES.iter().take(2) {
        let given = Pace::failing(3, good, *failure);
        check(alloc, words, [given, WHOLE, WHOLE], &end)?;
    }
    Ok(())
}

/// What is said where a read of line 1 of standard input fails.
const UNREAD_1: &str =
    "input line 1: Read\nhelp: give standard input a file or a pipe, such as < lines.txt\n";

/// And of line 2.
const UNREAD_2: &str =
    "input line 2: Read\nhelp: give standard input a file or a pipe, such as < lines.txt\n";

/// And of line 3.
const UNREAD_3: &str =
    "input line 3: Read\nhelp: give standard input a file or a pipe, such as < lines.txt\n";

/// What has gone out, and what is said, where the input of `keys` fails after no bytes, after one, and so on.
const CUT_KEYS: [(&str, &str); 5] = [
    ("", UNREAD_1),
    ("", UNREAD_1),
    ("1C60 0000 0020 0000 0002\n", UNREAD_2),
    ("1C60 0000 0020 0000 0002\n", UNREAD_2),
    (
        "1C60 0000 0020 0000 0002\n1C47 0000 0020 0000 0002\n",
        UNREAD_3,
    ),
];

#[test]
fn standard_input_that_fails(rt: HostRuntime) -> Result<(), Fail> {
    for (good, cut) in CUT_KEYS.iter().enumerate() {
        let (_, err) = *cut;
        check_input(rt.alloc(), KEYS, good, *cut)?;
        check_input(rt.alloc(), SORT, good, ("", err))?;
    }
    Ok(())
}

// The first `count` bytes of a text.
fn first(text: &str, count: usize) -> Result<&str, Fail> {
    Ok(text.get(..count).ok_or("a text of other bytes")?)
}

// Standard output fails before each byte of what goes out without a failure.
fn check_output<'a>(
    alloc: Global,
    words: &str,
    whole: &End<'a>,
    cut: &End<'a>,
) -> Result<(), Fail> {
    check(alloc, words, [WHOLE, WHOLE, WHOLE], whole)?;
    for good in 0..whole.out.len() {
        let end = End {
            out: first(whole.out, good)?,
            ..*cut
        };
        for failure in FAILURES.iter() {
            let taken = Pace::failing(3, good, *failure);
            check(alloc, words, [WHOLE, taken, WHOLE], &end)?;
        }
    }
    Ok(())
}

// The end of a command that opens this many files.
fn end_of(status: u8, out: &'static str, err: &'static str, opened: u32) -> End<'static> {
    End {
        status,
        out,
        err,
        opened,
    }
}

#[test]
fn standard_output_that_fails(rt: HostRuntime) -> Result<(), Fail> {
    let whole = end_of(0, "a\nb\n", "", 2);
    let cut = end_of(3, "", UNWRITTEN, 2);
    check_output(rt.alloc(), SORT, &whole, &cut)
}

/// The help of `check`.
const CHECK: &str =
    "Says whether a weight table is well-formed (UTS #10, section 9.2). Prints `well-formed`, or the\n\
    first condition that fails and the first row that fails it, such as `WF5 row 8`, with status 1.\n\
    \n\
    Usage: uca check <TABLE> <DATA>\n\
    \n\
    Arguments:\n\
    \x20 <TABLE>\n\
    \x20         A weight table in the format of allkeys.txt; that of a language: docs/LANGUAGES.md\n\
    \n\
    \x20 <DATA>\n\
    \x20         A data file: combining classes and Han ranges\n\
    \n\
    Options:\n\
    \x20 -h, --help\n\
    \x20         Print help (see a summary with '-h')\n\
    \n\
    Example: uca check allkeys.txt data.txt\n";

/// Help that does not go out changes neither the status nor standard error.
#[test]
fn help_that_does_not_go_out(rt: HostRuntime) -> Result<(), Fail> {
    let help = end_of(0, CHECK, "", 0);
    check_output(rt.alloc(), "check,--help", &help, &help)
}

// Standard error fails before each byte of what is said without a failure: the status is the same.
fn check_error(alloc: Global, words: &str, whole: &End) -> Result<(), Fail> {
    check(alloc, words, [WHOLE, WHOLE, WHOLE], whole)?;
    for good in 0..whole.err.len() {
        let end = End {
            err: first(whole.err, good)?,
            ..*whole
        };
        for failure in FAILURES.iter() {
            let told = Pace::failing(3, good, *failure);
            check(alloc, words, [WHOLE, WHOLE, told], &end)?;
        }
    }
    Ok(())
}

/// What is said if the table of `sort` does not open.
const NO_TABLE: &str = "table: Open\n\
    help: missing.txt: there is no such file, or you may not read it. For a language write $(uca-files TAG), such as $(uca-files pl)\n";

/// What is said if the second argument of `keys` is missing.
const NO_DATA: &str = "error: the following required arguments were not provided:\n\
    \x20 <DATA>\n\
    \n\
    Usage: uca keys [OPTIONS] <TABLE> <DATA> < LINES\n\
    \x20      For <TABLE> <DATA> of Polish, write $(uca-files pl)\n\
    \n\
    For more information, try '--help'.\n";

#[test]
fn standard_error_that_fails(rt: HostRuntime) -> Result<(), Fail> {
    let unopened = end_of(3, "", NO_TABLE, 0);
    check_error(rt.alloc(), "sort,missing.txt,data.txt", &unopened)?;
    check_error(rt.alloc(), "keys,t", &end_of(2, "", NO_DATA, 0))
}
