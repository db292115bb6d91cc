//! Runs with numbers by value: what is read of a line has the code of each number in place of it.

use std::alloc::{AllocError, Global};
use std::test::Fail;
use test_kit::{DATA, NUMBER_TABLE, bytes_of, holds, no_book, repeated, same, same_bytes, thirds};
use uca_cli::{
    KeyOutput, KeySizes, RunFault, run_affected, run_compare_in, run_keys_as, run_sort_in,
};
use uca_weights::Depth::{Identical, Weights};
use uca_weights::{Asked, Depth, Numbers, Sink, Source, Weighting};

fn asked_at(depth: Depth) -> Asked {
    Asked {
        weighting: Some(Weighting::NonIgnorable),
        depth,
        numbers: Numbers::ByValue,
    }
}

/// The target has the digits 1 and 9, and the text `a9` is `a19` by value.
const RULES: &str = "&a < 19";

// The run of this name over lines.
fn run_named(
    alloc: Global,
    name: &str,
    depth: Depth,
    lines: &[u8],
    out: &mut Sink<Vec<u8>>,
) -> Result<(), RunFault> {
    let asked = asked_at(depth);
    let mut table = Source::new(NUMBER_TABLE.as_bytes());
    let mut data = Source::new(DATA.as_bytes());
    let mut rules = Source::new(RULES.as_bytes());
    let mut input = Source::new(lines);
    match name {
        "keys" | "lines" => run_keys_as(
            alloc,
            alloc,
            &mut table,
            &mut data,
            &mut no_book(),
            &mut input,
            out,
            asked,
            KeyOutput {
                lines: name == "lines",
                header: false,
            },
            &mut KeySizes::new(),
        ),
        "sort" => run_sort_in(alloc, alloc, &mut table, &mut data, &mut input, out, asked),
        "affected as text" => run_affected(
            alloc,
            alloc,
            &mut data,
            &mut rules,
            &mut input,
            out,
            Numbers::AsText,
        ),
        _ => run_affected(
            alloc,
            alloc,
            &mut data,
            &mut rules,
            &mut input,
            out,
            Numbers::ByValue,
        ),
    }
}

// What goes out of the run of this name.
fn check_run(
    alloc: Global,
    name: &str,
    depth: Depth,
    lines: &[u8],
    printed: &[u8],
) -> Result<(), Fail> {
    let mut out = Sink::new(Vec::new(alloc));
    holds(run_named(alloc, name, depth, lines, &mut out).is_ok(), name)?;
    same_bytes(&out.into_inner(), printed, name)
}

/// A run, its lines, and what it prints. `a7` is `a17` by value, and so is `a007`; `a10` is `a210`.
const AT_WEIGHTS: &str =
    r"keys | a7\na007\n | 1C47 1C3E 1C44 0000 0020 0020 0020 0000 0002 0002 0002\n1C47 1C3E 1C44 0000 0020 0020 0020 0000 0002 0002 0002\n
lines | 0\n | 1C3E1C3D000000200020000000020002\x090\n
sort | ab\na10\na9\na2\n10a\n9b\n | 9b\n10a\na2\na9\na10\nab\n
sort | a07\nb\na7\na007\n | a07\na7\na007\nb\n
affected | a9\nb\na19\na2\n91\n | a9\na19\n
affected as text | a9\nb\na19\na2\n91\n | a19\n";

/// With an identical level: its code points are those of the line.
const AT_IDENTICAL: &str =
    r"keys | a07\n7\n | 1C47 1C3E 1C44 0000 0020 0020 0020 0000 0002 0002 0002 0000 000061 000030 000037\n1C3E 1C44 0000 0020 0020 0000 0002 0002 0000 000037\n
sort | a7\na007\na6\na07\n | a6\na007\na07\na7\n";

fn check_cases(alloc: Global, depth: Depth, cases: &str) -> Result<(), Fail> {
    for case in cases.lines() {
        let (name, lines, printed) = thirds(case)?;
        let lines = bytes_of(alloc, lines)?;
        let printed = bytes_of(alloc, printed)?;
        check_run(alloc, name, depth, &lines, &printed)?;
    }
    Ok(())
}

#[test]
fn runs_with_numbers(rt: HostRuntime) -> Result<(), Fail> {
    check_cases(rt.alloc(), Weights, AT_WEIGHTS)?;
    check_cases(rt.alloc(), Identical, AT_IDENTICAL)
}

/// Two texts, and what is printed of how they compare: without an identical level, and with one.
const PAIRS: [(&str, &str, &str, &str); 4] = [
    ("a9", "a10", "< 1\n", "< 1\n"),
    ("a10", "a9", "> 1\n", "> 1\n"),
    ("a7", "a007", "= 0\n", "> 4\n"),
    ("b2", "a10", "> 1\n", "> 1\n"),
];

fn check_pair(
    alloc: Global,
    left: &str,
    right: &str,
    depth: Depth,
    printed: &str,
) -> Result<(), Fail> {
    let mut table = Source::new(NUMBER_TABLE.as_bytes());
    let mut data = Source::new(DATA.as_bytes());
    let mut out = Sink::new(Vec::new(alloc));
    let end = run_compare_in(
        alloc,
        alloc,
        &mut table,
        &mut data,
        left,
        right,
        &mut out,
        asked_at(depth),
    );
    holds(end.is_ok(), left)?;
    same_bytes(&out.into_inner(), printed.as_bytes(), left)
}

#[test]
fn comparisons_with_numbers(rt: HostRuntime) -> Result<(), Fail> {
    for (left, right, weights, identical) in PAIRS {
        check_pair(rt.alloc(), left, right, Weights, weights)?;
        check_pair(rt.alloc(), left, right, Identical, identical)?;
    }
    Ok(())
}

// How a run of keys over one line ends.
fn end_of_line(alloc: Global, digit: &str, count: usize) -> Result<String, AllocError> {
    let line = repeated(alloc, digit, count)?;
    let mut out = Sink::new(Vec::new(alloc));
    match run_named(alloc, "keys", Weights, line.as_bytes(), &mut out) {
        Ok(()) => String::from_str(alloc, "done"),
        Err(fault) => format!(in alloc; "{fault}"),
    }
}

/// The limit of a text is that of what is read. Of 1,048,577 zeros it is `10`. A million digits take 125,001 more.
#[test]
fn limits_are_those_of_what_is_read(rt: HostRuntime) -> Result<(), Fail> {
    let alloc = rt.alloc();
    same(&end_of_line(alloc, "0", 1_048_577)?, "done", "zeros")?;
    let long = end_of_line(alloc, "9", 1_000_000)?;
    same(&long, "input line 1: TooLong", "nines")
}

/// A header says by its fingerprint that numbers are by value, and by nothing else.
#[test]
fn fingerprints_with_numbers(rt: HostRuntime) -> Result<(), Fail> {
    let alloc = rt.alloc();
    let by_value = header_of(alloc, Numbers::ByValue)?;
    let as_text = header_of(alloc, Numbers::AsText)?;
    let front = by_value.get(..34).ok_or("a short header")?;
    holds(as_text.starts_with(front), "the settings")?;
    holds(as_text != by_value, "the fingerprint")
}

// The header of keys.
fn header_of(alloc: Global, numbers: Numbers) -> Result<Vec<u8>, Fail> {
    let mut table = Source::new(NUMBER_TABLE.as_bytes());
    let mut data = Source::new(DATA.as_bytes());
    let mut input = Source::new(b"".as_slice());
    let mut out = Sink::new(Vec::new(alloc));
    let asked = Asked {
        numbers,
        ..asked_at(Weights)
    };
    let output = KeyOutput {
        lines: false,
        header: true,
    };
    let end = run_keys_as(
        alloc,
        alloc,
        &mut table,
        &mut data,
        &mut no_book(),
        &mut input,
        &mut out,
        asked,
        output,
        &mut KeySizes::new(),
    );
    holds(end.is_ok(), "keys with a header")?;
    Ok(out.into_inner())
}
