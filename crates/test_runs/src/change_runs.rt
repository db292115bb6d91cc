//! Runs over the small files of a change: they find it, audit it, print affected lines or rekey lines. Others compact
//! stored keys and expand them, print compact keys of lines, and print the image of a book.

use std::alloc::{Allocator, Global};
use std::io::{Read, Write};
use test_kit::Refusing;
use uca_certificates::write_certificate;
use uca_change_files::write_changes;
use uca_change_runs::{run_affected_by_changes, run_audit_changes, run_book, run_changes};
use uca_editions::ListedChanges;
use uca_key_runs::{KeyOutput, run_keys_as};
use uca_rekey::{run_compact, run_expand, run_rekey};
use uca_run_parts::{KeySizes, RunFault};
use uca_weights::Depth::Weights;
use uca_weights::Weighting::NonIgnorable;
use uca_weights::{Asked, Numbers, Sink, Source};

/// What the files of a change are, in their order: one weight moves up, and a letter and the class of an accent are new.
const FILES: [&str; 6] = [
    "@version 1\n0061 ; [.1C47.0020.0002]\n0062 ; [.1C60.0020.0002]\n",
    "@data 1\nccc 0323..0323 220\n",
    "@version 1\n0061 ; [.1C47.0020.0002]\n0062 ; [.1C61.0020.0002]\n0063 ; [.1C70.0020.0002]\n",
    "@data 1\nccc 0323..0324 220\n",
    "@changes 1\ntext 0063\nrange 0324..0324\n",
    "1 1C47 1C47 0001\n1 1C60 1C61 0001\n2 0020 0020 0001\n3 0002 0002 0001\n",
];

/// What keys are asked for.
const ASKED: Asked = Asked {
    weighting: Some(NonIgnorable),
    depth: Weights,
    numbers: Numbers::AsText,
};

/// All lines but the last one are affected.
const LINES: &str = "c\nccccccccc\u{324}\nb\n";

/// Lines with stored keys.
pub const KEYS: &str =
    "1C60 0000 0020 0000 0002\n1C471C60000000200020000000020002\tab\n0000 0000\n";

/// The lines that they become.
pub const MOVED: &str =
    "1C61 0000 0020 0000 0002\n1C471C61000000200020000000020002\tab\n0000 0000\n";

/// A book in which both letters have cells of their own.
const BOOK: &str = "@book 1\n1 1C47\n1 1C48\n1 1C60\n1 1C61\n";

/// The image of that book: 1C48 follows 1C47, and 1C62 follows what was 1C60.
pub const IMAGE: &str = "@book 1\n1 1C47\n1 1C48\n1 1C61\n1 1C62\n";

/// The lines with their compact keys.
pub const COMPACT: &str = "0A02\n080A02\tab\n02\n";

/// The lines with stored keys, without spaces.
pub const EXPANDED: &str = "1C600000002000000002\n1C471C60000000200020000000020002\tab\n00000000\n";

/// The fingerprint of the header that comes before the lines with stored keys.
const OF_KEYS: [u8; 32] = [0x1A; 32];

/// The lines with stored keys, after their header.
const HEADED: &str =
    "#uca keys 1 non-ignorable weights 1a1a1a1a1a1a1a1a1a1a1a1a1a1a1a1a1a1a1a1a1a1a1a1a1a1a1a1a1a1a1a1a\n\
    1C60 0000 0020 0000 0002\n1C471C60000000200020000000020002\tab\n0000 0000\n";

/// The lines with their compact keys, after their header. Its fingerprint was made by `sha256sum`.
pub const HEADED_COMPACT: &str =
    "#uca compact 1 non-ignorable weights 75754decdbe3f183dc2648501ec272574c9845544f69d78ed7a29b07ff2ac4da\n\
    0A02\n080A02\tab\n02\n";

/// The lines with stored keys, without spaces, after their header.
pub const HEADED_EXPANDED: &str =
    "#uca keys 1 non-ignorable weights 1a1a1a1a1a1a1a1a1a1a1a1a1a1a1a1a1a1a1a1a1a1a1a1a1a1a1a1a1a1a1a1a\n\
    1C600000002000000002\n1C471C60000000200020000000020002\tab\n00000000\n";

/// Lines of the letters of the old table, and what has their compact keys before them.
const WORDS: &str = "b\nab\n\n";

pub const COMPACT_WORDS: &str = "0A02\tb\n080A02\tab\n02\t\n";

/// The compact keys of these lines after their header. Its fingerprint was made by `sha256sum`.
pub const HEADED_COMPACT_KEYS: &str =
    "#uca compact 1 non-ignorable weights c509f42d0229d44a02199297f3b48fa85ef30bdc247caf21fe0adc0d6532e24a\n\
    0A02\n080A02\n02\n";

/// A run.
#[derive(Clone, Copy)]
pub enum Run {
    /// It finds changes.
    Changes,
    /// It audits a change.
    Audit,
    /// It prints the lines that changes affect.
    Affected,
    /// It rekeys lines.
    Rekey,
    /// It compacts the keys of lines.
    Compact,
    /// It expands the compact keys of lines.
    Expand,
    /// It compacts the keys of lines after a header.
    HeadedCompact,
    /// It expands the compact keys of lines after a header.
    HeadedExpand,
    /// It prints lines after their compact keys.
    CompactLines,
    /// It prints the compact keys of lines after a header.
    HeadedCompactKeys,
    /// It prints the image of a book.
    Book,
}

/// How a run ends.
pub type End = Result<(), RunFault>;

fn file(at: usize) -> Source<&'static [u8]> {
    match FILES.get(at) {
        Some(text) => Source::new(text.as_bytes()),
        None => Source::new(b""),
    }
}

// Writes what was found. No writer fails then.
fn show<A: Allocator>(found: ListedChanges<A>, out: &mut Sink<Vec<u8>>) -> End {
    let _ = write_changes(&found.list, out);
    let _ = write_certificate(&found.certificate, out);
    drop(found);
    Ok(())
}

fn changes(tried: &Refusing, out: &mut Sink<Vec<u8>>) -> End {
    let found = run_changes(
        tried,
        &mut file(0),
        &mut file(1),
        &mut file(2),
        &mut file(3),
    );
    match found {
        Ok(found) => show(found, out),
        Err(fault) => Err(fault),
    }
}

fn audit(tried: &Refusing, out: &mut Sink<Vec<u8>>) -> End {
    let verdict = run_audit_changes(
        tried,
        &mut file(0),
        &mut file(1),
        &mut file(2),
        &mut file(3),
        &mut file(4),
        &mut file(5),
        out,
    );
    match verdict {
        Ok(_) => Ok(()),
        Err(fault) => Err(fault),
    }
}

// How a run over stored keys ends.
fn ended(run: Result<KeySizes, RunFault>) -> End {
    match run {
        Ok(_) => Ok(()),
        Err(fault) => Err(fault),
    }
}

/// Rekeys these lines.
pub fn rekey<A: Allocator + Copy, I: Read, W: Write>(
    alloc: A,
    input: &mut Source<I>,
    out: &mut Sink<W>,
) -> End {
    let mut certificate = file(5);
    ended(run_rekey(
        alloc,
        &mut certificate,
        input,
        out,
        NonIgnorable,
        Weights,
        None,
    ))
}

// Compacts the keys of these lines, after a header if there is a fingerprint.
fn compact(tried: &Refusing, lines: &str, keys: Option<[u8; 32]>, out: &mut Sink<Vec<u8>>) -> End {
    let mut book = Source::new(BOOK.as_bytes());
    let mut input = Source::new(lines.as_bytes());
    ended(run_compact(
        tried,
        &mut book,
        &mut input,
        out,
        NonIgnorable,
        Weights,
        keys,
    ))
}

// Expands the compact keys of these lines, after a header if there is a fingerprint.
fn expand(tried: &Refusing, lines: &str, keys: Option<[u8; 32]>, out: &mut Sink<Vec<u8>>) -> End {
    let mut book = Source::new(BOOK.as_bytes());
    let mut input = Source::new(lines.as_bytes());
    ended(run_expand(
        tried,
        &mut book,
        &mut input,
        out,
        NonIgnorable,
        Weights,
        keys,
    ))
}

fn book(tried: &Refusing, out: &mut Sink<Vec<u8>>) -> End {
    let mut book = Source::new(BOOK.as_bytes());
    run_book(tried, &mut file(5), &mut book, out)
}

const LINES_ALONE: KeyOutput = KeyOutput {
    lines: true,
    header: false,
};

const HEADER_ALONE: KeyOutput = KeyOutput {
    lines: false,
    header: true,
};

// The run of compact keys with this output.
fn compact_keys(
    ample: Global,
    tried: &Refusing,
    out: &mut Sink<Vec<u8>>,
    output: KeyOutput,
) -> End {
    run_keys_as(
        tried,
        ample,
        &mut file(0),
        &mut file(1),
        &mut Some(Source::new(BOOK.as_bytes())),
        &mut Source::new(WORDS.as_bytes()),
        out,
        ASKED,
        output,
        &mut KeySizes::new(),
    )
}

/// Makes a run over these files. Texts in Normalization Form D are in ample memory.
pub fn call(ample: Global, tried: &Refusing, run: Run, out: &mut Sink<Vec<u8>>) -> End {
    let mut lines = Source::new(LINES.as_bytes());
    match run {
        Run::Changes => changes(tried, out),
        Run::Audit => audit(tried, out),
        Run::Affected => {
            run_affected_by_changes(
                tried,
                ample,
                &mut file(1),
                &mut file(4),
                &mut lines,
                out,
                Numbers::ByValue,
            )
        }
        Run::Rekey => rekey(tried, &mut Source::new(KEYS.as_bytes()), out),
        Run::Compact => compact(tried, KEYS, None, out),
        Run::Expand => expand(tried, COMPACT, None, out),
        Run::HeadedCompact => compact(tried, HEADED, Some(OF_KEYS), out),
        Run::HeadedExpand => expand(tried, HEADED_COMPACT, Some(OF_KEYS), out),
        Run::CompactLines => compact_keys(ample, tried, out, LINES_ALONE),
        Run::HeadedCompactKeys => compact_keys(ample, tried, out, HEADER_ALONE),
        Run::Book => book(tried, out),
    }
}
