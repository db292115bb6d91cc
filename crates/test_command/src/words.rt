//! Arguments that are read, each list written as a line that is cut at its blanks. Those that are rejected, and the help, are
//! tested with the built program, by `tests/run.py`.

use std::alloc::{AllocError, Global};
use std::iter::once;
use std::test::Fail;
use test_kit::{halves, holds, same};
use uca_words::{WordFault, read_words};
use unicode_normalization::UNICODE_VERSION;

/// The program's name, and the arguments of a line.
fn words_of(alloc: Global, line: &str) -> Result<Vec<&str>, AllocError> {
    once("uca").chain(line.split(' ')).collect(alloc)
}

/// What is read from some arguments, or the kind of their error.
fn said(alloc: Global, words: &[&str]) -> Result<String, AllocError> {
    match read_words(alloc, words) {
        Ok(words) => format!(in alloc; "{words:?}"),
        Err(WordFault::Refused(error)) => format!(in alloc; "{:?}", error.kind()),
        Err(WordFault::Weighting) => String::from_str(alloc, "Weighting"),
        Err(WordFault::Fingerprint) => String::from_str(alloc, "Fingerprint"),
        Err(WordFault::Memory) => String::from_str(alloc, "Memory"),
    }
}

/// Some words, and what is said of them.
fn check_case(alloc: Global, case: &str) -> Result<(), Fail> {
    let (line, wanted) = halves(case)?;
    let words = words_of(alloc, line)?;
    same(&said(alloc, &words)?, wanted, case)
}

fn check_cases(alloc: Global, cases: &str) -> Result<(), Fail> {
    for case in cases.lines() {
        check_case(alloc, case)?;
    }
    Ok(())
}

/// An empty text is a word too, as is the name of a subcommand.
const READ: &str = r#"check t d | Check(CheckWords { table: "t", properties: "d" })
keys t d | Keys(KeysWords { weighting: None, depth: Weights, numbers: AsText, lines: false, header: false, compact: None, table: "t", properties: "d" })
keys --weighting shifted t d | Keys(KeysWords { weighting: Some(Shifted), depth: Weights, numbers: AsText, lines: false, header: false, compact: None, table: "t", properties: "d" })
keys t --weighting shifted d | Keys(KeysWords { weighting: Some(Shifted), depth: Weights, numbers: AsText, lines: false, header: false, compact: None, table: "t", properties: "d" })
keys --weighting=shifted d t | Keys(KeysWords { weighting: Some(Shifted), depth: Weights, numbers: AsText, lines: false, header: false, compact: None, table: "d", properties: "t" })
keys -- --weighting d | Keys(KeysWords { weighting: None, depth: Weights, numbers: AsText, lines: false, header: false, compact: None, table: "--weighting", properties: "d" })
keys --identical t d | Keys(KeysWords { weighting: None, depth: Identical, numbers: AsText, lines: false, header: false, compact: None, table: "t", properties: "d" })
keys t d --identical | Keys(KeysWords { weighting: None, depth: Identical, numbers: AsText, lines: false, header: false, compact: None, table: "t", properties: "d" })
keys t -- --identical | Keys(KeysWords { weighting: None, depth: Weights, numbers: AsText, lines: false, header: false, compact: None, table: "t", properties: "--identical" })
keys --header t d | Keys(KeysWords { weighting: None, depth: Weights, numbers: AsText, lines: false, header: true, compact: None, table: "t", properties: "d" })
keys --compact b t d | Keys(KeysWords { weighting: None, depth: Weights, numbers: AsText, lines: false, header: false, compact: Some("b"), table: "t", properties: "d" })
keys --lines t d | Keys(KeysWords { weighting: None, depth: Weights, numbers: AsText, lines: true, header: false, compact: None, table: "t", properties: "d" })
keys t --lines d | Keys(KeysWords { weighting: None, depth: Weights, numbers: AsText, lines: true, header: false, compact: None, table: "t", properties: "d" })
keys t d --lines --identical --weighting shifted | Keys(KeysWords { weighting: Some(Shifted), depth: Identical, numbers: AsText, lines: true, header: false, compact: None, table: "t", properties: "d" })
keys t -- --lines | Keys(KeysWords { weighting: None, depth: Weights, numbers: AsText, lines: false, header: false, compact: None, table: "t", properties: "--lines" })
keys --numeric t d | Keys(KeysWords { weighting: None, depth: Weights, numbers: ByValue, lines: false, header: false, compact: None, table: "t", properties: "d" })
keys t d --lines --numeric --identical | Keys(KeysWords { weighting: None, depth: Identical, numbers: ByValue, lines: true, header: false, compact: None, table: "t", properties: "d" })
keys t -- --numeric | Keys(KeysWords { weighting: None, depth: Weights, numbers: AsText, lines: false, header: false, compact: None, table: "t", properties: "--numeric" })
keys help d | Keys(KeysWords { weighting: None, depth: Weights, numbers: AsText, lines: false, header: false, compact: None, table: "help", properties: "d" })
sort t d | Sort(SortWords { weighting: None, depth: Weights, numbers: AsText, table: "t", properties: "d" })
sort t d --weighting shifted | Sort(SortWords { weighting: Some(Shifted), depth: Weights, numbers: AsText, table: "t", properties: "d" })
sort --weighting=non-ignorable t d | Sort(SortWords { weighting: Some(NonIgnorable), depth: Weights, numbers: AsText, table: "t", properties: "d" })
sort --identical --weighting shifted t d | Sort(SortWords { weighting: Some(Shifted), depth: Identical, numbers: AsText, table: "t", properties: "d" })
sort t --numeric d | Sort(SortWords { weighting: None, depth: Weights, numbers: ByValue, table: "t", properties: "d" })
compare t d a b | Compare(CompareWords { weighting: None, depth: Weights, numbers: AsText, table: "t", properties: "d", left: "a", right: "b" })
compare --weighting shifted t d b a | Compare(CompareWords { weighting: Some(Shifted), depth: Weights, numbers: AsText, table: "t", properties: "d", left: "b", right: "a" })
compare t d a b --weighting=non-ignorable | Compare(CompareWords { weighting: Some(NonIgnorable), depth: Weights, numbers: AsText, table: "t", properties: "d", left: "a", right: "b" })
compare t d a --identical b | Compare(CompareWords { weighting: None, depth: Identical, numbers: AsText, table: "t", properties: "d", left: "a", right: "b" })
compare t d  a | Compare(CompareWords { weighting: None, depth: Weights, numbers: AsText, table: "t", properties: "d", left: "", right: "a" })
compare t d help help | Compare(CompareWords { weighting: None, depth: Weights, numbers: AsText, table: "t", properties: "d", left: "help", right: "help" })
compare t d sort keys | Compare(CompareWords { weighting: None, depth: Weights, numbers: AsText, table: "t", properties: "d", left: "sort", right: "keys" })
compare --numeric t d 9 10 | Compare(CompareWords { weighting: None, depth: Weights, numbers: ByValue, table: "t", properties: "d", left: "9", right: "10" })
tailor t d r c | Tailor(TailorWords { table: "t", properties: "d", rules: "r", certificate: "c" })
tailor d c t r | Tailor(TailorWords { table: "d", properties: "c", rules: "t", certificate: "r" })
tailor t d -- r --identical | Tailor(TailorWords { table: "t", properties: "d", rules: "r", certificate: "--identical" })
audit b d r t c | Audit(AuditWords { base: "b", properties: "d", rules: "r", tailored: "t", certificate: "c" })
affected d r | Affected(AffectedWords { changes: false, numbers: AsText, properties: "d", rules: "r" })
affected r d | Affected(AffectedWords { changes: false, numbers: AsText, properties: "r", rules: "d" })
affected help affected | Affected(AffectedWords { changes: false, numbers: AsText, properties: "help", rules: "affected" })
affected -- --lines --version | Affected(AffectedWords { changes: false, numbers: AsText, properties: "--lines", rules: "--version" })
affected --changes d h | Affected(AffectedWords { changes: true, numbers: AsText, properties: "d", rules: "h" })
affected d h --changes | Affected(AffectedWords { changes: true, numbers: AsText, properties: "d", rules: "h" })
affected d -- --changes | Affected(AffectedWords { changes: false, numbers: AsText, properties: "d", rules: "--changes" })
affected --numeric d r | Affected(AffectedWords { changes: false, numbers: ByValue, properties: "d", rules: "r" })
affected --changes d h --numeric | Affected(AffectedWords { changes: true, numbers: ByValue, properties: "d", rules: "h" })
changes o d n e c | Changes(ChangesWords { editions: EditionNames { old: "o", old_data: "d", new: "n", new_data: "e" }, certificate: "c" })
changes c e -- n d --changes | Changes(ChangesWords { editions: EditionNames { old: "c", old_data: "e", new: "n", new_data: "d" }, certificate: "--changes" })
audit-changes o d n e h c | AuditChanges(AuditChangesWords { editions: EditionNames { old: "o", old_data: "d", new: "n", new_data: "e" }, changes: "h", certificate: "c" })
rekey c | Rekey(RekeyWords { weighting: None, depth: Weights, fingerprints: None, certificate: "c" })
rekey --identical c --weighting shifted | Rekey(RekeyWords { weighting: Some(Shifted), depth: Identical, fingerprints: None, certificate: "c" })
rekey --weighting=non-ignorable -- --identical | Rekey(RekeyWords { weighting: Some(NonIgnorable), depth: Weights, fingerprints: None, certificate: "--identical" })
compact b | Compact(BookWords { weighting: None, depth: Weights, keys: None, book: "b" })
compact --weighting=non-ignorable compact --identical | Compact(BookWords { weighting: Some(NonIgnorable), depth: Identical, keys: None, book: "compact" })
expand b | Expand(BookWords { weighting: None, depth: Weights, keys: None, book: "b" })
expand --weighting shifted -- --identical | Expand(BookWords { weighting: Some(Shifted), depth: Weights, keys: None, book: "--identical" })
book c b | Book(BookImageWords { certificate: "c", book: "b" })
book book -- --identical | Book(BookImageWords { certificate: "book", book: "--identical" })
fingerprint t d | Fingerprint(FingerprintWords { weighting: None, depth: Weights, numbers: AsText, book: None, table: "t", properties: "d" })
fingerprint --identical t --weighting shifted d | Fingerprint(FingerprintWords { weighting: Some(Shifted), depth: Identical, numbers: AsText, book: None, table: "t", properties: "d" })
fingerprint --compact b t d | Fingerprint(FingerprintWords { weighting: None, depth: Weights, numbers: AsText, book: Some("b"), table: "t", properties: "d" })
fingerprint --numeric --compact b t d | Fingerprint(FingerprintWords { weighting: None, depth: Weights, numbers: ByValue, book: Some("b"), table: "t", properties: "d" })
fingerprint t --compact=d d | Fingerprint(FingerprintWords { weighting: None, depth: Weights, numbers: AsText, book: Some("d"), table: "t", properties: "d" })"#;

#[test]
fn words_that_are_read(rt: HostRuntime) -> Result<(), Fail> {
    check_cases(rt.alloc(), READ)
}

/// The words are judged before the values of options.
const NO_WEIGHTINGS: &str = r#"keys --weighting x t d | Weighting
sort --weighting Shifted t d | Weighting
compare --weighting=shift t d a b | Weighting
rekey --weighting x c | Weighting
rekey --weighting x --from y c | Weighting
rekey --from 0123456789abcdef0123456789abcdef0123456789abcdef0123456789abcdef c | Fingerprint
rekey --to 0123456789abcdef0123456789abcdef0123456789abcdef0123456789abcdef c | Fingerprint
rekey --from 0123456789abcdef0123456789abcdef0123456789abcdef0123456789abcdef --to 0123456789abcdef0123456789abcdef0123456789abcdef0123456789abcde c | Fingerprint
rekey --from 0123456789abcdef0123456789abcdef0123456789abcdef0123456789abcdeF --to 0123456789abcdef0123456789abcdef0123456789abcdef0123456789abcdef c | Fingerprint
rekey --from 0123456789abcdef0123456789abcdef0123456789abcdef0123456789abcdef --to 0123456789abcdef0123456789abcdef0123456789abcdef0123456789abcdef0 c | Fingerprint
compact --from 123456789abcdef0123456789abcdef0123456789abcdef0123456789abcdef b | Fingerprint
compact --to 0123456789abcdef0123456789abcdef0123456789abcdef0123456789abcdef b | UnknownArgument
compact --from 0123456789abcdef0123456789abcdef0123456789abcdef0123456789abcdef --weighting x b | Weighting
expand --to 0123456789ABCDEF0123456789ABCDEF0123456789ABCDEF0123456789ABCDEF b | Fingerprint
expand --from 0123456789abcdef0123456789abcdef0123456789abcdef0123456789abcdef --to 0123456789abcdef0123456789abcdef0123456789abcdef0123456789abcdef b | UnknownArgument
compact --weighting x b | Weighting
expand --weighting Shifted b | Weighting
fingerprint --weighting x t d | Weighting
keys --weighting= t d | Weighting
sort --weighting x no-such-table no-such-data | Weighting
keys --weighting x t | MissingRequiredArgument
keys --weighting shifted t d | Keys(KeysWords { weighting: Some(Shifted), depth: Weights, numbers: AsText, lines: false, header: false, compact: None, table: "t", properties: "d" })"#;

#[test]
fn weightings_that_are_none(rt: HostRuntime) -> Result<(), Fail> {
    check_cases(rt.alloc(), NO_WEIGHTINGS)
}

/// What is printed for some words that are rejected, and nothing for others.
fn text_of(alloc: Global, words: &[&str]) -> Result<String, AllocError> {
    match read_words(alloc, words) {
        Err(fault) => format!(in alloc; "{fault}"),
        Ok(_) => Ok(String::new(alloc)),
    }
}

/// The version names the edition of the library that normalizes.
#[test]
fn edition_of_the_normalization(rt: HostRuntime) -> Result<(), Fail> {
    let (major, minor, update) = UNICODE_VERSION;
    let edition = format!(in rt.alloc(); "(normalization of Unicode {major}.{minor}.{update}, ")?;
    let text = text_of(rt.alloc(), &["uca", "--version"])?;
    holds(text.contains(edition.as_str()), "the edition of Unicode")
}
