//! The arguments of the command line, read by `clap`.
//!
//! `read_words` is proved against the specification of `clap`, which says what a command accepts:
//!
//! - At `Ok` the command accepts the arguments, and the result has those of the subcommand that they name. The depth is
//!   `Identical` exactly where `--identical` is given, and numbers are `ByValue` where `--numeric` is. `lines` is true
//!   exactly where `--lines` is given, and `changes` where `--changes` is.
//! - `Refused` has an error of a kind that the specification gives for the arguments. It is never returned for arguments
//!   that the command accepts.
//! - `Weighting` is returned only for arguments that the command accepts and whose weighting has no known name. `Fingerprint` is
//!   returned only for arguments that it accepts and whose `--from` or `--to` is no fingerprint, or for `rekey` with one
//!   of the two.
//! - No contract says when an allocation fails, or what the text of an error is. Tests compare the whole texts.
#![tactic(auto)]

ghost use Rattle.std.specs.Prelude.{◌≡◌, ◌⊎◌, Some, IfOk, IfErr, IfSome, IfNone, MatchOption, MatchResult, true, is_some, codes, option_map};
ghost use Rattle.hex.specs.Hex.{encode_lower};
ghost use Rattle.clap.specs.Words.{found_of, rows_of, first_of, Text};
ghost use Rattle.clap.specs.Takes.{is_given};
ghost use Rattle.clap.specs.Walk.{texts};
ghost use Rattle.uca_words.specs.Command.{check_app, keys_app, sort_app, compare_app, tailor_app, audit_app, affected_app, changes_app, audit_changes_app, rekey_app, compact_app, expand_app, book_app, fingerprint_app};
ghost use Rattle.uca_words.specs.inside.Met.{has_words, is_met, IsFingerprintFault, IsValueFault, IsWeightingFault};
ghost use Rattle.uca_words.specs.Words.{AreOtherFingerprints, HasBook, HasEditions, HasFiles, HasFingerprint, HasFingerprints, HasOtherFingerprint, HasOtherFingerprints, HasWord, HasWeighting, HasDepth, HasNumbers, IsNoFingerprint, Says, AreRead, IsFaultOf};

mod builders;
mod subcommands;

use builders::uca_command;
use clap::ArgMatches;
use clap::error::ErrorKind;
use clap::parser::ValueSource;
use std::alloc::{AllocError, Global};
use thiserror::Error;
use uca_fingerprint::fingerprint_of_digits;
use uca_weights::{Depth, Numbers, Weighting};

/// The arguments of a command line.
#[derive(Clone, Copy, Debug)]
pub enum Words<'a> {
    /// `check TABLE DATA`: say whether a weight table is well-formed.
    Check(CheckWords<'a>),
    /// `keys [--weighting W] [--identical] [--numeric] [--lines] [--header] [--compact BOOK] TABLE DATA`: print the sort key of each line of
    /// standard input, or its compact key.
    Keys(KeysWords<'a>),
    /// `sort [--weighting W] [--identical] [--numeric] TABLE DATA`: sort the lines of standard input.
    Sort(SortWords<'a>),
    /// `compare [--weighting W] [--identical] [--numeric] TABLE DATA LEFT RIGHT`: say which of two texts comes first.
    Compare(CompareWords<'a>),
    /// `tailor TABLE DATA RULES CERTIFICATE`: tailor a table by rules.
    Tailor(TailorWords<'a>),
    /// `audit BASE DATA RULES TAILORED CERTIFICATE`: say whether a tailored table is what its rules say.
    Audit(AuditWords<'a>),
    /// `affected [--changes] [--numeric] DATA RULES`: print the lines of standard input in which a target of the rules occurs, or what
    /// is listed in a file of changes.
    Affected(AffectedWords<'a>),
    /// `changes OLD OLD-DATA NEW NEW-DATA CERTIFICATE`: find what changes from an old table to a new one.
    Changes(ChangesWords<'a>),
    /// `audit-changes OLD OLD-DATA NEW NEW-DATA CHANGES CERTIFICATE`: say whether changes and their certificate are right.
    AuditChanges(AuditChangesWords<'a>),
    /// `rekey [--weighting W] [--identical] [--from FINGERPRINT] [--to FINGERPRINT] CERTIFICATE`: put the key of each line of
    /// standard input through the maps of a certificate.
    Rekey(RekeyWords<'a>),
    /// `compact [--weighting W] [--identical] [--from FINGERPRINT] BOOK`: put compact keys in place of the keys of standard
    /// input.
    Compact(BookWords<'a>),
    /// `expand [--weighting W] [--identical] [--to FINGERPRINT] BOOK`: put keys in place of the compact keys of standard
    /// input.
    Expand(BookWords<'a>),
    /// `book CERTIFICATE BOOK`: print the image of a book under the map of level 1 of a certificate.
    Book(BookImageWords<'a>),
    /// `fingerprint [--weighting W] [--identical] [--numeric] [--compact BOOK] TABLE DATA`: print the fingerprint of what keys are made by,
    /// or of what compact keys are.
    Fingerprint(FingerprintWords<'a>),
}

/// The arguments of `check`.
#[derive(Clone, Copy, Debug)]
pub struct CheckWords<'a> {
    /// The name of the table file.
    pub table: &'a str,
    /// The name of the data file.
    pub properties: &'a str,
}

/// The arguments of `keys`.
#[derive(Clone, Copy, Debug)]
pub struct KeysWords<'a> {
    /// The weighting, if one is given.
    pub weighting: Option<Weighting>,
    /// How far texts are compared: `Identical` if `--identical` is given.
    pub depth: Depth,
    /// How numbers compare: `ByValue` if `--numeric` is given.
    pub numbers: Numbers,
    /// Whether the line is printed after its key: `--lines` is given.
    pub lines: bool,
    /// Whether a first line says what made the keys: `--header` is given.
    pub header: bool,
    /// The name of the book file that compact keys are made by, if `--compact` is given.
    pub compact: Option<&'a str>,
    /// The name of the table file.
    pub table: &'a str,
    /// The name of the data file.
    pub properties: &'a str,
}

/// The arguments of `sort`.
#[derive(Clone, Copy, Debug)]
pub struct SortWords<'a> {
    /// The weighting, if one is given.
    pub weighting: Option<Weighting>,
    /// How far texts are compared: `Identical` if `--identical` is given.
    pub depth: Depth,
    /// How numbers compare: `ByValue` if `--numeric` is given.
    pub numbers: Numbers,
    /// The name of the table file.
    pub table: &'a str,
    /// The name of the data file.
    pub properties: &'a str,
}

/// The arguments of `compare`.
#[derive(Clone, Copy, Debug)]
pub struct CompareWords<'a> {
    /// The weighting, if one is given.
    pub weighting: Option<Weighting>,
    /// How far texts are compared: `Identical` if `--identical` is given.
    pub depth: Depth,
    /// How numbers compare: `ByValue` if `--numeric` is given.
    pub numbers: Numbers,
    /// The name of the table file.
    pub table: &'a str,
    /// The name of the data file.
    pub properties: &'a str,
    /// The text on the left.
    pub left: &'a str,
    /// The text on the right.
    pub right: &'a str,
}

/// The arguments of `tailor`.
#[derive(Clone, Copy, Debug)]
pub struct TailorWords<'a> {
    /// The name of the file of the table before the tailoring.
    pub table: &'a str,
    /// The name of the data file.
    pub properties: &'a str,
    /// The name of the file of rules.
    pub rules: &'a str,
    /// The name of the file that the certificate is written to.
    pub certificate: &'a str,
}

/// The arguments of `audit`.
#[derive(Clone, Copy, Debug)]
pub struct AuditWords<'a> {
    /// The name of the file of the table before the tailoring.
    pub base: &'a str,
    /// The name of the data file.
    pub properties: &'a str,
    /// The name of the file of rules.
    pub rules: &'a str,
    /// The name of the file of the table after the tailoring.
    pub tailored: &'a str,
    /// The name of the file of the certificate.
    pub certificate: &'a str,
}

/// The arguments of `affected`.
#[derive(Clone, Copy, Debug)]
pub struct AffectedWords<'a> {
    /// Whether `rules` names a file of changes: `--changes` is given.
    pub changes: bool,
    /// How numbers compare where lines are keyed: `ByValue` if `--numeric` is given.
    pub numbers: Numbers,
    /// The name of the data file, with `--changes` of the new one.
    pub properties: &'a str,
    /// The name of the file of rules, with `--changes` of the file of changes.
    pub rules: &'a str,
}

/// The names of the files of two editions: two tables, each with its data file.
#[derive(Clone, Copy, Debug)]
pub struct EditionNames<'a> {
    /// The name of the file of the old table.
    pub old: &'a str,
    /// The name of the old table's data file.
    pub old_data: &'a str,
    /// The name of the file of the new table.
    pub new: &'a str,
    /// The name of the new table's data file.
    pub new_data: &'a str,
}

/// The arguments of `changes`.
#[derive(Clone, Copy, Debug)]
pub struct ChangesWords<'a> {
    /// The names of the files of the two editions.
    pub editions: EditionNames<'a>,
    /// The name of the file that the certificate is written to.
    pub certificate: &'a str,
}

/// The arguments of `audit-changes`.
#[derive(Clone, Copy, Debug)]
pub struct AuditChangesWords<'a> {
    /// The names of the files of the two editions.
    pub editions: EditionNames<'a>,
    /// The name of the file of changes.
    pub changes: &'a str,
    /// The name of the file of the certificate.
    pub certificate: &'a str,
}

/// The fingerprints of what old keys were made by, and of what new ones are made by.
#[derive(Clone, Copy, Debug)]
pub struct Fingerprints {
    /// The value of `--from`, as bytes.
    pub from: [u8; 32],
    /// The value of `--to`, as bytes.
    pub to: [u8; 32],
}

/// The arguments of `rekey`.
#[derive(Clone, Copy, Debug)]
pub struct RekeyWords<'a> {
    /// The weighting that made the keys, if one is given.
    pub weighting: Option<Weighting>,
    /// The depth that made the keys: `Identical` if `--identical` is given.
    pub depth: Depth,
    /// The fingerprints of the old header and of the new one: `--from` and `--to` are given.
    pub fingerprints: Option<Fingerprints>,
    /// The name of the file of the certificate.
    pub certificate: &'a str,
}

/// The arguments of `compact`, and those of `expand`.
#[derive(Clone, Copy, Debug)]
pub struct BookWords<'a> {
    /// The weighting that made the keys, if one is given.
    pub weighting: Option<Weighting>,
    /// The depth that made the keys: `Identical` if `--identical` is given.
    pub depth: Depth,
    /// The fingerprint of the whole keys, as bytes: `--from` of `compact` is given, or `--to` of `expand`.
    pub keys: Option<[u8; 32]>,
    /// The name of the file of the book.
    pub book: &'a str,
}

/// The arguments of `book`.
#[derive(Clone, Copy, Debug)]
pub struct BookImageWords<'a> {
    /// The name of the file of the certificate.
    pub certificate: &'a str,
    /// The name of the file of the book.
    pub book: &'a str,
}

/// The arguments of `fingerprint`.
#[derive(Clone, Copy, Debug)]
pub struct FingerprintWords<'a> {
    /// The weighting, if one is given.
    pub weighting: Option<Weighting>,
    /// How far texts are compared: `Identical` if `--identical` is given.
    pub depth: Depth,
    /// How numbers compare: `ByValue` if `--numeric` is given.
    pub numbers: Numbers,
    /// The name of the file of the book of compact keys, if `--compact` is given.
    pub book: Option<&'a str>,
    /// The name of the table file.
    pub table: &'a str,
    /// The name of the data file.
    pub properties: &'a str,
}

/// Why a command line is rejected.
#[derive(Debug, Drop, Error)]
pub enum WordFault {
    /// `clap` rejects the arguments, or help or the version was asked for.
    #[error("{0}")]
    Refused(clap::Error),
    /// The value of `--weighting` is neither `non-ignorable` nor `shifted`.
    #[error("weighting: unknown")]
    Weighting,
    /// A value of `--from` or `--to` is no fingerprint, or `rekey` is given only one of the two.
    #[error("fingerprint: unknown")]
    Fingerprint,
    /// An allocation failed.
    #[error("memory")]
    Memory,
}

impl From<AllocError> for WordFault {
    ghost use Rattle.std.specs.Prelude.{◌≡◌};
    ghost use Rattle.uca_words.specs.declared.WordFault.TheVariants.{Memory};

    ghost from_gives = { λ _ fault. fault ≡ Memory };

    fn from(_error: AllocError) -> WordFault {
        WordFault::Memory
    }
}

impl From<clap::Error> for WordFault {
    ghost use Rattle.std.specs.Prelude.{◌≡◌};
    ghost use Rattle.uca_words.specs.Words.{refused};

    ghost from_gives = { λ error fault. fault ≡ refused error };

    fn from(error: clap::Error) -> WordFault {
        match error.kind() {
            ErrorKind::OutOfMemory => WordFault::Memory,
            _ => WordFault::Refused(error),
        }
    }
}

// The first value of an argument.
fn value_of<'a>(found: &ArgMatches<'a>, id: &str) -> Option<&'a str>
    ensures { option_map (λ word. word.now) result ≡ first_of id.now (rows_of (found_of found.now)) }
{
    found.get_str(id)
}

// The value of a required argument.
fn word_of<'a>(found: &ArgMatches<'a>, id: &str) -> &'a str
    requires { is_some (first_of id.now (rows_of (found_of found.now))) ≡ true }
    ensures { HasWord (rows_of (found_of found.now)) id.now result }
{
    value_of(found, id).unwrap()
}

// The weighting that is given.
fn given_weighting(found: &ArgMatches) -> Result<Option<Weighting>, WordFault>
    ensures ok { IfOk result (HasWeighting (rows_of (found_of found.now))) }
    ensures err { IfErr result (IsWeightingFault (rows_of (found_of found.now))) }
{
    let Some(word) = value_of(found, "weighting") else {
        return Ok(None);
    };
    match Weighting::from_name(word.as_bytes()) {
        Some(weighting) => Ok(Some(weighting)),
        None => Err(WordFault::Weighting),
    }
}

// The fingerprint that is given by an option.
fn given_fingerprint(found: &ArgMatches, id: &str) -> Result<Option<[u8; 32]>, WordFault>
    ensures ok { IfOk result (HasFingerprint (rows_of (found_of found.now)) id.now) }
    ensures err { IfErr result (IsFingerprintFault (HasOtherFingerprint (rows_of (found_of found.now)) id.now)) }
{
    let Some(digits) = value_of(found, id) else {
        return Ok(None);
    };
    match fingerprint_of_digits(digits) {
        Some(fingerprint) => Ok(Some(fingerprint)),
        None => Err(WordFault::Fingerprint),
    }
}

// The fingerprints that `rekey` is given: both or none.
fn given_fingerprints(found: &ArgMatches) -> Result<Option<Fingerprints>, WordFault>
    ensures ok { IfOk result (HasFingerprints (rows_of (found_of found.now))) }
    ensures err { IfErr result (IsFingerprintFault (AreOtherFingerprints (first_of (codes "from") (rows_of (found_of found.now))) (first_of (codes "to") (rows_of (found_of found.now))))) }
{
    let Some(from) = value_of(found, "from") else {
        return match value_of(found, "to") {
            None => Ok(None),
            Some(_) => Err(WordFault::Fingerprint),
        };
    };
    match value_of(found, "to") {
        Some(to) => match fingerprints_of(from, to) {
            Some(given) => Ok(Some(given)),
            None => Err(WordFault::Fingerprint),
        },
        None => Err(WordFault::Fingerprint),
    }
}

// The fingerprints of these digits.
fn fingerprints_of(from: &str, to: &str) -> Option<Fingerprints>
    ensures { MatchOption result (IsNoFingerprint from.now ⊎ IsNoFingerprint to.now)
        (λ given. (encode_lower given.from ≡ from.now) × (encode_lower given.to ≡ to.now)) }
{
    match fingerprint_of_digits(from) {
        Some(from) => match fingerprint_of_digits(to) {
            Some(to) => Some(Fingerprints { from, to }),
            None => None,
        },
        None => None,
    }
}

// Whether the command line has this argument. Its default does not count; a value without a source does.
fn is_in_words(found: &ArgMatches, id: &str) -> bool
    ensures { result ≡ is_given id.now (rows_of (found_of found.now)) }
{
    match found.value_source(id) {
        Some(ValueSource::CommandLine) => true,
        Some(ValueSource::DefaultValue) => false,
        None => found.contains_id(id),
    }
}

// How far texts are to be compared.
fn given_depth(found: &ArgMatches) -> Depth
    ensures { HasDepth (rows_of (found_of found.now)) result }
{
    if is_in_words(found, "identical") {
        Depth::Identical
    } else {
        Depth::Weights
    }
}

// How numbers are to be compared.
fn given_numbers(found: &ArgMatches) -> Numbers
    ensures { HasNumbers (rows_of (found_of found.now)) result }
{
    if is_in_words(found, "numeric") {
        Numbers::ByValue
    } else {
        Numbers::AsText
    }
}

// The names of the two files.
fn files_of<'a>(found: &ArgMatches<'a>) -> (&'a str, &'a str)
    requires { has_words check_app (rows_of (found_of found.now)) ≡ true }
    ensures { HasFiles (rows_of (found_of found.now)) result.0 result.1 }
{
    (word_of(found, "table"), word_of(found, "data"))
}

fn check_words<'a>(found: &ArgMatches<'a>) -> Words<'a>
    requires { has_words check_app (rows_of (found_of found.now)) ≡ true }
    ensures { Says (codes "check") (rows_of (found_of found.now)) result }
{
    let (table, properties) = files_of(found);
    Words::Check(CheckWords { table, properties })
}

fn keys_words<'a>(found: &ArgMatches<'a>, weighting: Option<Weighting>) -> Words<'a>
    requires { has_words keys_app (rows_of (found_of found.now)) ≡ true }
    ensures { HasWeighting (rows_of (found_of found.now)) weighting → Says (codes "keys") (rows_of (found_of found.now)) result }
{
    let (table, properties) = files_of(found);
    Words::Keys(KeysWords {
        weighting,
        depth: given_depth(found),
        numbers: given_numbers(found),
        lines: is_in_words(found, "lines"),
        header: is_in_words(found, "header"),
        compact: value_of(found, "compact"),
        table,
        properties,
    })
}

fn sort_words<'a>(found: &ArgMatches<'a>, weighting: Option<Weighting>) -> Words<'a>
    requires { has_words sort_app (rows_of (found_of found.now)) ≡ true }
    ensures { HasWeighting (rows_of (found_of found.now)) weighting → Says (codes "sort") (rows_of (found_of found.now)) result }
{
    let (table, properties) = files_of(found);
    Words::Sort(SortWords {
        weighting,
        depth: given_depth(found),
        numbers: given_numbers(found),
        table,
        properties,
    })
}

fn compare_words<'a>(found: &ArgMatches<'a>, weighting: Option<Weighting>) -> Words<'a>
    requires { has_words compare_app (rows_of (found_of found.now)) ≡ true }
    ensures { HasWeighting (rows_of (found_of found.now)) weighting → Says (codes "compare") (rows_of (found_of found.now)) result }
{
    let (table, properties) = files_of(found);
    Words::Compare(CompareWords {
        weighting,
        depth: given_depth(found),
        numbers: given_numbers(found),
        table,
        properties,
        left: word_of(found, "left"),
        right: word_of(found, "right"),
    })
}

fn tailor_words<'a>(found: &ArgMatches<'a>) -> Words<'a>
    requires { has_words tailor_app (rows_of (found_of found.now)) ≡ true }
    ensures { Says (codes "tailor") (rows_of (found_of found.now)) result }
{
    let (table, properties) = files_of(found);
    Words::Tailor(TailorWords {
        table,
        properties,
        rules: word_of(found, "rules"),
        certificate: word_of(found, "certificate"),
    })
}

fn audit_words<'a>(found: &ArgMatches<'a>) -> Words<'a>
    requires { has_words audit_app (rows_of (found_of found.now)) ≡ true }
    ensures { Says (codes "audit") (rows_of (found_of found.now)) result }
{
    Words::Audit(AuditWords {
        base: word_of(found, "base"),
        properties: word_of(found, "data"),
        rules: word_of(found, "rules"),
        tailored: word_of(found, "tailored"),
        certificate: word_of(found, "certificate"),
    })
}

fn affected_words<'a>(found: &ArgMatches<'a>) -> Words<'a>
    requires { has_words affected_app (rows_of (found_of found.now)) ≡ true }
    ensures { Says (codes "affected") (rows_of (found_of found.now)) result }
{
    Words::Affected(AffectedWords {
        changes: is_in_words(found, "changes"),
        numbers: given_numbers(found),
        properties: word_of(found, "data"),
        rules: word_of(found, "rules"),
    })
}

// The names of the files of two editions.
fn editions_of<'a>(found: &ArgMatches<'a>) -> EditionNames<'a>
    requires { has_words changes_app (rows_of (found_of found.now)) ≡ true }
    ensures { HasEditions (rows_of (found_of found.now)) result }
{
    EditionNames {
        old: word_of(found, "old"),
        old_data: word_of(found, "old-data"),
        new: word_of(found, "new"),
        new_data: word_of(found, "new-data"),
    }
}

fn changes_words<'a>(found: &ArgMatches<'a>) -> Words<'a>
    requires { has_words changes_app (rows_of (found_of found.now)) ≡ true }
    ensures { Says (codes "changes") (rows_of (found_of found.now)) result }
{
    Words::Changes(ChangesWords {
        editions: editions_of(found),
        certificate: word_of(found, "certificate"),
    })
}

fn audit_changes_words<'a>(found: &ArgMatches<'a>) -> Words<'a>
    requires { has_words audit_changes_app (rows_of (found_of found.now)) ≡ true }
    ensures { Says (codes "audit-changes") (rows_of (found_of found.now)) result }
{
    Words::AuditChanges(AuditChangesWords {
        editions: editions_of(found),
        changes: word_of(found, "changes"),
        certificate: word_of(found, "certificate"),
    })
}

fn rekey_words<'a>(
    found: &ArgMatches<'a>,
    weighting: Option<Weighting>,
) -> Result<Words<'a>, WordFault>
    requires { has_words rekey_app (rows_of (found_of found.now)) ≡ true }
    ensures { HasWeighting (rows_of (found_of found.now)) weighting →
        MatchResult result (Says (codes "rekey") (rows_of (found_of found.now))) (IsFingerprintFault (HasOtherFingerprints (codes "rekey") (rows_of (found_of found.now)))) }
{
    match given_fingerprints(found) {
        Ok(fingerprints) => Ok(Words::Rekey(RekeyWords {
            weighting,
            depth: given_depth(found),
            fingerprints,
            certificate: word_of(found, "certificate"),
        })),
        Err(fault) => Err(fault),
    }
}

// The arguments of a subcommand over a book, with the fingerprint of keys that an option gives.
fn book_words<'a>(
    found: &ArgMatches<'a>,
    weighting: Option<Weighting>,
    keys: Option<[u8; 32]>,
) -> BookWords<'a>
    requires { has_words compact_app (rows_of (found_of found.now)) ≡ true }
    ensures { (id : Text) → HasWeighting (rows_of (found_of found.now)) weighting → HasFingerprint (rows_of (found_of found.now)) id keys →
        HasBook (rows_of (found_of found.now)) id result }
{
    BookWords {
        weighting,
        depth: given_depth(found),
        keys,
        book: word_of(found, "book"),
    }
}

fn compact_words<'a>(
    found: &ArgMatches<'a>,
    weighting: Option<Weighting>,
) -> Result<Words<'a>, WordFault>
    requires { has_words compact_app (rows_of (found_of found.now)) ≡ true }
    ensures { HasWeighting (rows_of (found_of found.now)) weighting →
        MatchResult result (Says (codes "compact") (rows_of (found_of found.now))) (IsFingerprintFault (HasOtherFingerprints (codes "compact") (rows_of (found_of found.now)))) }
{
    match given_fingerprint(found, "from") {
        Ok(keys) => Ok(Words::Compact(book_words(found, weighting, keys))),
        Err(fault) => Err(fault),
    }
}

fn expand_words<'a>(
    found: &ArgMatches<'a>,
    weighting: Option<Weighting>,
) -> Result<Words<'a>, WordFault>
    requires { has_words expand_app (rows_of (found_of found.now)) ≡ true }
    ensures { HasWeighting (rows_of (found_of found.now)) weighting →
        MatchResult result (Says (codes "expand") (rows_of (found_of found.now))) (IsFingerprintFault (HasOtherFingerprints (codes "expand") (rows_of (found_of found.now)))) }
{
    match given_fingerprint(found, "to") {
        Ok(keys) => Ok(Words::Expand(book_words(found, weighting, keys))),
        Err(fault) => Err(fault),
    }
}

fn book_image_words<'a>(found: &ArgMatches<'a>) -> Words<'a>
    requires { has_words book_app (rows_of (found_of found.now)) ≡ true }
    ensures { Says (codes "book") (rows_of (found_of found.now)) result }
{
    Words::Book(BookImageWords {
        certificate: word_of(found, "certificate"),
        book: word_of(found, "book"),
    })
}

fn fingerprint_words<'a>(found: &ArgMatches<'a>, weighting: Option<Weighting>) -> Words<'a>
    requires { has_words fingerprint_app (rows_of (found_of found.now)) ≡ true }
    ensures { HasWeighting (rows_of (found_of found.now)) weighting → Says (codes "fingerprint") (rows_of (found_of found.now)) result }
{
    let (table, properties) = files_of(found);
    Words::Fingerprint(FingerprintWords {
        weighting,
        depth: given_depth(found),
        numbers: given_numbers(found),
        book: value_of(found, "compact"),
        table,
        properties,
    })
}

// The arguments of the subcommand of this name, with the weighting that is given. Or the error of a fingerprint.
fn subcommand_words<'a>(
    name: &str,
    found: &ArgMatches<'a>,
    weighting: Option<Weighting>,
) -> Result<Words<'a>, WordFault>
    requires { is_met name.now (rows_of (found_of found.now)) ≡ true }
    ensures { HasWeighting (rows_of (found_of found.now)) weighting →
        MatchResult result (Says name.now (rows_of (found_of found.now))) (IsFingerprintFault (HasOtherFingerprints name.now (rows_of (found_of found.now)))) }
{
    match name {
        "check" => Ok(check_words(found)),
        "keys" => Ok(keys_words(found, weighting)),
        "sort" => Ok(sort_words(found, weighting)),
        "compare" => Ok(compare_words(found, weighting)),
        "tailor" => Ok(tailor_words(found)),
        "audit" => Ok(audit_words(found)),
        "affected" => Ok(affected_words(found)),
        "changes" => Ok(changes_words(found)),
        "audit-changes" => Ok(audit_changes_words(found)),
        "rekey" => rekey_words(found, weighting),
        "compact" => compact_words(found, weighting),
        "expand" => expand_words(found, weighting),
        "book" => Ok(book_image_words(found)),
        "fingerprint" => Ok(fingerprint_words(found, weighting)),
        _ => unreachable!(),
    }
}

// As `subcommand_words`, or the error of a value. The weighting is none where no option gives it.
fn words_of<'a>(name: &str, found: &ArgMatches<'a>) -> Result<Words<'a>, WordFault>
    requires { is_met name.now (rows_of (found_of found.now)) ≡ true }
    ensures ok { IfOk result (Says name.now (rows_of (found_of found.now))) }
    ensures err { IfErr result (IsValueFault name.now (rows_of (found_of found.now))) }
{
    match given_weighting(found) {
        Ok(weighting) => subcommand_words(name, found, weighting),
        Err(fault) => Err(fault),
    }
}

/// Reads the arguments of a command line; the first is the program's name. Returns the subcommand with its arguments, the
/// weighting that is given, how far texts are compared, and how numbers are.
///
/// # Errors
///
/// - `Refused`: `clap` rejects the arguments, or help or the version is asked for. It has the error of `clap`.
/// - `Weighting`: `clap` accepts the arguments, and the value of `--weighting` is not known.
/// - `Fingerprint`: `clap` accepts the arguments, and the value of `--from` or `--to` is no fingerprint, or `rekey` has
///   only one of the two.
/// - `Memory`: an allocation failed.
pub fn read_words<'a>(alloc: Global, words: &'a [&'a str]) -> Result<Words<'a>, WordFault>
    ensures ok { IfOk result (AreRead (texts words.entry.now)) }
    ensures err { IfErr result (IsFaultOf (texts words.entry.now)) }
{
    let command = uca_command(alloc)?;
    match command.try_get_matches_from(words) {
        Ok(matches) => {
            let (name, found) = matches.subcommand().unwrap();
            // The matches are dropped in one step: that keeps the proof short.
            let said = words_of(name, found);
            drop(matches);
            said
        }
        Err(error) => Err(WordFault::from(error)),
    }
}
