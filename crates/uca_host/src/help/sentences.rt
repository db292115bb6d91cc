//! What a line of help says of each error. An error without a way out has none.

use crate::help::Advice;
use uca_certificates::CertificateFaultKind;
use uca_changes::{ChangeCondition, ChangeFault};
use uca_plans::TailorKind;
use uca_rules::{RuleFault, RuleFaultKind};
use uca_run_parts::faults::{FileFault, InputKind, Role, RunFault, StoredKeyKind};
use uca_text::TextFault;
use uca_values::FaultKind;
use uca_words::WordFault;

const MEMORY: &str = "give the program more memory, or a smaller input";

const TOO_LONG: &str =
    "split the text: it has at most 1,048,576 code points, an input line 4,194,304 bytes";

const LONG_RUN: &str = "look for damaged text there: at most 64 combining marks come in a row";

/// What is said where compact keys are long.
pub(crate) const LONG_COMPACT_KEYS: &str =
    "the compact keys are long by this book: uca-files --book TAG makes one for the table of a language";

const OTHER_FILE: &str = "Is it another file?";

const IS_BEGUN: &str =
    "Is it another file, is it empty, or does it have CR LF or a byte order mark?";

// A sentence alone.
fn plain(sentence: &'static str) -> Advice {
    let file = None;
    Advice { file, sentence }
}

// The name of a file, and a sentence about it.
fn about(role: Role, sentence: &'static str) -> Advice {
    let file = Some((role, ": "));
    Advice { file, sentence }
}

// The name of a file, what it is read as, and a sentence.
fn read_as(role: Role, sentence: &'static str) -> Advice {
    let file = Some((role, reading_of(role)));
    Advice { file, sentence }
}

// What a file is read as.
fn reading_of(role: Role) -> &'static str {
    match role {
        Role::Table | Role::Base | Role::Tailored | Role::Old | Role::New => {
            " is read as a table, which begins with @version. "
        }
        Role::Data | Role::OldData | Role::NewData => {
            " is read as a data file, which begins with @data 1. "
        }
        Role::Rules => " is read as rules, which begin with &. ",
        Role::Certificate => {
            " is read as a certificate, such as uca tailor and uca changes write. "
        }
        Role::Changes => " is read as changes, which begin with @changes 1. ",
        Role::Book => " is read as a book, which begins with @book 1. ",
    }
}

fn on_line(role: Role, kind: FaultKind) -> Advice {
    match kind {
        FaultKind::Line => read_as(
            role,
            "Is it another file? Each line ends in LF, the last one too. tr -d '\\r' removes CR",
        ),
        FaultKind::Order => read_as(role, IS_BEGUN),
        FaultKind::CodePoint => about(
            role,
            "a code point is four to six upper-case hexadecimal digits, such as 0061",
        ),
        FaultKind::Weight => about(role, weight_of(role)),
        FaultKind::DuplicateKey => about(
            role,
            "an earlier row has the same code points: delete one of the two",
        ),
        FaultKind::Range => about(
            role,
            "a range is not empty and overlaps no other: docs/FORMATS.md has more",
        ),
        FaultKind::Limit => about(
            role,
            "it is too large, or this line is: docs/FORMATS.md has the limits",
        ),
        FaultKind::Read => about(role, "is it a folder? It cannot be read"),
        FaultKind::Memory => plain(MEMORY),
    }
}

// How a weight or a class is written in a file.
fn weight_of(role: Role) -> &'static str {
    match role {
        Role::Data | Role::OldData | Role::NewData => {
            "a class is a number from 1 to 254. Leave out a line of class 0"
        }
        _ =>
            "an element has three weights of four upper-case hexadecimal digits: [.1C47.0020.0002]",
    }
}

fn on_rules(fault: RuleFault) -> Advice {
    match fault.kind {
        RuleFaultKind::Syntax if fault.byte == 0 => read_as(
            Role::Rules,
            "Settings such as [import de] are not read. Is it another file, or does it begin with a byte order mark?",
        ),
        RuleFaultKind::Syntax => plain(
            "uca reads no |, no <<<< and no brackets but [before 1] to [before 3]. Quote punctuation and blanks, as in 'ice cream'. Write & or a sign such as < before each text",
        ),
        RuleFaultKind::EmptyText => plain(
            "write the text after &, a sign or /. Or take the blank out of a sign: <<<, not << <",
        ),
        RuleFaultKind::Escape => plain(
            "write all digits: \\u and four of them, as in \\u00E9, or \\U and eight",
        ),
        RuleFaultKind::BeforeStrength => plain(
            "after [before 1] the first sign is <, after [before 2] <<, and after [before 3] <<<",
        ),
        RuleFaultKind::DuplicateTarget => plain(
            "an earlier relation has this target: delete one of the two. \\u00E9 and e\\u0301 are one text",
        ),
        RuleFaultKind::LateTarget => plain("put this relation first, or use another anchor"),
        RuleFaultKind::Limit => about(
            Role::Rules,
            "at most 16 code points a text, 5,000 relations, and 1,048,576 bytes. Is it another file?",
        ),
        RuleFaultKind::Utf8 => about(
            Role::Rules,
            "rules are UTF-8. If it is in LATIN1, iconv -f LATIN1 -t UTF-8 converts it",
        ),
        RuleFaultKind::Memory => plain(MEMORY),
    }
}

fn on_certificate(kind: CertificateFaultKind) -> Advice {
    match kind {
        CertificateFaultKind::Read => about(Role::Certificate, "is it a folder? It cannot be read"),
        CertificateFaultKind::Memory => plain(MEMORY),
        _ => read_as(Role::Certificate, OTHER_FILE),
    }
}

fn on_file(role: Role, fault: FileFault) -> Advice {
    match fault {
        FileFault::Lines(fault) => on_line(role, fault.kind),
        FileFault::Rules(fault) => on_rules(fault),
        FileFault::RulesRead => on_line(role, FaultKind::Read),
        FileFault::RulesMemory => plain(MEMORY),
        FileFault::Certificate(fault) => on_certificate(fault.kind),
    }
}

fn on_input(kind: InputKind) -> Advice {
    plain(match kind {
        InputKind::Utf8 => {
            "the line is not UTF-8. If the input is in LATIN1, iconv -f LATIN1 -t UTF-8 converts it"
        }
        InputKind::TooLong => TOO_LONG,
        InputKind::LongRun(_) => LONG_RUN,
        InputKind::Read => "give standard input a file or a pipe, such as < lines.txt",
        InputKind::Limit => {
            "split the input: it has at most 1,000,000 lines. examples/databases/sort_parts.sh sorts more"
        }
        InputKind::Memory => MEMORY,
    })
}

fn on_stored_key(kind: StoredKeyKind) -> Advice {
    plain(match kind {
        StoredKeyKind::NoKey => {
            "a key is pairs of upper-case hexadecimal digits, up to the first tab, without \\x. A header begins with # and needs --from or --to"
        }
        StoredKeyKind::NoImage => {
            "if the key was made with this --weighting and --identical, make it again from its text"
        }
        StoredKeyKind::OtherKey => {
            "give --weighting and --identical as they were when the keys were made"
        }
        StoredKeyKind::NoCompactKey => {
            "give the book, --weighting and --identical by which the keys were compacted"
        }
        StoredKeyKind::Header => {
            "the first line says what made the keys: give its weighting, depth and fingerprint"
        }
        StoredKeyKind::TooLong =>
            "look for damaged lines: this one has more than 1,073,741,824 bytes",
        StoredKeyKind::Read => "give standard input a file or a pipe, such as < lines.txt",
        StoredKeyKind::Memory => MEMORY,
    })
}

fn on_text(fault: TextFault) -> Advice {
    plain(match fault {
        TextFault::TooLong => TOO_LONG,
        TextFault::LongRun(_) => LONG_RUN,
        TextFault::Memory => MEMORY,
    })
}

fn on_plan(kind: TailorKind) -> Advice {
    plain(match kind {
        TailorKind::BaseIllFormed => {
            "uca check says which row is not well-formed. docs/UNICODE.md mends Unicode's table"
        }
        TailorKind::Anchor => "use an anchor that has a row, and a weight at this level",
        TailorKind::NeedsPrefix => "write a relation for the beginning of the target first",
        TailorKind::Limit => "shorten the expansions",
        TailorKind::ImplicitVariable => "give the anchor or the expansion a row",
        TailorKind::NoRoom(_) => "use fewer relations at this level",
        TailorKind::Memory => MEMORY,
    })
}

fn on_changes(fault: ChangeFault) -> Option<Advice> {
    match fault {
        ChangeFault::NotMet(ChangeCondition::OldIllFormed | ChangeCondition::NewIllFormed, _) => {
            Some(on_plan(TailorKind::BaseIllFormed))
        }
        ChangeFault::NotMet(ChangeCondition::SettingChanged, _) => Some(plain(
            "give both tables the same @variable line, or make all keys again",
        )),
        ChangeFault::NotMet(_, _) => None,
        ChangeFault::Memory => Some(plain(MEMORY)),
    }
}

fn on_open(role: Role) -> Advice {
    about(
        role,
        match role {
            Role::Table | Role::Data => {
                "there is no such file, or you may not read it. For a language write $(uca-files TAG), such as $(uca-files pl)"
            }
            Role::Rules =>
                "there is no such file, or you may not read it. RULES is the name of a file, not the rules",
            _ => "there is no such file, or you may not read it",
        },
    )
}

fn on_words(fault: &WordFault) -> Option<Advice> {
    match fault {
        WordFault::Refused(_) => None,
        WordFault::Weighting => Some(plain("the weightings are non-ignorable and shifted")),
        WordFault::Fingerprint => Some(plain(
            "a fingerprint is 64 lower-case hexadecimal digits. rekey takes both --from and --to",
        )),
        WordFault::Memory => Some(plain(
            "give the program more memory. Or is an argument not UTF-8?",
        )),
    }
}

/// What is said of an error, if there is a way out.
pub fn advice_on(fault: &RunFault) -> Option<Advice> {
    match fault {
        RunFault::File { role, fault } => Some(on_file(*role, *fault)),
        RunFault::Digits { .. } => Some(about(
            Role::Table,
            "it does not order numbers by value: leave out --numeric, or correct the rows of digits",
        )),
        RunFault::Input { kind, .. } => Some(on_input(*kind)),
        RunFault::StoredKey { kind, .. } => Some(on_stored_key(*kind)),
        RunFault::Write { .. } => Some(plain(
            "is the disk full, or did what reads the output end early, such as head?",
        )),
        RunFault::Memory => Some(plain(MEMORY)),
        RunFault::Text { fault, .. } => Some(on_text(*fault)),
        RunFault::Tailor(fault) => Some(on_plan(fault.kind)),
        RunFault::Changes(fault) => on_changes(*fault),
        RunFault::CertificateWrite { .. } => Some(about(
            Role::Certificate,
            "check its folder, your rights and the disk",
        )),
        RunFault::Open(role) => Some(on_open(*role)),
        RunFault::SameAs(role) => Some(about(
            *role,
            "this command reads it. Give the certificate another name",
        )),
        RunFault::Words(fault) => on_words(fault),
    }
}
