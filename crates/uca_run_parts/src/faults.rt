//! Why a run ends without its whole output.

ghost use Rattle.std.specs.Prelude.{◌≡◌, ◌≤◌, ◌++◌, codes, decimal, length, Some};
ghost use Rattle.uca_run_parts.specs.RoleText.{role_text};
ghost use Rattle.uca_run_parts.specs.FaultText.{input_kind_text, stored_key_text, file_fault_text, digits_text, side_text, tailor_text, fault_text};
ghost use Rattle.uca_run_parts.specs.PlanFaults.{refused_plan};
ghost use Rattle.uca_run_parts.specs.ChangeFaults.{refused_changes};
ghost use Rattle.uca_run_parts.specs.declared.faults.RunFault.TheVariants.{Write};

use crate::change_faults::change_message;
use std::fmt;
use thiserror::Error;
use uca_certificates::CertificateFault;
use uca_changes::ChangeFault;
use uca_plans::{TailorFault, TailorKind};
use uca_rules::RuleFault;
use uca_text::TextFault;
use uca_values::TableFault;
use uca_weights::{Message, WriteFault};
use uca_words::WordFault;

/// What a file is for.
#[derive(Clone, Copy, Debug, PartialEq, Eq)]
pub enum Role {
    /// The weight table.
    Table,
    /// The data file.
    Data,
    /// The tailoring rules.
    Rules,
    /// The certificate of a tailoring.
    Certificate,
    /// The weight table before a tailoring, when the tailoring is audited. When it is made, that table is `Table`.
    Base,
    /// The weight table after a tailoring.
    Tailored,
    /// The weight table before a change.
    Old,
    /// The data file before a change.
    OldData,
    /// The weight table after a change.
    New,
    /// The data file after a change.
    NewData,
    /// The file of changes.
    Changes,
    /// The book that compact keys are written by.
    Book,
}

impl Role {
    /// Its name in an error line.
    pub fn name(self) -> &'static str
        ensures { result.now ≡ role_text self }
    {
        match self {
            Role::Table => "table",
            Role::Data => "data",
            Role::Rules => "rules",
            Role::Certificate => "certificate",
            Role::Base => "base",
            Role::Tailored => "tailored",
            Role::Old => "old",
            Role::OldData => "old-data",
            Role::New => "new",
            Role::NewData => "new-data",
            Role::Changes => "changes",
            Role::Book => "book",
        }
    }
}

impl fmt::Display for Role {
    ghost output = { λ role. Some (role_text role) };

    fn fmt<W: fmt::Write>(&self, f: &mut fmt::Formatter<W>) -> fmt::Result {
        f.write_str(self.name())
    }
}

/// Why a line of standard input is rejected.
#[derive(Clone, Copy, Debug, PartialEq, Eq, Error)]
pub enum InputKind {
    /// It is not UTF-8.
    Utf8,
    /// It has more than 4,194,304 bytes, or its text more than 1,048,576 code points in
    /// Normalization Form D (UAX #15).
    TooLong,
    /// More than 64 non-starters come in a row in Normalization Form D: the index, from 0, of the
    /// first one of the first such run.
    LongRun(u32),
    /// The reader failed.
    Read,
    /// It is line 1,000,001.
    Limit,
    /// An allocation failed.
    Memory,
}

impl InputKind {
    /// Its text: `Utf8`, `LongRun at 12`.
    pub fn message(&self) -> Message
        ensures text { result ≡ input_kind_text self.now }
        ensures short { length result ≤ 40 }
    {
        match self {
            InputKind::Utf8 => Message::of("Utf8"),
            InputKind::TooLong => Message::of("TooLong"),
            InputKind::LongRun(place) => Message::of("LongRun at ").number((*place).into()),
            InputKind::Read => Message::of("Read"),
            InputKind::Limit => Message::of("Limit"),
            InputKind::Memory => Message::of("Memory"),
        }
    }
}

impl fmt::Display for InputKind {
    ghost output = { λ kind. Some (input_kind_text kind) };

    fn fmt<W: fmt::Write>(&self, f: &mut fmt::Formatter<W>) -> fmt::Result {
        f.write_str(self.message().as_str())
    }
}

/// Why a line of standard input with a stored key is rejected.
#[derive(Clone, Copy, Debug, PartialEq, Eq, Error)]
pub enum StoredKeyKind {
    /// It does not begin with the digits of a key.
    NoKey,
    /// Its key has no key under the new table: a weight has no image, or its levels do not fit the weighting and the depth.
    NoImage,
    /// Its key is none of this weighting and depth, so it has no compact key.
    OtherKey,
    /// Its bytes are no compact key: under the book, the weighting and the depth no key has them.
    NoCompactKey,
    /// It is the first line, and is not the header that has to come before the keys; or there is no line at all.
    Header,
    /// It has more bytes than a line may have.
    TooLong,
    /// The reader failed.
    Read,
    /// An allocation failed.
    Memory,
}

impl StoredKeyKind {
    /// Its name: `NoImage`.
    pub fn name(self) -> &'static str
        ensures text { result.now ≡ stored_key_text self }
        ensures short { length result.now ≤ 40 }
    {
        match self {
            StoredKeyKind::NoKey => "NoKey",
            StoredKeyKind::NoImage => "NoImage",
            StoredKeyKind::OtherKey => "OtherKey",
            StoredKeyKind::NoCompactKey => "NoCompactKey",
            StoredKeyKind::Header => "Header",
            StoredKeyKind::TooLong => "TooLong",
            StoredKeyKind::Read => "Read",
            StoredKeyKind::Memory => "Memory",
        }
    }
}

impl fmt::Display for StoredKeyKind {
    ghost output = { λ kind. Some (stored_key_text kind) };

    fn fmt<W: fmt::Write>(&self, f: &mut fmt::Formatter<W>) -> fmt::Result {
        f.write_str(self.name())
    }
}

/// Where a file is rejected, and why. Its text follows the name of the role of the file.
#[derive(Clone, Copy, PartialEq, Eq, Error)]
pub enum FileFault {
    /// In a line of a table, of a data file, of a file of changes or of a book: `line 7: Range`.
    #[error(transparent)]
    Lines(TableFault),
    /// At a byte of rules: `byte 7: Syntax`.
    #[error(transparent)]
    Rules(RuleFault),
    /// The reader of rules failed.
    #[error("Read")]
    RulesRead,
    /// An allocation failed for the bytes of rules.
    #[error("Memory")]
    RulesMemory,
    /// In a line of a certificate: `line 7: Order`.
    #[error(transparent)]
    Certificate(CertificateFault),
}

impl FileFault {
    /// Its line for a file of this role: `table line 7: Range`, `rules: Read`.
    pub fn message(&self, role: Role) -> Message
        ensures text { result ≡ file_fault_text (role_text role) self.now }
        ensures short { length result ≤ 100 }
    {
        match self {
            FileFault::Lines(fault) => role_message(role, " ").text(fault.message().as_str()),
            FileFault::Rules(fault) => role_message(role, " ").text(fault.message().as_str()),
            FileFault::RulesRead => role_message(role, ": Read"),
            FileFault::RulesMemory => role_message(role, ": Memory"),
            FileFault::Certificate(fault) => role_message(role, " ").text(fault.message().as_str()),
        }
    }
}

impl fmt::Debug for FileFault {
    fn fmt<W: fmt::Write>(&self, f: &mut fmt::Formatter<W>) -> fmt::Result {
        write!(f, "{self}")
    }
}

// The name of a role, and a text after it.
fn role_message(role: Role, text: &str) -> Message
    requires { length text.now ≤ 20 }
    ensures text { result ≡ role_text role ++ text.now }
    ensures short { length result ≤ 40 }
{
    Message::of(role.name()).text(text)
}

/// Why a run ends without its whole output. Its text is the error line on standard error.
#[derive(Drop, Error)]
pub enum RunFault {
    /// A file is rejected, or cannot be read.
    File {
        /// What the file is for.
        role: Role,
        /// Where it is rejected, and why.
        fault: FileFault,
    },
    /// Numbers were to be ordered by value, and the table does not order them: `table row 34200: Digits`.
    Digits {
        /// The row to blame, counted from 1 in file order; 0 if a digit has no row.
        row: u32,
    },
    /// A line of the input is rejected, or cannot be read.
    Input {
        /// The line, counted from 1.
        line: u32,
        /// Why it is rejected.
        kind: InputKind,
    },
    /// A line of the input with a stored key is rejected, or cannot be read.
    StoredKey {
        /// The line, counted from 1.
        line: u64,
        /// Why it is rejected.
        kind: StoredKeyKind,
    },
    /// The writer failed.
    Write {
        /// How many bytes of the whole output went out before: less than all.
        written: u64,
    },
    /// An allocation failed that belongs to no file and to no line.
    Memory,
    /// An argument that is to be compared is rejected.
    Text {
        /// Whether it is the second of the two arguments.
        right: bool,
        /// Why it is rejected.
        fault: TextFault,
    },
    /// There is no plan, and so no tailored table: `tailor relation 3: Anchor`, `tailor: NoRoom 2`.
    Tailor(TailorFault),
    /// No change is found that an audit accepts: `changes: OldIllFormed old row 3`.
    Changes(ChangeFault),
    /// The file of the certificate cannot be made or kept, or its writer failed.
    CertificateWrite {
        /// How many bytes of the certificate went out before its writer failed; 0 where the file cannot be made or kept.
        written: u64,
    },
    /// A file does not open.
    Open(Role),
    /// The certificate is to be written over this file, which the run reads: `certificate: SameAs table`.
    SameAs(Role),
    /// The command line is rejected.
    Words(WordFault),
}

impl RunFault {
    /// Its line on standard error, without the LF: empty for an error of `clap`, which has its own text.
    pub fn message(&self) -> Message
        ensures text { result ≡ fault_text self.now }
        ensures short { length result ≤ 120 }
    {
        match self {
            RunFault::File { role, fault } => fault.message(*role),
            RunFault::Digits { row } => digits_message(*row),
            RunFault::Input { line, kind } => {
                line_message((*line).into()).text(kind.message().as_str())
            }
            RunFault::StoredKey { line, kind } => line_message(*line).text(kind.name()),
            RunFault::Write { .. } => Message::of("output: Write"),
            RunFault::Memory => Message::of("memory"),
            RunFault::Text { right, fault } => Message::of(side_name(*right))
                .text(": ")
                .text(fault.message().as_str()),
            RunFault::Tailor(fault) => tailor_message(*fault),
            RunFault::Changes(fault) => {
                Message::of("changes: ").text(change_message(*fault).as_str())
            }
            RunFault::CertificateWrite { .. } => Message::of("certificate: Write"),
            RunFault::Open(role) => role_message(*role, ": Open"),
            RunFault::SameAs(role) => Message::of("certificate: SameAs ").text(role.name()),
            RunFault::Words(WordFault::Weighting) => Message::of("weighting: unknown"),
            RunFault::Words(WordFault::Fingerprint) => Message::of("fingerprint: unknown"),
            RunFault::Words(WordFault::Memory) => Message::of("memory"),
            RunFault::Words(WordFault::Refused(_)) => Message::of(""),
        }
    }
}

// By which row of a table numbers have no order.
fn digits_message(row: u32) -> Message
    ensures text { result ≡ digits_text row }
    ensures short { length result ≤ 40 }
{
    if row == 0 {
        Message::of("table: Digits")
    } else {
        Message::of("table row ")
            .number(row.into())
            .text(": Digits")
    }
}

// Which line of the input it is.
fn line_message(line: u64) -> Message
    ensures text { result ≡ codes "input line " ++ decimal line ++ codes ": " }
    ensures short { length result ≤ 40 }
{
    Message::of("input line ").number(line).text(": ")
}

// Which of the two arguments it is.
fn side_name(right: bool) -> &'static str
    ensures { result.now ≡ side_text right }
{
    if right { "right" } else { "left" }
}

// The line of an error of the planner.
fn tailor_message(fault: TailorFault) -> Message
    ensures text { result ≡ tailor_text fault }
    ensures short { length result ≤ 120 }
{
    if fault.kind == TailorKind::Memory {
        return Message::of("memory");
    }
    let start = if fault.relation == 0 {
        "tailor: "
    } else {
        "tailor "
    };
    Message::of(start).text(fault.message().as_str())
}

impl fmt::Display for RunFault {
    fn fmt<W: fmt::Write>(&self, f: &mut fmt::Formatter<W>) -> fmt::Result {
        match self {
            RunFault::Words(fault) => write!(f, "{fault}"),
            _ => f.write_str(self.message().as_str()),
        }
    }
}

impl fmt::Debug for RunFault {
    fn fmt<W: fmt::Write>(&self, f: &mut fmt::Formatter<W>) -> fmt::Result {
        write!(f, "{self}")
    }
}

impl From<TailorFault> for RunFault {
    ghost from_gives = { λ fault e. e ≡ refused_plan fault };

    fn from(fault: TailorFault) -> RunFault {
        match fault.kind {
            TailorKind::Memory => RunFault::Memory,
            _ => RunFault::Tailor(fault),
        }
    }
}

impl From<ChangeFault> for RunFault {
    ghost from_gives = { λ fault e. e ≡ refused_changes fault };

    fn from(fault: ChangeFault) -> RunFault {
        match fault {
            ChangeFault::Memory => RunFault::Memory,
            _ => RunFault::Changes(fault),
        }
    }
}

impl From<WriteFault> for RunFault {
    ghost from_gives = { λ fault e. e ≡ Write fault.written };

    fn from(fault: WriteFault) -> RunFault {
        RunFault::Write {
            written: fault.written,
        }
    }
}
