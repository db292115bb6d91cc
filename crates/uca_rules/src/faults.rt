//! `RuleFault`: at which byte rules are rejected, and why.

ghost use Rattle.std.specs.Prelude.{◌≡◌, ◌≤◌, length, Some};
ghost use Rattle.uca_rules.specs.declared.faults.RuleFaultKind.{RuleFaultKind};
ghost use Rattle.uca_rules.specs.FaultText.{kind_text, rule_fault_text};

use std::alloc::{AllocError, AllocFailed};
use std::fmt;
use thiserror::Error;
use uca_weights::Message;

/// Why rules are rejected.
#[derive(Clone, Copy, Debug, PartialEq, Eq)]
pub enum RuleFaultKind {
    /// A character comes where it may not; a bracket is none of `[before 1]`, `[before 2]` and `[before 3]`; a quote
    /// has no end; or four or more `<` come in a row. Or a chain has no relation, or a `-` of a starred text stands for
    /// no range.
    Syntax,
    /// A backslash comes at the end, its digits are missing, or they give a surrogate or a number above 10FFFF.
    Escape,
    /// The first relation after `[before 1]`, `[before 2]` or `[before 3]` has another strength.
    BeforeStrength,
    /// A text must begin there, but the end, `&`, `<`, `=` or `/` comes.
    EmptyText,
    /// There are more than 1,048,576 bytes or more than 5,000 relations, or a text has more than 16 code points in
    /// Normalization Form D.
    Limit,
    /// The target is the target of an earlier relation.
    DuplicateTarget,
    /// The target occurs in order in an anchor or an expansion of its own relation or of an earlier one. That text is
    /// not itself the target of a relation before it, so the new target would change how it is read.
    LateTarget,
    /// An allocation failed.
    Memory,
    /// The bytes are not UTF-8.
    Utf8,
}

impl RuleFaultKind {
    /// The name of the kind, as it is written in an error line.
    pub fn name(self) -> &'static str
        ensures { result.now ≡ kind_text self }
    {
        match self {
            RuleFaultKind::Syntax => "Syntax",
            RuleFaultKind::Escape => "Escape",
            RuleFaultKind::BeforeStrength => "BeforeStrength",
            RuleFaultKind::EmptyText => "EmptyText",
            RuleFaultKind::Limit => "Limit",
            RuleFaultKind::DuplicateTarget => "DuplicateTarget",
            RuleFaultKind::LateTarget => "LateTarget",
            RuleFaultKind::Memory => "Memory",
            RuleFaultKind::Utf8 => "Utf8",
        }
    }
}

impl fmt::Display for RuleFaultKind {
    ghost output = { λ kind. Some (kind_text kind) };

    fn fmt<W: fmt::Write>(&self, f: &mut fmt::Formatter<W>) -> fmt::Result {
        f.write_str(self.name())
    }
}

/// Rules are rejected: at which byte, and why.
#[derive(Clone, Copy, Debug, PartialEq, Eq, Error)]
pub struct RuleFault {
    /// The byte, counted from 0. An error at the end of the rules has their length.
    pub byte: usize,
    /// Why they are rejected.
    pub kind: RuleFaultKind,
}

impl RuleFault {
    /// Its text: `byte 13: LateTarget`.
    pub fn message(&self) -> Message
        ensures text { result ≡ rule_fault_text self.now }
        ensures short { length result ≤ 60 }
    {
        Message::of("byte ")
            .number(self.byte as u64)
            .text(": ")
            .text(self.kind.name())
    }
}

impl fmt::Display for RuleFault {
    ghost output = { λ fault. Some (rule_fault_text fault) };

    fn fmt<W: fmt::Write>(&self, f: &mut fmt::Formatter<W>) -> fmt::Result {
        f.write_str(self.message().as_str())
    }
}

impl From<AllocError> for RuleFaultKind {
    ghost from_gives = { λ _ kind. kind ≡ RuleFaultKind.Memory };

    fn from(_error: AllocError) -> RuleFaultKind {
        RuleFaultKind::Memory
    }
}

impl<T: Drop> From<AllocFailed<T>> for RuleFaultKind {
    ghost from_gives = { λ _ kind. kind ≡ RuleFaultKind.Memory };

    fn from(_error: AllocFailed<T>) -> RuleFaultKind {
        RuleFaultKind::Memory
    }
}
