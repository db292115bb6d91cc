//! Why a certificate is rejected.

ghost use Rattle.std.specs.Prelude.{◌≡◌, ◌≤◌, length, Some};
ghost use Rattle.uca_certificates.specs.declared.faults.CertificateFaultKind.{CertificateFaultKind};
ghost use Rattle.uca_certificates.specs.FaultText.{kind_text, certificate_fault_text};

use std::alloc::{AllocError, AllocFailed};
use std::fmt;
use thiserror::Error;
use uca_lines::files::LineFileFault;
use uca_weights::{MapFault, Message};

/// Why a certificate is rejected.
#[derive(Clone, Copy, PartialEq, Eq)]
pub enum CertificateFaultKind {
    /// The line is not a level and three numbers of four digits, with one space between, or it does not end in LF.
    Line,
    /// The level of the line is lower than that of the line before.
    Order,
    /// The runs of a level make no map.
    Map(MapFault),
    /// The line is run 65,536 of its level.
    Limit,
    /// The reader failed.
    Read,
    /// An allocation failed.
    Memory,
}

impl CertificateFaultKind {
    /// Its text: `Order`, `Map NotRising`.
    pub fn message(&self) -> Message
        ensures text { result ≡ kind_text self.now }
        ensures short { length result ≤ 20 }
    {
        match self {
            CertificateFaultKind::Line => Message::of("Line"),
            CertificateFaultKind::Order => Message::of("Order"),
            CertificateFaultKind::Map(fault) => Message::of("Map ").text(fault.kind.name()),
            CertificateFaultKind::Limit => Message::of("Limit"),
            CertificateFaultKind::Read => Message::of("Read"),
            CertificateFaultKind::Memory => Message::of("Memory"),
        }
    }
}

impl fmt::Display for CertificateFaultKind {
    ghost output = { λ kind. Some (kind_text kind) };

    fn fmt<W: fmt::Write>(&self, f: &mut fmt::Formatter<W>) -> fmt::Result {
        f.write_str(self.message().as_str())
    }
}

impl fmt::Debug for CertificateFaultKind {
    fn fmt<W: fmt::Write>(&self, f: &mut fmt::Formatter<W>) -> fmt::Result {
        write!(f, "{self}")
    }
}

/// A certificate is rejected: the line, and why. If the runs of a level are wrong but no single run is, this is the
/// line past the last.
#[derive(Clone, Copy, PartialEq, Eq, Error)]
pub struct CertificateFault {
    /// The line, counted from 1.
    pub line: u32,
    /// Why it is rejected.
    pub kind: CertificateFaultKind,
}

impl CertificateFault {
    /// Its text: `line 3: Order`.
    pub fn message(&self) -> Message
        ensures text { result ≡ certificate_fault_text self.now }
        ensures short { length result ≤ 60 }
    {
        Message::of("line ")
            .number(self.line.into())
            .text(": ")
            .text(self.kind.message().as_str())
    }
}

impl fmt::Display for CertificateFault {
    ghost output = { λ fault. Some (certificate_fault_text fault) };

    fn fmt<W: fmt::Write>(&self, f: &mut fmt::Formatter<W>) -> fmt::Result {
        f.write_str(self.message().as_str())
    }
}

impl fmt::Debug for CertificateFault {
    fn fmt<W: fmt::Write>(&self, f: &mut fmt::Formatter<W>) -> fmt::Result {
        write!(f, "{self}")
    }
}

impl From<AllocError> for CertificateFaultKind {
    ghost from_gives = { λ _ kind. kind ≡ CertificateFaultKind.Memory };

    fn from(_error: AllocError) -> CertificateFaultKind {
        CertificateFaultKind::Memory
    }
}

impl<T: Drop> From<AllocFailed<T>> for CertificateFaultKind {
    ghost from_gives = { λ _ kind. kind ≡ CertificateFaultKind.Memory };

    fn from(_error: AllocFailed<T>) -> CertificateFaultKind {
        CertificateFaultKind::Memory
    }
}

impl From<LineFileFault<CertificateFaultKind>> for CertificateFault {
    ghost from_gives = { λ fault given. given ≡ record { line = fault.line; kind = fault.kind } };

    fn from(fault: LineFileFault<CertificateFaultKind>) -> CertificateFault {
        CertificateFault {
            line: fault.line,
            kind: fault.kind,
        }
    }
}
