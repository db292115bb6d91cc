//! The line of each error, its status, and where it goes.

use std::alloc::Global;
use std::io::{ErrorKind, Write};
use std::test::Fail;
use test_kit::{Calls, Failure, FakeWriter, Pace, holds, same};
use uca_certificates::{CertificateFault, CertificateFaultKind};
use uca_changes::{ChangeCondition, ChangeFault, ChangePlace};
use uca_cli::{FileFault, InputKind, Role, RunFault, report};
use uca_lines::files::{FaultKind, TableFault};
use uca_plans::{TailorFault, TailorKind};
use uca_rules::{RuleFault, RuleFaultKind};
use uca_run_parts::StoredKeyKind;
use uca_run_parts::change_faults::change_verdict;
use uca_text::TextFault;
use uca_weights::{Level, MapFault, MapFaultKind, Sink};
use uca_words::WordFault;

// The status of an error that is reported on standard error, if nothing goes to standard output.
fn status_of<W: Write>(alloc: Global, fault: &RunFault, err: &mut Sink<W>) -> Option<u8> {
    let mut out = Sink::new(Vec::new(alloc));
    let status = report(alloc, fault, &mut out, err);
    if out.into_inner().is_empty() {
        Some(status)
    } else {
        None
    }
}

// The text of the error is this line, without its LF. The error is reported by this line and this status; and if the
// writer fails before one of the bytes, by those before it and this status.
fn check(alloc: Global, fault: &RunFault, line: &str, status: u8) -> Result<(), Fail> {
    check_whole(alloc, fault, (line, status))?;
    check_text_of(alloc, fault, line)?;
    for good in 0..line.len() {
        check_cuts(alloc, fault, (line, status), good)?;
    }
    Ok(())
}

// The error is reported by this line and this status.
fn check_whole(alloc: Global, fault: &RunFault, (line, status): (&str, u8)) -> Result<(), Fail> {
    let mut err = Sink::new(Vec::new(alloc));
    let found = status_of(alloc, fault, &mut err);
    let is_line = err.into_inner().as_slice() == line.as_bytes();
    holds(found == Some(status) && is_line, line)
}

// The text of the error is this line, without its LF.
fn check_text_of(alloc: Global, fault: &RunFault, line: &str) -> Result<(), Fail> {
    let text = format!(in alloc; "{fault}\n")?;
    same(&text, line, line)
}

// The writer fails in each way after this many bytes.
fn check_cuts(alloc: Global, fault: &RunFault, told: (&str, u8), good: usize) -> Result<(), Fail> {
    let error = Failure::Error(ErrorKind::Interrupted);
    check_cut(alloc, fault, told, Pace::failing(4, good, error))?;
    check_cut(alloc, fault, told, Pace::failing(4, good, Failure::Nothing))
}

fn check_cut(
    alloc: Global,
    fault: &RunFault,
    (line, status): (&str, u8),
    pace: Pace,
) -> Result<(), Fail> {
    let calls = Calls::new();
    let mut err = Sink::new(FakeWriter::new(alloc, pace, &calls));
    let found = status_of(alloc, fault, &mut err);
    let is_told = err.failed() && calls.late.get() == 0;
    let text = err.into_inner().text;
    let is_begun = Some(text.len()) == pace.good && line.as_bytes().starts_with(text.as_slice());
    drop(text);
    drop(calls);
    holds(found == Some(status) && is_told && is_begun, line)
}

// An error of a line of a file.
fn check_file(
    alloc: Global,
    (role, line, kind): (Role, u32, FaultKind),
    text: &str,
    status: u8,
) -> Result<(), Fail> {
    let fault = FileFault::Lines(TableFault { line, kind });
    check(alloc, &RunFault::File { role, fault }, text, status)
}

/// A file, its line, the error, what is said, and the status. The last line is the longest of a file.
const FILES: [(Role, u32, FaultKind, &str, u8); 10] = [
    (Role::Table, 1, FaultKind::Line, "table line 1: Line\n", 1),
    (Role::Data, 22, FaultKind::Order, "data line 22: Order\n", 1),
    (
        Role::Base,
        3,
        FaultKind::CodePoint,
        "base line 3: CodePoint\n",
        1,
    ),
    (
        Role::Tailored,
        4,
        FaultKind::Weight,
        "tailored line 4: Weight\n",
        1,
    ),
    (Role::Data, 2, FaultKind::Range, "data line 2: Range\n", 1),
    (
        Role::Table,
        1_000_001,
        FaultKind::Limit,
        "table line 1000001: Limit\n",
        1,
    ),
    (Role::Data, 7, FaultKind::Read, "data line 7: Read\n", 3),
    (Role::Book, 3, FaultKind::Order, "book line 3: Order\n", 1),
    (
        Role::Table,
        8,
        FaultKind::Memory,
        "table line 8: Memory\n",
        4,
    ),
    (
        Role::Certificate,
        4_294_967_295,
        FaultKind::DuplicateKey,
        "certificate line 4294967295: DuplicateKey\n",
        1,
    ),
];

#[test]
fn faults_of_files(rt: HostRuntime) -> Result<(), Fail> {
    for (role, line, kind, text, status) in FILES {
        check_file(rt.alloc(), (role, line, kind), text, status)?;
    }
    Ok(())
}

// An error of rules or of a certificate.
fn check_other(
    alloc: Global,
    (role, fault): (Role, FileFault),
    text: &str,
    status: u8,
) -> Result<(), Fail> {
    check(alloc, &RunFault::File { role, fault }, text, status)
}

#[test]
fn refused_rules(rt: HostRuntime) -> Result<(), Fail> {
    let alloc = rt.alloc();
    let of = |byte, kind| (Role::Rules, FileFault::Rules(RuleFault { byte, kind }));
    let syntax = of(0, RuleFaultKind::Syntax);
    check_other(alloc, syntax, "rules byte 0: Syntax\n", 1)?;
    let target = of(1_048_576, RuleFaultKind::DuplicateTarget);
    check_other(alloc, target, "rules byte 1048576: DuplicateTarget\n", 1)?;
    let memory = of(7, RuleFaultKind::Memory);
    check_other(alloc, memory, "rules byte 7: Memory\n", 4)?;
    let read = (Role::Rules, FileFault::RulesRead);
    check_other(alloc, read, "rules: Read\n", 3)?;
    let bytes = (Role::Rules, FileFault::RulesMemory);
    check_other(alloc, bytes, "rules: Memory\n", 4)
}

// An error of a line of a certificate.
fn check_certificate(
    alloc: Global,
    (line, kind): (u32, CertificateFaultKind),
    text: &str,
    status: u8,
) -> Result<(), Fail> {
    let fault = FileFault::Certificate(CertificateFault { line, kind });
    check_other(alloc, (Role::Certificate, fault), text, status)
}

#[test]
fn refused_certificates(rt: HostRuntime) -> Result<(), Fail> {
    let alloc = rt.alloc();
    let order = (2, CertificateFaultKind::Order);
    check_certificate(alloc, order, "certificate line 2: Order\n", 1)?;
    let limit = (65_536, CertificateFaultKind::Limit);
    check_certificate(alloc, limit, "certificate line 65536: Limit\n", 1)?;
    let run = MapFault {
        run: 3,
        kind: MapFaultKind::OutOfRange,
    };
    let map = (4, CertificateFaultKind::Map(run));
    check_certificate(alloc, map, "certificate line 4: Map OutOfRange\n", 1)?;
    let read = (5, CertificateFaultKind::Read);
    check_certificate(alloc, read, "certificate line 5: Read\n", 3)?;
    let memory = (6, CertificateFaultKind::Memory);
    check_certificate(alloc, memory, "certificate line 6: Memory\n", 4)
}

// An error of the planner, with its relation, or 0.
fn check_plan(
    alloc: Global,
    (relation, kind): (u32, TailorKind),
    text: &str,
    status: u8,
) -> Result<(), Fail> {
    let fault = RunFault::Tailor(TailorFault { kind, relation });
    check(alloc, &fault, text, status)
}

/// A relation, or 0, the error, what is said, and the status. The last line is the longest of a plan.
const PLANS: [(u32, TailorKind, &str, u8); 8] = [
    (3, TailorKind::Anchor, "tailor relation 3: Anchor\n", 1),
    (
        5000,
        TailorKind::NeedsPrefix,
        "tailor relation 5000: NeedsPrefix\n",
        1,
    ),
    (1, TailorKind::Limit, "tailor relation 1: Limit\n", 1),
    (0, TailorKind::BaseIllFormed, "tailor: BaseIllFormed\n", 1),
    (0, TailorKind::NoRoom(Level::Two), "tailor: NoRoom 2\n", 1),
    (
        2,
        TailorKind::ImplicitVariable,
        "tailor relation 2: ImplicitVariable\n",
        1,
    ),
    (0, TailorKind::Memory, "memory\n", 4),
    (
        4_294_967_295,
        TailorKind::ImplicitVariable,
        "tailor relation 4294967295: ImplicitVariable\n",
        1,
    ),
];

#[test]
fn refused_plans(rt: HostRuntime) -> Result<(), Fail> {
    for (relation, kind, text, status) in PLANS {
        check_plan(rt.alloc(), (relation, kind), text, status)?;
    }
    Ok(())
}

// An error of a change, whose verdict is this.
fn check_change(
    alloc: Global,
    (condition, place): (ChangeCondition, ChangePlace),
    text: &str,
    verdict: &str,
) -> Result<(), Fail> {
    let fault = ChangeFault::NotMet(condition, place);
    check(alloc, &RunFault::Changes(fault), text, 1)?;
    same(change_verdict(fault).as_str(), verdict, verdict)
}

/// A condition on changes, where it is not met, what is said, and the verdict of an audit. The last line is the longest.
const CHANGES: [(ChangeCondition, ChangePlace, &str, &str); 12] = [
    (
        ChangeCondition::OldIllFormed,
        ChangePlace::OldRow(3),
        "changes: OldIllFormed old row 3\n",
        "refused 1 OldIllFormed old row 3",
    ),
    (
        ChangeCondition::NewIllFormed,
        ChangePlace::NewRow(12),
        "changes: NewIllFormed new row 12\n",
        "refused 2 NewIllFormed new row 12",
    ),
    (
        ChangeCondition::RangeChanged,
        ChangePlace::CodePoint('\u{FFFF}'),
        "changes: RangeChanged code point FFFF\n",
        "refused 3 RangeChanged code point FFFF",
    ),
    (
        ChangeCondition::RangeChanged,
        ChangePlace::CodePoint('\u{10000}'),
        "changes: RangeChanged code point 10000\n",
        "refused 3 RangeChanged code point 10000",
    ),
    (
        ChangeCondition::Uncovered,
        ChangePlace::OldRow(1),
        "changes: Uncovered old row 1\n",
        "refused 4 Uncovered old row 1",
    ),
    (
        ChangeCondition::RowChanged,
        ChangePlace::OldRow(200_000),
        "changes: RowChanged old row 200000\n",
        "refused 5 RowChanged old row 200000",
    ),
    (
        ChangeCondition::RowMissing,
        ChangePlace::OldRow(4),
        "changes: RowMissing old row 4\n",
        "refused 6 RowMissing old row 4",
    ),
    (
        ChangeCondition::RowExtra,
        ChangePlace::NewRow(5),
        "changes: RowExtra new row 5\n",
        "refused 7 RowExtra new row 5",
    ),
    (
        ChangeCondition::PointChanged,
        ChangePlace::CodePoint('\0'),
        "changes: PointChanged code point 0000\n",
        "refused 8 PointChanged code point 0000",
    ),
    (
        ChangeCondition::PointChanged,
        ChangePlace::CodePoint('\u{E9}'),
        "changes: PointChanged code point 00E9\n",
        "refused 8 PointChanged code point 00E9",
    ),
    (
        ChangeCondition::PointChanged,
        ChangePlace::CodePoint('\u{10FFFD}'),
        "changes: PointChanged code point 10FFFD\n",
        "refused 8 PointChanged code point 10FFFD",
    ),
    (
        ChangeCondition::SettingChanged,
        ChangePlace::Nowhere,
        "changes: SettingChanged\n",
        "refused 9 SettingChanged",
    ),
];

#[test]
fn refused_changes(rt: HostRuntime) -> Result<(), Fail> {
    for (condition, place, text, verdict) in CHANGES {
        check_change(rt.alloc(), (condition, place), text, verdict)?;
    }
    let memory = RunFault::from(ChangeFault::Memory);
    check(rt.alloc(), &memory, "memory\n", 4)
}

// A file that does not open.
fn check_open(alloc: Global, role: Role, text: &str) -> Result<(), Fail> {
    check(alloc, &RunFault::Open(role), text, 3)
}

const UNOPENED: [(Role, &str); 12] = [
    (Role::Table, "table: Open\n"),
    (Role::Data, "data: Open\n"),
    (Role::Rules, "rules: Open\n"),
    (Role::Certificate, "certificate: Open\n"),
    (Role::Base, "base: Open\n"),
    (Role::Tailored, "tailored: Open\n"),
    (Role::Old, "old: Open\n"),
    (Role::OldData, "old-data: Open\n"),
    (Role::New, "new: Open\n"),
    (Role::NewData, "new-data: Open\n"),
    (Role::Changes, "changes: Open\n"),
    (Role::Book, "book: Open\n"),
];

#[test]
fn files_that_do_not_open(rt: HostRuntime) -> Result<(), Fail> {
    for (role, text) in UNOPENED {
        check_open(rt.alloc(), role, text)?;
    }
    Ok(())
}

// The certificate would be written over a file that is read.
fn check_same(alloc: Global, role: Role, text: &str) -> Result<(), Fail> {
    check(alloc, &RunFault::SameAs(role), text, 2)
}

#[test]
fn certificates_over_files(rt: HostRuntime) -> Result<(), Fail> {
    check_same(rt.alloc(), Role::Table, "certificate: SameAs table\n")?;
    check_same(rt.alloc(), Role::Data, "certificate: SameAs data\n")?;
    check_same(rt.alloc(), Role::Rules, "certificate: SameAs rules\n")
}

// An error of a line of the input.
fn check_line(
    alloc: Global,
    (line, kind): (u32, InputKind),
    text: &str,
    status: u8,
) -> Result<(), Fail> {
    check(alloc, &RunFault::Input { line, kind }, text, status)
}

/// A line of the input, its error, what is said, and the status. The last line is the longest of all.
const LINES: [(u32, InputKind, &str, u8); 7] = [
    (1, InputKind::Utf8, "input line 1: Utf8\n", 1),
    (2, InputKind::TooLong, "input line 2: TooLong\n", 1),
    (3, InputKind::LongRun(0), "input line 3: LongRun at 0\n", 1),
    (4, InputKind::Read, "input line 4: Read\n", 3),
    (
        1_000_001,
        InputKind::Limit,
        "input line 1000001: Limit\n",
        1,
    ),
    (6, InputKind::Memory, "input line 6: Memory\n", 4),
    (
        4_294_967_295,
        InputKind::LongRun(4_294_967_295),
        "input line 4294967295: LongRun at 4294967295\n",
        1,
    ),
];

#[test]
fn faults_of_lines(rt: HostRuntime) -> Result<(), Fail> {
    for (line, kind, text, status) in LINES {
        check_line(rt.alloc(), (line, kind), text, status)?;
    }
    Ok(())
}

// An error of a line with a stored key.
fn check_stored_key(
    alloc: Global,
    (line, kind): (u64, StoredKeyKind),
    text: &str,
    status: u8,
) -> Result<(), Fail> {
    check(alloc, &RunFault::StoredKey { line, kind }, text, status)
}

/// A line with a stored key, its error, what is said, and the status. The last line is the longest of all.
const STORED_KEYS: [(u64, StoredKeyKind, &str, u8); 9] = [
    (1, StoredKeyKind::NoKey, "input line 1: NoKey\n", 1),
    (7, StoredKeyKind::NoImage, "input line 7: NoImage\n", 1),
    (2, StoredKeyKind::OtherKey, "input line 2: OtherKey\n", 1),
    (
        3,
        StoredKeyKind::NoCompactKey,
        "input line 3: NoCompactKey\n",
        1,
    ),
    (1, StoredKeyKind::Header, "input line 1: Header\n", 1),
    (8, StoredKeyKind::TooLong, "input line 8: TooLong\n", 1),
    (9, StoredKeyKind::Read, "input line 9: Read\n", 3),
    (10, StoredKeyKind::Memory, "input line 10: Memory\n", 4),
    (
        18_446_744_073_709_551_615,
        StoredKeyKind::NoCompactKey,
        "input line 18446744073709551615: NoCompactKey\n",
        1,
    ),
];

#[test]
fn faults_of_stored_keys(rt: HostRuntime) -> Result<(), Fail> {
    for (line, kind, text, status) in STORED_KEYS {
        check_stored_key(rt.alloc(), (line, kind), text, status)?;
    }
    Ok(())
}

// An error of a text, which is the right one or the left one.
fn check_text(
    alloc: Global,
    (right, fault): (bool, TextFault),
    text: &str,
    status: u8,
) -> Result<(), Fail> {
    check(alloc, &RunFault::Text { right, fault }, text, status)
}

/// Whether the text is the right one, its error, what is said, and the status.
const TEXTS: [(bool, TextFault, &str, u8); 6] = [
    (false, TextFault::TooLong, "left: TooLong\n", 1),
    (false, TextFault::LongRun(1), "left: LongRun at 1\n", 1),
    (false, TextFault::Memory, "left: Memory\n", 4),
    (true, TextFault::TooLong, "right: TooLong\n", 1),
    (
        true,
        TextFault::LongRun(1_048_511),
        "right: LongRun at 1048511\n",
        1,
    ),
    (true, TextFault::Memory, "right: Memory\n", 4),
];

#[test]
fn faults_of_texts(rt: HostRuntime) -> Result<(), Fail> {
    for (right, fault, text, status) in TEXTS {
        check_text(rt.alloc(), (right, fault), text, status)?;
    }
    Ok(())
}

#[test]
fn other_faults(rt: HostRuntime) -> Result<(), Fail> {
    let alloc = rt.alloc();
    check(alloc, &RunFault::Digits { row: 0 }, "table: Digits\n", 1)?;
    let digits = RunFault::Digits { row: 34_200 };
    check(alloc, &digits, "table row 34200: Digits\n", 1)?;
    let write = RunFault::Write { written: 7 };
    check(alloc, &write, "output: Write\n", 3)?;
    let certificate = RunFault::CertificateWrite { written: 7 };
    check(alloc, &certificate, "certificate: Write\n", 3)?;
    check(alloc, &RunFault::Memory, "memory\n", 4)?;
    check(alloc, &RunFault::Words(WordFault::Memory), "memory\n", 4)?;
    let weighting = RunFault::Words(WordFault::Weighting);
    check(alloc, &weighting, "weighting: unknown\n", 2)?;
    let fingerprint = RunFault::Words(WordFault::Fingerprint);
    check(alloc, &fingerprint, "fingerprint: unknown\n", 2)
}
