//! `report`: what an error writes on standard error, and the status that the program ends with. It needs no run that
//! makes keys.

ghost use Rattle.std.specs.Prelude.{◌≡◌, ◌++◌, ◌∷◌, []};
ghost use Rattle.uca_run_parts.specs.FaultText.{fault_text};
ghost use Rattle.uca_host.specs.Reports.{GoesOut, ReportsRefusal, ReportsWords, Reports};
ghost use Rattle.uca_host.specs.Statuses.{line_status, rule_status, certificate_status, file_status, input_status, stored_key_status, text_status, tailor_status, change_status, is_asked_for, IsWordStatus, IsStatus};

use clap::error::ErrorKind;
use std::alloc::Global;
use std::fmt::Display;
use std::io::Write;
use std::string::ToString;
use uca_certificates::CertificateFaultKind;
use uca_changes::ChangeFault;
use uca_plans::TailorKind;
use uca_rules::RuleFaultKind;
use uca_run_parts::faults::{FileFault, InputKind, RunFault, StoredKeyKind};
use uca_text::TextFault;
use uca_values::FaultKind;
use uca_weights::Sink;
use uca_words::WordFault;

/// The run is done.
pub const DONE: u8 = 0;
/// The content of a file, a line or an argument is rejected.
pub const REFUSED: u8 = 1;
/// The command line is rejected.
pub const WRONG_WORDS: u8 = 2;
/// A file does not open, or a read or a write failed.
pub const STREAM_FAILED: u8 = 3;
/// An allocation failed.
pub const NO_MEMORY: u8 = 4;

fn status_of_line(kind: FaultKind) -> u8
    ensures { result ≡ line_status kind }
{
    match kind {
        FaultKind::Read => STREAM_FAILED,
        FaultKind::Memory => NO_MEMORY,
        _ => REFUSED,
    }
}

fn status_of_rules(kind: RuleFaultKind) -> u8
    ensures { result ≡ rule_status kind }
{
    match kind {
        RuleFaultKind::Memory => NO_MEMORY,
        _ => REFUSED,
    }
}

fn status_of_certificate(kind: CertificateFaultKind) -> u8
    ensures { result ≡ certificate_status kind }
{
    match kind {
        CertificateFaultKind::Read => STREAM_FAILED,
        CertificateFaultKind::Memory => NO_MEMORY,
        _ => REFUSED,
    }
}

fn status_of_file(fault: FileFault) -> u8
    ensures { result ≡ file_status fault }
{
    match fault {
        FileFault::Lines(fault) => status_of_line(fault.kind),
        FileFault::Rules(fault) => status_of_rules(fault.kind),
        FileFault::RulesRead => STREAM_FAILED,
        FileFault::RulesMemory => NO_MEMORY,
        FileFault::Certificate(fault) => status_of_certificate(fault.kind),
    }
}

fn status_of_input(kind: InputKind) -> u8
    ensures { result ≡ input_status kind }
{
    match kind {
        InputKind::Read => STREAM_FAILED,
        InputKind::Memory => NO_MEMORY,
        _ => REFUSED,
    }
}

fn status_of_stored_key(kind: StoredKeyKind) -> u8
    ensures { result ≡ stored_key_status kind }
{
    match kind {
        StoredKeyKind::Read => STREAM_FAILED,
        StoredKeyKind::Memory => NO_MEMORY,
        _ => REFUSED,
    }
}

fn status_of_text(fault: TextFault) -> u8
    ensures { result ≡ text_status fault }
{
    match fault {
        TextFault::Memory => NO_MEMORY,
        _ => REFUSED,
    }
}

fn status_of_change(fault: ChangeFault) -> u8
    ensures { result ≡ change_status fault }
{
    match fault {
        ChangeFault::Memory => NO_MEMORY,
        _ => REFUSED,
    }
}

fn status_of_plan(kind: TailorKind) -> u8
    ensures { result ≡ tailor_status kind }
{
    match kind {
        TailorKind::Memory => NO_MEMORY,
        _ => REFUSED,
    }
}

// Whether the text of `clap` is help or the version, which was asked for.
fn is_asked_for(kind: ErrorKind) -> bool
    ensures { result ≡ is_asked_for kind }
{
    matches!(kind, ErrorKind::DisplayHelp | ErrorKind::DisplayVersion)
}

// Writes a text. An error of the writer changes nothing: there is nowhere to report it.
pub(crate) fn show<W: Write>(text: &[u8], sink: &mut Sink<W>)
    ensures { GoesOut sink.old sink.new text.now }
{
    let _ = sink.write_all(text);
}

// Writes the line of an error, in one call, and returns its status.
fn write_line<E: Write>(fault: &RunFault, status: u8, err: &mut Sink<E>) -> u8
    ensures line { GoesOut err.old err.new (fault_text fault.now ++ 10 ∷ []) }
    ensures status { result ≡ status }
{
    let line = fault.message().text("\n");
    show(line.as_str().as_bytes(), err);
    status
}

// Writes what an error of `clap` of this kind shows: help that was asked for to `out`, and a rejection to
// `err`. If there is no memory for it, the line `memory` goes to `err`.
fn write_refusal<D: Display, W: Write, E: Write>(
    alloc: Global,
    kind: ErrorKind,
    shown: &D,
    out: &mut Sink<W>,
    err: &mut Sink<E>,
) -> u8
    ensures { ReportsRefusal kind (D.output shown.now) result out.old out.new err.old err.new }
{
    let Ok(text) = shown.to_string(alloc) else {
        return write_line(&RunFault::Memory, NO_MEMORY, err);
    };
    if is_asked_for(kind) {
        show(text.as_bytes(), out);
        return DONE;
    }
    show(text.as_bytes(), err);
    WRONG_WORDS
}

fn report_words<W: Write, E: Write>(
    alloc: Global,
    fault: &WordFault,
    out: &mut Sink<W>,
    err: &mut Sink<E>,
) -> u8
    ensures status { IsWordStatus fault.now result }
    ensures text { ReportsWords fault.now result out.old out.new err.old err.new }
{
    match fault {
        WordFault::Refused(error) => write_refusal(alloc, error.kind(), error, out, err),
        WordFault::Weighting => write_line(
            &RunFault::Words(WordFault::Weighting),
            WRONG_WORDS,
            err,
        ),
        WordFault::Fingerprint => write_line(
            &RunFault::Words(WordFault::Fingerprint),
            WRONG_WORDS,
            err,
        ),
        WordFault::Memory => write_line(&RunFault::Words(WordFault::Memory), NO_MEMORY, err),
    }
}

/// Writes the line of an error to `err`, or the text of `clap` if it rejected the arguments, and returns
/// the status that the program ends with. Help that was asked for goes to `out`, with the status 0.
/// A write that fails does not change the status. Only the text of `clap` takes memory.
pub fn report<W: Write, E: Write>(
    alloc: Global,
    fault: &RunFault,
    out: &mut Sink<W>,
    err: &mut Sink<E>,
) -> u8
    ensures status { IsStatus fault.now result }
    ensures text { Reports fault.now result out.old out.new err.old err.new }
{
    match fault {
        RunFault::File { fault: file, .. } => write_line(fault, status_of_file(*file), err),
        RunFault::Digits { .. } => write_line(fault, REFUSED, err),
        RunFault::Input { kind, .. } => write_line(fault, status_of_input(*kind), err),
        RunFault::StoredKey { kind, .. } => write_line(fault, status_of_stored_key(*kind), err),
        RunFault::Write { .. } => write_line(fault, STREAM_FAILED, err),
        RunFault::Memory => write_line(fault, NO_MEMORY, err),
        RunFault::Text { fault: text, .. } => write_line(fault, status_of_text(*text), err),
        RunFault::Tailor(plan) => write_line(fault, status_of_plan(plan.kind), err),
        RunFault::Changes(change) => write_line(fault, status_of_change(*change), err),
        RunFault::CertificateWrite { .. } => write_line(fault, STREAM_FAILED, err),
        RunFault::Open(_) => write_line(fault, STREAM_FAILED, err),
        RunFault::SameAs(_) => write_line(fault, WRONG_WORDS, err),
        RunFault::Words(words) => report_words(alloc, words, out, err),
    }
}
