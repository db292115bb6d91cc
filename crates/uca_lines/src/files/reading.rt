//! The loop that reads a file of lines.

ghost use Rattle.std.specs.Prelude.{◌≡◌, ◌⊎◌, ◌+◌, ◌<◌, ◌≤◌, ◌||◌, [], length, None, false, IfOk, IfErr, IfSome};
ghost use Rattle.std.specs.Bool.{OnTrue, OnFalse};
ghost use Rattle.std.specs.Io.KnownBytes.{IsAtEnd};
ghost use Rattle.uca_lines.specs.Files.{ReadsLines, RefusesLine};
ghost use Rattle.uca_lines.specs.FaultKinds.{is_read_fault, is_read_step, kind_of_fault};
ghost use Rattle.uca_lines.specs.inside.FileSteps.{TakesNext, RefusesNext};
ghost use Rattle.uca_lines.specs.LineReader.{left_of};

use crate::files::{FileForm, LineFileFault, LineParser};
use crate::{LineFault, LineReader, NextLine};
use std::alloc::Allocator;
use std::io::Read;
use uca_weights::Source;

/// Reads a file of lines from a source to its end, or to its first error, and lets `taker` take each
/// line in turn. Returns how many lines the file has.
///
/// # Errors
///
/// The line, counted from 1, and the first of its errors in this order. The format of the taker names their kinds.
///
/// 1. The line is line 1,000,001, or has more bytes than the format allows.
/// 2. No LF ends it, if the format has `lf_first`.
/// 3. What `taker` returns.
/// 4. No LF ends it.
///
/// A source that fails and an allocation that fails come with the line that was being read. After an error the source
/// is not used further.
pub fn read_lines<T: LineParser, R: Read, A: Allocator>(
    alloc: A,
    source: &mut Source<R>,
    taker: &mut T,
) -> Result<u32, LineFileFault<T::Kind>>
    requires { T.says [] taker.old }

    // Where the bytes are known.
    ensures found { IfSome source.old.remaining (λ bytes. IfOk result (λ count.
        ReadsLines T.form T.says bytes count taker.new)) }
    ensures fault { IfSome source.old.remaining (λ bytes. IfErr result (λ fault.
        RefusesLine T.form T.says T.cause bytes source.new.remaining fault.line fault.kind)) }

    // At any source.
    ensures count { IfOk result (λ count. count ≤ 1000000) }
    ensures failed { source.new.failed ≡ (source.old.failed || is_read_fault T.is_read result) }
{
    let form = T::form();
    let mut lines = LineReader::new(form.longest);
    let mut line = Vec::new(alloc);
    loop {
        let count = lines.number();
        match take_line(&mut lines, source, &mut line, taker) {
            Ok(true) => {}
            Ok(false) => return Ok(count),
            Err(kind) => {
                return Err(LineFileFault {
                    line: count + 1,
                    kind,
                });
            }
        }
    }
}

// Reads the next line and lets the taker take it. Returns whether there was one.
fn take_line<T: LineParser, R: Read, A: Allocator>(
    lines: &mut LineReader,
    source: &mut Source<R>,
    line: &mut Vec<u8, A>,
    taker: &mut T,
) -> Result<bool, T::Kind>
    requires longest { lines.old.longest ≡ T.form.longest }
    requires few { T.form.too_many ≡ None → lines.old.number < 1000000 }
    ensures taken { IfOk result (λ more. OnTrue more (TakesNext T.form T.says
        (left_of lines.old source.old) (left_of lines.new source.new) taker.old taker.new)) }
    ensures number { IfOk result (λ more. OnTrue more
        ((lines.old.number < 1000000) × (lines.new.number ≡ lines.old.number + 1))) }
    ensures end { IfOk result (λ more. OnFalse more
        (IsAtEnd (left_of lines.old source.old) × (taker.new ≡ taker.old))) }
    ensures fault { IfErr result (λ kind. RefusesNext T.form T.cause
        (left_of lines.old source.old) source.new.remaining (lines.old.number + 1) taker.old kind) }
    ensures longest { lines.new.longest ≡ lines.old.longest }
    ensures failed { source.new.failed ≡ (source.old.failed || is_read_step T.is_read result) }
{
    match lines.next_line(source, line) {
        Ok(NextLine::Terminated) => match taker.take(line) {
            Ok(()) => Ok(true),
            Err(kind) => Err(kind),
        },
        Ok(NextLine::Unterminated) => Err(last_line_kind(line, taker)),
        Ok(NextLine::EndOfInput) => Ok(false),
        Err(fault) => Err(kind_of(T::form(), fault)),
    }
}

// Why a last line that no LF ends is rejected.
fn last_line_kind<T: LineParser>(line: &[u8], taker: &mut T) -> T::Kind
    requires { length line.now ≤ T.form.longest }
    ensures cause { (result ≡ T.form.no_memory) ⊎ (result ≡ T.form.no_lf) ⊎ T.cause taker.old line.now result }
    ensures not_read { T.is_read result ≡ false }
{
    let form = T::form();
    if form.lf_first {
        return form.no_lf;
    }
    match taker.take(line) {
        Ok(()) => form.no_lf,
        Err(kind) => kind,
    }
}

// What the format calls an error of a line reader.
fn kind_of<K: Copy + Drop>(form: FileForm<K>, fault: LineFault) -> K
    ensures { result ≡ kind_of_fault form fault }
{
    match fault {
        LineFault::TooLong => form.too_long,
        LineFault::Limit => form.too_many.unwrap_or(form.too_long),
        LineFault::Read => form.failed_read,
        LineFault::Memory => form.no_memory,
    }
}
