//! Lines of a source, read a chunk at a time.

ghost use Rattle.std.specs.Prelude.{◌≡◌, Some, ◌+◌, ◌≤◌, ◌<◌, ◌++◌, ◌||◌, [], ℕ, length, if◌then◌else◌, ◌≢◌, IsTrue, ◌↔◌, is_ok, is_err, OnOk, OnErr, IfOk, IfErr, MatchBool, vec_capacity};
ghost use Rattle.std.specs.List.{before_first, after_first, position_or_len};
ghost use Rattle.std.specs.Io.KnownBytes.{Keeps, IsAtEnd, Consumes};
ghost use Rattle.uca_lines.specs.Lines.{is_lf, Lacks};
ghost use Rattle.uca_lines.specs.LineReader.{left_of};
ghost use Rattle.uca_lines.specs.NextLine.{SaysOfBytes, IsWithinLimit, is_line, is_read, line_fault_text};
ghost use Rattle.uca_lines.specs.inside.Taking.{IsTakeFault};

use memchr::memchr;
use std::alloc::Allocator;
use std::fmt;
use std::io::Read;
use std::marker::Model;
use thiserror::Error;
use uca_weights::Source;

/// How many lines may be read from one source.
pub const LINE_LIMIT: u32 = 1_000_000;

/// How many bytes a read asks for.
const CHUNK: usize = 16_384;

/// What was found where a line should begin.
#[derive(PartialEq, Drop)]
pub enum NextLine {
    /// A line, and the LF that ends it.
    Terminated,
    /// A last line, of one byte at least, that no LF ends.
    Unterminated,
    /// Nothing: no byte is left.
    EndOfInput,
}

/// Why no line was read.
#[derive(Debug, Drop, Error)]
pub enum LineFault {
    /// The line, without its LF, has more bytes than it may have.
    TooLong,
    /// A byte is left, and `LINE_LIMIT` lines were found before. Nothing else of the line is
    /// read.
    Limit,
    /// The reader failed.
    Read,
    /// Out of memory: the vector of the line could not grow.
    Memory,
}

impl LineFault {
    // The text of this error.
    fn text(&self) -> &'static str
        ensures { result.now ≡ line_fault_text self.now }
    {
        match self {
            LineFault::TooLong => "the line is too long",
            LineFault::Limit => "there are too many lines",
            LineFault::Read => "the reader failed",
            LineFault::Memory => "out of memory",
        }
    }
}

impl fmt::Display for LineFault {
    ghost output = { λ fault. Some (line_fault_text fault) };

    fn fmt<W: fmt::Write>(&self, f: &mut fmt::Formatter<W>) -> fmt::Result {
        f.write_str(self.text())
    }
}

/// Reads the lines of one source: each ends in an LF, and bytes after the last LF are a line too.
#[derive(Drop)]
pub struct LineReader {
    chunk: [u8; CHUNK],
    start: usize,
    end: usize,
    number: u32,
    longest: usize,
}

impl Model for LineReader {
    ghost use Rattle.std.specs.Prelude.{◌≤◌};
    ghost use Rattle.std.specs.List.{slice_range};
    ghost use Rattle.uca_lines.specs.LineReader.{LineState};

    ghost Value = { LineState };

    ghost view = { λ r. record { pending = slice_range r.chunk r.start r.end; number = r.number; longest = r.longest } };

    ghost invariant = { λ r. (r.start ≤ r.end) × (r.end ≤ 16384) × (r.number ≤ 1000000) };
}

impl LineReader {
    /// A reader of lines of at most `longest` bytes each, without their LF. It takes no memory.
    pub fn new(longest: usize) -> LineReader
        ensures pending { result.pending ≡ [] }
        ensures number { result.number ≡ 0 }
        ensures longest { result.longest ≡ longest }
    {
        LineReader {
            chunk: [0; CHUNK],
            start: 0,
            end: 0,
            number: 0,
            longest,
        }
    }

    /// How many lines were found.
    pub fn number(&self) -> u32
        ensures value { result ≡ self.now.number }
        ensures within { result ≤ LINE_LIMIT }
    {
        self.number
    }

    /// Reads the next line into `line`, without its LF. What `line` had before is replaced.
    ///
    /// After an error `line` has what was read of the line, and the reader is not used further.
    ///
    /// # Errors
    ///
    /// - `Limit`: a byte is left, and `LINE_LIMIT` lines were found before.
    /// - `TooLong`: the line has more bytes than this reader's `longest`.
    /// - `Read`: the source failed.
    /// - `Memory`: `line` could not grow. A vector with room for `longest` bytes never has to grow.
    pub fn next_line<R: Read, A: Allocator>(
        &mut self,
        source: &mut Source<R>,
        line: &mut Vec<u8, A>,
    ) -> Result<NextLine, LineFault>
        // Where the bytes are known.
        ensures bytes { SaysOfBytes (left_of self.old source.old) (left_of self.new source.new)
            line.new.items self.old.longest result }

        // The line, or what was read of it.
        ensures no_lf { Lacks is_lf line.new.items }
        ensures fits { length line.new.items ≤ self.old.longest }
        ensures cut { result ≡ Ok NextLine.Unterminated → 0 < length line.new.items }
        ensures end { result ≡ Ok NextLine.EndOfInput → line.new.items ≡ [] }

        // The limit on lines.
        ensures limit { IsWithinLimit self.old.number result }
        ensures none_beyond { LINE_LIMIT ≤ self.old.number → line.new.items ≡ [] }
        ensures number { self.new.number ≡ (if is_line result then self.old.number + 1 else self.old.number) }

        // The other errors.
        ensures read { result ≡ Err LineFault.Read → self.new.pending ≡ [] }
        ensures memory { result ≡ Err LineFault.Memory → vec_capacity line.old < self.old.longest }
        ensures failed { source.new.failed ≡ (source.old.failed || is_read result) }
        ensures longest { self.new.longest ≡ self.old.longest }
    {
        line.clear();
        match self.fill(source) {
            Ok(false) => Ok(NextLine::EndOfInput),
            Ok(true) => {
                if self.number >= LINE_LIMIT {
                    return Err(LineFault::Limit);
                }
                let next = self.read_line(source, line);
                self.number += u32::from(next.is_ok());
                next
            }
            Err(fault) => Err(fault),
        }
    }

    // Reads a line that has begun, up to its LF or to the end.
    fn read_line<R: Read, A: Allocator>(
        &mut self,
        source: &mut Source<R>,
        line: &mut Vec<u8, A>,
    ) -> Result<NextLine, LineFault>
        requires begun { 0 < length self.old.pending }
        requires empty { line.old.items ≡ [] }
        ensures bytes { SaysOfBytes (left_of self.old source.old) (left_of self.new source.new)
            line.new.items self.old.longest result }
        ensures no_lf { Lacks is_lf line.new.items }
        ensures fits { length line.new.items ≤ self.old.longest }
        ensures cut { result ≡ Ok NextLine.Unterminated → 0 < length line.new.items }
        ensures found { is_line result ≡ is_ok result }
        ensures not_limit { result ≢ Err LineFault.Limit }
        ensures read { result ≡ Err LineFault.Read → self.new.pending ≡ [] }
        ensures memory { result ≡ Err LineFault.Memory → vec_capacity line.old < self.old.longest }
        ensures failed { source.new.failed ≡ (source.old.failed || is_read result) }
        ensures number { self.new.number ≡ self.old.number }
        ensures longest { self.new.longest ≡ self.old.longest }
    {
        loop {
            match self.take_waiting(line) {
                Ok(true) => return Ok(NextLine::Terminated),
                Ok(false) => {}
                Err(fault) => return Err(fault),
            }
            match self.fill(source) {
                Ok(true) => {}
                Ok(false) => return Ok(NextLine::Unterminated),
                Err(fault) => return Err(fault),
            }
        }
    }

    // Moves the waiting bytes up to the first LF, or all, to the end of the line, drops that LF, and returns
    // whether it was there.
    fn take_waiting<A: Allocator>(&mut self, line: &mut Vec<u8, A>) -> Result<bool, LineFault>
        requires { length line.old.items ≤ self.old.longest }
        ensures found { IfOk result (λ found. IsTrue found
            ↔ (position_or_len is_lf self.old.pending < length self.old.pending)) }
        ensures line { OnOk result (line.new.items ≡ line.old.items ++ before_first is_lf self.old.pending) }
        ensures pending { OnOk result (self.new.pending ≡ after_first is_lf self.old.pending) }
        ensures fits { length line.new.items ≤ self.old.longest }
        ensures capacity { vec_capacity line.old ≤ vec_capacity line.new }
        ensures err_line { OnErr result (line.new.items ≡ line.old.items) }
        ensures err_pending { OnErr result (self.new.pending ≡ self.old.pending) }
        ensures fault { IfErr result (λ fault. IsTakeFault fault (vec_capacity line.old) self.old.longest
            (length (line.old.items ++ before_first is_lf self.old.pending))) }
        ensures number { self.new.number ≡ self.old.number }
        ensures longest { self.new.longest ≡ self.old.longest }
    {
        let (piece, is_ended) = first_line(&self.chunk[self.start..self.end]);
        let len = piece.len();
        if len > self.longest - line.len() {
            return Err(LineFault::TooLong);
        }
        if line.extend_from_slice(piece).is_err() {
            return Err(LineFault::Memory);
        }
        self.start += len + usize::from(is_ended);
        Ok(is_ended)
    }

    // Reads a chunk where nothing waits, and returns whether a byte is left.
    fn fill<R: Read>(&mut self, source: &mut Source<R>) -> Result<bool, LineFault>
        ensures bytes { Keeps (left_of self.old source.old) (left_of self.new source.new) }
        ensures pending { IfOk result (λ some. MatchBool some (0 < length self.new.pending)
            ((self.new.pending ≡ []) × IsAtEnd source.new.remaining)) }
        ensures err { OnErr result (self.new.pending ≡ []) }
        ensures read { OnErr result (result ≡ Err LineFault.Read) }
        ensures number { self.new.number ≡ self.old.number }
        ensures longest { self.new.longest ≡ self.old.longest }
        ensures failed { source.new.failed ≡ (source.old.failed || is_err result) }
    {
        if self.start < self.end {
            return Ok(true);
        }
        self.start = 0;
        self.end = 0;
        match source.read(&mut self.chunk) {
            Ok(count) => {
                self.end = count;
                Ok(count > 0)
            }
            Err(_) => Err(LineFault::Read),
        }
    }
}

// The bytes before the first LF, or all, and whether that LF is there.
fn first_line(bytes: &[u8]) -> (&[u8], bool)
    ensures line { result.0.now ≡ before_first is_lf bytes.now }
    ensures is_ended { IsTrue result.1 ↔ (position_or_len is_lf bytes.now < length bytes.now) }
{
    match memchr(b'\n', bytes) {
        Some(at) => (&bytes[..at], true),
        None => (bytes, false),
    }
}
