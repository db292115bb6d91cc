//! The lines of an input, each in the buffer that it was read into.

ghost use Rattle.std.specs.Prelude.{◌≡◌, ℕ, ◌+◌, ◌-◌, ◌^◌, ◌<◌, ◌≤◌, ◌++◌, ◌||◌, [], List, Option, OnErr, IfErr, IfOk, MatchBool, length, take, drop, vec_len, true, false};
ghost use Rattle.std.specs.Bool.{OnTrue, OnFalse};
ghost use Rattle.std.specs.List.{slice_range};
ghost use Rattle.std.specs.Io.KnownBytes.{Keeps, IsAtEnd};
ghost use Rattle.uca_lines.specs.Lines.{is_lf, Lacks};
ghost use Rattle.uca_rekey.specs.inside.LinesInPlace.{EndsAs, FindsLine, HasRead, IsFillFault, IsFirstLine, IsLast, ReadsLine, is_read, left_of};
ghost use Rattle.uca_rekey.specs.inside.ChangeSoFar.{ReadsHeader};

use memchr::memchr;
use std::alloc::{AllocError, Allocator};
use std::io::Read;
use std::marker::Model;
use uca_lines::NextLine;
use uca_run_parts::StoredKeyKind;
use uca_weights::Source;

/// How many bytes the buffer has room for. It grows where a line is longer.
const CHUNK: usize = 65_536;

/// How many bytes a line may have, its LF not counted.
pub(crate) const LONGEST_LINE: usize = 1_073_741_824;

/// The lines of one source, in turn. The line that was found lies in the buffer, and so does what was read and waits after it.
#[derive(Drop)]
pub(crate) struct KeyLines<A: Allocator> {
    buffer: Vec<u8, A>,
    // where the line begins and ends
    start: usize,
    stop: usize,
    // where what waits begins and ends
    next: usize,
    end: usize,
    // the source has no more
    at_end: bool,
}

impl<A: Allocator> Model for KeyLines<A> {
    ghost use Rattle.std.specs.Prelude.{◌-◌, ◌≤◌, vec_len};
    ghost use Rattle.std.specs.List.{slice_range};
    ghost use Rattle.uca_rekey.specs.inside.LinesInPlace.{LinesState};

    ghost Value = { LinesState };

    ghost view = { λ l. record {
      line = slice_range l.buffer.items l.start l.stop;
      pending = slice_range l.buffer.items l.next l.end;
      at_end = l.at_end;
    } };

    ghost invariant = { λ l. (l.start ≤ l.stop) × (l.stop ≤ l.next) × (l.next ≤ l.end) × (l.end ≤ vec_len l.buffer)
        × (65536 ≤ vec_len l.buffer) × (l.stop - l.start ≤ 1073741824) };
}

impl<A: Allocator> KeyLines<A> {
    /// The lines of a source before anything of it is read.
    ///
    /// # Errors
    ///
    /// An allocation failed.
    pub fn new(alloc: A) -> Result<KeyLines<A>, AllocError>
        ensures line { IfOk result (λ lines. lines.line ≡ []) }
        ensures pending { IfOk result (λ lines. lines.pending ≡ []) }
        ensures at_end { IfOk result (λ lines. lines.at_end ≡ false) }
    {
        let mut buffer = Vec::new(alloc);
        buffer.resize(CHUNK, 0)?;
        Ok(KeyLines {
            buffer,
            start: 0,
            stop: 0,
            next: 0,
            end: 0,
            at_end: false,
        })
    }

    /// The line that was found last, without its LF.
    pub fn line(&self) -> &[u8]
        ensures value { result.now ≡ self.now.line }
        ensures within { length result.now ≤ LONGEST_LINE }
    {
        &self.buffer[self.start..self.stop]
    }

    /// Finds the next line, and returns whether there was one. After a line that no LF ends nothing more is read.
    ///
    /// # Errors
    ///
    /// `TooLong` if the line has more than `LONGEST_LINE` bytes, `Read` if the source failed, and `Memory` if an allocation failed.
    pub fn next<R: Read>(&mut self, source: &mut Source<R>) -> Result<bool, StoredKeyKind>
        ensures reads { (start : Option (List ℕ)) (before : List (List ℕ)) →
            HasRead start before self.old source.old →
            ReadsLine start before self.new source.new result }
        ensures failed { source.new.failed ≡ (source.old.failed || is_read result) }
    {
        if self.at_end {
            return Ok(false);
        }
        match self.find(source) {
            Ok(NextLine::Terminated) => Ok(true),
            Ok(NextLine::Unterminated) => Ok(true),
            Ok(NextLine::EndOfInput) => Ok(false),
            Err(kind) => Err(kind),
        }
    }

    /// Reads the first line, which has to be a header.
    ///
    /// # Errors
    ///
    /// `Header` if the line is another one, or there is none. Those of [`KeyLines::next`].
    pub fn read_header<R: Read>(
        &mut self,
        source: &mut Source<R>,
        header: &[u8],
    ) -> Result<(), StoredKeyKind>
        ensures reads { (start : Option (List ℕ)) → HasRead start [] self.old source.old →
            ReadsHeader header.now start self.new source.new result }
        ensures failed { source.new.failed ≡ (source.old.failed || is_read result) }
    {
        match self.next(source) {
            Ok(true) => {
                if self.line() == header {
                    Ok(())
                } else {
                    Err(StoredKeyKind::Header)
                }
            }
            Ok(false) => Err(StoredKeyKind::Header),
            Err(kind) => Err(kind),
        }
    }

    // Finds a line, and what ends it.
    fn find<R: Read>(&mut self, source: &mut Source<R>) -> Result<NextLine, StoredKeyKind>
        requires { self.old.at_end ≡ false }
        ensures finds { FindsLine (left_of self.old source.old) (left_of self.new source.new) source.new.remaining self.new.line result }
        ensures ends { EndsAs self.new.at_end result }
        ensures failed { source.new.failed ≡ (source.old.failed || is_read result) }
    {
        let mut seen = 0;
        loop {
            if let Some(len) = first_line(self.waiting(), seen) {
                if len > LONGEST_LINE {
                    return Err(StoredKeyKind::TooLong);
                }
                self.take_line(len);
                return Ok(NextLine::Terminated);
            }
            seen = self.waiting().len();
            if seen > LONGEST_LINE {
                return Err(StoredKeyKind::TooLong);
            }
            match self.fill(source) {
                Ok(true) => {}
                Ok(false) => return Ok(self.take_rest()),
                Err(kind) => return Err(kind),
            }
        }
    }

    // What was read and waits.
    fn waiting(&self) -> &[u8]
        ensures { result.now ≡ self.now.pending }
    {
        &self.buffer[self.next..self.end]
    }

    // Takes a line of this length, and its LF, from what waits.
    fn take_line(&mut self, len: usize)
        requires within { len < length self.old.pending }
        requires short { len ≤ LONGEST_LINE }
        ensures line { self.new.line ≡ take len self.old.pending }
        ensures pending { self.new.pending ≡ drop (len + 1) self.old.pending }
        ensures at_end { self.new.at_end ≡ self.old.at_end }
    {
        self.start = self.next;
        self.stop = self.next + len;
        self.next = self.stop + 1;
    }

    // Takes what waits at the end of the source: a last line, if there is any.
    fn take_rest(&mut self) -> NextLine
        requires { length self.old.pending ≤ LONGEST_LINE }
        ensures line { self.new.line ≡ self.old.pending }
        ensures pending { self.new.pending ≡ [] }
        ensures at_end { self.new.at_end ≡ true }
        ensures last { IsLast self.old.pending result }
    {
        self.start = self.next;
        self.stop = self.end;
        self.next = self.end;
        self.at_end = true;
        if self.start < self.stop {
            NextLine::Unterminated
        } else {
            NextLine::EndOfInput
        }
    }

    // Reads more bytes after those that wait, and returns whether there were any. The line that was found is gone.
    fn fill<R: Read>(&mut self, source: &mut Source<R>) -> Result<bool, StoredKeyKind>
        requires { length self.old.pending ≤ LONGEST_LINE }
        ensures bytes { Keeps (left_of self.old source.old) (left_of self.new source.new) }
        ensures front { take (length self.old.pending) self.new.pending ≡ self.old.pending }
        ensures more { IfOk result (λ more. MatchBool more (length self.old.pending < length self.new.pending)
            ((self.new.pending ≡ self.old.pending) × IsAtEnd source.new.remaining)) }
        ensures err { OnErr result (self.new.pending ≡ self.old.pending) }
        ensures fault { IfErr result (IsFillFault self.old.pending) }
        ensures at_end { self.new.at_end ≡ self.old.at_end }
        ensures failed { source.new.failed ≡ (source.old.failed || is_read result) }
    {
        let has_room = make_room(&mut self.buffer, self.next, self.end);
        self.end -= self.next;
        self.start = 0;
        self.stop = 0;
        self.next = 0;
        if !has_room {
            return Err(StoredKeyKind::Memory);
        }
        match source.read(&mut self.buffer[self.end..]) {
            Ok(count) => {
                self.end += count;
                Ok(count > 0)
            }
            Err(_) => Err(StoredKeyKind::Read),
        }
    }
}

// Moves a part of a buffer to its front, and makes the buffer longer where the part fills it. Returns whether there is room after the part:
// there is none if an allocation failed.
fn make_room<A: Allocator>(buffer: &mut Vec<u8, A>, start: usize, end: usize) -> bool
    requires order { start ≤ end }
    requires within { end ≤ vec_len buffer.old }
    requires short { end - start ≤ LONGEST_LINE }
    requires least { CHUNK ≤ vec_len buffer.old }
    ensures front { take (end - start) buffer.new.items ≡ slice_range buffer.old.items start end }
    ensures len { vec_len buffer.old ≤ vec_len buffer.new }
    ensures room { OnTrue result (end - start < vec_len buffer.new) }
    ensures full { OnFalse result (0 < end - start) }
{
    move_to_front(buffer, start, end);
    let len = end - start;
    if len < buffer.len() {
        return true;
    }
    buffer
        .resize((2 * len).min(LONGEST_LINE + CHUNK), 0)
        .is_ok()
}

// Moves a part of a buffer to its front, unless it lies there.
fn move_to_front<A: Allocator>(buffer: &mut Vec<u8, A>, start: usize, end: usize)
    requires order { start ≤ end }
    requires within { end ≤ vec_len buffer.old }
    ensures front { take (end - start) buffer.new.items ≡ slice_range buffer.old.items start end }
    ensures len { vec_len buffer.new ≡ vec_len buffer.old }
{
    if start > 0 {
        buffer.as_mut_slice().copy_within(start..end, 0);
    }
}

// The length of the first line, if an LF ends it. The first `seen` bytes have none.
fn first_line(bytes: &[u8], seen: usize) -> Option<usize>
    requires within { seen ≤ length bytes.now }
    requires lacks { Lacks is_lf (take seen bytes.now) }
    ensures { IsFirstLine bytes.now result }
{
    match memchr(b'\n', &bytes[seen..]) {
        Some(at) => Some(seen + at),
        None => None,
    }
}
