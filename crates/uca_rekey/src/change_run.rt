//! A run that changes the keys of lines, whatever changes them.

ghost use Rattle.std.specs.Prelude.{◌≡◌, ℕ, ◌^◌, ◌≤◌, ◌||◌, true, false, List, Option, Some, None, IfOk, length};
ghost use Rattle.uca_weights.specs.Streams.{SinkState};
ghost use Rattle.uca_run_parts.specs.EachLine.{ended_before_input};
ghost use Rattle.uca_run_parts.specs.Runs.{ended_by_output, is_input_read};
ghost use Rattle.uca_rekey.specs.ChangedLines.{Headers};
ghost use Rattle.uca_rekey.specs.ChangeRun.{RunsChange};
ghost use Rattle.uca_rekey.specs.inside.ChangeSoFar.{ChangesLine, ChangesRest, HasChanged, HasReadHeader, IsBegun, header_pair, headers_of};

use crate::changed_line::{Keys, change_line};
use crate::changes::ChangesKeys;
use crate::lines::KeyLines;
use crate::written::WrittenLines;
use std::alloc::{AllocError, Allocator};
use std::io::{Read, Write};
use uca_fingerprint::KeyHeader;
use uca_run_parts::{KeySizes, RunFault};
use uca_weights::{Sink, Source};

/// The header that the input has to begin with, and the one that is written in its place.
#[derive(Drop)]
pub(crate) struct HeaderLines {
    pub(crate) from: KeyHeader,
    pub(crate) to: KeyHeader,
}

// What changes keys, the lines of the input, the new line of the last one, and the lines that were written.
#[derive(Drop)]
pub(crate) struct ChangeRun<A: Allocator, C: ChangesKeys> {
    change: C,
    lines: KeyLines<A>,
    keys: Keys<A>,
    line: Vec<u8, A>,
    written: WrittenLines,
    // how many bytes the keys have, and what they become
    sizes: KeySizes,
}

impl<A: Allocator, C: ChangesKeys> ChangeRun<A, C> {
    // Reads the next line and makes its new line, and returns whether there was a line.
    fn next<I: Read>(&mut self, input: &mut Source<I>) -> Result<bool, RunFault>
        ensures changes { (headers : Option Headers) (start begun : Option (List ℕ)) (before news : List (List ℕ)) (out : SinkState) →
            HasChanged (C.means self.old.change) headers start begun before news self.old.lines input.old self.old.written out →
            ChangesLine (C.means self.old.change) headers start before self.new.lines input.new self.new.line.items result }
        ensures change { self.new.change ≡ self.old.change }
        ensures written { self.new.written ≡ self.old.written }
        ensures few { self.old.written.number ≤ 2 ^ 63 }
        ensures of_lines { ended_before_input result ≡ false }
        ensures not_write { ended_by_output result ≡ false }
        ensures failed { input.new.failed ≡ (input.old.failed || is_input_read result) }
    {
        let line = self.written.number() + 1;
        match self.lines.next(input) {
            Ok(true) => {
                let old = self.lines.line();
                match change_line(&mut self.change, old, &mut self.keys, &mut self.line) {
                    Ok(()) => {
                        self.sizes.add(self.keys.key.len(), self.keys.changed.len());
                        Ok(true)
                    }
                    Err(kind) => Err(RunFault::StoredKey { line, kind }),
                }
            }
            Ok(false) => Ok(false),
            Err(kind) => Err(RunFault::StoredKey { line, kind }),
        }
    }

    // Makes the new lines of all lines that are left, and writes them.
    fn change_rest<I: Read, W: Write>(
        &mut self,
        input: &mut Source<I>,
        out: &mut Sink<W>,
    ) -> Result<KeySizes, RunFault>
        ensures changes { (headers : Option Headers) (start begun : Option (List ℕ)) (before news : List (List ℕ)) →
            HasChanged (C.means self.old.change) headers start begun before news self.old.lines input.old self.old.written out.old →
            ChangesRest (C.means self.old.change) headers start begun input.new self.new.written.buffer out.new result }
        ensures of_lines { ended_before_input result ≡ false }
        ensures input_failed { input.new.failed ≡ (input.old.failed || is_input_read result) }
        ensures out_failed { out.new.failed ≡ (out.old.failed || ended_by_output result) }
    {
        while self.next(input)? {
            self.written.write(out, &self.line)?;
        }
        Ok(self.sizes)
    }

    // Writes a header in place of the one that was read, and then the new lines of all lines after it.
    fn change_after<I: Read, W: Write>(
        &mut self,
        input: &mut Source<I>,
        out: &mut Sink<W>,
        header: &[u8],
    ) -> Result<KeySizes, RunFault>
        ensures changes { (old : List ℕ) (start begun : Option (List ℕ)) → length header.now ≤ 128 →
            HasReadHeader old start begun self.old.lines input.old self.old.written out.old →
            ChangesRest (C.means self.old.change) (Some (header_pair old header.now)) start begun input.new self.new.written.buffer out.new result }
        ensures of_lines { ended_before_input result ≡ false }
        ensures input_failed { input.new.failed ≡ (input.old.failed || is_input_read result) }
        ensures out_failed { out.new.failed ≡ (out.old.failed || ended_by_output result) }
    {
        match self.written.write(out, header) {
            Ok(()) => self.change_rest(input, out),
            Err(fault) => Err(fault),
        }
    }

    // Reads the old header, writes the new one in its place, and then the new lines of all lines after it.
    fn change_headed<I: Read, W: Write>(
        &mut self,
        input: &mut Source<I>,
        out: &mut Sink<W>,
        headers: &HeaderLines,
    ) -> Result<KeySizes, RunFault>
        requires { IsBegun self.old.lines self.old.written }
        ensures changes { RunsChange (C.means self.old.change) (Some (header_pair headers.now.from headers.now.to)) input.old input.new out.old out.new result }
        ensures of_lines { ended_before_input result ≡ false }
        ensures input_failed { ended_by_output result ≡ false → input.new.failed ≡ (input.old.failed || is_input_read result) }
        ensures out_failed { out.new.failed ≡ (out.old.failed || ended_by_output result) }
    {
        match self.lines.read_header(input, headers.from.as_bytes()) {
            Ok(()) => {
                let end = self.change_after(input, out, headers.to.as_bytes());
                self.written.end(out, end)
            }
            Err(kind) => Err(RunFault::StoredKey { line: 1, kind }),
        }
    }

    // Writes the new lines of all lines, without a header.
    fn change_all<I: Read, W: Write>(
        &mut self,
        input: &mut Source<I>,
        out: &mut Sink<W>,
    ) -> Result<KeySizes, RunFault>
        requires { IsBegun self.old.lines self.old.written }
        ensures changes { RunsChange (C.means self.old.change) None input.old input.new out.old out.new result }
        ensures of_lines { ended_before_input result ≡ false }
        ensures input_failed { ended_by_output result ≡ false → input.new.failed ≡ (input.old.failed || is_input_read result) }
        ensures out_failed { out.new.failed ≡ (out.old.failed || ended_by_output result) }
    {
        let end = self.change_rest(input, out);
        self.written.end(out, end)
    }

    /// Changes the keys of the lines of an input, after the old header if there are headers. The new lines are written after
    /// the new one.
    pub(crate) fn change_lines<I: Read, W: Write>(
        &mut self,
        input: &mut Source<I>,
        out: &mut Sink<W>,
        headers: Option<HeaderLines>,
    ) -> Result<KeySizes, RunFault>
        requires { IsBegun self.old.lines self.old.written }
        ensures changes { RunsChange (C.means self.old.change) (headers_of headers) input.old input.new out.old out.new result }
        ensures of_lines { ended_before_input result ≡ false }
        ensures input_failed { ended_by_output result ≡ false → input.new.failed ≡ (input.old.failed || is_input_read result) }
        ensures out_failed { out.new.failed ≡ (out.old.failed || ended_by_output result) }
    {
        match headers {
            Some(headers) => self.change_headed(input, out, &headers),
            None => self.change_all(input, out),
        }
    }
}

/// A run that has read and written nothing.
///
/// # Errors
///
/// An allocation failed for the buffer.
pub(crate) fn begin<A: Allocator + Copy, C: ChangesKeys>(
    alloc: A,
    change: C,
) -> Result<ChangeRun<A, C>, AllocError>
    ensures same { IfOk result (λ run. run.change ≡ change) }
    ensures begun { IfOk result (λ run. IsBegun run.lines run.written) }
{
    match KeyLines::new(alloc) {
        Ok(lines) => Ok(ChangeRun {
            change,
            lines,
            keys: Keys {
                key: Vec::new(alloc),
                changed: Vec::new(alloc),
            },
            line: Vec::new(alloc),
            written: WrittenLines::new(),
            sizes: KeySizes::new(),
        }),
        Err(error) => {
            drop(change);
            Err(error)
        }
    }
}
