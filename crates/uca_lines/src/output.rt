//! Output through a buffer, which counts what went out.

ghost use Rattle.std.specs.Prelude.{◌≡◌, ◌+◌, ◌^◌, ◌<◌, ◌≤◌, ◌++◌, ◌||◌, [], ℕ, List, Option, length, is_err, OnOk, OnErr, IfOk, IfErr, MatchResult};
ghost use Rattle.std.specs.Io.KnownBytes.{Appends};
ghost use Rattle.uca_weights.specs.Writes.{WentOut};
ghost use Rattle.uca_lines.specs.OutputBuffer.{IsBuffered};
ghost use Rattle.uca_lines.specs.Buffered.{count_of, HasRoom, WritesThrough};

use std::io::Write;
use std::marker::Model;
use uca_weights::{Sink, WriteFault};

/// How many bytes the buffer has room for.
const SIZE: usize = 65_536;

/// Gathers what goes to one sink, and counts the bytes that went out.
///
/// After an error it is not used further: what waited then may have gone out in part.
#[derive(Drop)]
pub struct OutputBuffer {
    bytes: [u8; SIZE],
    len: usize,
    written: u64,
}

impl Model for OutputBuffer {
    ghost use Rattle.std.specs.Prelude.{◌+◌, ◌^◌, ◌<◌, ◌≤◌, take};
    ghost use Rattle.uca_lines.specs.OutputBuffer.{BufferState};

    ghost Value = { BufferState };

    ghost view = { λ b. record { held = take b.len b.bytes; written = b.written } };

    ghost invariant = { λ b. (b.len ≤ 65536) × (b.written + b.len < 2 ^ 64) };
}

impl OutputBuffer {
    /// An empty buffer. It takes no memory.
    pub fn new() -> OutputBuffer
        ensures held { result.held ≡ [] }
        ensures written { result.written ≡ 0 }
    {
        OutputBuffer {
            bytes: [0; SIZE],
            len: 0,
            written: 0,
        }
    }

    /// Writes a text, which waits, or goes out after all that waits.
    ///
    /// # Errors
    ///
    /// The sink failed: `written` says how many bytes went out, counted over all that was written to this buffer.
    #[inline(always)]
    pub fn write<W: Write>(&mut self, out: &mut Sink<W>, text: &[u8]) -> Result<(), WriteFault>
        requires { HasRoom self.old (length text.now) }
        ensures writes { WritesThrough text.now self.old self.new out.old out.new result }
        ensures err { OnErr result (count_of self.new ≡ count_of self.old) }
    {
        if text.len() <= SIZE - self.len {
            self.hold(text);
            return Ok(());
        }
        match self.flush(out) {
            Ok(()) => self.write_first(out, text),
            Err(fault) => Err(fault),
        }
    }

    // Writes a text through the empty buffer.
    #[inline(never)]
    fn write_first<W: Write>(&mut self, out: &mut Sink<W>, text: &[u8]) -> Result<(), WriteFault>
        requires room { HasRoom self.old (length text.now) }
        requires empty { self.old.held ≡ [] }
        ensures writes { WritesThrough text.now self.old self.new out.old out.new result }
        ensures err { OnErr result (self.new ≡ self.old) }
    {
        if text.len() <= SIZE {
            self.hold(text);
            return Ok(());
        }
        match send(out, text, self.written) {
            Ok(written) => {
                self.written = written;
                Ok(())
            }
            Err(fault) => Err(fault),
        }
    }

    /// Writes all that waits to the sink.
    ///
    /// # Errors
    ///
    /// The sink failed: `written` says how many bytes went out, counted over all that was written to this buffer.
    #[inline(never)]
    pub fn flush<W: Write>(&mut self, out: &mut Sink<W>) -> Result<(), WriteFault>
        ensures text { (start : Option (List ℕ)) (before : List ℕ) →
            IsBuffered start out.old.contents before self.old →
            MatchResult result
            (λ _. Appends start out.new.contents before)
            (λ fault. WentOut start out.new.contents before fault.written) }
        ensures held { OnOk result (self.new.held ≡ []) }
        ensures count { OnOk result (self.new.written ≡ self.old.written + length self.old.held) }
        ensures err { OnErr result (self.new ≡ self.old) }
        ensures not_all { IfErr result (λ fault. fault.written < self.old.written + length self.old.held) }
        ensures failed { out.new.failed ≡ (out.old.failed || is_err result) }
    {
        match send(out, &self.bytes[..self.len], self.written) {
            Ok(written) => {
                self.written = written;
                self.len = 0;
                Ok(())
            }
            Err(fault) => Err(fault),
        }
    }

    // Lets a text wait, for which there is room.
    fn hold(&mut self, text: &[u8])
        requires room { length self.old.held + length text.now ≤ SIZE }
        requires count { self.old.written + length self.old.held + length text.now < 2 ^ 64 }
        ensures held { self.new.held ≡ self.old.held ++ text.now }
        ensures written { self.new.written ≡ self.old.written }
    {
        let end = self.len + text.len();
        self.bytes[self.len..end].copy_from_slice(text);
        self.len = end;
    }
}

// Writes a text after the first `written` bytes, and returns how many bytes went out in all.
fn send<W: Write>(out: &mut Sink<W>, text: &[u8], written: u64) -> Result<u64, WriteFault>
    requires { written + length text.now < 2 ^ 64 }
    ensures text { (start : Option (List ℕ)) (before : List ℕ) →
        Appends start out.old.contents before → length before ≡ written →
        MatchResult result
        (λ _. Appends start out.new.contents (before ++ text.now))
        (λ fault. WentOut start out.new.contents (before ++ text.now) fault.written) }
    ensures count { IfOk result (λ count. count ≡ written + length text.now) }
    ensures not_all { IfErr result (λ fault. fault.written < written + length text.now) }
    ensures failed { out.new.failed ≡ (out.old.failed || is_err result) }
{
    match out.write_all(text) {
        Ok(()) => Ok(written + text.len() as u64),
        Err(fault) => Err(WriteFault {
            written: written + fault.written,
        }),
    }
}
