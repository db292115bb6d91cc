//! The lines of an input, and their texts. `InputLines` goes from the input to a line as UTF-8, and `InputTexts` from
//! the input to the `Normal` of a line.

ghost use Rattle.std.specs.Prelude.{◌≡◌, ℕ, List, [], Option, false, ◌+◌, ◌<◌, ◌≤◌, ◌||◌, length, IfErr, IfOk, OnOk};
ghost use Rattle.std.specs.Bool.{OnTrue};
ghost use Rattle.std.specs.Str.{IsUtf8};
ghost use Rattle.uca_weights.specs.Streams.{SourceState};
ghost use Rattle.uca_values.specs.Content.{properties_of};
ghost use Rattle.uca_text.specs.Texts.{NfdText};
ghost use Rattle.uca_run_parts.specs.Input.{cause_of, is_input_read_kind, line_text};
ghost use Rattle.uca_run_parts.specs.Runs.{is_input_read, ended_by_output};
ghost use Rattle.uca_run_parts.specs.Texts.{line_kind, text_kind, HasRead, HasTextCause, ReadsNextLine, ReadsCleanLine, is_read};

use crate::faults::{InputKind, RunFault};
use std::alloc::{Allocator, Global};
use std::io::Read;
use std::marker::Model;
use uca_changes::renew_text;
use uca_lines::{LINE_LIMIT, LineFault, LineReader, NextLine};
use uca_numbers::WrittenText;
use uca_text::{Normal, TextFault};
use uca_values::Data;
use uca_weights::{Numbers, Source};

/// How many bytes a line of the input may have, its LF not counted.
pub const LONGEST_INPUT_LINE: usize = 4_194_304;

/// The lines of an input, in turn.
#[derive(Drop)]
pub struct InputLines<A: Allocator> {
    reader: LineReader,
    line: Vec<u8, A>,
    // no LF ended the line that was read last: no line follows
    is_cut: bool,
}

impl<A: Allocator> Model for InputLines<A> {
    ghost use Rattle.std.specs.Prelude.{◌≡◌, ◌≤◌, length};
    ghost use Rattle.uca_run_parts.specs.Texts.{LinesState};

    ghost Value = { LinesState };

    ghost view = { λ l. record { reader = l.reader; line = l.line.items; is_cut = l.is_cut } };

    ghost invariant = { λ l. (l.reader.longest ≡ 4194304) × (length l.line.items ≤ 4194304) };
}

impl<A: Allocator> InputLines<A> {
    /// The lines of an input, before any is read. It takes no memory.
    pub fn new(alloc: A) -> InputLines<A>
        ensures read { (read_of : List ℕ → NfdText) (input : SourceState) →
            HasRead read_of input.remaining [] result input }
        ensures number { result.reader.number ≡ 0 }
    {
        InputLines {
            reader: LineReader::new(LONGEST_INPUT_LINE),
            line: Vec::new(alloc),
            is_cut: false,
        }
    }

    /// The number of the line that was read last: how many lines were read.
    pub fn number(&self) -> u32
        ensures value { result ≡ self.now.reader.number }
        ensures within { result ≤ LINE_LIMIT }
    {
        self.reader.number()
    }

    /// The line that was read last, without its LF.
    pub fn line(&self) -> &[u8]
        ensures value { result.now ≡ self.now.line }
        ensures within { length result.now ≤ LONGEST_INPUT_LINE }
    {
        &self.line
    }

    /// The line that was read last, as UTF-8. Each of its bytes is looked at once.
    ///
    /// # Errors
    ///
    /// `Utf8`: it is not UTF-8.
    pub fn text(&self) -> Result<&str, InputKind>
        ensures text { IfOk result (λ text. (text.now ≡ self.now.line) × IsUtf8 self.now.line) }
        ensures fault { (read_of : List ℕ → NfdText) (before : ℕ) → before < LINE_LIMIT →
            IfErr result (HasTextCause read_of before self.now.line) }
        ensures not_read { IfErr result (λ kind. is_input_read_kind kind ≡ false) }
        ensures within { length self.now.line ≤ LONGEST_INPUT_LINE }
    {
        match simdutf8::from_utf8_baseline(&self.line) {
            Ok(text) => Ok(text),
            Err(_) => Err(InputKind::Utf8),
        }
    }

    /// Reads the next line of the input, over the one that was read before, and returns whether there was one. After a
    /// line that no LF ends nothing more is read.
    ///
    /// # Errors
    ///
    /// `Input`: the line is not read, for `Limit` or else for `TooLong` by its bytes. `Read` if the source failed, and
    /// `Memory` if an allocation failed.
    pub fn next<I: Read>(&mut self, input: &mut Source<I>) -> Result<bool, RunFault>
        ensures reads { (read_of : List ℕ → NfdText) (start : Option (List ℕ)) (before : List (List ℕ)) →
            HasRead read_of start before self.old input.old →
            ReadsNextLine read_of start before self.new input.new result }
        ensures count { IfOk result (λ more. OnTrue more ((self.new.reader.number ≡ self.old.reader.number + 1)
            × (self.old.reader.number < LINE_LIMIT))) }
        ensures not_write { ended_by_output result ≡ false }
        ensures failed { input.new.failed ≡ (input.old.failed || is_input_read result) }
    {
        if self.is_cut {
            return Ok(false);
        }
        let line = self.reader.number() + 1;
        match self.reader.next_line(input, &mut self.line) {
            Ok(NextLine::Terminated) => Ok(true),
            Ok(NextLine::Unterminated) => {
                self.is_cut = true;
                Ok(true)
            }
            Ok(NextLine::EndOfInput) => Ok(false),
            Err(fault) => Err(RunFault::Input {
                line,
                kind: kind_of_line(fault),
            }),
        }
    }
}

/// The lines of an input, in turn, each with what is read of it in Normalization Form D.
#[derive(Drop)]
pub struct InputTexts<A: Allocator> {
    lines: InputLines<A>,
    text: Normal,
    // the line by value, where numbers are
    written: WrittenText,
}

impl<A: Allocator> Model for InputTexts<A> {
    ghost use Rattle.uca_run_parts.specs.Texts.{TextsState};

    ghost Value = { TextsState };

    ghost view = { λ t. record { lines = t.lines; text = t.text } };
}

impl<A: Allocator> InputTexts<A> {
    /// The texts of an input, before any line is read. It takes no memory.
    pub fn new(alloc: A, global: Global) -> InputTexts<A>
        ensures read { (read_of : List ℕ → NfdText) (input : SourceState) →
            HasRead read_of input.remaining [] result.lines input }
        ensures number { result.lines.reader.number ≡ 0 }
    {
        InputTexts {
            lines: InputLines::new(alloc),
            text: Normal::new(global),
            written: WrittenText::new(global),
        }
    }

    /// The number of the line that was read last: how many lines were read.
    pub fn number(&self) -> u32
        ensures value { result ≡ self.now.lines.reader.number }
        ensures within { result ≤ LINE_LIMIT }
    {
        self.lines.number()
    }

    /// The line that was read last, without its LF.
    pub fn line(&self) -> &[u8]
        ensures value { result.now ≡ self.now.lines.line }
        ensures within { length result.now ≤ LONGEST_INPUT_LINE }
    {
        self.lines.line()
    }

    /// What was read of that line.
    pub fn text(&self) -> &Normal
        ensures { result.now ≡ self.now.text }
    {
        &self.text
    }

    /// Reads the next line of the input and what is read of it, over those that were read before, and returns whether there
    /// was a line. With numbers by value that is the line with the code of each number in place of it. After a line that no
    /// LF ends nothing more is read.
    ///
    /// # Errors
    ///
    /// `Input`, with the first of these that is true of the line: `Limit`, `TooLong` by its bytes, `Utf8`, `TooLong`
    /// by the code points of what is read, `LongRun` of these. `Read` if the source failed, and `Memory` if an allocation
    /// failed.
    pub fn next<I: Read, D: Allocator>(
        &mut self,
        input: &mut Source<I>,
        numbers: Numbers,
        properties: &Data<D>,
    ) -> Result<bool, RunFault>
        ensures reads { (start : Option (List ℕ)) (before : List (List ℕ)) →
            let read_of = line_text numbers (properties_of properties.now) in
            HasRead read_of start before self.old.lines input.old →
            ReadsCleanLine read_of start before self.new.lines input.new result }
        ensures text { IfOk result (λ more. OnTrue more
            (self.new.text ≡ line_text numbers (properties_of properties.now) self.new.lines.line)) }
        ensures count { IfOk result (λ more. OnTrue more ((self.new.lines.reader.number ≡ self.old.lines.reader.number + 1)
            × (self.new.lines.reader.number ≤ LINE_LIMIT))) }
        ensures not_write { ended_by_output result ≡ false }
        ensures failed { input.new.failed ≡ (input.old.failed || is_input_read result) }
    {
        match self.lines.next(input) {
            Ok(true) => match take_text(
                &mut self.text,
                &mut self.written,
                &self.lines,
                numbers,
                properties,
            ) {
                Ok(()) => Ok(true),
                Err(kind) => Err(RunFault::Input {
                    line: self.lines.number(),
                    kind,
                }),
            },
            Ok(false) => Ok(false),
            Err(fault) => Err(fault),
        }
    }
}

fn kind_of_line(fault: LineFault) -> InputKind
    ensures { result ≡ line_kind fault }
{
    match fault {
        LineFault::TooLong => InputKind::TooLong,
        LineFault::Limit => InputKind::Limit,
        LineFault::Read => InputKind::Read,
        LineFault::Memory => InputKind::Memory,
    }
}

/// The error of a line whose text is rejected for this.
pub fn kind_of_text(fault: TextFault) -> InputKind
    ensures { result ≡ text_kind fault }
{
    match fault {
        TextFault::TooLong => InputKind::TooLong,
        TextFault::LongRun(place) => InputKind::LongRun(place),
        TextFault::Memory => InputKind::Memory,
    }
}

// Makes the text what is read of the line that was read.
fn take_text<A: Allocator, D: Allocator>(
    text: &mut Normal,
    written: &mut WrittenText,
    lines: &InputLines<A>,
    numbers: Numbers,
    properties: &Data<D>,
) -> Result<(), InputKind>
    ensures text { OnOk result (text.new ≡ line_text numbers (properties_of properties.now) lines.now.line) }
    ensures clean { (before : ℕ) → before < LINE_LIMIT →
        OnOk result (cause_of (line_text numbers (properties_of properties.now)) before lines.now.line ≡ None) }
    ensures fault { (before : ℕ) → before < LINE_LIMIT →
        IfErr result (HasTextCause (line_text numbers (properties_of properties.now)) before lines.now.line) }
    ensures not_read { is_read result ≡ false }
{
    match lines.text() {
        Ok(line) => match renew_text(text, written, line, numbers, properties) {
            Ok(()) => Ok(()),
            Err(fault) => Err(kind_of_text(fault)),
        },
        Err(kind) => Err(kind),
    }
}
