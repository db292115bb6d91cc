//! What a run of keys writes: the line of output of each line of its input.

ghost use Rattle.std.specs.Prelude.{◌≡◌, ◌∷◌, [], ℕ, ◌+◌, ◌-◌, ◌*◌, ◌^◌, ◌<◌, ◌≤◌, ◌||◌, true, false, List, Option, IfErr, IfOk, IfSome, OnOk, length, chars};
ghost use Rattle.std.specs.Bool.{OnTrue};
ghost use Rattle.uca_lines.specs.OutputBuffer.{IsBuffered};
ghost use Rattle.uca_lines.specs.Buffered.{HasRoom, WritesThrough};
ghost use Rattle.unicode_normalization.specs.Forms.{nfd};
ghost use Rattle.uca_text.specs.Texts.{NfdText};
ghost use Rattle.uca_elements.specs.Collations.{collation_of};
ghost use Rattle.uca_order.specs.Lengths.{HasShortRows};
ghost use Rattle.uca_order.specs.Depths.{read_points};
ghost use Rattle.uca_order.specs.Keyings.{keying_of, text_of};
ghost use Rattle.uca_key_writer.specs.Writers.{collation_by};
ghost use Rattle.uca_key_runs.specs.Keys.{keying_at, keying_of_writer};
ghost use Rattle.uca_run_parts.specs.Runs.{is_input_read, ended_by_output};
ghost use Rattle.uca_run_parts.specs.EachLine.{WritesEach, ended_before_input};
ghost use Rattle.uca_run_parts.specs.EachLineSoFar.{HasWritten, WritesText, WritesRest};
ghost use Rattle.uca_run_parts.specs.Input.{cause_of};
ghost use Rattle.uca_run_parts.specs.Texts.{HasRead, HasTextCause, ReadsCleanLine, is_read};
ghost use Rattle.uca_key_runs.specs.inside.KeyForms;
ghost use Rattle.uca_key_runs.specs.inside.KeyForms.{IsFor, MakesKeys, book_of, compacter_of, depth_as, line_as, printed_as, shown_at, shown_of};

use crate::compacting::{Compacting, compact_shown, compacting_by, count_keys, shown};
use crate::line_keys::{write_line_key, write_line_levels};
use std::alloc::{Allocator, Global};
use std::io::{Read, Write};
use uca_books::Book;
use uca_elements::{Collator, Lookup};
use uca_key_writer::KeyWriter;
use uca_lines::{LINE_LIMIT, OutputBuffer};
use uca_run_parts::KeySizes;
use uca_run_parts::faults::{InputKind, RunFault};
use uca_run_parts::input::InputLines;
use uca_run_parts::output::end_output;
use uca_run_parts::print::{KeyDigits, print_digits, print_key, print_keyed_line};
use uca_text::decompose;
use uca_weights::{Depth, Settings, Sink, Source, WriteFault};

/// What the output has of a line of the input.
#[derive(Clone, Copy)]
pub(crate) enum KeyForm {
    /// Its key, in groups.
    Alone,
    /// The digits of its key.
    Digits,
    /// The digits of its key, a tab, and the line.
    BeforeLine,
}

// Writes the line of output of a line. The key is at the depth that the form asks for.
fn print_as<W: Write>(
    digits: &mut KeyDigits,
    buffer: &mut OutputBuffer,
    out: &mut Sink<W>,
    form: KeyForm,
    depth: Depth,
    key: &[u8],
    points: &[char],
    line: &[u8],
) -> Result<(), WriteFault>
    requires { HasRoom buffer.old (length (printed_as form depth key.now points.now line.now)) }
    ensures { WritesThrough (printed_as form depth key.now points.now line.now) buffer.old buffer.new out.old out.new result }
{
    match form {
        KeyForm::Alone => print_key(digits, buffer, out, depth, key, points),
        KeyForm::Digits => print_digits(digits, buffer, out, key),
        KeyForm::BeforeLine => print_keyed_line(digits, buffer, out, key, line),
    }
}

// The depth of the key that is made for a form.
fn depth_of(form: KeyForm, depth: Depth) -> Depth
    ensures { result ≡ depth_as form depth }
{
    match form {
        KeyForm::Alone => Depth::Weights,
        KeyForm::Digits | KeyForm::BeforeLine => depth,
    }
}

// Replaces the list by the code points of the line that was read, in Normalization Form D, where they are printed. `spare`
// only lends its memory.
fn take_shown_points<A: Allocator>(
    points: &mut Vec<char>,
    spare: &mut Vec<char>,
    form: KeyForm,
    depth: Depth,
    lines: &InputLines<A>,
) -> Result<(), InputKind>
    ensures points { OnOk result (KeyForms.shows_points form depth ≡ true → points.new.items ≡ nfd (chars lines.now.line)) }
    ensures few { OnOk result (KeyForms.shows_points form depth ≡ true → length points.new.items ≤ 2 ^ 23) }
    ensures fault { (read_of : List ℕ → NfdText) (before : ℕ) → before < LINE_LIMIT →
        IfErr result (HasTextCause read_of before lines.now.line) }
    ensures not_read { is_read result ≡ false }
{
    match form {
        KeyForm::Alone => match depth {
            Depth::Weights => Ok(()),
            Depth::Identical => take_points(points, spare, lines),
        },
        KeyForm::Digits | KeyForm::BeforeLine => Ok(()),
    }
}

// Replaces the list by the code points of the line that was read, in Normalization Form D.
fn take_points<A: Allocator>(
    points: &mut Vec<char>,
    spare: &mut Vec<char>,
    lines: &InputLines<A>,
) -> Result<(), InputKind>
    ensures points { OnOk result (points.new.items ≡ nfd (chars lines.now.line)) }
    ensures few { OnOk result (length points.new.items ≤ 2 ^ 23) }
    ensures fault { (read_of : List ℕ → NfdText) (before : ℕ) → before < LINE_LIMIT →
        IfErr result (HasTextCause read_of before lines.now.line) }
    ensures not_read { is_read result ≡ false }
{
    match lines.text() {
        Ok(line) => match decompose(points, spare, line) {
            Ok(()) => Ok(()),
            Err(_) => Err(InputKind::Memory),
        },
        Err(kind) => Err(kind),
    }
}

// Makes the compact key of the line that was read from the levels of its key, and returns `true`. It returns `false` if whole
// keys are shown, or if `write_line_levels` returned `false`.
#[inline(always)]
fn make_compact_key<'a, L: Lookup, T: Allocator, A: Allocator>(
    key: &mut KeyWriter<'a, L, T, A>,
    compacting: &mut Option<Compacting<A>>,
    lines: &InputLines<A>,
) -> Result<bool, InputKind>
    requires rows { HasShortRows (collation_by L.content key.old).rows }
    requires compact { IsFor (compacter_of compacting.old) key.old.settings }
    ensures shown { let c = keying_of_writer L.content key.old in IfOk result (λ made. OnTrue made
        (shown_of compacting.new key.new.key ≡ shown_at (book_of compacting.old) c.settings.depth c.settings.weighting
        (read_points c.collation c.settings.numbers (chars lines.now.line)))) }
    ensures short { IfOk result (λ made. OnTrue made (length (shown_of compacting.new key.new.key) < 2 ^ 41)) }
    ensures clean { (before : ℕ) → before < LINE_LIMIT → IfOk result (λ made. OnTrue made
        (cause_of (text_of (keying_of_writer L.content key.old)) before lines.now.line ≡ None)) }
    ensures fault { (before : ℕ) → before < LINE_LIMIT →
        IfErr result (HasTextCause (text_of (keying_of_writer L.content key.old)) before lines.now.line) }
    ensures not_read { is_read result ≡ false }
    ensures collation { collation_by L.content key.new ≡ collation_by L.content key.old }
    ensures settings { key.new.settings ≡ key.old.settings }
    ensures compacter { compacter_of compacting.new ≡ compacter_of compacting.old }
{
    match compacting {
        Some(compacting) => match write_line_levels(key, lines) {
            Ok(true) => match compacting.write_levels(&key.levels()) {
                Ok(()) => Ok(true),
                Err(_) => Err(InputKind::Memory),
            },
            Ok(false) => Ok(false),
            Err(kind) => Err(kind),
        },
        None => Ok(false),
    }
}

// Makes the key of the line that was read, or its compact key where that is shown.
fn make_shown_key<'a, L: Lookup, T: Allocator, A: Allocator>(
    key: &mut KeyWriter<'a, L, T, A>,
    compacting: &mut Option<Compacting<A>>,
    lines: &InputLines<A>,
) -> Result<(), InputKind>
    requires rows { HasShortRows (collation_by L.content key.old).rows }
    requires compact { IsFor (compacter_of compacting.old) key.old.settings }
    ensures shown { let c = keying_of_writer L.content key.old in
        OnOk result (shown_of compacting.new key.new.key ≡ shown_at (book_of compacting.old) c.settings.depth c.settings.weighting
        (read_points c.collation c.settings.numbers (chars lines.now.line))) }
    ensures short { OnOk result (length (shown_of compacting.new key.new.key) < 2 ^ 41) }
    ensures clean { (before : ℕ) → before < LINE_LIMIT →
        OnOk result (cause_of (text_of (keying_of_writer L.content key.old)) before lines.now.line ≡ None) }
    ensures fault { (before : ℕ) → before < LINE_LIMIT →
        IfErr result (HasTextCause (text_of (keying_of_writer L.content key.old)) before lines.now.line) }
    ensures not_read { is_read result ≡ false }
    ensures collation { collation_by L.content key.new ≡ collation_by L.content key.old }
    ensures settings { key.new.settings ≡ key.old.settings }
    ensures compacter { compacter_of compacting.new ≡ compacter_of compacting.old }
{
    match make_compact_key(key, compacting, lines) {
        Ok(true) => Ok(()),
        Ok(false) => match write_line_key(key, lines) {
            Ok(()) => match compact_shown(compacting, key.bytes()) {
                Ok(()) => Ok(()),
                Err(_) => Err(InputKind::Memory),
            },
            Err(kind) => Err(kind),
        },
        Err(kind) => Err(kind),
    }
}

// Makes the key of the line that was read, its compact key where that is shown, and the line's code points where they are
// printed.
fn make_key<'a, L: Lookup, T: Allocator, A: Allocator>(
    key: &mut KeyWriter<'a, L, T, A>,
    compacting: &mut Option<Compacting<A>>,
    points: &mut Vec<char>,
    spare: &mut Vec<char>,
    form: KeyForm,
    depth: Depth,
    lines: &InputLines<A>,
) -> Result<(), InputKind>
    requires keys { MakesKeys form depth (keying_of_writer L.content key.old) }
    requires compact { IsFor (compacter_of compacting.old) key.old.settings }
    ensures made { OnOk result (printed_as form depth (shown_of compacting.new key.new.key) points.new.items lines.now.line
        ≡ line_as form (book_of compacting.old) (keying_at L.content key.old depth) lines.now.line) }
    ensures short { OnOk result (length (shown_of compacting.new key.new.key) < 2 ^ 41) }
    ensures few { OnOk result (KeyForms.shows_points form depth ≡ true → length points.new.items ≤ 2 ^ 23) }
    ensures clean { (before : ℕ) → before < LINE_LIMIT →
        OnOk result (cause_of (text_of (keying_of_writer L.content key.old)) before lines.now.line ≡ None) }
    ensures fault { (before : ℕ) → before < LINE_LIMIT →
        IfErr result (HasTextCause (text_of (keying_of_writer L.content key.old)) before lines.now.line) }
    ensures not_read { is_read result ≡ false }
    ensures kept { keying_of_writer L.content key.new ≡ keying_of_writer L.content key.old }
    ensures compacter { compacter_of compacting.new ≡ compacter_of compacting.old }
{
    match make_shown_key(key, compacting, lines) {
        Ok(()) => match take_shown_points(points, spare, form, depth, lines) {
            Ok(()) => Ok(()),
            Err(kind) => Err(kind),
        },
        Err(kind) => Err(kind),
    }
}

// The lines of the input, and what is used again for each of them.
#[derive(Drop)]
struct KeyRun<'a, L: Lookup, T: Allocator, A: Allocator> {
    lines: InputLines<A>,
    key: KeyWriter<'a, L, T, A>,
    // what makes compact keys of keys, where these are shown
    compacting: Option<Compacting<A>>,
    // the code points of the line, where they are printed
    points: Vec<char>,
    // lends its memory to these
    spare: Vec<char>,
    output: OutputBuffer,
    // room for the digits of a key
    digits: KeyDigits,
}

impl<'a, L: Lookup, T: Allocator, A: Allocator> KeyRun<'a, L, T, A> {
    // Reads the next line and makes its key, and returns whether there was a line.
    fn next<I: Read>(
        &mut self,
        form: KeyForm,
        depth: Depth,
        input: &mut Source<I>,
    ) -> Result<bool, RunFault>
        requires keys { MakesKeys form depth (keying_of_writer L.content self.old.key) }
        requires compact { IsFor (compacter_of self.old.compacting) self.old.key.settings }
        ensures reads { (start : Option (List ℕ)) (before : List (List ℕ)) →
            let read_of = text_of (keying_of_writer L.content self.old.key) in
            HasRead read_of start before self.old.lines input.old →
            ReadsCleanLine read_of start before self.new.lines input.new result }
        ensures made { IfOk result (λ more. OnTrue more (
            printed_as form depth (shown_of self.new.compacting self.new.key.key) self.new.points.items self.new.lines.line
            ≡ line_as form (book_of self.old.compacting) (keying_at L.content self.old.key depth) self.new.lines.line)) }
        ensures short { IfOk result (λ more. OnTrue more (length (shown_of self.new.compacting self.new.key.key) < 2 ^ 41)) }
        ensures few { IfOk result (λ more. OnTrue more (KeyForms.shows_points form depth ≡ true → length self.new.points.items ≤ 2 ^ 23)) }
        ensures count { IfOk result (λ more. OnTrue more ((self.new.lines.reader.number ≡ self.old.lines.reader.number + 1)
            × (self.old.lines.reader.number < LINE_LIMIT))) }
        ensures output { self.new.output ≡ self.old.output }
        ensures kept { keying_of_writer L.content self.new.key ≡ keying_of_writer L.content self.old.key }
        ensures compacter { compacter_of self.new.compacting ≡ compacter_of self.old.compacting }
        ensures not_write { ended_by_output result ≡ false }
        ensures failed { input.new.failed ≡ (input.old.failed || is_input_read result) }
    {
        match self.lines.next(input) {
            Ok(true) => match make_key(
                &mut self.key,
                &mut self.compacting,
                &mut self.points,
                &mut self.spare,
                form,
                depth,
                &self.lines,
            ) {
                Ok(()) => Ok(true),
                Err(kind) => Err(RunFault::Input {
                    line: self.lines.number(),
                    kind,
                }),
            },
            Ok(false) => Ok(false),
            Err(fault) => Err(fault),
        }
    }

    // Writes what the output has of the line that was read.
    fn print_line<W: Write>(
        &mut self,
        form: KeyForm,
        depth: Depth,
        out: &mut Sink<W>,
    ) -> Result<(), RunFault>
        requires short { length (shown_of self.old.compacting self.old.key.key) < 2 ^ 41 }
        requires points { KeyForms.shows_points form depth ≡ true → length self.old.points.items ≤ 2 ^ 23 }
        requires few { 0 < self.old.lines.reader.number }
        requires most { self.old.lines.reader.number ≤ LINE_LIMIT }
        requires small { self.old.output.written + length self.old.output.held
            ≤ (self.old.lines.reader.number - 1) * 2 ^ 43 }
        ensures prints { (begun : Option (List ℕ)) (before : List ℕ) →
            IsBuffered begun out.old.contents before self.old.output →
            WritesText begun before (printed_as form depth (shown_of self.old.compacting self.old.key.key) self.old.points.items self.old.lines.line)
            self.old.lines.reader.number self.old.output out.old self.new.output out.new result }
        ensures small { OnOk result (self.new.output.written + length self.new.output.held
            ≤ self.old.lines.reader.number * 2 ^ 43) }
        ensures lines { self.new.lines ≡ self.old.lines }
        ensures key { self.new.key ≡ self.old.key }
        ensures compacting { self.new.compacting ≡ self.old.compacting }
        ensures not_read { is_input_read result ≡ false }
        ensures failed { out.new.failed ≡ (out.old.failed || ended_by_output result) }
    {
        Ok(print_as(
            &mut self.digits,
            &mut self.output,
            out,
            form,
            depth,
            shown(&self.compacting, self.key.bytes()),
            &self.points,
            self.lines.line(),
        )?)
    }

    // Writes what the output has of all lines that are left.
    fn print_rest<I: Read, W: Write>(
        &mut self,
        form: KeyForm,
        depth: Depth,
        input: &mut Source<I>,
        out: &mut Sink<W>,
    ) -> Result<(), RunFault>
        requires makes { MakesKeys form depth (keying_of_writer L.content self.old.key) }
        requires compact { IsFor (compacter_of self.old.compacting) self.old.key.settings }
        requires small { self.old.output.written + length self.old.output.held
            ≤ self.old.lines.reader.number * 2 ^ 43 }
        ensures prints { (start begun : Option (List ℕ)) (before : List (List ℕ)) →
            let read_of = text_of (keying_of_writer L.content self.old.key) in
            let line = line_as form (book_of self.old.compacting) (keying_at L.content self.old.key depth) in
            HasWritten read_of line start begun before self.old.lines input.old self.old.output out.old →
            WritesRest read_of line start begun input.new self.new.output out.new result }
        ensures input_failed { input.new.failed ≡ (input.old.failed || is_input_read result) }
        ensures out_failed { out.new.failed ≡ (out.old.failed || ended_by_output result) }
    {
        while self.next(form, depth, input)? {
            self.print_line(form, depth, out)?;
        }
        Ok(())
    }
}

/// Writes what the output has of each line of the input, until its end or its first line with an error. `sizes` gets the bytes of the keys
/// and of the compact keys, where these are made.
///
/// # Errors
///
/// `Input` for the first line with an error, if what the output has of the lines before it was written.
/// `Write` if the writer failed, also if a later line has an error.
pub(crate) fn print_lines<L: Lookup, T: Allocator, A: Allocator + Copy, I: Read, W: Write>(
    alloc: A,
    global: Global,
    collator: &Collator<L, T>,
    settings: Settings,
    form: KeyForm,
    book: Option<Book<A>>,
    input: &mut Source<I>,
    out: &mut Sink<W>,
    sizes: &mut KeySizes,
) -> Result<(), RunFault>
    requires { HasShortRows (collation_of L.content collator.now).rows }
    ensures writes { IfSome input.old.remaining (λ bytes.
        let c = keying_of L.content collator.now settings in
        WritesEach (text_of c) (line_as form book c) bytes input.new.remaining out.old.contents out.new.contents result) }
    ensures of_lines { ended_before_input result ≡ false }
    ensures input_failed { ended_by_output result ≡ false →
        input.new.failed ≡ (input.old.failed || is_input_read result) }
    ensures out_failed { out.new.failed ≡ (out.old.failed || ended_by_output result) }
{
    let depth = settings.depth;
    let made = Settings {
        depth: depth_of(form, depth),
        ..settings
    };
    let mut run = KeyRun {
        lines: InputLines::new(alloc),
        key: KeyWriter::new(alloc, global, *collator, made),
        compacting: compacting_by(alloc, book, made),
        points: Vec::new(global),
        spare: Vec::new(global),
        output: OutputBuffer::new(),
        digits: KeyDigits::new(),
    };
    let end = run.print_rest(form, depth, input, out);
    let end = end_output(&mut run.output, out, end);
    count_keys(sizes, &run.compacting);
    drop(run);
    end
}
