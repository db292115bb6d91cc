//! The run that prints the lines that rules affect, and its part that others share: printing the lines that an
//! `Affects` affects (`print_affected`).
//!
//! It reads a data file and rules, and no table. It gets the texts of its lines from `InputTexts`, and writes those for
//! which `Rules::untouched` is false.

ghost use Rattle.std.specs.Prelude.{◌≡◌, ◌∷◌, [], ℕ, ◌+◌, ◌-◌, ◌*◌, ◌^◌, ◌<◌, ◌≤◌, ◌||◌, false, Bool, List, Option, IfSome, OnOk, length};
ghost use Rattle.uca_values.specs.Content.{properties_of};
ghost use Rattle.uca_lines.specs.OutputBuffer.{IsBuffered};
ghost use Rattle.uca_run_parts.specs.Input.{line_text};
ghost use Rattle.uca_run_parts.specs.Runs.{is_input_read, ended_by_output};
ghost use Rattle.uca_run_parts.specs.EachLine.{WritesEach, ended_before_input};
ghost use Rattle.uca_run_parts.specs.EachLineSoFar.{HasWritten, WritesText, WritesRest};
ghost use Rattle.uca_run_parts.specs.AffectedRun.{PrintsAffected, by_rules, if_so, line_if};

use crate::faults::RunFault;
use crate::input::InputTexts;
use crate::output::{end_output, write_line};
use crate::rule_file::read_data_and_rules;
use std::alloc::{Allocator, Global};
use std::io::{Read, Write};
use uca_changes::Affects;
use uca_lines::{LINE_LIMIT, OutputBuffer};
use uca_values::Data;
use uca_weights::{Numbers, Sink, Source};

// The lines of the input, and what waits to be written.
#[derive(Drop)]
struct AffectedRun<A: Allocator> {
    texts: InputTexts<A>,
    output: OutputBuffer,
}

impl<A: Allocator> AffectedRun<A> {
    // Writes the line that was read, where it is affected.
    fn print_text<X: Affects, W: Write>(
        &mut self,
        affects: &X,
        out: &mut Sink<W>,
    ) -> Result<(), RunFault>
        requires few { 0 < self.old.texts.lines.reader.number }
        requires most { self.old.texts.lines.reader.number ≤ LINE_LIMIT }
        requires small { self.old.output.written + length self.old.output.held
            ≤ (self.old.texts.lines.reader.number - 1) * 2 ^ 43 }
        ensures prints { (begun : Option (List ℕ)) (before : List ℕ) →
            IsBuffered begun out.old.contents before self.old.output →
            WritesText begun before (if_so (X.affects affects.now) self.old.texts.text.points self.old.texts.lines.line)
            self.old.texts.lines.reader.number self.old.output out.old self.new.output out.new result }
        ensures small { OnOk result (self.new.output.written + length self.new.output.held
            ≤ self.old.texts.lines.reader.number * 2 ^ 43) }
        ensures texts { self.new.texts ≡ self.old.texts }
        ensures not_read { is_input_read result ≡ false }
        ensures failed { out.new.failed ≡ (out.old.failed || ended_by_output result) }
    {
        if !affects.affects(self.texts.text()) {
            return Ok(());
        }
        Ok(write_line(&mut self.output, out, self.texts.line())?)
    }

    // Writes those of the lines that are left.
    fn print_rest<D: Allocator, X: Affects, I: Read, W: Write>(
        &mut self,
        numbers: Numbers,
        properties: &Data<D>,
        affects: &X,
        input: &mut Source<I>,
        out: &mut Sink<W>,
    ) -> Result<(), RunFault>
        requires small { self.old.output.written + length self.old.output.held
            ≤ self.old.texts.lines.reader.number * 2 ^ 43 }
        ensures prints { (start begun : Option (List ℕ)) (before : List (List ℕ)) →
            let read_of = line_text numbers (properties_of properties.now) in
            HasWritten read_of (line_if (X.affects affects.now) read_of) start begun before self.old.texts.lines input.old self.old.output out.old →
            WritesRest read_of (line_if (X.affects affects.now) read_of) start begun input.new self.new.output out.new result }
        ensures input_failed { input.new.failed ≡ (input.old.failed || is_input_read result) }
        ensures out_failed { out.new.failed ≡ (out.old.failed || ended_by_output result) }
    {
        while self.texts.next(input, numbers, properties)? {
            self.print_text(affects, out)?;
        }
        Ok(())
    }
}

/// Prints the affected lines of the input, as they are and in their order, until the end of the input or its first line with
/// an error. A line is affected if its text in Normalization Form D is. Rules affect a text if one of their targets occurs in
/// it: all its code points in their order, whatever is between.
///
/// # Errors
///
/// - `Input`: the first line with an error. The affected lines before it were written.
/// - `Write`: the writer failed, also where a later line has an error.
pub fn print_affected<D: Allocator, X: Affects, A: Allocator, I: Read, W: Write>(
    alloc: A,
    global: Global,
    numbers: Numbers,
    properties: &Data<D>,
    affects: &X,
    input: &mut Source<I>,
    out: &mut Sink<W>,
) -> Result<(), RunFault>
    ensures writes { IfSome input.old.remaining (λ bytes.
        let read_of = line_text numbers (properties_of properties.now) in
        WritesEach read_of (line_if (X.affects affects.now) read_of) bytes input.new.remaining out.old.contents out.new.contents result) }
    ensures of_lines { ended_before_input result ≡ false }
    ensures input_failed { ended_by_output result ≡ false →
        input.new.failed ≡ (input.old.failed || is_input_read result) }
    ensures out_failed { out.new.failed ≡ (out.old.failed || ended_by_output result) }
{
    let mut run = AffectedRun {
        texts: InputTexts::new(alloc, global),
        output: OutputBuffer::new(),
    };
    let end = run.print_rest(numbers, properties, affects, input, out);
    let end = end_output(&mut run.output, out, end);
    drop(run);
    end
}

/// Prints the lines of `input` in which a target of the rules occurs in order, each with LF. The data file and the rules are
/// read first. The lines are as they are, and in their order. Under each accepted tailoring by the rules the other lines keep
/// their order among themselves. Texts in Normalization Form D are in `global`.
///
/// # Errors
///
/// - `File`: the data file, or else the rules, are rejected. Nothing was written, and nothing of the input was read.
/// - `Input`: the first line with an error. The affected lines before it were written.
/// - `Write`: the writer failed, also where a later line has an error. The first `written` bytes of the whole output went
///   out.
pub fn run_affected<A: Allocator + Copy, D: Read, U: Read, I: Read, W: Write>(
    alloc: A,
    global: Global,
    properties: &mut Source<D>,
    rules: &mut Source<U>,
    input: &mut Source<I>,
    out: &mut Sink<W>,
    numbers: Numbers,
) -> Result<(), RunFault>
    ensures { PrintsAffected by_rules numbers (properties.old ∷ rules.old ∷ []) (properties.new ∷ rules.new ∷ [])
        input.old input.new out.old out.new result }
{
    match read_data_and_rules(alloc, global, properties, rules) {
        Ok(files) => {
            let end = print_affected(
                alloc,
                global,
                numbers,
                &files.properties,
                &files.rules,
                input,
                out,
            );
            drop(files);
            end
        }
        Err(fault) => Err(fault),
    }
}
