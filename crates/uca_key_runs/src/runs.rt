//! The runs of keys: they read their files, and print the key or the compact key of each line. `KeyOutput` says what else the output has.

ghost use Rattle.std.specs.Prelude.{◌≡◌, ◌≤◌, ◌∷◌, ◌||◌, [], false, true, length, IfSome, is_some, option_to_list};
ghost use Rattle.uca_values.specs.Content.{properties_of};
ghost use Rattle.uca_elements.specs.Collations.{collation_of};
ghost use Rattle.uca_order.specs.Keyings.{keying_of, text_of};
ghost use Rattle.uca_order.specs.Lengths.{HasShortRows};
ghost use Rattle.uca_weights.specs.AskedSettings.{as_text};
ghost use Rattle.uca_run_parts.specs.EachLine.{ended_before_input};
ghost use Rattle.uca_run_parts.specs.Files.{ended_by_file};
ghost use Rattle.uca_run_parts.specs.Runs.{ended_by_output, is_input_read};
ghost use Rattle.uca_key_runs.specs.KeysRun.{KeyContent, PrintsKeys, PrintsKeysAs, RunsKeys, WritesAfter};
ghost use Rattle.uca_key_runs.specs.inside.KeyForms.{line_as};
ghost use Rattle.uca_key_runs.specs.inside.KeyParts.{AreRead, ended_after, form_as};

use crate::collations::collation_of;
use crate::collations::packed_files::read_packed_files;
use crate::key_files::{KeyFiles, header_bytes, header_with, read_key_files};
use crate::keys::{KeyForm, print_lines};
use std::alloc::{Allocator, Global};
use std::io::{Read, Write};
use uca_books::Book;
use uca_elements::{Collator, Lookup};
use uca_run_parts::output::write_text;
use uca_run_parts::{KeySizes, RunFault};
use uca_weights::{Asked, Depth, Settings, Sink, Source, Weighting};

/// What the output of a run of keys has beside the keys.
#[derive(Clone, Copy)]
pub struct KeyOutput {
    /// Each key is in digits without spaces, and after it come a tab and its line.
    pub lines: bool,
    /// The first line is a header, which names the settings and the files in a fingerprint.
    pub header: bool,
}

// How a run ends that wrote a header first: an error of the writer counts its bytes too.
fn after_header(header: &[u8], end: Result<(), RunFault>) -> Result<(), RunFault>
    ensures { result ≡ ended_after (length header.now) end }
{
    match end {
        Ok(()) => Ok(()),
        Err(RunFault::Write { written }) => Err(RunFault::Write {
            written: (header.len() as u64).saturating_add(written),
        }),
        Err(fault) => Err(fault),
    }
}

// Writes a header, which may be empty, and then what the output has of each line of the input, until its end or its first line with an
// error. With a book the lines have compact keys.
fn print_after<L: Lookup, T: Allocator, A: Allocator + Copy, I: Read, W: Write>(
    alloc: A,
    global: Global,
    collator: &Collator<L, T>,
    settings: Settings,
    form: KeyForm,
    book: Option<Book<A>>,
    header: &[u8],
    input: &mut Source<I>,
    out: &mut Sink<W>,
    sizes: &mut KeySizes,
) -> Result<(), RunFault>
    requires rows { HasShortRows (collation_of L.content collator.now).rows }
    requires short { length header.now ≤ 128 }
    ensures writes { IfSome input.old.remaining (λ bytes.
        let c = keying_of L.content collator.now settings in
        WritesAfter header.now (text_of c) (line_as form book c) bytes input.new.remaining out.old.contents out.new.contents result) }
    ensures of_lines { ended_before_input result ≡ false }
    ensures input_failed { ended_by_output result ≡ false →
        input.new.failed ≡ (input.old.failed || is_input_read result) }
    ensures out_failed { out.new.failed ≡ (out.old.failed || ended_by_output result) }
{
    match write_text(header, out) {
        Ok(()) => {
            let end = print_lines(
                alloc, global, collator, settings, form, book, input, out, sizes,
            );
            after_header(header, end)
        }
        Err(fault) => {
            drop(book);
            Err(fault)
        }
    }
}

// The form of a line of output.
fn form_of<A: Allocator>(lines: bool, book: &Option<Book<A>>) -> KeyForm
    ensures { result ≡ form_as lines book.now }
{
    match (lines, book) {
        (true, _) => KeyForm::BeforeLine,
        (false, Some(_)) => KeyForm::Digits,
        (false, None) => KeyForm::Alone,
    }
}

// Writes the output of a run whose files were read.
fn print_files<A: Allocator + Copy, I: Read, W: Write>(
    alloc: A,
    global: Global,
    files: KeyFiles<A>,
    input: &mut Source<I>,
    out: &mut Sink<W>,
    asked: Asked,
    output: KeyOutput,
    sizes: &mut KeySizes,
) -> Result<(), RunFault>
    ensures runs { (content : KeyContent) → AreRead files.table (properties_of files.properties) files.book files.sums content →
        is_some files.sums ≡ output.header → RunsKeys output asked input.old input.new out.old out.new result content }
    ensures no_file { ended_by_file result ≡ false }
    ensures nothing_written { ended_before_input result ≡ true → (out.new ≡ out.old) × (input.new ≡ input.old) }
    ensures input_failed { ended_by_output result ≡ false →
        input.new.failed ≡ (input.old.failed || is_input_read result) }
    ensures out_failed { out.new.failed ≡ (out.old.failed || ended_by_output result) }
{
    let KeyFiles {
        table,
        properties,
        book,
        sums,
    } = files;
    match collation_of(alloc, table, properties, asked) {
        Ok(read) => {
            let header = header_with(read.settings, sums);
            let form = form_of(output.lines, &book);
            let collator = read.collation.collator();
            let first = header_bytes(&header);
            let end = print_after(
                alloc,
                global,
                &collator,
                read.settings,
                form,
                book,
                first,
                input,
                out,
                sizes,
            );
            drop(header);
            drop(read);
            end
        }
        Err(fault) => {
            drop(book);
            Err(fault)
        }
    }
}

/// Prints the sort key of each line of `input`, under the table and the data file that are read first.
/// The weighting is the one that is asked for, or else that of the table's `@variable`, or else shifted (UTS #10,
/// section 4). At the depth `Identical` the code points of Normalization Form D follow as one more level, six digits
/// each.
///
/// # Errors
///
/// - `File`: the table, or else the data file, is rejected. Nothing was written, and nothing of the input was read.
/// - `Memory`: an allocation failed for looking up rows. Nothing was written, and nothing of the input was read.
/// - `Input`: the first line with an error, if the keys of the lines before it were written.
/// - `Write`: the writer failed, also if a later line has an error. The first `written` bytes of the whole output
///   went out.
pub fn run_keys<T: Read, D: Read, I: Read, W: Write>(
    alloc: Global,
    table: &mut Source<T>,
    properties: &mut Source<D>,
    input: &mut Source<I>,
    out: &mut Sink<W>,
    weighting: Option<Weighting>,
    depth: Depth,
) -> Result<(), RunFault>
    ensures { PrintsKeys (as_text weighting depth) (table.old ∷ properties.old ∷ []) (table.new ∷ properties.new ∷ [])
        input.old input.new out.old out.new result }
{
    match read_packed_files(alloc, table, properties) {
        Ok((table, properties)) => {
            let files = KeyFiles {
                table,
                properties,
                book: None,
                sums: None,
            };
            let output = KeyOutput {
                lines: false,
                header: false,
            };
            let asked = Asked::as_text(weighting, depth);
            let mut sizes = KeySizes::new();
            print_files(alloc, alloc, files, input, out, asked, output, &mut sizes)
        }
        Err(fault) => Err(fault),
    }
}

/// Prints the sort key of each line of `input` as [`run_keys`] does, with what `output` asks for, and with numbers by value where `asked` says
/// so. A key before its line is in upper-case hexadecimal digits without spaces; a tab, the bytes of the line and LF follow. So the first field
/// is the key, and the text after the first tab is the line. A header is the first line:
///
/// ```text
/// #uca keys 1 shifted weights 64 lower-case hexadecimal digits
/// ```
///
/// It has the weighting and the depth of the keys, and the fingerprint of their settings with the bytes of the files (`fingerprint_of_sums`
/// of the crate `uca_fingerprint`).
///
/// With a book the keys are compact, as `KeyCompacter` of the crate `uca_compact` makes them. They are in digits without spaces also where no
/// line follows them. The header is then `#uca compact 1 ..`, and its fingerprint is that of the whole keys with the book
/// (`compact_fingerprint_of_sums`). Each line without an error has a compact key. `sizes` gets the bytes of the keys and of the compact keys; without a
/// book it stays as it is.
///
/// The files, the trie, the lines and the keys are in memory of `alloc`, and texts in Normalization Form D in `global`. Memory for keys is
/// used again for each line.
///
/// # Errors
///
/// - `File`: the table, or else the data file, or else the book, is rejected.
/// - `Digits`: numbers are to be ordered by value, and the table does not order them. It comes after the errors of files.
/// - `Memory`: an allocation failed for looking up rows. In these cases nothing was written, and nothing of the input was
///   read.
/// - `Input`: the first line with an error. The header and the lines before it were written.
/// - `Write`: the writer failed, also if a later line has an error. The first `written` bytes of the whole output went out.
pub fn run_keys_as<A: Allocator + Copy, T: Read, D: Read, B: Read, I: Read, W: Write>(
    alloc: A,
    global: Global,
    table: &mut Source<T>,
    properties: &mut Source<D>,
    book: &mut Option<Source<B>>,
    input: &mut Source<I>,
    out: &mut Sink<W>,
    asked: Asked,
    output: KeyOutput,
    sizes: &mut KeySizes,
) -> Result<(), RunFault>
    ensures { PrintsKeysAs output (is_some book.old) asked (table.old ∷ properties.old ∷ option_to_list book.old)
        (table.new ∷ properties.new ∷ option_to_list book.new) input.old input.new out.old out.new result }
{
    match read_key_files(alloc, table, properties, book, output.header) {
        Ok(files) => print_files(alloc, global, files, input, out, asked, output, sizes),
        Err(fault) => Err(fault),
    }
}
