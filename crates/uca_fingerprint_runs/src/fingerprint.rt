//! The run that prints the fingerprint of what keys are made by, or that of what compact keys are. It reads the table
//! and the data file, each by a parser that sums (`Summed` of `summed_files`), and for compact keys a book too.

ghost use Rattle.std.specs.Prelude.{◌≡◌, ◌∷◌, [], ◌++◌, is_some, option_to_list};
ghost use Rattle.hex.specs.Hex.{encode_lower};
ghost use Rattle.uca_values.specs.Content.{properties_of};
ghost use Rattle.uca_fingerprint_runs.specs.FingerprintRun.{PrintsFingerprint, compact_fingerprint_under, fingerprint_under};
ghost use Rattle.uca_fingerprint_runs.specs.SummedFiles.{booked_with, summed_with};

use crate::summed_files::{BookedFiles, SummedFiles, read_booked_files, read_summed_files};
use hex::encode_to_slice;
use std::alloc::Allocator;
use std::io::{Read, Write};
use uca_fingerprint::{compact_fingerprint_of_sums, fingerprint_of_sums};
use uca_run_parts::RunFault;
use uca_run_parts::output::write_text;
use uca_weights::{Asked, Settings, Sink, Source, Weighting};

/// Writes the fingerprint of what keys are made by under a table and a data file: 64 lower-case hexadecimal digits and LF.
/// With a book it is that of what compact keys are made by. The weighting is the one that is asked for, or else that of the
/// table's `@variable`, or else shifted (UTS #10, section 4). The files are read in this order.
///
/// # Errors
///
/// `File` if the table, or else the data file, or else the book, is rejected: nothing was written. `Write` if the writer
/// failed: the first `written` bytes of the line went out.
pub fn run_fingerprint<A: Allocator + Copy, T: Read, D: Read, B: Read, W: Write>(
    alloc: A,
    table: &mut Source<T>,
    properties: &mut Source<D>,
    book: &mut Option<Source<B>>,
    out: &mut Sink<W>,
    asked: Asked,
) -> Result<(), RunFault>
    ensures { PrintsFingerprint (is_some book.old) asked (table.old ∷ properties.old ∷ option_to_list book.old)
        (table.new ∷ properties.new ∷ option_to_list book.new) out.old out.new result }
{
    match book {
        None => match read_summed_files(alloc, table, properties) {
            Ok(files) => {
                let sum = fingerprint_of_files(&files, asked);
                drop(files);
                write_text(&line_of(&sum), out)
            }
            Err(fault) => Err(fault),
        },
        Some(book) => match read_booked_files(alloc, table, properties, book) {
            Ok(files) => {
                let sum = compact_fingerprint_of_files(&files, asked);
                drop(files);
                write_text(&line_of(&sum), out)
            }
            Err(fault) => Err(fault),
        },
    }
}

// The fingerprint of compact keys under files that were summed.
fn compact_fingerprint_of_files<A: Allocator>(read: &BookedFiles<A>, asked: Asked) -> [u8; 32]
    ensures { result ≡ compact_fingerprint_under asked
        (booked_with (summed_with read.now.files.table (properties_of read.now.files.properties.0, read.now.files.properties.1)) read.now.book) }
{
    let (_, book_sum) = &read.book;
    compact_fingerprint_of_sums(&fingerprint_of_files(&read.files, asked), book_sum)
}

// The fingerprint under files that were summed.
fn fingerprint_of_files<A: Allocator>(files: &SummedFiles<A>, asked: Asked) -> [u8; 32]
    ensures { result ≡ fingerprint_under asked (summed_with files.now.table (properties_of files.now.properties.0, files.now.properties.1)) }
{
    let (table, table_sum) = &files.table;
    let (_, data_sum) = &files.properties;
    let settings = Settings {
        weighting: asked
            .weighting
            .or(table.header.setting)
            .unwrap_or(Weighting::Shifted),
        depth: asked.depth,
        numbers: asked.numbers,
    };
    fingerprint_of_sums(settings, table_sum, data_sum)
}

// A sum as a line.
fn line_of(sum: &[u8; 32]) -> [u8; 65]
    ensures { result ≡ encode_lower sum.now ++ 10 ∷ [] }
{
    let mut line = [b'\n'; 65];
    let _ = encode_to_slice(sum, &mut line[..64]);
    line
}
