//! The runs that change the keys of lines: by the maps of a certificate, to compact keys and back.

ghost use Rattle.std.specs.Prelude.{◌≡◌, ◌∷◌, [], ◌||◌, true, false, option_map};
ghost use Rattle.uca_run_parts.specs.EachLine.{ended_before_input};
ghost use Rattle.uca_run_parts.specs.Files.{ended_by_file};
ghost use Rattle.uca_run_parts.specs.Runs.{ended_by_output, is_input_read};
ghost use Rattle.uca_rekey.specs.ChangeRun.{
  CompactsLines,
  ExpandsLines,
  RekeysLines,
  RunsChange,
  compact_headers,
  key_headers,
  settings_of,
  swapped,
};
ghost use Rattle.uca_rekey.specs.inside.ChangeSoFar.{headers_of};

use crate::change_run::{HeaderLines, begin};
use crate::changes::ChangesKeys;
use std::alloc::Allocator;
use std::io::{Read, Write};
use uca_books::Book;
use uca_compact::{KeyCompacter, KeyExpander};
use uca_fingerprint::{KeyHeader, compact_fingerprint_of_sums};
use uca_fingerprint_runs::sum_of_book;
use uca_images::KeyMover;
use uca_run_parts::{KeySizes, RunFault, read_book_file, read_certificate_file};
use uca_weights::{Depth, Numbers, Settings, Sink, Source, Weighting};

// The settings that keys were made under, as far as their bytes say.
fn settings_of(weighting: Weighting, depth: Depth) -> Settings
    ensures { result ≡ settings_of weighting depth }
{
    Settings {
        weighting,
        depth,
        numbers: Numbers::AsText,
    }
}

// Changes the keys of the lines of an input, and writes the new lines.
fn run_changes<A: Allocator + Copy, C: ChangesKeys, I: Read, W: Write>(
    alloc: A,
    change: C,
    input: &mut Source<I>,
    out: &mut Sink<W>,
    headers: Option<HeaderLines>,
) -> Result<KeySizes, RunFault>
    ensures changes { RunsChange (C.means change) (headers_of headers) input.old input.new out.old out.new result }
    ensures nothing_written { ended_before_input result ≡ true → (out.new ≡ out.old) × (input.new ≡ input.old) }
    ensures no_file { ended_by_file result ≡ false }
    ensures input_failed { ended_by_output result ≡ false → input.new.failed ≡ (input.old.failed || is_input_read result) }
    ensures out_failed { out.new.failed ≡ (out.old.failed || ended_by_output result) }
{
    match begin(alloc, change) {
        Ok(mut run) => {
            let end = run.change_lines(input, out, headers);
            drop(run);
            end
        }
        Err(_) => Err(RunFault::Memory),
    }
}

// The headers of keys with the first fingerprint and with the second one, if there are some.
fn key_headers(settings: Settings, sums: Option<([u8; 32], [u8; 32])>) -> Option<HeaderLines>
    ensures { headers_of result ≡ option_map (key_headers settings) sums }
{
    match sums {
        Some(sums) => {
            let from = sums.0;
            let to = sums.1;
            let old_header = KeyHeader::new(settings, &from);
            let new_header = KeyHeader::new(settings, &to);
            Some(HeaderLines {
                from: old_header,
                to: new_header,
            })
        }
        None => None,
    }
}

// The headers of keys with a fingerprint and of their compact keys by a book, if there is a fingerprint.
fn compact_headers<A: Allocator>(
    settings: Settings,
    book: &Book<A>,
    keys: Option<[u8; 32]>,
) -> Option<HeaderLines>
    ensures { headers_of result ≡ option_map (compact_headers settings book.now) keys }
{
    match keys {
        Some(keys) => {
            let book_sum = sum_of_book(book);
            let compact_sum = compact_fingerprint_of_sums(&keys, &book_sum);
            let old_header = KeyHeader::new(settings, &keys);
            let new_header = KeyHeader::compact(settings, &compact_sum);
            Some(HeaderLines {
                from: old_header,
                to: new_header,
            })
        }
        None => None,
    }
}

// These headers the other way round.
fn swapped(headers: Option<HeaderLines>) -> Option<HeaderLines>
    ensures { headers_of result ≡ option_map swapped (headers_of headers) }
{
    match headers {
        Some(HeaderLines { from, to }) => Some(HeaderLines { from: to, to: from }),
        None => None,
    }
}

/// Puts the stored keys of the lines of `input` through the maps of a certificate, for keys that were made at this depth
/// and under this weighting. The certificate is read first. It returns how many bytes the keys of all lines have, old ones
/// and new ones.
///
/// A line begins with the upper-case hexadecimal digits of its key. They end before the first tab, or with the line,
/// and there may be spaces among them. So a line may be one that the runs of keys of the crate `uca_key_runs` printed. Its
/// new line has the digits of the new key in their place, with the spaces where they were. Then come all from the first tab
/// on, and LF. Memory grows with the longest line alone.
///
/// With fingerprints, the first line of `input` has to be the header of keys that were made under this weighting, at this
/// depth and with the first one. The output begins with the header of the second one in its place, and LF.
///
/// # Errors
///
/// - `File`: the certificate is rejected.
/// - `Memory`: an allocation failed for the maps or for the buffer. In both cases nothing was written, and nothing of the
///   input was read.
/// - `StoredKey`: the first line with an error. `NoKey`: it begins with no digits of a key. `NoImage`: its key has no
///   image. `TooLong`: it has more than 2^30 bytes, or all new lines up to it have more than 2^63. `Read` comes if the
///   source failed, and `Memory` if an allocation failed. The new lines of the lines before it were written.
/// - `StoredKey` with line 1 and `Header`, with fingerprints: the first line is another one, or there is no line. Nothing
///   was written. The header is line 1, and it was written if an error is about a later line.
/// - `Write`: the writer failed, also where a later line has an error. The first `written` bytes of the whole output
///   went out.
pub fn run_rekey<A: Allocator + Copy, C: Read, I: Read, W: Write>(
    alloc: A,
    certificate: &mut Source<C>,
    input: &mut Source<I>,
    out: &mut Sink<W>,
    weighting: Weighting,
    depth: Depth,
    sums: Option<([u8; 32], [u8; 32])>,
) -> Result<KeySizes, RunFault>
    ensures { RekeysLines weighting depth sums (certificate.old ∷ []) (certificate.new ∷ []) input.old input.new out.old out.new result }
{
    let settings = settings_of(weighting, depth);
    match read_certificate_file(alloc, certificate) {
        Ok(certificate) => match KeyMover::new(alloc, certificate, settings) {
            Ok(change) => {
                let headers = key_headers(settings, sums);
                run_changes(alloc, change, input, out, headers)
            }
            Err(_) => Err(RunFault::Memory),
        },
        Err(fault) => Err(fault),
    }
}

/// As [`run_rekey`], but puts the compact key of each stored key in its place, by a book and without spaces. It returns how
/// many bytes the keys of all lines have, and their compact keys.
///
/// With the fingerprint `keys`, the first line of `input` has to be the header of keys with it. The output begins with the
/// header of their compact keys in its place. Its fingerprint is that of `keys` and of the book, as `compact_fingerprint` of
/// the crate `uca_fingerprint` makes it.
///
/// # Errors
///
/// Those of [`run_rekey`], with the book in place of the certificate. In place of `NoImage` it is `OtherKey`: the key is none
/// of this weighting and depth.
pub fn run_compact<A: Allocator + Copy, B: Read, I: Read, W: Write>(
    alloc: A,
    book: &mut Source<B>,
    input: &mut Source<I>,
    out: &mut Sink<W>,
    weighting: Weighting,
    depth: Depth,
    keys: Option<[u8; 32]>,
) -> Result<KeySizes, RunFault>
    ensures { CompactsLines weighting depth keys (book.old ∷ []) (book.new ∷ []) input.old input.new out.old out.new result }
{
    let settings = settings_of(weighting, depth);
    match read_book_file(alloc, book) {
        Ok(book) => {
            let headers = compact_headers(settings, &book, keys);
            let change = KeyCompacter::new(alloc, book, settings);
            run_changes(alloc, change, input, out, headers)
        }
        Err(fault) => Err(fault),
    }
}

/// As [`run_compact`] the other way round: puts the stored key of each compact key of the lines of `input` in its place. The
/// compact keys were made by this book, of keys of this weighting and depth. Of the bytes that it returns, `whole` are those
/// of the compact keys, and `compact` those of the keys that took their place.
///
/// With the fingerprint `keys`, the first line has to be the header of compact keys that were made by this book, of keys with
/// it. The header of these keys is written in its place.
///
/// # Errors
///
/// - `StoredKey` with `NoCompactKey`, in place of `OtherKey`: no key has these bytes as its compact key.
/// - The others of [`run_compact`]. `Header` is also the error at the header of compact keys by another book.
pub fn run_expand<A: Allocator + Copy, B: Read, I: Read, W: Write>(
    alloc: A,
    book: &mut Source<B>,
    input: &mut Source<I>,
    out: &mut Sink<W>,
    weighting: Weighting,
    depth: Depth,
    keys: Option<[u8; 32]>,
) -> Result<KeySizes, RunFault>
    ensures { ExpandsLines weighting depth keys (book.old ∷ []) (book.new ∷ []) input.old input.new out.old out.new result }
{
    let settings = settings_of(weighting, depth);
    match read_book_file(alloc, book) {
        Ok(book) => {
            let headers = swapped(compact_headers(settings, &book, keys));
            let change = KeyExpander::new(alloc, book, settings);
            run_changes(alloc, change, input, out, headers)
        }
        Err(fault) => Err(fault),
    }
}
