//! Reads a data file line by line, up to its end or its first error.

ghost use Rattle.std.specs.Prelude.{◌≡◌, ◌||◌, IfOk, IfErr, IfSome, MatchResult};
ghost use Rattle.uca_values.specs.Content.{Properties, properties_of};
ghost use Rattle.uca_lines.specs.FileStops.{IsStop, is_read};
ghost use Rattle.uca_table.specs.DataSoFar.{Means, Refuses};

use crate::data_file::so_far::DataSoFar;
use std::alloc::Allocator;
use std::io::Read;
use uca_lines::files::read_lines;
use uca_values::{Data, FaultKind, TableFault};
use uca_weights::Source;

/// Reads a data file: the combining classes of code points (UAX #44), and which of them are core Han or
/// other unified ideographs (UTS #10, section 10.1.3).
///
/// The first line that is not empty is `@data 1`. Then come, in any order, lines `ccc FIRST..LAST N`,
/// `core FIRST..LAST` and `other FIRST..LAST`, with one or more blanks between the words. `#` begins a
/// comment.
///
/// # Errors
///
/// The first line that is rejected, and why. If a line has several causes, the first in this order is returned.
///
/// - `Limit`: line 1,000,001, or a line of more than 4,096 bytes without its LF.
/// - `Order`: another line where `@data 1` must come, or `@data 1` a second time. A file that ends without
///   it is rejected with the number of its lines plus one.
/// - `Line`: another first word, another number of words, or no `..` in the range.
/// - `CodePoint`: an end of the range is not a code point.
/// - `Weight`: the class is not a decimal number from 1 to 254 without leading zeros.
/// - `Range`: the first code point is greater than the last, or the range overlaps an earlier one. A `ccc`
///   range may overlap no `ccc` range, and a `core` or `other` range may overlap no range of these two.
/// - `Limit`: line 4,097 of a kind.
/// - `Line`: no LF ends the line.
///
/// `Read` (the source failed) and `Memory` (an allocation failed) come with the line that was being
/// read.
pub fn read_data<A: Allocator + Copy, R: Read>(
    alloc: A,
    source: &mut Source<R>,
) -> Result<Data<A>, TableFault>
    // Where the bytes are known.
    ensures found { IfSome source.old.remaining (λ bytes. IfOk result (λ read.
        Means bytes (properties_of read))) }
    ensures only { IfSome source.old.remaining (λ bytes. (properties : Properties) → Means bytes properties →
        MatchResult result (λ read. properties_of read ≡ properties) (λ fault. IsStop fault.kind)) }
    ensures fault { IfSome source.old.remaining (λ bytes. IfErr result (Refuses bytes source.new.remaining)) }

    // At any source.
    ensures failed { source.new.failed ≡ (source.old.failed || is_read result) }
{
    read_to_end(alloc, source)
}

fn read_to_end<A: Allocator + Copy, R: Read>(
    alloc: A,
    source: &mut Source<R>,
) -> Result<Data<A>, TableFault>
    ensures found { IfSome source.old.remaining (λ bytes. IfOk result (λ read.
        Means bytes (properties_of read))) }
    ensures fault { IfSome source.old.remaining (λ bytes. IfErr result (Refuses bytes source.new.remaining)) }
    ensures failed { source.new.failed ≡ (source.old.failed || is_read result) }
{
    let mut so_far = DataSoFar {
        started: false,
        data: Data::new(alloc),
    };
    match read_lines(alloc, source, &mut so_far) {
        Ok(_) if so_far.started => Ok(so_far.data),
        Ok(count) => {
            drop(so_far);
            Err(TableFault {
                line: count + 1,
                kind: FaultKind::Order,
            })
        }
        Err(fault) => {
            drop(so_far);
            Err(fault.into())
        }
    }
}
