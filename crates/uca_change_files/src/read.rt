//! Reads a file of changes line by line, up to its end or its first error.

ghost use Rattle.std.specs.Prelude.{◌≡◌, ◌||◌, IfOk, IfErr, IfSome, MatchResult};
ghost use Rattle.uca_lines.specs.FileStops.{IsStop, is_read};
ghost use Rattle.uca_change_files.specs.Changes.{ChangeContent};
ghost use Rattle.uca_change_files.specs.ChangeTexts.{Means, Refuses};

use crate::ChangeList;
use crate::lines::ChangesSoFar;
use std::alloc::Allocator;
use std::io::Read;
use uca_lines::files::read_lines;
use uca_values::{FaultKind, TableFault};
use uca_weights::Source;

/// Reads a file of changes. Its first line is `@changes 1`. Then comes a line `text CP CP ..` for each text, of 1 to 16
/// code points, and then a line `range FIRST..LAST` for each range. Texts rise by code points, and so do ranges.
///
/// A list of changes has one spelling. There is one space between words. A code point has at least four upper-case
/// digits, and no further leading zeros. An LF ends each line. There are neither comments nor empty lines.
///
/// # Errors
///
/// The first line that is rejected, and why. If a line has several causes, the first in this order is returned.
///
/// - `Limit`: line 1,000,001, or a line of more than 4,096 bytes without its LF.
/// - `Order`: another line where `@changes 1` must come. A file without lines is rejected so at line 1.
/// - `Line`: it lists neither a text nor a range.
/// - `Order`: a text after a range, or a text that is not above the one before it. Or a range that does not begin after
///   the end of the one before it.
/// - `Line`: no LF ends the line.
///
/// `Read` (the source failed) and `Memory` (an allocation failed) come with the line that was being read.
pub fn read_changes<A: Allocator + Copy, R: Read>(
    alloc: A,
    source: &mut Source<R>,
) -> Result<ChangeList<A>, TableFault>
    // Where the bytes are known.
    ensures found { IfSome source.old.remaining (λ bytes. IfOk result (Means bytes)) }
    ensures only { IfSome source.old.remaining (λ bytes. (content : ChangeContent) → Means bytes content →
        MatchResult result (λ read. read ≡ content) (λ fault. IsStop fault.kind)) }
    ensures fault { IfSome source.old.remaining (λ bytes. IfErr result (Refuses bytes source.new.remaining)) }

    // At any source.
    ensures failed { source.new.failed ≡ (source.old.failed || is_read result) }
{
    read_to_end(alloc, source)
}

fn read_to_end<A: Allocator + Copy, R: Read>(
    alloc: A,
    source: &mut Source<R>,
) -> Result<ChangeList<A>, TableFault>
    ensures found { IfSome source.old.remaining (λ bytes. IfOk result (Means bytes)) }
    ensures fault { IfSome source.old.remaining (λ bytes. IfErr result (Refuses bytes source.new.remaining)) }
    ensures failed { source.new.failed ≡ (source.old.failed || is_read result) }
{
    let mut so_far = ChangesSoFar {
        alloc,
        started: false,
        list: ChangeList::new(alloc),
    };
    match read_lines(alloc, source, &mut so_far) {
        Ok(count) => {
            if so_far.started {
                Ok(so_far.list)
            } else {
                Err(TableFault {
                    line: count + 1,
                    kind: FaultKind::Order,
                })
            }
        }
        Err(fault) => Err(TableFault::from(fault)),
    }
}
