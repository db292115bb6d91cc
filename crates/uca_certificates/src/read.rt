//! Reads a certificate line by line, and then makes a map of the runs of each level.

ghost use Rattle.std.specs.Prelude.{◌≡◌, ◌||◌, IfOk, IfErr, IfSome, MatchResult};
ghost use Rattle.uca_certificates.specs.Certificates.{CertificateContent};
ghost use Rattle.uca_certificates.specs.Texts.{IsStop, Means, Refuses, is_read};

use crate::lines::CertificateLines;
use crate::{Certificate, CertificateFault};
use std::alloc::Allocator;
use std::io::Read;
use uca_lines::files::read_lines;
use uca_weights::Source;

/// Reads a certificate: a line `LEVEL FROM TO COUNT` for each run, ended by LF, with levels that never fall. LEVEL is
/// `1`, `2` or `3`. The others are four upper-case hexadecimal digits each, with one space between. There are no
/// comments and no empty lines.
///
/// # Errors
///
/// The first line that is rejected, and why. If a line has several causes, the first in this order is returned.
///
/// - `Line`: no LF ends it, or it has another format.
/// - `Order`: its level is lower than that of the line before.
/// - `Limit`: it is run 65,536 of its level.
///
/// If all lines are acceptable: `Map` for the lowest level whose runs make no map, with its first error. The line is
/// that of the run, or for `Fixed` the number of lines plus one. `Read` (the source failed) and `Memory` (an allocation
/// failed) come with the line that was being read.
pub fn read_certificate<R: Read, A: Allocator + Copy>(
    alloc: A,
    source: &mut Source<R>,
) -> Result<Certificate<A>, CertificateFault>
    // Where the bytes are known.
    ensures found { IfSome source.old.remaining (λ bytes. IfOk result (Means bytes)) }
    ensures only { IfSome source.old.remaining (λ bytes. (content : CertificateContent) → Means bytes content →
        MatchResult result (λ read. read ≡ content) (λ fault. IsStop fault.kind)) }
    ensures fault { IfSome source.old.remaining (λ bytes. IfErr result (Refuses bytes source.new.remaining)) }

    // At any source.
    ensures failed { source.new.failed ≡ (source.old.failed || is_read result) }
{
    read_to_end(alloc, source)
}

fn read_to_end<R: Read, A: Allocator + Copy>(
    alloc: A,
    source: &mut Source<R>,
) -> Result<Certificate<A>, CertificateFault>
    ensures found { IfSome source.old.remaining (λ bytes. IfOk result (Means bytes)) }
    ensures fault { IfSome source.old.remaining (λ bytes. IfErr result (Refuses bytes source.new.remaining)) }
    ensures failed { source.new.failed ≡ (source.old.failed || is_read result) }
{
    let mut lines = CertificateLines::new(alloc);
    read_lines(alloc, source, &mut lines)?;
    lines.into_certificate()
}
