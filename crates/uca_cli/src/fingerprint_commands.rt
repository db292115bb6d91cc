//! The subcommand `fingerprint`: of keys, and with a book of compact keys.

ghost use Rattle.std.specs.Prelude.{◌≡◌};
ghost use Rattle.uca_cli.specs.Command.{DoesFingerprint};
ghost use Rattle.uca_host.specs.NamedFiles.{file_system};

use crate::booked_files::open_booked;
use crate::command::asked_for;
use crate::statuses::done;
use std::alloc::Global;
use std::io::Write;
use uca_fingerprint_runs::run_fingerprint;
use uca_host::Opens;
use uca_run_parts::faults::RunFault;
use uca_weights::Sink;
use uca_words::FingerprintWords;

pub(crate) fn fingerprint<O: Opens, W: Write>(
    alloc: Global,
    opener: &mut O,
    words: &FingerprintWords,
    out: &mut Sink<W>,
) -> Result<u8, RunFault>
    ensures { DoesFingerprint (file_system O.calls O.File.remaining O.Made.contents)
        opener.old opener.new words.now out.old out.new result }
{
    match open_booked(opener, words.table, words.properties, words.book) {
        Ok((mut table, mut properties, mut book)) => done(run_fingerprint(
            alloc,
            &mut table,
            &mut properties,
            &mut book,
            out,
            asked_for(words.weighting, words.depth, words.numbers),
        )),
        Err(role) => Err(RunFault::Open(role)),
    }
}
