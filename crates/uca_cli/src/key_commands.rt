//! The subcommand `keys`: of keys, and with a book of compact keys.

ghost use Rattle.std.specs.Prelude.{◌≡◌};
ghost use Rattle.uca_cli.specs.Command.{DoesKeys, output_of, streams};
ghost use Rattle.uca_host.specs.NamedFiles.{file_system};

use crate::booked_files::open_booked;
use crate::command::asked_for;
use crate::statuses::done;
use std::alloc::Global;
use std::io::{Read, Write};
use uca_host::Opens;
use uca_key_runs::{KeyOutput, run_keys_as};
use uca_run_parts::KeySizes;
use uca_run_parts::faults::RunFault;
use uca_weights::{Sink, Source};
use uca_words::KeysWords;

pub(crate) fn keys<O: Opens, I: Read, W: Write>(
    alloc: Global,
    opener: &mut O,
    words: &KeysWords,
    input: &mut Source<I>,
    out: &mut Sink<W>,
    sizes: &mut KeySizes,
) -> Result<u8, RunFault>
    ensures { DoesKeys (file_system O.calls O.File.remaining O.Made.contents)
        opener.old opener.new words.now (streams input.old out.old) (streams input.new out.new) result }
{
    match open_booked(opener, words.table, words.properties, words.compact) {
        Ok((mut table, mut properties, mut book)) => done(run_keys_as(
            alloc,
            alloc,
            &mut table,
            &mut properties,
            &mut book,
            input,
            out,
            asked_for(words.weighting, words.depth, words.numbers),
            output_of(words),
            sizes,
        )),
        Err(role) => Err(RunFault::Open(role)),
    }
}

// What the output has beside keys.
fn output_of(words: &KeysWords) -> KeyOutput
    ensures { result ≡ output_of words.now }
{
    KeyOutput {
        lines: words.lines,
        header: words.header,
    }
}
