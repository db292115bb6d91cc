//! The subcommands that put other keys in place of stored keys by a book: `compact` and `expand`. And `book`, which prints a
//! book for keys of a new edition.

ghost use Rattle.std.specs.Prelude.{◌≡◌, ◌∷◌, []};
ghost use Rattle.uca_cli.specs.Command.{DoesBook, DoesCompact, DoesExpand, done_result, streams};
ghost use Rattle.uca_host.specs.NamedFiles.{file_system};

use crate::statuses::done;
use std::alloc::Global;
use std::io::{Read, Write};
use uca_change_runs::run_book;
use uca_host::files::opening::{open_one, open_two};
use uca_host::{DONE, Opens};
use uca_rekey::{run_compact, run_expand};
use uca_run_parts::KeySizes;
use uca_run_parts::faults::{Role, RunFault};
use uca_weights::{Depth, Sink, Source, Weighting};
use uca_words::{BookImageWords, BookWords};

pub(crate) fn compact<O: Opens, I: Read, W: Write>(
    alloc: Global,
    opener: &mut O,
    words: &BookWords,
    input: &mut Source<I>,
    out: &mut Sink<W>,
    sizes: &mut KeySizes,
) -> Result<u8, RunFault>
    ensures { DoesCompact (file_system O.calls O.File.remaining O.Made.contents)
        opener.old opener.new words.now (streams input.old out.old) (streams input.new out.new) result }
{
    match open_one(opener, Role::Book, words.book) {
        Ok(mut book) => {
            let weighting = words.weighting.unwrap_or(Weighting::Shifted);
            let run = run_compact(
                alloc,
                &mut book,
                input,
                out,
                weighting,
                words.depth,
                words.keys,
            );
            counted(run, sizes, weighting, words.depth)
        }
        Err(role) => Err(RunFault::Open(role)),
    }
}

// The status of a run of `compact`. `sizes` gets the bytes of the keys and of their compact keys.
fn counted(
    run: Result<KeySizes, RunFault>,
    sizes: &mut KeySizes,
    weighting: Weighting,
    depth: Depth,
) -> Result<u8, RunFault>
    ensures { result ≡ done_result run }
{
    match run {
        Ok(made) => {
            *sizes = made.at(weighting, depth);
            Ok(DONE)
        }
        Err(fault) => Err(fault),
    }
}

pub(crate) fn expand<O: Opens, I: Read, W: Write>(
    alloc: Global,
    opener: &mut O,
    words: &BookWords,
    input: &mut Source<I>,
    out: &mut Sink<W>,
) -> Result<u8, RunFault>
    ensures { DoesExpand (file_system O.calls O.File.remaining O.Made.contents)
        opener.old opener.new words.now (streams input.old out.old) (streams input.new out.new) result }
{
    match open_one(opener, Role::Book, words.book) {
        Ok(mut book) => {
            let weighting = words.weighting.unwrap_or(Weighting::Shifted);
            done(run_expand(
                alloc,
                &mut book,
                input,
                out,
                weighting,
                words.depth,
                words.keys,
            ))
        }
        Err(role) => Err(RunFault::Open(role)),
    }
}

pub(crate) fn print_book<O: Opens, W: Write>(
    alloc: Global,
    opener: &mut O,
    words: &BookImageWords,
    out: &mut Sink<W>,
) -> Result<u8, RunFault>
    ensures { DoesBook (file_system O.calls O.File.remaining O.Made.contents)
        opener.old opener.new words.now out.old out.new result }
{
    match open_two(
        opener,
        Role::Certificate,
        words.certificate,
        Role::Book,
        words.book,
    ) {
        Ok((mut certificate, mut book)) => done(run_book(alloc, &mut certificate, &mut book, out)),
        Err(role) => Err(RunFault::Open(role)),
    }
}
