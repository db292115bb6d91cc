//! The subcommands that work with changes from a table and its data file to others: `changes`, `audit-changes` and `rekey`.

ghost use Rattle.std.specs.Prelude.{◌≡◌, ◌∷◌, [], option_map};
ghost use Rattle.uca_cli.specs.Command.{DoesAuditChanges, DoesChanges, DoesRekey, Finds, KeepsAndPrints, KeepsMade, MakesOpened, made_changes, streams, sums_of};
ghost use Rattle.uca_host.specs.NamedFiles.{edition_files, file_system};

use crate::printing::print_changes;
use crate::statuses::{checked, done};
use std::alloc::Global;
use std::io::{Read, Write};
use uca_change_runs::{run_audit_changes, run_changes};
use uca_editions::ListedChanges;
use uca_host::Opens;
use uca_host::files::keeping::{find_certificate_of_editions, keep_certificate};
use uca_host::files::opening::{open_change_files, open_editions, open_one};
use uca_rekey::run_rekey;
use uca_run_parts::faults::{Role, RunFault};
use uca_weights::{Sink, Source, Weighting};
use uca_words::{AuditChangesWords, ChangesWords, EditionNames, Fingerprints, RekeyWords};

pub(crate) fn changes<O: Opens, W: Write>(
    alloc: Global,
    opener: &mut O,
    words: &ChangesWords,
    out: &mut Sink<W>,
) -> Result<u8, RunFault>
    ensures { DoesChanges (file_system O.calls O.File.remaining O.Made.contents)
        opener.old opener.new words.now out.old out.new result }
{
    match find_certificate_of_editions(opener, &words.editions, words.certificate) {
        Ok(()) => change_files(alloc, opener, &words.editions, words.certificate, out),
        Err(role) => Err(RunFault::SameAs(role)),
    }
}

// `changes`, where the certificate is none of the files that are read.
fn change_files<O: Opens, W: Write>(
    alloc: Global,
    opener: &mut O,
    names: &EditionNames,
    certificate: &str,
    out: &mut Sink<W>,
) -> Result<u8, RunFault>
    ensures { MakesOpened (file_system O.calls O.File.remaining O.Made.contents)
        opener.old opener.new (edition_files names.now) certificate.now Finds made_changes out.old out.new result }
{
    match open_editions(opener, names) {
        Ok(mut files) => {
            let run = run_changes(
                alloc,
                &mut files.old,
                &mut files.old_data,
                &mut files.new,
                &mut files.new_data,
            );
            let kept = keep_run(opener, run, certificate, out);
            drop(files);
            kept
        }
        Err(role) => Err(RunFault::Open(role)),
    }
}

// Keeps what a run of changes returned. An error of the run is returned, and then nothing is made.
fn keep_run<O: Opens, W: Write>(
    opener: &mut O,
    run: Result<ListedChanges, RunFault>,
    name: &str,
    out: &mut Sink<W>,
) -> Result<u8, RunFault>
    ensures { KeepsMade (file_system O.calls O.File.remaining O.Made.contents)
        opener.old opener.new name.now out.old out.new made_changes run result }
{
    match run {
        Ok(found) => {
            let kept = keep_found(opener, &found, name, out);
            drop(found);
            kept
        }
        Err(fault) => Err(fault),
    }
}

// Keeps the certificate, and writes the changes where the certificate is kept.
fn keep_found<O: Opens, W: Write>(
    opener: &mut O,
    found: &ListedChanges,
    name: &str,
    out: &mut Sink<W>,
) -> Result<u8, RunFault>
    ensures { KeepsAndPrints (file_system O.calls O.File.remaining O.Made.contents)
        opener.old opener.new name.now (made_changes found.now) out.old out.new result }
{
    keep_certificate(opener, &found.certificate, name)?;
    print_changes(&found.list, out)
}

pub(crate) fn audit_changes<O: Opens, W: Write>(
    alloc: Global,
    opener: &mut O,
    words: &AuditChangesWords,
    out: &mut Sink<W>,
) -> Result<u8, RunFault>
    ensures { DoesAuditChanges (file_system O.calls O.File.remaining O.Made.contents)
        opener.old opener.new words.now out.old out.new result }
{
    match open_change_files(opener, &words.editions, words.changes, words.certificate) {
        Ok(mut files) => {
            let run = run_audit_changes(
                alloc,
                &mut files.editions.old,
                &mut files.editions.old_data,
                &mut files.editions.new,
                &mut files.editions.new_data,
                &mut files.changes,
                &mut files.certificate,
                out,
            );
            drop(files);
            checked(run)
        }
        Err(role) => Err(RunFault::Open(role)),
    }
}

pub(crate) fn rekey<O: Opens, I: Read, W: Write>(
    alloc: Global,
    opener: &mut O,
    words: &RekeyWords,
    input: &mut Source<I>,
    out: &mut Sink<W>,
) -> Result<u8, RunFault>
    ensures { DoesRekey (file_system O.calls O.File.remaining O.Made.contents)
        opener.old opener.new words.now (streams input.old out.old) (streams input.new out.new) result }
{
    match open_one(opener, Role::Certificate, words.certificate) {
        Ok(mut certificate) => {
            let weighting = words.weighting.unwrap_or(Weighting::Shifted);
            let sums = sums_of(words.fingerprints);
            done(run_rekey(
                alloc,
                &mut certificate,
                input,
                out,
                weighting,
                words.depth,
                sums,
            ))
        }
        Err(role) => Err(RunFault::Open(role)),
    }
}

// The fingerprints of the old header and of the new one, if they are given.
fn sums_of(given: Option<Fingerprints>) -> Option<([u8; 32], [u8; 32])>
    ensures { result ≡ option_map sums_of given }
{
    match given {
        Some(given) => {
            let from = given.from;
            let to = given.to;
            Some((from, to))
        }
        None => None,
    }
}
