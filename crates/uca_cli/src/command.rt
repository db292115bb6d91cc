//! The command: it reads its arguments, opens the files that they name, and calls the run.

ghost use Rattle.std.specs.Prelude.{false, ◌∷◌, [], ⊤, ℕ, Bool, List, Result, ◌≡◌};
ghost use Rattle.clap.specs.Walk.{texts};
ghost use Rattle.uca_cli.specs.Command.{DoesAffected, DoesAudit, DoesCheck, DoesCommand, DoesCompare, DoesSort, DoesTailor, DoesWords, EndsWith, KeepsAndPrints, KeepsMade, MakesOpened, affected_by, asked_for, files_of_tailor, made_table, may_advise, streams};
ghost use Rattle.uca_host.specs.NamedFiles.{affected_role, file_system};
ghost use Rattle.uca_run_parts.specs.AffectedRun.{PrintsAffected};
ghost use Rattle.uca_tailor_runs.specs.TailorRun.{TailorsFiles};

use crate::book_commands::{compact, expand, print_book};
use crate::change_commands::{audit_changes, changes, rekey};
use crate::fingerprint_commands::fingerprint;
use crate::key_commands::keys;
use crate::printing::print_table;
use crate::statuses::{checked, done};
use std::alloc::Global;
use std::io::{Read, Write};
use uca_certificates::Certificate;
use uca_change_runs::run_affected_by_changes;
use uca_host::files::keeping::{find_certificate, keep_certificate};
use uca_host::files::opening::{open_audit_files, open_files, open_three, open_two};
use uca_host::{Opens, report, write_book_help, write_help};
use uca_key_runs::{run_compare_in, run_sort_in};
use uca_run_parts::faults::{Role, RunFault};
use uca_run_parts::{KeySizes, run_affected, run_check};
use uca_tailor_runs::{run_audit, run_tailor};
use uca_values::Table;
use uca_weights::{Asked, Depth, Numbers, Sink, Source, Weighting};
use uca_words::{
    AffectedWords, AuditWords, CheckWords, CompareWords, SortWords, TailorWords, Words, read_words,
};

fn check<O: Opens, W: Write>(
    alloc: Global,
    opener: &mut O,
    words: &CheckWords,
    out: &mut Sink<W>,
) -> Result<u8, RunFault>
    ensures { DoesCheck (file_system O.calls O.File.remaining O.Made.contents)
        opener.old opener.new words.now out.old out.new result }
{
    match open_files(opener, words.table, words.properties) {
        Ok((mut table, mut properties)) => {
            checked(run_check(alloc, &mut table, &mut properties, out))
        }
        Err(role) => Err(RunFault::Open(role)),
    }
}

// The settings that are asked for.
pub(crate) fn asked_for(weighting: Option<Weighting>, depth: Depth, numbers: Numbers) -> Asked
    ensures { result ≡ asked_for weighting depth numbers }
{
    Asked {
        weighting,
        depth,
        numbers,
    }
}

fn sort<O: Opens, I: Read, W: Write>(
    alloc: Global,
    opener: &mut O,
    words: &SortWords,
    input: &mut Source<I>,
    out: &mut Sink<W>,
) -> Result<u8, RunFault>
    ensures { DoesSort (file_system O.calls O.File.remaining O.Made.contents)
        opener.old opener.new words.now (streams input.old out.old) (streams input.new out.new) result }
{
    match open_files(opener, words.table, words.properties) {
        Ok((mut table, mut properties)) => done(run_sort_in(
            alloc,
            alloc,
            &mut table,
            &mut properties,
            input,
            out,
            asked_for(words.weighting, words.depth, words.numbers),
        )),
        Err(role) => Err(RunFault::Open(role)),
    }
}

fn compare<O: Opens, W: Write>(
    alloc: Global,
    opener: &mut O,
    words: &CompareWords,
    out: &mut Sink<W>,
) -> Result<u8, RunFault>
    ensures { DoesCompare (file_system O.calls O.File.remaining O.Made.contents)
        opener.old opener.new words.now out.old out.new result }
{
    match open_files(opener, words.table, words.properties) {
        Ok((mut table, mut properties)) => done(run_compare_in(
            alloc,
            alloc,
            &mut table,
            &mut properties,
            words.left,
            words.right,
            out,
            asked_for(words.weighting, words.depth, words.numbers),
        )),
        Err(role) => Err(RunFault::Open(role)),
    }
}

fn tailor<O: Opens, W: Write>(
    alloc: Global,
    opener: &mut O,
    words: &TailorWords,
    out: &mut Sink<W>,
) -> Result<u8, RunFault>
    ensures { DoesTailor (file_system O.calls O.File.remaining O.Made.contents)
        opener.old opener.new words.now out.old out.new result }
{
    match find_certificate(
        opener,
        words.table,
        words.properties,
        words.rules,
        words.certificate,
    ) {
        Ok(()) => tailor_files(alloc, opener, words, out),
        Err(role) => Err(RunFault::SameAs(role)),
    }
}

// `tailor`, where the certificate is none of the files that are read.
fn tailor_files<O: Opens, W: Write>(
    alloc: Global,
    opener: &mut O,
    words: &TailorWords,
    out: &mut Sink<W>,
) -> Result<u8, RunFault>
    ensures { MakesOpened (file_system O.calls O.File.remaining O.Made.contents)
        opener.old opener.new (files_of_tailor words.now) words.now.certificate.now TailorsFiles made_table out.old out.new result }
{
    match open_three(
        opener,
        Role::Table,
        words.table,
        Role::Data,
        words.properties,
        Role::Rules,
        words.rules,
    ) {
        Ok((mut table, mut properties, mut rules)) => {
            let run = run_tailor(alloc, &mut table, &mut properties, &mut rules);
            keep_run(opener, run, words.certificate, out)
        }
        Err(role) => Err(RunFault::Open(role)),
    }
}

// Keeps what a run of tailor returned. An error of the run is returned, and then nothing is made.
fn keep_run<O: Opens, W: Write>(
    opener: &mut O,
    run: Result<(Table, Certificate), RunFault>,
    name: &str,
    out: &mut Sink<W>,
) -> Result<u8, RunFault>
    ensures { KeepsMade (file_system O.calls O.File.remaining O.Made.contents)
        opener.old opener.new name.now out.old out.new made_table run result }
{
    match run {
        Ok((table, certificate)) => {
            let kept = keep_tailored(opener, &table, &certificate, name, out);
            drop(table);
            drop(certificate);
            kept
        }
        Err(fault) => Err(fault),
    }
}

// Keeps the certificate, and writes the table where the certificate is kept.
fn keep_tailored<O: Opens, W: Write>(
    opener: &mut O,
    table: &Table,
    certificate: &Certificate,
    name: &str,
    out: &mut Sink<W>,
) -> Result<u8, RunFault>
    ensures { KeepsAndPrints (file_system O.calls O.File.remaining O.Made.contents)
        opener.old opener.new name.now (made_table (table.now, certificate.now)) out.old out.new result }
{
    keep_certificate(opener, certificate, name)?;
    print_table(table, out)
}

fn audit<O: Opens, W: Write>(
    alloc: Global,
    opener: &mut O,
    words: &AuditWords,
    out: &mut Sink<W>,
) -> Result<u8, RunFault>
    ensures { DoesAudit (file_system O.calls O.File.remaining O.Made.contents)
        opener.old opener.new words.now out.old out.new result }
{
    match open_audit_files(
        opener,
        words.base,
        words.properties,
        words.rules,
        words.tailored,
        words.certificate,
    ) {
        Ok(mut files) => {
            let run = run_audit(
                alloc,
                &mut files.base,
                &mut files.properties,
                &mut files.rules,
                &mut files.tailored,
                &mut files.certificate,
                out,
            );
            drop(files);
            checked(run)
        }
        Err(role) => Err(RunFault::Open(role)),
    }
}

fn affected<O: Opens, I: Read, W: Write>(
    alloc: Global,
    opener: &mut O,
    words: &AffectedWords,
    input: &mut Source<I>,
    out: &mut Sink<W>,
) -> Result<u8, RunFault>
    ensures { DoesAffected (file_system O.calls O.File.remaining O.Made.contents)
        opener.old opener.new words.now (streams input.old out.old) (streams input.new out.new) result }
{
    match open_two(
        opener,
        Role::Data,
        words.properties,
        affected_role(words.changes),
        words.rules,
    ) {
        Ok((mut properties, mut rules)) => done(print_lines(
            alloc,
            words.changes,
            words.numbers,
            &mut properties,
            &mut rules,
            input,
            out,
        )),
        Err(role) => Err(RunFault::Open(role)),
    }
}

// What the second file of `affected` is.
fn affected_role(changes: bool) -> Role
    ensures { result ≡ affected_role changes }
{
    if changes { Role::Changes } else { Role::Rules }
}

// The run of `affected`: by changes, or by rules.
fn print_lines<D: Read, U: Read, I: Read, W: Write>(
    alloc: Global,
    changes: bool,
    numbers: Numbers,
    properties: &mut Source<D>,
    rules: &mut Source<U>,
    input: &mut Source<I>,
    out: &mut Sink<W>,
) -> Result<(), RunFault>
    ensures { PrintsAffected (affected_by changes) numbers (properties.old ∷ rules.old ∷ []) (properties.new ∷ rules.new ∷ [])
        input.old input.new out.old out.new result }
{
    if changes {
        run_affected_by_changes(alloc, alloc, properties, rules, input, out, numbers)
    } else {
        run_affected(alloc, alloc, properties, rules, input, out, numbers)
    }
}

// Does what the arguments say, and returns the status of what was done. `sizes` gets the bytes of keys and of their compact keys, where
// these are made.
fn run_words<O: Opens, I: Read, W: Write>(
    alloc: Global,
    opener: &mut O,
    asked: &Words,
    input: &mut Source<I>,
    out: &mut Sink<W>,
    sizes: &mut KeySizes,
) -> Result<u8, RunFault>
    ensures { DoesWords (file_system O.calls O.File.remaining O.Made.contents)
        opener.old opener.new asked.now (streams input.old out.old) (streams input.new out.new) result }
{
    match asked {
        Words::Check(words) => check(alloc, opener, words, out),
        Words::Keys(words) => keys(alloc, opener, words, input, out, sizes),
        Words::Sort(words) => sort(alloc, opener, words, input, out),
        Words::Compare(words) => compare(alloc, opener, words, out),
        Words::Tailor(words) => tailor(alloc, opener, words, out),
        Words::Audit(words) => audit(alloc, opener, words, out),
        Words::Affected(words) => affected(alloc, opener, words, input, out),
        Words::Changes(words) => changes(alloc, opener, words, out),
        Words::AuditChanges(words) => audit_changes(alloc, opener, words, out),
        Words::Rekey(words) => rekey(alloc, opener, words, input, out),
        Words::Compact(words) => compact(alloc, opener, words, input, out, sizes),
        Words::Expand(words) => expand(alloc, opener, words, input, out),
        Words::Book(words) => print_book(alloc, opener, words, out),
        Words::Fingerprint(words) => fingerprint(alloc, opener, words, out),
    }
}

// Whether a line of help may follow a run that was done.
fn may_advise(asked: &Words) -> bool
    ensures { result ≡ may_advise asked.now }
{
    match asked {
        Words::Keys(words) => words.compact.is_some(),
        Words::Compact(_) => true,
        _ => false,
    }
}

// The status that the command ends with after a run with these arguments. It says where compact keys are long, or reports an error and says what
// to do.
fn status_of<W: Write, E: Write>(
    alloc: Global,
    run: Result<u8, RunFault>,
    asked: &Words,
    sizes: &KeySizes,
    out: &mut Sink<W>,
    err: &mut Sink<E>,
) -> u8
    ensures { EndsWith run (may_advise asked.now) result out.old out.new err.old err.new }
{
    match run {
        Ok(status) => {
            if may_advise(asked) {
                write_book_help(alloc, sizes, err);
            }
            status
        }
        Err(fault) => status_after(alloc, fault, Some(asked), out, err),
    }
}

// The status after an error, which is reported. The arguments, if they are known, name the files.
fn status_after<W: Write, E: Write>(
    alloc: Global,
    fault: RunFault,
    asked: Option<&Words>,
    out: &mut Sink<W>,
    err: &mut Sink<E>,
) -> u8
    ensures { EndsWith (Err fault) false result out.old out.new err.old err.new }
{
    let status = report(alloc, &fault, out, err);
    write_help(alloc, &fault, asked, err);
    drop(fault);
    status
}

/// Runs a command line, whose first argument is the program's name, and returns the exit status. It reads the
/// arguments, opens all files that they name, in the order of the arguments, and then runs over them. It reports an
/// error, and says in a line after it what to do. If it rejects the arguments, it opens and reads nothing. It does the
/// same if `tailor` or `changes` is to write the certificate over a file that it reads. No other command makes a file. Where compact keys
/// are long, a line of help says so.
pub fn run_command<'a, O: Opens, I: Read, W: Write, E: Write>(
    alloc: Global,
    opener: &mut O,
    words: &'a [&'a str],
    input: &mut Source<I>,
    out: &mut Sink<W>,
    err: &mut Sink<E>,
) -> u8
    ensures { DoesCommand (file_system O.calls O.File.remaining O.Made.contents)
        opener.old opener.new (texts words.entry.now) (streams input.old out.old) (streams input.new out.new) err.old err.new result }
{
    match read_words(alloc, words) {
        Ok(asked) => {
            let mut sizes = KeySizes::new();
            let run = run_words(alloc, opener, &asked, input, out, &mut sizes);
            status_of(alloc, run, &asked, &sizes, out, err)
        }
        Err(fault) => status_after(alloc, RunFault::Words(fault), None, out, err),
    }
}
