//! The call that C and a page make. Its clauses hold for every argument.

ghost use Rattle.std.specs.Prelude.{◌≡◌, ◌≢◌, ◌↔◌, ◌⊎◌, ◌∷◌, [], IfOk, map};
ghost use Rattle.std.specs.Str.{IsUtf8};
ghost use Rattle.uca_command_in_memory.specs.TextLists.{texts_in};
ghost use Rattle.uca_command_in_memory.specs.Results.{RunsInMemory, Tells, TellsNothing, TellsRun, kept_bytes, kept_count, rooms};

use crate::files::MadeFile;
use crate::given::texts_of;
use crate::lengths::Lengths;
use crate::statuses::{ARGUMENT, MEMORY};
use crate::work::{Ended, run};
use std::alloc::{AllocError, Global};

// Copies as many bytes as there is room for, and returns how many bytes there are.
fn copy_out(bytes: &[u8], room: &mut [u8]) -> usize
    ensures { Tells bytes.now room.old room.new result }
{
    let count = bytes.len().min(room.len());
    room[..count].copy_from_slice(&bytes[..count]);
    bytes.len()
}

// Copies the file that was kept, if there is one, and tells how many bytes and how many files there are.
fn copy_kept(file: Option<MadeFile>, room: &mut [u8]) -> (usize, usize)
    ensures bytes { Tells (kept_bytes file) room.old room.new result.0 }
    ensures count { result.1 ≡ kept_count file }
{
    match file {
        Some(file) => {
            let bytes = file.into_bytes();
            (copy_out(&bytes, room), 1)
        }
        None => (0, 0),
    }
}

// Runs the command of these lists.
fn run_lists(
    alloc: Global,
    arguments: &str,
    names: &str,
    files: &[&[u8]],
    input: &[u8],
) -> Result<Ended, AllocError>
    ensures { IfOk result (λ ended. RunsInMemory (texts_in arguments.now) (texts_in names.now) (map (λ file. file.now) files.now)
        input.now ended.status ended.out.items ended.err.items ended.kept) }
{
    let arguments = texts_of(alloc, arguments)?;
    let names = texts_of(alloc, names)?;
    Ok(run(alloc, &arguments, &names, files, input))
}

/// Runs the command of these arguments over files in the caller's memory, and returns its status, which is 0 to 4.
/// Between two arguments stands a NUL, and the first is the program's name. So it is with the names, which are those of
/// the files from the first on. The output, the errors and the file that the command makes are copied as far as there is
/// room for them, and `lengths` tells how many bytes they have.
///
/// Where the arguments or the names are not UTF-8, it returns 256. Where an allocation fails before the command begins, it
/// returns 257. Then no command ran, and all lengths are 0.
#[unsafe(no_mangle)]
pub extern "C" fn uca_run(
    alloc: Global,
    arguments: &[u8],
    names: &[u8],
    first: &[u8],
    second: &[u8],
    third: &[u8],
    fourth: &[u8],
    fifth: &[u8],
    sixth: &[u8],
    input: &[u8],
    out: &mut [u8],
    err: &mut [u8],
    kept: &mut [u8],
    lengths: &mut Lengths,
) -> u32
    ensures argument { (result ≡ ARGUMENT) ↔ (¬ (IsUtf8 arguments.now) ⊎ ¬ (IsUtf8 names.now)) }
    ensures ran { result ≢ ARGUMENT → result ≢ MEMORY → TellsRun arguments.now names.now
        (first.now ∷ second.now ∷ third.now ∷ fourth.now ∷ fifth.now ∷ sixth.now ∷ []) input.now
        (rooms out.old err.old kept.old) (rooms out.new err.new kept.new) lengths.new result }
    ensures unwritten { (result ≡ ARGUMENT) ⊎ (result ≡ MEMORY) →
        TellsNothing (rooms out.old err.old kept.old) (rooms out.new err.new kept.new) lengths.new }
{
    *lengths = Lengths::none();
    let (Ok(arguments), Ok(names)) = (str::from_utf8(arguments), str::from_utf8(names)) else {
        return ARGUMENT;
    };
    let files = [first, second, third, fourth, fifth, sixth];
    let Ok(ended) = run_lists(alloc, arguments, names, &files, input) else {
        return MEMORY;
    };
    let (kept, files) = copy_kept(ended.kept, kept);
    *lengths = Lengths {
        out: copy_out(&ended.out, out),
        err: copy_out(&ended.err, err),
        kept,
        files,
    };
    ended.status.into()
}
