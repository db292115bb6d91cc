//! The run that compares two texts. It has two arguments in place of the input, and compares them without keys
//! (`TextComparison` of `uca_text_comparer`).

ghost use Rattle.std.specs.Prelude.{◌≡◌, ◌∷◌, [], ◌≤◌, ◌||◌, true, false};
ghost use Rattle.uca_weights.specs.AskedSettings.{as_text};
ghost use Rattle.uca_order.specs.Keyings.{keying_of};
ghost use Rattle.uca_run_parts.specs.Files.{ended_by_file};
ghost use Rattle.uca_run_parts.specs.Runs.{ended_before_output, ended_by_output};
ghost use Rattle.uca_key_runs.specs.CompareRun.{comparison_line, Compares, WritesComparison, comparing};

use crate::collations::read_collation;
use std::alloc::{Allocator, Global};
use std::cmp::Ordering;
use std::io::{Read, Write};
use uca_comparison::Compared;
use uca_elements::{Collator, Lookup};
use uca_run_parts::faults::RunFault;
use uca_run_parts::output::write_text;
use uca_text_comparer::{PairFault, TextComparison};
use uca_weights::{Asked, Depth, Settings, Sink, Source, Weighting};

/// Compares two texts, and writes a line: `<`, `=` or `>`, one space, and the level at which they differ, or 0 if none
/// does. The texts are in `global` while they are compared, and what is known of their code points is in `alloc`. No key
/// is made.
///
/// # Errors
///
/// `Text` if what is read of the left text, or else of the right one, is rejected: nothing was written. If an allocation
/// for both failed, it is `Memory` of the left one. `Write` if the writer failed: the first `written` bytes of the line
/// went out.
pub fn compare_words<L: Lookup, T: Allocator, A: Allocator + Copy, W: Write>(
    alloc: A,
    global: Global,
    collator: &Collator<L, T>,
    settings: Settings,
    left: &str,
    right: &str,
    out: &mut Sink<W>,
) -> Result<(), RunFault>
    ensures writes { let c = keying_of L.content collator.now settings in
        WritesComparison c left.now right.now out.old.contents out.new.contents result }
    ensures of_texts { ended_by_file result ≡ false }
    ensures nothing_written { ended_before_output result ≡ true → out.new ≡ out.old }
    ensures out_failed { out.new.failed ≡ (out.old.failed || ended_by_output result) }
{
    let mut comparison = TextComparison::new(alloc, global);
    let found = comparison.compare(collator, settings, left, right);
    drop(comparison);
    match found {
        Ok(compared) => write_text(&line_of(compared), out),
        Err(PairFault::Left(fault)) => Err(RunFault::Text {
            right: false,
            fault,
        }),
        Err(PairFault::Right(fault)) => Err(RunFault::Text { right: true, fault }),
    }
}

/// Compares two texts under the table and the data file that are read first. The weighting is the one
/// that is asked for, or else that of the table's `@variable`, or else shifted (UTS #10, section 4). Writes a line:
/// `<`, `=` or `>`, one space, and the level at which they differ, or 0 if none does.
///
/// # Errors
///
/// - `File`: the table, or else the data file, is rejected.
/// - `Memory`: an allocation failed for looking up rows, before the texts are read.
/// - `Text`: the left text, or else the right one, is rejected.
///
/// Nothing was written then. `Write` if the writer failed: the first `written` bytes of the line went out.
pub fn run_compare<T: Read, D: Read, W: Write>(
    alloc: Global,
    table: &mut Source<T>,
    properties: &mut Source<D>,
    left: &str,
    right: &str,
    out: &mut Sink<W>,
    weighting: Option<Weighting>,
    depth: Depth,
) -> Result<(), RunFault>
    ensures { Compares (comparing (as_text weighting depth) left.now right.now) (table.old ∷ properties.old ∷ [])
        (table.new ∷ properties.new ∷ []) out.old out.new result }
{
    run_compare_in(
        alloc,
        alloc,
        table,
        properties,
        left,
        right,
        out,
        Asked::as_text(weighting, depth),
    )
}

/// As [`run_compare`], with the two files and the trie in memory of any allocator, and with numbers by value where this is
/// asked for. Texts in Normalization Form D are in `global`.
///
/// # Errors
///
/// Those of [`run_compare`]. After those of the files comes `Digits`, if numbers are to be ordered by value and the table
/// does not order them. Nothing was written then.
pub fn run_compare_in<A: Allocator + Copy, T: Read, D: Read, W: Write>(
    alloc: A,
    global: Global,
    table: &mut Source<T>,
    properties: &mut Source<D>,
    left: &str,
    right: &str,
    out: &mut Sink<W>,
    asked: Asked,
) -> Result<(), RunFault>
    ensures { Compares (comparing asked left.now right.now) (table.old ∷ properties.old ∷ [])
        (table.new ∷ properties.new ∷ []) out.old out.new result }
{
    match read_collation(alloc, table, properties, asked) {
        Ok(read) => {
            let collator = read.collation.collator();
            let end = compare_words(alloc, global, &collator, read.settings, left, right, out);
            drop(read);
            end
        }
        Err(fault) => Err(fault),
    }
}

// The line that says how two texts compare.
fn line_of(compared: Compared) -> [u8; 4]
    requires { compared.level ≤ 5 }
    ensures { result ≡ comparison_line (record { order = compared.order; level = compared.level }) }
{
    let sign = match compared.order {
        Ordering::Less => b'<',
        Ordering::Equal => b'=',
        Ordering::Greater => b'>',
    };
    [sign, b' ', b'0' + compared.level, b'\n']
}
