//! Reads the levels of a compact key.

ghost use Rattle.std.specs.Prelude.{◌≡◌, ◌<◌, ◌≤◌, [], ◌∷◌, IfOk};
ghost use Rattle.std.specs.Ordering.{nat_cmp};
ghost use Rattle.uca_weights.specs.declared.Weighting.TheVariants.{NonIgnorable, Shifted};
ghost use Rattle.uca_compact.specs.PlainLevels.{copies};
ghost use Rattle.uca_compact.specs.Programs.{form_of};
ghost use Rattle.uca_compact.specs.inside.Reading as reading;
ghost use Rattle.uca_compact.specs.inside.LevelSteps.{AreRead, level_after, then_of, told_of};

use crate::book_forms::{accents_form, cases_form, letters_form, variables_form};
use crate::buffers::Levels;
use crate::level_reader::{LevelEnd, push_copies, read_level};
use crate::levels::LevelForm;
use crate::plain::{compare_run, letter_count};
use std::alloc::{AllocError, Allocator};
use std::cmp::Ordering;
use uca_books::Book;

/// What is known of the next levels.
#[derive(Clone, Copy)]
pub(crate) struct Later<'a> {
    /// So many of them are plain.
    pub(crate) count: u8,
    /// The one after these is on this side of the plain one.
    pub(crate) side: Ordering,
    /// Its bytes begin here.
    pub(crate) rest: &'a [u8],
}

// What the end of a level tells of the `later` levels after it.
fn told(level: LevelEnd<'_>, later: u8) -> Later<'_>
    requires { later ≤ 3 }
    ensures count { result.count ≡ reading.plain_count later level.entry.end }
    ensures side { result.side ≡ nat_cmp level.entry.end later }
    ensures rest { result.rest.now ≡ level.entry.rest.now }
{
    Later {
        count: level.end.min((2 * later).saturating_sub(level.end)),
        side: level.end.cmp(&later),
        rest: level.rest,
    }
}

// Whether a level is on this side of the plain one, by how it compares to it.
fn is_on_side(side: Ordering, order: Ordering) -> bool
    ensures { result ≡ reading.is_on_side side order }
{
    match side {
        Ordering::Less => order.is_lt(),
        Ordering::Equal => false,
        Ordering::Greater => order.is_gt(),
    }
}

// Reads a level, and what it tells of the `later` levels after it.
fn read_first<'a, A: Allocator>(
    form: &LevelForm,
    later: u8,
    bytes: &'a [u8],
    weights: &mut Vec<u16, A>,
) -> Result<Option<Later<'a>>, AllocError>
    requires { later ≤ 3 }
    ensures { IfOk result (λ next. told_of later (reading.read_level (form_of form.now) bytes.now) ≡ then_of next weights.new.items) }
{
    let Some(level) = read_level(form, bytes, weights)? else {
        return Ok(None);
    };
    Ok(Some(told(level, later)))
}

// Reads a level after others, by what is known of it. The plain level is a weight, so many times.
fn read_later<'a, A: Allocator>(
    form: &LevelForm,
    later: u8,
    weight: u16,
    count: usize,
    known: Option<Later<'a>>,
    weights: &mut Vec<u16, A>,
) -> Result<Option<Later<'a>>, AllocError>
    requires { later ≤ 3 }
    ensures { IfOk result (λ next. level_after (form_of form.now) later (copies weight count) known.entry ≡ then_of next weights.new.items) }
{
    let Some(known) = known else {
        return Ok(None);
    };
    if known.count > 0 {
        weights.clear();
        push_copies(weights, weight, count)?;
        return Ok(Some(Later {
            count: known.count - 1,
            side: known.side,
            rest: known.rest,
        }));
    }
    let next = read_first(form, later, known.rest, weights)?;
    if is_on_side(known.side, compare_run(weights.as_slice(), weight, count)) {
        Ok(next)
    } else {
        Ok(None)
    }
}

/// Reads three levels.
pub(crate) fn read_three<'a, A: Allocator, B: Allocator>(
    book: &Book<B>,
    bytes: &'a [u8],
    levels: &mut Levels<A>,
) -> Result<Option<Later<'a>>, AllocError>
    ensures { IfOk result (λ last. AreRead NonIgnorable book.now bytes.now last
        (levels.new.letters.items ∷ levels.new.accents.items ∷ levels.new.cases.items ∷ [])) }
{
    let first = read_first(&letters_form(book, 2), 2, bytes, &mut levels.letters)?;
    let count = letter_count(levels.letters.as_slice());
    let form = accents_form(1);
    let second = read_later(&form, 1, 0x20, count, first, &mut levels.accents)?;
    let count = levels.accents.as_slice().len();
    let last = read_later(&cases_form(0), 0, 2, count, second, &mut levels.cases)?;
    Ok(last)
}

/// Reads four levels.
pub(crate) fn read_four<'a, A: Allocator, B: Allocator>(
    book: &Book<B>,
    bytes: &'a [u8],
    levels: &mut Levels<A>,
) -> Result<Option<Later<'a>>, AllocError>
    ensures { IfOk result (λ last. AreRead Shifted book.now bytes.now last
        (levels.new.letters.items ∷ levels.new.accents.items ∷ levels.new.cases.items ∷ levels.new.variables.items ∷ [])) }
{
    let first = read_first(&letters_form(book, 3), 3, bytes, &mut levels.letters)?;
    let letters = levels.letters.as_slice();
    let count = letter_count(letters);
    let form = accents_form(2);
    let second = read_later(&form, 2, 0x20, count, first, &mut levels.accents)?;
    let accents = levels.accents.as_slice();
    let form = cases_form(1);
    let third = read_later(&form, 1, 2, accents.len(), second, &mut levels.cases)?;
    let plain = levels.cases.as_slice().len() + (letters.len() - count);
    let form = variables_form(book);
    let last = read_later(&form, 0, 0xFFFF, plain, third, &mut levels.variables)?;
    Ok(last)
}
