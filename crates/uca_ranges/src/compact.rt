//! Both ends of ranges of compact keys.

ghost use Rattle.std.specs.Prelude.{◌≡◌, ◌-◌, [], ◌∷◌, OnOk};
ghost use Rattle.uca_order.specs.Levels.{level_count};
ghost use Rattle.uca_compact.specs.Forms.{AreWeights, ends_before};
ghost use Rattle.uca_ranges.specs.Ranges.{letters_code, compact_levels_low, compact_levels_high, compact_letters_low, compact_letters_high};

use std::alloc::{AllocError, Allocator};
use uca_books::Book;
use uca_compact::{LevelForm, push_level};
use uca_weights::Weighting;

// How many ends level 1 can have.
fn end_count(weighting: Weighting) -> u8
    ensures { result ≡ ends_before (level_count weighting - 1) }
{
    match weighting {
        Weighting::NonIgnorable => 5,
        Weighting::Shifted => 7,
    }
}

// Writes the cells of weights of level 1 over the bytes that were there.
fn write_cells<A: Allocator, B: Allocator>(
    out: &mut Vec<u8, A>,
    book: &Book<B>,
    weighting: Weighting,
    letters: &[u16],
) -> Result<(), AllocError>
    requires { AreWeights letters.now }
    ensures { OnOk result (out.new.items ≡ letters_code weighting book.now letters.now) }
{
    let form = LevelForm {
        common: 0,
        longest: 1,
        ends: end_count(weighting),
        lesser: &[],
        greater: book.letters(),
    };
    out.clear();
    push_level(out, &form, 0, letters)?;
    out.pop();
    Ok(())
}

/// Writes both ends of the range of compact keys whose level 1 is these weights, over the bytes that were there.
///
/// # Errors
///
/// An allocation failed. The bytes are then unspecified.
pub fn write_same_compact_letters_range<A: Allocator, B: Allocator>(
    book: &Book<B>,
    weighting: Weighting,
    letters: &[u16],
    low: &mut Vec<u8, A>,
    high: &mut Vec<u8, A>,
) -> Result<(), AllocError>
    requires { AreWeights letters.now }
    ensures low { OnOk result (low.new.items ≡ compact_levels_low weighting book.now (letters.now ∷ [])) }
    ensures high { OnOk result (high.new.items ≡ compact_levels_high weighting book.now (letters.now ∷ [])) }
{
    write_cells(low, book, weighting, letters)?;
    low.push(0)?;
    write_cells(high, book, weighting, letters)?;
    high.push(end_count(weighting))?;
    Ok(())
}

/// Writes both ends of the range of compact keys whose level 1 begins with these weights, over the bytes that were
/// there.
///
/// # Errors
///
/// An allocation failed. The bytes are then unspecified.
pub fn write_compact_letters_range<A: Allocator, B: Allocator>(
    book: &Book<B>,
    weighting: Weighting,
    letters: &[u16],
    low: &mut Vec<u8, A>,
    high: &mut Vec<u8, A>,
) -> Result<(), AllocError>
    requires { AreWeights letters.now }
    ensures low { OnOk result (low.new.items ≡ compact_letters_low weighting book.now letters.now) }
    ensures high { OnOk result (high.new.items ≡ compact_letters_high weighting book.now letters.now) }
{
    write_cells(low, book, weighting, letters)?;
    write_cells(high, book, weighting, letters)?;
    high.push(0xFF)?;
    Ok(())
}
