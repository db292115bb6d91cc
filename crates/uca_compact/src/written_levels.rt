//! Puts the levels of a compact key: plain ones are left out.

ghost use Rattle.std.specs.Prelude.{◌≡◌, ◌+◌, ◌-◌, ◌*◌, ◌/◌, ◌<◌, ◌≤◌, ◌++◌, [], ◌∷◌, length, take, map, if◌then◌else◌};
ghost use Rattle.std.specs.List.{AllByRecursion};
ghost use Rattle.std.specs.Ordering.{is_eq};
ghost use Rattle.uca_weights.specs.declared.Weighting.TheVariants.{NonIgnorable, Shifted};
ghost use Rattle.uca_lanes.specs.Pairs.{MarksPairs, IsPairRun};
ghost use Rattle.uca_order.specs.Levels.{level_count};
ghost use Rattle.uca_compact.specs.CompactKeys as compact_keys;
ghost use Rattle.uca_compact.specs.CompactKeys.{compact, level_code};
ghost use Rattle.uca_compact.specs.Forms.{IsForm, forms_of, letters_form};
ghost use Rattle.uca_compact.specs.LevelBytes.{AreWeightBytes, level_bytes_in, weights_in};
ghost use Rattle.uca_compact.specs.PlainLevels.{plain_level};
ghost use Rattle.uca_compact.specs.Programs.{form_of};
ghost use Rattle.uca_compact.specs.inside.Places.{AreTrueEntries};

use crate::book_forms::{accents_form, cases_form, letters_form, variables_form};
use crate::key_buffers::Entry;
use crate::later_level::{Compared, compare_level, put_level};
use crate::letters::put_letters;
use crate::level_bytes::LevelBytes;
use crate::levels::LevelForm;
use std::alloc::Allocator;
use std::cmp::Ordering;
use uca_books::Book;
use uca_weights::Weighting;

// The end of a level, by how the next level compares to the plain one. `more` is the end by the `later` levels after
// that one.
fn end_by(order: Ordering, all: u8, later: u8, more: u8) -> u8
    requires few { all ≤ 3 }
    requires within { later < all }
    ensures { result ≡ compact_keys.end_by order all later more }
{
    match order {
        Ordering::Less => all - (later + 1),
        Ordering::Equal => more,
        Ordering::Greater => all + (later + 1),
    }
}

// Puts a level after others at this position, by how it compares to the plain one, which is left out. It returns the
// position after it.
#[inline(always)]
fn put_later(
    codes: &mut [u8],
    at: usize,
    form: &LevelForm,
    hints: &mut [u8],
    level: &[u8],
    compared: Compared,
    end: u8,
) -> usize
    requires form { IsForm (form_of form.now) }
    requires common { 0 < form.now.common }
    requires level { AreWeightBytes level.now }
    requires run { IsPairRun level.now form.now.common 0 (length level.now / 2) compared.run }
    requires marks { MarksPairs level.now form.now.common compared.marks }
    requires end { end < form.now.ends }
    requires room { at + 2 * length level.now + 1 ≤ length codes.old }
    ensures put { take result codes.new ≡ take at codes.old ++
        (if is_eq compared.order then [] else level_code (form_of form.now) end 0 (weights_in level.now)) }
    ensures few { result ≤ at + 2 * length level.now + 1 }
{
    match compared.order {
        Ordering::Equal => at,
        Ordering::Less | Ordering::Greater => {
            put_level(codes, at, form, hints, level, compared, end)
        }
    }
}

// Puts the compact key of three levels at the beginning. It returns how many bytes it has.
fn put_three<A: Allocator>(
    codes: &mut [u8],
    book: &Book<A>,
    entries: &mut [Entry],
    hints: &mut [u8],
    levels: &LevelBytes,
) -> usize
    requires levels { AllByRecursion AreWeightBytes (level_bytes_in NonIgnorable levels.now) }
    requires entries { length entries.old ≡ 2048 }
    requires true_entries { AreTrueEntries (letters_form book.now 2) entries.old }
    requires hints { length hints.old ≡ 4096 }
    requires room { 2 * (length levels.now.letters.now + length levels.now.accents.now + length levels.now.cases.now) + 3 ≤ length codes.old }
    ensures true_entries { AreTrueEntries (letters_form book.now 2) entries.new }
    ensures put { take result codes.new ≡ compact plain_level (forms_of NonIgnorable book.now) (map weights_in (level_bytes_in NonIgnorable levels.now)) }
    ensures few { result ≤ length codes.new }
{
    let form = letters_form(book, 2);
    let first = put_letters(codes, &form, entries, hints, levels.letters);
    let second = compare_level(levels.accents, 0x20, first.count);
    let third = compare_level(levels.cases, 2, levels.accents.len() / 2);
    codes[first.size] = end_by(second.order, 2, 1, end_by(third.order, 2, 0, 2));
    let at = first.size + 1;
    let form = accents_form(1);
    let end = end_by(third.order, 1, 0, 1);
    let at = put_later(codes, at, &form, hints, levels.accents, second, end);
    put_later(codes, at, &cases_form(0), hints, levels.cases, third, 0)
}

// Puts the compact key of four levels at the beginning. It returns how many bytes it has.
fn put_four<A: Allocator>(
    codes: &mut [u8],
    book: &Book<A>,
    entries: &mut [Entry],
    hints: &mut [u8],
    levels: &LevelBytes,
) -> usize
    requires levels { AllByRecursion AreWeightBytes (level_bytes_in Shifted levels.now) }
    requires entries { length entries.old ≡ 2048 }
    requires true_entries { AreTrueEntries (letters_form book.now 3) entries.old }
    requires hints { length hints.old ≡ 4096 }
    requires room { 2 * (length levels.now.letters.now + length levels.now.accents.now + length levels.now.cases.now + length levels.now.variables.now) + 4
        ≤ length codes.old }
    ensures true_entries { AreTrueEntries (letters_form book.now 3) entries.new }
    ensures put { take result codes.new ≡ compact plain_level (forms_of Shifted book.now) (map weights_in (level_bytes_in Shifted levels.now)) }
    ensures few { result ≤ length codes.new }
{
    let form = letters_form(book, 3);
    let first = put_letters(codes, &form, entries, hints, levels.letters);
    let second = compare_level(levels.accents, 0x20, first.count);
    let third = compare_level(levels.cases, 2, levels.accents.len() / 2);
    let plain = levels.cases.len() / 2 + (levels.letters.len() / 2 - first.count);
    let fourth = compare_level(levels.variables, 0xFFFF, plain);
    let third_end = end_by(third.order, 3, 1, end_by(fourth.order, 3, 0, 3));
    codes[first.size] = end_by(second.order, 3, 2, third_end);
    let at = first.size + 1;
    let end = end_by(third.order, 2, 1, end_by(fourth.order, 2, 0, 2));
    let at = put_later(
        codes,
        at,
        &accents_form(2),
        hints,
        levels.accents,
        second,
        end,
    );
    let end = end_by(fourth.order, 1, 0, 1);
    let at = put_later(codes, at, &cases_form(1), hints, levels.cases, third, end);
    let form = variables_form(book);
    put_later(codes, at, &form, hints, levels.variables, fourth, 0)
}

/// Puts the compact key of these levels at the beginning. It returns how many bytes it has.
pub(crate) fn put_levels<A: Allocator>(
    weighting: Weighting,
    codes: &mut [u8],
    book: &Book<A>,
    entries: &mut [Entry],
    hints: &mut [u8],
    levels: &LevelBytes,
) -> usize
    requires levels { AllByRecursion AreWeightBytes (level_bytes_in weighting levels.now) }
    requires entries { length entries.old ≡ 2048 }
    requires true_entries { AreTrueEntries (letters_form book.now (level_count weighting - 1)) entries.old }
    requires hints { length hints.old ≡ 4096 }
    requires room { 2 * (length levels.now.letters.now + length levels.now.accents.now + length levels.now.cases.now + length levels.now.variables.now) + 4
        ≤ length codes.old }
    ensures true_entries { AreTrueEntries (letters_form book.now (level_count weighting - 1)) entries.new }
    ensures put { take result codes.new ≡ compact plain_level (forms_of weighting book.now) (map weights_in (level_bytes_in weighting levels.now)) }
    ensures few { result ≤ length codes.new }
{
    match weighting {
        Weighting::NonIgnorable => put_three(codes, book, entries, hints, levels),
        Weighting::Shifted => put_four(codes, book, entries, hints, levels),
    }
}
