//! Writes the levels of compact keys.

ghost use Rattle.std.specs.Prelude.{◌≡◌, ℕ, suc, ◌+◌, ◌<◌, ◌≤◌, ◌∷◌, ◌++◌, length, take, OnOk};
ghost use Rattle.std.specs.Bool.{OnTrue};
ghost use Rattle.std.specs.Ordering.{nat_cmp};
ghost use Rattle.uca_compact.specs.Forms.{AreRising, IsForm, AreWeights, first_cell};
ghost use Rattle.uca_compact.specs.CompactKeys.{offset_bytes, cell, written, run_after, level_code};
ghost use Rattle.uca_compact.specs.Programs.{form_of};
ghost use Rattle.uca_compact.specs.inside.Places.{start_at, end_at, IsPlace};

use crate::key_buffers::HINTS;
use std::alloc::{AllocError, Allocator};

/// How a level is written.
#[derive(Clone, Copy)]
pub struct LevelForm<'a> {
    /// Its common weight, 0 for none.
    pub common: u16,
    /// How many common weights are the longest run.
    pub longest: u8,
    /// How many ends the level can have.
    pub ends: u8,
    /// The starts of the cells of lesser weights, after the first cell.
    pub lesser: &'a [u16],
    /// The starts of the cells of greater weights, after the first cell.
    pub greater: &'a [u16],
}

// Whether a weight is in the cell with this index.
#[inline(always)]
fn is_place(start: u32, later: &[u16], end: u32, weight: u32, index: usize) -> bool
    ensures { OnTrue result (IsPlace start later.now end weight index) }
{
    index <= later.len()
        && cell_start(start, later, index) <= weight
        && weight < cell_end(later, end, index)
}

// The index of the cell of a weight, by a search in halves.
fn search_cell(start: u32, later: &[u16], end: u32, weight: u32) -> usize
    requires from { start ≤ weight }
    requires below { weight < end }
    ensures { IsPlace start later.now end weight result }
{
    let mut low = 0;
    let mut high = later.len();
    while low < high {
        let middle = low + (high - low) / 2;
        if u32::from(later[middle]) <= weight {
            low = middle + 1;
        } else {
            high = middle;
        }
    }
    low
}

/// The index of the cell of a weight. The cell with the index `hint` is tried first.
#[inline]
pub(crate) fn cell_index(start: u32, later: &[u16], end: u32, weight: u32, hint: usize) -> usize
    requires from { start ≤ weight }
    requires below { weight < end }
    ensures { IsPlace start later.now end weight result }
{
    if is_place(start, later, end, weight, hint) {
        hint
    } else {
        search_cell(start, later, end, weight)
    }
}

/// Where a cell starts.
pub(crate) fn cell_start(start: u32, later: &[u16], index: usize) -> u32
    requires { index ≤ length later.now }
    ensures is { result ≡ start_at start later.now index }
    ensures small { start ≤ 65536 → result ≤ 65536 }
{
    if index == 0 {
        return start;
    }
    u32::from(later[index - 1])
}

/// Where a cell ends.
pub(crate) fn cell_end(later: &[u16], end: u32, index: usize) -> u32
    requires { index ≤ length later.now }
    ensures is { result ≡ end_at later.now end index }
    ensures small { end ≤ 65536 → result ≤ 65536 }
{
    if index == later.len() {
        return end;
    }
    u32::from(later[index])
}

// Puts the number of a cell at this position, and an offset in it after that. It returns the position after both.
#[inline(always)]
fn put_offset(codes: &mut [u8], at: usize, number: u8, width: u32, offset: u32) -> usize
    requires two_bytes { offset < 65536 }
    requires inside { offset < width }
    requires room { at + 3 ≤ length codes.old }
    ensures put { take result codes.new ≡ take at codes.old ++ (number ∷ offset_bytes width offset) }
    ensures from { at ≤ result }
    ensures few { result ≤ at + 3 }
{
    codes[at] = number;
    if width < 2 {
        return at + 1;
    }
    if width < 257 {
        codes[at + 1] = offset as u8;
        return at + 2;
    }
    codes[at + 1] = (offset / 256) as u8;
    codes[at + 2] = (offset % 256) as u8;
    at + 3
}

/// Puts a weight in its cell, which has this index, at this position. It returns the position after it.
#[inline(always)]
pub(crate) fn put_in_cell(
    codes: &mut [u8],
    at: usize,
    number: u8,
    start: u32,
    later: &[u16],
    end: u32,
    weight: u32,
    index: usize,
) -> usize
    requires rising { AreRising start later.now end }
    requires bytes { number + length later.now < 256 }
    requires two_bytes { weight < 65536 }
    requires place { IsPlace start later.now end weight index }
    requires room { at + 3 ≤ length codes.old }
    ensures put { take result codes.new ≡ take at codes.old ++ cell number start later.now end weight }
    ensures from { at ≤ result }
    ensures few { result ≤ at + 3 }
{
    let first = cell_start(start, later, index);
    let width = cell_end(later, end, index) - first;
    put_offset(codes, at, number + index as u8, width, weight - first)
}

// Puts a lesser weight. The cell that a hint names is tried first, if there is one.
fn put_lesser(codes: &mut [u8], at: usize, form: &LevelForm, hints: &mut [u8], weight: u32) -> usize
    requires form { IsForm (form_of form.now) }
    requires some { 0 < weight }
    requires lesser { weight < form.now.common }
    requires room { at + 3 ≤ length codes.old }
    ensures put { take result codes.new ≡ take at codes.old ++ cell 0 1 form.now.lesser.now form.now.common weight }
    ensures few { result ≤ at + 3 }
{
    let common = u32::from(form.common);
    let place = weight as usize % HINTS;
    let hint = match hints.get(place) {
        Some(hint) => usize::from(*hint),
        None => 0,
    };
    let index = cell_index(1, form.lesser, common, weight, hint);
    if let Some(hint) = hints.get_mut(place) {
        *hint = index as u8;
    }
    put_in_cell(codes, at, 0, 1, form.lesser, common, weight, index)
}

// Puts a greater weight. Mostly its own cell and all cells before it have one weight each. Then its index is known without
// a search.
#[inline(always)]
fn put_greater(codes: &mut [u8], at: usize, form: &LevelForm, weight: u32) -> usize
    requires form { IsForm (form_of form.now) }
    requires two_bytes { weight < 65536 }
    requires greater { form.now.common < weight }
    requires room { at + 3 ≤ length codes.old }
    ensures put { take result codes.new ≡ take at codes.old ++
        cell (first_cell (form_of form.now)) (suc form.now.common) form.now.greater.now 65536 weight }
    ensures few { result ≤ at + 3 }
{
    let longest = u32::from(form.longest);
    let number = (longest * (u32::from(form.ends) + 1) + longest) as u8;
    let start = u32::from(form.common) + 1;
    let index = (weight - start) as usize;
    if index < form.greater.len()
        && cell_start(start, form.greater, index) == weight
        && u32::from(form.greater[index]) == weight + 1
    {
        codes[at] = number + index as u8;
        return at + 1;
    }
    let index = search_cell(start, form.greater, 0x1_0000, weight);
    put_in_cell(
        codes,
        at,
        number,
        start,
        form.greater,
        0x1_0000,
        weight,
        index,
    )
}

/// Puts a weight after a run at this position. It returns the position after it, and the length of the run after it.
/// Mostly it is the common one.
#[inline(always)]
pub(crate) fn put_weight(
    codes: &mut [u8],
    at: usize,
    form: &LevelForm,
    hints: &mut [u8],
    run: u32,
    weight: u32,
) -> (usize, u32)
    requires form { IsForm (form_of form.now) }
    requires short { run < form.now.longest }
    requires weight { 0 < weight }
    requires two_bytes { weight < 65536 }
    requires room { at + 4 ≤ length codes.old }
    ensures put { take result.0 codes.new ≡ take at codes.old ++ written (form_of form.now) run weight (nat_cmp weight form.now.common) }
    ensures few { result.0 ≤ at + 4 }
    ensures run { result.1 ≡ run_after (form_of form.now) run (nat_cmp weight form.now.common) }
    ensures short { result.1 < form.now.longest }
{
    let common = u32::from(form.common);
    let longest = u32::from(form.longest);
    let step = u32::from(form.ends) + 1;
    if weight > common {
        codes[at] = (longest * step + longest - run) as u8;
        let next = if run > 0 { at + 1 } else { at };
        return (put_greater(codes, next, form, weight), 0);
    }
    if weight < common {
        codes[at] = (run * step + u32::from(form.ends)) as u8;
        return (put_lesser(codes, at + 1, form, hints, weight), 0);
    }
    if run + 1 < longest {
        return (at, run + 1);
    }
    codes[at] = (longest * step) as u8;
    (at + 1, 0)
}

/// Writes a level at the end of these bytes: its weights, and its end.
///
/// # Errors
///
/// An allocation failed.
#[inline(never)]
pub fn push_level<A: Allocator>(
    out: &mut Vec<u8, A>,
    form: &LevelForm,
    end: u8,
    weights: &[u16],
) -> Result<(), AllocError>
    requires form { IsForm (form_of form.now) }
    requires weights { AreWeights weights.now }
    requires end { end < form.now.ends }
    ensures { OnOk result (out.new.items ≡ out.old.items ++ level_code (form_of form.now) end 0 weights.now) }
{
    let mut room = [0; 4];
    let mut run = 0;
    for weight in weights {
        let (size, after) = put_weight(&mut room, 0, form, &mut [], run, u32::from(*weight));
        out.extend_from_slice(&room[..size])?;
        run = after;
    }
    out.push((run * (u32::from(form.ends) + 1) + u32::from(end)) as u8)?;
    Ok(())
}
