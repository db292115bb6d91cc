//! Puts level 1 of a compact key.

ghost use Rattle.std.specs.Prelude.{◌≡◌, ℕ, List, ◌+◌, ◌-◌, ◌*◌, ◌/◌, ◌<◌, ◌≤◌, [], ◌∷◌, ◌++◌, length, take};
ghost use Rattle.uca_compact.specs.CompactKeys.{cell, level_code};
ghost use Rattle.uca_compact.specs.Forms as forms;
ghost use Rattle.uca_compact.specs.Forms.{AreRising, Form, IsForm};
ghost use Rattle.uca_compact.specs.LevelBytes.{AreWeightBytes, weights_in};
ghost use Rattle.uca_compact.specs.PlainLevels as plain_levels;
ghost use Rattle.uca_compact.specs.Programs.{form_of};
ghost use Rattle.uca_compact.specs.inside.Places.{IsPlace, AreTrueEntries};

use crate::key_buffers::{ENTRIES, Entry, HINTS};
use crate::levels::{LevelForm, cell_index, put_in_cell};
use crate::plain::{leads, with_letter};

/// Level 1 that was put.
#[derive(Clone, Copy)]
pub(crate) struct PutLetters {
    /// How many bytes its weights take.
    pub(crate) size: usize,
    /// How many of these weights mostly have a weight at level 2.
    pub(crate) count: usize,
}

// The number of the first cell of level 1.
fn first_cell(form: &LevelForm) -> u8
    requires form { IsForm (form_of form.now) }
    requires no_common { form.now.common ≡ 0 }
    ensures is { result ≡ forms.first_cell (form_of form.now) }
    ensures bytes { result + length form.now.greater.now < 256 }
    ensures rising { AreRising 1 form.now.greater.now 65536 }
{
    let longest = u32::from(form.longest);
    (longest * (u32::from(form.ends) + 1) + longest) as u8
}

// Puts what an entry says at this position. It returns the position after it. Four bytes are written at once: those
// after the new position mean nothing.
#[inline(always)]
fn put_entry(codes: &mut [u8], at: usize, entry: Entry) -> usize
    requires len { entry.len ≤ 3 }
    requires room { at + 4 ≤ length codes.old }
    ensures put { take result codes.new ≡ take at codes.old ++ take entry.len entry.code }
    ensures few { result ≤ at + 3 }
{
    codes[at..at + 4].copy_from_slice(&entry.code);
    at + usize::from(entry.len)
}

// Keeps what a weight is written as, which stands from one position to the other, unless the weight is a lead or greater.
#[tactic(auto, unfolding(crate::specs::inside::Places::AreTrueEntries))]
fn keep(entries: &mut [Entry], weight: u16, codes: &[u8], at: usize, next: usize)
    requires entries { length entries.old ≡ 2048 }
    requires from { at ≤ next }
    requires few { next ≤ at + 3 }
    requires room { at + 3 ≤ length codes.now }
    ensures { (f : Form) (front : List ℕ) → AreTrueEntries f entries.old → length front ≡ at →
        take next codes.now ≡ front ++ cell (forms.first_cell f) 1 f.greater 65536 weight → AreTrueEntries f entries.new }
{
    if weight < 0xFB00 {
        entries[usize::from(weight) % ENTRIES] = Entry {
            code: [codes[at], codes[at + 1], codes[at + 2], 0],
            weight,
            len: (next - at) as u8,
        };
    }
}

// Puts a weight in its cell, which is found. What was found is kept.
#[inline(never)]
fn put_found(
    codes: &mut [u8],
    at: usize,
    number: u8,
    starts: &[u16],
    entries: &mut [Entry],
    hints: &mut [u8],
    weight: u16,
) -> usize
    requires rising { AreRising 1 starts.now 65536 }
    requires bytes { number + length starts.now < 256 }
    requires weight { 0 < weight }
    requires room { at + 3 ≤ length codes.old }
    requires entries { length entries.old ≡ 2048 }
    requires hints { length hints.old ≡ 4096 }
    ensures put { take result codes.new ≡ take at codes.old ++ cell number 1 starts.now 65536 weight }
    ensures few { result ≤ at + 3 }
    ensures true_entries { (f : Form) → forms.first_cell f ≡ number → f.greater ≡ starts.now → AreTrueEntries f entries.old → AreTrueEntries f entries.new }
{
    let letter = u32::from(weight);
    let place = usize::from(weight) * HINTS / 0x1_0000;
    let index = cell_index(1, starts, 0x1_0000, letter, usize::from(hints[place]));
    hints[place] = index as u8;
    let next = put_in_cell(codes, at, number, 1, starts, 0x1_0000, letter, index);
    keep(entries, weight, codes, at, next);
    next
}

/// Puts the weights of level 1 at the beginning, without the end of the level.
pub(crate) fn put_letters(
    codes: &mut [u8],
    form: &LevelForm,
    entries: &mut [Entry],
    hints: &mut [u8],
    level: &[u8],
) -> PutLetters
    requires form { IsForm (form_of form.now) }
    requires no_common { form.now.common ≡ 0 }
    requires level { AreWeightBytes level.now }
    requires room { 3 * (length level.now / 2) + 1 ≤ length codes.old }
    requires entries { length entries.old ≡ 2048 }
    requires true_entries { AreTrueEntries (form_of form.now) entries.old }
    requires hints { length hints.old ≡ 4096 }
    ensures true_entries { AreTrueEntries (form_of form.now) entries.new }
    ensures put { (end : ℕ) → take result.size codes.new ++ end ∷ [] ≡ level_code (form_of form.now) end 0 (weights_in level.now) }
    ensures size { result.size ≤ 3 * (length level.now / 2) }
    ensures count { result.count ≡ plain_levels.letter_count (weights_in level.now) }
    ensures few { result.count ≤ length level.now / 2 }
{
    let number = first_cell(form);
    let mut size = 0;
    let mut count = 0;
    let mut after_lead = false;
    let mut at = 0;
    while at < level.len() {
        let weight = u16::from_be_bytes([level[at], level[at + 1]]);
        let entry = entries[usize::from(weight) % ENTRIES];
        if entry.weight == weight && !after_lead {
            size = put_entry(codes, size, entry);
            count += 1;
        } else {
            size = put_found(codes, size, number, form.greater, entries, hints, weight);
            count = with_letter(count, after_lead);
            after_lead = leads(after_lead, weight);
        }
        at += 2;
    }
    PutLetters { size, count }
}
