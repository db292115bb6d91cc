//! Compares a level after others to the plain one, and codes it. Mostly it is plain, and then nothing is written.

ghost use Rattle.std.specs.Prelude.{◌≡◌, ℕ, ◌+◌, ◌-◌, ◌*◌, ◌/◌, ◌<◌, ◌≤◌, ◌++◌, drop, length, min, take};
ghost use Rattle.uca_lanes.specs.Pairs.{MarksPairs, IsPairRun};
ghost use Rattle.uca_order.specs.Levels.{lexicographic};
ghost use Rattle.uca_compact.specs.CompactKeys.{level_code};
ghost use Rattle.uca_compact.specs.Forms.{IsForm};
ghost use Rattle.uca_compact.specs.LevelBytes.{AreWeightBytes, weights_in};
ghost use Rattle.uca_compact.specs.PlainLevels.{copies};
ghost use Rattle.uca_compact.specs.Programs.{form_of};

use crate::levels::{LevelForm, put_weight};
use crate::stored::weight_at;
use std::cmp::Ordering;
use uca_lanes::{marks_of_pairs, same_pairs};

/// How a level compares to so many times one weight.
#[derive(Clone, Copy)]
pub(crate) struct Compared {
    /// The order of both.
    pub(crate) order: Ordering,
    /// How many times that weight is at the beginning of the level.
    pub(crate) run: usize,
    /// A bit for each of the first 32 weights, the lowest for the first: whether it is another one. Other bits mean nothing.
    pub(crate) marks: u64,
}

/// How many weights are marked.
const MARKED: usize = 32;

/// How many bytes they have.
const MARKED_BYTES: usize = 2 * MARKED;

// How many weights from this position on are the one that the level was marked for, and at most `most`. Only weights with
// marks count.
#[inline(always)]
fn run_of_marked(level: &[u8], marks: u64, at: usize, most: usize) -> usize
    requires level { 2 * (length level.now / 2) ≡ length level.now }
    requires at { 2 * (at / 2) ≡ at }
    requires within { at ≤ length level.now }
    requires marked { at < 64 }
    ensures few { result ≤ most }
    ensures within { at + 2 * result ≤ min (length level.now) 64 }
    ensures run { (weight : ℕ) → MarksPairs level.now weight marks →
        IsPairRun level.now weight at (min ((min (length level.now) 64 - at) / 2) most) result }
{
    let left = (level.len().min(MARKED_BYTES) - at) / 2;
    same_pairs(marks, at / 2, left.min(most))
}

// How many weights at the beginning of the level are this one. It marks them in turn.
#[inline(never)]
fn run_of_many(level: &[u8], weight: u16) -> usize
    requires { 2 * (length level.now / 2) ≡ length level.now }
    ensures { IsPairRun level.now weight 0 (length level.now / 2) result }
{
    let mut run = 0;
    loop {
        let rest = &level[2 * run..];
        let more = run_of_marked(rest, marks_of_pairs(rest, weight), 0, MARKED);
        run += more;
        if more < MARKED {
            return run;
        }
    }
}

// How many weights at the beginning of the level are this one. The marks are those of the level for this weight.
#[inline(always)]
fn first_run(level: &[u8], marks: u64, weight: u16) -> usize
    requires level { 2 * (length level.now / 2) ≡ length level.now }
    requires marks { MarksPairs level.now weight marks }
    ensures { IsPairRun level.now weight 0 (length level.now / 2) result }
{
    let run = run_of_marked(level, marks, 0, MARKED);
    if run < MARKED {
        return run;
    }
    MARKED + run_of_many(&level[MARKED_BYTES..], weight)
}

/// Compares a level to `count` times one weight.
#[inline(always)]
pub(crate) fn compare_level(level: &[u8], weight: u16, count: usize) -> Compared
    requires { AreWeightBytes level.now }
    ensures order { result.order ≡ lexicographic (weights_in level.now) (copies weight count) }
    ensures run { IsPairRun level.now weight 0 (length level.now / 2) result.run }
    ensures marks { MarksPairs level.now weight result.marks }
{
    let common = u32::from(weight);
    let marks = marks_of_pairs(level, weight);
    let run = first_run(level, marks, weight);
    let len = level.len() / 2;
    let order = if run < len && run < count {
        weight_at(level, 2 * run).cmp(&common)
    } else {
        len.cmp(&count)
    };
    Compared { order, run, marks }
}

// The rest of a level, a position in it that is marked, and the marks. Where the position is not marked, the rest begins
// there.
#[inline(always)]
fn with_marks(rest: &[u8], at: usize, marks: u64, weight: u16) -> (&[u8], usize, u64)
    requires marks { MarksPairs rest.now weight marks }
    requires rest { 2 * (length rest.now / 2) ≡ length rest.now }
    requires at { 2 * (at / 2) ≡ at }
    requires within { at ≤ length rest.now }
    ensures marks { MarksPairs result.0.now weight result.2 }
    ensures rest { 2 * (length result.0.now / 2) ≡ length result.0.now }
    ensures at { 2 * (result.1 / 2) ≡ result.1 }
    ensures within { result.1 ≤ length result.0.now }
    ensures marked { result.1 < 64 }
    ensures same { drop result.1 result.0.now ≡ drop at rest.now }
{
    if at < MARKED_BYTES {
        return (rest, at, marks);
    }
    let rest = &rest[at..];
    (rest, 0, marks_of_pairs(rest, weight))
}

/// Puts a level at this position: its weights, and its end. It returns the position after it. `compared` is how the level
/// compares to copies of the common weight.
#[inline(never)]
pub(crate) fn put_level(
    codes: &mut [u8],
    at: usize,
    form: &LevelForm,
    hints: &mut [u8],
    level: &[u8],
    compared: Compared,
    end: u8,
) -> usize
    requires form { IsForm (form_of form.now) }
    requires common { 0 < form.now.common }
    requires level { AreWeightBytes level.now }
    requires run { IsPairRun level.now form.now.common 0 (length level.now / 2) compared.run }
    requires marks { MarksPairs level.now form.now.common compared.marks }
    requires end { end < form.now.ends }
    requires room { at + 2 * length level.now + 1 ≤ length codes.old }
    ensures put { take result codes.new ≡ take at codes.old ++ level_code (form_of form.now) end 0 (weights_in level.now) }
    ensures few { result ≤ at + 2 * length level.now + 1 }
{
    let longest = usize::from(form.longest);
    let mut put = at;
    let mut run = compared.run.min(longest - 1);
    let mut rest = level;
    let mut from = 2 * run;
    let mut marks = compared.marks;
    while from < rest.len() {
        (rest, from, marks) = with_marks(rest, from, marks, form.common);
        let more = run_of_marked(rest, marks, from, longest - 1 - run);
        run += more;
        from += 2 * more;
        if from == rest.len() {
            continue; // the level ends in a run
        }
        let weight = weight_at(rest, from);
        let (next, after) = put_weight(codes, put, form, hints, run as u32, weight);
        put = next;
        run = after as usize;
        from += 2;
    }
    codes[put] = (run as u32 * (u32::from(form.ends) + 1) + u32::from(end)) as u8;
    put + 1
}
