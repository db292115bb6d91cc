//! Reads a level of a compact key.

ghost use Rattle.std.specs.Prelude.{◌≡◌, ℕ, suc, ◌+◌, ◌*◌, ◌<◌, ◌≤◌, ◌++◌, ◌∷◌, List, Option, length, OnOk, IfOk};
ghost use Rattle.uca_compact.specs.Forms as forms;
ghost use Rattle.uca_compact.specs.PlainLevels.{copies};
ghost use Rattle.uca_compact.specs.Programs.{form_of};
ghost use Rattle.uca_compact.specs.inside.Reading as reading;
ghost use Rattle.uca_compact.specs.inside.Reading.{ReadLevel, with_weights, with_weight, longest_run_then, read_steps};
ghost use Rattle.uca_compact.specs.inside.LevelSteps as level_steps;
ghost use Rattle.uca_compact.specs.inside.LevelSteps.{row_of, next_in, after_step, LeavesLess, low_then, high_then, level_of_end};

use crate::cells::{Cells, read_next};
use crate::levels::LevelForm;
use std::alloc::{AllocError, Allocator};

/// The end of a level, and the bytes after it.
#[derive(Clone, Copy)]
pub(crate) struct LevelEnd<'a> {
    pub(crate) end: u8,
    pub(crate) rest: &'a [u8],
}

/// A step of reading a level.
#[derive(Clone, Copy)]
pub(crate) enum Step<'a> {
    /// Weights come before these bytes.
    More(&'a [u8]),
    /// The level ends here.
    End(LevelEnd<'a>),
    /// The bytes are no level.
    Nothing,
}

/// Adds a weight, so many times.
pub(crate) fn push_copies<A: Allocator>(
    weights: &mut Vec<u16, A>,
    weight: u16,
    count: usize,
) -> Result<(), AllocError>
    ensures { OnOk result (weights.new.items ≡ weights.old.items ++ copies weight count) }
{
    let Some(len) = weights.len().checked_add(count) else {
        return Err(AllocError);
    };
    weights.resize(len, weight)?;
    Ok(())
}

// The cells of lesser weights.
fn lesser_cells<'a>(form: &LevelForm<'a>) -> Cells<'a>
    ensures row { row_of result ≡ level_steps.lesser_row (form_of form.now) }
    ensures start { result.start ≤ 65536 }
    ensures end { result.end ≤ 65536 }
{
    Cells {
        number: 0,
        start: 1,
        later: form.lesser,
        end: u32::from(form.common),
    }
}

// The code of a longest run.
fn full_code(form: &LevelForm) -> u32
    ensures is { result ≡ forms.full (form_of form.now) }
    ensures small { result < 65536 }
{
    u32::from(form.longest) * (u32::from(form.ends) + 1)
}

// The cells of greater weights.
fn greater_cells<'a>(form: &LevelForm<'a>) -> Cells<'a>
    ensures row { row_of result ≡ level_steps.greater_row (form_of form.now) }
    ensures start { result.start ≤ 65536 }
    ensures end { result.end ≤ 65536 }
{
    Cells {
        number: full_code(form) + u32::from(form.longest),
        start: u32::from(form.common) + 1,
        later: form.greater,
        end: 0x1_0000,
    }
}

// A run of common weights, and a weight of these cells.
fn run_step<'a, A: Allocator>(
    weights: &mut Vec<u16, A>,
    common: u16,
    run: u32,
    cells: &Cells,
    bytes: &'a [u8],
) -> Result<Step<'a>, AllocError>
    requires start { cells.now.start ≤ 65536 }
    requires end { cells.now.end ≤ 65536 }
    ensures read { IfOk result (λ step. (more : List ℕ → Option ReadLevel) → after_step more weights.new.items step
        ≡ with_weights weights.old.items (with_weight (copies common run) (next_in (row_of cells.now) bytes.now) more)) }
    ensures less { IfOk result (λ step. LeavesLess step (length bytes.now)) }
{
    let Some(found) = read_next(cells, bytes) else {
        return Ok(Step::Nothing);
    };
    push_copies(weights, common, run as usize)?;
    weights.push(found.value)?;
    Ok(Step::More(found.rest))
}

// A code below that of a longest run.
fn low_step<'a, A: Allocator>(
    form: &LevelForm,
    code: u32,
    bytes: &'a [u8],
    weights: &mut Vec<u16, A>,
) -> Result<Step<'a>, AllocError>
    ensures read { IfOk result (λ step. (more : List ℕ → Option ReadLevel) → after_step more weights.new.items step
        ≡ with_weights weights.old.items (low_then (form_of form.now) code bytes.now more)) }
    ensures less { IfOk result (λ step. LeavesLess step (suc (length bytes.now))) }
{
    let ends = u32::from(form.ends);
    let run = code / (ends + 1);
    let end = code % (ends + 1);
    if end < ends {
        push_copies(weights, form.common, run as usize)?;
        return Ok(Step::End(LevelEnd {
            end: end as u8,
            rest: bytes,
        }));
    }
    run_step(weights, form.common, run, &lesser_cells(form), bytes)
}

// The code of a longest run.
fn longest_step<'a, A: Allocator>(
    form: &LevelForm,
    bytes: &'a [u8],
    weights: &mut Vec<u16, A>,
) -> Result<Step<'a>, AllocError>
    ensures read { IfOk result (λ step. (more : List ℕ → Option ReadLevel) → after_step more weights.new.items step
        ≡ with_weights weights.old.items (longest_run_then (form_of form.now) (more bytes.now))) }
    ensures less { IfOk result (λ step. LeavesLess step (suc (length bytes.now))) }
{
    if form.common == 0 {
        return Ok(Step::Nothing);
    }
    push_copies(weights, form.common, usize::from(form.longest))?;
    Ok(Step::More(bytes))
}

// A code above that of a longest run. It begins these bytes, and others follow it.
fn high_step<'a, A: Allocator>(
    form: &LevelForm,
    code: u32,
    bytes: &'a [u8],
    after: &'a [u8],
    weights: &mut Vec<u16, A>,
) -> Result<Step<'a>, AllocError>
    requires { bytes.now ≡ code ∷ after.now }
    ensures read { IfOk result (λ step. (more : List ℕ → Option ReadLevel) → after_step more weights.new.items step
        ≡ with_weights weights.old.items (high_then (form_of form.now) code after.now more)) }
    ensures less { IfOk result (λ step. LeavesLess step (length bytes.now)) }
{
    let cells = greater_cells(form);
    if code < cells.number {
        run_step(weights, form.common, cells.number - code, &cells, after)
    } else {
        run_step(weights, form.common, 0, &cells, bytes)
    }
}

// A step of reading a level from the beginning of these bytes.
fn read_step<'a, A: Allocator>(
    form: &LevelForm,
    bytes: &'a [u8],
    weights: &mut Vec<u16, A>,
) -> Result<Step<'a>, AllocError>
    ensures read { IfOk result (λ step. (steps : ℕ) → after_step (read_steps (form_of form.now) steps) weights.new.items step
        ≡ with_weights weights.old.items (read_steps (form_of form.now) (suc steps) bytes.now)) }
    ensures less { IfOk result (λ step. LeavesLess step (length bytes.now)) }
{
    let [code, after @ ..] = bytes else {
        return Ok(Step::Nothing);
    };
    let code = u32::from(*code);
    let full = full_code(form);
    if code < full {
        low_step(form, code, after, weights)
    } else if code == full {
        longest_step(form, after, weights)
    } else {
        high_step(form, code, bytes, after, weights)
    }
}

/// Reads a level from the beginning of these bytes. Its weights take the place of those that were there.
pub(crate) fn read_level<'a, A: Allocator>(
    form: &LevelForm,
    bytes: &'a [u8],
    weights: &mut Vec<u16, A>,
) -> Result<Option<LevelEnd<'a>>, AllocError>
    ensures { IfOk result (λ level. level_of_end level weights.new.items ≡ reading.read_level (form_of form.now) bytes.now) }
{
    weights.clear();
    let mut rest = bytes;
    loop {
        match read_step(form, rest, weights)? {
            Step::More(after) => rest = after,
            Step::End(level) => return Ok(Some(level)),
            Step::Nothing => return Ok(None),
        }
    }
}
