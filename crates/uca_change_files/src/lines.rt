//! What the lines of a file of changes list, taken in turn.

ghost use Rattle.std.specs.Prelude.{◌≡◌, ◌⊎◌, ◌++◌, ℕ, List, MatchOption, OnOk, IfErr};
ghost use Rattle.uca_values.specs.declared.faults.FaultKind.{FaultKind};
ghost use Rattle.uca_lines.specs.declared.files.TheConstants.{TABLE_FORM};
ghost use Rattle.uca_lines.specs.FileStops.{is_read_kind};
ghost use Rattle.uca_change_files.specs.ChangeTexts.{Says, Cause};
ghost use Rattle.uca_change_files.specs.Steps.{Takes, AddsOne, Refuses, SpellsText, SpellsRange};

use crate::points::{read_points, read_range};
use crate::{ChangeList, ChangedText};
use std::alloc::Allocator;
use uca_lines::files::{FileForm, LineParser, TABLE_FORM};
use uca_values::FaultKind;

/// The line before all others.
const HEADER: &[u8] = b"@changes 1";

/// What the lines so far say: whether the header was there, and what they list.
#[derive(Drop)]
pub struct ChangesSoFar<A: Allocator> {
    pub alloc: A,
    pub started: bool,
    pub list: ChangeList<A>,
}

impl<A: Allocator + Copy> ChangesSoFar<A> {
    // Takes the next line, without its LF.
    fn take_line(&mut self, line: &[u8]) -> Result<(), FaultKind>
        ensures ok { OnOk result (Takes (record { started = self.old.started; content = self.old.list }) line.now
            (record { started = self.new.started; content = self.new.list })) }
        ensures fault { IfErr result (λ kind. (kind ≡ FaultKind.Memory)
            ⊎ Cause (record { started = self.old.started; content = self.old.list }) line.now kind) }
    {
        if !self.started {
            if line != HEADER {
                return Err(FaultKind::Order);
            }
            self.started = true;
            return Ok(());
        }
        if let Some(spelled) = after(line, b"text") {
            return add_text(self.alloc, &mut self.list, spelled);
        }
        if let Some(spelled) = after(line, b"range ") {
            return add_range(&mut self.list, spelled);
        }
        Err(FaultKind::Line)
    }
}

impl<A: Allocator + Copy> LineParser for ChangesSoFar<A> {
    type Kind = FaultKind;

    ghost form = { TABLE_FORM };

    ghost is_read = { is_read_kind };

    ghost says = { λ lines so_far. Says lines (record { started = so_far.started; content = so_far.list }) };

    ghost cause = { λ so_far line kind. Cause (record { started = so_far.started; content = so_far.list }) line kind };

    fn form() -> FileForm<FaultKind> {
        TABLE_FORM
    }

    fn take(&mut self, line: &[u8]) -> Result<(), FaultKind> {
        self.take_line(line)
    }
}

// What follows these bytes at the front of a line; `None` if the line begins otherwise.
fn after<'a>(line: &'a [u8], front: &[u8]) -> Option<&'a [u8]>
    ensures { MatchOption result ((rest : List ℕ) → ¬ (line.now ≡ front.now ++ rest)) (λ rest. line.now ≡ front.now ++ rest.now) }
{
    if line.len() < front.len() {
        return None;
    }
    let (first, rest) = line.split_at(front.len());
    if first == front { Some(rest) } else { None }
}

// Adds the text whose code points are spelled after `text`.
fn add_text<A: Allocator>(
    alloc: A,
    list: &mut ChangeList<A>,
    spelled: &[u8],
) -> Result<(), FaultKind>
    ensures ok { OnOk result (AddsOne (SpellsText spelled.now) list.old list.new) }
    ensures fault { IfErr result (λ kind. (kind ≡ FaultKind.Memory) ⊎ Refuses (SpellsText spelled.now) list.old kind) }
{
    match read_points(alloc, spelled) {
        Ok(Some(points)) => list.push_text(ChangedText { points }),
        Ok(None) => Err(FaultKind::Line),
        Err(_) => Err(FaultKind::Memory),
    }
}

// Adds the range that is spelled after `range`.
fn add_range<A: Allocator>(list: &mut ChangeList<A>, spelled: &[u8]) -> Result<(), FaultKind>
    ensures ok { OnOk result (AddsOne (SpellsRange spelled.now) list.old list.new) }
    ensures fault { IfErr result (λ kind. (kind ≡ FaultKind.Memory) ⊎ Refuses (SpellsRange spelled.now) list.old kind) }
{
    match read_range(spelled) {
        Some(range) => list.push_range(range),
        None => Err(FaultKind::Line),
    }
}
