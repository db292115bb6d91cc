//! The lists of the weights that are numbered at a level.

ghost use Rattle.std.specs.Prelude.{◌≡◌, ℕ, List, [], ◌∷◌, ◌++◌, length, map, false, slice_index_or, vec_len, IfOk, IfSome, IfNone, OnOk};
ghost use Rattle.uca_weights.specs.declared.Element.{Element};
ghost use Rattle.uca_weights.specs.Levels as levels;
ghost use Rattle.uca_check.specs.WellFormed.{elements_of};
ghost use Rattle.uca_plans.specs.declared.drafts.DraftWeight.TheVariants.{Base};
ghost use Rattle.uca_plans.specs.Lists as lists;
ghost use Rattle.uca_plans.specs.Lists.{inserted};
ghost use Rattle.uca_plans.specs.ListLaws.{IsAmong};
ghost use Rattle.uca_tailor.specs.inside.Marks.{AreMarked, slots_from};
ghost use Rattle.uca_tailor.specs.inside.Slots.{IsSlotOf};

use std::alloc::{AllocError, Allocator};
use uca_plans::{DraftWeight, Insertion, Segment};
use uca_values::Row;
use uca_weights::{Element, Level};

/// How many weights of 16 bits there are.
pub(crate) const WEIGHT_COUNT: usize = 0x1_0000;

/// The list of a level: its base weights, with each new weight put in next to that of its anchor, in turn.
pub(crate) fn members<A: Allocator + Copy, T: Allocator>(
    alloc: A,
    level: Level,
    rows: &[Row<T>],
    insertions: &[Insertion],
) -> Result<Vec<DraftWeight, A>, AllocError>
    ensures { IfOk result (λ members. members.items ≡ lists.members_of level (elements_of rows.now) insertions.now) }
{
    let mut members = base_weights(alloc, level, rows)?;
    for insertion in insertions {
        if insertion.level == level {
            insert(&mut members, *insertion)?;
        }
    }
    Ok(members)
}

/// Puts a new weight directly before or after its anchor's.
fn insert<A: Allocator>(
    members: &mut Vec<DraftWeight, A>,
    insertion: Insertion,
) -> Result<(), AllocError>
    ensures { OnOk result (members.new.items ≡ inserted insertion members.old.items) }
{
    if let Some(anchor) = slot_of(members, insertion.anchor) {
        let slot = if insertion.before { anchor } else { anchor + 1 };
        members.insert(slot, insertion.new)?;
    }
    Ok(())
}

/// The slot of a weight in a list, counted from 0.
fn slot_of(members: &[DraftWeight], weight: DraftWeight) -> Option<usize>
    ensures found { IfSome result (IsSlotOf weight members.now) }
    ensures none { IfNone result (¬ (IsAmong members.now weight)) }
{
    members.iter().position(|member| *member == weight)
}

/// Whether each of the two segments of a level, below and above the weight that stays, has a position for each of its
/// members.
pub(crate) fn level_has_room(level: Level, members: &[DraftWeight]) -> bool
    ensures { result ≡ lists.level_has_room level members.now }
{
    has_room(low_segment(level), low_members(level, members))
        && has_room(high_segment(level), high_members(level, members))
}

/// Whether a segment has a position for each of some members.
fn has_room(segment: Segment, members: &[DraftWeight]) -> bool
    ensures { result ≡ lists.has_room segment members.now }
{
    usize::from(segment.below) + members.len() <= usize::from(segment.top)
}

/// The weights below the one that stays.
pub(crate) fn low_segment(level: Level) -> Segment
    ensures { result ≡ lists.low_segment level }
{
    Segment {
        below: 0,
        top: fixed_weight(level).saturating_sub(1),
    }
}

/// The weights above the one that stays.
pub(crate) fn high_segment(level: Level) -> Segment
    ensures { result ≡ lists.high_segment level }
{
    Segment {
        below: fixed_weight(level),
        top: top_weight(level),
    }
}

/// The members before the weight that stays.
pub(crate) fn low_members(level: Level, members: &[DraftWeight]) -> &[DraftWeight]
    ensures { result.now ≡ lists.low_members level members.now }
{
    match slot_of(members, DraftWeight::Base(fixed_weight(level))) {
        Some(slot) => &members[..slot],
        None => members,
    }
}

/// The members after the weight that stays.
pub(crate) fn high_members(level: Level, members: &[DraftWeight]) -> &[DraftWeight]
    ensures { result.now ≡ lists.high_members level members.now }
{
    match slot_of(members, DraftWeight::Base(fixed_weight(level))) {
        Some(slot) => &members[slot + 1..],
        None => &[],
    }
}

/// The weights of all rows that are numbered at a level, and the one that stays, in rising order.
fn base_weights<A: Allocator + Copy, T: Allocator>(
    alloc: A,
    level: Level,
    rows: &[Row<T>],
) -> Result<Vec<DraftWeight, A>, AllocError>
    ensures { IfOk result (λ weights. weights.items ≡ map Base (lists.base_weights level (elements_of rows.now))) }
{
    let mut marks = no_marks(alloc, WEIGHT_COUNT)?;
    mark_fixed(&mut marks, level);
    mark_rows(&mut marks, level, rows);
    marked_weights(alloc, &marks)
}

/// `count` marks, none of them set.
fn no_marks<A: Allocator>(alloc: A, count: usize) -> Result<Vec<bool, A>, AllocError>
    ensures length { IfOk result (λ marks. vec_len marks ≡ count) }
    ensures none { IfOk result (λ marks. (w : ℕ) → slice_index_or marks.items w false ≡ false) }
{
    vec![in alloc; false; count]
}

/// Marks the weight of a level that stays.
fn mark_fixed(marks: &mut [bool], level: Level)
    requires count { length marks.old ≡ 0x1_0000 }
    requires none { (w : ℕ) → slice_index_or marks.old w false ≡ false }
    ensures { AreMarked level [] marks.new }
{
    marks[usize::from(fixed_weight(level))] = true;
}

/// Marks the weights of all rows that are numbered at a level.
fn mark_rows<T: Allocator>(marks: &mut [bool], level: Level, rows: &[Row<T>])
    requires { AreMarked level [] marks.old }
    ensures { AreMarked level (elements_of rows.now) marks.new }
{
    for row in rows {
        for element in &row.elements {
            mark(marks, level, *element);
        }
    }
}

/// Marks the weight of an element, if it is numbered.
fn mark(marks: &mut [bool], level: Level, element: Element)
    requires { length marks.old ≡ 0x1_0000 }
    ensures count { length marks.new ≡ 0x1_0000 }
    ensures each { (elements : List Element) → AreMarked level elements marks.old → AreMarked level (elements ++ element ∷ []) marks.new }
{
    let weight = weight(level, element);
    if weight > 0 && weight <= top_weight(level) {
        marks[usize::from(weight)] = true;
    }
}

/// The weights that are marked.
fn marked_weights<A: Allocator>(alloc: A, marks: &[bool]) -> Result<Vec<DraftWeight, A>, AllocError>
    requires { length marks.now ≡ 0x1_0000 }
    ensures { IfOk result (λ weights. weights.items ≡ map Base (slots_from 0 marks.now)) }
{
    let mut weights = Vec::new(alloc);
    for (weight, marked) in marks.iter().enumerate() {
        if *marked {
            weights.push(DraftWeight::Base(weight as u16))?;
        }
    }
    Ok(weights)
}

/// An element's weight at a level.
fn weight(level: Level, element: Element) -> u16
    ensures { result ≡ levels.weight level element }
{
    match level {
        Level::One => element.primary,
        Level::Two => element.secondary,
        Level::Three => element.tertiary,
    }
}

/// The weight of a level that stays as it is: at level 1 there is none, so it is 0, which is below all weights.
pub(crate) fn fixed_weight(level: Level) -> u16
    ensures { result ≡ lists.fixed_weight level }
{
    match level {
        Level::One => 0,
        Level::Two => 0x20,
        Level::Three => 2,
    }
}

/// The greatest weight of a level that is numbered.
fn top_weight(level: Level) -> u16
    ensures { result ≡ lists.top_weight level }
{
    match level {
        Level::One => 0x7FFF,
        Level::Two | Level::Three => 0xFFFF,
    }
}
