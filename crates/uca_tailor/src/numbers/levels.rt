//! `LevelNumbers`: the list of a level, and the number that each of its weights gets.

ghost use Rattle.std.specs.Prelude.{◌≡◌, ℕ, ◌+◌, ◌<◌, ◌&&◌, nat_eq, length, reverse, cond, true, false, slice_index, vec_len, IfOk, OnOk, MatchOption};
ghost use Rattle.std.specs.List.{AllByRecursion};
ghost use Rattle.uca_check.specs.WellFormed.{elements_of};
ghost use Rattle.uca_plans.specs.declared.drafts.DraftWeight.TheVariants.{Base};
ghost use Rattle.uca_plans.specs.Lists as lists;
ghost use Rattle.uca_plans.specs.Lists.{InsertsBelow, IsNamedBelow, members_of, number_in};
ghost use Rattle.uca_plans.specs.Plans as plans;
ghost use Rattle.uca_plans.specs.Plans.{LevelPlan, level_plan, numbered_weight, run_before};
ghost use Rattle.uca_tailor.specs.inside.NumberTables.{AreTables, EndsLow};

use crate::numbers::lists::{
    WEIGHT_COUNT, fixed_weight, high_members, high_segment, level_has_room, low_members,
    low_segment, members,
};
use crate::numbers::segments::numbers;
use std::alloc::{AllocError, Allocator};
use std::marker::Model;
use uca_plans::{DraftWeight, Insertion};
use uca_values::Row;
use uca_weights::{Level, Run};

/// The list of a level and its numbers, with tables for the number of each weight.
#[derive(Drop)]
pub(crate) struct LevelNumbers<A: Allocator> {
    /// The list of the level.
    members: Vec<DraftWeight, A>,
    /// The number of each member.
    numbers: Vec<u16, A>,
    /// The number of each base weight; 0 if it is not a member.
    by_base: Vec<u16, A>,
    /// The number of each relation's new weight; 0 if it is not a member.
    by_new: Vec<u16, A>,
}

impl<A: Allocator> Model for LevelNumbers<A> {
    ghost use Rattle.uca_plans.specs.Plans.{LevelPlan};
    ghost use Rattle.uca_tailor.specs.inside.NumberTables.{AreTables};

    ghost Value = { LevelPlan };

    ghost view = { λ n. record { members = n.members.items; numbers = n.numbers.items } };

    ghost invariant = { λ n. AreTables n.members.items n.numbers.items n.by_base.items n.by_new.items };
}

/// The list of a level and its numbers, or `None` where the level has no room: then its weights are more than the positions. All
/// insertions are of relations below the number `relations`.
///
/// # Errors
///
/// An allocation that fails.
pub(crate) fn level_numbers<A: Allocator + Copy, T: Allocator>(
    alloc: A,
    level: Level,
    rows: &[Row<T>],
    insertions: &[Insertion],
    relations: usize,
) -> Result<Option<LevelNumbers<A>>, AllocError>
    requires { AllByRecursion (InsertsBelow relations) insertions.now }
    ensures { IfOk result (λ found. MatchOption found
        (lists.level_has_room level (members_of level (elements_of rows.now) insertions.now) ≡ false)
        (λ n. (lists.level_has_room level (members_of level (elements_of rows.now) insertions.now) ≡ true)
        × (n ≡ level_plan level (elements_of rows.now) insertions.now))) }
{
    let members = members(alloc, level, rows, insertions)?;
    if !level_has_room(level, &members) {
        return Ok(None);
    }
    let numbers = numbers_of_level(alloc, level, &members)?;
    Ok(Some(LevelNumbers::new(alloc, members, numbers, relations)?))
}

/// The numbers of a level's list with room.
fn numbers_of_level<A: Allocator + Copy>(
    alloc: A,
    level: Level,
    members: &[DraftWeight],
) -> Result<Vec<u16, A>, AllocError>
    requires { lists.level_has_room level members.now ≡ true }
    ensures { IfOk result (λ numbers. numbers.items ≡ lists.level_numbers level members.now) }
{
    let mut all = numbers(alloc, low_segment(level), low_members(level, members))?;
    all.push(fixed_weight(level))?;
    let mut high = numbers(alloc, high_segment(level), high_members(level, members))?;
    all.append(&mut high)?;
    Ok(all)
}

impl<A: Allocator + Copy> LevelNumbers<A> {
    /// A list with its numbers, and the tables for them.
    fn new(
        alloc: A,
        members: Vec<DraftWeight, A>,
        numbers: Vec<u16, A>,
        relations: usize,
    ) -> Result<LevelNumbers<A>, AllocError>
        requires same { vec_len numbers ≡ vec_len members }
        requires names { AllByRecursion (IsNamedBelow relations) members.items }
        ensures { IfOk result (λ n. n ≡ record { members = members.items; numbers = numbers.items }) }
    {
        let mut by_base = no_numbers(alloc, WEIGHT_COUNT)?;
        let mut by_new = no_numbers(alloc, relations)?;
        fill_tables(&mut by_base, &mut by_new, &members, &numbers);
        Ok(LevelNumbers {
            members,
            numbers,
            by_base,
            by_new,
        })
    }
}

impl<A: Allocator> LevelNumbers<A> {
    /// The number of a weight. The weight 0 keeps its value, and so do primary weights from 8000 up. Any other weight that the
    /// list does not have gets 0.
    pub(crate) fn number(&self, level: Level, weight: DraftWeight) -> u16
        ensures { result ≡ numbered_weight level self.now weight }
    {
        match weight {
            DraftWeight::Base(weight) => {
                if stays(level, weight) {
                    weight
                } else {
                    self.by_base[usize::from(weight)]
                }
            }
            DraftWeight::New(relation) => {
                self.by_new.get(relation as usize).copied().unwrap_or(0)
            }
        }
    }

    /// The base weights with their numbers, in runs as long as possible.
    ///
    /// # Errors
    ///
    /// An allocation that fails.
    pub(crate) fn runs(&self, alloc: A) -> Result<Vec<Run, A>, AllocError>
        ensures { IfOk result (λ runs. runs.items ≡ plans.runs_of self.now.members self.now.numbers) }
    {
        runs_of(alloc, &self.members, &self.numbers)
    }
}

/// Whether a base weight always keeps its value.
fn stays(level: Level, weight: u16) -> bool
    ensures { (plan : LevelPlan) → numbered_weight level plan (Base weight) ≡ cond result weight (number_in plan.members plan.numbers (Base weight)) }
{
    match level {
        Level::One => weight == 0 || weight >= 0x8000,
        Level::Two | Level::Three => weight == 0,
    }
}

/// `count` numbers, all of them 0.
fn no_numbers<A: Allocator>(alloc: A, count: usize) -> Result<Vec<u16, A>, AllocError>
    ensures length { IfOk result (λ numbers. vec_len numbers ≡ count) }
    ensures none { IfOk result (λ numbers. (w : ℕ) → slice_index numbers.items w ≡ 0) }
{
    vec![in alloc; 0; count]
}

/// Fills the tables with the numbers of the members, from the last to the first.
fn fill_tables(by_base: &mut [u16], by_new: &mut [u16], members: &[DraftWeight], numbers: &[u16])
    requires same { length numbers.now ≡ length members.now }
    requires bases { length by_base.old ≡ 0x1_0000 }
    requires names { AllByRecursion (IsNamedBelow (length by_new.old)) members.now }
    requires no_base { (w : ℕ) → slice_index by_base.old w ≡ 0 }
    requires no_new { (n : ℕ) → slice_index by_new.old n ≡ 0 }
    ensures { AreTables members.now numbers.now by_base.new by_new.new }
{
    let mut left = members.len();
    while left > 0 {
        left -= 1;
        let number = numbers[left];
        match members[left] {
            DraftWeight::Base(weight) => by_base[usize::from(weight)] = number,
            DraftWeight::New(relation) => by_new[relation as usize] = number,
        }
    }
}

/// The runs of a list with its numbers, made from the last to the first.
fn runs_of<A: Allocator>(
    alloc: A,
    members: &[DraftWeight],
    numbers: &[u16],
) -> Result<Vec<Run, A>, AllocError>
    requires { length numbers.now ≡ length members.now }
    ensures { IfOk result (λ runs. runs.items ≡ plans.runs_of members.now numbers.now) }
{
    let mut runs = Vec::new(alloc);
    let mut left = members.len();
    while left > 0 {
        left -= 1;
        if let DraftWeight::Base(weight) = members[left] {
            if weight > 0 {
                put_before(&mut runs, weight, numbers[left])?;
            }
        }
    }
    runs.reverse();
    Ok(runs)
}

/// Puts a weight with its number before runs, which are in reverse order. It goes into the next run if that run goes on
/// from it on both sides.
fn put_before<A: Allocator>(runs: &mut Vec<Run, A>, from: u16, to: u16) -> Result<(), AllocError>
    requires some { 0 < from }
    requires low { AllByRecursion EndsLow (reverse runs.old.items) }
    ensures runs { OnOk result (reverse runs.new.items ≡ run_before from to (reverse runs.old.items)) }
    ensures low { OnOk result (AllByRecursion EndsLow (reverse runs.new.items)) }
{
    if let Some(next) = runs.last_mut() {
        if goes_on(*next, from, to) {
            *next = Run {
                from,
                to,
                count: next.count + 1,
            };
            return Ok(());
        }
    }
    runs.push(Run { from, to, count: 1 })?;
    Ok(())
}

/// Whether a run goes on from a weight and its number.
fn goes_on(run: Run, from: u16, to: u16) -> bool
    ensures { result ≡ (nat_eq run.from (from + 1) && nat_eq run.to (to + 1)) }
{
    usize::from(run.from) == usize::from(from) + 1 && usize::from(run.to) == usize::from(to) + 1
}
