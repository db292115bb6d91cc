//! Comparing levels of two texts in one walk over both, side by side.
//!
//! One such walk compares all levels. It knows up to which level the lists of weights are equal so far, and the order
//! of the level after it, once that one has differed. At each level the next weights of the two texts (`front.rt`) say
//! which text may go on: either, both together, or one alone. Sometimes two levels allow no common step. Then the later
//! level and those after it are left for another walk. Texts under real tables have not needed one (bench/README.md).

ghost use Rattle.std.specs.Prelude.{◌≡◌, ◌≤◌, ◌<◌, ℕ, List, false, if◌then◌else◌};
ghost use Rattle.uca_elements.specs.Collations.{collation_of, elements_of};
ghost use Rattle.uca_weights.specs.declared.Element.{Element};
ghost use Rattle.uca_comparison.specs.Walks;
ghost use Rattle.uca_comparison.specs.Walks.{Says, Allows, IsTaken, Stands, Walks, none_decided, together};

use crate::element_stream::ElementStream;
use crate::front::Front;
use std::alloc::Allocator;
use std::cmp::Ordering;
use uca_elements::{Collator, Lookup};
use uca_text::Normal;
use uca_weights::Weighting;

/// Which of two texts may go on, so that the lists of some levels compare from there on as before.
#[derive(Clone, Copy)]
pub enum Step {
    /// Either, for neither has a weight at the levels.
    Either,
    /// Both together, for their weights are equal.
    Both,
    /// The left one alone, for it has no weight.
    Left,
    /// The right one alone.
    Right,
}

impl Step {
    // What both steps allow, if anything.
    fn with(self, other: Step) -> Option<Step>
        ensures { result ≡ together self other }
    {
        match (self, other) {
            (Step::Either, step) | (step, Step::Either) => Some(step),
            (Step::Both, Step::Both) => Some(Step::Both),
            (Step::Left, Step::Left) => Some(Step::Left),
            (Step::Right, Step::Right) => Some(Step::Right),
            _ => None,
        }
    }

    // Takes the step: one text goes on, or both do.
    fn take<S: ElementStream>(self, left: &mut Front<S>, right: &mut Front<S>)
        ensures { IsTaken self left.old right.old left.new right.new }
    {
        match self {
            Step::Left => left.advance(),
            Step::Right => right.advance(),
            Step::Either | Step::Both => {
                left.advance();
                right.advance();
            }
        }
    }
}

/// What the weights at one level say.
#[derive(Drop)]
pub enum LevelStep {
    /// The texts may go on so.
    May(Step),
    /// The lists of the level differ here, and this is their order.
    Differ(Ordering),
}

/// What these weights of two texts say, at one level. 0 means that a text has none here, and `_ended` that it has no more elements.
pub fn look_at(left: u16, right: u16, left_ended: bool, right_ended: bool) -> LevelStep
    ensures { Says left right left_ended right_ended result }
{
    if left == right {
        LevelStep::May(if left == 0 { Step::Either } else { Step::Both })
    } else if left == 0 && !left_ended {
        LevelStep::May(Step::Left)
    } else if right == 0 && !right_ended {
        LevelStep::May(Step::Right)
    } else {
        LevelStep::Differ(left.cmp(&right))
    }
}

/// Compares the levels `first` to `last` of two texts. The levels up to `through` are equal so far. If `through < last`,
/// the level `through + 1` decides: it has this `order`.
#[derive(Drop)]
pub struct LevelsSoFar {
    /// The first level that is compared, from 1 on.
    pub first: u8,
    /// Up to this level the texts are equal so far.
    pub through: u8,
    /// The last level that is compared, at most 4.
    pub last: u8,
    /// The order at the level that decides.
    pub order: Ordering,
}

impl LevelsSoFar {
    // How the texts may go on from their fronts. A level that differs here decides, and the levels after it no longer
    // matter. Where two levels allow no step together, the second and those after it are left for another walk.
    fn step<S: ElementStream>(
        &mut self,
        weighting: Weighting,
        left: &Front<S>,
        right: &Front<S>,
    ) -> Step
        requires first { 1 ≤ self.old.first }
        requires through { self.old.through ≤ self.old.last }
        requires last { self.old.last ≤ 4 }
        ensures stands { (es fs : List Element) → Stands weighting es fs left.now right.now self.old → Stands weighting es fs left.now right.now self.new }
        ensures first { self.new.first ≡ self.old.first }
        ensures last { self.new.last ≤ self.old.last }
        ensures within { self.new.through ≤ self.new.last }
        ensures step { (level : ℕ) → self.new.first ≤ level → level ≤ self.new.through → Allows weighting result level left.now right.now }
    {
        let (first, second) = (left.weights(weighting), right.weights(weighting));
        let mut step = Step::Either;
        let mut level = self.first;
        while level <= self.through {
            let before = level - 1;
            let at = usize::from(before);
            let found = match look_at(first[at], second[at], left.is_ended(), right.is_ended()) {
                LevelStep::May(found) => found,
                LevelStep::Differ(order) => {
                    self.through = before;
                    self.order = order;
                    return step;
                }
            };
            let Some(both) = step.with(found) else {
                self.through = before;
                self.last = before;
                self.order = Ordering::Equal;
                return step;
            };
            step = both;
            level += 1;
        }
        step
    }

    // The level that decides, or 0.
    fn decided(&self) -> u8
        requires { self.now.last ≤ 4 }
        ensures { result ≡ Walks.decided_level self.now.through self.now.last }
    {
        if self.through < self.last {
            self.through + 1
        } else {
            0
        }
    }
}

/// How two texts compare at some of their levels.
#[derive(Drop)]
pub struct Walked {
    /// The order at the first level at which they differ, or `Equal`.
    pub order: Ordering,
    /// The first level at which they differ, or 0.
    pub level: u8,
    /// The last level that was compared.
    pub last: u8,
    /// How many elements of the left text there are up to the weight of the first level in which the texts differ.
    pub fetched_left: u64,
    /// How many elements of the right text there are up to the weight of the first level in which the texts differ.
    pub fetched_right: u64,
}

/// How two texts compare at the levels from `first` on, up to `last` at most. These are as many levels as one walk over
/// both texts can compare, at least one.
pub fn walk<'a, L: Lookup, A: Allocator>(
    collator: &'a Collator<'a, L, A>,
    weighting: Weighting,
    first: u8,
    last: u8,
    left: &'a Normal,
    right: &'a Normal,
) -> Walked
    requires first { 1 ≤ first }
    requires some { first ≤ last }
    requires last { last ≤ 4 }
    ensures { let c = collation_of L.content collator.now in
        Walks weighting first last (elements_of c left.now) (elements_of c right.now) result }
{
    let left = Front::new(collator.elements(left));
    let right = Front::new(collator.elements(right));
    walk_fronts(weighting, first, last, left, right)
}

/// As `walk`, for two texts from these fronts on. Before the fronts they do not differ at any of the levels.
pub fn walk_fronts<S: ElementStream>(
    weighting: Weighting,
    first: u8,
    last: u8,
    mut left: Front<S>,
    mut right: Front<S>,
) -> Walked
    requires first { 1 ≤ first }
    requires some { first ≤ last }
    requires last { last ≤ 4 }
    ensures { (es fs : List Element) → Stands weighting es fs left right (none_decided first last) → Walks weighting first last es fs result }
{
    let mut levels = LevelsSoFar {
        first,
        through: last,
        last,
        order: Ordering::Equal,
    };
    while !(left.is_ended() && right.is_ended()) {
        if left.agrees(&right) {
            left.advance();
            right.advance();
            continue;
        }
        let step = levels.step(weighting, &left, &right);
        if levels.through < first {
            break;
        }
        step.take(&mut left, &mut right);
    }
    Walked {
        order: levels.order,
        level: levels.decided(),
        last: levels.last,
        fetched_left: left.fetched(),
        fetched_right: right.fetched(),
    }
}
