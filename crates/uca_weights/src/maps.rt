//! Rising maps of the weights of a level, as runs of consecutive weights with consecutive images.

ghost use Rattle.std.specs.Prelude.{◌≡◌, ◌↔◌, ◌≤◌, ◌<◌, ◌+◌, IfOk, IfErr, IsTrue, MatchOption, List, Some, None, cond, length};
ghost use Rattle.std.specs.List.Sorted.{IsNonDecreasingBy, IsPartitionPoint};
ghost use Rattle.uca_weights.specs.MapFaultText.{map_kind_text};
ghost use Rattle.uca_weights.specs.Maps.{IsRisingMap};
ghost use Rattle.uca_weights.specs.Runs as map_runs;
ghost use Rattle.uca_weights.specs.Runs.{AreProperRuns, AreRising, IsAbove, IsInRange, IsMapFault, IsProperRun, KeepsPairWeight, RefusesRun, run_image, weight_image, ProperRunsRise, FaultyRunsAreNotProper, RunsThatStayKeepWeights};

use crate::Level;
use std::alloc::{Allocator, Global};
use std::fmt;
use std::marker::Model;
use thiserror::Error;

/// Consecutive weights with consecutive images: `from + i` becomes `to + i`, for each `i` below `count`.
#[derive(Clone, Copy, Debug, PartialEq, Eq)]
pub struct Run {
    /// The least of the weights.
    pub from: u16,
    /// Its image.
    pub to: u16,
    /// How many weights there are.
    pub count: u16,
}

/// Why runs do not make a map.
#[derive(Clone, Copy, Debug, PartialEq, Eq)]
pub enum MapFaultKind {
    /// A run has no weights.
    Empty,
    /// A side of a run is not above that of the run before it.
    NotRising,
    /// A side of a run has 0, or a weight above 7FFF at level 1 or above FFFF at the others.
    OutOfRange,
    /// Level 2 does not send 0020 to itself, or level 3 does not send 0002 to itself.
    Fixed,
}

/// Runs are rejected: the first run with an error, and why.
#[derive(Clone, Copy, Debug, PartialEq, Eq, Error)]
pub struct MapFault {
    /// The index of the run, from 0; for `Fixed` the number of runs.
    pub run: usize,
    /// Why it is rejected.
    pub kind: MapFaultKind,
}

impl MapFaultKind {
    /// The name of the kind, as it is written in an error line.
    pub fn name(self) -> &'static str
        ensures { result.now ≡ map_kind_text self }
    {
        match self {
            MapFaultKind::Empty => "Empty",
            MapFaultKind::NotRising => "NotRising",
            MapFaultKind::OutOfRange => "OutOfRange",
            MapFaultKind::Fixed => "Fixed",
        }
    }
}

impl fmt::Display for MapFault {
    ghost output = { λ fault. Some (map_kind_text fault.kind) };

    fn fmt<W: fmt::Write>(&self, f: &mut fmt::Formatter<W>) -> fmt::Result {
        f.write_str(self.kind.name())
    }
}

/// A map of the weights of a level. Of two weights that it maps the greater has the greater image, and 0 stays 0. At
/// level 1 each weight from 8000 up is its own image, and those below have images below 8000. Level 2 keeps 0020 and
/// level 3 keeps 0002, which implicit weights have (UTS #10, section 10.1.3).
#[derive(Drop)]
pub struct WeightMap<A: Allocator = Global> {
    level: Level,
    runs: Vec<Run, A>,
}

impl<A: Allocator> Model for WeightMap<A> {
    ghost use Rattle.uca_weights.specs.Runs.{MapContent, AreProperRuns};

    ghost Value = { MapContent };

    ghost view = { λ m. record { level = m.level; runs = m.runs.items } };

    ghost invariant = { λ m. AreProperRuns m.level m.runs.items };
}

impl<A: Allocator> WeightMap<A> {
    /// The map of a level by its runs. It takes no memory.
    ///
    /// # Errors
    ///
    /// The first run that has an error, in the order `Empty`, `OutOfRange`, `NotRising`; if no run has one, `Fixed`.
    pub fn from_runs(level: Level, runs: Vec<Run, A>) -> Result<WeightMap<A>, MapFault>
        ensures map { IfOk result (λ map. map ≡ record { level = level; runs = runs.items }) }
        ensures proper { IfOk result (λ map. AreProperRuns level runs.items) }
        ensures fault { IfErr result (IsMapFault level runs.items) }
    {
        match first_fault(level, &runs) {
            Some(fault) => Err(fault),
            None => Ok(WeightMap { level, runs }),
        }
    }

    /// The image of a weight, or `None` if it has none. 0 is its own image. At level 1 each weight from 8000 up is its
    /// own image too. A weight of a run has its image there.
    pub fn get(&self, weight: u16) -> Option<u16>
        ensures { result ≡ weight_image self.now.level self.now.runs weight }
    {
        image(self.level, &self.runs, weight)
    }

    /// The runs, in rising order.
    pub fn runs(&self) -> &[Run]
        ensures value { result.now ≡ self.now.runs }
        ensures proper { AreProperRuns self.now.level self.now.runs }
        ensures rising { IsRisingMap self.now.level (weight_image self.now.level self.now.runs) }
    {
        &self.runs
    }
}

/// The law that proper runs make a rising map.
pub fn proper_runs_rise()
    ensures { ProperRunsRise }
{}

/// The law that runs with an error make none: so `from_runs` is `Ok` exactly if the runs are proper.
pub fn faulty_runs_are_not_proper()
    ensures { FaultyRunsAreNotProper }
{}

/// The law that a map whose runs have the same weights on both sides moves no weight.
pub fn runs_that_stay_keep_weights()
    ensures { RunsThatStayKeepWeights }
{}

// The first error of some runs, or `None` if they make a map.
fn first_fault(level: Level, runs: &[Run]) -> Option<MapFault>
    ensures { MatchOption result (AreProperRuns level runs.now) (IsMapFault level runs.now) }
{
    let mut previous = None;
    for (index, run) in runs.iter().enumerate() {
        if let Some(kind) = cause(level, previous, *run) {
            return Some(MapFault { run: index, kind });
        }
        previous = Some(*run);
    }
    if keeps_pair_weight(level, runs) {
        return None;
    }
    Some(MapFault {
        run: runs.len(),
        kind: MapFaultKind::Fixed,
    })
}

// The first cause that a run has after the run before it.
fn cause(level: Level, previous: Option<Run>, run: Run) -> Option<MapFaultKind>
    ensures { MatchOption result (IsProperRun level previous run) (RefusesRun level previous run) }
{
    if run.count == 0 {
        return Some(MapFaultKind::Empty);
    }
    if !is_in_range(level, run) {
        return Some(MapFaultKind::OutOfRange);
    }
    if !is_above(previous, run) {
        return Some(MapFaultKind::NotRising);
    }
    None
}

// Whether both sides of a run are weights of the level other than 0.
fn is_in_range(level: Level, run: Run) -> bool
    ensures { IsTrue result ↔ IsInRange level run }
{
    let end = weights_end(level);
    is_side_in_range(run.from, run.count, end) && is_side_in_range(run.to, run.count, end)
}

// Whether the weights of a side of a run are not 0 and below `end`.
fn is_side_in_range(first: u16, count: u16, end: u32) -> bool
    ensures { IsTrue result ↔ (0 < first) × (first + count ≤ end) }
{
    first > 0 && u32::from(first) + u32::from(count) <= end
}

// The least number above the weights of a level that a run may have.
fn weights_end(level: Level) -> u32
    ensures { result ≡ map_runs.weights_end level }
{
    match level {
        Level::One => 0x8000,
        Level::Two | Level::Three => 0x1_0000,
    }
}

// Whether the run lies above the one before it, if there is one, on both sides.
fn is_above(previous: Option<Run>, run: Run) -> bool
    ensures { IsTrue result ↔ IsAbove previous run }
{
    let Some(before) = previous else {
        return true;
    };
    let count = u32::from(before.count);
    u32::from(before.from) + count <= u32::from(run.from)
        && u32::from(before.to) + count <= u32::from(run.to)
}

// Whether the weight of implicit weights at levels 2 and 3 stays.
fn keeps_pair_weight(level: Level, runs: &[Run]) -> bool
    requires { AreRising level None runs.now }
    ensures { IsTrue result ↔ KeepsPairWeight level runs.now }
{
    match level {
        Level::One => true,
        Level::Two => image(level, runs, 0x20) == Some(0x20),
        Level::Three => image(level, runs, 2) == Some(2),
    }
}

// The image of a weight of a level by rising runs.
fn image(level: Level, runs: &[Run], weight: u16) -> Option<u16>
    requires { AreRising level None runs.now }
    ensures { result ≡ weight_image level runs.now weight }
{
    if is_kept(level, weight) {
        return Some(weight);
    }
    let at = place(runs, weight);
    if at == runs.len() || weight < runs[at].from {
        return None;
    }
    Some(runs[at].to + (weight - runs[at].from))
}

// Whether the weight is its own image with any runs.
fn is_kept(level: Level, weight: u16) -> bool
    ensures { (runs : List Run) → weight_image level runs weight ≡ cond result (Some weight) (run_image runs weight) }
{
    match level {
        Level::One => weight == 0 || weight >= 0x8000,
        Level::Two | Level::Three => weight == 0,
    }
}

// The position of the first run that ends above the weight.
fn place(runs: &[Run], weight: u16) -> usize
    requires { IsNonDecreasingBy (λ r. r.from + r.count) runs.now }
    ensures bound { result ≤ length runs.now }
    ensures place { IsPartitionPoint (λ r. r.from + r.count ≤ weight) (λ r. weight < r.from + r.count) runs.now result }
{
    runs.partition_point(|run| u32::from(run.from) + u32::from(run.count) <= u32::from(weight))
}
