//! Makes the map of a level from the moves of its weights, so that it rises.

ghost use Rattle.std.specs.Prelude.{◌≡◌, IfOk};
ghost use Rattle.uca_editions.specs.inside.LeastMaps as least_maps;

use crate::chains::{Step, heaviest_chain};
use crate::moves::{Move, fixed_weight, push_rows};
use std::alloc::{AllocError, Allocator};
use uca_elements::Lookup;
use uca_values::Row;
use uca_weights::{Level, Run, WeightMap};

/// A rising map of a level's weights that sends them as most rows do. An error means that it ran out of memory.
pub(crate) fn level_map<A: Allocator + Copy, L: Lookup>(
    alloc: A,
    level: Level,
    rows: &[Row<A>],
    new: &L,
) -> Result<WeightMap<A>, AllocError>
    ensures { IfOk result (λ map. map.level ≡ level) }
{
    match WeightMap::from_runs(level, level_runs(alloc, level, rows, new)?) {
        Ok(map) => Ok(map),
        Err(_) => least_map(alloc, level),
    }
}

// The runs of the heaviest chain of moves. There is a move for each weight of each old row whose new row has the same shape.
// There is one more for the weight that has to stay.
fn level_runs<A: Allocator + Copy, L: Lookup>(
    alloc: A,
    level: Level,
    rows: &[Row<A>],
    new: &L,
) -> Result<Vec<Run, A>, AllocError> {
    let mut moves = Vec::new(alloc);
    if let Some(weight) = fixed_weight(level) {
        moves.push(Move {
            old: weight,
            new: weight,
        })?;
    }
    match push_rows(&mut moves, level, rows, new) {
        Ok(()) => runs_by(alloc, &mut moves),
        Err(error) => Err(error),
    }
}

// The runs of the heaviest chain of these moves.
fn runs_by<A: Allocator + Copy>(alloc: A, moves: &mut [Move]) -> Result<Vec<Run, A>, AllocError> {
    let chain = heaviest_chain(alloc, moves)?;
    runs_of(alloc, &chain)
}

/// The map that has the weight that stays, and no other. An error means that it ran out of memory.
pub(crate) fn least_map<A: Allocator>(alloc: A, level: Level) -> Result<WeightMap<A>, AllocError>
    ensures { IfOk result (λ map. map.level ≡ level) }
{
    match WeightMap::from_runs(level, least_runs(alloc, level)?) {
        Ok(map) => Ok(map),
        Err(_) => unreachable!(),
    }
}

// The run of the weight that stays, if the level has one.
fn least_runs<A: Allocator>(alloc: A, level: Level) -> Result<Vec<Run, A>, AllocError>
    ensures { IfOk result (λ runs. runs.items ≡ least_maps.least_runs level) }
{
    match fixed_weight(level) {
        None => Ok(Vec::new(alloc)),
        Some(weight) => Ok(vec![in alloc; first_run(weight, weight)]?),
    }
}

// The runs of a chain.
fn runs_of<A: Allocator>(alloc: A, chain: &[Step]) -> Result<Vec<Run, A>, AllocError> {
    let mut runs = Vec::new(alloc);
    for step in chain {
        add_to_runs(&mut runs, step.is)?;
    }
    Ok(runs)
}

// Adds a move: to the last run if it comes directly after it, and as a run of its own otherwise.
fn add_to_runs<A: Allocator>(runs: &mut Vec<Run, A>, step: Move) -> Result<(), AllocError> {
    if let Some(last) = runs.last_mut() {
        if is_next(*last, step) {
            last.count = last.count.saturating_add(1);
            return Ok(());
        }
    }
    match runs.push(first_run(step.old, step.new)) {
        Ok(()) => Ok(()),
        Err(_) => Err(AllocError),
    }
}

// The run of one weight and its image.
fn first_run(from: u16, to: u16) -> Run
    ensures { result ≡ record { from = from; to = to; count = 1 } }
{
    Run { from, to, count: 1 }
}

// Whether both weights of a move come directly after those of a run.
fn is_next(run: Run, step: Move) -> bool {
    run.from.checked_add(run.count) == Some(step.old)
        && run.to.checked_add(run.count) == Some(step.new)
}
