//! A move: an old weight with the weight at its position in the new row. Each row votes for its moves.
//!
//! For each weight the image is kept that most rows give, as far as the images rise.

ghost use Rattle.std.specs.Prelude.{◌≡◌};
ghost use Rattle.uca_editions.specs.inside.LeastMaps as least_maps;

use std::alloc::{AllocError, Allocator};
use uca_elements::{Lookup, row_of};
use uca_values::Row;
use uca_weights::{Element, Level};

/// The greatest weight of level 1 that a map may move.
const MOST_PRIMARY: u16 = 0x7FFF;

/// A weight of an old row, and the weight at its position in the new row.
#[derive(Clone, Copy, PartialEq)]
pub(crate) struct Move {
    pub(crate) old: u16,
    pub(crate) new: u16,
}

/// The weight of a level that its map sends to itself, if it has one.
pub(crate) fn fixed_weight(level: Level) -> Option<u16>
    ensures { result ≡ least_maps.fixed_weight level }
{
    match level {
        Level::One => None,
        Level::Two => Some(0x20),
        Level::Three => Some(2),
    }
}

/// Adds the moves of a level that a map may have: one for each weight of each old row whose new row has the same shape. An error
/// means that it ran out of memory.
pub(crate) fn push_rows<A: Allocator, L: Lookup>(
    moves: &mut Vec<Move, A>,
    level: Level,
    rows: &[Row<A>],
    new: &L,
) -> Result<(), AllocError> {
    for row in rows {
        if let Some(elements) = row_of(new, &row.key) {
            push_moves(moves, level, &row.elements, elements)?;
        }
    }
    Ok(())
}

// Adds the moves of a row's elements, if those of the new row have the same shape.
fn push_moves<A: Allocator>(
    moves: &mut Vec<Move, A>,
    level: Level,
    old: &[Element],
    new: &[Element],
) -> Result<(), AllocError> {
    if !have_same_shape(old, new) {
        return Ok(());
    }
    for at in 0..old.len().min(new.len()) {
        push_move(moves, level, old[at], new[at])?;
    }
    Ok(())
}

// Adds the move of two elements, if a map of the level may have it.
fn push_move<A: Allocator>(
    moves: &mut Vec<Move, A>,
    level: Level,
    old: Element,
    new: Element,
) -> Result<(), AllocError> {
    let old = weight(level, old);
    let new = weight(level, new);
    if !is_possible(level, old, new) {
        return Ok(());
    }
    match moves.push(Move { old, new }) {
        Ok(()) => Ok(()),
        Err(_) => Err(AllocError),
    }
}

// Whether a map of the level may send one weight to the other.
fn is_possible(level: Level, old: u16, new: u16) -> bool {
    if old == 0 || new == 0 {
        return false;
    }
    match fixed_weight(level) {
        None => old <= MOST_PRIMARY && new <= MOST_PRIMARY,
        Some(fixed) => (old < fixed) == (new < fixed) && (old > fixed) == (new > fixed),
    }
}

// Whether there are as many elements, with the same marks, and with zeros at the same positions.
fn have_same_shape(old: &[Element], new: &[Element]) -> bool {
    if old.len() != new.len() {
        return false;
    }
    for at in 0..old.len() {
        if !is_same_shape(old[at], new[at]) {
            return false;
        }
    }
    true
}

// Whether the marks of two elements are the same, and so are the levels at which their weight is 0.
fn is_same_shape(old: Element, new: Element) -> bool {
    old.mark == new.mark
        && (old.primary == 0) == (new.primary == 0)
        && (old.secondary == 0) == (new.secondary == 0)
        && (old.tertiary == 0) == (new.tertiary == 0)
}

// An element's weight at a level.
fn weight(level: Level, element: Element) -> u16 {
    match level {
        Level::One => element.primary,
        Level::Two => element.secondary,
        Level::Three => element.tertiary,
    }
}
