//! The numbers of a tailored table's weights (`level_numbers`): the list of the weights of a level, and the number of
//! each.
//!
//! Each new weight has an `Insertion` (`uca_plans`): the level, the anchor's weight, and the side. From these and the
//! base's rows the module makes a level's list, which has all weights in their order (`lists.rt`). It gives the numbers
//! in one pass (`levels.rt`, `segments.rt`).

mod levels;
mod lists;
mod segments;

pub(crate) use levels::{LevelNumbers, level_numbers};
