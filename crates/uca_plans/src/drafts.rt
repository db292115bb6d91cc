//! Weights and elements before they are numbered, and where new weights go.

use uca_weights::Level;

/// A weight before weights are numbered.
#[derive(Clone, Copy, Debug, PartialEq, Eq)]
pub enum DraftWeight {
    /// A weight of the base; 0 means none.
    Base(u16),
    /// The new weight of the relation with this index, from 0.
    New(u32),
}

/// An element before weights are numbered.
#[derive(Clone, Copy, Debug, PartialEq, Eq)]
pub struct DraftElement {
    /// The weight at level 1.
    pub primary: DraftWeight,
    /// The weight at level 2.
    pub secondary: DraftWeight,
    /// The weight at level 3.
    pub tertiary: DraftWeight,
    /// Whether the element is variable.
    pub mark: bool,
    /// Whether the implicit weights of a code point gave it, and not a row.
    pub implicit: bool,
}

/// Where a relation's new weight goes: directly before or after a weight.
#[derive(Clone, Copy)]
pub struct Insertion {
    /// The level whose list it goes into.
    pub level: Level,
    /// Whether it goes before the anchor's weight.
    pub before: bool,
    /// The anchor's weight.
    pub anchor: DraftWeight,
    /// The new weight.
    pub new: DraftWeight,
}

/// The weights above one up to another: the positions for the members of a list.
#[derive(Clone, Copy, Debug, PartialEq, Eq)]
pub struct Segment {
    /// The weight below all positions.
    pub below: u16,
    /// The greatest position.
    pub top: u16,
}
