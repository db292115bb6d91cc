//! `TailorFault`: why there is no plan of rules over a base, and for which relation.

ghost use Rattle.std.specs.Prelude.{◌≡◌, ◌≤◌, length, Some};
ghost use Rattle.uca_weights.specs.Levels as levels;
ghost use Rattle.uca_plans.specs.FaultText.{tailor_kind_text, tailor_fault_text};

use std::alloc::AllocError;
use std::fmt;
use thiserror::Error;
use uca_weights::{Level, Message};

/// Why there is no plan of rules over a base.
#[derive(Clone, Copy, Debug, PartialEq, Eq)]
pub enum TailorKind {
    /// The base is not well-formed (UTS #10, section 9.2).
    BaseIllFormed,
    /// The elements of an anchor have no last one that a new weight can be put on.
    Anchor,
    /// A target of three or more code points ends in a non-starter, and without it is neither a base key nor the target
    /// of an earlier relation.
    NeedsPrefix,
    /// On one side of the weight that stays, a level has more weights than numbers. At level 2 that weight is 0020, and
    /// at level 3 it is 0002. At level 1 there is none: the weights below 8000 would be more than 32,767.
    NoRoom(Level),
    /// A target has more than 32 elements, or the table more than 200,000 rows.
    Limit,
    /// A target has an element of implicit weights (UTS #10, section 10.1.3) whose primary is from the least to the
    /// greatest primary of the base's variable elements. So this element would have to be variable.
    ImplicitVariable,
    /// An allocation failed.
    Memory,
}

impl TailorKind {
    /// Its text: `NeedsPrefix`, `NoRoom 3`.
    pub fn message(&self) -> Message
        ensures text { result ≡ tailor_kind_text self.now }
        ensures short { length result ≤ 40 }
    {
        match self {
            TailorKind::BaseIllFormed => Message::of("BaseIllFormed"),
            TailorKind::Anchor => Message::of("Anchor"),
            TailorKind::NeedsPrefix => Message::of("NeedsPrefix"),
            TailorKind::NoRoom(level) => Message::of("NoRoom ").number(level_number(*level).into()),
            TailorKind::Limit => Message::of("Limit"),
            TailorKind::ImplicitVariable => Message::of("ImplicitVariable"),
            TailorKind::Memory => Message::of("Memory"),
        }
    }
}

impl fmt::Display for TailorKind {
    ghost output = { λ kind. Some (tailor_kind_text kind) };

    fn fmt<W: fmt::Write>(&self, f: &mut fmt::Formatter<W>) -> fmt::Result {
        f.write_str(self.message().as_str())
    }
}

/// There is no plan of rules over a base.
#[derive(Clone, Copy, Debug, PartialEq, Eq, Error)]
pub struct TailorFault {
    /// Why.
    pub kind: TailorKind,
    /// The relation, counted from 1; 0 if the error is not that of a single relation.
    pub relation: u32,
}

impl TailorFault {
    /// Its text: `relation 3: NeedsPrefix`, `NoRoom 3`.
    pub fn message(&self) -> Message
        ensures text { result ≡ tailor_fault_text self.now }
        ensures short { length result ≤ 100 }
    {
        if self.relation == 0 {
            return self.kind.message();
        }
        Message::of("relation ")
            .number(self.relation.into())
            .text(": ")
            .text(self.kind.message().as_str())
    }
}

impl fmt::Display for TailorFault {
    ghost output = { λ fault. Some (tailor_fault_text fault) };

    fn fmt<W: fmt::Write>(&self, f: &mut fmt::Formatter<W>) -> fmt::Result {
        f.write_str(self.message().as_str())
    }
}

impl From<AllocError> for TailorFault {
    ghost use Rattle.uca_plans.specs.Tailors.{out_of_memory};

    ghost from_gives = { λ _ fault. fault ≡ out_of_memory };

    fn from(_error: AllocError) -> TailorFault {
        TailorFault {
            kind: TailorKind::Memory,
            relation: 0,
        }
    }
}

/// The number of a level, from 1.
pub fn level_number(level: Level) -> u8
    ensures { result ≡ levels.level_number level }
{
    match level {
        Level::One => 1,
        Level::Two => 2,
        Level::Three => 3,
    }
}
