//! What is counted, also through a `&`.

use std::cell::Cell;

/// The allocations so far.
#[derive(Drop)]
pub struct Counts {
    /// How many were asked since the last choice.
    pub asked: Cell<u32>,
    /// Which of them is rejected, counted from 0.
    pub refused: Cell<Option<u32>>,
    /// The blocks that are out: given to callers, and not given back.
    pub held: Cell<u32>,
}

impl Counts {
    /// Nothing was asked, nothing is rejected, and no block is out.
    pub const fn new() -> Counts {
        Counts {
            asked: Cell::new(0),
            refused: Cell::new(None),
            held: Cell::new(0),
        }
    }

    /// Counts an allocation, and says whether it is the one that is rejected.
    pub fn is_refused(&self) -> bool {
        let asked = self.asked.get();
        self.asked.set(asked.saturating_add(1));
        self.refused.get() == Some(asked)
    }

    /// A block was given to a caller.
    pub fn take(&self) {
        self.held.set(self.held.get().saturating_add(1));
    }

    /// A block was given back.
    pub fn give(&self) {
        self.held.set(self.held.get().saturating_sub(1));
    }
}
