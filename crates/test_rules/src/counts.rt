//! `Counts`: how many files were judged, and which of them were accepted.

use std::test::Fail;

/// How many were judged, and which of them were accepted.
#[derive(Clone, Copy, PartialEq, Eq)]
pub struct Counts {
    /// How many were judged.
    pub judged: usize,
    /// How many of them were accepted.
    pub accepted: usize,
    /// The sum of the numbers of those that were accepted, where the first one judged has the number 1.
    pub sum: usize,
}

impl Counts {
    /// Of nothing.
    pub fn new() -> Counts {
        Counts {
            judged: 0,
            accepted: 0,
            sum: 0,
        }
    }

    /// Counts one more.
    pub fn count(&mut self, is_accepted: bool) {
        self.judged = self.judged.saturating_add(1);
        if is_accepted {
            self.accepted = self.accepted.saturating_add(1);
            self.sum = self.sum.saturating_add(self.judged);
        }
    }

    /// Fails unless they are these.
    pub fn check(self, wanted: Counts) -> Result<(), Fail> {
        if self == wanted {
            return Ok(());
        }
        let Counts {
            judged,
            accepted,
            sum,
        } = self;
        Err(Fail::new(format_args!("{accepted} accepted of {judged}, with the sum {sum}")))
    }
}
