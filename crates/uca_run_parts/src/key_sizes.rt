//! How many bytes keys and their compact keys have, so that the command can say that compact keys are long. No contract speaks of it.

use uca_weights::{Depth, Weighting};

/// How many bytes keys have together, and their compact keys. Both counts stop at `u64::MAX`.
#[derive(Clone, Copy)]
pub struct KeySizes {
    whole: u64,
    compact: u64,
    // how many levels a key has that are about as long as one another; 0 where they are not
    levels: u64,
}

impl KeySizes {
    /// The sizes of no keys.
    pub fn new() -> KeySizes {
        KeySizes {
            whole: 0,
            compact: 0,
            levels: 0,
        }
    }

    /// These sizes, as those of keys of this weighting at this depth. At an identical level nothing is said of them, since its code points
    /// take one to four bytes in a compact key.
    pub fn at(&self, weighting: Weighting, depth: Depth) -> KeySizes {
        let levels = match (depth, weighting) {
            (Depth::Weights, Weighting::NonIgnorable) => 3,
            (Depth::Weights, Weighting::Shifted) => 4,
            (Depth::Identical, _) => 0,
        };
        KeySizes { levels, ..*self }
    }

    /// Adds a key of so many bytes, and its compact key.
    pub fn add(&mut self, whole: usize, compact: usize) {
        self.whole = self.whole.saturating_add(whole as u64);
        self.compact = self.compact.saturating_add(compact as u64);
    }

    /// Whether another book would make shorter compact keys. So it is where they have more than 1.3 times the bytes of the first level of
    /// the keys. By a book for the table they have about half of these bytes, and by another one often one and a half times as many. Fewer
    /// than 500 bytes of keys tell nothing.
    pub fn are_long(&self) -> bool {
        let compact = self.compact.saturating_mul(10).saturating_mul(self.levels);
        self.whole >= 500 && compact > self.whole.saturating_mul(13)
    }
}
