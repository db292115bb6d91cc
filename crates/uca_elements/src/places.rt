//! Positions in a text some of whose non-starters have been removed.
ghost use Rattle.std.specs.Prelude.{◌≡◌, ◌≢◌, ℕ, ◌-◌, ◌<◌, ◌≤◌, true, false, length};
ghost use Rattle.uca_elements.specs.Places.{is_gone, left_at, left_of, IsPlace};

use uca_text::Normal;

/// A position in a text, and which code points have been removed from the run of non-starters around it.
///
/// What is left of the text from there on is its code points from `at` on that have not been removed.
#[derive(Clone, Copy)]
pub struct Place {
    /// Where to read on.
    pub at: usize,
    /// Where the run begins, at `at` or before it.
    pub run: usize,
    /// The position after the run, as far as it has been gone through, at `at` or after it.
    pub end: usize,
    /// Which code points of the run have been removed: bit i stands for the code point at `run + i`. No run is
    /// longer than 64.
    pub removed: u64,
}

impl Place {
    /// The beginning of a text, from which nothing has been removed.
    pub fn start() -> Place
        ensures { result ≡ record { at = 0; run = 0; end = 0; removed = 0 } }
    {
        Place {
            at: 0,
            run: 0,
            end: 0,
            removed: 0,
        }
    }

    /// Whether the code point at `i` has been removed.
    pub fn is_removed(self, i: usize) -> bool
        ensures { result ≡ is_gone self i }
    {
        if i < self.run || i - self.run >= 64 {
            return false;
        }
        (self.removed >> (i - self.run)) & 1 == 1
    }

    /// This position, after the code point at `i` has been removed too.
    pub fn with_removed(self, i: usize) -> Place
        requires after { self.run ≤ i }
        requires near { i - self.run < 64 }
        ensures here { is_gone result i ≡ true }
        ensures elsewhere { (k : ℕ) → k ≢ i → is_gone result k ≡ is_gone self k }
        ensures at { result.at ≡ self.at }
        ensures run { result.run ≡ self.run }
        ensures end { result.end ≡ self.end }
    {
        Place {
            removed: self.removed | (1 << (i - self.run)),
            ..self
        }
    }

    /// The position to read on from at `at`, which is after it.
    pub fn moved(self, text: &Normal, at: usize) -> Place
        requires place { IsPlace text.now self }
        requires after { self.at ≤ at }
        requires within { at ≤ length text.now.points }
        ensures place { IsPlace text.now result }
        ensures at { result.at ≡ at }
        ensures left { left_of text.now result ≡ left_at text.now self at }
    {
        let _text = text;
        if at <= self.end {
            return Place { at, ..self };
        }
        Place {
            at,
            run: at,
            end: at,
            removed: 0,
        }
    }

    /// The first position from this one on whose code point has not been removed, or the end of the text.
    pub fn first_left(self, text: &Normal) -> usize
        requires { IsPlace text.now self }
        ensures after { self.at ≤ result }
        ensures within { result ≤ length text.now.points }
        ensures left { left_at text.now self result ≡ left_of text.now self }
        ensures kept { result < length text.now.points → is_gone self result ≡ false }
    {
        let len = text.chars().len();
        let mut i = self.at;
        while i < len && self.is_removed(i) {
            i += 1;
        }
        i
    }
}
