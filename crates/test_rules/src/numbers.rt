//! Numbers that look random and are the same in each run.

/// A sequence of numbers (SplitMix64).
#[derive(Drop)]
pub struct Numbers {
    state: u64,
}

impl Numbers {
    /// The numbers of a seed.
    pub fn new(seed: u64) -> Numbers {
        Numbers { state: seed }
    }

    /// The next number.
    pub fn next(&mut self) -> u64 {
        self.state = self.state.wrapping_add(0x9E37_79B9_7F4A_7C15);
        let mut mixed = self.state;
        mixed = (mixed ^ (mixed >> 30)).wrapping_mul(0xBF58_476D_1CE4_E5B9);
        mixed = (mixed ^ (mixed >> 27)).wrapping_mul(0x94D0_49BB_1331_11EB);
        mixed ^ (mixed >> 31)
    }

    /// The next number, from 0 to 255.
    pub fn byte(&mut self) -> u8 {
        (self.next() & 0xFF) as u8
    }

    /// The next number, below a bound; 0 if the bound is 0.
    pub fn below(&mut self, bound: usize) -> usize {
        match (self.next() >> 1).checked_rem(bound as u64) {
            Some(number) => number as usize,
            None => 0,
        }
    }
}
