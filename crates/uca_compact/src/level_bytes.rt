//! `LevelBytes`: the levels of a key before they are joined.

/// The levels of a key, each as its weights: two bytes for each, the high byte first. A key of the weighting
/// `NonIgnorable` has no variables: those that are there are not read, but room for them is taken.
#[derive(Clone, Copy)]
pub struct LevelBytes<'a> {
    /// Level 1.
    pub letters: &'a [u8],
    /// Level 2.
    pub accents: &'a [u8],
    /// Level 3.
    pub cases: &'a [u8],
    /// Level 4.
    pub variables: &'a [u8],
}
