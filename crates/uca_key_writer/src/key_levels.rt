//! `KeyLevels`: the levels of a key before they are joined.

/// The levels of a key, each as its weights: two bytes for each, the high byte first. A key of the weighting
/// `NonIgnorable` has no level 4, and what is there says nothing.
#[derive(Clone, Copy)]
pub struct KeyLevels<'a> {
    /// Level 1.
    pub primary: &'a [u8],
    /// Level 2.
    pub secondary: &'a [u8],
    /// Level 3.
    pub tertiary: &'a [u8],
    /// Level 4.
    pub quaternary: &'a [u8],
}
