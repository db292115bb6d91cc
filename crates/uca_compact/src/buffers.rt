//! The weights of a key, level by level.

use std::alloc::Allocator;

/// The weights of each level of a key. Their memory is used again.
#[derive(Drop)]
pub(crate) struct Levels<A: Allocator> {
    pub(crate) letters: Vec<u16, A>,
    pub(crate) accents: Vec<u16, A>,
    pub(crate) cases: Vec<u16, A>,
    pub(crate) variables: Vec<u16, A>,
}

impl<A: Allocator + Copy> Levels<A> {
    /// Levels that take no memory yet.
    pub(crate) fn new(alloc: A) -> Levels<A> {
        Levels {
            letters: Vec::new(alloc),
            accents: Vec::new(alloc),
            cases: Vec::new(alloc),
            variables: Vec::new(alloc),
        }
    }
}
