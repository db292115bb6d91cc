//! `KeyBuffers`: what compact keys are written with.

ghost use Rattle.std.specs.Prelude.{◌≡◌, ◌≤◌, length, OnOk};
ghost use Rattle.uca_compact.specs.Forms.{Form};
ghost use Rattle.uca_compact.specs.inside.Places.{AreTrueEntries};

use std::alloc::{AllocError, Allocator};

/// How many weights have entries of their own. Two weights that are a multiple of so many apart share one.
pub(crate) const ENTRIES: usize = 2048;

/// How many hints there are.
pub(crate) const HINTS: usize = 4096;

/// What a weight of level 1 is written as.
#[derive(Clone, Copy)]
pub(crate) struct Entry {
    /// The bytes that it is written as, three at most, and others after them. All four are copied at once.
    pub(crate) code: [u8; 4],
    /// The weight, or 0 where the entry says nothing.
    pub(crate) weight: u16,
    /// How many bytes it is written as.
    pub(crate) len: u8,
}

/// An entry that says nothing.
const NO_ENTRY: Entry = Entry {
    code: [0; 4],
    weight: 0,
    len: 0,
};

/// Memory that is used again for each compact key.
#[derive(Drop)]
pub(crate) struct KeyBuffers<A: Allocator> {
    /// What weights of level 1 were written as. What they say has to be true of the book.
    pub(crate) entries: Vec<Entry, A>,
    /// Indexes of cells that are tried before all cells are searched. No contract says that they are the right ones. At
    /// level 1 each is for 16 weights, and at level 4 for weights that are 4,096 apart. Both levels share the list.
    pub(crate) hints: Vec<u8, A>,
    /// Room for a compact key, from which it is copied once. So the bytes of the caller need not be filled first.
    pub(crate) codes: Vec<u8, A>,
}

impl<A: Allocator + Copy> KeyBuffers<A> {
    /// No entries, no hints and no room. They take no memory yet.
    #[tactic(auto, unfolding(crate::specs::inside::Places::AreTrueEntries))]
    pub(crate) fn new(alloc: A) -> KeyBuffers<A>
        ensures { (f : Form) → AreTrueEntries f result.entries.items }
    {
        KeyBuffers {
            entries: Vec::new(alloc),
            hints: Vec::new(alloc),
            codes: Vec::new(alloc),
        }
    }
}

impl<A: Allocator> KeyBuffers<A> {
    /// Takes the memory of the entries and of the hints, and room for so many bytes, unless all are there.
    pub(crate) fn open(&mut self, bytes: usize) -> Result<(), AllocError>
        ensures true_entries { (f : Form) → AreTrueEntries f self.old.entries.items → AreTrueEntries f self.new.entries.items }
        ensures entries { OnOk result (length self.new.entries.items ≡ 2048) }
        ensures hints { OnOk result (length self.new.hints.items ≡ 4096) }
        ensures codes { OnOk result (bytes ≤ length self.new.codes.items) }
    {
        open_entries(&mut self.entries)?;
        if self.hints.len() != HINTS {
            self.hints.resize(HINTS, 0)?;
        }
        if self.codes.len() < bytes {
            self.codes.resize(bytes, 0)?;
        }
        Ok(())
    }
}

// Takes the memory of the entries, unless it is there.
#[tactic(auto, unfolding(crate::specs::inside::Places::AreTrueEntries))]
fn open_entries<A: Allocator>(entries: &mut Vec<Entry, A>) -> Result<(), AllocError>
    ensures true_entries { (f : Form) → AreTrueEntries f entries.old.items → AreTrueEntries f entries.new.items }
    ensures len { OnOk result (length entries.new.items ≡ 2048) }
{
    if entries.len() != ENTRIES {
        entries.clear();
        entries.resize(ENTRIES, NO_ENTRY)?;
    }
    Ok(())
}
