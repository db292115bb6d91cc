//! The rows of a table in their order, for lookups that go through all of them. `RowList` is a plain lookup with the
//! contract of a `Trie`. It takes no memory, and the tests compare the two.
ghost use Rattle.std.specs.Prelude.{◌≡◌, ◌↔◌, ℕ, ◌+◌, List, [], ◌∷◌, ◌++◌, length, take, IsTrue};
ghost use Rattle.uca_elements.specs.Rows.{rows_of};
ghost use Rattle.uca_match.specs.RowLists.{node_text};

use std::alloc::{Allocator, Global};
use uca_elements::Lookup;
use uca_values::{Row, Table};
use uca_weights::Element;

/// The rows of a table, in which each step and each look at a key goes through all rows.
#[derive_where(Clone, Copy)]
pub struct RowList<'a, A: Allocator = Global> {
    pub(crate) rows: &'a [Row<A>],
}

/// The first code points of the key of a row.
#[derive(Clone, Copy)]
pub struct RowNode {
    row: usize,
    len: usize,
}

impl<'a, A: Allocator> RowList<'a, A> {
    /// The rows of `table`. This takes no memory.
    pub fn new(table: &'a Table<A>) -> Self
        ensures { (key : List ℕ) → ⟦<RowList<'a, A> as Lookup>⟧.content result key ≡ rows_of table.now.rows key }
    {
        RowList { rows: &table.rows }
    }

    /// The code points that a node stands for.
    fn beginning(&self, node: RowNode) -> &'a [char]
        ensures { result.now ≡ node_text self.now.rows.now node }
    {
        let rows = self.rows;
        if node.row >= rows.len() {
            return &[];
        }
        let row = &rows[node.row];
        let len = node.len.min(row.key.len());
        &row.key[..len]
    }
}

/// Whether a key begins with some code points followed by one more.
fn begins(key: &[char], start: &[char], c: char) -> bool
    ensures { IsTrue result ↔ (take (length start.now + 1) key.now ≡ start.now ++ c ∷ []) }
{
    let len = start.len();
    if len >= key.len() || key[len] != c {
        return false;
    }
    &key[..len] == start
}

impl<'a, A: Allocator> Lookup for RowList<'a, A> {
    type Node = RowNode;

    ghost content = { λ s. rows_of s.rows.now };

    ghost stands_for = { λ s node key. key ≡ node_text s.rows.now node };

    fn root(&self) -> RowNode {
        RowNode { row: 0, len: 0 }
    }

    fn step(&self, node: RowNode, c: char) -> Option<RowNode> {
        let start = self.beginning(node);
        for (i, row) in self.rows.iter().enumerate() {
            if begins(&row.key, start, c) {
                return Some(RowNode {
                    row: i,
                    len: start.len() + 1,
                });
            }
        }
        None
    }

    fn elements(&self, node: RowNode) -> Option<&[Element]> {
        let key = self.beginning(node);
        for row in self.rows {
            if row.key.as_slice() == key {
                return Some(&row.elements);
            }
        }
        None
    }
}
