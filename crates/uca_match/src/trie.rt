//! The rows of a table as a tree of code points, for lookups by a few steps: a `KeyMap` of their keys, and the rows
//! themselves (`PackedRows`).
//!
//! A run builds it once both files are read, before anything else is read.
ghost use Rattle.std.specs.Prelude.{◌≡◌, ℕ, List, option_map, slice_index_or, [], Some, IfOk};
ghost use Rattle.uca_values.specs.Content.{AreRows, keys_of};
ghost use Rattle.uca_elements.specs.Rows.{rows_of};
ghost use Rattle.uca_elements.specs.Positions.{place_at, AreDistinctKeys};
ghost use Rattle.uca_match.specs.Tries.{positions, tree_of, walk};
ghost use Rattle.uca_match.specs.NumberedKeys.{points_of, rows_at};

use crate::{KeyMap, TrieNode};
use std::alloc::{AllocError, Allocator, Global};
use std::marker::Model;
use uca_elements::Lookup;
use uca_elements::key_sets::KeySet;
use uca_values::{Header, PackedRows, PackedTable, Row, Table};
use uca_weights::Element;

/// The rows of a table: a map from their keys to their positions, and the rows.
///
/// A step takes as long as one of a [`KeyMap`]; so does building.
#[derive(Drop)]
pub struct Trie<A: Allocator = Global> {
    keys: KeyMap<A>,
    rows: PackedRows<A>,
}

impl<A: Allocator> Model for Trie<A> {
    ghost use Rattle.std.specs.Prelude.{ℕ, ◌≡◌, ◌<◌, List, length, Some};
    ghost use Rattle.uca_match.specs.Tries.{positions};
    ghost use Rattle.uca_match.specs.NumberedKeys.{TrieContent, elements_of};

    ghost Value = { TrieContent };

    ghost view = { λ t. record { keys = t.keys; rows = elements_of t.rows } };

    ghost invariant = { λ t. (key : List ℕ) (position : ℕ) → positions t.keys key ≡ Some position → position < length t.rows };
}

impl<A: Allocator + Copy> Trie<A> {
    /// The trie of the rows of `table`, with copies of them.
    ///
    /// # Errors
    ///
    /// An allocation that fails.
    pub fn new<T: Allocator>(alloc: A, table: &Table<T>) -> Result<Self, AllocError>
        ensures { IfOk result (λ trie. (key : List ℕ) →
            ⟦<Trie<A> as Lookup>⟧.content trie key ≡ rows_of table.now.rows key) }
    {
        let rows = PackedRows::of_rows(alloc, &table.rows)?;
        trie_of(alloc, rows)
    }

    /// The header of `table`, and the trie of its rows, which takes them over.
    ///
    /// # Errors
    ///
    /// An allocation that fails.
    pub fn of_table(alloc: A, table: PackedTable<A>) -> Result<(Header<A>, Self), AllocError>
        ensures header { IfOk result (λ both. both.0 ≡ table.header) }
        ensures rows { IfOk result (λ both. (key : List ℕ) →
            ⟦<Trie<A> as Lookup>⟧.content both.1 key ≡ rows_of table.rows key) }
    {
        let PackedTable { header, rows } = table;
        match trie_of(alloc, rows) {
            Ok(trie) => Ok((header, trie)),
            Err(error) => Err(error),
        }
    }
}

// The trie of rows, which takes them over.
fn trie_of<A: Allocator + Copy>(alloc: A, rows: PackedRows<A>) -> Result<Trie<A>, AllocError>
    requires { AreRows rows }
    ensures { IfOk result (λ trie. (key : List ℕ) →
        ⟦<Trie<A> as Lookup>⟧.content trie key ≡ rows_of rows key) }
{
    match row_map(alloc, &rows) {
        Ok(keys) => Ok(Trie { keys, rows }),
        Err(error) => Err(error),
    }
}

// The map of the keys of rows to their positions.
fn row_map<A: Allocator + Copy>(alloc: A, rows: &PackedRows<A>) -> Result<KeyMap<A>, AllocError>
    requires { AreDistinctKeys (keys_of rows.now) }
    ensures { IfOk result (λ keymap. (key : List ℕ) → positions keymap key ≡ place_at 0 (keys_of rows.now) key) }
{
    let keys = packed_keys(alloc, rows)?;
    KeyMap::new(alloc, &keys)
}

// The keys of rows, borrowed, in their order.
fn packed_keys<A: Allocator + Copy>(
    alloc: A,
    rows: &PackedRows<A>,
) -> Result<Vec<&[char], A>, AllocError>
    ensures { IfOk result (λ list. points_of list.items ≡ keys_of rows.now) }
{
    let mut list = Vec::with_capacity(alloc, rows.len())?;
    let mut at = 0;
    while at < rows.len() {
        list.push(rows.key(at))?;
        at += 1;
    }
    Ok(list)
}

/// The keys of rows, borrowed, in their order.
///
/// # Errors
///
/// An allocation that fails.
pub fn key_list<A: Allocator, T: Allocator>(
    alloc: A,
    rows: &[Row<T>],
) -> Result<Vec<&[char], A>, AllocError>
    ensures { IfOk result (λ list. points_of list.items ≡ keys_of rows.now) }
{
    let mut list = Vec::with_capacity(alloc, rows.len())?;
    for row in rows {
        list.push(row.key.as_slice())?;
    }
    Ok(list)
}

impl<A: Allocator> Lookup for Trie<A> {
    type Node = TrieNode;

    ghost content = { λ trie. rows_at trie };

    ghost stands_for = { λ trie node key. walk (tree_of trie.keys) 0 key ≡ Some node.number };

    fn root(&self) -> TrieNode {
        self.keys.root()
    }

    fn step(&self, node: TrieNode, c: char) -> Option<TrieNode> {
        self.keys.step(node, c)
    }

    fn elements(&self, node: TrieNode) -> Option<&[Element]> {
        let position = self.keys.position_at(node)?;
        Some(self.rows.elements(position))
    }

    fn may_go_on(&self, node: TrieNode) -> bool {
        self.keys.may_go_on(node)
    }

    fn may_follow(&self, c: char) -> bool {
        self.keys.may_follow(c)
    }
}
