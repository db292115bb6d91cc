//! Tables whose rows are kept in three lists, however many rows there are: for programs that look keys up, and need no
//! list for each row.
//!
//! A table of 33,000 rows has 66,000 lists, a key and elements for each row. Where rows are only looked up they are
//! packed (`PackedRows`). One list has the code points of all keys, one has all elements, and a third one says where
//! each row has its part of both. Reading packs the rows, and a `Trie` takes them over. `read_table` unpacks them.
ghost use Rattle.std.specs.Prelude.{◌≡◌, ◌<◌, ℕ, List, [], ◌∷◌, ◌++◌, length, take, slice_index_or, IfOk, IfErr, OnOk, OnErr};
ghost use Rattle.uca_weights.specs.declared.Element.{Element};
ghost use Rattle.uca_values.specs.Content.{Entry};
ghost use Rattle.uca_values.specs.inside.RowParts.{last_span};

use crate::{Header, Row, Table};
use std::alloc::{AllocError, Allocator, Global};
use std::marker::Model;
use uca_weights::Element;

/// Where a list is among others in one list: where it begins, and the position after it.
#[derive(Clone, Copy)]
pub(crate) struct Span {
    pub(crate) start: usize,
    pub(crate) end: usize,
}

/// Where the key and the elements of a row are.
#[derive(Clone, Copy)]
pub(crate) struct RowSpans {
    pub(crate) key: Span,
    pub(crate) elements: Span,
}

/// Rows: a list of the code points of all keys, a list of all elements, and where each row has its part of both.
#[derive(Drop)]
pub struct PackedRows<A: Allocator = Global> {
    spans: Vec<RowSpans, A>,
    points: Vec<char, A>,
    elements: Vec<Element, A>,
}

impl<A: Allocator> Model for PackedRows<A> {
    ghost use Rattle.std.specs.Prelude.{List};
    ghost use Rattle.uca_values.specs.Content.{Entry};
    ghost use Rattle.uca_values.specs.inside.RowParts.{rows_in, AreSpans};

    ghost Value = { List Entry };

    ghost view = { λ r. rows_in r.points.items r.elements.items r.spans.items };

    ghost invariant = { λ r. AreSpans r.points.items r.elements.items r.spans.items };
}

impl<A: Allocator + Copy> PackedRows<A> {
    /// No rows. This takes no memory.
    pub fn new(alloc: A) -> Self
        ensures { result ≡ [] }
    {
        PackedRows {
            spans: Vec::new(alloc),
            points: Vec::new(alloc),
            elements: Vec::new(alloc),
        }
    }

    /// Copies of rows, in their order.
    ///
    /// # Errors
    ///
    /// An allocation that fails.
    pub fn of_rows<T: Allocator>(alloc: A, rows: &[Row<T>]) -> Result<Self, AllocError>
        ensures { IfOk result (λ packed. packed ≡ rows.now) }
    {
        let mut packed = PackedRows::new(alloc);
        for row in rows {
            packed.push(&row.key, &row.elements)?;
        }
        Ok(packed)
    }
}

impl<A: Allocator> PackedRows<A> {
    /// How many rows there are.
    pub fn len(&self) -> usize
        ensures { result ≡ length self.now }
    {
        self.spans.len()
    }

    /// The key of the row at a position.
    pub fn key(&self, at: usize) -> &[char]
        requires { at < length self.now }
        ensures { (d : Entry) → result.now ≡ (slice_index_or self.now at d).key }
    {
        let span = self.spans[at].key;
        &self.points[span.start..span.end]
    }

    /// The elements of the row at a position.
    pub fn elements(&self, at: usize) -> &[Element]
        requires { at < length self.now }
        ensures { (d : Entry) → result.now ≡ (slice_index_or self.now at d).elements }
    {
        let span = self.spans[at].elements;
        &self.elements[span.start..span.end]
    }

    /// Adds a row after the others: copies of its key and of its elements.
    ///
    /// # Errors
    ///
    /// An allocation that fails. Then the rows are the same as before.
    pub fn push(&mut self, key: &[char], elements: &[Element]) -> Result<(), AllocError>
        ensures added { OnOk result (self.new ≡ self.old ++ record { key = key.now; elements = elements.now } ∷ []) }
        ensures unchanged { OnErr result (self.new ≡ self.old) }
    {
        let key = add_elements(&mut self.points, key)?;
        let elements = add_elements(&mut self.elements, elements)?;
        self.spans.push(RowSpans { key, elements })?;
        Ok(())
    }

    /// Keeps the first `len` rows, or all if there are not more.
    pub fn truncate(&mut self, len: usize)
        ensures { self.new ≡ take len self.old }
    {
        self.spans.truncate(len);
    }
}

// Adds elements after the others of a list, and returns where they are.
fn add_elements<T: Copy, A: Allocator>(all: &mut Vec<T, A>, more: &[T]) -> Result<Span, AllocError>
    ensures added { OnOk result (all.new.items ≡ all.old.items ++ more.now) }
    ensures span { IfOk result (λ span. span ≡ last_span all.old.items more.now) }
    ensures unchanged { OnErr result (all.new.items ≡ all.old.items) }
{
    let start = all.len();
    match all.extend_from_slice(more) {
        Ok(()) => Ok(Span {
            start,
            end: all.len(),
        }),
        Err(error) => Err(error),
    }
}

/// A table with its rows in a few lists. It is what a [`Table`] is, and takes less memory.
#[derive(Drop)]
pub struct PackedTable<A: Allocator = Global> {
    /// The lines before the rows.
    pub header: Header<A>,
    /// The rows in file order.
    pub rows: PackedRows<A>,
}

impl<A: Allocator> Model for PackedTable<A> {
    ghost use Rattle.uca_values.specs.Content.{TableContent, AreRows};

    ghost Value = { TableContent };

    ghost view = { λ t. record { header = t.header; rows = t.rows } };

    ghost invariant = { λ t. AreRows t.rows };
}

impl<A: Allocator + Copy> PackedTable<A> {
    /// This table, with a list for each key and for the elements of each row.
    ///
    /// # Errors
    ///
    /// An allocation that fails.
    pub fn unpack(self, alloc: A) -> Result<Table<A>, AllocError>
        ensures { IfOk result (λ table. table ≡ self) }
    {
        let PackedTable { header, rows } = self;
        match unpacked(alloc, &rows) {
            Ok(rows) => Ok(Table { header, rows }),
            Err(error) => Err(error),
        }
    }
}

// Rows, each with its own lists.
fn unpacked<A: Allocator + Copy>(
    alloc: A,
    packed: &PackedRows<A>,
) -> Result<Vec<Row<A>, A>, AllocError>
    ensures { IfOk result (λ rows. rows.items ≡ packed.now) }
{
    let mut rows = Vec::with_capacity(alloc, packed.len())?;
    for at in 0..packed.len() {
        rows.push(row_at(alloc, packed, at)?)?;
    }
    Ok(rows)
}

// A copy of the row at a position.
fn row_at<A: Allocator + Copy>(
    alloc: A,
    rows: &PackedRows<A>,
    at: usize,
) -> Result<Row<A>, AllocError>
    requires { at < length rows.now }
    ensures { IfOk result (λ row. (d : Entry) → row ≡ slice_index_or rows.now at d) }
{
    let key = Vec::from_slice(alloc, rows.key(at))?;
    match Vec::from_slice(alloc, rows.elements(at)) {
        Ok(elements) => Ok(Row { key, elements }),
        Err(error) => Err(error),
    }
}
