//! The rows of the shorter keys of a batch of rows, all found in one pass over the table.
//!
//! The shorter keys of 4,096 rows are on the stack, so this takes no memory. 200,000 rows that all have one take 49
//! passes. Only of a key that is missing all rows are looked at once more, and that ends the check.

ghost use Rattle.std.specs.Prelude.{◌<◌, length, IfSome};

use super::wf5::shorter_key;
use std::alloc::Allocator;
use uca_values::{Data, Row};

/// How many shorter keys one pass over the rows looks for.
const BATCH: usize = 4096;

/// The rows where the shorter keys of the next rows were found.
///
/// Each is a hint: the search for a shorter key begins at that row, and goes through all rows if the key is not
/// there. Wrong hints, such as those of an earlier batch, cost only time.
#[derive(Drop)]
pub(crate) struct ShorterKeys<'a> {
    /// The shorter keys, sorted; unused positions are empty and come first.
    keys: [&'a [char]; BATCH],
    /// The row where each was found, if it was.
    met: [usize; BATCH],
    /// The first row that no batch has covered.
    end: usize,
}

impl<'a> ShorterKeys<'a> {
    /// Before the first batch.
    pub(crate) fn new() -> ShorterKeys<'a> {
        ShorterKeys {
            keys: [&[]; BATCH],
            met: [0; BATCH],
            end: 0,
        }
    }

    /// Finds the shorter keys of the next batch of rows, if no batch has covered this row.
    pub(crate) fn reach<A: Allocator, B: Allocator>(
        &mut self,
        rows: &'a [Row<A>],
        at: usize,
        data: &Data<B>,
    ) {
        if at == self.end && self.fill(rows, data) {
            self.keys.sort_unstable();
            self.meet(rows);
        }
    }

    /// The row where the search for a shorter key begins: where it was found, if it was, else the longer key's row.
    pub(crate) fn start<A: Allocator>(&self, rows: &[Row<A>], at: usize, key: &[char]) -> usize
        requires { at < length rows.now }
        ensures { result < length rows.now }
    {
        match self.place(key) {
            Some(place) => within(self.met[place], rows.len(), at),
            None => at,
        }
    }

    /// The position of a shorter key in the batch, if it is one.
    fn place(&self, key: &[char]) -> Option<usize>
        ensures { IfSome result (λ place. place < 4096) }
    {
        self.keys.binary_search(&key).ok()
    }

    /// Fills the batch with the shorter keys of the next rows, and returns whether there are any.
    fn fill<A: Allocator, B: Allocator>(&mut self, rows: &'a [Row<A>], data: &Data<B>) -> bool {
        for place in 0..BATCH {
            let Some(key) = self.next(rows, data) else {
                return place > 0;
            };
            self.keys[place] = key;
        }
        true
    }

    /// The shorter key of the next row that has one.
    fn next<A: Allocator, B: Allocator>(
        &mut self,
        rows: &'a [Row<A>],
        data: &Data<B>,
    ) -> Option<&'a [char]> {
        while self.end < rows.len() {
            let row = &rows[self.end];
            self.end += 1;
            let key = shorter_key(row, data);
            if key.is_some() {
                return key;
            }
        }
        None
    }

    /// Notes each row whose key is one of the shorter ones, which have two code points or more.
    fn meet<A: Allocator>(&mut self, rows: &[Row<A>]) {
        for (at, row) in rows.iter().enumerate() {
            if row.key.len() >= 2 {
                self.note(&row.key, at);
            }
        }
    }

    /// Notes the row of a key, if the key is one of the shorter ones.
    fn note(&mut self, key: &[char], at: usize) {
        if let Some(place) = self.place(key) {
            self.met[place] = at;
        }
    }
}

/// The row, or the other one if there are not that many rows.
fn within(row: usize, count: usize, other: usize) -> usize
    requires { other < count }
    ensures { result < count }
{
    if row < count { row } else { other }
}
