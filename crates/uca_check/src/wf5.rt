//! WF5: a key that ends with a non-starter is a key without it too.

ghost use Rattle.std.specs.Prelude.{◌≡◌, ◌<◌, ◌↔◌, List, length, IsTrue, Contains, MatchOption, slice_index_or};
ghost use Rattle.uca_values.specs.Content.{Entry, keys_of, properties_of};
ghost use Rattle.uca_check.specs.WellFormed.{MeetsWF5};
ghost use Rattle.uca_check.specs.Searches.{FindsFirstWithout};

use super::wf5_batch::ShorterKeys;
use std::alloc::Allocator;
use uca_values::{Data, Row};

/// The index of the first row that fails WF5.
pub(crate) fn first_failing<A: Allocator, B: Allocator>(
    rows: &[Row<A>],
    data: &Data<B>,
) -> Option<usize>
    ensures { FindsFirstWithout (MeetsWF5 (properties_of «data».now).class rows.now) rows.now result }
{
    let mut shorter = ShorterKeys::new();
    for (at, row) in rows.iter().enumerate() {
        shorter.reach(rows, at, data);
        if !has_shorter(rows, at, row, data, &shorter) {
            return Some(at);
        }
    }
    None
}

/// Whether some row has the shorter key of a row, if there is one.
fn has_shorter<A: Allocator, B: Allocator>(
    rows: &[Row<A>],
    at: usize,
    row: &Row<A>,
    data: &Data<B>,
    shorter: &ShorterKeys,
) -> bool
    requires { at < length rows.now }
    ensures { IsTrue result ↔ MeetsWF5 (properties_of «data».now).class rows.now row.now }
{
    let Some(front) = shorter_key(row, data) else {
        return true;
    };
    has_key(rows, shorter.start(rows, at, front), front)
}

/// The key of a row without its last code point, if that is a non-starter after two or more others.
pub(crate) fn shorter_key<'a, A: Allocator, B: Allocator>(
    row: &'a Row<A>,
    data: &Data<B>,
) -> Option<&'a [char]>
    ensures { MatchOption result
        ((rows : List Entry) → MeetsWF5 (properties_of «data».now).class rows row.now)
        (λ front. (rows : List Entry) →
        Contains (keys_of rows) front.now ↔ MeetsWF5 (properties_of «data».now).class rows row.now) }
{
    let [front @ .., last] = row.key.as_slice() else {
        return None;
    };
    if front.len() < 2 {
        return None;
    }
    if data.class(*last) == 0 {
        return None;
    }
    Some(front)
}

/// Whether some row has the key, looked for from one row outwards.
fn has_key<A: Allocator>(rows: &[Row<A>], from: usize, key: &[char]) -> bool
    requires { from < length rows.now }
    ensures { IsTrue result ↔ Contains (keys_of rows.now) key.now }
{
    let steps = (from + 1).max(rows.len() - from);
    for step in 0..steps {
        if step <= from && is_key_at(rows, from - step, key) {
            return true;
        }
        if step < rows.len() - from && is_key_at(rows, from + step, key) {
            return true;
        }
    }
    false
}

/// Whether the row at an index has the key.
fn is_key_at<A: Allocator>(rows: &[Row<A>], at: usize, key: &[char]) -> bool
    requires { at < length rows.now }
    ensures { IsTrue result ↔ (slice_index_or (keys_of rows.now) at key.now ≡ key.now) }
{
    let row = &rows[at];
    row.key.as_slice() == key
}
