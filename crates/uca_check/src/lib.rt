//! `check`: whether a table is well-formed (UTS #10, section 9.2).
//!
//! It needs the values of files and not their readers, so it is proved beside these.
#![tactic(auto)]

ghost use Rattle.std.specs.Prelude.{◌≡◌, ℕ, ◌+◌, ◌<◌, ◌≤◌, length, Some, OnOk, IfErr};
ghost use Rattle.uca_values.specs.Content.{properties_of};
ghost use Rattle.uca_check.specs.WellFormed.{IsWellFormed, IsFirstFailure};
ghost use Rattle.uca_check.specs.FaultText.{ill_formed_text};

mod wf1;
mod wf2;
mod wf3;
mod wf4;
mod wf5;
mod wf5_batch;

use std::alloc::Allocator;
use std::fmt;
use thiserror::Error;
use uca_values::{Data, Row, Table};
use uca_weights::Message;

/// The first condition that a table fails, and the first row that fails it.
#[derive(Clone, Copy, Debug, PartialEq, Eq, Error)]
pub struct IllFormed {
    /// The number of the condition, 1 to 5.
    pub wf: u8,
    /// The row, counted from 1 in file order.
    pub row: u32,
}

impl IllFormed {
    /// Its text: `WF2 row 6`.
    pub fn message(&self) -> Message
        ensures text { result ≡ ill_formed_text self.now }
        ensures short { length result ≤ 60 }
    {
        Message::of("WF")
            .number(self.wf.into())
            .text(" row ")
            .number(self.row.into())
    }
}

impl fmt::Display for IllFormed {
    ghost output = { λ fault. Some (ill_formed_text fault) };

    fn fmt<W: fmt::Write>(&self, f: &mut fmt::Formatter<W>) -> fmt::Result {
        f.write_str(self.message().as_str())
    }
}

/// Whether a table is well-formed (UTS #10, section 9.2), by five conditions:
///
/// 1. No element has a zero weight at one level and a weight that is not zero at the level before it.
///    The exception is a continuation directly after an element of its row whose primary is FB00 to FBFF and
///    whose weights are not zero.
/// 2. The secondary weights of secondary elements are greater than 0020 and than those of all primary
///    elements. The tertiary weights of tertiary elements are greater than 0002 and than those of all
///    primary and secondary elements.
/// 3. No variable element has a zero primary.
/// 4. An element is variable if its primary is from the least to the greatest primary of variable elements.
/// 5. If a key of three or more code points ends with a non-starter, then the key without it is a key of the table too.
///
/// It allocates no memory, and uses about 300 kB of the stack. Conditions 1 to 4 take time in proportion to the table.
/// Condition 5 looks for up to 4,096 shorter keys in each pass over the rows, by a binary search for each row's
/// key. Tables like Unicode's take one such pass, and 200,000 rows that all have a shorter key take 49. If a shorter
/// key is missing, all rows are looked at once more.
///
/// # Errors
///
/// The lowest number of a condition that fails, and the first row that fails it. For condition 2 that is
/// the row of the secondary or tertiary element, for 4 of the element that is not variable, and for 5 of
/// the longer key.
pub fn check<A: Allocator, B: Allocator>(table: &Table<A>, data: &Data<B>) -> Result<(), IllFormed>
    ensures well_formed { OnOk result (IsWellFormed (properties_of «data».now).class table.now.rows) }
    ensures ill_formed { IfErr result (λ fault.
        IsFirstFailure (properties_of «data».now).class table.now.rows fault.wf fault.row) }
{
    check_rows(&table.rows, data)
}

/// Tests the five conditions over the rows of a table.
fn check_rows<A: Allocator, B: Allocator>(rows: &[Row<A>], data: &Data<B>) -> Result<(), IllFormed>
    requires { length rows.now ≤ 200000 }
    ensures well_formed { OnOk result (IsWellFormed (properties_of «data».now).class rows.now) }
    ensures ill_formed { IfErr result (λ fault.
        IsFirstFailure (properties_of «data».now).class rows.now fault.wf fault.row) }
{
    if let Some(at) = wf1::first_failing(rows) {
        return Err(ill_formed(1, at));
    }
    if let Some(at) = wf2::first_failing(rows) {
        return Err(ill_formed(2, at));
    }
    if let Some(at) = wf3::first_failing(rows) {
        return Err(ill_formed(3, at));
    }
    if let Some(at) = wf4::first_failing(rows) {
        return Err(ill_formed(4, at));
    }
    if let Some(at) = wf5::first_failing(rows, data) {
        return Err(ill_formed(5, at));
    }
    Ok(())
}

/// The error at the row with this index.
fn ill_formed(wf: u8, at: usize) -> IllFormed
    requires { at < 200000 }
    ensures { result ≡ record { wf = wf; row = at + 1 } }
{
    IllFormed {
        wf,
        row: at as u32 + 1,
    }
}
