//! Whether numbers are ordered by value under a table, and which row is to blame if they are not.

ghost use Rattle.std.specs.Prelude.{◌≡◌, ◌≢◌, ◌↔◌, ◌+◌, ◌-◌, ℕ, ◌<◌, ◌≤◌, List, ◌∷◌, [], length, IsTrue, IfErr, OnOk, MatchOption, slice_index, slice_index_or};
ghost use Rattle.std.specs.List.{AllByRecursion};
ghost use Rattle.uca_values.specs.Content.{Entry, HeaderContent, properties_of};
ghost use Rattle.uca_elements.specs.Rows.{rows_of};
ghost use Rattle.uca_elements.specs.Collations.{collation_under};
ghost use Rattle.uca_numbers.specs.Numbers.{IsDigit};
ghost use Rattle.uca_numbers.specs.Texts.{has_digit};
ghost use Rattle.uca_number_keys.specs.Tables.{SharesDigit, IsToBlame, TakesTable, RefusesTable, digit_weight};
ghost use Rattle.uca_number_keys.specs.inside.Checks.{AreOrdered, IsFound};

use std::alloc::Allocator;
use uca_values::{Data, PackedRows, PackedTable};
use uca_weights::{Element, Numbers};

/// How many digits there are.
const DIGITS: usize = 10;

/// The row by which numbers are not in the order of their values.
#[derive(Clone, Copy, Debug, PartialEq, Eq)]
pub struct UnorderedDigits {
    /// The row, counted from 1 in file order. It is 0 if a digit has no row.
    pub row: u32,
}

/// Tests a table and a data file for what is asked for. If numbers are to be ordered by value, they have to order them:
/// each digit, U+0030 to U+0039, has a row of one element that is not variable. Their primary weights rise, and are not
/// zero. No other key has a digit, and the data file gives digits no combining class. As text, numbers need no such table.
/// It goes over the rows twice, and allocates no memory.
///
/// # Errors
///
/// The row to blame. Its key has a digit, and is not this digit alone. Or else it is the first digit that has a combining
/// class, or no primary weight above that of the digit before.
pub fn check_numbers<A: Allocator, B: Allocator>(
    numbers: Numbers,
    table: &PackedTable<A>,
    properties: &Data<B>,
) -> Result<(), UnorderedDigits>
    ensures taken { OnOk result (TakesTable numbers table.now (properties_of properties.now)) }
    ensures rejected { IfErr result (λ fault. RefusesTable numbers table.now (properties_of properties.now) fault.row) }
{
    check_number_rows(numbers, &table.rows, properties)
}

/// As [`check_numbers`], for the rows of a table with any header.
///
/// # Errors
///
/// The row to blame, as [`check_numbers`] says it.
pub fn check_number_rows<A: Allocator, B: Allocator>(
    numbers: Numbers,
    rows: &PackedRows<A>,
    properties: &Data<B>,
) -> Result<(), UnorderedDigits>
    requires { length rows.now ≤ 200000 }
    ensures taken { (header : HeaderContent) →
        OnOk result (TakesTable numbers (record { header = header; rows = rows.now }) (properties_of properties.now)) }
    ensures rejected { (header : HeaderContent) → IfErr result (λ fault.
        RefusesTable numbers (record { header = header; rows = rows.now }) (properties_of properties.now) fault.row) }
{
    match numbers {
        Numbers::AsText => Ok(()),
        Numbers::ByValue => match row_to_blame(rows, properties) {
            None => Ok(()),
            Some(row) => Err(UnorderedDigits { row }),
        },
    }
}

// The row to blame, if numbers are not ordered by value.
fn row_to_blame<A: Allocator, B: Allocator>(
    rows: &PackedRows<A>,
    properties: &Data<B>,
) -> Option<u32>
    requires { length rows.now ≤ 200000 }
    ensures { MatchOption result
        (AllByRecursion (λ row. SharesDigit row.key → ⊥) rows.now × AreOrdered (properties_of properties.now) (rows_of rows.now))
        (λ row. IsToBlame (properties_of properties.now) rows.now row) }
{
    if let Some(at) = first_shared(rows) {
        return Some(at as u32 + 1);
    }
    wrong_digit(rows, properties)
}

// The position of the first row whose key has a digit, and is not this digit alone.
fn first_shared<A: Allocator>(rows: &PackedRows<A>) -> Option<usize>
    ensures { MatchOption result
        (AllByRecursion (λ row. SharesDigit row.key → ⊥) rows.now)
        (λ at. (at < length rows.now) × ((d : Entry) → SharesDigit (slice_index_or rows.now at d).key)) }
{
    for at in 0..rows.len() {
        if shares_digit(rows.key(at)) {
            return Some(at);
        }
    }
    None
}

fn shares_digit(key: &[char]) -> bool
    ensures { IsTrue result ↔ SharesDigit key.now }
{
    key.len() != 1 && holds_digit(key)
}

fn holds_digit(key: &[char]) -> bool
    ensures { result ≡ has_digit key.now }
{
    key.iter().any(|point| '0' <= *point && *point <= '9')
}

fn is_digit(point: char) -> bool
    ensures { result ≡ Rattle.uca_numbers.specs.Numbers.is_digit point }
{
    '0' <= point && point <= '9'
}

// The row of the first digit that is wrong, counted from 1: 0 if it has none.
fn wrong_digit<A: Allocator, B: Allocator>(
    rows: &PackedRows<A>,
    properties: &Data<B>,
) -> Option<u32>
    requires { length rows.now ≤ 200000 }
    ensures { MatchOption result
        (AreOrdered (properties_of properties.now) (rows_of rows.now))
        (λ row. IsToBlame (properties_of properties.now) rows.now row) }
{
    let found = digit_rows(rows);
    let mut last = 0;
    for digit in b'0'..b'9' + 1 {
        let row = found[(digit - b'0') as usize];
        let weight = weight_of_row(rows, row);
        let class = properties.class(char::from(digit));
        if weight <= last || class != 0 {
            return Some(row);
        }
        last = weight;
    }
    None
}

// The rows of the digits, that of 0 first, counted from 1. It is 0 for a digit without a row.
fn digit_rows<A: Allocator>(rows: &PackedRows<A>) -> [u32; DIGITS]
    requires { length rows.now ≤ 200000 }
    ensures count { length result ≡ 10 }
    ensures found { (d : ℕ) → IsDigit d → IsFound rows.now d (slice_index result (d - 0x30)) }
{
    let mut found = [0; DIGITS];
    let mut at = rows.len();
    // of two rows with one key the first counts, so it comes last
    while at > 0 {
        if let Some(digit) = lone_digit(rows.key(at - 1)) {
            found[digit] = at as u32;
        }
        at -= 1;
    }
    found
}

// Which digit a key is, from 0 to 9.
fn lone_digit(key: &[char]) -> Option<usize>
    ensures { MatchOption result ((d : ℕ) → IsDigit d → key.now ≢ d ∷ []) (λ digit. (digit < 10) × (key.now ≡ (0x30 + digit) ∷ [])) }
{
    if key.len() == 1 && is_digit(key[0]) {
        Some(key[0] as usize - '0' as usize)
    } else {
        None
    }
}

// The primary weight of a digit by its row, counted from 1.
fn weight_of_row<A: Allocator>(rows: &PackedRows<A>, row: u32) -> u16
    requires { row ≤ length rows.now }
    ensures { (d : ℕ) → IsFound rows.now d row → result ≡ digit_weight (rows_of rows.now) d }
{
    if row == 0 {
        0
    } else {
        lone_primary(rows.elements(row as usize - 1))
    }
}

// The primary weight of the element, if it is the only one and not variable; otherwise 0.
fn lone_primary(row: &[Element]) -> u16
    ensures { result ≡ Rattle.uca_number_keys.specs.Tables.lone_primary row.now }
{
    if row.len() == 1 && !row[0].mark {
        row[0].primary
    } else {
        0
    }
}
