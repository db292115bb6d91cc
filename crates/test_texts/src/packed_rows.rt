//! Rows that are kept in a few lists, one after another.

use crate::lookups::points_of;
use std::alloc::Global;
use std::test::Fail;
use test_kit::{halves, holds};
use uca_values::PackedRows;
use uca_weights::Element;

/// Elements with these primary weights, each in hexadecimal digits.
fn elements_of(alloc: Global, primaries: &str) -> Result<Vec<Element>, Fail> {
    let mut elements = Vec::new(alloc);
    for digits in primaries.split_whitespace() {
        elements.push(Element {
            primary: u16::from_str_radix(digits, 16)?,
            secondary: 0x20,
            tertiary: 2,
            mark: false,
        })?;
    }
    Ok(elements)
}

/// Adds rows: the code points of a key, and the primary weights of its elements.
fn push_rows(alloc: Global, rows: &mut PackedRows, cases: &[&str]) -> Result<(), Fail> {
    for case in cases {
        let (key, primaries) = halves(case)?;
        rows.push(&points_of(alloc, key)?, &elements_of(alloc, primaries)?)?;
    }
    Ok(())
}

/// Fails unless these are the rows.
fn check_rows(alloc: Global, rows: &PackedRows, cases: &[&str]) -> Result<(), Fail> {
    holds(rows.len() == cases.len(), "the number of rows")?;
    for (at, case) in cases.iter().enumerate() {
        let (key, primaries) = halves(case)?;
        let key = points_of(alloc, key)?;
        let elements = elements_of(alloc, primaries)?;
        holds(
            at < rows.len()
                && rows.key(at) == key.as_slice()
                && rows.elements(at) == elements.as_slice(),
            case,
        )?;
    }
    Ok(())
}

/// The first two rows, the last one, and all.
const FIRST: &[&str] = &["0061 | 0001", "0061 0062 0063 | 0002 0003"];

const LAST: &[&str] = &["0064 | 0004 0005 0006"];

const ALL: &[&str] = &[
    "0061 | 0001",
    "0061 0062 0063 | 0002 0003",
    "0064 | 0004 0005 0006",
];

fn check_all(alloc: Global, rows: &mut PackedRows) -> Result<(), Fail> {
    check_rows(alloc, rows, &[])?;
    push_rows(alloc, rows, ALL)?;
    check_rows(alloc, rows, ALL)?;
    rows.truncate(4);
    check_rows(alloc, rows, ALL)?;
    rows.truncate(2);
    check_rows(alloc, rows, FIRST)?;
    push_rows(alloc, rows, LAST)?;
    check_rows(alloc, rows, ALL)
}

#[test]
fn keeps_keys_and_elements_apart(rt: HostRuntime) -> Result<(), Fail> {
    let mut rows = PackedRows::new(rt.alloc());
    let checked = check_all(rt.alloc(), &mut rows);
    drop(rows);
    checked
}
