//! Rows that are well-formed, and rows that are not, condition by condition and at the ends of each.

use std::alloc::{AllocError, Global};
use std::test::Fail;
use test_kit::{DATA, TABLE, data_of, is_remark, same, table_of, thirds};
use uca_check::{IllFormed, check};
use uca_values::{Data, Table};
use uca_weights::Source;

/// The changed row of a number, if there is one. Changes are written `NUMBER: ROW`, with ` / ` between them.
fn change_at<'a>(changes: &'a str, number: usize) -> Option<&'a str> {
    for change in changes.split(" / ") {
        if let Some((digits, row)) = change.split_once(": ")
            && digits.parse::<usize>() == Ok(number)
        {
            return Some(row);
        }
    }
    None
}

/// Adds a row, if there is one.
fn push_row(text: &mut String, row: Option<&str>) -> Result<(), AllocError> {
    let Some(row) = row else {
        return Ok(());
    };
    text.push_str(row)?;
    text.push('\n')
}

/// The small table with changed rows, which replace its own rows or follow them.
fn with_changes(alloc: Global, changes: &str) -> Result<String, AllocError> {
    let mut text = String::from_str(alloc, "@version 1\n")?;
    let mut rows = TABLE.lines().skip(2);
    for number in 1..11 {
        push_row(&mut text, change_at(changes, number).or(rows.next()))?;
    }
    Ok(text)
}

/// The verdict on a table.
fn said(alloc: Global, table: &Table, properties: &Data) -> Result<String, AllocError> {
    match check(table, properties) {
        Ok(()) => String::from_str(alloc, "well-formed"),
        Err(fault) => format!(in alloc; "{fault}"),
    }
}

fn verdict_on(alloc: Global, table: &Table) -> Result<String, Fail> {
    let properties = data_of(alloc, &mut Source::new(DATA.as_bytes()))?;
    let found = said(alloc, table, &properties);
    drop(properties);
    Ok(found?)
}

/// The verdict on a table file.
fn verdict(alloc: Global, text: &str) -> Result<String, Fail> {
    let table = table_of(alloc, &mut Source::new(text.as_bytes()))?;
    let found = verdict_on(alloc, &table);
    drop(table);
    found
}

/// A name, the changes of the small table, and the verdict.
fn check_changes(alloc: Global, case: &str) -> Result<(), Fail> {
    if is_remark(case) {
        return Ok(());
    }
    let (_name, changes, wanted) = thirds(case)?;
    let text = with_changes(alloc, changes)?;
    same(&verdict(alloc, &text)?, wanted, case)
}

const CHANGES: &str = "as it is |  | well-formed
no secondary | 2: 0061 ; [.1C47.0000.0002] | WF1 row 2
a low accent | 6: 0301 ; [.0000.0020.0002] | WF2 row 6
a longer key alone | 8: 0061 0301 0300 ; [.1C58.0020.0002] | WF5 row 8
a shorter key alone | 8: 0061 0301 ; [.1C50.0020.0002] | well-formed
both | 8: 0061 0301 ; [.1C50.0020.0002] / 9: 0061 0301 0300 ; [.1C58.0020.0002] | well-formed
a high variable | 8: 0021 ; [*1C50.0020.0002] | WF4 row 2
a variable accent | 1: 0020 ; [*0000.0030.0002] | WF3 row 1
a high letter | 2: 0061 ; [.1C47.0030.0002] | WF2 row 5
-- Continuations.
after a lead | 8: 4E00 ; [.FB40.0020.0002][.CE00.0000.0000] | well-formed
after an accent | 8: 4E00 ; [.FB40.0020.0002][.0000.0030.0002][.CE00.0000.0000] | WF1 row 8
after FAFF | 8: 4E00 ; [.FAFF.0020.0002][.CE00.0000.0000] | WF1 row 8
after FB00 | 8: 4E00 ; [.FB00.0020.0002][.CE00.0000.0000] | well-formed
after FBFF | 8: 4E00 ; [.FBFF.0020.0002][.CE00.0000.0000] | well-formed
after FC00 | 8: 4E00 ; [.FC00.0020.0002][.CE00.0000.0000] | WF1 row 8
first | 8: 4E00 ; [.CE00.0000.0000] | WF1 row 8
first, with its lead after | 8: 4E00 ; [.CE00.0000.0000][.FB40.0020.0002] | WF1 row 8
after another | 8: 4E00 ; [.FB40.0020.0002][.CE00.0000.0000][.CE00.0000.0000] | WF1 row 8
after another, which begins with FB | 8: 4E00 ; [.FB40.0020.0002][.FB41.0000.0000][.CE00.0000.0000] | WF1 row 8
after a second lead | 8: 4E00 ; [.FB40.0020.0002][.CE00.0000.0000][.FB41.0020.0002][.CE00.0000.0000] | well-formed
after a variable lead | 8: 4E00 ; [*FB40.0020.0002][.CE00.0000.0000] | WF4 row 2
after a lead without tertiary | 8: 4E00 ; [.FB40.0020.0000][.CE00.0000.0000] | WF1 row 8
with a tertiary | 8: 4E00 ; [.FB40.0020.0002][.CE00.0000.0002] | WF1 row 8
an accent without tertiary after a lead | 8: 4E00 ; [.FB40.0020.0002][.0000.0030.0000] | WF1 row 8
a letter without tertiary | 8: 4E00 ; [.1C50.0020.0000] | WF1 row 8
an accent without tertiary | 8: 4E00 ; [.0000.0030.0000] | WF1 row 8
nothing | 8: 4E00 ; [.0000.0000.0000] | well-formed
the lead is in the row before | 8: 4E00 ; [.FB40.0020.0002] / 9: 4E01 ; [.CE00.0000.0000] | WF1 row 9
-- Heights of accents and variants.
second in a row | 8: 4E00 ; [.1C47.0020.0002][.0000.0020.0002] | WF2 row 8
0021 | 8: 4E00 ; [.0000.0021.0002] | well-formed
a letter as high as an accent | 8: 4E00 ; [.1C47.002C.0002] | WF2 row 5
a letter as high as the lowest accent | 8: 4E00 ; [.1C47.0024.0002] | WF2 row 6
a letter below the accents | 8: 4E00 ; [.1C47.0023.0002] | well-formed
as high as a capital | 8: 4E00 ; [.0000.0000.0008] | WF2 row 8
higher than a capital | 8: 4E00 ; [.0000.0000.0009] | well-formed
as high as an accent | 8: 4E00 ; [.0000.0030.0009][.0000.0000.0009] | WF2 row 8
higher than an accent | 8: 4E00 ; [.0000.0030.0009][.0000.0000.000A] | well-formed
a tertiary element does not count | 8: 4E00 ; [.0000.0000.0009][.0000.0000.000A][.0000.0030.0002] | well-formed
a secondary weight below the primary element's own | 8: 4E00 ; [.0000.0030.0002][.1C47.0020.0002] | well-formed
-- Variable elements.
a second one without primary | 8: 4E00 ; [*0209.0020.0002][*0000.0030.0002] | WF3 row 8
one without weights | 8: 4E00 ; [*0000.0000.0000] | WF3 row 8
a letter with the only variable primary | 8: 4E00 ; [.0209.0020.0002] | WF4 row 8
a letter below it | 8: 4E00 ; [.0208.0020.0002] | well-formed
a letter above it | 8: 4E00 ; [.020A.0020.0002] | well-formed
a letter at the least of two | 8: 4E00 ; [*0210.0020.0002][.0209.0020.0002] | WF4 row 8
a letter at the greatest of two | 8: 4E00 ; [*0210.0020.0002][.0210.0020.0002] | WF4 row 8
a letter between two | 8: 4E00 ; [.020C.0020.0002][*0210.0020.0002] | WF4 row 8
a letter below two | 8: 4E00 ; [*0210.0020.0002][.0208.0020.0002] | well-formed
a letter above two | 8: 4E00 ; [*0210.0020.0002][.0211.0020.0002] | well-formed
a variable one between two | 8: 4E00 ; [*0210.0020.0002][*020C.0020.0002] | well-formed
a lower one later | 8: 4E00 ; [*0200.0020.0002][.0204.0020.0002] | WF4 row 8
a variable letter | 8: 4E00 ; [*1C47.0020.0002] | WF4 row 2
an accent beside variable ones | 8: 4E00 ; [*0001.0020.0002][.0000.0030.0002] | well-formed
none is variable | 1: 0020 ; [.0209.0020.0002] / 8: 0021 ; [.0209.0020.0002] | well-formed
-- Shorter keys.
first and last | 1: 0061 0301 ; [.1C50.0020.0002] / 8: 0061 0301 0323 ; [.1C50.0020.0002] | well-formed
last and first | 8: 0061 0301 ; [.1C50.0020.0002] / 1: 0061 0301 0323 ; [.1C50.0020.0002] | well-formed
last and in the middle | 8: 0061 0301 ; [.1C50.0020.0002] / 4: 0061 0301 0323 ; [.1C50.0020.0002] | well-formed
first and in the middle | 1: 0061 0301 ; [.1C50.0020.0002] / 4: 0061 0301 0323 ; [.1C50.0020.0002] | well-formed
last and before | 8: 0061 0301 0323 ; [.1C50.0020.0002] / 9: 0061 0301 ; [.1C50.0020.0002] | well-formed
alone in the middle | 4: 0061 0301 0323 ; [.1C50.0020.0002] | WF5 row 4
a key of three as the shorter one, which has none | 8: 0061 0301 0323 0300 ; [.1C50.0020.0002] / 9: 0061 0301 0323 ; [.1C50.0020.0002] | WF5 row 9
the first of two | 8: 0061 0301 0323 0300 ; [.1C50.0020.0002] / 9: 0062 0301 0300 ; [.1C50.0020.0002] | WF5 row 8
a whole chain | 8: 0061 0301 0323 0300 ; [.1C50.0020.0002] / 9: 0061 0301 0323 ; [.1C50.0020.0002] / 10: 0061 0301 ; [.1C50.0020.0002] | well-formed
another key as long as the shorter one | 8: 0061 0300 ; [.1C50.0020.0002] / 9: 0061 0301 0323 ; [.1C50.0020.0002] | WF5 row 9
a starter at the end | 8: 0061 0301 0062 ; [.1C50.0020.0002] | well-formed
the last code point with a class | 8: 0061 0062 0314 ; [.1C50.0020.0002] | WF5 row 8
the first code point without | 8: 0061 0062 0315 ; [.1C50.0020.0002] | well-formed
two code points, of which the first is no key | 8: 0063 0301 ; [.1C50.0020.0002] | well-formed
-- The lowest number, and the first row.
1 before 2 | 5: 006C ; [.0000.0020.0002] / 7: 0067 ; [.1C47.0000.0002] | WF1 row 7
2 before 3 | 1: 002D ; [*0000.0030.0002] / 6: 006C ; [.0000.0020.0002] | WF2 row 6
3 before 4 | 4: 002D ; [*0000.0030.0002] / 8: 0021 ; [*1C50.0020.0002] | WF3 row 4
4 before 5 | 1: 0061 0301 0300 ; [*1C68.0020.0002] / 8: 0021 ; [*1C50.0020.0002] | WF4 row 4
1 before all | 1: 0061 0301 0300 ; [*1C68.0020.0002] / 5: 006C ; [.0000.0020.0002] / 6: 002D ; [*0000.0030.0002] / 8: 0021 ; [*1C50.0020.0002] / 9: 0067 ; [.1C47.0000.0002] | WF1 row 9
the first gap | 3: 0067 ; [.1C47.0000.0002] / 4: 0068 ; [.1C47.0000.0002] | WF1 row 3
the first low accent | 6: 006C ; [.0000.0020.0002] / 7: 006D ; [.0000.0020.0002] | WF2 row 6
the first without primary | 2: 002D ; [*0000.0030.0002] / 7: 005F ; [*0000.0030.0002] | WF3 row 2";

#[test]
fn changes_of_a_small_table(rt: HostRuntime) -> Result<(), Fail> {
    for case in CHANGES.lines() {
        check_changes(rt.alloc(), case)?;
    }
    Ok(())
}

/// A name, the elements of the only row, and the verdict.
const ALONE: &str = "0020 alone | [.0000.0020.0002] | WF2 row 1
0021 alone | [.0000.0021.0002] | well-formed
0001 alone | [.0000.0000.0001] | WF2 row 1
0002 alone | [.0000.0000.0002] | WF2 row 1
0003 alone | [.0000.0000.0003] | well-formed
the least letter | [.0001.0001.0001] | well-formed
the greatest accent | [.0000.FFFF.FFFF] | well-formed
nothing | [.0000.0000.0000] | well-formed";

fn check_alone(alloc: Global, case: &str) -> Result<(), Fail> {
    let (_name, elements, wanted) = thirds(case)?;
    let text = format!(in alloc; "@version 1\n0061 ; {elements}\n")?;
    same(&verdict(alloc, &text)?, wanted, case)
}

#[test]
fn rows_alone(rt: HostRuntime) -> Result<(), Fail> {
    for case in ALONE.lines() {
        check_alone(rt.alloc(), case)?;
    }
    let empty = verdict(rt.alloc(), "@version 1\n")?;
    same(&empty, "well-formed", "no rows")
}

#[test]
fn the_text_of_a_fault(rt: HostRuntime) -> Result<(), Fail> {
    let fault = IllFormed { wf: 2, row: 65536 };
    same(&fault.to_string(rt.alloc())?, "WF2 row 65536", "a high row")
}
