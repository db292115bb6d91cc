//! Texts: how they are spelled, within which limits, and what is said of one that is rejected.

use crate::cases::text_of;
use crate::lookups::points_of;
use crate::samples::{CLASSES, data_of};
use std::alloc::{AllocError, Global};
use std::test::Fail;
use test_kit::{code_point, halves, holds, same};
use uca_text::{
    Normal, TextFault, canonically_equivalent_texts_are_normalized_alike, normal, occurs_in_order,
};
use uca_values::Data;

/// The code points of a text, each with its class.
fn spelling(alloc: Global, text: &Normal) -> Result<String, AllocError> {
    if text.chars().len() != text.classes().len() {
        return String::from_str(alloc, "not a class for each code point");
    }
    let mut words = String::new(alloc);
    for (point, class) in text.chars().iter().zip(text.classes()) {
        let space = if words.is_empty() { "" } else { " " };
        write!(words, "{space}{:04X}.{class}", u32::from(*point))?;
    }
    Ok(words)
}

/// Texts and what they are spelled as. The second and the third are canonically equivalent, and so are the
/// three after them.
const SPELLED: &str = r"0061 | 0061.0
00E1 | 0061.0 0301.230
0061 0301 | 0061.0 0301.230
0061 0323 0301 0062 | 0061.0 0323.220 0301.230 0062.0
0061 0301 0323 0062 | 0061.0 0323.220 0301.230 0062.0
1EA1 0301 0062 | 0061.0 0323.220 0301.230 0062.0
 | ";

/// The spelling of a text on its own.
fn new_spelling(alloc: Global, data: &Data, text: &str) -> Result<String, Fail> {
    let text = normal(alloc, text, data)?;
    let found = spelling(alloc, &text);
    drop(text);
    Ok(found?)
}

/// A text has this spelling, on its own and when it replaces another.
fn check_spelling(
    alloc: Global,
    data: &Data,
    renewed: &mut Normal,
    case: &str,
) -> Result<(), Fail> {
    let (points, wanted) = halves(case)?;
    let text = text_of(alloc, points)?;
    same(&new_spelling(alloc, data, &text)?, wanted, case)?;
    renewed.renew(&text, data)?;
    same(&spelling(alloc, renewed)?, wanted, case)
}

fn check_spellings(alloc: Global, data: &Data, renewed: &mut Normal) -> Result<(), Fail> {
    same(&spelling(alloc, renewed)?, "", "new")?;
    for case in SPELLED.lines() {
        check_spelling(alloc, data, renewed, case)?;
    }
    Ok(())
}

/// What is done with a text that was made for it.
#[derive(Clone, Copy)]
enum Trial {
    Spelled,
    Refused,
    Copied,
    Printed,
}

fn check_text(alloc: Global, data: &Data, text: &mut Normal, trial: Trial) -> Result<(), Fail> {
    match trial {
        Trial::Spelled => check_spellings(alloc, data, text),
        Trial::Refused => check_refused(alloc, data, text),
        Trial::Copied => check_copy(alloc, data, text),
        Trial::Printed => check_printed(alloc, data, text),
    }
}

fn check_over(alloc: Global, data: &Data, trial: Trial) -> Result<(), Fail> {
    let mut text = Normal::new(alloc);
    let checked = check_text(alloc, data, &mut text, trial);
    drop(text);
    checked
}

/// Makes a text, and lends it to what is done with it.
fn check_new(alloc: Global, trial: Trial) -> Result<(), Fail> {
    let data = data_of(alloc, CLASSES)?;
    let checked = check_over(alloc, &data, trial);
    drop(data);
    checked
}

#[test]
fn spells_texts(rt: HostRuntime) -> Result<(), Fail> {
    canonically_equivalent_texts_are_normalized_alike();
    check_new(rt.alloc(), Trial::Spelled)
}

/// A text that is rejected is empty afterwards, and can take another.
fn check_refused(alloc: Global, data: &Data, text: &mut Normal) -> Result<(), Fail> {
    text.renew("b", data)?;
    let marks = with_repeated(alloc, "ab", '\u{301}', 65)?;
    holds(
        text.renew(&marks, data) == Err(TextFault::LongRun(2)),
        "refused",
    )?;
    same(&spelling(alloc, text)?, "", "refused")?;
    text.renew("\u{e1}", data)?;
    same(&spelling(alloc, text)?, "0061.0 0301.230", "taken")
}

#[test]
fn takes_texts_after_a_refused_one(rt: HostRuntime) -> Result<(), Fail> {
    check_new(rt.alloc(), Trial::Refused)
}

/// How a copy of a text is spelled after the text is renewed.
fn copied(alloc: Global, data: &Data, text: &mut Normal) -> Result<String, Fail> {
    let copy = text.clone()?;
    let is_renewed = text.renew("\u{323}", data).is_ok();
    let found = spelling(alloc, &copy);
    drop(copy);
    holds(is_renewed, "renewed")?;
    Ok(found?)
}

/// A copy of a text stays as it is if the text is renewed.
fn check_copy(alloc: Global, data: &Data, text: &mut Normal) -> Result<(), Fail> {
    text.renew("\u{e1}b", data)?;
    let found = copied(alloc, data, text)?;
    same(&found, "0061.0 0301.230 0062.0", "copied")?;
    same(&spelling(alloc, text)?, "0323.220", "renewed")
}

#[test]
fn a_copy_stays_as_it_is(rt: HostRuntime) -> Result<(), Fail> {
    check_new(rt.alloc(), Trial::Copied)
}

/// The code points that a text had are left in spare memory, and not printed.
fn check_printed(alloc: Global, data: &Data, text: &mut Normal) -> Result<(), Fail> {
    text.renew("\u{e1}", data)?;
    text.renew("ab", data)?;
    let wanted = "Normal { chars: ['a', 'b'], classes: [0, 0] }";
    same(&format!(in alloc; "{text:?}")?, wanted, "printed")
}

#[test]
fn prints_texts_without_spare_memory(rt: HostRuntime) -> Result<(), Fail> {
    check_new(rt.alloc(), Trial::Printed)
}

/// A text, and then a character this many times.
fn with_repeated(
    alloc: Global,
    start: &str,
    last: char,
    count: usize,
) -> Result<String, AllocError> {
    let mut text = String::from_str(alloc, start)?;
    for _ in 0..count {
        text.push(last)?;
    }
    Ok(text)
}

/// How many code points a text has, or why it is rejected.
fn said(alloc: Global, text: &str, data: &Data) -> Result<String, Fail> {
    match normal(alloc, text, data) {
        Err(fault) if fault != TextFault::Memory => Ok(format!(in alloc; "{fault}")?),
        found => {
            let count = found?.chars().len();
            Ok(format!(in alloc; "{count}")?)
        }
    }
}

/// A text, and then a character as often as is written after it.
fn text_with_last(alloc: Global, start: &str, last: &str) -> Result<String, Fail> {
    let (last, count) = last.split_once(" x ").ok_or("no count")?;
    let (last, count) = (code_point(last)?, count.parse()?);
    let start = text_of(alloc, start)?;
    Ok(with_repeated(alloc, &start, last, count)?)
}

/// The start of a text, the character that follows it and how often, and what is said of the text.
fn check_limit(alloc: Global, data: &Data, case: &str) -> Result<(), Fail> {
    let (start, rest) = halves(case)?;
    let (last, wanted) = halves(rest)?;
    let text = text_with_last(alloc, start, last)?;
    same(&said(alloc, &text, data)?, wanted, case)
}

fn check_limits_over(alloc: Global, data: &Data, cases: &str) -> Result<(), Fail> {
    for case in cases.lines() {
        check_limit(alloc, data, case)?;
    }
    Ok(())
}

fn check_limits(alloc: Global, cases: &str) -> Result<(), Fail> {
    let data = data_of(alloc, CLASSES)?;
    let checked = check_limits_over(alloc, &data, cases);
    drop(data);
    checked
}

const RUNS: &str = r"0061 | 0301 x 64 | 65
0061 | 0301 x 65 | LongRun at 1
 | 0301 x 64 | 64
 | 0301 x 65 | LongRun at 0
00E1 | 0301 x 63 | 65
00E1 | 0301 x 64 | LongRun at 1
0061 0301 0062 0301 | 0323 x 63 | 67
0061 0301 0062 0301 | 0323 x 70 | LongRun at 3";

#[test]
fn limits_runs_of_non_starters(rt: HostRuntime) -> Result<(), Fail> {
    check_limits(rt.alloc(), RUNS)
}

const LENGTHS: &str = r" | 0061 x 1048576 | 1048576
 | 0061 x 1048577 | TooLong
 | 00E1 x 524288 | 1048576
 | 00E1 x 524289 | TooLong
 | 0301 x 1048577 | TooLong";

#[test]
fn limits_lengths(rt: HostRuntime) -> Result<(), Fail> {
    check_limits(rt.alloc(), LENGTHS)
}

#[test]
fn prints_memory(rt: HostRuntime) -> Result<(), Fail> {
    let printed = format!(in rt.alloc(); "{}", TextFault::Memory)?;
    same(&printed, "Memory", "the text")
}

/// Parts, texts, and whether the part occurs in order in the text.
const OCCURRING: &str = r"0061 0063 | 0061 0062 0063 | occurs
0062 0061 | 0061 0062 0061 0062 | occurs
0063 0061 | 0061 0062 0063 | does not
0061 0061 | 0061 0062 | does not
0061 |  | does not
 |  | occurs";

/// A part, a text, and whether the part occurs.
fn check_occurring(alloc: Global, case: &str) -> Result<(), Fail> {
    let (part, rest) = halves(case)?;
    let (text, wanted) = halves(rest)?;
    let found = if occurs_in_order(&points_of(alloc, part)?, &points_of(alloc, text)?) {
        "occurs"
    } else {
        "does not"
    };
    same(found, wanted, case)
}

#[test]
fn finds_parts_in_order(rt: HostRuntime) -> Result<(), Fail> {
    for case in OCCURRING.lines() {
        check_occurring(rt.alloc(), case)?;
    }
    Ok(())
}
