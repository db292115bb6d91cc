//! Which texts rules leave as they are.

use crate::answers::{classes, text_of};
use std::alloc::Global;
use std::test::Fail;
use test_kit::{halves, is_remark, same};
use uca_rules::{Rules, read_rules};
use uca_text::normal;
use uca_values::Data;

/// Rules, a text, and whether the rules leave it as it is.
const TEXTS: &str =
    r"-- A target's code points stand in order, in Normalization Form D, and others may stand between.
&b < a\u0301 | a(323) | untouched
&b < a\u0301 | a(323)(301) | touched
&b < a\u0301 | (E1) | touched
&b < a\u0301 | a | untouched
&b < a\u0301 | (301)a | untouched
&b < a\u0301 | xaybz(301) | touched
&b < (1EA1) | (1EAD) | touched
&x < ch | ch | touched
&x < ch | cyh | touched
&x < ch | hc | untouched
&x < ch | c | untouched
&x < ch |  | untouched
-- Anchors and expansions do not count; each target does.
&x < y / z | xz | untouched
&x < y < z / w &v <* r-t | xwv | untouched
&x < y < z / w &v <* r-t | ay | touched
&x < y < z / w &v <* r-t | az | touched
&x < y < z / w &v <* r-t | as | touched
-- No rules.
 | a(323)(301) | untouched
# |  | untouched";

fn said_of(alloc: Global, data: &Data, rules: &Rules, text: &str) -> Result<&'static str, Fail> {
    let text = normal(alloc, text, data)?;
    Ok(if rules.untouched(&text) {
        "untouched"
    } else {
        "touched"
    })
}

fn said(alloc: Global, data: &Data, rules: &str, text: &str) -> Result<&'static str, Fail> {
    let text = text_of(alloc, text)?;
    let rules = text_of(alloc, rules)?;
    match read_rules(alloc, rules.as_bytes(), data) {
        Ok(read) => said_of(alloc, data, &read, &text),
        Err(fault) => Err(Fail::from(fault)),
    }
}

fn check(alloc: Global, data: &Data, case: &str) -> Result<(), Fail> {
    if is_remark(case) {
        return Ok(());
    }
    let (rules, rest) = halves(case)?;
    let (text, wanted) = halves(rest)?;
    same(said(alloc, data, rules, text)?, wanted, case)
}

#[test]
fn texts_that_rules_leave(rt: HostRuntime) -> Result<(), Fail> {
    let data = classes(rt.alloc())?;
    for case in TEXTS.lines() {
        check(rt.alloc(), &data, case)?;
    }
    Ok(())
}
