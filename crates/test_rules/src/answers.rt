//! What is said of rules, as text.

use std::alloc::{AllocError, Global};
use std::test::Fail;
use test_kit::{DATA, code_point, data_of, halves, holds, is_remark, same};
use uca_rules::{Relation, RuleFault, RuleFaultKind, Rules, read_rules};
use uca_text::Normal;
use uca_values::Data;
use uca_weights::{Source, Strength};

/// Classes of some accents.
pub fn classes(alloc: Global) -> Result<Data, Fail> {
    Ok(data_of(alloc, &mut Source::new(DATA.as_bytes()))?)
}

/// Adds what follows a `(`: the digits of a code point, `)`, and a text; or a text alone.
fn push_part(text: &mut String, part: &str) -> Result<(), Fail> {
    let Some((digits, rest)) = part.split_once(')') else {
        return Ok(text.push_str(part)?);
    };
    text.push(code_point(digits)?)?;
    Ok(text.push_str(rest)?)
}

/// The text of a field of a case: `(E9)` stands for the code point with these hexadecimal digits, and all else for itself.
pub fn text_of(alloc: Global, field: &str) -> Result<String, Fail> {
    let mut text = String::new(alloc);
    for part in field.split('(') {
        push_part(&mut text, part)?;
    }
    Ok(text)
}

/// Adds a code point with its class: an ASCII letter or digit as it is, another one as in a field. The class comes
/// after a dot, if it is not 0.
fn push_point(words: &mut String, point: char, class: u8) -> Result<(), AllocError> {
    let alloc = *words.allocator();
    let code = u32::from(point);
    if class > 0 {
        words.push_str(&format!(in alloc; "({:X}.{class})", code)?)
    } else if point.is_ascii_alphanumeric() {
        words.push(point)
    } else {
        words.push_str(&format!(in alloc; "({:X})", code)?)
    }
}

/// Adds a text.
fn push_text(words: &mut String, text: &Normal) -> Result<(), AllocError> {
    for (point, class) in text.chars().iter().zip(text.classes()) {
        push_point(words, *point, *class)?;
    }
    Ok(())
}

/// The sign of a strength.
fn sign(strength: Strength) -> &'static str {
    match strength {
        Strength::Primary => " < ",
        Strength::Secondary => " << ",
        Strength::Tertiary => " <<< ",
        Strength::Identical => " = ",
    }
}

/// Adds a relation, with its anchor.
fn push_relation(words: &mut String, relation: &Relation) -> Result<(), AllocError> {
    if !words.is_empty() {
        words.push_str("; ")?;
    }
    if relation.before {
        words.push_str("before ")?;
    }
    push_text(words, &relation.anchor)?;
    words.push_str(sign(relation.strength))?;
    push_text(words, &relation.target)?;
    if let Some(expansion) = &relation.expansion {
        words.push_str(" / ")?;
        push_text(words, expansion)?;
    }
    Ok(())
}

/// The relations of rules, with `; ` between them.
fn relations(alloc: Global, rules: &Rules) -> Result<String, AllocError> {
    let mut words = String::new(alloc);
    for relation in rules.relations() {
        push_relation(&mut words, relation)?;
    }
    Ok(words)
}

/// What is said of rules: that they are accepted, or at which byte they are rejected.
#[derive(Drop)]
pub struct Verdict {
    /// The byte that is rejected. `None` if the rules are accepted.
    pub place: Option<usize>,
    /// Why they are rejected, or else their relations.
    pub words: String,
}

impl Verdict {
    /// Whether the other says the same.
    pub fn is(&self, other: &Verdict) -> bool {
        self.place == other.place && self.words.as_str() == other.words.as_str()
    }
}

/// Why rules are rejected. If an allocation failed, that is the error, and its byte is one of the rules or their end.
fn rejected(alloc: Global, rules: &[u8], fault: RuleFault) -> Result<Verdict, Fail> {
    let RuleFault { byte, kind } = fault;
    if kind == RuleFaultKind::Memory {
        holds(byte <= rules.len(), "Memory after the end")?;
        return Err(Fail::from(kind));
    }
    Ok(Verdict {
        place: Some(byte),
        words: format!(in alloc; "{kind}")?,
    })
}

/// What is said of rules.
pub fn verdict_on(alloc: Global, data: &Data, rules: &[u8]) -> Result<Verdict, Fail> {
    match read_rules(alloc, rules, data) {
        Ok(read) => Ok(Verdict {
            place: None,
            words: relations(alloc, &read)?,
        }),
        Err(fault) => rejected(alloc, rules, fault),
    }
}

/// The relations that rules mean, or why they are rejected.
pub fn said(alloc: Global, data: &Data, rules: &[u8]) -> Result<String, Fail> {
    let Verdict { place, words } = verdict_on(alloc, data, rules)?;
    match place {
        Some(byte) => Ok(format!(in alloc; "{words} at {byte}")?),
        None if words.is_empty() => Ok(String::from_str(alloc, "nothing")?),
        None => Ok(words),
    }
}

/// This is said of these rules.
pub fn check_rules(alloc: Global, data: &Data, rules: &str, wanted: &str) -> Result<(), Fail> {
    same(&said(alloc, data, rules.as_bytes())?, wanted, rules)
}

/// Rules, and what is said of them.
fn check(alloc: Global, data: &Data, case: &str) -> Result<(), Fail> {
    if is_remark(case) {
        return Ok(());
    }
    let (rules, wanted) = halves(case)?;
    let rules = text_of(alloc, rules)?;
    same(&said(alloc, data, rules.as_bytes())?, wanted, case)
}

fn check_table(alloc: Global, data: &Data, table: &str) -> Result<(), Fail> {
    for case in table.lines() {
        check(alloc, data, case)?;
    }
    Ok(())
}

/// Tables of rules, and what is said of them.
pub fn check_all(alloc: Global, tables: &[&str]) -> Result<(), Fail> {
    let data = classes(alloc)?;
    for table in tables {
        check_table(alloc, &data, table)?;
    }
    Ok(())
}
