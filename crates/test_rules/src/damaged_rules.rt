//! Damaged rules: an error is at a byte that may have it, with anything before the rules.

use crate::answers::{Verdict, classes, verdict_on};
use crate::counts::Counts;
use crate::damages::{Trial, judge_all};
use std::alloc::Global;
use std::test::Fail;
use test_kit::{holds, joined, same};
use uca_values::Data;

/// A chain of one relation, of characters that the rules do not have.
const CHAIN: &str = "&\u{4E01} < \u{4E02} # \u{E9}\n";

/// What it means.
const CHAIN_MEANS: &str = "(4E01) < (4E02)";

/// A comment.
const COMMENT: &str = "# \u{E9}\n";

/// What may come before rules, so that what is said of them stays. Rules that begin with a sign or an expansion
/// would go on with a chain, so a comment comes first if such an error is named.
fn front(file: &[u8], found: &Verdict) -> &'static str {
    let byte = file.get(found.place.unwrap_or(0)).copied();
    if found.words.as_str() == "Syntax" && matches!(byte, Some(b'<' | b'=' | b'/')) {
        COMMENT
    } else {
        CHAIN
    }
}

/// What is said of rules after such a front, if this is said of the rules alone.
fn moved(alloc: Global, front: &str, found: &Verdict) -> Result<Verdict, Fail> {
    let words = found.words.as_str();
    let (place, parts) = match found.place {
        Some(byte) => (Some(byte.saturating_add(front.len())), ["", "", words]),
        None if words.is_empty() => (None, [CHAIN_MEANS, "", ""]),
        None => (None, [CHAIN_MEANS, "; ", words]),
    };
    let words = joined(alloc, &parts)?;
    Ok(Verdict { place, words })
}

/// Whether the same is said of rules after such a front.
fn is_moved(alloc: Global, data: &Data, file: &[u8], found: &Verdict) -> Result<bool, Fail> {
    let front = front(file, found);
    let mut longer = Vec::from_slice(alloc, front.as_bytes())?;
    longer.extend_from_slice(file)?;
    let later = verdict_on(alloc, data, &longer)?;
    Ok(later.is(&moved(alloc, front, found)?))
}

/// Whether a text may be missing at this byte, or at the end.
fn ends_text(byte: Option<u8>) -> bool {
    matches!(byte, None | Some(b'&' | b'<' | b'=' | b'/'))
}

/// Whether an error of this kind may come at this byte, or at the end.
fn may_stand(words: &str, byte: Option<u8>) -> bool {
    match words {
        "EmptyText" => ends_text(byte),
        "Escape" => byte == Some(b'\\'),
        "BeforeStrength" => matches!(byte, Some(b'<' | b'=')),
        "DuplicateTarget" | "LateTarget" | "Limit" => !ends_text(byte),
        "Utf8" => byte.is_some(),
        _ => words == "Syntax",
    }
}

/// Whether what is said of rules is true of them.
fn is_true(alloc: Global, data: &Data, file: &[u8], found: &Verdict) -> Result<bool, Fail> {
    let is_text = str::from_utf8(file).is_ok();
    let is_utf8_fault = found.words.as_str() == "Utf8";
    let Some(place) = found.place else {
        return Ok(is_text && is_moved(alloc, data, file, found)?);
    };
    let Some(before) = file.get(..place) else {
        return Ok(false);
    };
    let is_place = is_text != is_utf8_fault && str::from_utf8(before).is_ok();
    let may = may_stand(&found.words, file.get(place).copied());
    Ok(is_place && may && is_moved(alloc, data, file, found)?)
}

/// Fails unless what is said of rules is true of them. Returns whether they are accepted.
pub fn judge(alloc: Global, data: &Data, file: &[u8]) -> Result<bool, Fail> {
    let found = verdict_on(alloc, data, file)?;
    if is_true(alloc, data, file, &found)? {
        return Ok(found.place.is_none());
    }
    let Verdict { place, words } = found;
    Err(Fail::new(format_args!("{place:?} {words}\nat {file:?}")))
}

/// Each kind of a reset, a relation, a text and a comment.
const RULES: &str = "# a tailoring\n\
    &[before 1]B < X <<< Y\n\
    &C < DH / K <<< 'L M'\n\
    &[before 2]N << \\u0111 = \\U00000180\n\
    & E <* F-JP <<<* Q''\n\
    &R = \u{E9} <<< S''T\n";

/// The relations that they mean.
const MEANS: &str =
    "before B < X; X <<< Y; C < DH / K; DH <<< L(20)M; before N << (111); (111) = (180); E < F; F < G; \
    G < H; H < I; I < J; J < P; P <<< Q; Q <<< (27); R = e(301.230); e(301.230) <<< S(27)T";

#[test]
fn damaged_rules(rt: HostRuntime) -> Result<(), Fail> {
    let data = classes(rt.alloc())?;
    let trial = Trial {
        file: RULES.as_bytes(),
        random: 568,
        seed: 4,
        counts: Counts {
            judged: 1100,
            accepted: 203,
            sum: 53_822,
        },
    };
    judge_all(rt.alloc(), trial, &data)
}

/// Letters that occur once in the rules, each in a text. In what the rules mean they come in no range.
const LETTERS: &str = "B X Y C D K L M N E P Q R S T";

/// Letters and a digit that occur in no text of the rules.
const OTHERS: &str = "A z W 0";

/// The rules with another letter in place of one mean the same with this letter.
fn check_letter(alloc: Global, data: &Data, own: &str, other: &str) -> Result<(), Fail> {
    let rules = RULES.replace(alloc, own, other)?;
    let wanted = MEANS.replace(alloc, own, other)?;
    let found = verdict_on(alloc, data, rules.as_bytes())?;
    holds(found.place.is_none(), &rules)?;
    same(&found.words, &wanted, &rules)
}

#[test]
fn other_letters(rt: HostRuntime) -> Result<(), Fail> {
    let data = classes(rt.alloc())?;
    check_letter(rt.alloc(), &data, "B", "B")?;
    for own in LETTERS.split(' ') {
        for other in OTHERS.split(' ') {
            check_letter(rt.alloc(), &data, own, other)?;
        }
    }
    Ok(())
}
