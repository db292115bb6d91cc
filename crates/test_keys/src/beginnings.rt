//! Two texts that are ordered by what comes right after the code points with which both begin.

ghost use Rattle.uca_elements.specs.Collations.{collation_of};
ghost use Rattle.uca_text_comparer.specs.Heads.{Knows};

use crate::tries::{Trial, over_table};
use std::alloc::Global;
use std::cmp::Ordering;
use std::cmp::Ordering::{Greater, Less};
use std::test::Fail;
use test_kit::{NUMBER_TABLE, halves, holds, repeated, thirds};
use uca_lanes::shared_len;
use uca_match::{Collator, Lookup};
use uca_text_comparer::TextComparison;
use uca_weights::{Depth, Numbers, Settings, Weighting};

/// All code points of the texts below, but `c`, the accent and the letters with one.
const KNOWN: &str = "ab019\u{4e01}\u{4e02}";

/// Two texts and their order, if the next code points of both decide it. `a` before an accent is not read alone. The
/// ideographs have the same first weight, and the same first bytes.
const PAIRS: &str = "aa | ab | <
ab | aa | >
a | ab | <
 | a | <
a9 | a10 | >
a\u{301}b | a\u{301}a | >
a | a | -
 |  | -
ab\u{301} | aa | -
a\u{301} | ab | -
a\u{4e01} | a\u{4e02} | -";

/// Numbers by value: a shared beginning may end inside a number, as that of `a10` and `a1b` does.
const VALUES: &str = "aa | ab | <
a9 | a10 | -
a10 | a1b | -
a | b1 | -
b1 | a | -";

/// Two texts with a code point that is not known at first, how many bytes they have in common, and their order once
/// it is known. U+00E1 and U+00E9 have the first byte C3.
const LATER: &str = "\u{e1} | b | 0 | <
c | b | 0 | >
abc | ab | 2 | >
a\u{e1} | a\u{e9} | 2 | <";

/// Two texts, how many bytes they have in common at their beginning, and their order after these. Fewer than eight
/// bytes are taken one by one, and others eight at a time: the last eight may overlap those before.
const BEGINNINGS: &str = " |  | 0 | -
 | a | 0 | <
a |  | 0 | >
a | b | 0 | <
ab | ab | 2 | -
aba | abb | 2 | <
aaaaaaaa | aaaaaaaa | 8 | -
baaaaaaa | aaaaaaaa | 0 | >
aaaaaaab | aaaaaaaa | 7 | >
aaaaaaaaab | aaaaaaaaaaaa | 9 | >
aaaaaaaaaaaa | aaaaaaaaaaab | 11 | <
abababababababab | abababababababab | 16 | -
ababababababababa | ababababababababb | 16 | <
ababababa | abababab | 8 | >
aaaaaaaa\u{4e01} | aaaaaaaa\u{4e02} | 10 | -";

/// Rows of a table, after those of the digits. They are of a capital letter with the weight of the small one, a
/// variable hyphen, and two letters with two weights: one of ASCII, one of two bytes. Then come two letters of two
/// bytes, and one of three bytes.
const MORE_ROWS: &str = "0041 ; [.1C47.0020.0008]\n\
    002D ; [*020D.0020.0002]\n\
    0057 ; [.1C60.0020.0008][.1C60.0020.0008]\n\
    00DF ; [.1C60.0020.0004][.0000.0024.0004][.1C60.0020.0004]\n\
    03B1 ; [.1C70.0020.0002]\n\
    03B2 ; [.1C71.0020.0002]\n\
    0905 ; [.1C80.0020.0002]\n";

/// Two texts and their order, first where variable elements are non-ignorable, and then where they are shifted: a
/// hyphen has no weight at level 1 then. Where the next code points have the same weight, those after them decide,
/// but not after a letter with two weights. Two letters may have their first byte in common. After the letters that
/// differ there may be a letter of two or three bytes, but no accent.
const HEADS: &str = "Ab | aa | > | >
aAa | aab | < | <
A | ab | < | <
A | a | - | -
\u{3b1} | \u{3b2} | < | <
A\u{3b2} | a\u{3b1}b | > | >
\u{3b1} | b | > | >
\u{3b1}\u{301} | \u{3b2} | - | -
\u{3b1} | \u{3b2}\u{301} | - | -
- | a | < | -
a-b | aab | < | -
b- | a- | > | >
\u{df} | a | > | >
\u{df}a | bb | - | -
b\u{df} | a\u{df} | > | >
W | a | > | >
Wa | bb | - | -
bW | aW | > | >
\u{905} | a | > | >
b\u{3b1} | a | > | >
b\u{301} | a | - | -
a | b\u{3b1} | < | <
a | b\u{301} | - | -
b\u{905} | a | > | >
a | b\u{905} | < | <
a | ab\u{3b1} | < | <
a | ab\u{301} | - | -";

/// Two texts, how many bytes they have in common, and their order by the next bytes, first where variable elements
/// are non-ignorable, and then where they are shifted. The next bytes have to be code points of ASCII with other
/// weights at level 1. What comes after them has to be plain. All code points that begin with D4 are, such as U+0500.
/// Not all that begin with CC are, such as U+0301, nor all that begin with CE, as U+03B1 does: U+0390 has more than
/// three elements here. Nothing is known of bytes that begin longer code points.
const AT_ONCE: &str = "a | b | 0 | < | <
b | a | 0 | > | >
Ab | b | 0 | < | <
aab | aba | 1 | < | <
A | a | 0 | - | -
W | b | 0 | - | -
W | a | 0 | > | >
- | a | 0 | < | -
a | - | 0 | > | -
b- | a- | 0 | > | >
 | a | 0 | - | -
a |  | 0 | - | -
a | ab | 1 | - | -
\u{3b1} | a | 0 | - | -
\u{3b1} | \u{3b2} | 1 | - | -
b\u{500} | a | 0 | > | >
a | b\u{500} | 0 | < | <
b\u{3b1} | a | 0 | - | -
b\u{301} | a | 0 | - | -
a | b\u{301} | 0 | - | -
b\u{905} | a | 0 | - | -
a\u{301}b | a\u{301}a | 3 | > | >";

fn settings_by(numbers: Numbers) -> Settings {
    Settings {
        weighting: Weighting::NonIgnorable,
        depth: Depth::Weights,
        numbers,
    }
}

/// The order that a sign stands for.
fn order_of(sign: &str) -> Option<Ordering> {
    match sign {
        "<" => Some(Less),
        ">" => Some(Greater),
        _ => None,
    }
}

/// The sign of a weighting, where variable elements are non-ignorable or shifted.
fn sign_under(weighting: Weighting, signs: &str) -> Result<&str, Fail> {
    let (not_ignored, shifted) = halves(signs)?;
    Ok(match weighting {
        Weighting::NonIgnorable => not_ignored,
        Weighting::Shifted => shifted,
    })
}

/// Looks up all code points of a text.
fn learn<L: Lookup>(
    comparison: &mut TextComparison,
    collator: &Collator<L>,
    text: &str,
) -> Result<(), Fail>
    requires { Knows (collation_of L.content collator.now) comparison.old }
    ensures { Knows (collation_of L.content collator.now) comparison.new }
{
    comparison.compare(collator, settings_by(Numbers::AsText), text, text)?;
    Ok(())
}

fn check_orders(comparison: &TextComparison, numbers: Numbers, cases: &str) -> Result<(), Fail> {
    for case in cases.lines() {
        let (left, right, sign) = thirds(case)?;
        let found = comparison.order_beginnings(settings_by(numbers), left, right);
        holds(found == order_of(sign), case)?;
    }
    Ok(())
}

/// The orders of some cases, if their code points are known.
fn check_after(comparison: &TextComparison, cases: &str, is_known: bool) -> Result<(), Fail> {
    for case in cases.lines() {
        let (left, right, wanted) = thirds(case)?;
        let (count, sign) = halves(wanted)?;
        let shared = shared_len(left.as_bytes(), right.as_bytes());
        holds(shared == count.parse::<usize>()?, case)?;
        let found = comparison.order_after(settings_by(Numbers::AsText), left, right, shared);
        holds(found == if is_known { order_of(sign) } else { None }, case)?;
    }
    Ok(())
}

/// The texts may have more in common than the bytes that are passed over.
fn check_known(comparison: &TextComparison) -> Result<(), Fail> {
    check_orders(comparison, Numbers::AsText, PAIRS)?;
    check_after(comparison, BEGINNINGS, true)?;
    let found = comparison.order_after(settings_by(Numbers::AsText), "ab", "aa", 0);
    holds(found == Some(Greater), "texts that have more in common")
}

/// A text of 32 bytes is short, and one of 33 is not.
fn check_lengths(alloc: Global, comparison: &TextComparison) -> Result<(), Fail> {
    let short = repeated(alloc, "a", 32)?;
    let long = repeated(alloc, "a", 33)?;
    let settings = settings_by(Numbers::AsText);
    holds(
        comparison.order_beginnings(settings, &short, "b") == Some(Less),
        "32 bytes",
    )?;
    holds(
        comparison.order_beginnings(settings, &long, "b").is_none(),
        "33 bytes on the left",
    )?;
    holds(
        comparison.order_beginnings(settings, "b", &long).is_none(),
        "33 bytes on the right",
    )
}

fn check_by_value(comparison: &TextComparison) -> Result<(), Fail> {
    check_orders(comparison, Numbers::ByValue, VALUES)?;
    let found = comparison.order_at_once(settings_by(Numbers::ByValue), "a", "b", 0);
    holds(found.is_none(), "numbers by value")
}

fn check_heads(comparison: &TextComparison, settings: Settings) -> Result<(), Fail> {
    for case in HEADS.lines() {
        let (left, right, signs) = thirds(case)?;
        let wanted = order_of(sign_under(settings.weighting, signs)?);
        let found = comparison.order_beginnings(settings, left, right);
        holds(found == wanted, case)?;
    }
    Ok(())
}

fn check_at_once(
    comparison: &TextComparison,
    settings: Settings,
    is_known: bool,
) -> Result<(), Fail> {
    let found = comparison.order_at_once(settings, "aab", "aba", 0);
    holds(found.is_none(), "texts that have more in common")?;
    for case in AT_ONCE.lines() {
        let (left, right, wanted) = thirds(case)?;
        let (count, signs) = halves(wanted)?;
        let shared = shared_len(left.as_bytes(), right.as_bytes());
        holds(shared == count.parse::<usize>()?, case)?;
        let wanted = order_of(sign_under(settings.weighting, signs)?);
        let found = comparison.order_at_once(settings, left, right, shared);
        holds(found == if is_known { wanted } else { None }, case)?;
    }
    Ok(())
}

/// What is known under one weighting is not asked under the other one.
fn check_under<L: Lookup>(
    comparison: &mut TextComparison,
    collator: &Collator<L>,
    weighting: Weighting,
) -> Result<(), Fail>
    requires { Knows (collation_of L.content collator.now) comparison.old }
    ensures { Knows (collation_of L.content collator.now) comparison.new }
{
    comparison.learn_heads(collator, weighting)?;
    for other in [Weighting::NonIgnorable, Weighting::Shifted] {
        let settings = Settings {
            weighting: other,
            ..settings_by(Numbers::AsText)
        };
        check_heads(comparison, settings)?;
        check_at_once(comparison, settings, other == weighting)?;
    }
    Ok(())
}

fn check_weightings<L: Lookup>(
    comparison: &mut TextComparison,
    collator: &Collator<L>,
) -> Result<(), Fail>
    requires { Knows (collation_of L.content collator.now) comparison.old }
{
    learn(comparison, collator, "\u{905}")?;
    check_under(comparison, collator, Weighting::NonIgnorable)?;
    check_under(comparison, collator, Weighting::Shifted)?;
    check_under(comparison, collator, Weighting::NonIgnorable)
}

fn check_learning<L: Lookup>(
    alloc: Global,
    comparison: &mut TextComparison,
    collator: &Collator<L>,
) -> Result<(), Fail>
    requires { Knows (collation_of L.content collator.now) comparison.old }
{
    let settings = settings_by(Numbers::AsText);
    let found = comparison.order_beginnings(settings, "a", "b");
    holds(found.is_none(), "before anything is known")?;
    learn(comparison, collator, KNOWN)?;
    check_known(comparison)?;
    check_after(comparison, LATER, false)?;
    comparison.learn_heads(collator, settings.weighting)?;
    check_known(comparison)?;
    check_after(comparison, LATER, true)?;
    check_lengths(alloc, comparison)?;
    check_by_value(comparison)
}

/// What is told as a comparison learns code points, or else under both weightings, by a comparison that was made for it.
fn check_new<L: Lookup>(
    alloc: Global,
    collator: &Collator<L>,
    is_learning: bool,
) -> Result<(), Fail> {
    let mut comparison = TextComparison::new(alloc, alloc);
    let found = if is_learning {
        check_learning(alloc, &mut comparison, collator)
    } else {
        check_weightings(&mut comparison, collator)
    };
    drop(comparison);
    found
}

/// All that is checked of beginnings.
pub fn check_all<L: Lookup>(alloc: Global, collator: &Collator<L>) -> Result<(), Fail> {
    check_new(alloc, collator, true)?;
    check_new(alloc, collator, false)
}

#[test]
fn orders_texts_by_what_comes_after_their_beginning(rt: HostRuntime) -> Result<(), Fail> {
    let file = format!(in rt.alloc(); "{NUMBER_TABLE}{MORE_ROWS}")?;
    over_table(rt.alloc(), &file, Trial::Beginnings)
}
