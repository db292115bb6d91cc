//! Reads the sign of a relation, such as `<<*`, and the bracket of a reset, such as `[before 2]`.

ghost use Rattle.std.specs.Prelude.{◌≡◌, ◌<◌, ◌≤◌, bytes_eq, drop, length, option_map, take};
ghost use Rattle.std.specs.List.{AllByRecursion};
ghost use Rattle.uca_rules.specs.Characters.{codes_of};
ghost use Rattle.uca_rules.specs.Statements;
ghost use Rattle.uca_rules.specs.inside.Views.{sign_view};

use crate::characters::Character;
use uca_weights::Strength;

/// What comes before a statement.
#[derive(Clone, Copy)]
pub(crate) enum Preceding {
    /// Nothing: the statement is the first.
    Nothing,
    /// A reset, with the strength that its bracket asks for.
    Reset(Option<Strength>),
    /// A relation, starred or not.
    Relation,
}

/// A sign at the front of rules.
#[derive(Clone, Copy)]
pub(crate) struct Sign<'a> {
    /// The strength of its relation.
    pub(crate) strength: Strength,
    /// Whether `*` follows it.
    pub(crate) starred: bool,
    /// What follows it.
    pub(crate) rest: &'a [Character],
}

/// The sign at the front: `<`, `<<`, `<<<` or `=`, perhaps with `*`.
pub(crate) fn sign_at<'a>(characters: &'a [Character]) -> Option<Sign<'a>>
    ensures { option_map sign_view result ≡ Statements.sign_at characters.now }
{
    let first = characters.first()?;
    if first.code == '=' {
        return Some(perhaps_starred(Strength::Identical, &characters[1..]));
    }
    let count = count_less(characters);
    let strength = match count {
        1 => Strength::Primary,
        2 => Strength::Secondary,
        3 => Strength::Tertiary,
        _ => return None,
    };
    Some(perhaps_starred(strength, &characters[count..]))
}

/// How many `<` come at the front.
fn count_less(characters: &[Character]) -> usize
    ensures count { result ≡ Statements.count_less characters.now }
    ensures after { drop result characters.now ≡ Statements.after_less characters.now }
    ensures within { result ≤ length characters.now }
{
    let mut count = 0;
    for c in characters {
        if c.code != '<' {
            return count;
        }
        count += 1;
    }
    count
}

/// A sign of the strength, with the `*` that may follow it.
fn perhaps_starred<'a>(strength: Strength, characters: &'a [Character]) -> Sign<'a>
    ensures { sign_view result ≡ Statements.perhaps_starred strength characters.now }
{
    match characters.first() {
        Some(c) if c.code == '*' => Sign {
            strength,
            starred: true,
            rest: &characters[1..],
        },
        _ => Sign {
            strength,
            starred: false,
            rest: characters,
        },
    }
}

/// How long a bracket is, in characters.
pub(crate) const BRACKET_LENGTH: usize = 10;

/// The strength that `[before 1]`, `[before 2]` or `[before 3]` asks for, if one of them comes at the front.
pub(crate) fn bracket_at(characters: &[Character]) -> Option<Strength>
    ensures { result ≡ Statements.bracket_at characters.now }
{
    if begins_with(characters, "[before 1]") {
        Some(Strength::Primary)
    } else if begins_with(characters, "[before 2]") {
        Some(Strength::Secondary)
    } else if begins_with(characters, "[before 3]") {
        Some(Strength::Tertiary)
    } else {
        None
    }
}

/// Whether the characters begin with an ASCII text of the length of a bracket.
fn begins_with(characters: &[Character], text: &str) -> bool
    requires ascii { AllByRecursion (λ b. b < 128) text.now }
    requires length { length text.now ≡ 10 }
    ensures { result ≡ bytes_eq (codes_of (take 10 characters.now)) text.now }
{
    let text = text.as_bytes();
    if characters.len() < BRACKET_LENGTH {
        return false;
    }
    for (at, b) in text.iter().enumerate() {
        if characters[at].code != char::from(*b) {
            return false;
        }
    }
    true
}
