//! The lines of a certificate: what a line says, and how a run is spelled.

ghost use Rattle.std.specs.Prelude.{◌≡◌, ◌+◌};
ghost use Rattle.std.specs.Option.{option_map};
ghost use Rattle.uca_lines.specs.Lines.{ended};
ghost use Rattle.uca_weights.specs.Levels.{level_number};
ghost use Rattle.uca_certificates.specs.Texts.{RunLine, run_text};
ghost use Rattle.uca_certificates.specs.inside.Steps;

use uca_lines::fields::{four_digits, weight};
use uca_weights::{Level, Run};

/// The level and the run that a line says; `None` if the line has another format.
#[tactic(auto, unfolding(crate::specs::inside::Steps::line_of))]
pub fn read_line(line: &[u8]) -> Option<(Level, Run)>
    ensures { option_map (λ said. record { level = said.0; run = said.1 }) result ≡ Steps.line_of line.now }
{
    let (level, rest) = leading_level(line)?;
    let (from, rest) = next_number(rest)?;
    let (to, rest) = next_number(rest)?;
    let (count, rest) = next_number(rest)?;
    if !rest.is_empty() {
        return None;
    }
    Some((level, Run { from, to, count }))
}

// The level whose digit begins the text, and what follows it.
#[tactic(auto, unfolding(crate::specs::inside::Steps::level_at))]
fn leading_level(text: &[u8]) -> Option<(Level, &[u8])>
    ensures { option_map (λ found. (found.0, found.1.now)) result ≡ Steps.level_at text.now }
{
    match text {
        [b'1', rest @ ..] => Some((Level::One, rest)),
        [b'2', rest @ ..] => Some((Level::Two, rest)),
        [b'3', rest @ ..] => Some((Level::Three, rest)),
        _ => None,
    }
}

// The number of four digits after a space at the front of the text, and what follows it.
#[tactic(auto, unfolding(crate::specs::inside::Steps::number_at))]
fn next_number(text: &[u8]) -> Option<(u16, &[u8])>
    ensures { option_map (λ found. (found.0, found.1.now)) result ≡ Steps.number_at text.now }
{
    let [b' ', text @ ..] = text else {
        return None;
    };
    if text.len() < 4 {
        return None;
    }
    let (digits, rest) = text.split_at(4);
    let number = weight(digits)?;
    Some((number, rest))
}

/// The line of a run, with its LF.
pub fn run_line(level: Level, run: Run) -> [u8; 17]
    ensures { result ≡ ended (run_text (record { level = level; run = run })) }
{
    let level = level_digit(level);
    let [f0, f1, f2, f3] = four_digits(run.from);
    let [t0, t1, t2, t3] = four_digits(run.to);
    let [c0, c1, c2, c3] = four_digits(run.count);
    [
        level, b' ', f0, f1, f2, f3, b' ', t0, t1, t2, t3, b' ', c0, c1, c2, c3, b'\n',
    ]
}

fn level_digit(level: Level) -> u8
    ensures { result ≡ 48 + level_number level }
{
    match level {
        Level::One => b'1',
        Level::Two => b'2',
        Level::Three => b'3',
    }
}
