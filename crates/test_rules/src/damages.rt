//! Rules with one byte less, one doubled or one changed at each position, and rules that are random after some beginning.

use crate::counts::Counts;
use crate::damaged_rules::judge;
use crate::numbers::Numbers;
use std::alloc::{AllocError, Global};
use std::test::Fail;
use test_kit::holds;
use uca_values::Data;

/// Bytes that mean something in some file: one of them is tried at each position.
const TELLING: &[u8] = b"\0\t\n\r !\"#&'*+-./0129;<=@AFGZ[\\]afgz\x7F\x80\xC3\xFF";

/// How many files are made for each position.
const A_PLACE: usize = 4;

/// How many bytes a random file has at most, after its beginning.
const RANDOM_BYTES: usize = 64;

/// The files to be damaged, and how many random ones there are.
#[derive(Clone, Copy)]
pub struct Trial<'a> {
    /// A file that is accepted.
    pub file: &'a [u8],
    /// How many random files.
    pub random: usize,
    /// The seed of the random bytes.
    pub seed: u64,
    /// How many files there are in all, and which of them are accepted by the formats of docs/FORMATS.md.
    pub counts: Counts,
}

/// How a file is damaged at a position.
#[derive(Clone, Copy)]
enum Damage {
    /// The byte is left out.
    Dropped,
    /// It comes twice.
    Doubled,
    /// Another is there.
    Changed(u8),
}

/// A file that is damaged at a position.
fn damaged(
    alloc: Global,
    file: &[u8],
    place: usize,
    damage: Damage,
) -> Result<Vec<u8>, AllocError> {
    let mut made = Vec::new(alloc);
    for (at, byte) in file.iter().enumerate() {
        match damage {
            Damage::Dropped if at == place => {}
            Damage::Changed(other) if at == place => made.push(other)?,
            Damage::Doubled if at == place => made.extend_from_slice(&[*byte, *byte])?,
            _ => made.push(*byte)?,
        }
    }
    Ok(made)
}

/// One of some bytes.
fn one_of(numbers: &mut Numbers, bytes: &[u8]) -> u8 {
    let place = numbers.below(bytes.len());
    bytes.get(place).copied().unwrap_or(0)
}

/// A byte that means something, other than the one that is there, for which the next of them is taken.
fn telling(numbers: &mut Numbers, own: u8) -> u8 {
    let place = numbers.below(TELLING.len());
    let byte = TELLING.get(place).copied().unwrap_or(0);
    if byte != own {
        return byte;
    }
    TELLING.get(place.saturating_add(1)).copied().unwrap_or(0)
}

/// Any byte other than the one that is there.
fn other(numbers: &mut Numbers, own: u8) -> u8 {
    let byte = numbers.byte();
    if byte == own { byte ^ 1 } else { byte }
}

/// Each damage of a position where this byte is. The last but one is a byte that means something, and the last is any
/// byte.
fn damages(numbers: &mut Numbers, own: u8) -> [Damage; A_PLACE] {
    [
        Damage::Dropped,
        Damage::Doubled,
        Damage::Changed(telling(numbers, own)),
        Damage::Changed(other(numbers, own)),
    ]
}

/// Judges the files that are damaged at a position, where this byte is.
fn judge_place(
    alloc: Global,
    trial: Trial,
    data: &Data,
    (place, own): (usize, u8),
    numbers: &mut Numbers,
    counts: &mut Counts,
) -> Result<(), Fail> {
    for damage in damages(numbers, own) {
        let file = damaged(alloc, trial.file, place, damage)?;
        counts.count(judge(alloc, data, &file)?);
    }
    Ok(())
}

/// A beginning of the file, and bytes after it. About half of these are bytes of the file, and the others are any.
fn random_file(alloc: Global, file: &[u8], numbers: &mut Numbers) -> Result<Vec<u8>, AllocError> {
    let kept = numbers.below(2).saturating_mul(numbers.below(file.len()));
    let mut made = Vec::new(alloc);
    for byte in file.iter().take(kept) {
        made.push(*byte)?;
    }
    for _ in 0..numbers.below(RANDOM_BYTES) {
        let own = one_of(numbers, file);
        let any = numbers.byte();
        made.push(if numbers.below(2) == 0 { own } else { any })?;
    }
    Ok(made)
}

/// Judges the random files.
fn judge_random(
    alloc: Global,
    trial: Trial,
    data: &Data,
    numbers: &mut Numbers,
    counts: &mut Counts,
) -> Result<(), Fail> {
    for _ in 0..trial.random {
        let file = random_file(alloc, trial.file, numbers)?;
        counts.count(judge(alloc, data, &file)?);
    }
    Ok(())
}

/// Judges each damaged file and each random one. The file itself is accepted.
pub fn judge_all(alloc: Global, trial: Trial, data: &Data) -> Result<(), Fail> {
    let is_accepted = judge(alloc, data, trial.file)?;
    holds(is_accepted, "the file itself is refused")?;
    let mut numbers = Numbers::new(trial.seed);
    let mut counts = Counts::new();
    for (place, own) in trial.file.iter().enumerate() {
        judge_place(alloc, trial, data, (place, *own), &mut numbers, &mut counts)?;
    }
    judge_random(alloc, trial, data, &mut numbers, &mut counts)?;
    counts.check(trial.counts)
}
