//! Compact keys of levels that were not joined.

use std::alloc::Global;
use std::test::Fail;
use test_kit::{holds, same_bytes};
use uca_books::Book;
use uca_compact::{KeyCompacter, LevelBytes};
use uca_weights::{Depth, Numbers, Settings, Weighting};

/// What makes compact keys under this weighting. The weights 1C47, 1C60 and, at level 4, 0209 have cells of their own.
fn compacter(alloc: Global, weighting: Weighting) -> Result<KeyCompacter, Fail> {
    let mut book = Book::new(alloc);
    for start in [0x1C47, 0x1C48, 0x1C60, 0x1C61, 0x2000] {
        holds(book.push_letter(start).is_ok(), "a start")?;
    }
    for start in [0x209, 0x20A] {
        holds(book.push_variable(start).is_ok(), "a start")?;
    }
    let settings = Settings {
        weighting,
        depth: Depth::Weights,
        numbers: Numbers::AsText,
    };
    Ok(KeyCompacter::new(alloc, book, settings))
}

/// The levels 1C47, 0020 0024 and 0008 0002: a capital with an accent. Then no weights at all.
#[test]
fn three_levels(rt: HostRuntime) -> Result<(), Fail> {
    let mut compacter = compacter(rt.alloc(), Weighting::NonIgnorable)?;
    let mut compact = Vec::new(rt.alloc());
    let capital = LevelBytes {
        letters: &[0x1C, 0x47],
        accents: &[0, 0x20, 0, 0x24],
        cases: &[0, 8, 0, 2],
        variables: &[],
    };
    compacter.write_levels(&capital, &mut compact)?;
    same_bytes(&compact, &[8, 4, 99, 103, 2, 101, 2], "a capital")?;
    let empty = LevelBytes {
        letters: &[],
        accents: &[],
        cases: &[],
        variables: &[],
    };
    compacter.write_levels(&empty, &mut compact)?;
    same_bytes(&compact, &[2], "no weights")
}

/// The levels 1C47 1C60, 0020 0020, 0002 0002 and FFFF 0209 FFFF: a space between two letters.
#[test]
fn four_levels(rt: HostRuntime) -> Result<(), Fail> {
    let mut compacter = compacter(rt.alloc(), Weighting::Shifted)?;
    let mut compact = Vec::new(rt.alloc());
    let space = LevelBytes {
        letters: &[0x1C, 0x47, 0x1C, 0x60],
        accents: &[0, 0x20, 0, 0x20],
        cases: &[0, 2, 0, 2],
        variables: &[0xFF, 0xFF, 2, 9, 0xFF, 0xFF],
    };
    compacter.write_levels(&space, &mut compact)?;
    same_bytes(&compact, &[10, 12, 2, 3, 1, 2], "a space")
}
