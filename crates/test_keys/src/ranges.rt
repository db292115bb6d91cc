//! The ranges of a key of two letters.

use std::alloc::Global;
use std::test::Fail;
use test_kit::{holds, same_bytes};
use uca_books::Book;
use uca_compact::KeyCompacter;
use uca_ranges::{
    read_letters, write_compact_letters_range, write_letters_range,
    write_same_compact_letters_range, write_same_compact_levels_range, write_same_letters_range,
    write_same_levels_range,
};
use uca_weights::{Depth, Numbers, Settings, Weighting};

/// The levels 1C47 1C60, 0020 0020 and 0002 0002.
const KEY: &[u8] = &[
    0x1C, 0x47, 0x1C, 0x60, 0, 0, 0, 0x20, 0, 0x20, 0, 0, 0, 2, 0, 2,
];

/// The weights of level 1.
fn letters_of(alloc: Global) -> Result<Vec<u16>, Fail> {
    let mut letters = Vec::new(alloc);
    holds(read_letters(KEY, &mut letters)?, "letters are read")?;
    Ok(letters)
}

#[test]
fn stored_keys(rt: HostRuntime) -> Result<(), Fail> {
    let alloc = rt.alloc();
    let letters = letters_of(alloc)?;
    let mut low = Vec::new(alloc);
    let mut high = Vec::new(alloc);
    write_same_letters_range(&letters, &mut low, &mut high)?;
    same_bytes(&low, &KEY[..4], "the same letters from here")?;
    same_bytes(
        &high,
        &[0x1C, 0x47, 0x1C, 0x60, 0, 1],
        "the same letters to here",
    )?;
    write_letters_range(&letters, &mut low, &mut high)?;
    same_bytes(&low, &KEY[..4], "these letters from here")?;
    same_bytes(
        &high,
        &[0x1C, 0x47, 0x1C, 0x60, 0xFF, 0xFF],
        "these letters to here",
    )
}

#[test]
fn stored_levels(rt: HostRuntime) -> Result<(), Fail> {
    let alloc = rt.alloc();
    let mut low = Vec::new(alloc);
    let mut high = Vec::new(alloc);
    holds(
        write_same_levels_range(KEY, 2, &mut low, &mut high)?,
        "two levels",
    )?;
    same_bytes(&low, &KEY[..10], "the same accents from here")?;
    let wanted = [0x1C, 0x47, 0x1C, 0x60, 0, 0, 0, 0x20, 0, 0x20, 0, 1];
    same_bytes(&high, &wanted, "the same accents to here")
}

/// A book where both letters have a cell of their own.
fn small_book(alloc: Global) -> Result<Book, Fail> {
    let mut book = Book::new(alloc);
    for start in [0x1C47, 0x1C48, 0x1C60, 0x1C61] {
        holds(book.push_letter(start).is_ok(), "a start")?;
    }
    Ok(book)
}

/// The ranges of compact keys under this weighting, where the letters have these cells.
fn check_compact(
    alloc: Global,
    weighting: Weighting,
    cells: [u8; 2],
    ends: u8,
) -> Result<(), Fail> {
    let book = small_book(alloc)?;
    let letters = [0x1C47, 0x1C60];
    let mut low = Vec::new(alloc);
    let mut high = Vec::new(alloc);
    write_same_compact_letters_range(&book, weighting, &letters, &mut low, &mut high)?;
    same_bytes(&low, &[cells[0], cells[1], 0], "the same letters from here")?;
    same_bytes(
        &high,
        &[cells[0], cells[1], ends],
        "the same letters to here",
    )?;
    write_compact_letters_range(&book, weighting, &letters, &mut low, &mut high)?;
    same_bytes(&low, &cells, "these letters from here")?;
    same_bytes(&high, &[cells[0], cells[1], 0xFF], "these letters to here")
}

#[test]
fn compact_keys(rt: HostRuntime) -> Result<(), Fail> {
    check_compact(rt.alloc(), Weighting::NonIgnorable, [8, 10], 5)?;
    check_compact(rt.alloc(), Weighting::Shifted, [10, 12], 7)
}

/// A range of compact keys by the first levels of a whole key.
#[derive(Clone, Copy)]
struct Row {
    key: &'static [u8],
    count: usize,
    low: &'static [u8],
    high: &'static [u8],
}

/// Checks ranges of compact keys under these settings.
fn check_rows(alloc: Global, settings: Settings, rows: &[Row]) -> Result<(), Fail> {
    let mut compacter = KeyCompacter::new(alloc, small_book(alloc)?, settings);
    let mut low = Vec::new(alloc);
    let mut high = Vec::new(alloc);
    for row in rows {
        let found = write_same_compact_levels_range(
            &mut compacter,
            settings,
            row.key,
            row.count,
            &mut low,
            &mut high,
        )?;
        holds(found, "the key has these levels")?;
        same_bytes(&low, row.low, "the same levels from here")?;
        same_bytes(&high, row.high, "the same levels to here")?;
    }
    Ok(())
}

/// The levels 1C47, 0020 0024 and 0008 0002: a capital letter with an acute accent.
const ACUTE: &[u8] = &[0x1C, 0x47, 0, 0, 0, 0x20, 0, 0x24, 0, 0, 0, 8, 0, 2];

/// The levels FB40 CE00, 0020 and 0002: a letter of two weights at level 1.
const IMPLICIT: &[u8] = &[0xFB, 0x40, 0xCE, 0, 0, 0, 0, 0x20, 0, 0, 0, 2];

#[test]
fn three_compact_levels(rt: HostRuntime) -> Result<(), Fail> {
    let settings = Settings {
        weighting: Weighting::NonIgnorable,
        depth: Depth::Weights,
        numbers: Numbers::AsText,
    };
    let rows = [
        Row {
            key: KEY,
            count: 1,
            low: &[8, 10, 0],
            high: &[8, 10, 5],
        },
        Row {
            key: KEY,
            count: 2,
            low: &[8, 10, 1],
            high: &[8, 10, 4],
        },
        Row {
            key: KEY,
            count: 3,
            low: &[8, 10, 2],
            high: &[8, 10, 3],
        },
        Row {
            key: ACUTE,
            count: 1,
            low: &[8, 0],
            high: &[8, 5],
        },
        Row {
            key: ACUTE,
            count: 2,
            low: &[8, 4, 0x63, 0x67, 0],
            high: &[8, 4, 0x63, 0x67, 3],
        },
        Row {
            key: IMPLICIT,
            count: 1,
            low: &[0x0B, 0xDE, 0xDF, 0x0B, 0xB1, 0x9F, 0],
            high: &[0x0B, 0xDE, 0xDF, 0x0B, 0xB1, 0x9F, 5],
        },
    ];
    check_rows(rt.alloc(), settings, &rows)
}

#[test]
fn four_compact_levels(rt: HostRuntime) -> Result<(), Fail> {
    let settings = Settings {
        weighting: Weighting::Shifted,
        depth: Depth::Identical,
        numbers: Numbers::AsText,
    };
    // each key has an identical level of one code point
    let acute = &[
        0x1C, 0x47, 0, 0, 0, 0x20, 0, 0x24, 0, 0, 0, 8, 0, 2, 0, 0, 0xFF, 0xFF, 0xFF, 0xFF, 0, 0,
        0, 0, 0x41,
    ];
    let implicit = &[
        0xFB, 0x40, 0xCE, 0, 0, 0, 0, 0x20, 0, 0, 0, 2, 0, 0, 0xFF, 0xFF, 0xFF, 0xFF, 0, 0, 0,
        0x4E, 0,
    ];
    let rows = [
        Row {
            key: acute,
            count: 2,
            low: &[10, 6, 0x8B, 0x8F, 0],
            high: &[10, 6, 0x8B, 0x8F, 5],
        },
        Row {
            key: acute,
            count: 3,
            low: &[10, 6, 0x8B, 0x8F, 4, 0xA5, 4],
            high: &[10, 6, 0x8B, 0x8F, 4, 0xA5, 7],
        },
        Row {
            key: implicit,
            count: 3,
            low: &[0x0D, 0xDE, 0xDF, 0x0D, 0xB1, 0x9F, 2],
            high: &[0x0D, 0xDE, 0xDF, 0x0D, 0xB1, 0x9F, 5],
        },
    ];
    check_rows(rt.alloc(), settings, &rows)
}
