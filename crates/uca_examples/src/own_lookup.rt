//! `Letters`: a lookup of one's own, which needs no table.

ghost use Rattle.std.specs.Prelude.{◌≡◌, MatchOption};
ghost use Rattle.uca_examples.specs.Letters.{letter_row, letter_rows, letters_to};

use crate::Failure;
use crate::key_of_text::SETTINGS;
use std::alloc::Global;
use uca_collation::{Collate, Collator, Data, Element, Header, Lookup, normal};

/// The rows of letters from a on, in order: no table is read for them, and no memory is taken.
#[derive(Clone, Copy)]
pub struct Letters<'a> {
    rows: &'a [[Element; 1]],
}

impl<'a> Letters<'a> {
    /// The elements of a letter.
    fn row(&self, letter: char) -> Option<&[Element]>
        ensures { MatchOption result (letter_row self.now.rows.now letter ≡ None)
            (λ row. letter_row self.now.rows.now letter ≡ Some row.now) }
    {
        if letter < 'a' {
            return None;
        }
        match self.rows.get(letter as usize - 97) {
            Some(row) => Some(row),
            None => None,
        }
    }
}

impl<'a> Lookup for Letters<'a> {
    /// The letter that was read, if one was.
    type Node = Option<char>;

    ghost content = { λ s. letter_rows s.rows.now };

    ghost stands_for = { λ s node key. key ≡ letters_to node };

    fn root(&self) -> Option<char> {
        None
    }

    fn step(&self, node: Option<char>, c: char) -> Option<Option<char>> {
        if node.is_some() || self.row(c).is_none() {
            return None;
        }
        Some(Some(c))
    }

    fn elements(&self, node: Option<char>) -> Option<&[Element]> {
        self.row(node?)
    }
}

/// An element that is not variable, with the weights of a small letter at levels 2 and 3.
fn letter(primary: u16) -> [Element; 1] {
    [Element {
        primary,
        secondary: 0x20,
        tertiary: 2,
        mark: false,
    }]
}

/// The key of a text by the rows of a, b and c. The header has the ranges for implicit weights: no text of these three
/// letters needs them.
pub fn key_by_letters(
    alloc: Global,
    header: &Header,
    data: &Data,
    text: &str,
) -> Result<Vec<u8>, Failure> {
    let rows = [letter(0x1C47), letter(0x1C60), letter(0x1C7A)];
    let letters = Letters { rows: &rows };
    let collator = Collator::new(&letters, header, data);
    let text = normal(alloc, text, data)?;
    Ok(collator.key(alloc, SETTINGS.weighting, SETTINGS.depth, &text)?)
}
