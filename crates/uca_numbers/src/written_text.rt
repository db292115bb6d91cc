//! `WrittenText`: memory for texts by value.

ghost use Rattle.std.specs.Prelude.{◌≡◌, chars, OnOk};
ghost use Rattle.std.specs.Bool.{OnTrue};
ghost use Rattle.std.specs.String.{string_bytes};
ghost use Rattle.uca_numbers.specs.Texts.{by_value};

use crate::writing::{has_digit, write_by_value};
use std::alloc::{AllocError, Global};
use std::marker::Model;

/// A text by value. Each text that is written replaces the one before, and the memory is used again.
#[derive(Drop)]
pub struct WrittenText {
    // the code points of the text as it was, and those of it by value
    points: Vec<char>,
    by_value: Vec<char>,
    // the text by value
    text: String,
}

impl Model for WrittenText {
    ghost use Rattle.std.specs.Prelude.{ℕ, List};
    ghost use Rattle.std.specs.String.{string_bytes};

    ghost Value = { List ℕ };

    ghost view = { λ w. string_bytes w.text };
}

impl WrittenText {
    /// No text. It takes no memory.
    pub fn new(global: Global) -> WrittenText {
        WrittenText {
            points: Vec::new(global),
            by_value: Vec::new(global),
            text: String::new(global),
        }
    }

    /// Writes a text by value, over the one that was there: `a42` as `a242`.
    ///
    /// # Errors
    ///
    /// An allocation failed. The text is then unspecified until the next one is written.
    pub fn renew(&mut self, text: &str) -> Result<(), AllocError>
        ensures { OnOk result (chars self.new ≡ by_value (chars text.now)) }
    {
        list_points(&mut self.points, text)?;
        write_by_value(&mut self.by_value, &self.points)?;
        write_text(&mut self.text, &self.by_value)
    }

    /// The text by value.
    pub fn as_str(&self) -> &str
        ensures { result.now ≡ self.now }
    {
        self.text.as_str()
    }
}

/// Whether a text has no digit U+0030 to U+0039. It is the same by value then.
pub fn has_no_digit(text: &str) -> bool
    ensures { OnTrue result (by_value (chars text.now) ≡ chars text.now) }
{
    !has_digit(text)
}

// Replaces the list by the code points of a text.
fn list_points(points: &mut Vec<char>, text: &str) -> Result<(), AllocError>
    ensures { OnOk result (points.new.items ≡ chars text.now) }
{
    points.clear();
    for point in text.chars() {
        points.push(point)?;
    }
    Ok(())
}

// Replaces the text by the one that has these code points.
fn write_text(text: &mut String, points: &[char]) -> Result<(), AllocError>
    ensures { OnOk result (chars (string_bytes text.new) ≡ points.now) }
{
    text.clear();
    for point in points {
        text.push(*point)?;
    }
    Ok(())
}
