//! The parts of a line: blanks and words, hexadecimal numbers and digits, code points and ranges of them.
//!
//! A blank is a space or a tab. All numbers are hexadecimal with upper-case digits, except classes, which are decimal.

ghost use Rattle.std.specs.Prelude.{◌≡◌, Some};
ghost use Rattle.uca_lines.specs.CodePointRanges.{range_syntax_text};

mod cuts;
mod numbers;
mod ranges;

pub use cuts::{cut_at, cut_word, halves, line_text, skip_blanks, trim};
pub use numbers::{
    class_number, code_point, four_digits, hexadecimal_byte, six_digits, spare_digits, weight,
};
pub use ranges::code_point_range;
use std::fmt;
use thiserror::Error;

/// Why a text is not a range of code points.
#[derive(Debug, Drop, Error)]
pub enum RangeSyntax {
    /// It has no `..`.
    NoDots,
    /// The text before or after the first `..` is not a code point.
    CodePoint,
}

impl RangeSyntax {
    // The text of this error.
    fn text(&self) -> &'static str
        ensures { result.now ≡ range_syntax_text self.now }
    {
        match self {
            RangeSyntax::NoDots => "no `..`",
            RangeSyntax::CodePoint => "no code point",
        }
    }
}

impl fmt::Display for RangeSyntax {
    ghost output = { λ fault. Some (range_syntax_text fault) };

    fn fmt<W: fmt::Write>(&self, f: &mut fmt::Formatter<W>) -> fmt::Result {
        f.write_str(self.text())
    }
}
