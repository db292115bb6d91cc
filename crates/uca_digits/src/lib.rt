//! That numbers may be written by value before Normalization Form D as well as after it.
//!
//! A digit decomposes to nothing else, no other code point decomposes to a digit, and no mark moves over one.
#![tactic(auto)]

ghost use Rattle.uca_digits.specs.Digits.{NumbersMayBeWrittenFirst, TextsWithoutDigitsStay};

/// A text may be written by value before it is put into Normalization Form D (UAX #15), or after. Both ways give the
/// same code points. The function does nothing: its contract is the law.
pub fn numbers_may_be_written_first()
    ensures { NumbersMayBeWrittenFirst }
{}

/// A text without a digit U+0030 to U+0039 has none in Normalization Form D (UAX #15) either. So numbers by value
/// change nothing there. The function does nothing: its contract is the law.
pub fn texts_without_digits_stay()
    ensures { TextsWithoutDigitsStay }
{}
