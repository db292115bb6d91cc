//! What is true of numbers and their codes. The functions do nothing: their contracts are the laws.

ghost use Rattle.uca_numbers.specs.Laws.{NumbersCompareByValue, EqualNumbersHaveOneCode, CodesStandForNumbers};
ghost use Rattle.uca_numbers.specs.Worked.{WorkedNumbers};

/// Two numbers compare by their values, under all weights that rise on the ten digits and whatever comes after the
/// numbers. If the values are equal, what comes after them decides.
pub fn numbers_compare_by_value()
    ensures { NumbersCompareByValue }
{}

/// Two numbers have one code exactly if their values are equal: `7` and `007` have, `7` and `70` have not.
pub fn equal_numbers_have_one_code()
    ensures { EqualNumbersHaveOneCode }
{}

/// In a text that is written by value each number is its code, and nothing else changes. So a text without digits stays
/// as it is.
pub fn codes_stand_for_numbers()
    ensures { CodesStandForNumbers }
{}

/// The definitions give some codes and texts that were worked out by hand.
pub fn worked_numbers()
    ensures { WorkedNumbers }
{}
