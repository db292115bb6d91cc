//! What is true of texts with numbers. The functions do nothing: their contracts are the laws.

ghost use Rattle.uca_number_keys.specs.Laws.{NumbersOrderTexts, NumbersStandTogether, LeadingZerosMeanNothing, NumericTextsReadByValue, EquivalentTextsHaveTheSameLimits, NumericKeysAreOfTextsByValue};

/// Two texts that do not differ at level 1 before a number are ordered by the values of these numbers: `file 9` comes
/// before `File 10`. This holds at either depth, under either weighting, and of the bytes of keys. If the values are
/// equal, what comes after the numbers decides at level 1. The table has to order numbers.
pub fn numbers_order_texts()
    ensures { NumbersOrderTexts }
{}

/// A number comes after what has less weight than the digit 0, and before what has more than the digit 9. So `7` comes
/// after `-` and before `a`, and after the end of the text. Level 1 decides so, whatever digits the number has, and the
/// bytes of keys agree. The table has to order numbers.
pub fn numbers_stand_together()
    ensures { NumbersStandTogether }
{}

/// Texts that differ in the leading zeros of a number have the same collation elements, so only an identical level
/// tells them apart.
pub fn leading_zeros_mean_nothing()
    ensures { LeadingZerosMeanNothing }
{}

/// A text by value may be normalized before it is written by value, or after. So what is true of texts in Normalization Form
/// D is true of all texts.
pub fn numeric_texts_read_by_value()
    ensures { NumericTextsReadByValue }
{}

/// Canonically equivalent texts (UAX #15) have the same limits, which are those of the text by value.
pub fn equivalent_texts_have_the_same_limits()
    ensures { EquivalentTextsHaveTheSameLimits }
{}

/// Without an identical level, the key of `a10` is that of the text `a210`. A text without digits has the key that it has if
/// numbers are not ordered by value, at either depth.
pub fn numeric_keys_are_of_texts_by_value()
    ensures { NumericKeysAreOfTextsByValue }
{}
