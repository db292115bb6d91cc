//! What is true of the keys of all texts. The functions do nothing: their contracts are the laws.

ghost use Rattle.uca_order.specs.Laws.{KeysCompareAsElements, CanonicallyEquivalentTextsHaveEqualKeys, KeysAreShort, RowsAreShort, FindsCompletelyIgnorable, StoredKeysCompareAsElements, KeysCompareAsTexts, StoredKeysCompareAsTexts, IdenticalKeysAreOfEquivalentTexts, CountsAreExact};
ghost use Rattle.uca_order.specs.StreamedWeights.{WeightsMayBeStreamed};
ghost use Rattle.uca_order.specs.WorkedKeys.{WorkedKeys};
ghost use Rattle.uca_order.specs.WorkedComparisons.{WorkedComparisons};
ghost use Rattle.uca_order.specs.WorkedTexts.{WorkedTexts};

/// Byte order of keys is multilevel comparison (UTS #10, sections 1.1 and 7.4): under either weighting, the
/// bytes of two keys compare as the elements do level by level. Two keys are equal exactly if no level differs.
pub fn keys_compare_as_elements()
    ensures { KeysCompareAsElements }
{}

/// Two stored keys of one weighting give the order of their elements and the level at which they differ (UTS
/// #10, section 1.1), by their bytes alone.
pub fn stored_keys_compare_as_elements()
    ensures { StoredKeysCompareAsElements }
{}

/// The keys of two texts compare as the texts do, at either depth. So for two texts `compare` of the crate `uca_key` returns
/// what `compare_keys` returns for their keys, with `level_count` levels.
pub fn keys_compare_as_texts()
    ensures { KeysCompareAsTexts }
{}

/// Two stored keys of one weighting and one depth give the order of their texts, which are given before normalization, and
/// the level at which they differ, under any table.
pub fn stored_keys_compare_as_texts()
    ensures { StoredKeysCompareAsTexts }
{}

/// Canonically equivalent texts (UAX #15) have equal keys, under any table, either weighting and at either depth.
pub fn canonically_equivalent_texts_have_equal_keys()
    ensures { CanonicallyEquivalentTextsHaveEqualKeys }
{}

/// With an identical level texts that are not canonically equivalent have different keys.
pub fn identical_keys_are_of_equivalent_texts()
    ensures { IdenticalKeysAreOfEquivalentTexts }
{}

/// The key of a text within the limits has less than 2^40 bytes, if no row has more than 32
/// elements.
pub fn keys_are_short()
    ensures { KeysAreShort }
{}

/// Under the same rows the counts of `compare` are exact: they are far below 2^64.
pub fn counts_are_exact()
    ensures { CountsAreExact }
{}

/// No row of a table has more than 32 elements, also when a lookup finds it.
pub fn rows_are_short()
    ensures { RowsAreShort }
{}

/// The weights of elements may be worked out one at a time (UTS #10, section 4), by `weights_of` and `is_after_variable`.
pub fn weights_may_be_streamed()
    ensures { WeightsMayBeStreamed }
{}

/// The test of the weighting finds exactly the elements that are completely ignorable (UTS #10, section 3).
pub fn finds_completely_ignorable()
    ensures { FindsCompletelyIgnorable }
{}

/// The definitions give some keys that were worked out by hand.
pub fn worked_keys()
    ensures { WorkedKeys }
{}

/// The definitions compare some keys, and slices that are no keys, as was worked out by hand.
pub fn worked_comparisons()
    ensures { WorkedComparisons }
{}

/// The definitions compare some texts at either depth, count their elements and give their keys with an identical level,
/// as was worked out by hand.
pub fn worked_texts()
    ensures { WorkedTexts }
{}
