//! What is true of all ranges. The functions do nothing: their contracts are the laws.

ghost use Rattle.uca_ranges.specs.Laws.{StoredKeysByLevels, StoredKeysByLetters, CompactKeysByLevels, CompactKeysByLetters, StoredLowEndsTellLevels, CompactLowEndsTellLevels, TextsHaveParts, RangesFindTexts};
ghost use Rattle.uca_ranges.specs.WorkedRanges.{WorkedRanges};

/// A range has exactly the stored keys with some first levels.
pub fn stored_keys_by_levels()
    ensures { StoredKeysByLevels }
{}

/// A range has exactly the stored keys whose level 1 begins with some weights, and does not go on with FFFF.
pub fn stored_keys_by_letters()
    ensures { StoredKeysByLetters }
{}

/// A range has exactly the compact keys with some first levels.
pub fn compact_keys_by_levels()
    ensures { CompactKeysByLevels }
{}

/// A range has exactly the compact keys whose level 1 begins with some weights.
pub fn compact_keys_by_letters()
    ensures { CompactKeysByLetters }
{}

/// Two low ends of ranges of stored keys are the same exactly if the first levels are.
pub fn stored_low_ends_tell_levels()
    ensures { StoredLowEndsTellLevels }
{}

/// Two low ends of ranges of compact keys are the same exactly if the first levels are.
pub fn compact_low_ends_tell_levels()
    ensures { CompactLowEndsTellLevels }
{}

/// Under each table the key of a text of UTF-8 has such parts.
pub fn texts_have_parts()
    ensures { TextsHaveParts }
{}

/// Under each table a range has the key of a text of UTF-8 exactly if the text has the first levels, or the letters, that the
/// range is of. So has a range of compact keys its compact key.
pub fn ranges_find_texts()
    ensures { RangesFindTexts }
{}

/// The definitions give some ranges that were worked out by hand.
pub fn worked_ranges()
    ensures { WorkedRanges }
{}
