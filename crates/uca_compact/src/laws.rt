//! What is true of the compact keys of all texts. The functions do nothing: their contracts are the laws.

ghost use Rattle.uca_compact.specs.Laws.{CompactLevelsKeepOrder, EachCompactKeyIsOfOneKey, NoCompactKeyBeginsAnother};
ghost use Rattle.uca_compact.specs.Laws.{StoredKeysAreRead, OnlyStoredKeysAreRead, CompactKeysKeepOrder, CompactKeysAreShort, CompactKeysCompareAsTexts};
ghost use Rattle.uca_compact.specs.WorkedKeys.{WorkedKeys};
ghost use Rattle.uca_compact.specs.WorkedReadings.{WorkedReadings};

/// Byte order of compact keys is the order of the levels, whatever the plain levels are and whatever follows a key.
pub fn compact_levels_keep_order()
    ensures { CompactLevelsKeepOrder }
{}

/// Keys with one compact key are one.
pub fn each_compact_key_is_of_one_key()
    ensures { EachCompactKeyIsOfOneKey }
{}

/// Without an identical level no compact key begins another one.
pub fn no_compact_key_begins_another()
    ensures { NoCompactKeyBeginsAnother }
{}

/// The levels and code points of a stored key are read from its bytes.
pub fn stored_keys_are_read()
    ensures { StoredKeysAreRead }
{}

/// What is read as a stored key is the key of what was read.
pub fn only_stored_keys_are_read()
    ensures { OnlyStoredKeysAreRead }
{}

/// A compact key has at most one byte more than two keys have.
pub fn compact_keys_are_short()
    ensures { CompactKeysAreShort }
{}

/// Under each table the compact keys of texts, by one book, compare byte by byte as the texts do level by level. They are
/// equal exactly if no level differs. The texts are bytes of UTF-8: lines, or texts that C hands over.
pub fn compact_keys_compare_as_texts()
    ensures { CompactKeysCompareAsTexts }
{}

/// Byte order of the compact keys of texts is that of their keys, if their elements have weights of 16 bits. Then compact
/// keys are equal exactly if the keys are.
pub fn compact_keys_keep_order()
    ensures { CompactKeysKeepOrder }
{}

/// The definitions give some compact keys that were worked out by hand.
pub fn worked_keys()
    ensures { WorkedKeys }
{}

/// Some bytes are the compact keys of some keys, and others of none, as was worked out by hand.
pub fn worked_readings()
    ensures { WorkedReadings }
{}
