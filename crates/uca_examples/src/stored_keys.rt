//! Compares two texts by their stored keys alone.

use crate::key_of_text::SETTINGS;
use std::cmp::Ordering;
use uca_collation::StoredKeys;

/// How two texts compare whose keys were stored: no table is read. The settings are those that the keys were made with.
pub fn compare_stored(left: &[u8], right: &[u8]) -> (Ordering, u8) {
    SETTINGS.compare_keys(left, right)
}
