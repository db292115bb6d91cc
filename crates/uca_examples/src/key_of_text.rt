//! Makes the sort key of a text, to be stored.

use crate::Failure;
use std::alloc::Global;
use uca_collation::{
    Collate, Collator, Data, Depth, Numbers, Settings, Table, Trie, Weighting, normal,
};

/// Spaces count only at the fourth level, and texts that weigh the same are equal.
pub const SETTINGS: Settings = Settings {
    weighting: Weighting::Shifted,
    depth: Depth::Weights,
    numbers: Numbers::AsText,
};

/// The sort key of a text, to be stored.
pub fn key_of_text(
    alloc: Global,
    table: &Table,
    data: &Data,
    text: &str,
) -> Result<Vec<u8>, Failure> {
    let rows = Trie::new(alloc, table)?;
    let collator = Collator::new(&rows, &table.header, data);
    let text = normal(alloc, text, data)?;
    Ok(collator.key(alloc, SETTINGS.weighting, SETTINGS.depth, &text)?)
}
