//! The rows of a table, ready to be looked up: as a list (`RowList`), and as a tree by code points (`Trie`). Maps of
//! keys without their rows (`KeyMap`), what a text is matched as by such a map (`Matches`), and the list of the keys of
//! some rows (`key_list`).
//!
//! The crate passes on `uca_elements`, which reads texts by any lookup.
#![tactic(auto)]

mod char_map;
mod key_map;
mod owned_collation;
mod row_list;
mod text_matches;
mod trie;

pub use key_map::{KeyMap, TrieNode};
pub use owned_collation::OwnedCollation;
pub use row_list::{RowList, RowNode};
pub use text_matches::Matches;
pub use trie::{Trie, key_list};
pub use uca_elements::{Collator, Elements, Lookup, Match, laws, row_of};
