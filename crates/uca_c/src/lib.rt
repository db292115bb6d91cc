//! The library for C: a collator that is opened by the bytes of a table and a data file, keys in the caller's
//! memory, comparison, and upgrades of stored keys. `bindings/c/include/uca.h` declares the calls, and says what a
//! caller owes.
//!
//! The calls are those of an `OwnedCollator` (`uca_owned`) that C keeps, with a book where its keys are compact, and
//! those of an `OwnedUpgrade` (`uca_upgrade`). Each error is a status.
#![tactic(auto)]

mod at_once;
mod compact_exports;
mod compact_work;
mod crossing;
mod exports;
mod handle;
mod held;
mod joining;
mod numbers;
mod open_collator;
mod open_upgrade;
mod opening;
mod parts;
mod range_work;
mod slot;
mod statuses;
mod structs;
mod text_exports;
mod text_work;
mod upgrade_errors;
mod upgrade_exports;
mod upgrade_opening;
mod upgrade_slot;
mod upgrade_work;
mod work;
