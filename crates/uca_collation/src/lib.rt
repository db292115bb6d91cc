//! Unicode collation (UTS #10) in one place: what a program needs to read a table, to make and compare sort keys, and
//! to tailor a table. `docs/LIBRARY.md` shows its use by six short programs.
//!
//! A program that keeps a collator begins with `OwnedCollator`, which is opened by the bytes of two files. One that
//! chooses its own lookup or memory takes a `Collator`. The crate passes on the calls and types of the crates below it.
//! Its own are the methods `key` and `compare` of a `Collator` (`Collate`), and `compare_keys` and `level_count` of
//! `Settings` (`StoredKeys`).
#![tactic(auto)]

mod collate;
mod stored;

pub use collate::Collate;
pub use stored::StoredKeys;
pub use uca_audit::{AuditFault, Condition, Place, audit};
pub use uca_certificates::{
    Certificate, CertificateFault, CertificateFaultKind, read_certificate, write_certificate,
};
pub use uca_key::{
    Compared, KeyWriter, TextComparer, compare, compare_keys, key, key_of, level_count,
};
pub use uca_match::{Collator, Elements, Lookup, RowList, Trie, row_of};
pub use uca_owned::{CompareFault, KeyFault, OpenFault, OwnedCollator, fingerprint_of};
pub use uca_rules::{Relation, RuleFault, RuleFaultKind, Rules, read_rules, read_rules_in};
pub use uca_table::{
    Data, FaultKind, Header, IllFormed, ImplicitRange, Row, Table, TableFault, check, read_data,
    read_table, write_table,
};
pub use uca_tailor::{TailorFault, TailorKind, tailor};
pub use uca_text::{Normal, TextFault, normal};
pub use uca_weights::{
    Asked, Depth, Element, Level, MapFault, MapFaultKind, Message, Numbers, ReadFault, Run,
    Settings, Sink, Source, Strength, WeightMap, Weighting, WriteFault,
};
