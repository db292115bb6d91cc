//! The command (`run_command`): it opens the files that its arguments name, runs over them, and reports what comes of it. It passes
//! on `report` of `uca_host`, and the runs of `uca_run_parts`, `uca_key_runs`, `uca_tailor_runs`, `uca_change_runs`, `uca_rekey`
//! and `uca_fingerprint_runs`.
#![tactic(auto)]

mod book_commands;
mod booked_files;
mod change_commands;
mod command;
mod fingerprint_commands;
mod key_commands;
mod printing;
mod statuses;

pub use command::run_command;
pub use uca_change_runs::{run_affected_by_changes, run_audit_changes, run_book, run_changes};
pub use uca_editions::affected_by_changes_are_the_others;
pub use uca_fingerprint_runs::run_fingerprint;
pub use uca_host::{MakeFault, OpenFault, Opens, STREAM_FAILED, report};
pub use uca_key_runs::{
    KeyOutput, affected_texts_are_the_others, canonically_equivalent_lines_have_one_key_line,
    compare_words, identical_line_keys_are_of_equivalent_lines, key_order_is_one,
    line_keys_compare_as_lines, run_compare, run_compare_in, run_keys, run_keys_as, run_sort,
    run_sort_in, sort_lines, untouched_lines_keep_their_order,
};
pub use uca_rekey::{lines_move_with_keys, run_compact, run_expand, run_rekey};
pub use uca_run_parts::{
    Affects, FileFault, InputKind, KeySizes, Role, RunFault, StoredKeyKind, print_affected,
    run_affected, run_check,
};
pub use uca_tailor_runs::{run_audit, run_audit_in, run_tailor, run_tailor_in, write_tailored};
pub use uca_words::{
    AffectedWords, AuditChangesWords, AuditWords, BookImageWords, BookWords, ChangesWords,
    CheckWords, CompareWords, EditionNames, FingerprintWords, Fingerprints, KeysWords, RekeyWords,
    SortWords, TailorWords, WordFault, Words, read_words,
};
