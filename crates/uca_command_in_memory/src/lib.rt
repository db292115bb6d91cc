//! The whole command as one call (`uca_run`), over files that are bytes in the caller's memory. It is for C, and for a
//! page in a browser.
//!
//! `run_command` of `uca_cli` does the work. `MemoryFiles` opens the caller's bytes by their names.
//! `bindings/c/include/uca.h` says what a caller in C owes, and docs/PAGE.md how `page/` uses it.
#![tactic(auto)]

mod exports;
mod files;
mod given;
mod lengths;
mod statuses;
mod work;
