//! Tests of whole runs over readers and writers that take few bytes a call, or fail at a chosen byte. In the runs over changes,
//! and in those over stored keys, each allocation fails in turn; for the other runs `test_failures` tests this. What runs
//! print over whole files is tested with the built program, by `tests/run.py`.
#![tactic(auto)]

#[cfg(test)]
mod affected;
#[cfg(test)]
mod change_files;
#[cfg(test)]
mod change_run_failures;
#[cfg(test)]
mod change_runs;
#[cfg(test)]
mod files;
#[cfg(test)]
mod numbers;
#[cfg(test)]
mod paces;
#[cfg(test)]
mod pieces;
#[cfg(test)]
mod rule_files;
#[cfg(test)]
mod runs;
#[cfg(test)]
mod streams;
