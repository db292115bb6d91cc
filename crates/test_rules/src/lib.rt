//! Tests of the reader of rules: what rules mean, values that come from outside, the rules of `examples/`, and rules that are
//! damaged or random. Cases are lines of text. Rules that are rejected, and those at the limits, are read by the built program,
//! in `tests/test_rules.py`. So are damaged tables, data files and certificates, in `tests/test_damaged_files.py`.
//!
//! Of damaged rules, what is accepted means what it says, and what is rejected is rejected at a position that has an error.
//!
//! Which rules are accepted: another reader was written by docs/FORMATS.md, apart from these crates and in another language, and
//! read the same files. The number of accepted files, and the sum of their numbers, are those that it gave. So a reader that
//! rejects all, or one file too many, does not pass, nor does one that takes a file too many.
//!
//! Accepted rules: the undamaged ones mean the relations that are written out next to them. With another letter in place of one,
//! in an anchor, a target or an expansion, they mean the same with this letter. Of others only this is judged: after another
//! chain they mean the same relations.
//!
//! Rejected rules: the position is there and may have such an error. After a chain they are rejected in the same way. No model
//! judges which of the kinds that are possible there is named.
#![tactic(auto)]

#[cfg(test)]
mod answers;
#[cfg(test)]
mod counts;
#[cfg(test)]
mod damaged_rules;
#[cfg(test)]
mod damages;
#[cfg(test)]
mod examples;
#[cfg(test)]
mod numbers;
#[cfg(test)]
mod readings;
#[cfg(test)]
mod untouched;
