//! Tests of the whole command over an opener in memory and streams that fail. What it prints over whole files is tested with
//! the built program, by `tests/run.py`. Error lines and the arguments that are read are tested here too.
#![tactic(auto)]

#[cfg(test)]
mod changes;
#[cfg(test)]
mod fakes;
#[cfg(test)]
mod lines;
#[cfg(test)]
mod streams;
#[cfg(test)]
mod tailorings;
#[cfg(test)]
mod words;
