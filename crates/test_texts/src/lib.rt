//! Tests of texts, of their collation elements and of their keys: what no clause says, and values that come
//! from outside. Tables and data files are given as bytes, and cases as lines of text.
#![tactic(auto)]

#[cfg(test)]
mod asked_settings;
#[cfg(test)]
mod cases;
#[cfg(test)]
mod compared_texts;
#[cfg(test)]
mod comparisons;
#[cfg(test)]
mod elements;
#[cfg(test)]
mod key_beginnings;
#[cfg(test)]
mod key_maps;
#[cfg(test)]
mod keys;
#[cfg(test)]
mod lookups;
#[cfg(test)]
mod packed_rows;
#[cfg(test)]
mod samples;
#[cfg(test)]
mod stored_keys;
#[cfg(test)]
mod texts;
#[cfg(test)]
mod written_keys;
