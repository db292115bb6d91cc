//! Tests of numbers by value, of owned collators, and of ranges of keys. What two texts have in common at their beginning
//! is here too, and their order by what comes after that. So are compact keys of levels that were not joined. Keys and
//! comparisons of all other texts are tested in `test_texts`.
#![tactic(auto)]

#[cfg(test)]
mod beginnings;
#[cfg(test)]
mod collators;
#[cfg(test)]
mod lanes;
#[cfg(test)]
mod levels;
#[cfg(test)]
mod ranges;
#[cfg(test)]
mod texts;
#[cfg(test)]
mod tries;
#[cfg(test)]
mod written;
