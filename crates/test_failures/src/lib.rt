//! Tests of calls in which one allocation, one read or one write fails. Each is tried in turn over one table of calls,
//! and the same call is made afterwards, over fresh streams and with enough memory.
//!
//! Each public call that takes memory of any allocator is in the table. Normalization Form D, the arguments of
//! the command line and their errors take memory only from the global allocator. So their allocations are not among
//! those that fail here: `tests/by_hand/refusals.py` lets these fail in the whole program. Comparing without keys and checking
//! a table take no memory, and printing a key takes none beyond the key: they get no allocator.
#![tactic(auto)]

#[cfg(test)]
mod allocations;
#[cfg(test)]
mod answers;
#[cfg(test)]
mod calls;
#[cfg(test)]
mod cases;
#[cfg(test)]
mod libraries;
#[cfg(test)]
mod reads;
#[cfg(test)]
mod refusing;
#[cfg(test)]
mod rows;
#[cfg(test)]
mod runs;
#[cfg(test)]
mod streams;
#[cfg(test)]
mod trials;
#[cfg(test)]
mod values;
#[cfg(test)]
mod writes;
