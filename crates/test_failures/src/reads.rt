//! A read fails after each number of bytes of each file: two runs for each byte, and two where the end is asked for.

use crate::calls::{CALLS, COMMANDS};
use crate::trials::{Failing, check_cases};
use std::test::Fail;

#[test]
fn calls_in_which_a_read_fails(rt: HostRuntime) -> Result<(), Fail> {
    check_cases(rt.alloc(), CALLS, Failing::Reads, 1774)
}

#[test]
fn runs_in_which_a_read_fails(rt: HostRuntime) -> Result<(), Fail> {
    check_cases(rt.alloc(), COMMANDS, Failing::Reads, 5590)
}

#[test]
fn streams_of_all_paces(rt: HostRuntime) -> Result<(), Fail> {
    check_cases(rt.alloc(), CALLS, Failing::Nothing, 0)?;
    check_cases(rt.alloc(), COMMANDS, Failing::Nothing, 0)
}
