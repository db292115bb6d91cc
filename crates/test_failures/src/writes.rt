//! A write fails after each number of bytes: three runs for each byte.

use crate::calls::{CALLS, COMMANDS};
use crate::trials::{Failing, check_cases};
use std::test::Fail;

#[test]
fn calls_in_which_a_write_fails(rt: HostRuntime) -> Result<(), Fail> {
    check_cases(rt.alloc(), CALLS, Failing::Writes, 591)
}

#[test]
fn runs_in_which_a_write_fails(rt: HostRuntime) -> Result<(), Fail> {
    check_cases(rt.alloc(), COMMANDS, Failing::Writes, 3198)
}
