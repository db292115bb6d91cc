//! Each allocation is rejected in turn.

use crate::calls::{CALLS, COMMANDS};
use crate::trials::{Failing, check_cases};
use std::test::Fail;

#[test]
fn calls_in_which_an_allocation_is_refused(rt: HostRuntime) -> Result<(), Fail> {
    check_cases(rt.alloc(), CALLS, Failing::Allocations, 0)
}

#[test]
fn runs_in_which_an_allocation_is_refused(rt: HostRuntime) -> Result<(), Fail> {
    check_cases(rt.alloc(), COMMANDS, Failing::Allocations, 0)
}
