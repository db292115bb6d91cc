//! The allocator that rejects an allocation.

use std::alloc::{AllocError, Allocator, Global};
use std::test::Fail;
use test_kit::{Refusing, holds};

// Two lists in it, when this allocation is rejected.
fn has_two(tried: &Refusing, number: Option<u32>) -> bool {
    tried.refuse(number);
    two(tried).is_ok()
}

fn two(tried: &Refusing) -> Result<u32, AllocError> {
    let first = Vec::from_slice(tried, b"one")?;
    held_with_another(tried, &first)
}

// How many blocks are out when there is another list.
fn held_with_another(tried: &Refusing, first: &[u8]) -> Result<u32, AllocError> {
    let second = Vec::from_slice(tried, b"two")?;
    let held = tried.held();
    let _ = (first.len(), second.len());
    Ok(held)
}

/// The allocation of two that is rejected, how many are asked for, and whether one of them is rejected.
const CASES: [(Option<u32>, u32, bool, &str); 4] = [
    (Some(0), 1, true, "the first"),
    (Some(1), 2, true, "the second"),
    (Some(2), 2, false, "the third"),
    (None, 2, false, "none"),
];

#[test]
fn one_allocation_is_refused(rt: HostRuntime) -> Result<(), Fail> {
    let tried = Refusing::new(rt.alloc());
    for (number, asked, is_refused, case) in CASES {
        let has_two = has_two(&tried, number);
        holds(has_two != is_refused && tried.asked() == asked, case)?;
    }
    Ok(())
}

#[test]
fn blocks_are_given_back(rt: HostRuntime) -> Result<(), Fail> {
    let tried = Refusing::new(rt.alloc());
    holds(two(&tried) == Ok(2) && tried.held() == 0, "two lists")?;
    tried.refuse(Some(1));
    holds(two(&tried).is_err() && tried.held() == 0, "one list")
}

fn check_growth<A: Allocator>(
    tried: &Refusing,
    list: &mut Vec<u8, A>,
    more: &[u8],
) -> Result<(), Fail> {
    tried.refuse(Some(0));
    let is_refused = list.extend_from_slice(more).is_err();
    holds(is_refused && list.as_slice() == b"a".as_slice(), "a growth")?;
    list.extend_from_slice(more)?;
    holds(list.len() == 101 && tried.held() == 1, "the next growth")
}

// A list that has to grow, and keeps what it had if it cannot.
fn grown(ample: Global, tried: &Refusing) -> Result<(), Fail> {
    let mut list = Vec::from_slice(tried, b"a")?;
    let more = Vec::from_slice(ample, &[b'b'; 100])?;
    check_growth(tried, &mut list, &more)
}

#[test]
fn a_growth_is_an_allocation(rt: HostRuntime) -> Result<(), Fail> {
    let tried = Refusing::new(rt.alloc());
    grown(rt.alloc(), &tried)?;
    holds(tried.held() == 0, "all is given back")
}

// Whether there is no list in this memory.
fn is_refused<A: Allocator>(alloc: A) -> bool {
    Vec::from_slice(alloc, b"one").is_err()
}

#[test]
fn one_over_another(rt: HostRuntime) -> Result<(), Fail> {
    let inner = Refusing::new(rt.alloc());
    let outer = Refusing::new(&inner);
    inner.refuse(Some(0));
    let within = is_refused(&outer) && outer.held() == 0 && outer.asked() == 1;
    outer.refuse(Some(0));
    let without = is_refused(&outer) && inner.asked() == 1 && inner.held() == 0;
    holds(within, "refused within")?;
    holds(without, "refused without")
}
