//! Budgets in use: which requests fail, when bytes are available again, and how clones share them.

use budget_core::Budget;
use std::alloc::{AllocError, Allocator};
use std::process::Abort;

/// Returns a block of this many bytes, if the budget serves it.
fn block<A: Allocator + Clone>(
    budget: &Budget<A>,
    bytes: usize,
) -> Result<Vec<u8, Budget<A>>, AllocError> {
    Vec::with_capacity(budget.clone()?, bytes)
}

/// Checks that exactly this many bytes are left.
fn check_left<A: Allocator + Clone>(rt: &impl Abort, budget: &Budget<A>, left: u16) {
    let left = usize::from(left);
    assert!(rt; block(budget, left).is_ok(), "{left} bytes are left");
    assert!(rt;
        block(budget, left + 1).is_err(),
        "only {left} bytes are left"
    );
}

#[test]
fn clones_share_the_bytes_that_are_left(rt: HostRuntime) {
    let budget = Budget::new(rt.alloc(), 100).expect(&rt, "a budget");
    let other = budget.clone().expect(&rt, "a clone");
    let first = block(&budget, 60).expect(&rt, "a block");
    check_left(&rt, &other, 40);
    let second = block(&other, 30).expect(&rt, "a block");
    check_left(&rt, &budget, 10);
    drop(first);
    check_left(&rt, &budget, 70);
    drop((second, other));
    check_left(&rt, &budget, 100);
}

// A list of four numbers takes 32 bytes, and one of eight takes 64.
#[test]
fn growth_takes_only_the_bytes_that_are_added(rt: HostRuntime) {
    let budget = Budget::new(rt.alloc(), 80).expect(&rt, "a budget");
    let mut list = [0u64, 1, 2, 3]
        .to_vec(budget.clone().expect(&rt, "a clone"))
        .expect(&rt, "a list");
    check_left(&rt, &budget, 48);
    assert!(rt; list.extend_from_slice(&[4, 5, 6, 7]).is_ok());
    assert_eq!(rt; list.capacity(), 8);
    check_left(&rt, &budget, 16);
    assert!(rt; list.push(8).is_err());
    check_left(&rt, &budget, 16);
    assert_eq!(rt; list.as_slice(), [0, 1, 2, 3, 4, 5, 6, 7].as_slice());
    drop(list);
    check_left(&rt, &budget, 80);
}

#[test]
fn a_refusal_of_the_other_allocator_takes_no_bytes(rt: HostRuntime) {
    let narrower = Budget::new(rt.alloc(), 608).expect(&rt, "a budget");
    let budget = Budget::new(narrower.clone().expect(&rt, "a clone"), 200).expect(&rt, "a budget");
    let held = block(&narrower, 500).expect(&rt, "a block");
    assert!(rt; block(&budget, 150).is_err());
    let mut list = [0u64, 1, 2, 3, 4, 5, 6, 7]
        .to_vec(budget.clone().expect(&rt, "a clone"))
        .expect(&rt, "a list");
    assert!(rt; list.push(8).is_err());
    assert_eq!(rt; list.as_slice(), [0, 1, 2, 3, 4, 5, 6, 7].as_slice());
    drop(held);
    check_left(&rt, &budget, 136);
}

// A block of some mebibytes gives its bytes back like any other.
#[test]
fn a_large_block_gives_its_bytes_back(rt: HostRuntime) {
    let budget = Budget::new(rt.alloc(), 4 << 20).expect(&rt, "a budget");
    let large = block(&budget, 3 << 20).expect(&rt, "a block");
    assert!(rt; block(&budget, 2 << 20).is_err());
    drop(large);
    assert!(rt; block(&budget, 4 << 20).is_ok());
}

#[test]
fn zero_bytes_stand_for_no_budget(rt: HostRuntime) {
    let budget = Budget::new(rt.alloc(), 0).expect(&rt, "a budget");
    assert!(rt; block(&budget, 1_000_000).is_ok());
}
