//! What there may be at most.
use crate::given::{chain, kept, log, operation, spot};
use dim_base::OutOfMemory;
use dim_log::Log;
use dim_orders::{Chain, Deed, Operation};
use dim_transcribe::{Limit, Transcribe, transcribe};
use std::alloc::Global;

// A log whose stacks are one frame each, in so many functions.
fn flat_log(alloc: Global, functions: u32) -> Result<Log, OutOfMemory> {
    let mut stacks = Vec::new(alloc);
    for function in 0..functions {
        stacks.push(vec![in alloc; spot(function, 1)]?)?;
    }
    log(alloc, &[], stacks)
}

// Takes and frees of a lock, so many in all, with one stack.
fn in_turn(alloc: Global, operations: u32) -> Result<Vec<Operation>, OutOfMemory> {
    let mut list = Vec::new(alloc);
    for i in 0..operations {
        let deed = if i % 2 == 0 { Deed::Lock } else { Deed::Unlock };
        list.push(operation(deed, 0, 0))?;
    }
    Ok(list)
}

// Takes of so many locks.
fn takes_of_locks(alloc: Global, locks: u32) -> Result<Vec<Operation>, OutOfMemory> {
    let mut list = Vec::new(alloc);
    for lock in 0..locks {
        list.push(operation(Deed::Lock, lock, 0))?;
    }
    Ok(list)
}

// Takes and frees of a lock in so many functions.
fn in_functions(alloc: Global, functions: u32) -> Result<Vec<Operation>, OutOfMemory> {
    let mut list = Vec::new(alloc);
    for function in 0..functions {
        list.push(operation(Deed::Lock, 0, function))?;
        list.push(operation(Deed::Unlock, 0, function))?;
    }
    Ok(list)
}

// How many there would be of what there may be fewer of.
fn over(alloc: Global, log: &Log, chains: Vec<Chain>) -> Option<(Limit, u64)> {
    match transcribe(alloc, log, &kept(chains)) {
        Err(Transcribe::Over { limit, count }) => Some((limit, count)),
        _ => None,
    }
}

// The same for one chain.
fn over_by(alloc: Global, log: &Log, operations: Vec<Operation>) -> Option<(Limit, u64)> {
    let chains = vec![in alloc; chain(alloc, operations)].ok()?;
    over(alloc, log, chains)
}

// So many chains that do nothing.
fn idle(alloc: Global, chains: u32) -> Result<Vec<Chain>, OutOfMemory> {
    let mut list = Vec::new(alloc);
    for _ in 0..chains {
        list.push(chain(alloc, Vec::new(alloc)))?;
    }
    Ok(list)
}

#[test]
fn threads_and_locks(rt: HostRuntime) {
    let alloc = rt.alloc();
    let log = flat_log(alloc, 1).expect(&rt, "memory");
    let threads = idle(alloc, 33).expect(&rt, "memory");
    assert_eq!(rt; over(alloc, &log, threads), Some((Limit::Threads, 33)));
    let locks = takes_of_locks(alloc, 257).expect(&rt, "memory");
    assert_eq!(rt; over_by(alloc, &log, locks), Some((Limit::Locks, 257)));
}

// 254 functions of the source, and the three that call them.
#[test]
fn functions(rt: HostRuntime) {
    let alloc = rt.alloc();
    let log = flat_log(alloc, 254).expect(&rt, "memory");
    let operations = in_functions(alloc, 254).expect(&rt, "memory");
    assert_eq!(rt;
        over_by(alloc, &log, operations),
        Some((Limit::Functions, 257))
    );
}

// n operations in one function with two sites: `run` has 8 instructions, `roots` 3 and the function
// 11; `items` has 1, 7 for each operation, 2 for the end, and n tests of 4.
#[test]
fn instructions(rt: HostRuntime) {
    let alloc = rt.alloc();
    let log = flat_log(alloc, 1).expect(&rt, "memory");
    let operations = in_turn(alloc, 6000).expect(&rt, "memory");
    assert_eq!(rt;
        over_by(alloc, &log, operations),
        Some((Limit::Instructions, 66025))
    );
}

// 255 operations and an end are 256 items, each behind 8 tests. A take costs 59 units, a free 58,
// and the end 38.
#[test]
fn units(rt: HostRuntime) {
    let alloc = rt.alloc();
    let log = flat_log(alloc, 1).expect(&rt, "memory");
    let operations = in_turn(alloc, 255).expect(&rt, "memory");
    assert_eq!(rt;
        over_by(alloc, &log, operations),
        Some((Limit::Units, 14956))
    );
}
