//! How many locks are nested, and how many lie on a cycle.
use crate::components::{at, filled, put};
use crate::orders::Orders;
use dim_base::OutOfMemory;
use std::alloc::Global;

/// How many of so many locks are in an order.
pub fn count_nested(alloc: Global, locks: usize, orders: &Orders) -> Result<u32, OutOfMemory> {
    let mut marks = filled(alloc, locks, 0)?;
    for (held, lock) in orders {
        put(&mut marks, *held, 1);
        put(&mut marks, *lock, 1);
    }
    Ok(count(&marks))
}

/// How many are in an order within a part.
pub fn count_crossing(
    alloc: Global,
    locks: usize,
    orders: &Orders,
    parts: &[u32],
) -> Result<u32, OutOfMemory> {
    let mut marks = filled(alloc, locks, 0)?;
    for (held, lock) in orders {
        if at(parts, *held) == at(parts, *lock) {
            put(&mut marks, *held, 1);
            put(&mut marks, *lock, 1);
        }
    }
    Ok(count(&marks))
}

fn count(marks: &[u32]) -> u32 {
    let mut sum = 0u32;
    for mark in marks {
        sum = sum.saturating_add(*mark);
    }
    sum
}
