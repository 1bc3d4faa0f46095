//! Parts of locks, of which no order goes up.
ghost use Rattle.std.specs.Prelude.{◌≡◌, ◌==◌, true, All, IfOk};
ghost use Rattle.std.specs.List.{list_all};
ghost use Rattle.dim_orders.specs.Nestings.{are_down, asked, crosses, is_down, nesting};

use crate::components::{at, components};
use crate::hold::{Hold, act};
use crate::kept::Operation;
use crate::orders::{Orders, is_wait};
use dim_base::OutOfMemory;
use std::alloc::Global;

/// A part for each of so many locks. The finder puts two locks into one part just where a cycle of
/// orders leads through both; what is claimed is that no order goes up, which is looked at here.
pub fn parts_of(
    alloc: Global,
    locks: usize,
    orders: &Orders,
    threads: &[Vec<Operation>],
) -> Result<Vec<u32>, OutOfMemory>
    ensures { IfOk result (λ parts. All (λ t. are_down parts.items t.items ≡ true) threads.now) }
{
    let parts = components(alloc, locks, orders.as_slice())?;
    if all_go_down(alloc, &parts, threads)? {
        Ok(parts)
    } else {
        Ok(Vec::new(alloc))
    }
}

/// Whether no order of some threads goes up.
fn all_go_down(
    alloc: Global,
    parts: &[u32],
    threads: &[Vec<Operation>],
) -> Result<bool, OutOfMemory>
    ensures { IfOk result (λ b. b ≡ list_all (λ t. are_down parts.now t.items) threads.now) }
{
    for operations in threads {
        if !go_down(alloc, parts, operations)? {
            return Ok(false);
        }
    }
    Ok(true)
}

/// Whether no order of a thread goes up.
fn go_down(alloc: Global, parts: &[u32], operations: &[Operation]) -> Result<bool, OutOfMemory>
    ensures { IfOk result (λ b. b ≡ are_down parts.now operations.now) }
{
    let mut held = Vec::new(alloc);
    for operation in operations {
        if !stays_down(parts, &held, operation) {
            return Ok(false);
        }
        act(&mut held, *operation)?;
    }
    Ok(true)
}

/// Whether an operation is no nesting, or one of which no order goes up.
fn stays_down(parts: &[u32], held: &[Hold], operation: &Operation) -> bool
    ensures { result ≡ list_all (is_down parts.now) (asked held.now operation.now) }
{
    if is_wait(held, operation) {
        goes_down(parts, held, operation)
    } else {
        true
    }
}

/// Whether no order of a nesting goes up.
fn goes_down(parts: &[u32], held: &[Hold], operation: &Operation) -> bool
    ensures { result ≡ is_down parts.now (nesting held.now operation.now) }
{
    let own = at(parts, operation.lock);
    held.iter().all(|h| own <= at(parts, h.lock))
}

/// Whether a nesting stays in the part of a lock that is held.
pub fn is_crossing(parts: &[u32], held: &[Hold], operation: &Operation) -> bool
    ensures { result ≡ crosses parts.now (nesting held.now operation.now) }
{
    let own = at(parts, operation.lock);
    held.iter().any(|h| at(parts, h.lock) == own)
}
