//! The orders of a log: which lock is held as which is taken.
ghost use Rattle.std.specs.Prelude.{◌≡◌};
ghost use Rattle.dim_orders.specs.Nestings.{is_lock as is_lock_deed, waits};

use crate::hold::{Hold, act, is_held};
use crate::kept::{Deed, Operation};
use dim_base::OutOfMemory;
use indexmap::IndexSet;
use std::alloc::Global;

/// The different orders, the held lock first.
pub type Orders = IndexSet<(u32, u32)>;

/// The orders of operations of threads, each of which begins with nothing.
pub fn orders_of(alloc: Global, threads: &[Vec<Operation>]) -> Result<Orders, OutOfMemory> {
    let mut orders = IndexSet::new(alloc);
    for operations in threads {
        add_orders(alloc, operations, &mut orders)?;
    }
    Ok(orders)
}

fn add_orders(
    alloc: Global,
    operations: &[Operation],
    orders: &mut Orders,
) -> Result<(), OutOfMemory> {
    let mut held = Vec::new(alloc);
    for operation in operations {
        if is_wait(&held, operation) {
            add_from_all(&held, operation.lock, orders)?;
        }
        act(&mut held, *operation)?;
    }
    Ok(())
}

fn add_from_all(held: &[Hold], lock: u32, orders: &mut Orders) -> Result<(), OutOfMemory> {
    for hold in held {
        orders.insert((hold.lock, lock))?;
    }
    Ok(())
}

/// Whether an operation takes a lock that is not held, and waits for it. (A try does not wait.)
pub fn is_wait(held: &[Hold], operation: &Operation) -> bool
    ensures { result ≡ waits held.now operation.now }
{
    is_lock(operation.deed) && !is_held(held, operation.lock)
}

fn is_lock(deed: Deed) -> bool
    ensures { result ≡ is_lock_deed deed }
{
    match deed {
        Deed::Lock => true,
        Deed::Try => false,
        Deed::Unlock => false,
    }
}
