//! What a thread holds.
ghost use Rattle.std.specs.Prelude.{◌≡◌, OnOk};
ghost use Rattle.dim_orders.specs.Holding.{holds, let_go, held_after};

use crate::kept::{Deed, Operation};
use dim_base::OutOfMemory;

/// A lock that is held, and the stack at which it was taken.
#[derive(Clone, Copy, Debug, PartialEq, Eq)]
pub struct Hold {
    pub lock: u32,
    pub stack: u32,
}

/// Whether one of some holds is of a lock.
pub fn is_held(held: &[Hold], lock: u32) -> bool
    ensures { result ≡ holds held.now lock }
{
    held.iter().any(|h| h.lock == lock)
}

/// Takes away the newest hold of a lock, where there is one. The newest is at the end.
pub fn free(held: &mut Vec<Hold>, lock: u32)
    ensures { held.new.items ≡ let_go lock held.old.items }
{
    let mut i = held.len();
    while i > 0 {
        i -= 1;
        if held[i].lock == lock {
            held.remove(i);
            return;
        }
    }
}

/// Makes what is held what is held after an operation.
pub fn act(held: &mut Vec<Hold>, operation: Operation) -> Result<(), OutOfMemory>
    ensures { OnOk result (held.new.items ≡ held_after held.old.items operation) }
{
    let Operation { deed, lock, stack } = operation;
    match deed {
        Deed::Lock => held.push(Hold { lock, stack })?,
        Deed::Try => held.push(Hold { lock, stack })?,
        Deed::Unlock => free(held, lock),
    }
    Ok(())
}
