//! Threads that take the locks of a domain.
ghost use Rattle.std.specs.Prelude.{◌≡◌, ◌<◌, ◌≤◌, All, ℕ, false, length, slice_get, slice_index_or, IfOk, Some};
ghost use Rattle.dim_mutex.specs.Standing.{holds, IsIdle, MayWait};
ghost use Rattle.dim_mutex.specs.Views.{opening, AreCallersOf, IsCallerOf};

use crate::signatures::here;
use dim_base::{Lid, OutOfMemory};
use dim_mutex::{Caller, Domain, Immune, Pending};
use dim_signature::Catalogue;
use dim_stack::Stack;
use std::alloc::Global;
use std::sync::Wait;
use std::thread::{Threads, for_each_mut};

/// Each `lock` takes at most so many turns.
const TURNS: u32 = 1000;

/// A lock of a domain with four locks, and its value.
#[derive(Drop)]
pub struct Slot {
    value: Immune<u64>,
    ghost low: { value.l.0 < 4 },
}

/// The value of a lock. It needs a number below 4.
pub fn slot_of(l: u32) -> Slot
    requires { l < 4 }
{
    Slot {
        value: Immune::new(Lid(l), 0),
    }
}

/// Takes a lock and gives it back.
fn take_and_free<R: Wait>(rt: &R, domain: &Domain, slot: &Slot, caller: &mut Caller, stack: &Stack)
    requires caller { IsCallerOf domain.now caller.old }
    requires locks { (opening domain.now).constants.locks ≡ 4 }
    requires free { holds slot.now.value.l.0 caller.old.known ≡ false }
    requires may { MayWait slot.now.value.l stack.now caller.old.known }
    ensures caller { IsCallerOf domain.now caller.new
        × (caller.new.known.number ≡ caller.old.known.number) }
    ensures free { holds slot.now.value.l.0 caller.new.known ≡ false }
    ensures may { MayWait slot.now.value.l stack.now caller.new.known }
{
    for _ in rt.forever() {
        match slot.value.lock(rt, domain, caller, stack, TURNS) {
            Ok(guard) => {
                let guard = guard.change(|value| *value = value.wrapping_add(1));
                guard.release(rt, domain, caller);
                return;
            }
            Err(Pending::Spent { .. }) => return,
            Err(_) => {}
        }
    }
    unreachable!()
}

/// Takes a lock and gives it back, so often.
pub fn play<R: Wait>(rt: &R, domain: &Domain, slot: &Slot, caller: &mut Caller, rounds: u32)
    requires caller { IsCallerOf domain.now caller.old }
    requires idle { IsIdle caller.old.known }
    requires locks { (opening domain.now).constants.locks ≡ 4 }
    ensures { IsCallerOf domain.now caller.new
        × (caller.new.known.number ≡ caller.old.known.number) }
{
    let stack = here();
    for _ in 0..rounds {
        take_and_free(rt, domain, slot, caller, &stack);
    }
}

/// Takes the lock of this place and gives it back, so often. Where there are fewer slots, it is that
/// of the place modulo their number.
fn play_at<R: Wait>(
    rt: &R,
    domain: &Domain,
    slots: &[Slot],
    i: usize,
    caller: &mut Caller,
    rounds: u32,
)
    requires caller { IsCallerOf domain.now caller.old }
    requires idle { IsIdle caller.old.known }
    requires locks { (opening domain.now).constants.locks ≡ 4 }
    requires slots { 1 ≤ length slots.now }
    ensures { IsCallerOf domain.now caller.new
        × (caller.new.known.number ≡ caller.old.known.number) }
{
    play(rt, domain, &slots[i % slots.len()], caller, rounds);
}

/// Each caller takes its lock in a thread of its own, each its own or all the one.
pub fn play_all<R: Threads + Wait + Sync>(
    rt: &R,
    domain: &Domain,
    slots: &[Slot],
    callers: &mut [Caller],
    rounds: u32,
)
    requires callers { All (λ c. IsCallerOf domain.now c) callers.old }
    requires idle { All (λ c. IsIdle c.known) callers.old }
    requires locks { (opening domain.now).constants.locks ≡ 4 }
    requires slots { 1 ≤ length slots.now }
    ensures same { length callers.new ≡ length callers.old }
    ensures each { (i : ℕ) (d : _) → i < length callers.old
        → IsCallerOf domain.now (slice_index_or callers.new i d)
        × ((slice_index_or callers.new i d).known.number
        ≡ (slice_index_or callers.old i d).known.number) }
{
    for_each_mut(
        rt,
        callers,
        4,
        &|i, caller| play_at(rt, domain, slots, i, caller, rounds),
    );
}

/// A domain of four locks that knows these signatures, and its callers, who hold nothing.
pub fn open(
    alloc: Global,
    known: Catalogue,
    threads: u32,
    allowance: u32,
) -> Result<(Domain, Vec<Caller>), OutOfMemory>
    requires few { length known.sigs ≤ 4080 }
    requires threads { (1 ≤ threads) × (threads ≤ 4) }
    requires allowance { (1 ≤ allowance) × (allowance ≤ 65536) }
    ensures locks { IfOk result (λ r. (opening r.0).constants.locks ≡ 4) }
    ensures each { IfOk result (λ r. (opening r.0).callers ≡ threads) }
    ensures callers { IfOk result (λ r. AreCallersOf r.0 r.1.items) }
    ensures idle { IfOk result
        (λ r. (i : ℕ) (c : _) → slice_get r.1.items i ≡ Some c → IsIdle c.known) }
{
    Domain::open(alloc, known, 4, threads, 4, allowance)
}
