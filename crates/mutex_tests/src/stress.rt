//! Four threads that take pairs of eight locks, in any order, at one domain after another.
ghost use Rattle.std.specs.Prelude.{◌≡◌, ◌<◌, ◌≤◌, All, ℕ, length, slice_index_or};
ghost use Rattle.dim_mutex.specs.Views.{opening, IsCallerOf};

use crate::calls::{lock, release};
use crate::judging::is_legal;
use crate::plain::keeps_clear;
use dim_base::Lid;
use dim_mutex::laws::owed_law;
use dim_mutex::{Caller, Closed, Domain, Immune};
use dim_signature::Catalogue;
use samples::entries::at;
use std::alloc::Global;
use std::process::Abort;
use std::sync::Wait;
use std::thread::{Threads, for_each_mut};

const DOMAINS: u32 = 200;

const PAIRS: u32 = 3;

const TURNS: u32 = 4;

/// A value and its lock.
#[derive(Drop)]
struct Slot {
    l: Lid,
    value: Immune<u32>,
    ghost same: { value.l ≡ l },
}

/// The value of a lock, which is 0 at first.
fn new_slot(l: Lid) -> Slot {
    Slot {
        l,
        value: Immune::new(l, 0),
    }
}

/// Takes two locks, adds one to the values and gives both back. It answers whether it got both.
fn add<R: Wait + Abort>(
    rt: &R,
    domain: &Domain,
    caller: &mut Caller,
    first: &Slot,
    second: &Slot,
) -> bool
    requires caller { IsCallerOf domain.now caller.old }
    requires locks { (opening domain.now).constants.locks ≡ 8 }
    ensures caller { IsCallerOf domain.now caller.new
        × (caller.new.known.number ≡ caller.old.known.number) }
{
    let (l, m) = (first.l, second.l);
    assert!(rt; l.0 < 8);
    assert!(rt; m.0 < 8);
    let Ok(held) = lock(rt, domain, &first.value, l, caller, &at(0, l.0), TURNS) else {
        return false;
    };
    let Ok(other) = lock(rt, domain, &second.value, m, caller, &at(1, m.0), TURNS) else {
        return false;
    };
    let other = other.change(|value| *value = value.saturating_add(1));
    release(rt, domain, other, caller);
    let held = held.change(|value| *value = value.saturating_add(1));
    release(rt, domain, held, caller);
    true
}

/// The next of some numbers below 256, which look random.
fn next(seed: &mut u32) -> usize {
    *seed = seed.wrapping_mul(1_664_525).wrapping_add(1_013_904_223);
    (*seed >> 24) as usize
}

/// One thread: it takes pairs of locks until it doesn't get one, in an order of its own.
fn work<R: Wait + Abort>(rt: &R, domain: &Domain, slots: &[Slot], caller: &mut Caller, seed: u32)
    requires caller { IsCallerOf domain.now caller.old }
    requires locks { (opening domain.now).constants.locks ≡ 8 }
    ensures caller { IsCallerOf domain.now caller.new
        × (caller.new.known.number ≡ caller.old.known.number) }
{
    assert!(rt; slots.len() == 8);
    let mut seed = seed.wrapping_add(caller.number().0);
    for _ in 0..PAIRS {
        let first = next(&mut seed) % 8;
        let second = (first + 1 + next(&mut seed) % 7) % 8;
        if !add(rt, domain, caller, &slots[first], &slots[second]) {
            return;
        }
    }
}

/// Each caller in a thread of its own.
fn work_all<R: Threads + Wait + Abort + Sync>(
    rt: &R,
    domain: &Domain,
    slots: &[Slot],
    callers: &mut [Caller],
    seed: u32,
)
    requires callers { All (λ c. IsCallerOf domain.now c) callers.old }
    requires locks { (opening domain.now).constants.locks ≡ 8 }
    ensures same { length callers.new ≡ length callers.old }
    ensures each { (i : ℕ) (d : _) → i < length callers.old
        → IsCallerOf domain.now (slice_index_or callers.new i d)
        × ((slice_index_or callers.new i d).known.number
        ≡ (slice_index_or callers.old i d).known.number) }
{
    for_each_mut(
        rt,
        callers,
        4,
        &|_, caller| { work(rt, domain, slots, caller, seed) },
    );
}

/// What a domain leaves in which all of its four threads have worked.
fn worked<R: Threads + Wait + Abort + Sync>(
    rt: &R,
    alloc: Global,
    loaded: Catalogue,
    slots: &[Slot],
    seed: u32,
) -> Closed
    requires few { length loaded.sigs ≤ 4080 }
{
    owed_law();
    let (domain, mut callers) = match Domain::open(alloc, loaded, 8, 4, 4, 32) {
        Ok(opened) => opened,
        Err(_) => panic!(rt; "no memory for a domain"),
    };
    work_all(rt, &domain, slots, callers.as_mut_slice(), seed);
    match domain.tend(alloc, callers, 258) {
        Ok((domain, callers, _breaks)) => domain.close(callers),
        Err(_) => panic!(rt; "no memory for a turn"),
    }
}

#[test]
fn many_histories_are_legal(rt: HostRuntime) {
    let alloc = rt.alloc();
    let mut slots = Vec::new(alloc);
    for l in 0..8 {
        slots.push(new_slot(Lid(l))).expect(&rt, "a slot");
    }
    let mut known = Catalogue::new(alloc);
    for d in 0..DOMAINS {
        assert!(rt; known.len() <= 4048);
        let loaded = known.copy(alloc).expect(&rt, "a catalogue");
        let closed = worked(&rt, alloc, known, &slots, 7 * d);
        keeps_clear(&rt, alloc, &loaded, &closed.tables);
        is_legal(&rt, alloc, loaded, &closed.tables);
        known = closed.catalogue;
    }
}
