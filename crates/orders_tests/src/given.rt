//! Logs, and what is kept of them.
ghost use Rattle.std.specs.Prelude.{◌↔◌, ◌<◌, All, IsTrue};
ghost use Rattle.dim_orders.specs.Own.{IsWithin};

use dim_base::{Bytes, OutOfMemory};
use dim_log::{Event, Log};
use dim_orders::{Chain, Deed, Kept, Operation, keep};
use std::alloc::Global;
use std::process::Abort;

/// Thread `t` takes lock `l` at stack `s`.
pub(crate) fn lock(thread: u32, lock: u32, stack: u32) -> Event {
    Event::Lock {
        thread,
        lock,
        stack,
    }
}

/// Thread `t` tries lock `l` at stack `s`.
pub(crate) fn attempt(thread: u32, lock: u32, stack: u32, took: bool) -> Event {
    Event::Try {
        thread,
        lock,
        stack,
        took,
    }
}

/// Thread `t` frees lock `l` at stack `s`.
pub(crate) fn unlock(thread: u32, lock: u32, stack: u32) -> Event {
    Event::Unlock {
        thread,
        lock,
        stack,
    }
}

fn words(alloc: Global, count: usize) -> Result<Vec<Bytes>, OutOfMemory> {
    let mut words = Vec::new(alloc);
    for _ in 0..count {
        words.push(Bytes::of(alloc, b"w")?)?;
    }
    Ok(words)
}

fn is_below(number: u32, count: usize) -> bool
    ensures { IsTrue result ↔ (number < count) }
{
    (number as usize) < count
}

/// Whether the threads of an event are among so many.
fn is_within(threads: usize, event: &Event) -> bool
    ensures { IsTrue result → IsWithin threads event.now }
{
    match *event {
        Event::Lock { thread, .. } => is_below(thread, threads),
        Event::Try { thread, .. } => is_below(thread, threads),
        Event::Unlock { thread, .. } => is_below(thread, threads),
        Event::Start { thread, other } => is_below(thread, threads) && is_below(other, threads),
        Event::Join { thread, other } => is_below(thread, threads) && is_below(other, threads),
    }
}

/// Whether the threads of all events are among so many.
fn are_within(threads: usize, events: &[Event]) -> bool
    ensures { IsTrue result → All (IsWithin threads) events.now }
{
    for event in events {
        if !is_within(threads, event) {
            return false;
        }
    }
    true
}

/// What is kept of a log of so many threads and locks with these events.
pub(crate) fn keep_of(
    rt: &impl Abort,
    alloc: Global,
    threads: usize,
    locks: usize,
    events: &[Event],
) -> Kept {
    let log = Log {
        threads: words(alloc, threads).expect(rt, "threads"),
        locks: words(alloc, locks).expect(rt, "locks"),
        functions: Vec::new(alloc),
        stacks: Vec::new(alloc),
        events: Vec::from_slice(alloc, events).expect(rt, "events"),
        cut: false,
    };
    assert!(rt; are_within(log.threads.len(), &log.events));
    keep(alloc, &log).expect(rt, "what is kept")
}

/// An operation as three numbers: 0 lock, 1 try, 2 unlock.
fn numbers(operation: &Operation) -> (u32, u32, u32) {
    let deed = match operation.deed {
        Deed::Lock => 0,
        Deed::Try => 1,
        Deed::Unlock => 2,
    };
    (deed, operation.lock, operation.stack)
}

/// A chain has these threads and operations.
pub(crate) fn has(rt: &impl Abort, chain: &Chain, threads: &[u32], operations: &[(u32, u32, u32)]) {
    assert_eq!(rt; chain.threads.as_slice(), threads);
    assert_eq!(rt; chain.operations.len(), operations.len());
    for (operation, want) in chain.operations.iter().zip(operations) {
        assert_eq!(rt; numbers(operation), *want);
    }
}

/// The counts, in the order of their names in the struct.
pub(crate) fn counts(kept: &Kept) -> (u32, u32, u32, u32, u32) {
    let c = &kept.counts;
    (c.nested, c.orders, c.crossing, c.unheld, c.open)
}
