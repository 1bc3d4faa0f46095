//! The clock.
ghost use Rattle.std.specs.Prelude.{◌≡◌, ◌≤◌, ◌*◌, IfOk};
ghost use Rattle.dim_mutex.specs.Views.{opening, AreCallersOf};

use crate::locking::{Slot, open, play_all, slot_of};
use crate::plain;
use crate::signatures::{Known, catalogue, no_memory};
use anyhow::{Result, ensure};
use dim_mutex::{Caller, Domain};
use std::alloc::Global;
use std::io;
use std::rt::Clock;
use std::sync::{Mutex, Wait};
use std::thread::Threads;
use std::time::Instant;

/// How often each figure is taken.
const TIMES: u32 = 5;

/// The time before something and the time behind it.
#[derive(Drop)]
pub struct Span {
    pub start: io::Result<Instant>,
    pub end: io::Result<Instant>,
}

impl Span {
    /// Its nanoseconds.
    pub fn nanos(self) -> Result<u128> {
        let Self { start, end } = self;
        let took = end?.duration_since(start?);
        Ok(took.as_nanos())
    }
}

/// Nanoseconds for a round of a mutex: the least of several figures.
pub fn least_mutex<R: Clock + Threads + Wait + Sync>(
    rt: &R,
    alloc: Global,
    threads: u32,
    own: bool,
    rounds: u32,
) -> Result<u128>
    requires threads { (1 ≤ threads) × (threads ≤ 4) }
    requires rounds { (1 ≤ rounds) × (rounds ≤ 20000) }
{
    let mut least = u128::MAX;
    for _ in 0..TIMES {
        let took = time_mutex(rt, alloc, threads, own, rounds)?;
        least = least.min(took / u128::from(threads * rounds));
    }
    Ok(least)
}

/// Nanoseconds for a round at a domain: the least of several figures.
pub fn least_immune<R: Clock + Threads + Wait + Sync>(
    rt: &R,
    alloc: Global,
    known: Known,
    threads: u32,
    own: bool,
    rounds: u32,
) -> Result<u128>
    requires threads { (1 ≤ threads) × (threads ≤ 4) }
    requires rounds { (1 ≤ rounds) × (rounds ≤ 20000) }
{
    let mut least = u128::MAX;
    for _ in 0..TIMES {
        let took = time_immune(rt, alloc, known, threads, own, rounds)?;
        least = least.min(took / u128::from(threads * rounds));
    }
    Ok(least)
}

/// How many locks so many threads take.
fn locks_of(threads: u32, own: bool) -> u32
    requires { (1 ≤ threads) × (threads ≤ 4) }
    ensures { (1 ≤ result) × (result ≤ 4) }
{
    if own { threads } else { 1 }
}

fn time_mutex<R: Clock + Threads + Wait + Sync>(
    rt: &R,
    alloc: Global,
    threads: u32,
    own: bool,
    rounds: u32,
) -> Result<u128>
    requires { (1 ≤ threads) × (threads ≤ 4) }
{
    let mut mutexes = Vec::new(alloc);
    for _ in 0..locks_of(threads, own) {
        mutexes.push(Mutex::new(0))?;
    }
    ensure!(!mutexes.is_empty(), "no mutex");
    let start = Instant::now(rt);
    plain::play_all(rt, alloc, mutexes.as_slice(), threads, rounds)?;
    let end = Instant::now(rt);
    Span { start, end }.nanos()
}

/// The slots of so many locks.
fn slots_of(alloc: Global, locks: u32) -> Result<Vec<Slot>>
    requires { locks ≤ 4 }
{
    let mut slots = Vec::new(alloc);
    for l in 0..locks {
        slots.push(slot_of(l))?;
    }
    Ok(slots)
}

/// A domain each of whose callers has taken a lock and given it back so often, these callers, and
/// from when to when they did. The locks are the first ones, of which each caller takes its own.
pub fn played<R: Clock + Threads + Wait + Sync>(
    rt: &R,
    alloc: Global,
    known: Known,
    threads: u32,
    locks: u32,
    rounds: u32,
) -> Result<(Domain, Vec<Caller>, Span)>
    requires threads { (1 ≤ threads) × (threads ≤ 4) }
    requires locks { locks ≤ 4 }
    requires rounds { (1 ≤ rounds) × (rounds ≤ 20000) }
    ensures callers { IfOk result (λ r. AreCallersOf r.0 r.1.items) }
    ensures each { IfOk result (λ r. (opening r.0).callers ≡ threads) }
{
    let slots = slots_of(alloc, locks)?;
    ensure!(!slots.is_empty(), "no lock");
    let known = catalogue(alloc, known)?;
    let (domain, mut callers) = match open(alloc, known, threads, 3 * rounds + 3) {
        Ok(opened) => opened,
        Err(error) => return Err(no_memory(error)),
    };
    let start = Instant::now(rt);
    play_all(
        rt,
        &domain,
        slots.as_slice(),
        callers.as_mut_slice(),
        rounds,
    );
    let end = Instant::now(rt);
    Ok((domain, callers, Span { start, end }))
}

fn time_immune<R: Clock + Threads + Wait + Sync>(
    rt: &R,
    alloc: Global,
    known: Known,
    threads: u32,
    own: bool,
    rounds: u32,
) -> Result<u128>
    requires threads { (1 ≤ threads) × (threads ≤ 4) }
    requires rounds { (1 ≤ rounds) × (rounds ≤ 20000) }
{
    let locks = locks_of(threads, own);
    let (domain, callers, span) = played(rt, alloc, known, threads, locks, rounds)?;
    let closed = domain.close(callers);
    ensure!(
        closed.tables.len() == 3 * threads * rounds,
        "a lock was not granted"
    );
    span.nanos()
}
