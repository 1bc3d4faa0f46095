//! What a lock and its release cost under the gate of a domain, beside std's mutex, and what the
//! tender costs.
#![tactic(auto)]

ghost use Rattle.std.specs.Prelude.{◌≤◌, IfOk};

mod locking;
mod plain;
mod signatures;
mod tending;
mod timing;

use crate::signatures::Known;
use crate::tending::tell_tends;
use crate::timing::{least_immune, least_mutex};
use anyhow::{Context, Result, ensure};
use std::alloc::Global;
use std::env;
use std::rt::Clock;
use std::sync::Wait;
use std::thread::Threads;

const USAGE: &str =
    "locks_bench ROUNDS: what a lock and its release cost in nanoseconds, where each thread takes and frees a lock ROUNDS times, 1 to 20000";

fn rounds_of(word: &str) -> Result<u32>
    ensures { IfOk result (λ rounds. (1 ≤ rounds) × (rounds ≤ 20000)) }
{
    let rounds = word.parse::<u32>().context("reading ROUNDS")?;
    ensure!(1 <= rounds && rounds <= 20_000, "ROUNDS is 1 to 20000");
    Ok(rounds)
}

/// Prints a line for so many threads, where each has a lock of its own, or all have one.
fn tell<R: Clock + Print + Threads + Wait + Sync>(
    rt: &R,
    alloc: Global,
    threads: u32,
    own: bool,
    rounds: u32,
) -> Result<()>
    requires threads { (1 ≤ threads) × (threads ≤ 4) }
    requires rounds { (1 ≤ rounds) × (rounds ≤ 20000) }
{
    let mutex = least_mutex(rt, alloc, threads, own, rounds)?;
    let none = least_immune(rt, alloc, Known::Nothing, threads, own, rounds)?;
    let apart = least_immune(rt, alloc, Known::Apart, threads, own, rounds)?;
    let here = least_immune(rt, alloc, Known::Here, threads, own, rounds)?;
    let locks = if own { "own" } else { "one" };
    println!(rt;
        "threads {threads} {locks} mutex {mutex} immune {none} apart {apart} here {here}"
    )?;
    Ok(())
}

fn tell_all<R: Clock + Print + Threads + Wait + Sync>(
    rt: &R,
    alloc: Global,
    rounds: u32,
) -> Result<()>
    requires { (1 ≤ rounds) × (rounds ≤ 20000) }
{
    tell(rt, alloc, 1, true, rounds)?;
    for threads in [2, 4] {
        tell(rt, alloc, threads, true, rounds)?;
        tell(rt, alloc, threads, false, rounds)?;
    }
    tell_tends(rt, alloc)
}

fn main(rt: HostRuntime) -> Result<()> {
    match env::args(&rt)?.nth(1) {
        Some(word) => tell_all(&rt, rt.alloc(), rounds_of(word.as_str())?),
        None => Ok(println!(rt; "{USAGE}")?),
    }
}
