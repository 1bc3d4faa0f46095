//! What a call at the turn lock costs, beside what the same calls cost without a lock and under a
//! mutex, and what a feed adds.
#![tactic(auto)]

ghost use Rattle.std.specs.Prelude.{◌≤◌, IfOk};

mod commands;
mod desk;
mod timing;
mod turns;

use crate::timing::{Way, least};
use anyhow::{Context, Result, ensure};
use std::alloc::Global;
use std::env;
use std::rt::Clock;
use std::sync::Wait;
use std::thread::Threads;

const USAGE: &str =
    "turn_bench ROUNDS: what a command costs in nanoseconds, where each thread takes and frees a lock of its own ROUNDS times, 1 to 50000";

fn rounds_of(word: &str) -> Result<u32>
    ensures { IfOk result (λ rounds. (1 ≤ rounds) × (rounds ≤ 50000)) }
{
    let rounds = word.parse::<u32>().context("reading ROUNDS")?;
    ensure!(1 <= rounds && rounds <= 50_000, "ROUNDS is 1 to 50000");
    Ok(rounds)
}

/// Prints a line for each number of threads.
fn tell<R: Clock + Print + Threads + Wait + Sync>(rt: &R, alloc: Global, rounds: u32) -> Result<()>
    requires some { 1 ≤ rounds }
    requires few { rounds ≤ 50000 }
{
    let plain = least(rt, alloc, Way::Plain, 1, rounds)?;
    let pushed = least(rt, alloc, Way::Pushed, 1, rounds)?;
    let fed = least(rt, alloc, Way::Fed, 1, rounds)?;
    let turn = least(rt, alloc, Way::Turn, 1, rounds)?;
    let mutex = least(rt, alloc, Way::Mutex, 1, rounds)?;
    println!(rt; "threads 1 plain {plain} pushed {pushed} fed {fed} turn {turn} mutex {mutex}")?;
    for threads in [2, 4] {
        let turn = least(rt, alloc, Way::Turn, threads, rounds)?;
        let mutex = least(rt, alloc, Way::Mutex, threads, rounds)?;
        println!(rt; "threads {threads} plain - pushed - fed - turn {turn} mutex {mutex}")?;
    }
    Ok(())
}

fn main(rt: HostRuntime) -> Result<()> {
    match env::args(&rt)?.nth(1) {
        Some(word) => tell(&rt, rt.alloc(), rounds_of(word.as_str())?),
        None => Ok(println!(rt; "{USAGE}")?),
    }
}
