//! The clock.
ghost use Rattle.std.specs.Prelude.{◌≤◌, ◌*◌};

use crate::desk::{Desk, new_fed, play_fed, play_locked, play_plain};
use crate::turns::{begin, play_by_turns};
use anyhow::{Error, Result, anyhow, ensure};
use dim_base::OutOfMemory;
use dim_gate::GateState;
use std::alloc::Global;
use std::io;
use std::rt::Clock;
use std::sync::{Mutex, Wait};
use std::thread::Threads;
use std::time::Instant;

/// How often each figure is taken. At first the pages of the gate's room are new; later gates get
/// the same pages where freed memory is kept.
const TIMES: u32 = 5;

/// How callers come to a gate.
#[derive(Clone, Copy)]
pub enum Way {
    /// One caller without a lock.
    Plain,
    /// One caller without a lock, at a gate with a feed, of which nobody takes the notes.
    Pushed,
    /// One caller without a lock, at a gate with a feed, who takes each note.
    Fed,
    /// Callers who take turns at the turn lock.
    Turn,
    /// Callers who lock a mutex.
    Mutex,
}

/// The least of several figures.
pub fn least<R: Clock + Threads + Wait + Sync>(
    rt: &R,
    alloc: Global,
    way: Way,
    callers: u32,
    rounds: u32,
) -> Result<u128>
    requires some { (1 ≤ callers) × (1 ≤ rounds) }
    requires few { (callers ≤ 4) × (rounds ≤ 50000) }
{
    let mut least = u128::MAX;
    for _ in 0..TIMES {
        let cost = match way {
            Way::Plain => time_plain(rt, alloc, 3 * rounds)?,
            Way::Pushed => time_pushed(rt, alloc, 3 * rounds)?,
            Way::Fed => time_fed(rt, alloc, 3 * rounds)?,
            Way::Turn => time_turn(rt, alloc, callers, 3 * rounds)?,
            Way::Mutex => time_mutex(rt, alloc, callers, 3 * rounds)?,
        };
        least = least.min(cost);
    }
    Ok(least)
}

/// Nanoseconds a command, from the clock before and after, where the gate has granted each.
fn cost(
    start: io::Result<Instant>,
    end: io::Result<Instant>,
    gate: &GateState,
    commands: u32,
) -> Result<u128>
    requires { 1 ≤ commands }
{
    ensure!(gate.tables().len() == commands, "a command was not granted");
    let took = end?.duration_since(start?);
    Ok(took.as_nanos() / u128::from(commands))
}

fn no_memory(_error: OutOfMemory) -> Error {
    anyhow!("out of memory")
}

fn time_plain<R: Clock>(rt: &R, alloc: Global, steps: u32) -> Result<u128>
    requires { 1 ≤ steps }
{
    let mut desk = Desk::new(alloc, steps).map_err(no_memory)?;
    let start = Instant::now(rt);
    play_plain(&mut desk, steps);
    cost(start, Instant::now(rt), &desk.gate, steps)
}

fn time_pushed<R: Clock>(rt: &R, alloc: Global, steps: u32) -> Result<u128>
    requires { 1 ≤ steps }
{
    let (mut desk, _inbox) = match new_fed(alloc, steps) {
        Ok(made) => made,
        Err(error) => return Err(no_memory(error)),
    };
    let start = Instant::now(rt);
    play_plain(&mut desk, steps);
    cost(start, Instant::now(rt), &desk.gate, steps)
}

fn time_fed<R: Clock>(rt: &R, alloc: Global, steps: u32) -> Result<u128>
    requires { 1 ≤ steps }
{
    let (mut desk, mut inbox) = match new_fed(alloc, steps) {
        Ok(made) => made,
        Err(error) => return Err(no_memory(error)),
    };
    let start = Instant::now(rt);
    play_fed(&mut desk, &mut inbox, steps);
    cost(start, Instant::now(rt), &desk.gate, steps)
}

fn time_turn<R: Clock + Threads + Wait + Sync>(
    rt: &R,
    alloc: Global,
    callers: u32,
    steps: u32,
) -> Result<u128>
    requires some { (1 ≤ callers) × (1 ≤ steps) }
    requires few { (callers ≤ 4) × (steps ≤ 150000) }
{
    let (turn, mut passes) = match begin(alloc, callers, steps) {
        Ok(begun) => begun,
        Err(error) => return Err(no_memory(error)),
    };
    let start = Instant::now(rt);
    play_by_turns(rt, &turn, passes.as_mut_slice(), steps);
    let end = Instant::now(rt);
    cost(start, end, &turn.close(passes), callers * steps)
}

fn time_mutex<R: Clock + Threads + Wait + Sync>(
    rt: &R,
    alloc: Global,
    callers: u32,
    steps: u32,
) -> Result<u128>
    requires some { (1 ≤ callers) × (1 ≤ steps) }
    requires few { (callers ≤ 4) × (steps ≤ 150000) }
{
    let desk = Mutex::new(Desk::new(alloc, callers * steps).map_err(no_memory)?);
    let start = Instant::now(rt);
    play_locked(rt, alloc, &desk, callers, steps)?;
    let end = Instant::now(rt);
    cost(start, end, &desk.into_inner().gate, callers * steps)
}
