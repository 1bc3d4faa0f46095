//! Two workers move amounts between two accounts, under locks that keep clear of the deadlocks
//! that a history knows.
#![tactic(auto)]

use anyhow::{Result, anyhow};
use dim_base::{DirFiles, Files, OutOfMemory, Word};
use dim_history_file::{History, read, write};
use dim_mutex::Pending;
use dim_rag::{Entry, Tables};
use std::alloc::Global;
use std::sync::Wait;
use std::thread::Threads;
use std::{env, rt};
use transfers::{Came, Worked, learnt, work};

const USAGE: &str = "accounts HISTORY NEWHISTORY";

/// A history has at most so many bytes.
const LIMIT: u64 = 8_388_608;

fn no_memory(_error: OutOfMemory) -> anyhow::Error {
    anyhow!("out of memory")
}

/// The history of a file, or for `-` the empty one.
fn read_history<F: Files>(alloc: Global, files: &mut F, name: &str) -> Result<History> {
    if name == "-" {
        return History::empty(alloc).map_err(no_memory);
    }
    let word = Word::of(alloc, name).map_err(no_memory)?;
    match files.fetch(alloc, &word, LIMIT) {
        Ok(bytes) => read(alloc, bytes.as_slice()).map_err(|_| anyhow!("{name} is no history")),
        Err(_) => Err(anyhow!("{name} can't be read")),
    }
}

/// Writes a history to a file.
fn write_history<F: Files>(
    alloc: Global,
    files: &mut F,
    name: &str,
    history: &History,
) -> Result<()> {
    let word = Word::of(alloc, name).map_err(no_memory)?;
    let text = write(alloc, history).map_err(no_memory)?;
    match files.store(alloc, &word, text.as_slice()) {
        Ok(()) => Ok(()),
        Err(_) => Err(anyhow!("{name} can't be written")),
    }
}

/// Prints which workers were held back, and by which signatures.
fn print_yields<R: Print>(rt: &R, tables: &Tables) -> Result<()> {
    for place in 0..tables.len() {
        if let Entry::Yield { t, sig, .. } = tables.entry(place) {
            let worker = t.0;
            println!(rt; "worker {worker} held back by signature {sig}")?;
        }
    }
    Ok(())
}

/// Prints what came of a worker.
fn print_came<R: Print>(rt: &R, worker: u32, came: Came) -> Result<()> {
    match came {
        Came::Moved { from, to } => println!(rt; "worker {worker} moved: {from} and {to}")?,
        Came::Waits(Pending::Busy { holder }) => {
            let holder = holder.0;
            println!(rt; "worker {worker} pending: worker {holder} holds its lock")?
        }
        Came::Waits(Pending::Still { cause }) => {
            println!(rt; "worker {worker} pending: entry {cause} still stands")?
        }
        Came::Waits(Pending::Spent { left }) => {
            println!(rt; "worker {worker} pending: {left} entries left")?
        }
    }
    Ok(())
}

fn print_worked<R: Print>(rt: &R, worked: &Worked) -> Result<()> {
    print_yields(rt, &worked.closed.tables)?;
    print_came(rt, 0, worked.gave)?;
    print_came(rt, 1, worked.took)
}

/// Runs the workers over a history, and writes what the next run reads.
fn run<R: rt::Files + Print + Threads + Wait + Sync>(
    rt: &R,
    alloc: Global,
    history: &str,
    new_history: &str,
) -> Result<()> {
    let mut files = DirFiles::new(rt);
    let loaded = read_history(alloc, &mut files, history)?;
    let worked = work(rt, alloc, loaded)?;
    print_worked(rt, &worked)?;
    let Worked { names, closed, .. } = worked;
    let known = learnt(names, closed)?;
    write_history(alloc, &mut files, new_history, &known)?;
    let signatures = known.catalogue.len();
    println!(rt; "signatures {signatures}")?;
    Ok(())
}

fn main(rt: HostRuntime) -> Result<()> {
    let mut words = env::args(&rt)?.skip(1);
    match (words.next(), words.next(), words.next()) {
        (Some(history), Some(new_history), None) => {
            run(&rt, rt.alloc(), history.as_str(), new_history.as_str())
        }
        _ => Ok(println!(rt; "{USAGE}")?),
    }
}
