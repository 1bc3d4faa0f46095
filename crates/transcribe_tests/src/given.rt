//! Logs and what is kept of them.
use dim_base::{Bytes, OutOfMemory};
use dim_log::{Log, Spot};
use dim_orders::{Chain, Counts, Deed, Kept, Operation};
use std::alloc::Global;

pub(crate) fn spot(function: u32, line: u32) -> Spot {
    Spot { function, line }
}

pub(crate) fn operation(deed: Deed, lock: u32, stack: u32) -> Operation {
    Operation { deed, lock, stack }
}

// Some words.
fn words(alloc: Global, texts: &[&str]) -> Result<Vec<Bytes>, OutOfMemory> {
    let mut words = Vec::new(alloc);
    for text in texts.iter() {
        words.push(Bytes::of(alloc, text.as_bytes())?)?;
    }
    Ok(words)
}

// A log with these functions and the locks a, b and c.
pub(crate) fn log(
    alloc: Global,
    functions: &[&str],
    stacks: Vec<Vec<Spot>>,
) -> Result<Log, OutOfMemory> {
    Ok(Log {
        threads: Vec::new(alloc),
        locks: words(alloc, &["0xa", "0xb", "0xc"])?,
        functions: words(alloc, functions)?,
        stacks,
        events: Vec::new(alloc),
        cut: false,
    })
}

pub(crate) fn chain(alloc: Global, operations: Vec<Operation>) -> Chain {
    Chain {
        threads: Vec::new(alloc),
        operations,
    }
}

pub(crate) fn kept(chains: Vec<Chain>) -> Kept {
    Kept {
        chains,
        counts: Counts::default(),
    }
}
