//! Threads that take std's mutexes.
ghost use Rattle.std.specs.Prelude.{◌≤◌, length};

use std::alloc::{AllocError, Global};
use std::sync::{Mutex, Wait};
use std::thread::{Threads, map_indices};

/// Takes a mutex, adds one to its value and lets it go, so often.
fn play<R: Wait>(rt: &R, mutex: &Mutex<u64>, rounds: u32) {
    for _ in 0..rounds {
        let mut value = mutex.lock(rt);
        *value = value.wrapping_add(1);
    }
}

/// The mutex of a thread: that with its number, where there are so many.
fn mutex_of(mutexes: &[Mutex<u64>], i: usize) -> &Mutex<u64>
    requires { 1 ≤ length mutexes.now }
{
    &mutexes[i % mutexes.len()]
}

/// So many threads take these mutexes, each its own or all the one.
pub fn play_all<R: Threads + Wait + Sync>(
    rt: &R,
    alloc: Global,
    mutexes: &[Mutex<u64>],
    threads: u32,
    rounds: u32,
) -> Result<(), AllocError>
    requires { 1 ≤ length mutexes.now }
{
    map_indices(
        rt,
        alloc,
        threads as usize,
        &|i| play(rt, mutex_of(mutexes, i), rounds),
    )?;
    Ok(())
}
