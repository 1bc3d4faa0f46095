//! Whether a program performs what is kept of a log.
ghost use Rattle.std.specs.Prelude.{◌≡◌, ℕ, ◌<◌, length, slice_get, option_copied, Some, IsTrue};
ghost use Rattle.dim_asm.specs.Code.{thread_count};
ghost use Rattle.dim_orders.specs.declared.kept.Chain.{Chain};
ghost use Rattle.dim_transcribe.specs.Performs.{AreSingle, IsLock, IsStack, Means, Performs, PerformsChain, PerformsPart};

use crate::places::{are_single, innermost, stand_for};
use crate::standing::{ends, makes, starting};
use crate::transcript::{Key, Move};
use dim_asm::Program;
use dim_base::Tid;
use dim_log::{Log, Spot};
use dim_orders::{Chain, Kept, Operation};

/// Whether the lock of a move stands for that of an operation.
fn is_lock(key: &Key, o: &Operation, by: &Move) -> bool
    ensures { IsTrue result → IsLock key.now o.now.lock by.now.lock }
{
    match key.locks.get(by.lock.0 as usize) {
        Some(lock) => *lock == o.lock,
        None => false,
    }
}

/// A stack of the log, if there is one of this number.
fn stack_at(log: &Log, stack: u32) -> Option<&Vec<Spot>>
    ensures { option_copied result ≡ slice_get log.now.stacks.items stack }
{
    log.stacks.get(stack as usize)
}

/// Whether the stack of a move stands for that of an operation.
fn is_stack(key: &Key, log: &Log, o: &Operation, by: &Move) -> bool
    ensures { IsTrue result → IsStack key.now log.now o.now.stack by.now.stack }
{
    let Some(spots) = stack_at(log, o.stack) else {
        return false;
    };
    let frames = by.stack.as_slice();
    let inner = innermost(spots);
    stand_for(&key.places, frames, inner)
}

/// Whether lock and stack of a move stand for those of an operation.
fn means(key: &Key, log: &Log, o: &Operation, by: &Move) -> bool
    ensures { IsTrue result → Means key.now log.now o.now by.now.lock by.now.stack }
{
    if !is_lock(key, o, by) {
        return false;
    }
    is_stack(key, log, o, by)
}

/// Whether a thread of the program, alone, makes some operations, and ends.
fn performs_chain(
    program: &Program,
    key: &Key,
    log: &Log,
    t: Tid,
    operations: &[Operation],
    moves: &[Move],
) -> bool
    requires { t.0 < thread_count program.now }
    ensures { IsTrue result → PerformsChain program.now key.now log.now t operations.now }
{
    let mut machine = starting(program, t);
    let mut holds = [0u8; 256];
    for (i, o) in operations.iter().enumerate() {
        let Some(by) = moves.get(i) else {
            return false;
        };
        if !means(key, log, o, by) || !makes(&mut machine, &mut holds, program, t, o.deed, by) {
            return false;
        }
    }
    ends(&mut machine, program, t)
}

/// What is kept for a thread, if something is.
fn chain_at(kept: &Kept, k: u32) -> Option<&Chain>
    ensures { option_copied result ≡ slice_get kept.now.chains.items k }
{
    kept.chains.get(k as usize)
}

/// Whether a thread of the program performs what is kept for it.
fn performs_part(
    program: &Program,
    key: &Key,
    log: &Log,
    kept: &Kept,
    moves: &[Vec<Move>],
    k: u32,
) -> bool
    requires { k < thread_count program.now }
    ensures { IsTrue result → PerformsPart program.now key.now log.now kept.now k }
{
    let Some(chain) = chain_at(kept, k) else {
        return false;
    };
    let Some(by) = moves.get(k as usize) else {
        return false;
    };
    performs_chain(program, key, log, Tid(k), &chain.operations, by)
}

/// Whether each thread of the program performs what is kept for it.
fn perform_parts(program: &Program, key: &Key, log: &Log, kept: &Kept, moves: &[Vec<Move>]) -> bool
    ensures { IsTrue result
        → (k : ℕ) → k < thread_count program.now
        → PerformsPart program.now key.now log.now kept.now k }
{
    let threads = program.threads();
    for k in 0..threads {
        if !performs_part(program, key, log, kept, moves, k) {
            return false;
        }
    }
    true
}

/// Whether there is a thread for each chain.
fn are_threads(program: &Program, kept: &Kept) -> bool
    ensures { IsTrue result → thread_count program.now ≡ length kept.now.chains.items }
{
    program.threads() as usize == kept.chains.len()
}

/// Whether no two places have the same frame.
fn has_single_places(key: &Key) -> bool
    ensures { IsTrue result → AreSingle key.now.places.items }
{
    are_single(&key.places)
}

/// Whether a program performs what is kept of a log: whether each of its threads, alone, makes
/// exactly the operations of its chain, and ends. `moves` has for each operation the lock and the
/// stack with which it is made. It takes no memory, and the time goes with the units of the
/// threads.
pub fn performs(program: &Program, key: &Key, log: &Log, kept: &Kept, moves: &[Vec<Move>]) -> bool
    ensures { IsTrue result → Performs program.now key.now log.now kept.now }
{
    if !are_threads(program, kept) {
        return false;
    }
    if !has_single_places(key) {
        return false;
    }
    perform_parts(program, key, log, kept, moves)
}
