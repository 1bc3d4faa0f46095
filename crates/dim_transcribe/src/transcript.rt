//! What a program has to do with the log from which it was made.
use dim_asm::{AsmError, Program};
use dim_base::{Bytes, Lid, OutOfMemory};
use dim_log::Spot;
use dim_stack::{Frame, Stack};
use std::alloc::{AllocError, AllocFailed};

/// A place of the program, and the place of the source for which it stands. The function of the
/// frame is its number in the table of the names of the program's functions.
#[derive(Clone, Copy, Debug, PartialEq, Eq)]
pub struct StandIn {
    pub frame: Frame,
    pub spot: Spot,
}

/// For what the places and the locks of a program stand.
#[derive(Drop)]
pub struct Key {
    /// The places, in the order of their frames.
    pub places: Vec<StandIn>,
    /// For each lock of the program, its number in the log's table.
    pub locks: Vec<u32>,
}

/// How an operation is made in the program: of which lock, and with which stack.
#[derive(Clone, Copy, Debug)]
pub struct Move {
    pub lock: Lid,
    pub stack: Stack,
}

/// A program that does what is kept of a log.
#[derive(Drop)]
pub struct Transcript {
    /// Its text, and the program that the text spells.
    pub text: Bytes,
    pub program: Program,
    /// For what its places and locks stand.
    pub key: Key,
    /// How each of its threads makes the operations of its chain.
    pub moves: Vec<Vec<Move>>,
    /// How many kept stacks are longer than what the program has of them.
    pub cut: u32,
}

/// What a program has at most.
#[derive(Clone, Copy, Debug, PartialEq, Eq)]
pub enum Limit {
    /// 32 threads.
    Threads,
    /// 256 locks.
    Locks,
    /// 256 functions, three of which call those of the source.
    Functions,
    /// 65,536 instructions.
    Instructions,
    /// 8,192 units for each thread.
    Units,
}

/// Why there is no transcript.
#[derive(Clone, Copy, Debug, PartialEq, Eq)]
pub enum Transcribe {
    /// The program would have so many of what may be fewer, or more than so many.
    Over { limit: Limit, count: u64 },
    /// The program that was made isn't one, or doesn't do what is kept.
    Unfaithful,
    /// Memory ran out.
    OutOfMemory,
}

impl From<OutOfMemory> for Transcribe {
    fn from(_e: OutOfMemory) -> Transcribe {
        Transcribe::OutOfMemory
    }
}

impl From<AllocError> for Transcribe {
    fn from(_e: AllocError) -> Transcribe {
        Transcribe::OutOfMemory
    }
}

impl<T: Drop> From<AllocFailed<T>> for Transcribe {
    fn from(_e: AllocFailed<T>) -> Transcribe {
        Transcribe::OutOfMemory
    }
}

impl From<AsmError> for Transcribe {
    fn from(e: AsmError) -> Transcribe {
        match e {
            AsmError::OutOfMemory => Transcribe::OutOfMemory,
            AsmError::Bad(_fault) => Transcribe::Unfaithful,
        }
    }
}
