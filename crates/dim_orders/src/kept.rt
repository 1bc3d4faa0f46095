//! What is kept of a log.

/// What is done to a lock.
#[derive(Clone, Copy, Debug, PartialEq, Eq)]
pub enum Deed {
    /// It is taken; where another holds it, its thread waits.
    Lock,
    /// It is tried, and was taken.
    Try,
    /// It is freed.
    Unlock,
}

/// An operation that is kept. The lock and the stack are numbers in the log's tables.
#[derive(Clone, Copy, Debug, PartialEq, Eq)]
pub struct Operation {
    pub deed: Deed,
    pub lock: u32,
    pub stack: u32,
}

/// What is kept of threads of which each was started after the one before it was joined.
#[derive(Drop)]
pub struct Chain {
    /// The threads, by their numbers in the log's table.
    pub threads: Vec<u32>,
    /// What is kept of them, one thread behind the other: whole sections, each from where its
    /// thread holds nothing to where it holds nothing again.
    pub operations: Vec<Operation>,
}

/// How much a log has.
#[derive(Clone, Copy, Debug, Default, PartialEq, Eq)]
pub struct Counts {
    /// Locks that were taken while another was held, or held while another was taken.
    pub nested: u32,
    /// Pairs of locks of which one was held as the other was taken.
    pub orders: u32,
    /// Locks that lie on a cycle of these pairs.
    pub crossing: u32,
    /// Unlocks of what their thread didn't hold.
    pub unheld: u32,
    /// Threads that hold something at the end of the log.
    pub open: u32,
}

/// What is kept of a log: a chain for each thread of the program to be made, and how much the log
/// has.
#[derive(Drop)]
pub struct Kept {
    pub chains: Vec<Chain>,
    pub counts: Counts,
}
