//! What a log says.
use dim_base::Bytes;

/// A place in the source: a function, by its number in the log's table of functions, and a line.
#[derive(Clone, Copy, Debug, PartialEq, Eq)]
pub struct Spot {
    pub function: u32,
    pub line: u32,
}

/// An operation of a log. Threads, locks and stacks are numbers in the log's tables.
#[derive(Clone, Copy, Debug, PartialEq, Eq)]
pub enum Event {
    /// A thread took a lock.
    Lock {
        thread: u32,
        lock: u32,
        stack: u32,
    },
    /// A thread tried to take a lock, and took it or not.
    Try {
        thread: u32,
        lock: u32,
        stack: u32,
        took: bool,
    },
    /// A thread freed a lock.
    Unlock {
        thread: u32,
        lock: u32,
        stack: u32,
    },
    /// A thread started another.
    Start {
        thread: u32,
        other: u32,
    },
    /// A thread came behind the end of another.
    Join {
        thread: u32,
        other: u32,
    },
}

/// A log: its tables, each in the order in which its lines first name what is in them, and its
/// events in the order of its lines.
#[derive(Drop)]
pub struct Log {
    /// The words that name threads.
    pub threads: Vec<Bytes>,
    /// The words that name locks.
    pub locks: Vec<Bytes>,
    /// The names of functions.
    pub functions: Vec<Bytes>,
    /// The stacks, each innermost first.
    pub stacks: Vec<Vec<Spot>>,
    pub events: Vec<Event>,
    /// Whether the text was cut off within a line, which is left out.
    pub cut: bool,
}

/// What is wrong with a line of a log.
#[derive(Clone, Copy, Debug, PartialEq, Eq)]
pub enum LogFaultKind {
    /// It has fewer words than its operation needs, or an empty one.
    Short,
    /// Its second word is no operation.
    Operation,
    /// The result of a trylock is neither 0 nor 1.
    Took,
    /// A word is no FUNCTION:LINE.
    Frame,
    /// A start or join has more words than it needs.
    Long,
}

/// A line of a log that is none: its number from 1, and what is wrong.
#[derive(Clone, Copy, Debug, PartialEq, Eq)]
pub struct LogFault {
    pub line: u32,
    pub kind: LogFaultKind,
}
