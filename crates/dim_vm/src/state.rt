//! How a machine stands, and how a turn and a slice went.
use dim_base::Lid;
use dim_rag::Why;

/// How a machine stands.
#[derive(Clone, Copy, Debug, PartialEq, Eq)]
pub enum State {
    /// It has asked for no lock that it hasn't got.
    Running,
    /// It was let through to this lock, and hasn't got it yet.
    Waits { l: Lid },
    /// It was told to yield when it asked for this lock.
    Yields { l: Lid },
    /// It has ended.
    Ended { why: Why },
}

/// How many moves a slice made, and how the machine stands after it.
#[derive(Clone, Copy, Debug, PartialEq, Eq)]
pub struct Slice {
    pub moves: u32,
    pub state: State,
}

/// How a turn went.
#[derive(Clone, Copy, Debug, PartialEq, Eq)]
pub enum Turn {
    /// It was a move.
    Moved,
    /// The thread ended.
    Over,
    /// The thread was told Busy or Still.
    Stopped,
}
