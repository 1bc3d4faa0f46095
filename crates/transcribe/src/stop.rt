//! Why nothing is made of a log.
use dim_base::OutOfMemory;
use dim_log::LogFault;
use dim_transcribe::Limit;

/// Which of the files.
#[derive(Clone, Copy, Debug, PartialEq, Eq)]
pub enum Place {
    Log,
    Program,
    Places,
}

/// What stops the program before it has stored all that it makes. The status and the line of each:
/// docs/services.md.
#[derive(Clone, Copy, Debug, PartialEq, Eq)]
pub enum Stop {
    /// The log isn't there.
    Absent,
    /// The log has more bytes than may be fetched.
    Long,
    /// The file call at this place failed.
    Fault(Place),
    /// The log isn't in its grammar.
    Bad(LogFault),
    /// What is kept of the log is so much of something that a program can't have.
    Over(Limit, u64),
    /// The program that was made doesn't perform what is kept of the log.
    Unfaithful,
    OutOfMemory,
}

impl From<OutOfMemory> for Stop {
    fn from(_e: OutOfMemory) -> Stop {
        Stop::OutOfMemory
    }
}
