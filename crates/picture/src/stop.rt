//! Why there is no picture.
use dim_base::OutOfMemory;
use dim_inquiry::Stop as Judging;

/// What stops the program before it has stored a picture.
#[derive(Clone, Copy, Debug, PartialEq, Eq)]
pub enum Stop {
    /// What stops `check` too, or want of memory.
    Judging(Judging),
    /// The trace has so many entries, and no range is given.
    LongTrace(u32),
    /// The range isn't in the trace, which has so many entries.
    NoRange(u32),
    /// The store of the picture failed.
    Store,
}

impl From<Judging> for Stop {
    fn from(stop: Judging) -> Stop {
        Stop::Judging(stop)
    }
}

impl From<OutOfMemory> for Stop {
    fn from(_e: OutOfMemory) -> Stop {
        Stop::Judging(Judging::OutOfMemory)
    }
}
