//! Why the workers don't start, or what they learnt isn't kept.
use dim_base::OutOfMemory;
use thiserror::Error;

/// Why the workers don't start, or what they learnt isn't kept.
#[derive(Clone, Copy, Debug, PartialEq, Eq, Error)]
pub enum Refusal {
    /// Memory ran out.
    #[error("memory ran out")]
    Memory,
    /// The history has too many signatures or names.
    #[error("the history is too full")]
    Full,
    /// A function of a signature has no name in the table.
    #[error("a function has no name")]
    Nameless,
}

impl From<OutOfMemory> for Refusal {
    fn from(_error: OutOfMemory) -> Refusal {
        Refusal::Memory
    }
}
