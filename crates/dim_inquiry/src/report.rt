//! What a command puts at its end.
ghost use Rattle.std.specs.Prelude.{◌≡◌};
ghost use Rattle.dim_inquiry.specs.Report.{status_of, IsStatus};

use dim_base::Bytes;

/// How a command that puts its report has ended.
#[derive(Clone, Copy, Debug, PartialEq, Eq)]
pub enum Ending {
    Done,
    Deadlocked,
    Stalled,
}

impl Ending {
    /// The status of the command.
    pub fn status(self) -> u8
        ensures status { result ≡ status_of self }
        ensures known { IsStatus result }
    {
        match self {
            Ending::Done => 0,
            Ending::Deadlocked => 3,
            Ending::Stalled => 4,
        }
    }
}

/// A report: how the command has ended, and the text that is put.
#[derive(Debug, Drop)]
pub struct Report {
    pub ending: Ending,
    pub text: Bytes,
}
