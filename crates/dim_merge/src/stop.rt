//! Why the program ends before its report.
use crate::MergeFault;
use dim_base::OutOfMemory;
use dim_history_file::FileFault;

/// Which of the program's files.
#[derive(Clone, Copy, Debug, PartialEq, Eq)]
pub enum Place {
    First,
    Second,
    NewHistory,
}

/// What the words and the files give cause for. The status and the line of each: docs/merging.md.
#[derive(Clone, Copy, Debug, PartialEq, Eq)]
pub enum Refusal {
    /// The words aren't those of the program.
    Words,
    /// A file isn't there.
    Absent(Place),
    /// A file has more bytes than may be fetched.
    Long(Place),
    /// A history isn't in its grammar.
    Bad(Place, FileFault),
    /// The histories have too many signatures together, or too many bytes for a run to load them.
    Full { signatures: u32, bytes: u64 },
}

/// Why the program ends before its report.
#[derive(Clone, Copy, Debug, PartialEq, Eq)]
pub enum Stop {
    Refused(Refusal),
    /// The file call at this place failed.
    Fault(Place),
    OutOfMemory,
}

impl From<OutOfMemory> for Stop {
    ghost use Rattle.std.specs.Prelude.{◌≡◌};
    ghost use Rattle.dim_merge.specs.declared.stop.Stop.TheVariants as stops;

    ghost from_gives = { λ _ e. e ≡ stops.OutOfMemory };

    fn from(_e: OutOfMemory) -> Stop {
        Stop::OutOfMemory
    }
}

impl From<MergeFault> for Stop {
    ghost use Rattle.std.specs.Prelude.{◌≡◌};
    ghost use Rattle.dim_merge.specs.Stops.{stop_of};

    ghost from_gives = { λ merge e. e ≡ stop_of merge };

    fn from(merge: MergeFault) -> Stop {
        match merge {
            MergeFault::Full { signatures, bytes } => {
                Stop::Refused(Refusal::Full { signatures, bytes })
            }
            MergeFault::OutOfMemory => Stop::OutOfMemory,
        }
    }
}
