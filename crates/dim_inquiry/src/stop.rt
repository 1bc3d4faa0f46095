//! Why a command ends before its report.
use dim_asm::AsmFault;
use dim_base::OutOfMemory;
use dim_history_file::FileFault;
use dim_trace::{Rule, TraceFault};

/// Which of the command's files.
#[derive(Clone, Copy, Debug, PartialEq, Eq)]
pub enum Place {
    Program,
    History,
    NewHistory,
    Trace,
}

/// What the words and the files give cause for. The status and the line of each: docs/formats.md.
#[derive(Clone, Copy, Debug, PartialEq, Eq)]
pub enum Refusal {
    /// The words are no command.
    Words,
    /// A file isn't there.
    Absent(Place),
    /// A file has more bytes than may be fetched.
    Long(Place),
    /// The program isn't in its grammar.
    BadProgram(AsmFault),
    /// The history isn't in its grammar.
    BadHistory(FileFault),
    /// The history has too many signatures or too many bytes for a run to load it.
    Full { signatures: u32, bytes: u64 },
    /// The trace isn't in its grammar.
    BadTrace(TraceFault),
    /// The trace doesn't execute the program on the history: the first place and rule that it
    /// breaks.
    No { place: u32, rule: Rule },
    /// The history has no signature with this number.
    NoSignature { index: u32 },
    /// The nestings of the trace say more than 4,096 different things.
    ManyNestings,
}

/// Why a command ends before its report.
#[derive(Clone, Copy, Debug, PartialEq, Eq)]
pub enum Stop {
    Refused(Refusal),
    /// The file call at this place failed.
    Fault(Place),
    OutOfMemory,
}

impl From<OutOfMemory> for Stop {
    ghost use Rattle.std.specs.Prelude.{◌≡◌};
    ghost use Rattle.dim_inquiry.specs.declared.stop.Stop.TheVariants as stops;

    ghost from_gives = { λ _ e. e ≡ stops.OutOfMemory };

    fn from(_e: OutOfMemory) -> Stop {
        Stop::OutOfMemory
    }
}
