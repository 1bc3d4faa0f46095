//! Why a text is no history.
ghost use Rattle.std.specs.Prelude.{◌≡◌};
ghost use Rattle.dim_history_file.specs.Faults.{kind_number, at_line};

use dim_base::OutOfMemory;
use dim_text::Stop;

/// What a line breaks.
#[derive(Clone, Copy, Debug, PartialEq, Eq)]
pub enum FileKind {
    /// The first line is neither `dim history 1` nor `dim history 2` with its line feed.
    Head,
    /// The line has no line feed, or isn't there; or it isn't of the form that is due, or has a
    /// space too many.
    Line,
    /// What stands before a colon isn't a name.
    Name,
    /// A depth, a count, a number of yields, an offset or the number behind `end` isn't a number of
    /// its range.
    Number,
    /// A stack is less than the one before it.
    Unsorted,
    /// An earlier signature has the same stacks.
    Double,
    /// The number behind `end` isn't the number of signatures.
    Count,
    /// Something stands behind the end line.
    Rest,
    /// There are more signatures than a history may have, or more frames than a stack may have.
    Limit,
}

impl FileKind {
    /// The number of the kind, from 1 in the order of the variants.
    pub fn number(self) -> u32
        ensures { result ≡ kind_number self }
    {
        match self {
            FileKind::Head => 1,
            FileKind::Line => 2,
            FileKind::Name => 3,
            FileKind::Number => 4,
            FileKind::Unsorted => 5,
            FileKind::Double => 6,
            FileKind::Count => 7,
            FileKind::Rest => 8,
            FileKind::Limit => 9,
        }
    }
}

/// The first fault of a text: its line, counted from 1, and the first kind that applies there.
#[derive(Clone, Copy, Debug, PartialEq, Eq)]
pub struct FileFault {
    pub line: u32,
    pub kind: FileKind,
}

/// Why no history was read.
#[derive(Clone, Copy, Debug, PartialEq, Eq)]
pub enum ReadFault {
    /// The text is no history.
    Bad(FileFault),
    OutOfMemory,
}

impl From<OutOfMemory> for ReadFault {
    ghost use Rattle.std.specs.Prelude.{◌≡◌};
    ghost use Rattle.dim_history_file.specs.declared.fault.ReadFault.TheVariants.{OutOfMemory};

    ghost from_gives = { λ _ e. e ≡ OutOfMemory };

    fn from(_e: OutOfMemory) -> ReadFault {
        ReadFault::OutOfMemory
    }
}

impl From<FileKind> for Stop<FileKind> {
    ghost use Rattle.std.specs.Prelude.{◌≡◌};
    ghost use Rattle.dim_text.specs.declared.stop.Stop.TheVariants as stop;

    ghost from_gives = { λ kind e. e ≡ stop.Bad kind };

    fn from(kind: FileKind) -> Stop<FileKind> {
        Stop::Bad(kind)
    }
}

/// What was read, or the error of the line with this number.
pub fn in_line<T>(line: u32, read: Result<T, Stop<FileKind>>) -> Result<T, ReadFault>
    ensures { result ≡ at_line line read }
{
    match read {
        Ok(x) => Ok(x),
        Err(Stop::OutOfMemory) => Err(ReadFault::OutOfMemory),
        Err(Stop::Bad(kind)) => Err(ReadFault::Bad(FileFault { line, kind })),
    }
}
