//! Why a text is no log.
ghost use Rattle.std.specs.Prelude.{◌≡◌};
ghost use Rattle.dim_log.specs.Faults.{kind_number, at_line};

use crate::{LogFault, LogFaultKind};
use dim_base::OutOfMemory;
use dim_text::Stop;

impl LogFaultKind {
    /// The number of the kind, from 1 in the order of the variants.
    pub fn number(self) -> u32
        ensures { result ≡ kind_number self }
    {
        match self {
            LogFaultKind::Short => 1,
            LogFaultKind::Operation => 2,
            LogFaultKind::Took => 3,
            LogFaultKind::Frame => 4,
            LogFaultKind::Long => 5,
        }
    }
}

/// Why no log was read.
#[derive(Clone, Copy, Debug, PartialEq, Eq)]
pub enum LogError {
    /// The text is no log.
    Bad(LogFault),
    OutOfMemory,
}

impl From<OutOfMemory> for LogError {
    ghost use Rattle.std.specs.Prelude.{◌≡◌};
    ghost use Rattle.dim_log.specs.declared.fault.LogError.TheVariants.{OutOfMemory};

    ghost from_gives = { λ _ e. e ≡ OutOfMemory };

    fn from(_e: OutOfMemory) -> LogError {
        LogError::OutOfMemory
    }
}

impl From<LogFaultKind> for Stop<LogFaultKind> {
    ghost use Rattle.std.specs.Prelude.{◌≡◌};
    ghost use Rattle.dim_text.specs.declared.stop.Stop.TheVariants as stop;

    ghost from_gives = { λ kind e. e ≡ stop.Bad kind };

    fn from(kind: LogFaultKind) -> Stop<LogFaultKind> {
        Stop::Bad(kind)
    }
}

/// What was read, or the error of the line with this number.
pub fn in_line<T>(line: u32, read: Result<T, Stop<LogFaultKind>>) -> Result<T, LogError>
    ensures { result ≡ at_line line read }
{
    match read {
        Ok(x) => Ok(x),
        Err(Stop::OutOfMemory) => Err(LogError::OutOfMemory),
        Err(Stop::Bad(kind)) => Err(LogError::Bad(LogFault { line, kind })),
    }
}
