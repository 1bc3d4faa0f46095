//! `check`, up to its report.
ghost use Rattle.std.specs.Prelude.{◌≡◌, IfOk};
ghost use Rattle.dim_words.specs.Commands.{check_words};
ghost use Rattle.dim_inquiry.specs.Course.{WhereTold, StopCause, Runs, HasWords};
ghost use Rattle.dim_inquiry.specs.Check.{check_course, checked};

use crate::judging::judged;
use crate::report::{Ending, Report};
use crate::stop::Stop;
use dim_base::{Bytes, Files, OutOfMemory};
use dim_words::CheckCommand;
use std::alloc::Global;

// The report on so many entries, which execute the program.
fn checked(alloc: Global, entries: u32) -> Result<Report, OutOfMemory>
    ensures { IfOk result (λ r. r ≡ checked entries) }
{
    let text = format!(in alloc; "yes {entries}\n")?;
    Ok(Report {
        ending: Ending::Done,
        text: Bytes::from_vec(text.into_bytes()),
    })
}

/// Fetches and reads a program, a history and a trace, and says whether the trace's entries execute
/// the program on the history.
pub fn check<F: Files>(
    alloc: Global,
    command: &CheckCommand<'_>,
    files: &mut F,
) -> Result<Report, Stop>
    ensures runs { WhereTold (F.told files.old) (λ before.
        Runs (λ r. r) (check_course before (check_words command.now)) before result (F.told files.new)) }
    ensures cause { StopCause (F.faults files.old) (F.faults files.new) result }
    ensures words { HasWords result }
{
    let given = judged(alloc, command, files)?;
    Ok(checked(alloc, given.trace.len())?)
}
