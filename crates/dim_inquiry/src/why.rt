//! `why`, up to its report.
ghost use Rattle.std.specs.Prelude.{◌≡◌, IfOk};
ghost use Rattle.dim_trace.specs.Grammar.{IsTrace};
ghost use Rattle.dim_words.specs.Commands.{check_words};
ghost use Rattle.dim_inquiry.specs.Course.{WhereTold, StopCause, Runs, HasWords};
ghost use Rattle.dim_inquiry.specs.Why.{why_course, explained};
ghost use Rattle.dim_inquiry.specs.Judging.{given_of, IsExecuted};

use crate::judging::{Given, judged};
use crate::report::{Ending, Report};
use crate::stop::Stop;
use dim_base::{Files, OutOfMemory};
use dim_why::{why_kept, why_text_kept};
use dim_words::CheckCommand;
use std::alloc::Global;

// The report on why the threads of a trace yielded.
fn explained(alloc: Global, given: &Given) -> Result<Report, OutOfMemory>
    requires executed { IsExecuted (given_of given.now) }
    requires trace { IsTrace given.now.both.program given.now.both.history.names given.now.trace }
    ensures { IfOk result (λ r. r ≡ explained (given_of given.now)) }
{
    let (program, history) = (&given.both.program, &given.both.history);
    let reasons = why_kept(alloc, program, history, &given.trace)?;
    let text = why_text_kept(alloc, program, history, &given.trace, &reasons)?;
    Ok(Report {
        ending: Ending::Done,
        text,
    })
}

/// Fetches and reads a program, a history and a trace, and tells why the trace's threads yielded,
/// where its entries execute the program on the history.
pub fn why<F: Files>(
    alloc: Global,
    command: &CheckCommand<'_>,
    files: &mut F,
) -> Result<Report, Stop>
    ensures runs { WhereTold (F.told files.old) (λ before.
        Runs (λ r. r) (why_course before (check_words command.now)) before result (F.told files.new)) }
    ensures cause { StopCause (F.faults files.old) (F.faults files.new) result }
    ensures words { HasWords result }
{
    let given = judged(alloc, command, files)?;
    Ok(explained(alloc, &given)?)
}
