//! `depths`, up to its report.
ghost use Rattle.std.specs.Prelude.{◌≡◌, IfOk, OnOk};
ghost use Rattle.dim_execution.specs.Start.{gate_of};
ghost use Rattle.dim_rag.specs.History.{past};
ghost use Rattle.dim_trace.specs.Grammar.{IsTrace};
ghost use Rattle.dim_tune.specs.Depths.{AreLeastDepths};
ghost use Rattle.dim_words.specs.Commands.{check_words};
ghost use Rattle.dim_inquiry.specs.Course.{WhereTold, StopCause, Runs, HasWords};
ghost use Rattle.dim_commands.specs.Depths.{AreLeast, depths_course, least_of, told};
ghost use Rattle.dim_inquiry.specs.Judging.{given_of, IsExecuted};

use crate::telling::depths_told;
use dim_base::{Files, OutOfMemory};
use dim_inquiry::judging::{Given, judged};
use dim_inquiry::{Report, Stop};
use dim_tune::depths_kept;
use dim_words::CheckCommand;
use std::alloc::Global;

// The report on the least depths of the signatures with which a trace was made.
fn told(alloc: Global, given: &Given) -> Result<Report, OutOfMemory>
    requires executed { IsExecuted (given_of given.now) }
    requires trace { IsTrace given.now.both.program given.now.both.history.names given.now.trace }
    ensures report { IfOk result (λ r. r ≡ told (given_of given.now)) }
    ensures least { OnOk result (AreLeastDepths
        (gate_of given.now.both.program given.now.both.history.catalogue.sigs given.now.trace.depth)
        (past given.now.trace.entries) (least_of (given_of given.now))) }
{
    let (program, history) = (&given.both.program, &given.both.history);
    let least = depths_kept(alloc, program, history, &given.trace)?;
    depths_told(alloc, &history.catalogue, &least)
}

/// Fetches and reads a program, a history and a trace, and tells the least depth of each signature
/// of the history, where the trace's entries execute the program on it.
pub fn depths<F: Files>(
    alloc: Global,
    command: &CheckCommand<'_>,
    files: &mut F,
) -> Result<Report, Stop>
    ensures runs { WhereTold (F.told files.old) (λ before.
        Runs (λ r. r) (depths_course before (check_words command.now)) before result (F.told files.new)) }
    ensures least { OnOk result (WhereTold (F.told files.old) (AreLeast (check_words command.now))) }
    ensures cause { StopCause (F.faults files.old) (F.faults files.new) result }
    ensures words { HasWords result }
{
    let given = judged(alloc, command, files)?;
    Ok(told(alloc, &given)?)
}
