//! What a run leaves, and how it is stored.
ghost use Rattle.dim_inquiry.specs.Course.{WhereTold, StopCause, Runs, HasWords};
ghost use Rattle.dim_commands.specs.Output.{left_of};
ghost use Rattle.dim_commands.specs.Run.{stores_left};

use dim_base::{Bytes, Files, Word};
use dim_inquiry::calls::store_at;
use dim_inquiry::{Place, Report, Stop};
use std::alloc::Global;

/// The texts that a run leaves.
#[derive(Drop)]
pub struct RunTexts {
    pub new_history: Bytes,
    pub trace: Bytes,
}

/// What a run stores and puts.
#[derive(Drop)]
pub struct Output {
    pub texts: RunTexts,
    pub report: Report,
}

/// Stores what a run leaves, its history before its trace, and gives its report.
pub fn store_left<F: Files>(
    alloc: Global,
    files: &mut F,
    new_history: &Word,
    trace: &Word,
    output: Output,
) -> Result<Report, Stop>
    ensures runs { WhereTold (F.told files.old) (λ before.
        Runs (λ r. r) (stores_left new_history.now trace.now (left_of output)) before result (F.told files.new)) }
    ensures cause { StopCause (F.faults files.old) (F.faults files.new) result }
    ensures words { HasWords result }
{
    let grown = output.texts.new_history.as_slice();
    store_at(alloc, files, Place::NewHistory, new_history, grown)?;
    let entries = output.texts.trace.as_slice();
    store_at(alloc, files, Place::Trace, trace, entries)?;
    Ok(output.report)
}
