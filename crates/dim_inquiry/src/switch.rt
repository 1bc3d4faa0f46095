//! `switch`, up to its report.
ghost use Rattle.std.specs.Prelude.{◌<◌, length, Some, OnOk};
ghost use Rattle.dim_base.specs.Files.{Named};
ghost use Rattle.dim_history_file.specs.Seen.{value_of};
ghost use Rattle.dim_words.specs.Commands.{switch_words};
ghost use Rattle.dim_inquiry.specs.Course.{WhereTold, StopCause, Runs, IsFaultless, HasWords};
ghost use Rattle.dim_inquiry.specs.Switch.{numbers, switches, switch_course};

use crate::calls::store_at;
use crate::inputs::{fetch_history, read_history};
use crate::report::Report;
use crate::stop::{Place, Refusal, Stop};
use crate::switching::{switched, switched_history};
use dim_base::{Bytes, Files};
use dim_history_file::{History, write};
use dim_words::SwitchCommand;
use std::alloc::Global;

// Refuses a number that no signature of the history has.
fn check_number(history: &History, index: u32) -> Result<(), Stop>
    ensures runs { (before : Named)
        → Runs (λ u. u) (numbers (value_of history.now) index) before result (Some before) }
    ensures faultless { IsFaultless result }
    ensures words { HasWords result }
    ensures there { OnOk result (index < length history.now.catalogue.sigs) }
{
    if index < history.catalogue.len() {
        Ok(())
    } else {
        Err(Stop::Refused(Refusal::NoSignature { index }))
    }
}

// The history of a text, with one signature in another state.
fn read_switched(alloc: Global, bytes: &Bytes, command: &SwitchCommand<'_>) -> Result<History, Stop>
    ensures runs { (before : Named)
        → Runs value_of (switches (switch_words command.now) bytes.now) before result
        (Some before) }
    ensures faultless { IsFaultless result }
    ensures words { HasWords result }
{
    let history = read_history(alloc, bytes)?;
    check_number(&history, command.index)?;
    Ok(switched_history(history, command.index, command.on))
}

/// Fetches and reads a history, puts one signature into another state, builds the text and the
/// report, and then stores the text.
pub fn switch<F: Files>(
    alloc: Global,
    command: &SwitchCommand<'_>,
    files: &mut F,
) -> Result<Report, Stop>
    ensures runs { WhereTold (F.told files.old) (λ before.
        Runs (λ r. r) (switch_course before (switch_words command.now)) before result (F.told files.new)) }
    ensures cause { StopCause (F.faults files.old) (F.faults files.new) result }
    ensures words { HasWords result }
{
    let bytes = fetch_history(alloc, files, command.history)?;
    let history = read_switched(alloc, &bytes, command)?;
    let report = switched(alloc, command.index, command.on)?;
    let text = write(alloc, &history)?;
    let new_history = text.as_slice();
    store_at(
        alloc,
        files,
        Place::NewHistory,
        command.new_history,
        new_history,
    )?;
    Ok(report)
}
