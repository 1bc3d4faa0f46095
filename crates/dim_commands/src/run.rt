//! `run`, up to its report.
ghost use Rattle.std.specs.Prelude.{◌≡◌, ◌≤◌, length, false, IfOk, OnOk};
ghost use Rattle.std.specs.Str.{bytes_eq};
ghost use Rattle.dim_schedule.specs.Settings.{AreSettings};
ghost use Rattle.dim_words.specs.Commands.{run_words};
ghost use Rattle.dim_inquiry.specs.Inputs.{inputs_of, IsRead};
ghost use Rattle.dim_commands.specs.Output.{entries_of, new_history, trace, run_report};
ghost use Rattle.dim_inquiry.specs.Course.{WhereTold, StopCause, Runs, HasWords};
ghost use Rattle.dim_commands.specs.Run.{run_course, Stored};
ghost use Rattle.dim_commands.specs.Lawful.{IsLawful};

use crate::playing::played;
use crate::storing::{Output, store_left};
use crate::texts::output_of;
use dim_base::{Files, OutOfMemory};
use dim_inquiry::binding::bound;
use dim_inquiry::fetching::fetch_inputs;
use dim_inquiry::inputs::Inputs;
use dim_inquiry::{Report, Stop};
use dim_run::Settings;
use dim_words::RunCommand;
use std::alloc::Global;

// Plays a program with the history that it loads, and builds all that is written.
fn build(alloc: Global, inputs: Inputs, s: &Settings) -> Result<Output, OutOfMemory>
    requires settings { AreSettings s.now }
    requires few { length inputs.history.catalogue.sigs ≤ 4080 }
    requires read { IsRead inputs.history }
    ensures history { IfOk result
        (λ output. output.texts.new_history ≡ new_history (inputs_of inputs) s.now) }
    ensures trace { IfOk result (λ output. output.texts.trace ≡ trace (inputs_of inputs) s.now) }
    ensures report { IfOk result (λ output. output.report ≡ run_report (inputs_of inputs) s.now) }
    ensures lawful { OnOk result
        (IsLawful (inputs_of inputs) s.now (entries_of (inputs_of inputs) s.now)) }
{
    let both = bound(alloc, inputs)?;
    let made = played(alloc, both, s)?;
    let output = output_of(alloc, made, s)?;
    Ok(output)
}

/// Fetches and reads the program and the history, plays, builds all that is written, and then
/// stores it.
pub fn run<F: Files>(alloc: Global, command: &RunCommand<'_>, files: &mut F) -> Result<Report, Stop>
    requires settings { AreSettings command.now.settings }
    requires apart { bytes_eq command.now.trace.now command.now.new_history.now ≡ false }
    ensures runs { WhereTold (F.told files.old) (λ before.
        Runs (λ r. r) (run_course before (run_words command.now)) before result (F.told files.new)) }
    ensures stored { OnOk result
        (WhereTold (F.told files.old)
        (λ before. Stored (run_words command.now) before (F.told files.new))) }
    ensures cause { StopCause (F.faults files.old) (F.faults files.new) result }
    ensures words { HasWords result }
{
    let inputs = fetch_inputs(alloc, files, command.program, command.history)?;
    let output = build(alloc, inputs, &command.settings)?;
    store_left(alloc, files, command.new_history, command.trace, output)
}
