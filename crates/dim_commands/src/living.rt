//! `live`, up to its report.
ghost use Rattle.std.specs.Prelude.{◌≡◌, ◌≤◌, length, false, IfOk};
ghost use Rattle.std.specs.Str.{bytes_eq};
ghost use Rattle.dim_schedule.specs.Settings.{AreSettings};
ghost use Rattle.dim_words.specs.Commands.{run_words};
ghost use Rattle.dim_inquiry.specs.Inputs.{inputs_of, IsRead};
ghost use Rattle.dim_inquiry.specs.Course.{StopCause, HasWords};
ghost use Rattle.dim_commands.specs.Live.{IsLived, Lives};

use crate::playing::lived;
use crate::storing::{Output, store_left};
use crate::texts::output_of;
use dim_base::{Files, OutOfMemory};
use dim_inquiry::binding::bound;
use dim_inquiry::fetching::fetch_inputs;
use dim_inquiry::inputs::Inputs;
use dim_inquiry::{Report, Stop};
use dim_run::{House, Settings};
use dim_words::RunCommand;
use std::alloc::Global;
use std::sync::Wait;
use std::thread::Threads;

// Runs a program with the history that it loads, its slices beside each other, and builds all that
// is written.
fn build_live<H: House, R: Threads + Wait + Sync>(
    rt: &R,
    alloc: Global,
    house: &mut H,
    inputs: Inputs,
    s: &Settings,
) -> Result<Output, OutOfMemory>
    requires settings { AreSettings s.now }
    requires few { length inputs.history.catalogue.sigs ≤ 4080 }
    requires read { IsRead inputs.history }
    ensures lived { IfOk result
        (λ output. IsLived (inputs_of inputs) s.now output.texts.new_history output.texts.trace
        output.report (H.count house.old) (H.count house.new)) }
{
    let both = bound(alloc, inputs)?;
    let made = lived(rt, alloc, house, both, s)?;
    let output = output_of(alloc, made, s)?;
    Ok(output)
}

/// What `run` does, but with the slices of a round beside each other. It may wait.
pub fn run_live<H: House, R: Threads + Wait + Sync, F: Files>(
    rt: &R,
    alloc: Global,
    house: &mut H,
    command: &RunCommand<'_>,
    files: &mut F,
) -> Result<Report, Stop>
    requires settings { AreSettings command.now.settings }
    requires apart { bytes_eq command.now.trace.now command.now.new_history.now ≡ false }
    ensures lives { Lives (run_words command.now) result (F.told files.old) (F.told files.new)
        (H.count house.old) (H.count house.new) }
    ensures cause { StopCause (F.faults files.old) (F.faults files.new) result }
    ensures words { HasWords result }
{
    let inputs = fetch_inputs(alloc, files, command.program, command.history)?;
    let output = build_live(rt, alloc, house, inputs, &command.settings)?;
    store_left(alloc, files, command.new_history, command.trace, output)
}
