//! `immunize`, up to its report.
ghost use Rattle.std.specs.Prelude.{◌≡◌, ◌≤◌, length, false, IfOk, OnOk};
ghost use Rattle.std.specs.Str.{bytes_eq};
ghost use Rattle.dim_schedule.specs.Settings.{AreSettings};
ghost use Rattle.dim_words.specs.Commands.{immunize_words};
ghost use Rattle.dim_inquiry.specs.Course.{WhereTold, StopCause, Runs, HasWords};
ghost use Rattle.dim_commands.specs.Immunize.{last_of, attempts_left, immunize_course, AreLawful, Immunized};
ghost use Rattle.dim_inquiry.specs.Inputs.{inputs_of, IsRead};
ghost use Rattle.dim_commands.specs.Output.{left_of};

use crate::attempts::attempted;
use crate::storing::{Output, store_left};
use crate::texts::texts_of;
use dim_base::{Files, OutOfMemory};
use dim_inquiry::binding::bound;
use dim_inquiry::fetching::fetch_inputs;
use dim_inquiry::inputs::Inputs;
use dim_inquiry::{Report, Stop};
use dim_run::Settings;
use dim_tune::immunize_kept;
use dim_tune::laws::grows_law;
use dim_words::ImmunizeCommand;
use std::alloc::Global;

// Makes at most so many attempts from the history that is loaded, and builds all that is written.
fn build(alloc: Global, inputs: Inputs, s: &Settings, attempts: u32) -> Result<Output, OutOfMemory>
    requires settings { AreSettings s.now }
    requires few { length inputs.history.catalogue.sigs ≤ 4080 }
    requires read { IsRead inputs.history }
    requires some { 1 ≤ attempts }
    requires most { attempts ≤ 64 }
    ensures left { IfOk result
        (λ output. left_of output ≡ attempts_left s.now attempts (inputs_of inputs)) }
    ensures lawful { OnOk result (AreLawful (inputs_of inputs) s.now attempts
        (last_of (inputs_of inputs) s.now attempts)) }
{
    grows_law();
    let both = bound(alloc, inputs)?;
    let Inputs { program, history } = both;
    history.law();
    let made = immunize_kept(alloc, &program, history, s, attempts)?;
    let report = attempted(alloc, &program, &made)?;
    let texts = texts_of(alloc, &program, &made.history, &made.run.tables, s)?;
    Ok(Output { texts, report })
}

/// Fetches and reads the program and the history, makes the attempts, builds all that is written,
/// and then stores it: the history that all attempts leave, and the trace of the last one.
pub fn immunize<F: Files>(
    alloc: Global,
    command: &ImmunizeCommand<'_>,
    files: &mut F,
) -> Result<Report, Stop>
    requires settings { AreSettings command.now.run.settings }
    requires apart { bytes_eq command.now.run.trace.now command.now.run.new_history.now ≡ false }
    requires some { 1 ≤ command.now.attempts }
    requires most { command.now.attempts ≤ 64 }
    ensures runs { WhereTold (F.told files.old) (λ before.
        Runs (λ r. r) (immunize_course before (immunize_words command.now)) before result (F.told files.new)) }
    ensures stored { OnOk result
        (WhereTold (F.told files.old)
        (λ before. Immunized (immunize_words command.now) before (F.told files.new))) }
    ensures cause { StopCause (F.faults files.old) (F.faults files.new) result }
    ensures words { HasWords result }
{
    let run = &command.run;
    let inputs = fetch_inputs(alloc, files, run.program, run.history)?;
    let output = build(alloc, inputs, &run.settings, command.attempts)?;
    store_left(alloc, files, run.new_history, run.trace, output)
}
