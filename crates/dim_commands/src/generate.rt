//! `generate`, up to its report.
ghost use Rattle.std.specs.Prelude.{◌≡◌, ◌≤◌, length, IfOk};
ghost use Rattle.dim_schedule.specs.Settings.{AreSettings};
ghost use Rattle.dim_inquiry.specs.Course.{WhereTold, StopCause, Runs, HasWords};
ghost use Rattle.dim_commands.specs.Generate.{generate_course, generated_inputs, generated_report};
ghost use Rattle.dim_generate.specs.Generated.{generated_text};
ghost use Rattle.dim_inquiry.specs.Inputs.{inputs_of, IsRead};
ghost use Rattle.dim_commands.specs.Output.{run_report};
ghost use Rattle.dim_words.specs.Words.{default_settings};

use crate::playing::played;
use crate::ran::ran;
use dim_asm::{AsmError, Program, assemble};
use dim_base::{Bytes, Files, OutOfMemory, Word};
use dim_generate::generated;
use dim_history_file::History;
use dim_inquiry::binding::bound;
use dim_inquiry::calls::store_at;
use dim_inquiry::inputs::Inputs;
use dim_inquiry::{Ending, Place, Report, Stop};
use dim_run::Settings;
use dim_words::default_settings;
use std::alloc::Global;

// The program of a generated text.
fn assembled(alloc: Global, n: u32, text: &Bytes) -> Result<Program, OutOfMemory>
    requires { text.now ≡ generated_text n }
    ensures { IfOk result (λ p. p ≡ (generated_inputs n).program) }
{
    match assemble(alloc, text.as_slice()) {
        Ok(program) => Ok(program),
        Err(AsmError::OutOfMemory) => Err(OutOfMemory),
        Err(AsmError::Bad(_)) => unreachable!(),
    }
}

// What the run of a generated program reads: the program, and no signature.
fn inputs_of(alloc: Global, n: u32, text: &Bytes) -> Result<Inputs, OutOfMemory>
    requires { text.now ≡ generated_text n }
    ensures inputs { IfOk result (λ x. inputs_of x ≡ generated_inputs n) }
    ensures few { IfOk result (λ x. length x.history.catalogue.sigs ≤ 4080) }
    ensures read { IfOk result (λ x. IsRead x.history) }
{
    let program = assembled(alloc, n, text)?;
    let history = History::empty(alloc)?;
    Ok(Inputs { program, history })
}

// The report of a run.
fn report_of(alloc: Global, inputs: Inputs, s: &Settings) -> Result<Report, OutOfMemory>
    requires settings { AreSettings s.now }
    requires few { length inputs.history.catalogue.sigs ≤ 4080 }
    requires read { IsRead inputs.history }
    ensures { IfOk result (λ report. report ≡ run_report (inputs_of inputs) s.now) }
{
    let both = bound(alloc, inputs)?;
    let made = played(alloc, both, s)?;
    ran(alloc, &made.program, &made.run)
}

// The report on a generated program. However its run ended, the command is done.
fn generated_report(alloc: Global, n: u32, text: &Bytes) -> Result<Report, OutOfMemory>
    requires { text.now ≡ generated_text n }
    ensures { IfOk result (λ report. report ≡ generated_report n) }
{
    let inputs = inputs_of(alloc, n, text)?;
    let report = report_of(alloc, inputs, &default_settings())?;
    Ok(Report {
        ending: Ending::Done,
        text: report.text,
    })
}

/// Generates the program of a number, plays it, builds the report, and then stores the program.
pub fn generate<F: Files>(
    alloc: Global,
    n: u32,
    program: &Word,
    files: &mut F,
) -> Result<Report, Stop>
    ensures runs { WhereTold (F.told files.old) (λ before.
        Runs (λ r. r) (generate_course n program.now) before result (F.told files.new)) }
    ensures cause { StopCause (F.faults files.old) (F.faults files.new) result }
    ensures words { HasWords result }
{
    let text = generated(alloc, n)?;
    let report = generated_report(alloc, n, &text)?;
    store_at(alloc, files, Place::Program, program, text.as_slice())?;
    Ok(report)
}
