//! The report of a run.
ghost use Rattle.std.specs.Prelude.{◌≡◌, ◌++◌, length, map, IfOk, OnOk};
ghost use Rattle.std.specs.String.{string_bytes};
ghost use Rattle.dim_events.specs.Kinds.{totals_of};
ghost use Rattle.dim_gate.specs.Kinds.{kind_of};
ghost use Rattle.dim_commands.specs.Report.{ending_of, outcome_word, head_lines, known_line, ran_text, ran};

use crate::ends::put_threads;
use crate::totals::put_counts;
use dim_asm::Program;
use dim_base::{Bytes, OutOfMemory};
use dim_inquiry::{Ending, Report};
use dim_run::{KeptRun, Outcome};
use std::alloc::{AllocError, Global};
use std::fmt::Write;

fn ending_of(outcome: Outcome) -> Ending
    ensures { result ≡ ending_of outcome }
{
    match outcome {
        Outcome::Finished => Ending::Done,
        Outcome::Deadlocked => Ending::Deadlocked,
        Outcome::Stalled => Ending::Stalled,
    }
}

/// The word for an outcome.
pub fn word_of(outcome: Outcome) -> &'static str
    ensures { result.now ≡ outcome_word outcome }
{
    match outcome {
        Outcome::Finished => "finished",
        Outcome::Deadlocked => "deadlocked",
        Outcome::Stalled => "stalled",
    }
}

#[tactic(auto, unfolding(crate::specs::Report::head_lines))]
fn head_lines(alloc: Global, outcome: Outcome, entries: u32) -> Result<String, AllocError>
    ensures { IfOk result (λ text. string_bytes text ≡ head_lines outcome entries) }
{
    let word = word_of(outcome);
    format!(in alloc; "outcome {word}\nentries {entries}\n")
}

#[tactic(auto, unfolding(crate::specs::Report::known_line))]
fn put_known(text: &mut String, known: u32) -> Result<(), AllocError>
    ensures { OnOk result (string_bytes text.new ≡ string_bytes text.old ++ known_line known) }
{
    writeln!(text, "signatures {known}")
}

fn ran_text(alloc: Global, program: &Program, run: &KeptRun) -> Result<String, AllocError>
    requires { run.now.totals ≡ totals_of (map kind_of run.now.tables.entries) }
    ensures { IfOk result
        (λ text. string_bytes text ≡ ran_text program.now run.now.outcome run.now.tables.entries
        (length run.now.catalogue.sigs) run.now.ends.items) }
{
    let mut text = head_lines(alloc, run.outcome, run.tables.len())?;
    put_counts(&mut text, &run.totals)?;
    put_known(&mut text, run.catalogue.len())?;
    put_threads(&mut text, program, &run.ends)?;
    Ok(text)
}

/// The report of a run, whose totals are those of its entries.
pub fn ran(alloc: Global, program: &Program, run: &KeptRun) -> Result<Report, OutOfMemory>
    requires { run.now.totals ≡ totals_of (map kind_of run.now.tables.entries) }
    ensures { IfOk result
        (λ r. r ≡ ran program.now run.now.outcome run.now.tables.entries
        (length run.now.catalogue.sigs) run.now.ends.items) }
{
    let text = ran_text(alloc, program, run)?;
    Ok(Report {
        ending: ending_of(run.outcome),
        text: Bytes::from_vec(text.into_bytes()),
    })
}
