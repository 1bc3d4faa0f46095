//! What attempts leave in a report: their lines, and the report of the last one.
ghost use Rattle.std.specs.Prelude.{◌≡◌, ◌++◌, length, map, IfOk, OnOk};
ghost use Rattle.std.specs.String.{string_bytes};
ghost use Rattle.dim_events.specs.Kinds.{totals_of};
ghost use Rattle.dim_gate.specs.Kinds.{kind_of};
ghost use Rattle.dim_commands.specs.Immunize.{attempt_line, attempt_lines, behind_attempts};
ghost use Rattle.dim_commands.specs.Report.{ran};

use crate::ran::{ran, word_of};
use dim_asm::Program;
use dim_base::{Bytes, OutOfMemory};
use dim_inquiry::Report;
use dim_tune::{Attempt, KeptImmunized};
use std::alloc::{AllocError, Global};
use std::fmt::Write;

// Appends the line of the attempt with this number.
#[tactic(auto, unfolding(crate::specs::Immunize::attempt_line))]
fn put_attempt(text: &mut String, number: usize, attempt: Attempt) -> Result<(), AllocError>
    ensures { OnOk result
        (string_bytes text.new ≡ string_bytes text.old ++ attempt_line number attempt) }
{
    let word = word_of(attempt.outcome);
    let learnt = attempt.learnt;
    writeln!(text, "attempt {number} {word} learnt {learnt}")
}

fn attempt_lines(alloc: Global, attempts: &[Attempt]) -> Result<String, AllocError>
    ensures { IfOk result (λ text. string_bytes text ≡ attempt_lines attempts.now) }
{
    let mut text = String::new(alloc);
    for i in 0..attempts.len() {
        put_attempt(&mut text, i + 1, attempts[i])?;
    }
    Ok(text)
}

/// The report of the last attempt, behind a line for each of them.
pub fn attempted(
    alloc: Global,
    program: &Program,
    made: &KeptImmunized,
) -> Result<Report, OutOfMemory>
    requires { made.now.run.totals ≡ totals_of (map kind_of made.now.run.tables.entries) }
    ensures { IfOk result (λ r. r ≡ behind_attempts made.now.lines.items
        (ran program.now made.now.run.outcome made.now.run.tables.entries
        (length made.now.run.catalogue.sigs) made.now.run.ends.items)) }
{
    let lines = attempt_lines(alloc, &made.lines)?;
    let last = ran(alloc, program, &made.run)?;
    let mut text = lines.into_bytes();
    text.extend_from_slice(last.text.as_slice())?;
    Ok(Report {
        ending: last.ending,
        text: Bytes::from_vec(text),
    })
}
