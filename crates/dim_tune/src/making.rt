//! Attempts while they are made.
ghost use Rattle.std.specs.Prelude.{◌≡◌, ◌+◌, ◌-◌, ◌≤◌, ◌↔◌, [], length, slice_get, Some, IfOk, IsTrue};
ghost use Rattle.dim_asm.specs.Bound.{IsBound};
ghost use Rattle.dim_rag.specs.History.{past};
ghost use Rattle.dim_gate.specs.Learns.{learns};
ghost use Rattle.dim_history_file.specs.Grammar.{AreNear};
ghost use Rattle.dim_schedule.specs.Settings.{AreSettings};
ghost use Rattle.dim_run.specs.Spelled.{AreSpelled};
ghost use Rattle.dim_tune.specs.Attempts.{AreLoadable, HasLearnt};
ghost use Rattle.dim_tune.specs.Made.{AreDone, IsAgain};
ghost use Rattle.dim_tune.specs.Runs.{IsKeptRun};

use crate::attempt::Attempt;
use dim_asm::Program;
use dim_base::OutOfMemory;
use dim_events::Totals;
use dim_gate::laws::{immune_law, known_law};
use dim_history_file::{History, write};
use dim_rag::Tables;
use dim_run::laws::{complete_law, grown_law, spelled_law};
use dim_run::{KeptRun, Last, Outcome, Settings, play_kept};
use std::alloc::Global;

/// At most so many signatures are loaded.
const MOST_LOADED: u32 = 4080;

/// The text of what is loaded has at most so many bytes.
const MOST_BYTES: usize = 6_291_456;

/// The attempts so far, and the history from which the next one begins: its names are those of the
/// history that was read, and its signatures go from run to run.
#[derive(Drop)]
pub struct Made {
    pub lines: Vec<Attempt>,
    pub history: History,
}

/// What a run has beside the signatures that it leaves.
#[derive(Drop)]
pub struct Rest {
    pub tables: Tables,
    pub ends: Vec<Last>,
    pub outcome: Outcome,
    pub totals: Totals,
}

/// Makes attempts, as long as there is reason for one more, but at most so many, and answers the
/// rest of the last run. Where memory runs out, the attempts before are made.
pub fn make_all(
    alloc: Global,
    made: &mut Made,
    program: &Program,
    s: &Settings,
    attempts: u32,
) -> Result<Rest, OutOfMemory>
    requires none { made.old.lines.items ≡ [] }
    requires settings { AreSettings s.now }
    requires few { length made.old.history.catalogue.sigs ≤ 4080 }
    requires bound { IsBound made.old.history.names program.now }
    requires near { AreNear made.old.history.catalogue.sigs }
    requires some { 1 ≤ attempts }
    ensures { IfOk result (AreDone made.old.history.names program.now s.now
        made.old.history.catalogue.sigs attempts made.new) }
{
    'each: while made.lines.len() + 1 < attempts as usize {
        let rest = attempt(alloc, made, program, s)?;
        if !may_follow(alloc, made)? {
            return Ok(rest);
        }
    }
    attempt(alloc, made, program, s)
}

/// Makes one attempt more. What it takes beside its run is a place in the list.
fn attempt(
    alloc: Global,
    made: &mut Made,
    program: &Program,
    s: &Settings,
) -> Result<Rest, OutOfMemory>
    requires settings { AreSettings s.now }
    requires few { length made.old.history.catalogue.sigs ≤ 4080 }
    requires bound { IsBound made.old.history.names program.now }
    requires near { AreNear made.old.history.catalogue.sigs }
    ensures { IfOk result (IsAgain program.now s.now made.old made.new) }
{
    let run = ran(alloc, program, &made.history, s)?;
    let line = line_of(&run, made.history.catalogue.len());
    made.lines.push(line)?;
    Ok(carry_on(&mut made.history, run))
}

/// Runs a program once.
fn ran(
    alloc: Global,
    program: &Program,
    history: &History,
    s: &Settings,
) -> Result<KeptRun, OutOfMemory>
    requires settings { AreSettings s.now }
    requires few { length history.now.catalogue.sigs ≤ 4080 }
    requires bound { IsBound history.now.names program.now }
    requires near { AreNear history.now.catalogue.sigs }
    ensures run { IfOk result (IsKeptRun program.now history.now.catalogue.sigs s.now) }
    ensures learnt { IfOk result (λ run. length run.catalogue.sigs
        ≡ length history.now.catalogue.sigs + length (learns (past run.tables.entries))) }
    ensures spelled { IfOk result (λ run. AreSpelled history.now.names run.catalogue.sigs) }
{
    grown_law();
    known_law();
    spelled_law();
    immune_law();
    complete_law();
    program.law();
    history.law();
    let loaded = history.catalogue.copy(alloc)?;
    let run = play_kept(alloc, program, loaded, s)?;
    Ok(run)
}

/// How a run ended that began with so many signatures, and how often it learnt.
fn line_of(run: &KeptRun, loaded: u32) -> Attempt
    requires { length run.now.catalogue.sigs
        ≡ loaded + length (learns (past run.now.tables.entries)) }
    ensures outcome { result.outcome ≡ run.now.outcome }
    ensures learnt { result.learnt ≡ length (learns (past run.now.tables.entries)) }
{
    Attempt {
        outcome: run.outcome,
        learnt: run.catalogue.len() - loaded,
    }
}

/// Moves the signatures that a run leaves into a history, and gives back the rest of the run.
fn carry_on(history: &mut History, run: KeptRun) -> Rest
    requires { AreSpelled history.old.names run.catalogue.sigs }
    ensures names { history.new.names ≡ history.old.names }
    ensures signatures { history.new.catalogue.sigs ≡ run.catalogue.sigs }
    ensures near { AreNear history.new.catalogue.sigs }
    ensures rest { result ≡ record {
      tables = run.tables;
      ends = run.ends;
      outcome = run.outcome;
      totals = run.totals;
    } }
{
    let KeptRun {
        tables,
        catalogue,
        ends,
        outcome,
        totals,
    } = run;
    history.catalogue = catalogue;
    Rest {
        tables,
        ends,
        outcome,
        totals,
    }
}

/// Whether there is reason for one more attempt after those that were made.
fn may_follow(alloc: Global, made: &Made) -> Result<bool, OutOfMemory>
    requires { 1 ≤ length made.now.lines.items }
    ensures { IfOk result (λ may. (line : Attempt)
        → slice_get made.now.lines.items (length made.now.lines.items - 1) ≡ Some line
        → IsTrue may ↔ (HasLearnt line
        × AreLoadable made.now.history.names made.now.history.catalogue.sigs)) }
{
    if !has_learnt(&made.lines[made.lines.len() - 1]) {
        return Ok(false);
    }
    is_loadable(alloc, &made.history)
}

/// Whether an attempt ended deadlocked and learnt.
fn has_learnt(line: &Attempt) -> bool
    ensures { IsTrue result ↔ HasLearnt line.now }
{
    line.outcome == Outcome::Deadlocked && 1 <= line.learnt
}

/// Whether a run can load a history.
fn is_loadable(alloc: Global, history: &History) -> Result<bool, OutOfMemory>
    ensures { IfOk result (λ is. IsTrue is
        ↔ AreLoadable history.now.names history.now.catalogue.sigs) }
{
    if MOST_LOADED < history.catalogue.len() {
        return Ok(false);
    }
    let text = write(alloc, history)?;
    Ok(text.as_slice().len() <= MOST_BYTES)
}
