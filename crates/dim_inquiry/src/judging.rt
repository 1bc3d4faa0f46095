//! A trace that is judged: what `check`, `why`, `depths` and `predict` do before they report.
ghost use Rattle.std.specs.Prelude.{◌≡◌, ◌≤◌, length, Some, IfOk, OnOk};
ghost use Rattle.dim_base.specs.Files.{Named};
ghost use Rattle.dim_history_file.specs.Grammar.{AreNear};
ghost use Rattle.dim_trace.specs.Grammar.{IsTrace};
ghost use Rattle.dim_words.specs.Commands.{check_words};
ghost use Rattle.dim_inquiry.specs.Course.{WhereTold, StopCause, Runs, IsFaultless, HasWords};
ghost use Rattle.dim_inquiry.specs.Judging.{fetches_texts, spells, takes_given, judges, judged_course, given_of, IsExecuted};

use crate::binding::bound;
use crate::calls::fetch_at;
use crate::inputs::{Inputs, PROGRAM_LIMIT, fetch_history, take_inputs};
use crate::stop::{Place, Refusal, Stop};
use dim_base::{Bytes, Files};
use dim_trace::{KeptTrace, TraceError, Verdict, check_kept, read_kept};
use dim_words::CheckCommand;
use std::alloc::Global;

const TRACE_LIMIT: u64 = 536_870_912;

/// The texts that are read.
#[derive(Drop)]
pub struct Texts {
    pub program: Bytes,
    pub history: Bytes,
    pub trace: Bytes,
}

/// What is judged: a program and a history in one table of names, and a trace.
#[derive(Drop)]
pub struct Given {
    pub both: Inputs,
    pub trace: KeptTrace,
}

// Fetches the texts.
fn fetch_texts<F: Files>(
    alloc: Global,
    command: &CheckCommand<'_>,
    files: &mut F,
) -> Result<Texts, Stop>
    ensures runs { WhereTold (F.told files.old) (λ before.
        Runs (λ texts. texts) (fetches_texts before (check_words command.now)) before result (F.told files.new)) }
    ensures kept { F.told files.new ≡ F.told files.old }
    ensures cause { StopCause (F.faults files.old) (F.faults files.new) result }
    ensures words { HasWords result }
{
    let program = fetch_at(alloc, files, Place::Program, command.program, PROGRAM_LIMIT)?;
    let history = fetch_history(alloc, files, command.history)?;
    let trace = fetch_at(alloc, files, Place::Trace, command.trace, TRACE_LIMIT)?;
    Ok(Texts {
        program,
        history,
        trace,
    })
}

// The trace of a text.
fn take_trace(alloc: Global, both: &Inputs, text: &Bytes) -> Result<KeptTrace, Stop>
    ensures runs { (before : Named)
        → Runs (λ t. t) (spells both.now.program both.now.history.names text.now) before result
        (Some before) }
    ensures trace { IfOk result (λ t. IsTrace both.now.program both.now.history.names t) }
    ensures faultless { IsFaultless result }
    ensures words { HasWords result }
{
    match read_kept(alloc, &both.program, &both.history.names, text.as_slice()) {
        Ok(trace) => Ok(trace),
        Err(TraceError::OutOfMemory) => Err(Stop::OutOfMemory),
        Err(TraceError::Bad(fault)) => Err(Stop::Refused(Refusal::BadTrace(fault))),
    }
}

// Reads the texts.
fn take_given(alloc: Global, texts: &Texts) -> Result<Given, Stop>
    ensures runs { (before : Named)
        → Runs given_of (takes_given texts.now) before result (Some before) }
    ensures few { IfOk result (λ g. length g.both.history.catalogue.sigs ≤ 4080) }
    ensures near { IfOk result (λ g. AreNear g.both.history.catalogue.sigs) }
    ensures trace { IfOk result (λ g. IsTrace g.both.program g.both.history.names g.trace) }
    ensures faultless { IsFaultless result }
    ensures words { HasWords result }
{
    let inputs = take_inputs(alloc, &texts.program, &texts.history)?;
    let both = bound(alloc, inputs)?;
    let trace = take_trace(alloc, &both, &texts.trace)?;
    Ok(Given { both, trace })
}

// Goes on where the trace executes the program on the history.
fn judge(alloc: Global, given: &Given) -> Result<(), Stop>
    requires few { length given.now.both.history.catalogue.sigs ≤ 4080 }
    requires trace { IsTrace given.now.both.program given.now.both.history.names given.now.trace }
    ensures runs { (before : Named)
        → Runs (λ u. u) (judges (given_of given.now)) before result (Some before) }
    ensures executed { OnOk result (IsExecuted (given_of given.now)) }
    ensures faultless { IsFaultless result }
    ensures words { HasWords result }
{
    let both = &given.both;
    match check_kept(alloc, &both.program, &both.history, &given.trace)? {
        Verdict::Yes => Ok(()),
        Verdict::No { place, rule } => Err(Stop::Refused(Refusal::No { place, rule })),
    }
}

/// Fetches and reads a program, a history and a trace, and gives them where the trace's entries
/// execute the program on the history. A refusal is that of `check`.
pub fn judged<F: Files>(
    alloc: Global,
    command: &CheckCommand<'_>,
    files: &mut F,
) -> Result<Given, Stop>
    ensures runs { WhereTold (F.told files.old) (λ before.
        Runs given_of (judged_course before (check_words command.now)) before result (F.told files.new)) }
    ensures executed { IfOk result (λ g. IsExecuted (given_of g)) }
    ensures few { IfOk result (λ g. length g.both.history.catalogue.sigs ≤ 4080) }
    ensures near { IfOk result (λ g. AreNear g.both.history.catalogue.sigs) }
    ensures trace { IfOk result (λ g. IsTrace g.both.program g.both.history.names g.trace) }
    ensures cause { StopCause (F.faults files.old) (F.faults files.new) result }
    ensures words { HasWords result }
{
    let texts = fetch_texts(alloc, command, files)?;
    let given = take_given(alloc, &texts)?;
    judge(alloc, &given)?;
    Ok(given)
}
