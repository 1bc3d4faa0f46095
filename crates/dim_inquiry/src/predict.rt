//! `predict`, up to its report.
ghost use Rattle.std.specs.Prelude.{◌≤◌, Some, IfOk, OnOk};
ghost use Rattle.dim_base.specs.Files.{Named};
ghost use Rattle.dim_history_file.specs.Grammar.{AreNear};
ghost use Rattle.dim_trace.specs.Grammar.{IsTrace};
ghost use Rattle.dim_words.specs.Commands.{predict_words};
ghost use Rattle.dim_inquiry.specs.Course.{WhereTold, StopCause, Runs, IsFaultless, HasWords};
ghost use Rattle.dim_inquiry.specs.Judging.{given_of, IsExecuted};
ghost use Rattle.dim_inquiry.specs.Predict.{foretells, foretold_of, predict_course, ReadsAgain};

use crate::calls::store_at;
use crate::inputs::Inputs;
use crate::judging::{Given, judged};
use crate::predicting::foretold_report;
use crate::report::Report;
use crate::stop::{Place, Refusal, Stop};
use dim_base::Files;
use dim_history_file::write;
use dim_predict::{Predict, Prediction, predicted};
use dim_words::PredictCommand;
use std::alloc::Global;

// The history with the candidates of a trace that executes its program.
fn foretell(alloc: Global, given: Given, depth: u8) -> Result<Prediction, Stop>
    requires low { 1 ≤ depth }
    requires high { depth ≤ 32 }
    requires executed { IsExecuted (given_of given) }
    requires trace { IsTrace given.both.program given.both.history.names given.trace }
    requires near { AreNear given.both.history.catalogue.sigs }
    ensures runs { (before : Named)
        → Runs foretold_of (foretells depth (given_of given)) before result (Some before) }
    ensures near { IfOk result (λ p. AreNear p.history.catalogue.sigs) }
    ensures faultless { IsFaultless result }
    ensures words { HasWords result }
{
    let Given { both, trace } = given;
    let Inputs { program, history } = both;
    match predicted(alloc, &program, history, &trace, depth) {
        Ok(prediction) => Ok(prediction),
        Err(Predict::TooMany) => Err(Stop::Refused(Refusal::ManyNestings)),
        Err(Predict::OutOfMemory) => Err(Stop::OutOfMemory),
    }
}

/// Fetches and reads a program, a history and a trace, and where the trace's entries execute the
/// program on the history, builds the report and the text of the history with the candidates, and
/// then stores the text.
pub fn predict<F: Files>(
    alloc: Global,
    command: &PredictCommand<'_>,
    files: &mut F,
) -> Result<Report, Stop>
    requires low { 1 ≤ command.now.depth }
    requires high { command.now.depth ≤ 32 }
    ensures runs { WhereTold (F.told files.old) (λ before.
        Runs (λ r. r) (predict_course before (predict_words command.now)) before result (F.told files.new)) }
    ensures again { OnOk result (WhereTold (F.told files.old) (ReadsAgain (predict_words command.now))) }
    ensures cause { StopCause (F.faults files.old) (F.faults files.new) result }
    ensures words { HasWords result }
{
    let given = judged(alloc, &command.judged, files)?;
    let prediction = foretell(alloc, given, command.depth)?;
    let report = foretold_report(alloc, prediction.candidates, prediction.added)?;
    let text = write(alloc, &prediction.history)?;
    let new_history = text.as_slice();
    store_at(
        alloc,
        files,
        Place::NewHistory,
        command.new_history,
        new_history,
    )?;
    Ok(report)
}
