//! A history with the candidates of a trace.
ghost use Rattle.std.specs.Prelude.{◌≡◌, ◌≤◌, ◌+◌, IfOk, length};
ghost use Rattle.dim_execution.specs.Executes.{Executes};
ghost use Rattle.dim_execution.specs.Start.{gate_of};
ghost use Rattle.dim_history_file.specs.Grammar.{AreNear};
ghost use Rattle.dim_trace.specs.Grammar.{IsTrace};
ghost use Rattle.dim_predict.specs.Adopted.{adopted};
ghost use Rattle.dim_predict.specs.Candidates.{AreTooMany, candidates_of};

use crate::adopting::{MOST_SIGNATURES, adopt};
use crate::predicting::{Predict, signatures_of};
use crate::search::{Search, searched};
use dim_asm::Program;
use dim_gate::laws::legal_law;
use dim_history_file::History;
use dim_trace::KeptTrace;
use std::alloc::Global;

/// A history with the candidates that it adopted, how many candidates there were, and how many of
/// them it adopted.
#[derive(Drop)]
pub struct Prediction {
    pub history: History,
    pub candidates: usize,
    pub added: u32,
}

/// The history with the candidates of a trace that executes a program on it, with this depth, from
/// 1 to 32, for each of them: what `adopt` makes of what `candidates_kept` finds.
///
/// `check_kept` says whether the trace executes the program, and `read_kept` gives a trace whose
/// functions stand in the history's table. `TooMany` comes as it does there. Only those candidates
/// are built that a history could adopt, at most 4,080; the others are but counted.
pub fn predicted(
    alloc: Global,
    program: &Program,
    history: History,
    trace: &KeptTrace,
    depth: u8,
) -> Result<Prediction, Predict>
    requires low { 1 ≤ depth }
    requires high { depth ≤ 32 }
    requires executes { Executes
        (gate_of program.now history.catalogue.sigs trace.now.depth) program.now
        trace.now.fuel trace.now.entries }
    requires trace { IsTrace program.now history.names trace.now }
    ensures names { IfOk result (λ p. p.history.names ≡ history.names) }
    ensures adopted { IfOk result (λ p. p.history.catalogue.sigs
        ≡ adopted history.names history.catalogue.sigs
        (candidates_of history.catalogue.sigs depth trace.now.entries)) }
    ensures candidates { IfOk result (λ p. p.candidates
        ≡ length (candidates_of history.catalogue.sigs depth trace.now.entries)) }
    ensures added { IfOk result (λ p. length history.catalogue.sigs + p.added
        ≡ length p.history.catalogue.sigs) }
    ensures near { IfOk result (λ p. AreNear history.catalogue.sigs
        → AreNear p.history.catalogue.sigs) }
    ensures few { IfOk result (λ _. AreTooMany trace.now.entries → ⊥) }
    ensures many { result ≡ Err Predict.TooMany → AreTooMany trace.now.entries }
{
    legal_law();
    let _known = history.catalogue.len(); // for the contract: no two have the same stacks
    let threads = program.threads();
    let locks = program.locks();
    let search = searched(alloc, &history.catalogue, trace, threads, locks)?;
    let Search { keys, mut pairs } = search;
    let candidates = pairs.len();
    pairs.truncate(MOST_SIGNATURES as usize);
    let found = signatures_of(alloc, &keys, &pairs, depth)?;
    let (history, added) = adopt(alloc, history, &found)?;
    Ok(Prediction {
        history,
        candidates,
        added,
    })
}
