//! One pass over a trace.
ghost use Rattle.std.specs.Prelude.{◌≡◌, ◌<◌, ◌^◌, IfOk, length};
ghost use Rattle.dim_asm.specs.Code.{thread_count, lock_count};
ghost use Rattle.dim_rag.specs.History.{past};
ghost use Rattle.dim_run.specs.Run.{outcome_of};
ghost use Rattle.dim_picture.specs.Marks.{marks};
ghost use Rattle.dim_picture.specs.Told.{AreTold};

use crate::mark::{Mark, mark_of};
use dim_asm::Program;
use dim_base::OutOfMemory;
use dim_rag::Graph;
use dim_run::{Outcome, outcome_of};
use dim_trace::KeptTrace;
use std::alloc::Global;

/// What the entries of a trace are in a picture, one mark for each, and how its run ended.
#[derive(Drop)]
pub struct Marked {
    pub marks: Vec<Mark>,
    pub outcome: Outcome,
}

/// Goes over a trace once, with the graph of its entries. What an entry costs doesn't depend on its
/// place.
pub fn mark_all(alloc: Global, program: &Program, trace: &KeptTrace) -> Result<Marked, OutOfMemory>
    requires told { AreTold (thread_count program.now) (lock_count program.now)
        trace.now.entries }
    requires few { length trace.now.entries < 2 ^ 32 }
    ensures marks { IfOk result (λ m. m.marks.items ≡ marks (past trace.now.entries)) }
    ensures outcome { IfOk result (λ m. m.outcome ≡ outcome_of program.now trace.now.entries) }
{
    let mut graph = Graph::new(alloc, program.threads(), program.locks())?;
    let count = trace.len();
    graph.reserve(count);
    let mut marks = Vec::new(alloc);
    for place in 0..count {
        let e = trace.entry(place);
        marks.push(mark_of(&graph, &e))?;
        graph.enter(&e);
    }
    let outcome = outcome_of(&graph);
    Ok(Marked { marks, outcome })
}
