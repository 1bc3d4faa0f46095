//! The search for candidates in a trace.
ghost use Rattle.std.specs.Prelude.{◌≡◌, ◌≤◌, All, IfOk, length, map};
ghost use Rattle.dim_rag.specs.Fits.{AreInRange, Fits};
ghost use Rattle.dim_rag.specs.History.{past};
ghost use Rattle.dim_predict.specs.declared.key.Key.{Key};
ghost use Rattle.dim_predict.specs.Pairs.{AreWithin, stacks_of_places};
ghost use Rattle.dim_predict.specs.Candidates.{AreTooMany, candidate_stacks};
ghost use Rattle.dim_predict.specs.Nestings.{contents};

use crate::gathering::gather;
use crate::key::Key;
use crate::pairs::new_pairs;
use crate::places::Places;
use crate::predicting::Predict;
use dim_signature::Catalogue;
use dim_trace::KeptTrace;
use std::alloc::Global;

/// The different contents of a trace's nestings, and the pairs of them that make its candidates.
#[derive(Drop)]
pub struct Search {
    pub keys: Vec<Key>,
    pub pairs: Vec<Places>,
}

/// Looks through a trace whose entries fit and are in range for 1 to 32 threads and at most 256
/// locks, where these signatures are loaded.
pub fn searched(
    alloc: Global,
    known: &Catalogue,
    trace: &KeptTrace,
    threads: u32,
    locks: u32,
) -> Result<Search, Predict>
    requires some { 1 ≤ threads }
    requires most { threads ≤ 32 }
    requires most_locks { locks ≤ 256 }
    requires fits { Fits (past trace.now.entries) }
    requires in_range { AreInRange threads locks (past trace.now.entries) }
    ensures within { IfOk result (λ s. All (AreWithin (length s.keys.items)) s.pairs.items) }
    ensures found { IfOk result
        (λ s. (d : Key) → map (stacks_of_places s.keys.items d) s.pairs.items
        ≡ candidate_stacks known.now.sigs (contents trace.now.entries)) }
    ensures few { IfOk result (λ _. AreTooMany trace.now.entries → ⊥) }
    ensures many { result ≡ Err Predict.TooMany → AreTooMany trace.now.entries }
{
    let keys = gather(alloc, trace, threads, locks)?;
    let pairs = new_pairs(alloc, &keys, known)?;
    Ok(Search { keys, pairs })
}
