//! From a trace to the different contents of its nestings.
ghost use Rattle.std.specs.Prelude.{◌≡◌, ◌≤◌, ◌<◌, ◌-◌, ◌++◌, ◌∷◌, [], All, length, map, IfOk, OnOk};
ghost use Rattle.dim_rag.specs.Fits.{AreInRange, Fits, FitsAfter, IsInRange};
ghost use Rattle.dim_rag.specs.History.{past, grant};
ghost use Rattle.dim_rag.specs.Shown.{HasStack, shown};
ghost use Rattle.dim_predict.specs.Candidates.{AreTooMany, all_noted, different};
ghost use Rattle.dim_predict.specs.Keys.{IsKey, IsRoll, content_of};
ghost use Rattle.dim_predict.specs.Nestings.{contents, holds, others, said_by, says};

use crate::granted::granted;
use crate::holds::{find_holds, locks_of};
use crate::key::Key;
use crate::predicting::Predict;
use crate::roll::Roll;
use dim_base::{Lid, OutOfMemory, Tid};
use dim_rag::{Edge, EntryRef, Graph};
use dim_trace::KeptTrace;
use std::alloc::Global;

/// The graph of the entries so far, and the different contents of their nestings.
#[derive(Drop)]
struct Gathering {
    graph: Graph,
    /// Room for the hold edges of a thread.
    holds: Vec<Edge>,
    roll: Roll,
}

impl Gathering {
    /// No entries of so many threads and locks, and room for so many entries.
    fn new(alloc: Global, threads: u32, locks: u32, entries: u32) -> Result<Gathering, OutOfMemory>
        requires some { 1 ≤ threads }
        requires few { threads ≤ 32 }
        requires few_locks { locks ≤ 256 }
        ensures graph { IfOk result (λ g. g.graph
            ≡ record { threads = threads; locks = locks; entries = []; spare = entries }) }
        ensures roll { IfOk result (λ g. IsRoll g.roll.list.items g.roll.set) }
        ensures none { IfOk result (λ g. g.roll.list.items ≡ []) }
    {
        let mut graph = Graph::new(alloc, threads, locks)?;
        graph.reserve(entries);
        Ok(Gathering {
            graph,
            holds: Vec::new(alloc),
            roll: Roll::new(alloc),
        })
    }

    /// Takes an entry that comes next. After an error nothing is claimed.
    fn take(&mut self, e: &EntryRef<'_>) -> Result<(), Predict>
        requires room { 1 ≤ self.old.graph.spare }
        requires stack { HasStack e.now }
        requires locks { self.old.graph.locks ≤ 256 }
        requires in_range { IsInRange self.old.graph.threads self.old.graph.locks (shown e.now) }
        requires fits { FitsAfter (past self.old.graph.entries) (shown e.now) }
        requires roll { IsRoll self.old.roll.list.items self.old.roll.set }
        ensures graph { OnOk result (self.new.graph ≡ record self.old.graph
            { entries = self.old.graph.entries ++ shown e.now ∷ []; spare = self.old.graph.spare - 1 }) }
        ensures roll { OnOk result (IsRoll self.new.roll.list.items self.new.roll.set) }
        ensures noted { OnOk result (map content_of self.new.roll.list.items
            ≡ all_noted (map content_of self.old.roll.list.items)
            (said_by (past self.old.graph.entries) (grant (shown e.now ∷ past self.old.graph.entries)))) }
        ensures many { result ≡ Err Predict.TooMany
            → 4096 < length (all_noted (map content_of self.old.roll.list.items)
            (said_by (past self.old.graph.entries) (grant (shown e.now ∷ past self.old.graph.entries)))) }
    {
        if let Some((t, m)) = granted(&self.graph, e) {
            find_holds(&self.graph, t, &mut self.holds)?;
            note_all(&self.graph, t, m, &self.holds, &mut self.roll)?;
        }
        self.graph.enter_ref(e);
        Ok(())
    }
}

/// Notes what is said by the nestings of a grant to a thread of a lock, where these are the hold
/// edges of the thread.
fn note_all(
    graph: &Graph,
    thread: Tid,
    wanted: Lid,
    edges: &[Edge],
    roll: &mut Roll,
) -> Result<(), Predict>
    requires locks { graph.now.locks ≤ 256 }
    requires wanted { wanted.0 < 256 }
    requires edges { edges.now ≡ holds thread.0 (past graph.now.entries) }
    requires roll { IsRoll roll.old.list.items roll.old.set }
    ensures roll { OnOk result (IsRoll roll.new.list.items roll.new.set) }
    ensures noted { OnOk result (map content_of roll.new.list.items
        ≡ all_noted (map content_of roll.old.list.items)
        (map (says thread wanted (past graph.now.entries))
        (others thread.0 wanted.0 (past graph.now.entries)))) }
    ensures many { result ≡ Err Predict.TooMany
        → 4096 < length (all_noted (map content_of roll.old.list.items)
        (map (says thread wanted (past graph.now.entries))
        (others thread.0 wanted.0 (past graph.now.entries)))) }
{
    let _locks = graph.locks(); // for the contract: the entries are in range
    let locks = locks_of(edges);
    for edge in edges {
        if edge.l != wanted {
            roll.note(&Key {
                thread,
                held: edge.l,
                wanted,
                stack: edge.stack,
                guards: locks.without(edge.l),
            })?;
        }
    }
    Ok(())
}

/// The different contents of the nestings of a trace, in the order in which they come first.
///
/// Its entries fit and are in range for 1 to 32 threads and at most 256 locks. `TooMany` comes only
/// where there are more than 4,096 contents. The fewer the locks, the less each grant costs.
pub fn gather(
    alloc: Global,
    trace: &KeptTrace,
    threads: u32,
    locks: u32,
) -> Result<Vec<Key>, Predict>
    requires some { 1 ≤ threads }
    requires most { threads ≤ 32 }
    requires most_locks { locks ≤ 256 }
    requires fits { Fits (past trace.now.entries) }
    requires in_range { AreInRange threads locks (past trace.now.entries) }
    ensures found { IfOk result
        (λ keys. map content_of keys.items ≡ different (contents trace.now.entries)) }
    ensures few { IfOk result (λ keys. length keys.items ≤ 4096) }
    ensures keys { IfOk result (λ keys. All IsKey keys.items) }
    ensures many { result ≡ Err Predict.TooMany → AreTooMany trace.now.entries }
{
    let count = trace.len();
    let mut gathering = Gathering::new(alloc, threads, locks, count)?;
    for place in 0..count {
        gathering.take(&trace.look(place))?;
    }
    let Gathering {
        graph: _graph,
        holds: _holds,
        roll,
    } = gathering;
    Ok(roll.into_list())
}
