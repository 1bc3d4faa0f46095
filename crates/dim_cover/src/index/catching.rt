//! The edges that stand in a graph, for an index that has none yet.
ghost use Rattle.std.specs.Prelude.{◌≡◌, ◌+◌, ◌<◌, ◌≤◌, ◌⊎◌, [], true, false, Some, IfSome};
ghost use Rattle.dim_rag.specs.History.{past};
ghost use Rattle.dim_rag.specs.declared.entry.Edge.{Edge};
ghost use Rattle.dim_rag.specs.Born.{In, all_edges};
ghost use Rattle.dim_cover.specs.Oldest.{IsNoYounger, IsOldest};

use crate::index::Index;
use dim_base::{Lid, Tid};
use dim_rag::{Edge, Graph};

impl Index {
    /// Takes in the edges that stand in a graph, where the index has none yet. It takes no memory.
    ///
    /// It isn't inlined, since it is called once at most for an index, and its edge is large.
    #[inline(never)]
    pub fn catch_up(&mut self, graph: &Graph)
        requires room { self.old.room ≡ graph.now.threads + graph.now.locks }
        requires empty { self.old.edges ≡ [] }
        ensures { self.new ≡ record self.old { edges = all_edges (past graph.now.entries) } }
    {
        let _few = graph.len(); // for the contract: the entries fit, and there are few
        let mut from = 0;
        while let Some(e) = &oldest_from(graph, from) {
            let _some = e.stack.len(); // for the contract: how many frames there are
            self.add(e.t, e.l, e.stack.as_slice(), e.birth);
            from = e.birth + 1;
        }
    }
}

/// The oldest edge, of those that have a birth or a later one.
fn oldest_from(graph: &Graph, from: u32) -> Option<Edge>
    ensures { IsOldest (λ e. In e (all_edges (past graph.now.entries))) from result }
{
    let mut oldest = None;
    for t in 0..graph.threads() {
        keep_older(&mut oldest, &graph.allow_of(Tid(t)), from);
    }
    for l in 0..graph.locks() {
        keep_older(&mut oldest, &graph.holder(Lid(l)), from);
    }
    oldest
}

/// Makes of the oldest edge so far, which has a birth or a later one, the oldest of it and another,
/// of those that have that birth or a later one.
fn keep_older(oldest: &mut Option<Edge>, edge: &Option<Edge>, from: u32)
    requires { IfSome oldest.old (λ e. from ≤ e.birth) }
    ensures { IsOldest (λ x. (oldest.old ≡ Some x) ⊎ (edge.now ≡ Some x)) from oldest.new }
{
    if let Some(e) = edge {
        if from <= e.birth && is_older(e, oldest) {
            *oldest = Some(*e);
        }
    }
}

/// Whether an edge is older than another, or there is no other.
fn is_older(edge: &Edge, other: &Option<Edge>) -> bool
    ensures older { result ≡ true
        → (o : Edge) → other.now ≡ Some o → edge.now.birth < o.birth }
    ensures younger { result ≡ false → IsNoYounger other.now edge.now }
{
    match other {
        Some(o) => edge.birth < o.birth,
        None => true,
    }
}
