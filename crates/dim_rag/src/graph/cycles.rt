//! Cycles, and the places that are the births of one.
ghost use Rattle.std.specs.Prelude.{◌≡◌, ◌<◌, Some, None, IfSome, MatchResult, option_map};
ghost use Rattle.dim_rag.specs.Tables.{held_by};
ghost use Rattle.dim_rag.specs.History.{past};
ghost use Rattle.dim_rag.specs.Waits.{waits};
ghost use Rattle.dim_rag.specs.Certificate.{held_at, cycle_fault};
ghost use Rattle.dim_rag.specs.Links.{link_of};

use crate::births::Births;
use crate::entry::{Edge, Mode};
use crate::graph::Graph;
use crate::graph::link::Link;
use crate::graph::trail::Trail;
use dim_base::Tid;

impl Graph {
    /// The first position that keeps a list of places from being the births of a cycle, position by
    /// position.
    ///
    /// Position `i` passes where its place is the birth of a hold edge, whose owner is allowed on
    /// the lock of the hold edge with the next birth, and, for `i` above 0, has a greater number
    /// than the owner at position 0. Behind the last position comes the first. A list shorter than
    /// 2 fails at 0.
    pub fn is_cycle(&self, births: &Births) -> Result<(), u32>
        ensures { MatchResult result
            (λ done. cycle_fault self.now.threads self.now.locks (past self.now.entries) births.now
            ≡ None)
            (λ i. cycle_fault self.now.threads self.now.locks (past self.now.entries) births.now
            ≡ Some i) }
    {
        if births.len() < 2 {
            return Err(0);
        }
        for i in 0..births.len() {
            if !self.passes_at(Trail::Cycle, births, i) {
                return Err(i);
            }
        }
        Ok(())
    }

    /// The hold edge on the lock on which a thread is allowed; none exactly where it is allowed on
    /// none, or nobody holds that.
    pub fn waits_for(&self, t: Tid) -> Option<Edge>
        requires { t.0 < self.now.threads }
        ensures value { result ≡ waits self.now.threads (past self.now.entries) t.0 }
        ensures thread { IfSome result (λ e. e.t.0 < self.now.threads) }
    {
        match self.mode(t) {
            Mode::Allowed { l, .. } => self.holder(l),
            _ => None,
        }
    }

    /// The owner and the birth of the hold edge on the lock on which a thread is allowed; none
    /// exactly where it is allowed on none, or nobody holds that.
    pub(crate) fn wait_link(&self, t: Tid) -> Option<Link>
        requires { t.0 < self.now.threads }
        ensures value { result
            ≡ option_map link_of (waits self.now.threads (past self.now.entries) t.0) }
        ensures thread { IfSome result (λ x. x.t.0 < self.now.threads) }
    {
        match self.mode(t) {
            Mode::Allowed { l, .. } => self.holder_link(l),
            _ => None,
        }
    }

    /// The hold edge with a birth; none exactly where no lock has one.
    pub fn held_at(&self, place: u32) -> Option<Edge>
        ensures value { result ≡ held_at self.now.threads self.now.locks (past self.now.entries)
            place }
        ensures thread { IfSome result (λ e. e.t.0 < self.now.threads) }
    {
        match self.edge_born(place) {
            Some(e) => held_by(e.t, self.holder(e.l)),
            None => None,
        }
    }
}

/// A hold edge, if it is one of this thread.
fn held_by(t: Tid, holder: Option<Edge>) -> Option<Edge>
    ensures { result ≡ held_by t.0 holder }
{
    match holder {
        Some(e) if e.t.0 == t.0 => Some(e),
        _ => None,
    }
}
