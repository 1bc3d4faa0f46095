//! Starvations, the places that are the births of one, and the starvation of a stuck set.
ghost use Rattle.std.specs.Prelude.{◌≡◌, ◌<◌, Some, None, IfSome, MatchResult, length, take, slice_index_or};
ghost use Rattle.std.specs.List.{list_any};
ghost use Rattle.dim_rag.specs.History.{past};
ghost use Rattle.dim_rag.specs.Born.{edge_born};
ghost use Rattle.dim_rag.specs.Steps.{run_into};
ghost use Rattle.dim_rag.specs.Starvation.{step, is_on, has_new_lock, is_of_yielder, someone_yields, starves_at, starvation_fault, starved, starved_from};

use crate::births::Births;
use crate::entry::Edge;
use crate::graph::Graph;
use crate::graph::stuck::is_yielding;
use crate::graph::trail::Trail;
use crate::laws::choice_law;
use dim_base::{Lid, Tid};

impl Graph {
    /// The births of the starvation of a stuck set with a choice: the one that following steps from
    /// the choice runs into.
    ///
    /// A thread steps to the hold edge on the lock on which it is allowed, or, where it yields and
    /// all its causes stand, to the edge of the first of them. None exactly where the set has no
    /// starvation, and where it has no choice.
    pub fn starved(&self, set: u32) -> Option<Births>
        ensures value { result ≡ starved self.now.threads self.now.locks (past self.now.entries)
            set }
        ensures certified { IfSome result
            (λ b. starvation_fault self.now.threads self.now.locks (past self.now.entries) b
            ≡ None) }
    {
        choice_law();
        let choice = self.choice(set)?;
        self.starved_from(choice)
    }

    /// The first position that keeps a list of places from being the births of a starvation,
    /// position by position.
    ///
    /// Position `i` passes where its place is the birth of an edge, whose owner steps to the edge
    /// with the next birth and, for `i` above 0, has a greater number than the owner at position 0,
    /// and whose lock differs from those of the positions before it. Behind the last position comes
    /// the first. A list shorter than 2 fails at 0, and so does one where every position passes and
    /// no owner yields.
    pub fn is_starved(&self, births: &Births) -> Result<(), u32>
        ensures { MatchResult result
            (λ done. starvation_fault self.now.threads self.now.locks (past self.now.entries)
            births.now ≡ None)
            (λ i. starvation_fault self.now.threads self.now.locks (past self.now.entries)
            births.now ≡ Some i) }
    {
        if births.len() < 2 {
            return Err(0);
        }
        for i in 0..births.len() {
            if !self.starves_at(births, i) {
                return Err(i);
            }
        }
        if self.someone_yields(births) {
            Ok(())
        } else {
            Err(0)
        }
    }

    /// The births of the starvation into which steps from a thread run, if there is one.
    fn starved_from(&self, t: Tid) -> Option<Births>
        requires { t.0 < self.now.threads }
        ensures value { result ≡ starved_from self.now.threads self.now.locks
            (past self.now.entries) t.0 }
        ensures certified { IfSome result
            (λ b. starvation_fault self.now.threads self.now.locks (past self.now.entries) b
            ≡ None) }
    {
        let births = self.run_into(t)?;
        match self.is_starved(&births) {
            Ok(()) => Some(births),
            Err(_) => None,
        }
    }

    /// The births of the cycle of steps into which those from a thread run; none exactly where they
    /// end.
    fn run_into(&self, t: Tid) -> Option<Births>
        requires { t.0 < self.now.threads }
        ensures { result ≡ run_into (step self.now.threads self.now.locks (past self.now.entries))
            self.now.threads self.now.threads t.0 }
    {
        let mut at = t;
        for _ in 0..self.threads() {
            if let Some(births) = self.cycle_from(Trail::Starvation, at) {
                return Some(births);
            }
            at = self.step_on(Trail::Starvation, at)?.t;
        }
        None
    }

    /// Whether position `i` of a list of places passes.
    fn starves_at(&self, births: &Births, i: u32) -> bool
        requires { i < length births.now }
        ensures { result ≡ starves_at self.now.threads self.now.locks (past self.now.entries)
            births.now i }
    {
        self.passes_at(Trail::Starvation, births, i) && self.has_new_lock(births, i)
    }

    /// Whether the edge at position `i` is there, and its lock is that of no position before it.
    fn has_new_lock(&self, births: &Births, i: u32) -> bool
        requires { i < length births.now }
        ensures { result ≡ has_new_lock (past self.now.entries) (take i births.now)
            (edge_born (past self.now.entries) (slice_index_or births.now i 0)) }
    {
        match self.edge_born(births.at(i)) {
            Some(e) => !self.is_locked_before(births, i, e.l),
            None => false,
        }
    }

    /// Whether an edge of one of the first `i` positions is on a lock.
    fn is_locked_before(&self, births: &Births, i: u32, l: Lid) -> bool
        requires { i < length births.now }
        ensures { result ≡ list_any (λ p. is_on l.0 (edge_born (past self.now.entries) p))
            (take i births.now) }
    {
        for j in 0..i {
            if is_on(l, &self.edge_born(births.at(j))) {
                return true;
            }
        }
        false
    }

    /// Whether the owner of an edge with one of these births yields.
    fn someone_yields(&self, births: &Births) -> bool
        ensures { result ≡ someone_yields (past self.now.entries) births.now }
    {
        for i in 0..births.len() {
            if self.is_of_yielder(births.at(i)) {
                return true;
            }
        }
        false
    }

    /// Whether a place is the birth of an edge whose owner yields.
    fn is_of_yielder(&self, place: u32) -> bool
        ensures { result
            ≡ is_of_yielder (past self.now.entries) (edge_born (past self.now.entries) place) }
    {
        match self.edge_born(place) {
            Some(e) => is_yielding(&self.mode(e.t)),
            None => false,
        }
    }
}

/// Whether an edge is there and is on this lock.
fn is_on(l: Lid, edge: &Option<Edge>) -> bool
    ensures { result ≡ is_on l.0 edge.now }
{
    match edge {
        Some(e) => e.l.0 == l.0,
        None => false,
    }
}
