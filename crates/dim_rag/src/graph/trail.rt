//! Trails: what threads wait for, from one to the next.
ghost use Rattle.std.specs.Prelude.{◌≡◌, ℕ, ◌+◌, ◌<◌, ◌≤◌, List, [], ◌∷◌, IfSome, length, drop, option_map};
ghost use Rattle.dim_rag.specs.History.{past};
ghost use Rattle.dim_rag.specs.Steps.{walk, close};
ghost use Rattle.dim_rag.specs.Certificate.{leads, is_later, passes, passes_at, next_or};
ghost use Rattle.dim_rag.specs.Starvation.{step, step_on, found_on};
ghost use Rattle.dim_rag.specs.Links.{link_of};

use crate::births::Births;
use crate::entry::Edge;
use crate::graph::Graph;
use crate::graph::link::Link;
use dim_base::Tid;

/// Along which edges a trail goes from thread to thread.
#[derive(Clone, Copy, Debug, PartialEq, Eq)]
pub enum Trail {
    /// As in a cycle: to the hold edge on the lock on which a thread is allowed.
    Cycle,
    /// As in a starvation: to that, or from a thread that yields to the edge of its first cause,
    /// where all its causes stand.
    Starvation,
}

impl Graph {
    /// The births of the cycle that a trail makes and that begins with a thread, as its least one;
    /// none exactly where there is none.
    ///
    /// The birth of the first thread's edge is known last, when the trail comes back to it, and
    /// stands at place 0. A trail that comes to a lesser thread is on no cycle that begins with
    /// `first`. It costs at most as many steps as there are threads.
    pub fn cycle_from(&self, trail: Trail, first: Tid) -> Option<Births>
        requires { first.0 < self.now.threads }
        ensures { result
            ≡ walk (step_on trail self.now.threads self.now.locks (past self.now.entries)) first.0
            self.now.threads first.0 [] }
    {
        let mut places = [0u32; 33];
        let mut at = first;
        for i in 0..self.threads() as usize {
            let next = self.step_on(trail, at)?;
            if next.t.0 == first.0 {
                places[0] = next.birth;
                return closed(&places[..i + 1]);
            }
            if next.t.0 < first.0 {
                return None;
            }
            places[i + 1] = next.birth;
            at = next.t;
        }
        None
    }

    /// The owner and the birth of the edge to which a thread steps on a trail, if it does.
    pub(crate) fn step_on(&self, trail: Trail, t: Tid) -> Option<Link>
        requires { t.0 < self.now.threads }
        ensures value { result
            ≡ option_map link_of
            (step_on trail self.now.threads self.now.locks (past self.now.entries) t.0) }
        ensures thread { IfSome result (λ x. x.t.0 < self.now.threads) }
    {
        match trail {
            Trail::Cycle => self.wait_link(t),
            Trail::Starvation => self.step(t),
        }
    }

    /// The owner and the birth of the edge to which a thread steps.
    ///
    /// That is the hold edge on the lock on which it is allowed, or, where it yields and all its
    /// causes stand, the edge of the first of them.
    fn step(&self, t: Tid) -> Option<Link>
        requires { t.0 < self.now.threads }
        ensures value { result
            ≡ option_map link_of
            (step self.now.threads self.now.locks (past self.now.entries) t.0) }
        ensures thread { IfSome result (λ x. x.t.0 < self.now.threads) }
    {
        if let Some(next) = self.wait_link(t) {
            return Some(next);
        }
        let cause = self.standing(t)?;
        self.link_born(cause)
    }

    /// The edge with a birth, of those that a trail goes along.
    fn found_on(&self, trail: Trail, place: u32) -> Option<Edge>
        ensures value { result ≡ found_on trail self.now.threads self.now.locks
            (past self.now.entries) place }
        ensures thread { IfSome result (λ e. e.t.0 < self.now.threads) }
    {
        match trail {
            Trail::Cycle => self.held_at(place),
            Trail::Starvation => self.edge_born(place),
        }
    }

    /// Whether position `i` of a list of places passes.
    pub(crate) fn passes_at(&self, trail: Trail, births: &Births, i: u32) -> bool
        requires { i < length births.now }
        ensures { result
            ≡ passes_at (found_on trail self.now.threads self.now.locks (past self.now.entries))
            (step_on trail self.now.threads self.now.locks (past self.now.entries)) births.now i }
    {
        let first = births.at(0);
        self.passes(trail, first, i, births.at(i), next_place(births, i, first))
    }

    /// Whether a place passes at position `i`, with this first place and this next one.
    fn passes(&self, trail: Trail, first: u32, i: u32, place: u32, next: u32) -> bool
        ensures { result
            ≡ passes (found_on trail self.now.threads self.now.locks (past self.now.entries))
            (step_on trail self.now.threads self.now.locks (past self.now.entries)) first i place
            next }
    {
        let found = self.found_on(trail, place);
        self.leads(trail, &found, next)
            && (i == 0 || is_later(&self.found_on(trail, first), &found))
    }

    /// Whether an edge is there and its owner steps to the edge with the next birth.
    fn leads(&self, trail: Trail, found: &Option<Edge>, next: u32) -> bool
        requires { IfSome found.now (λ e. e.t.0 < self.now.threads) }
        ensures { result
            ≡ leads (step_on trail self.now.threads self.now.locks (past self.now.entries)) next
            found.now }
    {
        match found {
            None => false,
            Some(e) => match self.step_on(trail, e.t) {
                None => false,
                Some(f) => f.birth == next,
            },
        }
    }
}

/// The place behind position `i` of a list of places, or the first.
#[tactic(auto, using(crate::proofs::Positions::next_at, crate::proofs::Positions::next_end))]
fn next_place(births: &Births, i: u32, first: u32) -> u32
    requires { i < length births.now }
    ensures { result ≡ next_or first (drop (i + 1) births.now) }
{
    let len = births.len();
    if i + 1 < len { births.at(i + 1) } else { first }
}

/// The births of a trail that came back to its first thread. One that came back at once is no
/// cycle.
fn closed(places: &[u32]) -> Option<Births>
    requires { length places.now ≤ 32 }
    ensures { (b : ℕ) (so_far : List ℕ) → places.now ≡ b ∷ so_far → result ≡ close b so_far }
{
    if places.len() < 2 {
        return None;
    }
    Some(Births::new(places))
}

/// Whether the second of two edges has the greater owner.
fn is_later(a: &Option<Edge>, b: &Option<Edge>) -> bool
    ensures { result ≡ is_later a.now b.now }
{
    match (a, b) {
        (Some(x), Some(y)) => x.t.0 < y.t.0,
        _ => false,
    }
}
