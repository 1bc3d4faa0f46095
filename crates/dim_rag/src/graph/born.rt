//! Edges by their births.
ghost use Rattle.std.specs.Prelude.{◌≡◌, ℕ, ◌<◌, Some, IfSome, option_map};
ghost use Rattle.dim_rag.specs.declared.entry.Edge.{Edge};
ghost use Rattle.dim_rag.specs.History.{past, allow, hold};
ghost use Rattle.dim_rag.specs.Born.{IsEdge, edge_born};
ghost use Rattle.dim_rag.specs.Links.{link_of};

use crate::entry::Edge;
use crate::graph::Graph;
use crate::graph::link::Link;
use dim_base::{Lid, Tid};

impl Graph {
    /// The allow or hold edge with a birth, which is one at most; none exactly where there is none.
    ///
    /// It looks at each thread and then at each lock, so it costs the same at any length.
    pub fn edge_born(&self, birth: u32) -> Option<Edge>
        ensures value { result ≡ edge_born (past self.now.entries) birth }
        ensures some { IfSome result (λ e. IsEdge (past self.now.entries) e × (e.birth ≡ birth)) }
        ensures each { (e : Edge) → IsEdge (past self.now.entries) e → e.birth ≡ birth
            → result ≡ Some e }
        ensures in_range { IfSome result (λ e. (e.t.0 < self.now.threads)
            × (e.l.0 < self.now.locks)) }
    {
        // For the contract: edges are in range.
        let _in_range = self.locks();
        match self.any_allow_born(birth) {
            Some(e) => Some(e),
            None => self.any_hold_born(birth),
        }
    }

    /// The owner and the birth of the edge with a birth, if there is one.
    pub(crate) fn link_born(&self, birth: u32) -> Option<Link>
        ensures value { result ≡ option_map link_of (edge_born (past self.now.entries) birth) }
        ensures thread { IfSome result (λ x. x.t.0 < self.now.threads) }
    {
        match self.edge_born(birth) {
            Some(e) => Some(Link::of(&e)),
            None => None,
        }
    }

    /// The allow edge with this birth.
    fn any_allow_born(&self, birth: u32) -> Option<Edge>
        ensures some { IfSome result (λ e. IsEdge (past self.now.entries) e × (e.birth ≡ birth)) }
        ensures each { (t l : ℕ) (e : Edge) → allow t l (past self.now.entries) ≡ Some e
            → e.birth ≡ birth → result ≡ Some e }
    {
        let _in_range = self.locks();
        for t in 0..self.threads() {
            if let Some(e) = self.allow_born(Tid(t), birth) {
                return Some(e);
            }
        }
        None
    }

    /// The allow edge of a thread, if it has this birth.
    fn allow_born(&self, t: Tid, birth: u32) -> Option<Edge>
        requires { t.0 < self.now.threads }
        ensures some { IfSome result (λ e. IsEdge (past self.now.entries) e × (e.birth ≡ birth)) }
        ensures each { (l : ℕ) (e : Edge) → allow t.0 l (past self.now.entries) ≡ Some e
            → e.birth ≡ birth → result ≡ Some e }
    {
        self.rows[t.0 as usize].allow_born(t, birth)
    }

    /// The hold edge with this birth.
    fn any_hold_born(&self, birth: u32) -> Option<Edge>
        ensures some { IfSome result (λ e. IsEdge (past self.now.entries) e × (e.birth ≡ birth)) }
        ensures each { (t l : ℕ) (e : Edge) → hold t l (past self.now.entries) ≡ Some e
            → e.birth ≡ birth → result ≡ Some e }
    {
        for l in 0..self.locks() {
            if let Some(e) = self.hold_born(Lid(l), birth) {
                return Some(e);
            }
        }
        None
    }

    /// The hold edge on a lock, if it has this birth.
    fn hold_born(&self, l: Lid, birth: u32) -> Option<Edge>
        requires { l.0 < self.now.locks }
        ensures some { IfSome result (λ e. IsEdge (past self.now.entries) e × (e.birth ≡ birth)) }
        ensures each { (t : ℕ) (e : Edge) → hold t l.0 (past self.now.entries) ≡ Some e
            → e.birth ≡ birth → result ≡ Some e }
    {
        self.holders[l.0 as usize].born(birth)
    }
}
