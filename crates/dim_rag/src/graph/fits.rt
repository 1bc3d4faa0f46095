//! Which entries may come next.
ghost use Rattle.std.specs.Prelude.{◌≡◌, ◌<◌, ◌↔◌, IsTrue};
ghost use Rattle.dim_rag.specs.declared.entry.Mode.TheVariants.{Running};
ghost use Rattle.dim_rag.specs.History.{past, mode, latest_wish};
ghost use Rattle.dim_rag.specs.Asks.{may_ask, IsReady};
ghost use Rattle.dim_rag.specs.Fits.{FitsAfter, IsInRange, IsYielding, IsAllowedOn, MayTake};

use crate::entry::{Entry, Mode};
use crate::graph::Graph;
use dim_base::{Lid, Tid};
use dim_stack::Stack;

impl Graph {
    /// Whether an entry may come next: its thread and its lock, where it has them, are in range,
    /// and the mode of its thread and the holder of its lock allow it.
    pub fn fits(&self, e: &Entry) -> bool
        ensures { IsTrue result
            ↔ (IsInRange self.now.threads self.now.locks e.now
            × FitsAfter (past self.now.entries) e.now) }
    {
        self.is_in_range(e) && self.is_fit(e)
    }

    /// Whether the thread and the lock of an entry, where it has them, are in range.
    fn is_in_range(&self, e: &Entry) -> bool
        ensures { IsTrue result ↔ IsInRange self.now.threads self.now.locks e.now }
    {
        match e {
            Entry::Go { t, l, .. }
            | Entry::Yield { t, l, .. }
            | Entry::Got { t, l }
            | Entry::Free { t, l }
            | Entry::Took { t, l, .. }
            | Entry::Miss { t, l, .. } => t.0 < self.threads && l.0 < self.locks,
            Entry::End { t, .. } | Entry::Break { t, .. } => t.0 < self.threads,
            Entry::Learn { .. } => true,
        }
    }

    /// Whether the mode of an entry's thread and the holder of its lock allow it.
    fn is_fit(&self, e: &Entry) -> bool
        requires { IsInRange self.now.threads self.now.locks e.now }
        ensures { IsTrue result ↔ FitsAfter (past self.now.entries) e.now }
    {
        match e {
            Entry::Go { t, l, stack } | Entry::Yield { t, l, stack, .. } => {
                self.may_ask(*t, *l, stack) && self.hold_of(*t, *l).is_none()
            }
            Entry::Got { t, l } => self.is_allowed_on(*t, *l) && self.holder(*l).is_none(),
            Entry::Free { t, l } => self.runs(*t) && self.hold_of(*t, *l).is_some(),
            Entry::Took { t, l, .. } => self.runs(*t) && self.may_take(*t, *l),
            Entry::Miss { t, l, .. } => self.runs(*t) && self.hold_of(*t, *l).is_none(),
            Entry::End { t, .. } => self.runs(*t) || self.yields(*t),
            Entry::Break { t, .. } => self.yields(*t),
            Entry::Learn { .. } => true,
        }
    }

    /// Whether a thread runs.
    fn runs(&self, t: Tid) -> bool
        requires { t.0 < self.now.threads }
        ensures { IsTrue result ↔ (mode t.0 (past self.now.entries) ≡ Running) }
    {
        matches!(self.mode(t), Mode::Running)
    }

    /// Whether a thread yields.
    fn yields(&self, t: Tid) -> bool
        requires { t.0 < self.now.threads }
        ensures { IsTrue result ↔ IsYielding t.0 (past self.now.entries) }
    {
        matches!(self.mode(t), Mode::Yielding { .. })
    }

    /// Whether a thread is allowed on a lock.
    fn is_allowed_on(&self, t: Tid, l: Lid) -> bool
        requires { t.0 < self.now.threads }
        ensures { IsTrue result ↔ IsAllowedOn t.0 l (past self.now.entries) }
    {
        matches!(self.mode(t), Mode::Allowed { l: m, .. } if m == l)
    }

    /// Whether a lock is free, or held by a thread that may take it once more.
    fn may_take(&self, t: Tid, l: Lid) -> bool
        requires { l.0 < self.now.locks }
        ensures { IsTrue result ↔ MayTake t.0 l.0 (past self.now.entries) }
    {
        self.holders[l.0 as usize].may_be_taken(t, self.counts[l.0 as usize])
    }

    /// Whether a thread runs, or yields on this lock with this stack.
    pub fn may_ask(&self, t: Tid, l: Lid, stack: &Stack) -> bool
        requires { t.0 < self.now.threads }
        ensures value { result ≡ may_ask l stack.now (mode t.0 (past self.now.entries))
            (latest_wish t.0 (past self.now.entries)) }
        ensures ready { IsTrue result → IsReady t.0 l stack.now (past self.now.entries) }
        ensures always { IsReady t.0 l stack.now (past self.now.entries) → IsTrue result }
    {
        self.rows[t.0 as usize].may_ask(l, stack)
    }
}
