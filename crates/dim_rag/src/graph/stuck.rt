//! Stuck sets, and the thread that is broken out of one.
ghost use Rattle.std.specs.Prelude.{◌≡◌, ◌<◌, Some, None, MatchResult, option_map, is_some};
ghost use Rattle.dim_base.specs.declared.Tid.{Tid};
ghost use Rattle.dim_rag.specs.History.{past, mode, hold, latest_wish};
ghost use Rattle.dim_rag.specs.Holder.{holder};
ghost use Rattle.dim_rag.specs.Stuck.{is_owner_in, is_held, is_held_by, IsStuck, IsFirstFree, stale, holds, holds_more, may_choose, is_yielding, choice};

use crate::entry::Mode;
use crate::graph::Graph;
use crate::graph::set::is_member;
use dim_base::{Lid, Tid};

impl Graph {
    /// The least member of a set that keeps it from being stuck, or whose number is no thread.
    ///
    /// A member may be one where it has ended, or is allowed on a lock that a member holds, or
    /// yields with causes that all stand and whose owners are all members.
    pub fn is_stuck(&self, set: u32) -> Result<(), Tid>
        ensures reading { MatchResult result
            (λ done. IsStuck self.now.threads self.now.locks (past self.now.entries) set)
            (λ t. IsFirstFree self.now.threads self.now.locks (past self.now.entries) set t.0) }
        ensures value { MatchResult result
            (λ done. stale self.now.threads self.now.locks (past self.now.entries) set ≡ None)
            (λ t. stale self.now.threads self.now.locks (past self.now.entries) set ≡ Some t.0) }
    {
        for t in 0..32 {
            if is_member(set, t) && !self.is_held(set, t) {
                return Err(Tid(t));
            }
        }
        Ok(())
    }

    /// The member of a set that yields and holds the most locks, and of these the one with the
    /// least number.
    ///
    /// None exactly where no member yields.
    pub fn choice(&self, set: u32) -> Option<Tid>
        ensures { option_map (λ (t : Tid). t.0) result
            ≡ choice set self.now.locks (past self.now.entries) self.now.threads }
    {
        let mut best: Option<Tid> = None;
        for t in 0..self.threads() {
            if self.may_choose(set, Tid(t)) && self.holds_more(best, Tid(t)) {
                best = Some(Tid(t));
            }
        }
        best
    }

    /// Whether a number is that of a thread that may be a member of a stuck set.
    fn is_held(&self, set: u32, t: u32) -> bool
        ensures { result ≡ is_held self.now.threads self.now.locks (past self.now.entries) set t }
    {
        t < self.threads() && self.is_held_in(set, Tid(t))
    }

    /// Whether a thread may be a member of a stuck set.
    fn is_held_in(&self, set: u32, t: Tid) -> bool
        requires { t.0 < self.now.threads }
        ensures { result ≡ is_held_by set self.now.threads self.now.locks (past self.now.entries)
            (mode t.0 (past self.now.entries)) (latest_wish t.0 (past self.now.entries)) }
    {
        match self.mode(t) {
            Mode::Ended { .. } => true,
            Mode::Running => false,
            Mode::Yielding { .. } => self.standing_in(set, t).is_some(),
            Mode::Allowed { l, .. } => self.is_held_within(set, l),
        }
    }

    /// Whether a lock is held by a member of a set.
    fn is_held_within(&self, set: u32, l: Lid) -> bool
        requires { l.0 < self.now.locks }
        ensures { result
            ≡ is_owner_in set (holder self.now.threads l.0 (past self.now.entries)) }
    {
        match self.owner(l) {
            Some(t) => is_member(set, t.0),
            None => false,
        }
    }

    /// How many locks a thread holds.
    fn holds(&self, t: Tid) -> u32
        ensures { result ≡ holds t.0 self.now.locks (past self.now.entries) }
    {
        let mut count = 0;
        for l in 0..self.locks {
            if self.is_holder(t, Lid(l)) {
                count += 1;
            }
        }
        count
    }

    /// Whether a thread holds a lock.
    fn is_holder(&self, t: Tid, l: Lid) -> bool
        requires { l.0 < self.now.locks }
        ensures { result ≡ is_some (hold t.0 l.0 (past self.now.entries)) }
    {
        self.hold_of(t, l).is_some()
    }

    /// Whether a thread is a member of a set and yields.
    fn may_choose(&self, set: u32, t: Tid) -> bool
        requires { t.0 < self.now.threads }
        ensures { result ≡ may_choose set (past self.now.entries) t.0 }
    {
        is_member(set, t.0) && is_yielding(&self.mode(t))
    }

    /// Whether a thread holds more locks than one before it, if there is one.
    fn holds_more(&self, best: Option<Tid>, t: Tid) -> bool
        ensures { result ≡ holds_more self.now.locks (past self.now.entries)
            (option_map (λ (u : Tid). u.0) best) t.0 }
    {
        match best {
            None => true,
            Some(u) => self.holds(u) < self.holds(t),
        }
    }
}

/// Whether a mode is that of a thread that yields.
pub fn is_yielding(mode: &Mode) -> bool
    ensures { result ≡ is_yielding mode.now }
{
    matches!(mode, Mode::Yielding { .. })
}
