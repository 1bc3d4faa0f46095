//! What is kept of a lock: its hold edge.
ghost use Rattle.std.specs.Prelude.{◌≡◌, ◌≤◌, length, Some, None, option_map};
ghost use Rattle.dim_rag.specs.declared.entry.Edge.{Edge};
ghost use Rattle.dim_rag.specs.Tables.{held_by};
ghost use Rattle.dim_rag.specs.Born.{with_birth};
ghost use Rattle.dim_rag.specs.Rows.{may_take_by};
ghost use Rattle.dim_rag.specs.Links.{link_of};

use crate::entry::Edge;
use crate::graph::link::Link;
use dim_base::{Lid, Tid};
use dim_stack::{Frame, Stack};
use std::marker::Model;

/// How often a thread may hold a lock.
pub const MOST_HOLDS: u8 = 255;

/// The hold edge on a lock, or none, which is what a contract sees.
///
/// An edge is large, so it is written where it stays, and what is left of one that has ended isn't
/// cleared.
#[derive(Drop)]
pub struct Holder {
    is_held: bool,
    edge: Edge,
}

impl Model for Holder {
    ghost use Rattle.std.specs.Prelude.{Option, Some, None, if◌then◌else◌};
    ghost use Rattle.dim_rag.specs.declared.entry.Edge.{Edge};

    ghost Value = { Option Edge };

    ghost view = { λ h. if h.is_held then Some h.edge else None };
}

impl Holder {
    /// That of a lock that nobody holds.
    pub fn none() -> Holder
        ensures { result ≡ None }
    {
        Holder {
            is_held: false,
            edge: Edge {
                t: Tid(0),
                l: Lid(0),
                stack: Stack::new(&[Frame { func: 0, at: 0 }]),
                birth: 0,
            },
        }
    }

    /// From now on this is the hold edge.
    pub fn set(&mut self, t: Tid, l: Lid, stack: &[Frame], birth: u32)
        requires some { 1 ≤ length stack.now }
        requires few { length stack.now ≤ 32 }
        ensures { self.new ≡ Some record { t = t; l = l; stack = stack.now; birth = birth } }
    {
        self.is_held = true;
        self.edge.t = t;
        self.edge.l = l;
        self.edge.stack.set_frames(stack);
        self.edge.birth = birth;
    }

    /// From now on nobody holds the lock.
    pub fn clear(&mut self)
        ensures { self.new ≡ None }
    {
        self.is_held = false;
    }

    /// The hold edge, if there is one.
    pub fn edge(&self) -> Option<Edge>
        ensures { result ≡ self.now }
    {
        if self.is_held { Some(self.edge) } else { None }
    }

    /// The hold edge, if it is one of this thread.
    pub fn held_by(&self, t: Tid) -> Option<Edge>
        ensures { result ≡ held_by t.0 self.now }
    {
        if self.is_held && self.edge.t.0 == t.0 {
            Some(self.edge)
        } else {
            None
        }
    }

    /// The hold edge, if it has this birth.
    pub fn born(&self, birth: u32) -> Option<Edge>
        ensures { result ≡ with_birth birth self.now }
    {
        if self.is_held && self.edge.birth == birth {
            Some(self.edge)
        } else {
            None
        }
    }

    /// The thread of the hold edge, if there is one.
    pub fn owner(&self) -> Option<Tid>
        ensures { result ≡ option_map (λ (e : Edge). e.t) self.now }
    {
        if self.is_held {
            Some(self.edge.t)
        } else {
            None
        }
    }

    /// The owner and the birth of the hold edge, if there is one.
    pub fn link(&self) -> Option<Link>
        ensures { result ≡ option_map link_of self.now }
    {
        if self.is_held {
            Some(Link::of(&self.edge))
        } else {
            None
        }
    }

    /// The birth of the hold edge, if it is one of this thread.
    pub fn birth_held_by(&self, t: Tid) -> Option<u32>
        ensures { result ≡ option_map (λ (e : Edge). e.birth) (held_by t.0 self.now) }
    {
        if self.is_held && self.edge.t.0 == t.0 {
            Some(self.edge.birth)
        } else {
            None
        }
    }

    /// Whether a thread may take the lock at once, where it is held so often.
    pub fn may_be_taken(&self, t: Tid, count: u8) -> bool
        ensures { result ≡ may_take_by t.0 self.now count }
    {
        !self.is_held || (self.edge.t.0 == t.0 && count < MOST_HOLDS)
    }
}
