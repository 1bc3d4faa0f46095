//! What is kept of a thread.
ghost use Rattle.std.specs.Prelude.{◌≡◌, ◌≤◌, length};
ghost use Rattle.dim_rag.specs.declared.entry.Mode.TheVariants.{Allowed, Yielding};
ghost use Rattle.dim_rag.specs.Born.{with_birth};
ghost use Rattle.dim_rag.specs.Rows.{idle_row, edge_in, wished_in, broken, row_may_ask};

use crate::births::Births;
use crate::entry::{Edge, Mode};
use crate::entry_ref::frames_of;
use crate::graph::holder::Holder;
use dim_base::{Lid, Tid};
use dim_stack::{Frame, Stack};

/// What is kept of a thread: its mode, and the stack and the births of its latest request.
#[derive(Clone, Copy)]
pub struct Row {
    pub mode: Mode,
    pub stack: Stack,
    pub births: Births,
}

impl Row {
    /// That of a thread of which there is no word.
    pub fn idle() -> Row
        ensures { result ≡ idle_row }
    {
        Row {
            mode: Mode::Running,
            stack: Stack::new(&[Frame { func: 0, at: 0 }]),
            births: Births::new(&[]),
        }
    }

    /// The allow edge of a thread with this row.
    pub fn allow_edge(&self, t: Tid) -> Option<Edge>
        ensures { result ≡ edge_in t self.now.mode self.now.stack }
    {
        match self.mode {
            Mode::Allowed { l, birth } => Some(Edge {
                t,
                l,
                stack: self.stack,
                birth,
            }),
            _ => None,
        }
    }

    /// The allow edge of a thread with this row, if it has this birth.
    pub fn allow_born(&self, t: Tid, birth: u32) -> Option<Edge>
        ensures { result ≡ with_birth birth (edge_in t self.now.mode self.now.stack) }
    {
        match self.mode {
            Mode::Allowed { birth: born, .. } if born == birth => self.allow_edge(t),
            _ => None,
        }
    }

    /// The edge that a thread with this row gets when it is broken out at a place. None exactly where
    /// it doesn't yield.
    pub fn wished_edge(&self, t: Tid, place: u32) -> Option<Edge>
        ensures { result ≡ wished_in t place self.now.mode self.now.stack }
    {
        match self.mode {
            Mode::Yielding { l, .. } => Some(Edge {
                t,
                l,
                stack: self.stack,
                birth: place,
            }),
            _ => None,
        }
    }

    /// Whether a thread with this row runs, or yields on this lock with this stack.
    pub fn may_ask(&self, l: Lid, stack: &Stack) -> bool
        ensures { result ≡ row_may_ask l stack.now self.now }
    {
        match self.mode {
            Mode::Running => true,
            Mode::Yielding { l: m, .. } => m.0 == l.0 && self.stack == *stack,
            _ => false,
        }
    }

    /// From now on the thread is allowed on a lock, by a grant at a place, with 1 to 32 frames.
    pub fn allow(&mut self, l: Lid, stack: &[Frame], place: u32)
        requires some { 1 ≤ length stack.now }
        requires few { length stack.now ≤ 32 }
        ensures { self.new ≡ record self.old { mode = Allowed l place; stack = stack.now } }
    {
        self.mode = Mode::Allowed { l, birth: place };
        self.stack.set_frames(stack);
    }

    /// From now on the thread yields on a lock, by a Yield at a place, with 1 to 32 frames.
    pub fn hold_back(&mut self, l: Lid, stack: &[Frame], births: &Births, place: u32)
        requires some { 1 ≤ length stack.now }
        requires few { length stack.now ≤ 32 }
        ensures { self.new
            ≡ record { mode = Yielding l place; stack = stack.now; births = births.now } }
    {
        self.mode = Mode::Yielding { l, place };
        self.stack.set_frames(stack);
        self.births = *births;
    }

    /// A thread that yields is allowed what it wants, by a Break at a place.
    pub fn break_out(&mut self, place: u32)
        ensures { self.new ≡ record self.old { mode = broken place self.old.mode } }
    {
        if let Mode::Yielding { l, .. } = self.mode {
            self.mode = Mode::Allowed { l, birth: place };
        }
    }

    /// Writes the allow edge of a thread with this row as the holder of a lock.
    #[inline(always)]
    pub fn hold_allowed(&self, t: Tid, holder: &mut Holder)
        ensures { holder.new ≡ edge_in t self.now.mode self.now.stack }
    {
        match self.mode {
            Mode::Allowed { l, birth } => holder.set(t, l, frames_of(&self.stack), birth),
            _ => holder.clear(),
        }
    }
}
