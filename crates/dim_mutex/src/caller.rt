//! A caller of a domain.
ghost use Rattle.std.specs.Prelude.{◌≡◌, ◌+◌, ◌<◌, ◌≤◌, [], nat_le, Option, Some, None, IfNone, IsNone};
ghost use Rattle.dim_rag.specs.declared.entry.Mode.TheVariants.{Running};
ghost use Rattle.dim_turn.specs.Passes.{seen_of};
ghost use Rattle.dim_run.specs.Gates.{known};
ghost use Rattle.dim_mutex.specs.Holdings.{KeepsHoldings, Watches};
ghost use Rattle.dim_mutex.specs.Views.{view_of};
ghost use Rattle.dim_mutex.specs.Standing.{holds, is_running, mode_of, owed, wanted};

use crate::holdings::Holdings;
use dim_base::{Lid, Tid};
use dim_monitor::Monitor;
use dim_run::Pass;
use dim_stack::{Frame, Stack};
use std::marker::Model;

mod asking;
mod locking;

/// One thread of a domain: its right to call at the gate, with what it holds and waits for.
///
/// Contracts see what its pass knows: its number, the history that it has seen, its own entries in
/// it, and how many more it may make. What it holds and waits for is what that history says.
#[derive(Drop)]
pub struct Caller {
    pub(crate) pass: Pass,
    pub(crate) own: Holdings,
    /// The domain's monitor, which the first caller carries from one `tend` to the next: it has
    /// taken what the history was when the present turn began.
    pub(crate) monitor: Option<Monitor>,
}

impl Model for Caller {
    ghost use Rattle.dim_run.specs.Gates.{known};
    ghost use Rattle.dim_mutex.specs.Views.{CallerView};
    ghost use Rattle.dim_mutex.specs.Holdings.{KeepsHoldings, Watches};

    ghost Value = { CallerView };

    ghost view = { λ c. record { seat = c.pass.seat; known = known c.pass } };

    ghost invariant = { λ c. KeepsHoldings (known c.pass) c.own × Watches c.monitor (known c.pass).seen };
}

impl Caller {
    /// The caller of a pass that has seen no entry.
    pub(crate) fn new(pass: Pass) -> Caller
        requires { seen_of pass ≡ [] }
        ensures { result ≡ view_of pass }
    {
        let own = Holdings {
            held: [false; 256],
            owed: 0,
            wants: false,
            lock: Lid(0),
            stack: Stack::new(&[Frame { func: 0, at: 0 }]),
        };
        Caller::seated(pass, own)
    }

    /// The caller of a pass, with these holdings.
    pub(crate) fn seated(pass: Pass, own: Holdings) -> Caller
        requires { KeepsHoldings (known pass) own }
        ensures { result ≡ view_of pass }
    {
        Caller {
            pass,
            own,
            monitor: None,
        }
    }

    /// Its pass, once it is done with.
    pub(crate) fn into_pass(self) -> Pass
        ensures { view_of result ≡ self }
    {
        self.pass
    }

    /// Takes the monitor from it, if it carries that.
    pub(crate) fn hand_over(&mut self) -> Option<Monitor>
        ensures same { self.new ≡ self.old }
        ensures watches { Watches result self.old.known.seen }
    {
        self.monitor.take()
    }

    /// Gives it the monitor.
    pub(crate) fn carry(&mut self, monitor: Monitor)
        requires { Watches (Some monitor) self.old.known.seen }
        ensures { self.new ≡ self.old }
    {
        self.monitor = Some(monitor);
    }

    /// What it keeps of how it stands.
    pub(crate) fn holdings(&self) -> Holdings
        ensures { KeepsHoldings self.now.known result }
    {
        self.own
    }

    /// Its thread's number, from 0.
    pub fn number(&self) -> Tid
        ensures { result.0 ≡ self.now.known.number }
    {
        Tid(self.pass.number())
    }

    /// How many entries it may still make.
    pub fn left(&self) -> u32
        ensures { result ≡ self.now.known.left }
    {
        self.pass.left()
    }

    /// Whether it holds a lock.
    pub fn holds(&self, l: Lid) -> bool
        ensures { result ≡ holds l.0 self.now.known }
    {
        match self.own.held.get(l.0 as usize) {
            Some(held) => *held,
            None => false,
        }
    }

    /// How many locks it holds, so how many entries it owes. It may make so many.
    pub fn owed(&self) -> u32
        ensures value { result ≡ owed self.now.known }
        ensures room { result ≤ self.now.known.left }
    {
        let _room = self.pass.left();
        self.own.owed
    }

    /// The lock for which it waits, with the stack at which it asked; none exactly where it runs.
    pub fn pending(&self) -> Option<(Lid, Stack)>
        ensures value { result ≡ wanted self.now.known }
        ensures none { IfNone result (mode_of self.now.known ≡ Running) }
        ensures some { mode_of self.now.known ≡ Running → IsNone result }
    {
        if self.own.wants {
            Some((self.own.lock, self.own.stack))
        } else {
            None
        }
    }

    /// Whether it runs, so waits for no lock.
    pub(crate) fn runs(&self) -> bool
        ensures { result ≡ is_running (mode_of self.now.known) }
    {
        !self.own.wants
    }

    /// Whether it may make so many entries more than it owes.
    pub(crate) fn has_room(&self, entries: u32) -> bool
        ensures { result ≡ nat_le (owed self.now.known + entries) self.now.known.left }
    {
        self.pass.left() - self.own.owed >= entries
    }
}
