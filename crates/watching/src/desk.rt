//! A gate with one caller, whose totals others read.
ghost use Rattle.std.specs.Prelude.{◌≡◌, ◌≤◌, IfOk, IsSome};
ghost use Rattle.dim_events.specs.Watching.{IsFresh};
ghost use Rattle.dim_gate.specs.Answer.{MayGive};
ghost use Rattle.dim_gate.specs.Gate.{constants};

use dim_base::{Lid, OutOfMemory};
use dim_events::{Totals, Watch, WatchPass, pair, status};
use dim_gate::GateState;
use dim_rag::{Command, Entry};
use dim_signature::Catalogue;
use dim_stack::{Frame, Stack};
use std::alloc::Global;

/// The number of places of the ring; what it can't take waits behind it.
const RING: u32 = 16;

/// A gate with one thread and one lock that has a feed, and for how many more entries it has room.
#[derive(Drop)]
pub struct Desk {
    gate: GateState,
    left: u32,
    ghost threads: { gate.threads ≡ 1 },
    ghost locks: { gate.locks ≡ 1 },
    ghost room: { left ≤ gate.spare },
    ghost fed: { IsSome gate.feed },
}

impl Desk {
    /// A desk with room for so many entries, and what it takes to watch it.
    pub fn open(alloc: Global, room: u32) -> Result<(Desk, Watch, WatchPass), OutOfMemory>
        ensures { IfOk result (λ made. IsFresh made.1 made.2) }
    {
        let mut gate = GateState::new(alloc, 1, 1, Catalogue::new(alloc), 4, 16)?;
        gate.reserve(room)?;
        let (mut out, _inbox) = pair::<Entry>(alloc, RING)?;
        out.reserve(room)?;
        let (status, watch, mut passes) = status(alloc, 1)?;
        let pass = passes.pop().unwrap();
        gate.attach(out, status);
        Ok((Desk { gate, left: room }, watch, pass))
    }

    /// The caller's command, while there is room.
    fn ask(&mut self, cmd: Command)
        requires { MayGive (constants self.old.gate) 0 cmd }
    {
        if self.left > 0 {
            self.left -= 1;
            self.gate.act(0, cmd);
        }
    }

    /// Takes and frees the lock so often.
    pub fn work(&mut self, rounds: u32) {
        let stack = Stack::new(&[Frame { func: 0, at: 0 }]);
        let l = Lid(0);
        for _ in 0..rounds {
            self.ask(Command::Request { l, stack });
            self.ask(Command::Acquire { l });
            self.ask(Command::Release { l });
        }
    }

    /// How many entries there are of each kind.
    pub fn totals(&mut self) -> Totals {
        self.gate.totals()
    }
}
