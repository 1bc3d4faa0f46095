//! A house whose first gate holds its first call until another has come.
use dim_base::OutOfMemory;
use dim_gate::GateState;
use dim_rag::{Command, Reply};
use dim_run::{Gate, House, Pass, TurnHouse};
use std::alloc::Global;
use std::sync::Wait;
use std::sync::atomic::AtomicU64;
use std::sync::atomic::Ordering::SeqCst;

type TurnGate = <TurnHouse as House>::Gate;

/// A gate that counts its calls, and may hold the first one.
pub struct MeetingGate {
    gate: TurnGate,
    holds: bool,
    calls: AtomicU64,
    met: AtomicU64,
}

impl MeetingGate {
    // Holds the first call until another has come, within so many turns.
    fn meet(&self) {
        if self.holds && self.calls.fetch_add(1, SeqCst) == 0 {
            for _ in 0..100_000_000u32 {
                if self.calls.load(SeqCst) > 1 {
                    self.met.store(1, SeqCst);
                    return;
                }
            }
        }
    }
}

impl Gate for MeetingGate {
    ghost use Rattle.dim_turn.specs.Passes.{start_of};

    ghost table = { λ g. g.gate.turn.table.shared.table_id };

    ghost start = { λ g. start_of g.gate.turn };

    fn ask<R: Wait>(&self, rt: &R, pass: &mut Pass, cmd: Command) -> Reply {
        self.meet();
        Gate::ask(&self.gate, rt, pass, cmd)
    }
}

/// A house of such gates, the first of which holds its first call; and whether another came then.
#[derive(Drop)]
pub struct MeetingHouse {
    house: TurnHouse,
    first: bool,
    met: bool,
}

impl MeetingHouse {
    /// A house whose first gate is still to come.
    pub fn new() -> MeetingHouse {
        MeetingHouse {
            house: TurnHouse::new(),
            first: true,
            met: false,
        }
    }

    /// Whether another call came while the first one was held.
    pub fn met(&self) -> bool {
        self.met
    }
}

impl House for MeetingHouse {
    type Gate = MeetingGate;

    ghost count = { λ h. h.house.count };

    fn passed(&self) -> u64 {
        self.house.passed()
    }

    fn start(
        &mut self,
        alloc: Global,
        book: GateState,
        callers: u32,
        allowance: u32,
    ) -> Result<(MeetingGate, Vec<Pass>), (GateState, OutOfMemory)> {
        let holds = self.first;
        self.first = false;
        match House::start(&mut self.house, alloc, book, callers, allowance) {
            Ok((gate, passes)) => Ok((
                MeetingGate {
                    gate,
                    holds,
                    calls: AtomicU64::new(0),
                    met: AtomicU64::new(0),
                },
                passes,
            )),
            Err(refusal) => Err(refusal),
        }
    }

    fn close(&mut self, gate: MeetingGate, passes: Vec<Pass>) -> GateState {
        let MeetingGate {
            gate,
            holds: _,
            calls: _,
            met,
        } = gate;
        self.met |= met.load(SeqCst) == 1;
        House::close(&mut self.house, gate, passes)
    }
}
