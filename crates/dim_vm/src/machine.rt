//! Machines.
mod asking;
mod following;
mod turns;

ghost use Rattle.std.specs.Prelude.{◌≡◌, ◌<◌, ◌≤◌, ◌+◌, ◌⊎◌, length, []};
ghost use Rattle.dim_asm.specs.Code.{lock_count, thread_count};
ghost use Rattle.dim_rag.specs.History.{past};
ghost use Rattle.dim_vm.specs.Own.{state_by};
ghost use Rattle.dim_vm.specs.Configuration.{start};
ghost use Rattle.dim_vm.specs.Door.{WasStopped};
ghost use Rattle.dim_vm.specs.Fitting.{FitsMachine};
ghost use Rattle.dim_vm.specs.Slice.{IsSlice};

use crate::context::Context;
use crate::door::Door;
use crate::state::{Slice, State, Turn};
use dim_asm::Program;
use dim_base::Tid;
use std::marker::Model;

/// A machine, which runs one thread of a program.
#[derive(Drop)]
pub struct Machine {
    thread: Tid,
    fuel: u32,
    units: u32,
    state: State,
    /// How often it holds each lock.
    holds: [u8; 256],
    context: Context,
}

impl Model for Machine {
    ghost use Rattle.std.specs.Prelude.{◌≡◌, ◌+◌, ◌≤◌, ◌^◌, length};
    ghost use Rattle.dim_vm.specs.Configuration.{Configuration};

    ghost Value = { Configuration };

    ghost view = { λ m. record { thread = m.thread; fuel = m.fuel; units = m.units; state = m.state; holds = m.holds; context = m.context } };

    ghost invariant = { λ m. (length m.holds ≡ 256) × (m.context.said + m.units ≤ 2 ^ 32) };
}

impl Machine {
    /// The machine of a thread of the program at its start: its function at offset 0 with its
    /// argument as the one operand, and so many units.
    pub fn new(program: &Program, t: Tid, fuel: u32) -> Machine
        requires { t.0 < thread_count program.now }
        ensures value { result ≡ start program.now t fuel }
        ensures fits { FitsMachine program.now result [] }
    {
        let (func, argument) = program.start(t);
        Machine {
            thread: t,
            fuel,
            units: fuel,
            state: State::Running,
            holds: [0; 256],
            context: Context::new(func, argument),
        }
    }

    /// How it stands.
    pub fn state(&self) -> State
        ensures { result ≡ self.now.state }
    {
        self.state
    }

    /// The units that it has left.
    pub fn units(&self) -> u32
        ensures { result ≡ self.now.units }
    {
        self.units
    }

    /// How often it has said something.
    pub fn said(&self) -> u64
        ensures { result ≡ self.now.context.said }
    {
        self.context.said
    }

    /// What it said last, or 0.
    pub fn last(&self) -> i64
        ensures { result ≡ self.now.context.last }
    {
        self.context.last
    }

    /// Makes moves: q of them, or as many as there are before it ends or is told Busy or Still.
    /// It takes no memory, and asks for nothing that the gate would refuse.
    pub fn slice<D: Door>(&mut self, program: &Program, door: &mut D, q: u32) -> Slice
        requires some { 1 ≤ q }
        requires room { q + 1 ≤ (D.seen door.old).left }
        requires fits { FitsMachine program.now self.old (D.seen door.old).own }
        requires thread { (D.seen door.old).thread ≡ self.old.thread }
        requires locks { (D.seen door.old).locks ≡ lock_count program.now }

        // the moves, of which `result.moves` is the number, and the End, if there is one
        ensures made { IsSlice program.now self.old (D.seen door.old) q result.moves
            self.new (D.seen door.new) (D.stopped door.new) (D.woken door.new) }
        ensures stops { ((D.seen door.new).stops ≡ (D.seen door.old).stops)
            ⊎ (WasStopped (D.seen door.old) (D.seen door.new) × (result.moves < q)) }
        ensures fits { FitsMachine program.now self.new (D.seen door.new).own }
        ensures state { result.state ≡ self.new.state }
        ensures by_own { result.state ≡ state_by (past (D.seen door.new).own) }

        // what stays
        ensures fuel { self.new.fuel ≡ self.old.fuel }
        ensures thread { ((D.seen door.new).thread ≡ (D.seen door.old).thread)
            × ((D.seen door.new).thread ≡ self.new.thread) }
        ensures locks { (D.seen door.new).locks ≡ (D.seen door.old).locks }
        ensures left { (D.seen door.old).left ≤ (D.seen door.new).left + result.moves + 1 }
        ensures reaches { D.reaches door.old door.new }
    {
        for moves in 0..q {
            if let State::Ended { .. } = self.state {
                return self.slice_of(moves);
            }
            match self.turn(program, door) {
                Turn::Moved => {}
                Turn::Over | Turn::Stopped => return self.slice_of(moves),
            }
        }
        self.slice_of(q)
    }

    /// The slice that made so many moves and ends here.
    fn slice_of(&self, moves: u32) -> Slice
        ensures moves { result.moves ≡ moves }
        ensures state { result.state ≡ self.now.state }
    {
        Slice {
            moves,
            state: self.state,
        }
    }
}
