//! The turns of a machine: a move, an end, or a poll that stops it.
ghost use Rattle.std.specs.Prelude.{◌≡◌, ◌≢◌, ◌≤◌, false};
ghost use Rattle.dim_asm.specs.Code.{lock_count};
ghost use Rattle.dim_vm.specs.Configuration.{is_ended};
ghost use Rattle.dim_vm.specs.Fitting.{FitsMachine};
ghost use Rattle.dim_vm.specs.Steps.{IsFound, told_by};
ghost use Rattle.dim_vm.specs.Turns.{IsStep, Faces, Turned, IsReady};

use crate::door::Door;
use crate::machine::Machine;
use crate::state::{State, Turn};
use crate::step::Step;
use dim_asm::Program;
use dim_base::Lid;
use dim_rag::{Reply, Why};

/// How many units must be left for a request.
const UNITS_OF_REQUEST: u32 = 2;

impl Machine {
    /// Makes a move, or ends, or is stopped.
    pub(super) fn turn<D: Door>(&mut self, program: &Program, door: &mut D) -> Turn
        requires room { 1 ≤ (D.seen door.old).left }
        requires fits { FitsMachine program.now self.old (D.seen door.old).own }
        requires going { is_ended self.old.state ≡ false }
        requires thread { (D.seen door.old).thread ≡ self.old.thread }
        requires locks { (D.seen door.old).locks ≡ lock_count program.now }
        ensures turned { Turned program.now self.old (D.seen door.old) result self.new
            (D.seen door.new) (D.stopped door.new) (D.woken door.new) }
        ensures reaches { D.reaches door.old door.new }
    {
        if self.units == 0 {
            self.finish(door, Why::Spent);
            return Turn::Over;
        }
        match self.step(program) {
            Step::Plain => Turn::Moved,
            Step::Ends { why } => self.end(program, door, why),
            Step::Retakes { l, drops } => self.deepen(program, door, l, drops),
            Step::Frees { l, drops } => self.free(program, door, l, drops),
            Step::Tries { l } => self.take(program, door, l),
            Step::Wants { l, drops } => match self.state {
                State::Running => self.want(program, door, l, drops),
                _ => self.poll(program, door, l, drops),
            },
        }
    }

    /// Makes the next instruction for a unit if it is plain, and else shows what it is.
    ///
    /// It is inlined, since a loop of plain instructions would else enter and leave it at each.
    #[inline(always)]
    pub(super) fn step(&mut self, program: &Program) -> Step
        requires { 1 ≤ self.old.units }
        ensures step { IsStep program.now self.old result self.new }
        ensures found { IsFound program.now self.old.holds self.old.context
            (told_by self.old.context result self.new.context) }
    {
        let step = self.context.step(program, &self.holds);
        if let Step::Plain = step {
            self.units -= 1;
        }
        step
    }

    /// Asks for the lock that it is at, or ends for want of a unit.
    fn want<D: Door>(&mut self, program: &Program, door: &mut D, l: Lid, drops: bool) -> Turn
        requires room { 1 ≤ (D.seen door.old).left }
        requires faces { Faces program.now self.old (D.seen door.old) (Step.Wants l drops) }
        requires free { IsReady self.old.state (D.seen door.old) (D.woken door.old) }
        ensures turned { Turned program.now self.old (D.seen door.old) result self.new
            (D.seen door.new) (D.stopped door.new) (D.woken door.new) }
        ensures going { result ≢ Turn.Stopped }
        ensures reaches { D.reaches door.old door.new }
    {
        if self.units < UNITS_OF_REQUEST {
            self.finish(door, Why::Spent);
            return Turn::Over;
        }
        let _reply = self.request(program, door, l);
        Turn::Moved
    }

    /// Asks whether it has the lock by now that it asked for. One that was woken asks for it again.
    fn poll<D: Door>(&mut self, program: &Program, door: &mut D, l: Lid, drops: bool) -> Turn
        requires room { 1 ≤ (D.seen door.old).left }
        requires faces { Faces program.now self.old (D.seen door.old) (Step.Wants l drops) }
        requires asks { self.old.state ≢ State.Running }
        ensures turned { Turned program.now self.old (D.seen door.old) result self.new
            (D.seen door.new) (D.stopped door.new) (D.woken door.new) }
        ensures reaches { D.reaches door.old door.new }
    {
        match self.acquire(door, l, drops) {
            Reply::Got => Turn::Moved,
            Reply::Woken => self.want(program, door, l, drops),
            _ => Turn::Stopped,
        }
    }

    /// Takes the lock that it is at, which it holds, once more.
    fn deepen<D: Door>(&mut self, program: &Program, door: &mut D, l: Lid, drops: bool) -> Turn
        requires room { 1 ≤ (D.seen door.old).left }
        requires faces { Faces program.now self.old (D.seen door.old) (Step.Retakes l drops) }
        ensures turned { Turned program.now self.old (D.seen door.old) result self.new
            (D.seen door.new) (D.stopped door.new) (D.woken door.new) }
        ensures moved { result ≡ Turn.Moved }
        ensures reaches { D.reaches door.old door.new }
    {
        self.retake(program, door, l, drops);
        Turn::Moved
    }

    /// Gives the lock back that it is at.
    fn free<D: Door>(&mut self, program: &Program, door: &mut D, l: Lid, drops: bool) -> Turn
        requires room { 1 ≤ (D.seen door.old).left }
        requires faces { Faces program.now self.old (D.seen door.old) (Step.Frees l drops) }
        ensures turned { Turned program.now self.old (D.seen door.old) result self.new
            (D.seen door.new) (D.stopped door.new) (D.woken door.new) }
        ensures moved { result ≡ Turn.Moved }
        ensures reaches { D.reaches door.old door.new }
    {
        self.release(door, l, drops);
        Turn::Moved
    }

    /// Tries to take the lock that it is at.
    fn take<D: Door>(&mut self, program: &Program, door: &mut D, l: Lid) -> Turn
        requires room { 1 ≤ (D.seen door.old).left }
        requires faces { Faces program.now self.old (D.seen door.old) (Step.Tries l) }
        ensures turned { Turned program.now self.old (D.seen door.old) result self.new
            (D.seen door.new) (D.stopped door.new) (D.woken door.new) }
        ensures moved { result ≡ Turn.Moved }
        ensures reaches { D.reaches door.old door.new }
    {
        let _reply = self.attempt(program, door, l);
        Turn::Moved
    }

    /// Ends by an instruction or by a trap.
    fn end<D: Door>(&mut self, program: &Program, door: &mut D, why: Why) -> Turn
        requires room { 1 ≤ (D.seen door.old).left }
        requires faces { Faces program.now self.old (D.seen door.old) (Step.Ends why) }
        ensures turned { Turned program.now self.old (D.seen door.old) result self.new
            (D.seen door.new) (D.stopped door.new) (D.woken door.new) }
        ensures over { result ≡ Turn.Over }
        ensures reaches { D.reaches door.old door.new }
    {
        self.finish(door, why);
        Turn::Over
    }
}
