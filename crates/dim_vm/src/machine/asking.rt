//! What a machine asks, one command in each function, and what it does at the reply.
ghost use Rattle.std.specs.Prelude.{◌≡◌, ◌<◌, ◌≤◌, ◌-◌, length};
ghost use Rattle.dim_rag.specs.declared.command.Reply.TheVariants as reply;
ghost use Rattle.dim_vm.specs.Door.{Holds, MayAsk, IsReplyTo, told, IsStop};
ghost use Rattle.dim_vm.specs.Frames.{top_frame};
ghost use Rattle.dim_vm.specs.Table.{times};
ghost use Rattle.dim_vm.specs.Turns.{request_of, attempt_of, asked, acquired, behind_lock, retaken, released, tried};

use crate::door::Door;
use crate::machine::Machine;
use crate::state::State;
use dim_asm::Program;
use dim_base::Lid;
use dim_rag::{Command, Reply, Why};

impl Machine {
    /// Asks for a lock, for a unit.
    pub(super) fn request<D: Door>(&mut self, program: &Program, door: &mut D, l: Lid) -> Reply
        requires room { 1 ≤ (D.seen door.old).left }
        requires units { 1 ≤ self.old.units }
        requires may { MayAsk (D.seen door.old) (request_of program.now self.old l) }
        ensures reply { IsReplyTo (D.seen door.old) (request_of program.now self.old l) result }
        ensures value { self.new ≡ asked l self.old result }
        ensures seen { D.seen door.new ≡ told (D.seen door.old) (request_of program.now self.old l)
            result }
        ensures reaches { D.reaches door.old door.new }
    {
        let stack = self.context.frames.stack(program);
        let reply = door.ask(Command::Request { l, stack });
        self.units -= 1;
        self.state = match &reply {
            Reply::Go => State::Waits { l },
            _ => State::Yields { l },
        };
        reply
    }

    /// Asks whether it has a lock by now, and pays a unit if it has.
    pub(super) fn acquire<D: Door>(&mut self, door: &mut D, l: Lid, drops: bool) -> Reply
        requires room { 1 ≤ (D.seen door.old).left }
        requires units { 1 ≤ self.old.units }
        requires lock { l.0 < 256 }
        requires at { (top_frame self.old.context.frames).at < 65536 }
        requires may { MayAsk (D.seen door.old) (Command.Acquire l) }
        ensures reply { IsReplyTo (D.seen door.old) (Command.Acquire l) result }
        ensures value { self.new ≡ acquired l drops self.old result }
        ensures seen { D.seen door.new ≡ told (D.seen door.old) (Command.Acquire l) result }
        ensures stopped { IsStop result → D.stopped door.new }
        ensures woken { result ≡ reply.Woken → D.woken door.new }
        ensures reaches { D.reaches door.old door.new }
    {
        let mut reply = Reply::Ended;
        door.ask_into(&Command::Acquire { l }, &mut reply);
        if let Reply::Got = &reply {
            self.pass(l, 1, drops);
        }
        reply
    }

    /// Takes a lock that it holds once more, for a unit.
    pub(super) fn retake<D: Door>(&mut self, program: &Program, door: &mut D, l: Lid, drops: bool)
        requires room { 1 ≤ (D.seen door.old).left }
        requires units { 1 ≤ self.old.units }
        requires lock { l.0 < 256 }
        requires few { times self.old.holds l.0 < 255 }
        requires at { (top_frame self.old.context.frames).at < 65536 }
        requires may { MayAsk (D.seen door.old) (request_of program.now self.old l) }
        requires holds { Holds (D.seen door.old) l }
        ensures value { self.new ≡ retaken l drops self.old }
        ensures seen { D.seen door.new ≡ told (D.seen door.old) (request_of program.now self.old l)
            reply.Took }
        ensures reaches { D.reaches door.old door.new }
    {
        let stack = self.context.frames.stack(program);
        let _took = door.ask(Command::Request { l, stack });
        let times = self.holds[l.0 as usize] + 1;
        self.pass(l, times, drops);
    }

    /// Gives a lock back, for a unit.
    pub(super) fn release<D: Door>(&mut self, door: &mut D, l: Lid, drops: bool)
        requires room { 1 ≤ (D.seen door.old).left }
        requires units { 1 ≤ self.old.units }
        requires lock { l.0 < 256 }
        requires at { (top_frame self.old.context.frames).at < 65536 }
        requires may { MayAsk (D.seen door.old) (Command.Release l) }
        ensures value { self.new ≡ released l drops self.old }
        ensures seen { D.seen door.new ≡ told (D.seen door.old) (Command.Release l) reply.Freed }
        ensures reaches { D.reaches door.old door.new }
    {
        let mut freed = Reply::Ended;
        door.ask_into(&Command::Release { l }, &mut freed);
        let times = self.holds[l.0 as usize].saturating_sub(1);
        self.pass(l, times, drops);
    }

    /// Tries to take a lock, for a unit, and goes on with an operand that says whether it has.
    pub(super) fn attempt<D: Door>(&mut self, program: &Program, door: &mut D, l: Lid) -> Reply
        requires room { 1 ≤ (D.seen door.old).left }
        requires units { 1 ≤ self.old.units }
        requires lock { l.0 < 256 }
        requires at { (top_frame self.old.context.frames).at < 65536 }
        requires few { times self.old.holds l.0 < 255 }
        requires operands { length self.old.context.operands < 256 }
        requires may { MayAsk (D.seen door.old) (attempt_of program.now self.old l) }
        ensures reply { IsReplyTo (D.seen door.old) (attempt_of program.now self.old l) result }
        ensures value { self.new ≡ tried l self.old result }
        ensures seen { D.seen door.new ≡ told (D.seen door.old) (attempt_of program.now self.old l)
            result }
        ensures reaches { D.reaches door.old door.new }
    {
        let stack = self.context.frames.stack(program);
        let reply = door.ask(Command::Try { l, stack });
        self.pay();
        match &reply {
            Reply::Took => {
                self.holds[l.0 as usize] += 1;
                self.context.go_on_with(1);
            }
            _ => self.context.go_on_with(0),
        }
        reply
    }

    /// Ends.
    pub(super) fn finish<D: Door>(&mut self, door: &mut D, why: Why)
        requires room { 1 ≤ (D.seen door.old).left }
        requires may { MayAsk (D.seen door.old) (Command.End why) }
        ensures value { self.new ≡ record self.old { state = State.Ended why } }
        ensures seen { D.seen door.new ≡ told (D.seen door.old) (Command.End why) reply.Ended }
        ensures woken { D.woken door.old → D.woken door.new }
        ensures reaches { D.reaches door.old door.new }
    {
        let mut ended = Reply::Ended;
        door.ask_into(&Command::End { why }, &mut ended);
        self.state = State::Ended { why };
    }

    /// Goes on behind an instruction that took a lock or gave it back, which it holds so often now.
    pub(super) fn pass(&mut self, l: Lid, times: u8, drops: bool)
        requires units { 1 ≤ self.old.units }
        requires lock { l.0 < 256 }
        requires at { (top_frame self.old.context.frames).at < 65536 }
        ensures { self.new ≡ behind_lock l times drops self.old }
    {
        self.pay();
        self.holds[l.0 as usize] = times;
        self.context.go_past(drops);
    }

    /// Pays a unit for a move after which it asks for nothing.
    pub(super) fn pay(&mut self)
        requires { 1 ≤ self.old.units }
        ensures { self.new ≡ record self.old { units = self.old.units - 1; state = State.Running } }
    {
        self.units -= 1;
        self.state = State::Running;
    }
}
