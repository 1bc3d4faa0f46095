//! A machine that goes on by entries that were made before.
ghost use Rattle.std.specs.Prelude.{◌≡◌, ◌≢◌, ◌<◌, ◌≤◌, ◌-◌, ◌↔◌, ◌⊎◌, IsTrue, Some, suc, pos, false, length};
ghost use Rattle.dim_base.specs.declared.Lid.{Lid};
ghost use Rattle.dim_rag.specs.Shown.{shown};
ghost use Rattle.dim_rag.specs.Tables.{thread_of};
ghost use Rattle.dim_vm.specs.Configuration.{is_ended, next_of, rested, moved, moved_by, holding, passed};
ghost use Rattle.dim_vm.specs.Fitting.{FitsEntry, FitsNext, IsWanting, IsRetaking, IsFreeing, IsTrying};
ghost use Rattle.dim_vm.specs.Following.{FitsEnd, IsSafe, IsSpending, Tells, drops_at};
ghost use Rattle.dim_vm.specs.Frames.{stack_of, top_frame};
ghost use Rattle.dim_vm.specs.Steps.{IsFound, told_by};
ghost use Rattle.dim_vm.specs.Table.{Ends, on, pushed, times};
ghost use Rattle.dim_vm.specs.Turns.{released, retaken};

use crate::machine::Machine;
use crate::state::State;
use crate::step::Step;
use dim_asm::Program;
use dim_base::Lid;
use dim_rag::{EntryRef, Why};
use dim_stack::Frame;

impl Machine {
    /// Makes the plain instructions that come next, and then goes on by an entry, if that tells
    /// what it does next. It answers whether it does.
    ///
    /// With a unit left at a LOCK, which is too few to ask, it ends as spent only where it may: a
    /// thread may that runs, or is woken. It takes no memory. One that an entry does not fit may
    /// have done a part, and is of no further use.
    pub fn follow(&mut self, program: &Program, e: &EntryRef<'_>, may_end: bool) -> bool
        ensures fits { IsTrue result
            ↔ FitsEntry program.now (IsTrue may_end) (rested program.now self.old) (shown e.now) }
        ensures moved { IsTrue result
            → self.new ≡ moved program.now (rested program.now self.old) (shown e.now) }
    {
        self.rest(program);
        self.go_on(program, e, may_end)
    }

    /// Makes the plain instructions that come next, and answers whether it then has these calls,
    /// innermost first.
    ///
    /// They are those with which it makes what comes after them, also a Free, whose entry has no
    /// stack. It takes no memory.
    pub fn rests_at(&mut self, program: &Program, stack: &[Frame]) -> bool
        ensures value { self.new ≡ rested program.now self.old }
        ensures calls { IsTrue result
            ↔ (stack.now ≡ stack_of program.now self.new.context.frames) }
    {
        self.rest(program);
        self.has_stack(program, stack)
    }

    /// Makes the plain instructions that come next, which only one that runs has.
    fn rest(&mut self, program: &Program)
        ensures { self.new ≡ rested program.now self.old }
    {
        let State::Running = self.state else {
            return;
        };
        for _ in 0..self.units {
            match self.step(program) {
                Step::Plain => {}
                _ => return,
            }
        }
    }

    /// Goes on by an entry, if that tells what is next.
    fn go_on(&mut self, program: &Program, e: &EntryRef<'_>, may_end: bool) -> bool
        ensures fits { IsTrue result
            ↔ FitsEntry program.now (IsTrue may_end) self.old (shown e.now) }
        ensures moved { IsTrue result → self.new ≡ moved program.now self.old (shown e.now) }
    {
        if !self.may_make(e) {
            return false;
        }
        if self.units == 0 {
            return self.spend(e);
        }
        let step = self.step(program);
        if let Step::Plain = step {
            return false;
        }
        self.go_on_at(program, &step, e, may_end)
    }

    /// Whether it hasn't ended, and an entry is of its thread.
    fn may_make(&self, e: &EntryRef<'_>) -> bool
        ensures { IsTrue result
            ↔ ((is_ended self.now.state ≡ false) × (thread_of (shown e.now) ≡ Some self.now.thread)) }
    {
        match self.state {
            State::Ended { .. } => false,
            _ => self.is_of(e),
        }
    }

    /// Whether an entry is a word of its thread.
    fn is_of(&self, e: &EntryRef<'_>) -> bool
        ensures { IsTrue result ↔ (thread_of (shown e.now) ≡ Some self.now.thread) }
    {
        match e {
            EntryRef::Go { t, .. }
            | EntryRef::Yield { t, .. }
            | EntryRef::Got { t, .. }
            | EntryRef::Free { t, .. }
            | EntryRef::Took { t, .. }
            | EntryRef::MissBusy { t, .. }
            | EntryRef::MissAvoid { t, .. }
            | EntryRef::End { t, .. }
            | EntryRef::Break { t, .. } => *t == self.thread,
            EntryRef::Learn { .. } => false,
        }
    }

    /// Ends as spent, if an entry says so.
    fn spend(&mut self, e: &EntryRef<'_>) -> bool
        ensures fits { IsTrue result ↔ IsSpending (shown e.now) }
        ensures moved { IsTrue result
            → self.new ≡ record self.old { state = State.Ended Why.Spent } }
    {
        match e {
            EntryRef::End {
                why: Why::Spent,
                ..
            } => {
                self.state = State::Ended { why: Why::Spent };
                true
            }
            _ => false,
        }
    }

    /// Goes on by an entry, if that tells of a step, which is next.
    fn go_on_at(&mut self, program: &Program, step: &Step, e: &EntryRef<'_>, may_end: bool) -> bool
        requires units { 1 ≤ self.old.units }
        requires found { IsFound program.now self.old.holds self.old.context
            (told_by self.old.context step.now self.old.context) }
        ensures fits { IsTrue result
            ↔ FitsNext self.old.units (stack_of program.now self.old.context.frames)
            (IsTrue may_end) (shown e.now) (told_by self.old.context step.now self.old.context) }
        ensures moved { IsTrue result
            → self.new
            ≡ moved_by self.old (shown e.now) (told_by self.old.context step.now self.old.context) }
    {
        if !self.fits(program, step, e, may_end) {
            return false;
        }
        self.go_by(step, e);
        true
    }

    /// Whether an entry tells of a step, which is next.
    fn fits(&self, program: &Program, step: &Step, e: &EntryRef<'_>, may_end: bool) -> bool
        ensures { IsTrue result
            ↔ FitsNext self.now.units (stack_of program.now self.now.context.frames)
            (IsTrue may_end) (shown e.now) (told_by self.now.context step.now self.now.context) }
    {
        match e {
            EntryRef::Go { l, stack, .. } | EntryRef::Yield { l, stack, .. } => {
                self.units >= 2 && self.has_stack(program, stack) && self.wants(step, *l)
            }
            EntryRef::Got { l, .. } => self.units >= 1 && self.wants(step, *l),
            EntryRef::Free { l, .. } => self.units >= 1 && self.frees(step, *l),
            EntryRef::Took { l, stack, .. } => {
                self.units >= 1 && self.has_stack(program, stack) && self.takes(step, *l)
            }
            EntryRef::MissBusy { l, stack, .. } | EntryRef::MissAvoid { l, stack, .. } => {
                self.units >= 1 && self.has_stack(program, stack) && self.tries(step, *l)
            }
            EntryRef::End { why, .. } => self.may_end(step, *why, may_end),
            EntryRef::Break { .. } | EntryRef::Learn { .. } => false,
        }
    }

    /// Whether it has these calls.
    fn has_stack(&self, program: &Program, stack: &[Frame]) -> bool
        ensures { IsTrue result ↔ (stack.now ≡ stack_of program.now self.now.context.frames) }
    {
        self.context.frames.is_stack(program, stack)
    }

    /// Whether a step is to take a lock.
    fn wants(&self, step: &Step, l: Lid) -> bool
        ensures { IsTrue result ↔ IsWanting l (told_by self.now.context step.now self.now.context) }
    {
        match step {
            Step::Wants { l: m, .. } => *m == l,
            Step::Plain
            | Step::Ends { .. }
            | Step::Retakes { .. }
            | Step::Frees { .. }
            | Step::Tries { .. } => false,
        }
    }

    /// Whether a step is to free a lock.
    fn frees(&self, step: &Step, l: Lid) -> bool
        ensures { IsTrue result ↔ IsFreeing l (told_by self.now.context step.now self.now.context) }
    {
        match step {
            Step::Frees { l: m, .. } => *m == l,
            Step::Plain
            | Step::Ends { .. }
            | Step::Wants { .. }
            | Step::Retakes { .. }
            | Step::Tries { .. } => false,
        }
    }

    /// Whether a step is to try a lock, or to take it once more.
    fn takes(&self, step: &Step, l: Lid) -> bool
        ensures { IsTrue result ↔ (IsTrying l (told_by self.now.context step.now self.now.context)
            ⊎ IsRetaking l (told_by self.now.context step.now self.now.context)) }
    {
        self.tries(step, l) || self.retakes(step, l)
    }

    /// Whether a step is to take a lock once more.
    fn retakes(&self, step: &Step, l: Lid) -> bool
        ensures { IsTrue result
            ↔ IsRetaking l (told_by self.now.context step.now self.now.context) }
    {
        match step {
            Step::Retakes { l: m, .. } => *m == l,
            Step::Plain
            | Step::Ends { .. }
            | Step::Wants { .. }
            | Step::Frees { .. }
            | Step::Tries { .. } => false,
        }
    }

    /// Whether a step is to try a lock.
    fn tries(&self, step: &Step, l: Lid) -> bool
        ensures { IsTrue result ↔ IsTrying l (told_by self.now.context step.now self.now.context) }
    {
        match step {
            Step::Tries { l: m } => *m == l,
            Step::Plain
            | Step::Ends { .. }
            | Step::Wants { .. }
            | Step::Retakes { .. }
            | Step::Frees { .. } => false,
        }
    }

    /// Whether a step is to take some lock.
    fn is_at_lock(&self, step: &Step) -> bool
        ensures { IsTrue result
            ↔ ((l : Lid) × IsWanting l (told_by self.now.context step.now self.now.context)) }
    {
        match step {
            Step::Wants { .. } => true,
            Step::Plain
            | Step::Ends { .. }
            | Step::Retakes { .. }
            | Step::Frees { .. }
            | Step::Tries { .. } => false,
        }
    }

    /// Whether a step is to end so.
    fn ends(&self, step: &Step, why: Why) -> bool
        ensures { IsTrue result ↔ (told_by self.now.context step.now self.now.context ≡ Ends why) }
    {
        match step {
            Step::Ends { why: k } => *k == why,
            Step::Plain
            | Step::Wants { .. }
            | Step::Retakes { .. }
            | Step::Frees { .. }
            | Step::Tries { .. } => false,
        }
    }

    /// Whether it may end so at a step.
    fn may_end(&self, step: &Step, why: Why, may_end: bool) -> bool
        ensures { IsTrue result
            ↔ FitsEnd self.now.units (IsTrue may_end) why
            (told_by self.now.context step.now self.now.context) }
    {
        match why {
            Why::Spent => self.units == 0 || (self.units == 1 && may_end && self.is_at_lock(step)),
            Why::Done | Why::Trapped { .. } => self.units >= 1 && self.ends(step, why),
        }
    }

    /// Goes on by an entry that tells of a step, which is next.
    fn go_by(&mut self, step: &Step, e: &EntryRef<'_>)
        requires units { 1 ≤ self.old.units }
        requires tells { Tells (shown e.now) (told_by self.old.context step.now self.old.context) }
        requires safe { IsSafe self.old.holds self.old.context step.now }
        ensures { self.new
            ≡ moved_by self.old (shown e.now) (told_by self.old.context step.now self.old.context) }
    {
        match e {
            EntryRef::Go { l, .. } => self.stand(State::Waits { l: *l }),
            EntryRef::Yield { l, .. } => self.stand(State::Yields { l: *l }),
            EntryRef::Got { l, .. } => self.pass(*l, 1, drops(step)),
            EntryRef::Free { l, .. } => self.give_back(*l, drops(step)),
            EntryRef::Took { l, .. } => self.take_by(step, *l),
            EntryRef::MissBusy { .. } | EntryRef::MissAvoid { .. } => self.miss(),
            EntryRef::End { why, .. } => self.state = State::Ended { why: *why },
            EntryRef::Break { .. } | EntryRef::Learn { .. } => {}
        }
    }

    /// Stands otherwise, for a unit.
    fn stand(&mut self, state: State)
        requires { 1 ≤ self.old.units }
        ensures { self.new ≡ record self.old { units = self.old.units - 1; state = state } }
    {
        self.units -= 1;
        self.state = state;
    }

    /// Goes on behind an instruction that gave a lock back, for a unit.
    fn give_back(&mut self, l: Lid, drops: bool)
        requires units { 1 ≤ self.old.units }
        requires lock { l.0 < 256 }
        requires at { (top_frame self.old.context.frames).at < 65536 }
        ensures { self.new ≡ released l drops self.old }
    {
        let times = self.holds[l.0 as usize].saturating_sub(1);
        self.pass(l, times, drops);
    }

    /// Goes on behind a step that took a lock at once, for a unit.
    fn take_by(&mut self, step: &Step, l: Lid)
        requires units { 1 ≤ self.old.units }
        requires tells { IsTrying l (told_by self.old.context step.now self.old.context)
            ⊎ IsRetaking l (told_by self.old.context step.now self.old.context) }
        requires safe { IsSafe self.old.holds self.old.context step.now }
        ensures { self.new ≡ record self.old {
          units = self.old.units - 1;
          state = State.Running;
          holds = holding l (suc (times self.old.holds l.0)) self.old.holds;
          context = passed (told_by self.old.context step.now self.old.context) self.old.context;
        } }
    {
        match step {
            Step::Retakes { drops, .. } => self.take_again(l, *drops),
            Step::Tries { .. } => self.take_tried(l),
            Step::Plain | Step::Ends { .. } | Step::Wants { .. } | Step::Frees { .. } =>
                unreachable!(),
        }
    }

    /// Goes on behind an instruction that took a lock once more, for a unit.
    fn take_again(&mut self, l: Lid, drops: bool)
        requires units { 1 ≤ self.old.units }
        requires lock { l.0 < 256 }
        requires few { times self.old.holds l.0 < 255 }
        requires at { (top_frame self.old.context.frames).at < 65536 }
        ensures { self.new ≡ retaken l drops self.old }
    {
        let times = self.holds[l.0 as usize] + 1;
        self.pass(l, times, drops);
    }

    /// Goes on behind a try that took a lock, for a unit.
    fn take_tried(&mut self, l: Lid)
        requires units { 1 ≤ self.old.units }
        requires lock { l.0 < 256 }
        requires few { times self.old.holds l.0 < 255 }
        requires at { (top_frame self.old.context.frames).at < 65536 }
        requires operands { length self.old.context.operands < 256 }
        ensures { self.new
            ≡ record self.old {
              units = self.old.units - 1;
              state = State.Running;
              holds = holding l (suc (times self.old.holds l.0)) self.old.holds;
              context = on (pushed (pos 1) self.old.context);
            } }
    {
        self.pay();
        self.holds[l.0 as usize] += 1;
        self.context.go_on_with(1);
    }

    /// Goes on behind a try that took none, for a unit.
    fn miss(&mut self)
        requires units { 1 ≤ self.old.units }
        requires at { (top_frame self.old.context.frames).at < 65536 }
        requires operands { length self.old.context.operands < 256 }
        ensures { self.new
            ≡ record self.old {
              units = self.old.units - 1;
              state = State.Running;
              context = on
                  (pushed (pos 0) self.old.context);
            } }
    {
        self.pay();
        self.context.go_on_with(0);
    }
}

/// Whether the lock of a step is the newest operand, which drops.
fn drops(step: &Step) -> bool
    ensures { result ≡ drops_at step.now }
{
    match step {
        Step::Wants { drops, .. } | Step::Retakes { drops, .. } | Step::Frees { drops, .. } => {
            *drops
        }
        Step::Plain | Step::Ends { .. } | Step::Tries { .. } => false,
    }
}
