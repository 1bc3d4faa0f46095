//! The rows of the instructions.
ghost use Rattle.std.specs.Prelude.{◌≡◌, ◌<◌, ◌≤◌, ◌^◌, ◌+◌, length, IfOk, true, false};
ghost use Rattle.dim_asm.specs.Code.{IsFine, lock_count, func_count};
ghost use Rattle.dim_vm.specs.Frames.{top_frame};
ghost use Rattle.dim_vm.specs.Steps.{Shows, IsFound, told_by, IsRow, IsAfter};
ghost use Rattle.dim_vm.specs.Table as table;

use crate::context::Context;
use crate::frames::Frames;
use crate::locking::{attempt, free, lock_operand, want};
use crate::step::Step;
use crate::trap::Trap;
use dim_asm::{Op, Program};
use dim_rag::Why;

impl Context {
    /// Makes the next instruction if it is plain, and else shows what it is.
    ///
    /// It is inlined, since a loop of plain instructions would else enter and leave it at each.
    #[inline(always)]
    pub fn step(&mut self, program: &Program, holds: &[u8]) -> Step
        requires said { self.old.said < 2 ^ 63 }
        requires holds { length holds.now ≡ 256 }
        ensures step { Shows self.old (table.next program.now holds.now self.old) result self.new }
        ensures found { IsFound program.now holds.now self.old (told_by self.old result self.new) }
    {
        match self.row_here(program, holds) {
            Ok(step) => step,
            Err(trap) => Step::Ends {
                why: Why::Trapped {
                    trap: trap.number(),
                },
            },
        }
    }

    /// The row of the instruction that is there.
    ///
    /// It is inlined, as `step` is.
    #[inline(always)]
    fn row_here(&mut self, program: &Program, holds: &[u8]) -> Result<Step, Trap>
        requires said { self.old.said < 2 ^ 63 }
        requires holds { length holds.now ≡ 256 }
        ensures row { IsRow self.old (table.row_here program.now holds.now self.old) result
            self.new }
        ensures found { IfOk result
            (λ s. IsFound program.now holds.now self.old (told_by self.old s self.new)) }
    {
        let frame = self.frames.top();
        match program.op(frame.func, frame.at) {
            None => Err(Trap::FellOff),
            Some(op) => self.row(program, holds, op),
        }
    }

    /// The row of an instruction.
    ///
    /// It is inlined, as `step` is.
    #[inline(always)]
    fn row(&mut self, program: &Program, holds: &[u8], op: Op) -> Result<Step, Trap>
        requires said { self.old.said < 2 ^ 63 }
        requires holds { length holds.now ≡ 256 }
        requires at { (top_frame self.old.frames).at < 65536 }
        requires locks { lock_count program.now ≤ 256 }
        requires fine { IsFine (lock_count program.now) (func_count program.now) op }
        ensures { IsRow self.old (table.row program.now holds.now self.old op) result self.new }
    {
        match op {
            Op::Push { n } => self.frames.advance_after(self.operands.push(n)),
            Op::Pop => self.frames.advance_after(self.operands.drop_top()),
            Op::Dup => self.frames.advance_after(self.operands.duplicate()),
            Op::Swap => self.frames.advance_after(self.operands.swap()),
            Op::Add => self.frames.advance_after(self.operands.add()),
            Op::Sub => self.frames.advance_after(self.operands.subtract()),
            Op::Lt => self.frames.advance_after(self.operands.compare_less()),
            Op::Eq => self.frames.advance_after(self.operands.compare_equal()),
            Op::Jmp { k } => self.jump(k),
            Op::Jz { k } => self.jump_if_zero(k),
            Op::GetL { i } => self.get_local(program, i),
            Op::PutL { i } => self.put_local(program, i),
            Op::Call { f } => self.call(f),
            Op::Ret => Ok(self.return_()),
            Op::Lock { l } => want(holds, l, false),
            Op::LockX => want(holds, lock_operand(program, &self.operands)?, true),
            Op::Unlock { l } => free(holds, l, false),
            Op::UnlockX => free(holds, lock_operand(program, &self.operands)?, true),
            Op::TryLock { l } => attempt(holds, l, &self.operands),
            Op::Say => self.say(),
            Op::Halt => Ok(Step::Ends { why: Why::Done }),
        }
    }

    /// JMP.
    fn jump(&mut self, k: u32) -> Result<Step, Trap>
        ensures { IsRow self.old (Ok (table.Plain (table.jump k self.old))) result self.new }
    {
        self.frames.go_to(k);
        Ok(Step::Plain)
    }

    /// JZ.
    fn jump_if_zero(&mut self, k: u32) -> Result<Step, Trap>
        requires { (top_frame self.old.frames).at < 65536 }
        ensures { IsRow self.old (table.jump_if_zero k self.old) result self.new }
    {
        if self.operands.pop()? == 0 {
            self.frames.go_to(k);
        } else {
            self.frames.advance();
        }
        Ok(Step::Plain)
    }

    /// GETL.
    fn get_local(&mut self, program: &Program, i: u32) -> Result<Step, Trap>
        requires { (top_frame self.old.frames).at < 65536 }
        ensures { IsRow self.old (table.get_local program.now i self.old) result self.new }
    {
        self.has_local(program, i)?;
        let n = self.frames.local(i);
        self.frames.advance_after(self.operands.push(n))
    }

    /// PUTL.
    fn put_local(&mut self, program: &Program, i: u32) -> Result<Step, Trap>
        requires { (top_frame self.old.frames).at < 65536 }
        ensures { IsRow self.old (table.put_local program.now i self.old) result self.new }
    {
        self.has_local(program, i)?;
        let n = self.operands.pop()?;
        self.frames.set_local(i, n);
        self.frames.advance();
        Ok(Step::Plain)
    }

    /// Whether the function has a local.
    fn has_local(&self, program: &Program, i: u32) -> Result<(), Trap>
        ensures value { result ≡ table.has_local program.now i self.now }
        ensures few { IfOk result (λ _. i < 16) }
    {
        if i < program.locals(self.frames.top().func) {
            Ok(())
        } else {
            Err(Trap::Local)
        }
    }

    /// CALL.
    fn call(&mut self, f: u32) -> Result<Step, Trap>
        requires { (top_frame self.old.frames).at < 65536 }
        ensures { IsRow self.old (table.call f self.old) result self.new }
    {
        self.frames.enter(f)?;
        Ok(Step::Plain)
    }

    /// RET.
    fn return_(&mut self) -> Step
        ensures { Shows self.old (table.return self.old) result self.new }
    {
        if self.frames.is_outermost() {
            return Step::Ends { why: Why::Done };
        }
        self.frames.leave();
        self.frames.advance();
        Step::Plain
    }

    /// SAY.
    fn say(&mut self) -> Result<Step, Trap>
        requires said { self.old.said < 2 ^ 63 }
        requires at { (top_frame self.old.frames).at < 65536 }
        ensures { IsRow self.old (table.say self.old) result self.new }
    {
        self.last = self.operands.pop()?;
        self.said += 1;
        self.frames.advance();
        Ok(Step::Plain)
    }
}

impl Frames {
    /// Goes on behind an instruction that was made.
    fn advance_after(&mut self, made: Result<(), Trap>) -> Result<Step, Trap>
        requires { (top_frame self.old).at < 65536 }
        ensures { IsAfter self.old made result self.new }
    {
        made?;
        self.advance();
        Ok(Step::Plain)
    }
}
