//! The calls of a machine.
ghost use Rattle.std.specs.Prelude.{◌≡◌, ◌<◌, ◌≤◌, [], ◌∷◌, length, slice_get, Some, IsTrue, ◌↔◌, Ok, Err, Result};
ghost use Rattle.dim_vm.specs.Frames as frames;
ghost use Rattle.dim_vm.specs.Frames.{top_frame, stack_of};
ghost use Rattle.dim_vm.specs.Tops.{rest};
ghost use Rattle.dim_vm.specs.Trap.{Leaves};

use crate::trap::Trap;
use dim_asm::Program;
use dim_stack::{Frame, Stack};
use std::marker::Model;

/// How many calls there may be.
const CAPACITY: usize = 32;

/// A call: the function, the offset of the instruction that it is at, and its locals.
#[derive(Clone, Copy, Debug)]
pub struct CallFrame {
    pub func: u32,
    pub at: u32,
    pub locals: [i64; 16],
}

/// 1 to 32 calls, of which contracts see the newest first.
#[derive(Drop)]
pub struct Frames {
    len: usize,
    frames: [CallFrame; 32],
}

impl Model for Frames {
    ghost use Rattle.std.specs.Prelude.{List, take, reverse};
    ghost use Rattle.dim_vm.specs.declared.frames.CallFrame.{CallFrame};

    ghost Value = { List CallFrame };

    ghost use Rattle.dim_vm.specs.Frames.{AreFrames};

    ghost view = { λ s. reverse (take s.len s.frames) };

    ghost invariant = { λ s. AreFrames s.len s.frames };
}

/// A call of a function at its first instruction, with its locals 0.
fn entered(func: u32) -> CallFrame
    ensures { result ≡ frames.entered func }
{
    CallFrame {
        func,
        at: 0,
        locals: [0; 16],
    }
}

impl Frames {
    /// One call, at its first instruction.
    pub fn one(func: u32) -> Frames
        ensures { result ≡ frames.entered func ∷ [] }
    {
        Frames {
            len: 1,
            frames: [entered(func); 32],
        }
    }

    /// Whether the newest is the only one.
    pub fn is_outermost(&self) -> bool
        ensures { IsTrue result ↔ (length self.now ≤ 1) }
    {
        self.len <= 1
    }

    /// The newest.
    pub fn top(&self) -> &CallFrame
        ensures { result.now ≡ top_frame self.now }
    {
        &self.frames[self.len - 1]
    }

    /// Puts the newest at an offset.
    pub fn go_to(&mut self, at: u32)
        ensures { self.new ≡ frames.at_offset at self.old }
    {
        self.frames[self.len - 1].at = at;
    }

    /// Puts the newest at its next instruction.
    pub fn advance(&mut self)
        requires { (top_frame self.old).at < 65536 }
        ensures { self.new ≡ frames.advanced self.old }
    {
        self.frames[self.len - 1].at += 1;
    }

    /// A local of the newest.
    pub fn local(&self, i: u32) -> i64
        requires { i < 16 }
        ensures { result ≡ frames.local i self.now }
    {
        self.top().locals[i as usize]
    }

    /// Puts a number into a local of the newest.
    pub fn set_local(&mut self, i: u32, n: i64)
        requires { i < 16 }
        ensures { self.new ≡ frames.with_local i n self.old }
    {
        self.frames[self.len - 1].locals[i as usize] = n;
    }

    /// Calls a function.
    pub fn enter(&mut self, func: u32) -> Result<(), Trap>
        requires { (top_frame self.old).at < 65536 }
        ensures { Leaves (frames.enter func self.old) self.old result self.new }
    {
        if self.len >= CAPACITY {
            return Err(Trap::Depth);
        }
        self.frames[self.len] = entered(func);
        self.len += 1;
        Ok(())
    }

    /// Drops the newest.
    pub fn leave(&mut self)
        requires { 1 < length self.old }
        ensures value { self.new ≡ rest self.old }
        ensures at { (top_frame self.new).at < 65536 }
    {
        self.len -= 1;
    }

    /// The stack of the calls, innermost first.
    pub fn stack(&self, program: &Program) -> Stack
        ensures { result ≡ stack_of program.now self.now }
    {
        let len = self.len;
        let mut stack = Stack::new(&[self.frame(program, 0)]);
        for i in 1..len {
            stack.push(self.frame(program, i));
        }
        stack
    }

    /// Whether this is the stack of the calls, innermost first.
    pub fn is_stack(&self, program: &Program, stack: &[Frame]) -> bool
        ensures { IsTrue result ↔ (stack.now ≡ stack_of program.now self.now) }
    {
        let len = self.len;
        if stack.len() != len {
            return false;
        }
        for i in 0..len {
            if stack[i] != self.frame(program, i) {
                return false;
            }
        }
        true
    }

    /// The frame of a call, of which 0 is the innermost.
    fn frame(&self, program: &Program, i: usize) -> Frame
        requires { i < length self.now }
        ensures { slice_get (stack_of program.now self.now) i ≡ Some result }
    {
        let call = &self.frames[self.len - 1 - i];
        Frame {
            func: program.number(call.func),
            at: call.at,
        }
    }
}
