//! What the instructions of a thread work on.
ghost use Rattle.std.specs.Prelude.{◌≡◌, ◌<◌, ◌^◌, length};
ghost use Rattle.dim_vm.specs.Frames.{top_frame};
ghost use Rattle.dim_vm.specs.Steps.{gone};
ghost use Rattle.dim_vm.specs.Table.{begun, on, pushed};

use crate::frames::Frames;
use crate::operands::Operands;

/// The calls, the operands, how often something was said, and what was said last.
#[derive(Drop)]
pub struct Context {
    pub frames: Frames,
    pub operands: Operands,
    pub said: u64,
    pub last: i64,
}

impl Context {
    /// At the first instruction of a function, with an argument as the one operand.
    pub fn new(func: u32, argument: i64) -> Context
        ensures { result ≡ begun func argument }
    {
        Context {
            frames: Frames::one(func),
            operands: Operands::one(argument),
            said: 0,
            last: 0,
        }
    }

    /// Goes on with one operand more.
    pub fn go_on_with(&mut self, n: i64)
        requires at { (top_frame self.old.frames).at < 65536 }
        requires room { length self.old.operands < 256 }
        ensures { self.new ≡ on (pushed n self.old) }
    {
        self.operands.put(n);
        self.frames.advance();
    }

    /// Goes on behind an instruction that took or freed a lock, without its operand if it has one.
    pub fn go_past(&mut self, drops: bool)
        requires { (top_frame self.old.frames).at < 65536 }
        ensures { self.new ≡ gone drops self.old }
    {
        if drops {
            let _number = self.operands.pop();
        }
        self.frames.advance();
    }
}
