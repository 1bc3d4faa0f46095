//! Frames and call stacks: how far two stacks agree, and how stacks are ordered.
#![tactic(auto)]

ghost use Rattle.std.specs.Prelude.{◌≡◌, ◌<◌, ◌≤◌, [], ◌∷◌, ◌++◌, length, slice_get, take};

mod agreement;
mod name_laws;
mod names;
mod order;

pub use agreement::agree;
pub use name_laws::{merged_law, name_number_law, name_order_law, table_law};
pub use names::Names;
pub use order::compare;
use std::marker::Model;

/// How many frames a stack has at most.
pub const MOST_FRAMES: usize = 32;

/// A function, by its number, and the offset of an instruction in it.
///
/// Frames are ordered by function, and then by offset.
#[derive(Clone, Copy, Debug, Default, PartialEq, Eq, PartialOrd, Ord)]
pub struct Frame {
    /// The number of the function.
    pub func: u32,
    /// The offset of the instruction in the function, from 0.
    pub at: u32,
}

/// What fills the array of a stack behind its frames.
const NO_FRAMES: [Frame; MOST_FRAMES] = [Frame { func: 0, at: 0 }; MOST_FRAMES];

/// A call stack of 1 to 32 frames, innermost first.
///
/// A contract sees it as the list of its frames. It has a fixed size and is copied like a number.
/// Its order, that of `compare`, is the order of the lists: frame by frame, and a proper prefix
/// comes first.
#[derive(Clone, Copy, Debug)]
pub struct Stack {
    len: usize,
    frames: [Frame; 32],
}

impl Model for Stack {
    ghost use Rattle.std.specs.Prelude.{◌≡◌, ◌≤◌, ◌++◌, ◌-◌, List, length, take, drop, replicate};
    ghost use Rattle.std.proofs.Common.{arith, take-append-drop, length-take-le};
    ghost use Rattle.dim_stack.specs.declared.Frame.{Frame};

    ghost Value = { List Frame };

    ghost use Rattle.dim_base.specs.Filled.{IsFilled, filled_back, len_back};
    ghost use Rattle.dim_stack.specs.Filled.{no_frame};

    ghost view = { λ s. take s.len s.frames };

    ghost invariant = { λ s. (1 ≤ s.len) × IsFilled 32 no_frame s.len s.frames };

    ghost inverse = { λ fs. record { len = length fs; frames = fs ++ replicate (32 - length fs) no_frame } };

    ghost inverse_ok = { λ s h i. record { len = len_back 32 no_frame s.len s.frames h.1 i; frames = filled_back 32 no_frame s.len s.frames h.1 i } };
}

impl Stack {
    /// The stack of 1 to 32 frames, innermost first.
    pub fn new(frames: &[Frame]) -> Stack
        requires few { length frames.now ≤ 32 }
        requires some { 1 ≤ length frames.now }
        ensures { result ≡ frames.now }
    {
        let mut stack = Stack {
            len: 1,
            frames: NO_FRAMES,
        };
        stack.set_frames(frames);
        stack
    }

    /// Becomes another stack. Only the frames that one of the two has are written, since most
    /// stacks are short.
    pub fn set(&mut self, other: &Stack)
        ensures { self.new ≡ other.now }
    {
        let most = self.len.max(other.len);
        self.frames[..most].copy_from_slice(&other.frames[..most]);
        self.len = other.len;
    }

    /// Becomes the stack of 1 to 32 frames. Only the frames that one of the two has are written.
    pub fn set_frames(&mut self, frames: &[Frame])
        requires few { length frames.now ≤ 32 }
        requires some { 1 ≤ length frames.now }
        ensures { self.new ≡ frames.now }
    {
        let len = frames.len();
        self.frames[..len].copy_from_slice(frames);
        if len < self.len {
            self.frames[len..self.len].copy_from_slice(&NO_FRAMES[len..self.len]);
        }
        self.len = len;
    }

    /// Puts a frame behind the others, as the outermost. It has fewer than 32.
    pub fn push(&mut self, frame: Frame)
        requires { length self.old < 32 }
        ensures { self.new ≡ self.old ++ frame ∷ [] }
    {
        self.frames[self.len] = frame;
        self.len += 1;
    }

    /// How many frames it has, from 1 to 32.
    pub fn len(&self) -> u32
        ensures len { result ≡ length self.now }
        ensures few { result ≤ 32 }
        ensures some { 1 ≤ result }
    {
        self.len as u32
    }

    /// The frame at position `i`, where 0 is the innermost. It needs `i` below the length.
    pub fn frame(&self, i: u32) -> Frame
        requires { i < length self.now }
        ensures { slice_get self.now i ≡ Some result }
    {
        self.frames[i as usize]
    }

    /// The frames, innermost first.
    pub fn as_slice(&self) -> &[Frame]
        ensures { result.now ≡ self.now }
    {
        &self.frames[..self.len]
    }

    /// The first frames, at most `depth` of them.
    fn top(&self, depth: usize) -> &[Frame]
        ensures { result.now ≡ take depth self.now }
    {
        &self.frames[..self.len.min(depth)]
    }
}
