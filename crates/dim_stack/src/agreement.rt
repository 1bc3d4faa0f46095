//! How far two stacks agree.
ghost use Rattle.std.specs.Prelude.{◌≡◌, ◌≤◌, ◌↔◌, IsTrue, take};
ghost use Rattle.std.specs.Cmp.Lexicographic.{pointwise};
ghost use Rattle.dim_stack.specs.Agree.{Agree};
ghost use Rattle.dim_stack.specs.Order.{frame_eq};

use crate::Stack;
use crate::order::same_frames;

/// Whether the first `depth` frames of two stacks are equal; `depth` is from 1 to 32.
///
/// A stack with fewer frames than that agrees only with an equal stack.
pub fn agree(depth: u8, a: &Stack, b: &Stack) -> bool
    requires low { 1 ≤ depth }
    requires high { depth ≤ 32 }
    ensures agree { IsTrue result ↔ Agree depth a.now b.now }
    ensures value { result ≡ pointwise frame_eq (take depth a.now) (take depth b.now) }
{
    same_frames(a.top(depth as usize), b.top(depth as usize))
}
