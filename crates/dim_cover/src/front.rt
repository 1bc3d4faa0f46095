//! Stacks by their innermost frame and by their two innermost frames, at which most stacks differ.
ghost use Rattle.std.specs.Prelude.{◌≡◌, ◌<◌, ◌≤◌, length, take};
ghost use Rattle.std.specs.Cmp.Lexicographic.{pointwise};
ghost use Rattle.dim_stack.specs.Order.{frame_eq};
ghost use Rattle.dim_cover.specs.Index.{front, pair, together};

use dim_stack::{Frame, Stack};

/// How many buckets there are.
const BUCKETS: u64 = 4096;

/// The bucket of the innermost frame of a stack.
pub fn front_of(stack: &Stack) -> usize
    ensures bucket { result ≡ front stack.now }
    ensures low { result < 4096 }
{
    let _some = stack.len(); // for the contract: a stack has a frame
    front_in(stack.as_slice())
}

/// The bucket of the first of some frames, of which there is one at least.
pub fn front_in(frames: &[Frame]) -> usize
    requires { 1 ≤ length frames.now }
    ensures bucket { result ≡ front frames.now }
    ensures low { result < 4096 }
{
    let Frame { func, at } = frames[0];
    ((u64::from(func) * 67 + u64::from(at)) % BUCKETS) as usize
}

/// The bucket of the two innermost frames of a stack, or of the one that it has.
pub fn pair_of(stack: &Stack) -> usize
    ensures bucket { result ≡ pair stack.now }
    ensures low { result < 4096 }
{
    let _some = stack.len(); // for the contract: a stack has a frame
    pair_in(stack.as_slice())
}

/// The bucket of the first two of some frames, of which there is one at least.
pub fn pair_in(frames: &[Frame]) -> usize
    requires { 1 ≤ length frames.now }
    ensures bucket { result ≡ pair frames.now }
    ensures low { result < 4096 }
{
    match frames.get(1) {
        Some(second) => together(&frames[0], second),
        None => front_in(frames),
    }
}

/// The bucket of two frames.
fn together(first: &Frame, second: &Frame) -> usize
    ensures bucket { result ≡ together first.now second.now }
    ensures low { result < 4096 }
{
    let inner = u64::from(first.func) * 67 + u64::from(first.at);
    let outer = u64::from(second.func) * 4099 + u64::from(second.at) * 31;
    ((inner + outer) % BUCKETS) as usize
}

/// Whether the innermost frames of two stacks are equal.
pub fn same_front(a: &Stack, b: &Stack) -> bool
    ensures { result ≡ pointwise frame_eq (take 1 a.now) (take 1 b.now) }
{
    same_first(a.as_slice(), b.as_slice())
}

/// Whether the first frames of two lists are equal.
pub fn same_first(a: &[Frame], b: &[Frame]) -> bool
    ensures { result ≡ pointwise frame_eq (take 1 a.now) (take 1 b.now) }
{
    a.first() == b.first()
}

/// Whether two stacks agree at a depth from 1 to 32. It looks at the innermost frames first.
pub fn agree(depth: u8, a: &Stack, b: &Stack) -> bool
    requires low { 1 ≤ depth }
    requires high { depth ≤ 32 }
    ensures { result ≡ pointwise frame_eq (take depth a.now) (take depth b.now) }
{
    same_front(a, b) && dim_stack::agree(depth, a, b)
}
