//! When stacks are equal, and how they are ordered.
ghost use Rattle.std.specs.Prelude.{◌≡◌, ◌↔◌, IsTrue};
ghost use Rattle.std.proofs.Common.{rules};
ghost use Rattle.std.specs.Cmp.{partial_order_from_own_ties};
ghost use Rattle.std.specs.Cmp.Rules.{comparing};
ghost use Rattle.std.specs.Ordering.{as_partial_cmp};
ghost use Rattle.std.specs.Cmp.Lexicographic.{slice_cmp, pointwise};
ghost use Rattle.std.specs.declared.cmp.Ordering.TheVariants.{Less, Equal, Greater};
ghost use Rattle.dim_stack.specs.Order.{frame_eq, frame_cmp, stack_eq-cmp, ComesBefore};

use crate::{Frame, Stack};
use std::cmp::Ordering;

impl PartialEq for Stack {
    ghost eq = { pointwise frame_eq };

    ghost laws = { Prim.search (comparing, rules) };

    fn eq(&self, other: &Stack) -> bool {
        same_frames(self.as_slice(), other.as_slice())
    }
}

impl Eq for Stack {
    ghost laws = { Prim.search (comparing, rules) };
}

impl Ord for Stack {
    ghost cmp = { slice_cmp frame_cmp };

    ghost total = { Prim.search (comparing, rules) };

    ghost matches_partial_cmp = { Prim.search (comparing, rules) };

    ghost matches_eq = { stack_eq-cmp };

    fn cmp(&self, other: &Stack) -> Ordering {
        self.as_slice().cmp(other.as_slice())
    }
}

impl PartialOrd for Stack {
    ghost partial_cmp = { as_partial_cmp (slice_cmp frame_cmp) };

    ghost laws = { partial_order_from_own_ties (Prim.search (comparing, rules)) stack_eq-cmp };

    fn partial_cmp(&self, other: &Stack) -> Option<Ordering> {
        Some(self.cmp(other))
    }
}

/// The order of two stacks: frame by frame, by function and then by offset; a proper prefix comes
/// first.
pub fn compare(a: &Stack, b: &Stack) -> Ordering
    ensures value { result ≡ slice_cmp frame_cmp a.now b.now }
    ensures less { (result ≡ Less) ↔ ComesBefore a.now b.now }
    ensures equal { (result ≡ Equal) ↔ (a.now ≡ b.now) }
    ensures greater { (result ≡ Greater) ↔ ComesBefore b.now a.now }
{
    a.cmp(b)
}

/// Whether two lists of frames are equal.
pub fn same_frames(a: &[Frame], b: &[Frame]) -> bool
    ensures same { IsTrue result ↔ (a.now ≡ b.now) }
    ensures value { result ≡ pointwise frame_eq a.now b.now }
{
    a == b
}
