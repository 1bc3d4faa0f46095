//! Stacks in order.
ghost use Rattle.std.specs.Prelude.{◌≡◌};
ghost use Rattle.dim_signature.specs.Sorted.{AreSorted, OnlySortedLaw, SameStacksLaw, SortedLaw, sorted};

use dim_stack::Stack;

/// Puts stacks in order, without memory.
pub fn sort_stacks(stacks: &mut [Stack])
    ensures value { stacks.new ≡ sorted stacks.old }
    ensures ordered { AreSorted stacks.new }
{
    stacks.sort_unstable();
}

/// What `sorted` is: the stacks in order, and the only list that is.
pub fn sorted_law()
    ensures ordered { SortedLaw }
    ensures same { SameStacksLaw }
    ensures only { OnlySortedLaw }
{}
