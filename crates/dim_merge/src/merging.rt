//! Two histories as one.
ghost use Rattle.std.specs.Prelude.{◌≡◌, ◌+◌, ◌++◌, ◌<◌, ◌^◌, IfOk, length};
ghost use Rattle.dim_stack.specs.Names.{table_of};
ghost use Rattle.dim_text.specs.Reading.{Gives};
ghost use Rattle.dim_history_file.specs.Grammar.{IsHistory};
ghost use Rattle.dim_history_file.specs.Seen.{value_of};
ghost use Rattle.dim_merge.specs.Merging.{merge_of, merged, told_size};

use crate::parts::{joined, parts_of, shared};
use crate::size::check_size;
use dim_base::OutOfMemory;
use dim_history_file::History;
use std::alloc::Global;

/// Why two histories don't become one.
#[derive(Clone, Copy, Debug, PartialEq, Eq)]
pub enum MergeFault {
    /// There would be so many signatures, in a text of so many bytes: more than 4,096, or more than
    /// 6,291,456.
    Full { signatures: u32, bytes: u64 },
    OutOfMemory,
}

impl From<OutOfMemory> for MergeFault {
    ghost use Rattle.std.specs.Prelude.{◌≡◌};
    ghost use Rattle.dim_merge.specs.declared.merging.MergeFault.TheVariants as merges;

    ghost from_gives = { λ _ e. e ≡ merges.OutOfMemory };

    fn from(_e: OutOfMemory) -> MergeFault {
        MergeFault::OutOfMemory
    }
}

/// The history that knows what either knows: the first's signatures in their order, each with the
/// yields that both count for its stacks, at most 4,294,967,295, and behind them those of the
/// second whose stacks the first doesn't have, in their order. A signature that both know keeps the
/// depth and the state that it has in the first.
///
/// `Full` comes exactly where there would be more than 4,096 signatures, or a text of more than
/// 6,291,456 bytes, which no run loads. It takes as long as both texts take to be written, and for
/// each signature a search in the other history.
pub fn merge(alloc: Global, first: History, second: History) -> Result<History, MergeFault>
    requires few { length first.names + length second.names < 2 ^ 32 }
    ensures merged { IfOk result (λ h. value_of h ≡ merged (value_of first) (value_of second)) }
    ensures exact { Gives told_size value_of result (merge_of (value_of first) (value_of second)) }
    ensures names { IfOk result (λ h. h.names ≡ table_of (first.names ++ second.names)) }
    ensures history { IsHistory (value_of first) → IsHistory (value_of second)
        → IfOk result (λ h. IsHistory (value_of h)) }
{
    let both = shared(alloc, first, second)?;
    let parts = parts_of(alloc, both)?;
    check_size(alloc, &parts)?;
    Ok(joined(alloc, parts)?)
}
