//! The passes that lie in the seats between two rounds.
ghost use Rattle.std.specs.Prelude.{◌≡◌, ℕ, ◌≤◌, length, slice_get, Some, IfOk};
ghost use Rattle.dim_turn.specs.Passes.{start_of, IsPassOf};

use crate::living::gate::Pass;
use dim_base::OutOfMemory;
use dim_gate::GateState;
use dim_signature::Catalogue;
use dim_turn::Turn;
use std::alloc::Global;

/// A gate that nobody asks, and a pass for each of its callers, in the order of their numbers.
///
/// A machine keeps its seat from round to round, since it is large, and its seat needs a pass. While
/// no gate of the house is open, it is one of these.
pub(crate) fn idle_passes(
    alloc: Global,
    callers: u32,
) -> Result<(Turn<GateState>, Vec<Pass>), OutOfMemory>
    requires some { 1 ≤ callers }
    requires few { callers ≤ 33 }
    ensures count { IfOk result (λ r. length r.1.items ≡ callers) }
    ensures all { IfOk result (λ r. length r.1.items ≡ (start_of r.0).callers) }
    ensures each { IfOk result (λ r. (i : ℕ) (p : _) → slice_get r.1.items i ≡ Some p
        → IsPassOf r.0 p × (p.number ≡ i)) }
{
    let gate = GateState::new(alloc, 1, 1, Catalogue::new(alloc), 1, 0)?;
    match Turn::start(alloc, gate, callers, 0) {
        Ok(started) => Ok(started),
        Err((_gate, _error)) => Err(OutOfMemory),
    }
}
