//! The least depths of the signatures with which a trace was made.
ghost use Rattle.std.specs.Prelude.{◌≡◌, ◌≤◌, length, IfOk};
ghost use Rattle.dim_rag.specs.History.{past};
ghost use Rattle.dim_execution.specs.Executes.{Executes};
ghost use Rattle.dim_execution.specs.Start.{gate_of};
ghost use Rattle.dim_tune.specs.Depths.{AreLeastDepths};
ghost use Rattle.dim_tune.specs.Found.{least_depths};

use crate::following::Follower;
use crate::innermost::Innermost;
use crate::laws::depth_law;
use dim_asm::Program;
use dim_base::OutOfMemory;
use dim_gate::laws::legal_law;
use dim_history_file::History;
use dim_trace::{KeptTrace, Trace};
use std::alloc::Global;

/// For each signature of a history, in order, the least depth from 1 to its own at which the
/// entries of a trace are legal, where this signature has that depth and all else stays.
///
/// It needs a trace whose entries execute the program on the history, so one to which `check_kept`
/// says Yes, with at most 1,048,576 entries. The entries are followed once: at each that a cover
/// was looked for, the signatures that have a stack with the same innermost frame, and not their
/// own depth yet, are tried at the least depth that was good so far, and raised until the entry is
/// what it was. One that is switched off never names anything, so its least depth is 1. The rules
/// stand in docs/rules.md, under "Least depths".
pub fn depths_kept(
    alloc: Global,
    program: &Program,
    history: &History,
    trace: &KeptTrace,
) -> Result<Vec<u8>, OutOfMemory>
    requires executes { Executes
        (gate_of program.now history.now.catalogue.sigs trace.now.depth) program.now
        trace.now.fuel trace.now.entries }
    requires short { length trace.now.entries ≤ 1048576 }
    ensures least { IfOk result (λ depths. AreLeastDepths
        (gate_of program.now history.now.catalogue.sigs trace.now.depth)
        (past trace.now.entries) depths.items) }
    ensures value { IfOk result (λ depths. depths.items
        ≡ least_depths (gate_of program.now history.now.catalogue.sigs trace.now.depth)
        (past trace.now.entries)) }
{
    legal_law();
    depth_law();
    let loaded = &history.catalogue;
    let innermost = Innermost::of(alloc, loaded)?;
    let mut follower = Follower::new(alloc, program, loaded, trace.len())?;
    follower.follow_all(alloc, loaded, &innermost, trace)?;
    follower.depths(alloc)
}

/// What `depths_kept` answers of a trace whose entries are in a list, of which it makes a brief
/// copy.
pub fn depths(
    alloc: Global,
    program: &Program,
    history: &History,
    trace: &Trace,
) -> Result<Vec<u8>, OutOfMemory>
    requires executes { Executes
        (gate_of program.now history.now.catalogue.sigs trace.now.depth) program.now
        trace.now.fuel trace.now.entries.items }
    requires short { length trace.now.entries.items ≤ 1048576 }
    ensures least { IfOk result (λ depths. AreLeastDepths
        (gate_of program.now history.now.catalogue.sigs trace.now.depth)
        (past trace.now.entries.items) depths.items) }
    ensures value { IfOk result (λ depths. depths.items
        ≡ least_depths (gate_of program.now history.now.catalogue.sigs trace.now.depth)
        (past trace.now.entries.items)) }
{
    depths_kept(alloc, program, history, &KeptTrace::of(alloc, trace)?)
}
