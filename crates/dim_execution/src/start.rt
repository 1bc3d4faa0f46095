//! The gate and the machines at the start.
ghost use Rattle.std.specs.Prelude.{◌≡◌, ◌≤◌, length, None, IfOk};
ghost use Rattle.dim_asm.specs.Code.{thread_count};
ghost use Rattle.dim_execution.specs.Start.{gate_of, learnable, starts};
ghost use Rattle.dim_gate.specs.Gate.{first_gate};

use dim_asm::Program;
use dim_base::{OutOfMemory, Tid};
use dim_gate::{GateState, LeanGate};
use dim_signature::{Catalogue, MOST_SIGNATURES};
use dim_vm::Machine;
use std::alloc::Global;

/// At most so many signatures are learnt, 16 of cycles and 32 of starvations.
const LEARNS: u32 = 48;

/// The gate of a program at its start, for its threads and its locks: its history is empty, it
/// knows these signatures, of which there are at most 4,080, and has room to learn 48 more, or as
/// many as make 4,096, each of this depth, which is from 1 to 32.
pub fn new_gate(
    alloc: Global,
    program: &Program,
    loaded: Catalogue,
    depth: u8,
) -> Result<GateState, OutOfMemory>
    requires low { 1 ≤ depth }
    requires high { depth ≤ 32 }
    requires few { length loaded.sigs ≤ 4080 }
    ensures { IfOk result (λ gate. gate ≡ first_gate None (gate_of program.now loaded.sigs depth)) }
{
    let learns = learns_beside(&loaded);
    let (threads, locks) = (program.threads(), program.locks());
    GateState::new(alloc, threads, locks, loaded, depth, learns)
}

/// The gate of a program at its start as `new_gate` makes it, but one that keeps no entry.
pub fn new_lean_gate(
    alloc: Global,
    program: &Program,
    loaded: Catalogue,
    depth: u8,
) -> Result<LeanGate, OutOfMemory>
    requires low { 1 ≤ depth }
    requires high { depth ≤ 32 }
    requires few { length loaded.sigs ≤ 4080 }
    ensures { IfOk result (λ gate. gate ≡ first_gate None (gate_of program.now loaded.sigs depth)) }
{
    let learns = learns_beside(&loaded);
    let (threads, locks) = (program.threads(), program.locks());
    LeanGate::new(alloc, threads, locks, loaded, depth, learns)
}

/// How many signatures may be learnt beside those that were loaded, which are at most 4,096.
fn learns_beside(loaded: &Catalogue) -> u32
    requires { length loaded.now.sigs ≤ 4096 }
    ensures { result ≡ learnable (length loaded.now.sigs) }
{
    LEARNS.min(MOST_SIGNATURES - loaded.len())
}

/// The machine of each thread at its start, with so much fuel.
pub fn machines_of(alloc: Global, program: &Program, fuel: u32) -> Result<Vec<Machine>, OutOfMemory>
    ensures { IfOk result
        (λ machines. machines.items ≡ starts program.now fuel (thread_count program.now)) }
{
    let mut machines = Vec::with_capacity(alloc, program.threads() as usize)?;
    for t in 0..program.threads() {
        machines.push(Machine::new(program, Tid(t), fuel))?;
    }
    Ok(machines)
}
