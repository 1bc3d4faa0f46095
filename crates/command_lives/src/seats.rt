//! The seats of a round of two threads, made by hand: a gate with room for six entries, two passes,
//! and the machines at their start.
ghost use Rattle.std.specs.Prelude.{◌≡◌, ℕ, ◌≤◌, ◌<◌, [], slice_index_or, vec_capacity, IfOk};
ghost use Rattle.dim_asm.specs.Code.{thread_count, lock_count};
ghost use Rattle.dim_run.specs.Gates.{Owns, known, opening_of};
ghost use Rattle.dim_run.specs.Seats.{IsSeated};

use dim_asm::Program;
use dim_base::{OutOfMemory, Tid};
use dim_gate::GateState;
use dim_run::{Gate, House, Pass, Seat};
use dim_signature::Catalogue;
use dim_vm::Machine;
use std::alloc::Global;

/// The gate of a program's empty history, with room for each of two callers to make three entries.
pub fn gate_for(alloc: Global, program: &Program) -> Result<GateState, OutOfMemory>
    ensures threads { IfOk result (λ gate. gate.threads ≡ thread_count program.now) }
    ensures locks { IfOk result (λ gate. gate.locks ≡ lock_count program.now) }
    ensures empty { IfOk result (λ gate. gate.entries ≡ []) }
    ensures room { IfOk result (λ gate. 6 ≤ gate.spare) }
{
    let known = Catalogue::new(alloc);
    let mut gate = GateState::new(alloc, program.threads(), program.locks(), known, 4, 16)?;
    gate.reserve(6)?;
    Ok(gate)
}

/// A gate of the house, for a program of two threads, with the passes of both, and the list that
/// they were in.
pub fn begin<H: House>(
    alloc: Global,
    house: &mut H,
    program: &Program,
) -> Result<(H::Gate, Pass, Pass, Vec<Pass>), OutOfMemory>
    ensures threads { IfOk result (λ r. (opening_of (H.Gate.start r.0)).constants.threads
        ≡ thread_count program.now) }
    ensures locks { IfOk result (λ r. (opening_of (H.Gate.start r.0)).constants.locks
        ≡ lock_count program.now) }
    ensures empty { IfOk result (λ r. (opening_of (H.Gate.start r.0)).history ≡ []) }
    ensures callers { IfOk result (λ r. (opening_of (H.Gate.start r.0)).callers ≡ 2) }
    ensures first { IfOk result (λ r. Owns (H.Gate.table r.0) (H.Gate.start r.0) r.1.seat
        × (known r.1 ≡ record { number = 0; seen = []; mine = []; left = 3 })) }
    ensures second { IfOk result (λ r. Owns (H.Gate.table r.0) (H.Gate.start r.0) r.2.seat
        × (known r.2 ≡ record { number = 1; seen = []; mine = []; left = 3 })) }
    ensures list { IfOk result (λ r. (r.3.items ≡ []) × (2 ≤ vec_capacity r.3)) }
{
    let gate = gate_for(alloc, program)?;
    let (gate, mut passes) = match house.start(alloc, gate, 2, 3) {
        Ok(started) => started,
        Err((_gate, error)) => return Err(error),
    };
    let second = passes.pop().unwrap();
    let first = passes.pop().unwrap();
    Ok((gate, first, second, passes))
}

/// The machine of a thread at its start, with the thread's pass, by which nothing was asked yet.
pub fn seat_of<G: Gate>(gate: &G, program: &Program, pass: Pass) -> Seat
    requires low { pass.number < thread_count program.now }
    requires caller { pass.number < (opening_of (G.start gate.now)).callers }
    requires empty { (opening_of (G.start gate.now)).history ≡ [] }
    requires unasked { known pass
        ≡ record { number = pass.number; seen = []; mine = []; left = 3 } }
    ensures pass { result.pass ≡ pass }
    ensures seated { IsSeated program.now (opening_of (G.start gate.now)) result.machine
        (known result.pass) }
{
    let machine = Machine::new(program, Tid(pass.number()), 64);
    Seat { machine, pass }
}

/// Closes a gate whose callers have left these seats.
pub fn finish<H: House>(
    house: &mut H,
    gate: H::Gate,
    seats: [Seat; 2],
    mut passes: Vec<Pass>,
) -> GateState
    requires callers { (opening_of (H.Gate.start gate)).callers ≡ 2 }
    requires owned { (i : ℕ) (d : _) → i < 2
        → Owns (H.Gate.table gate) (H.Gate.start gate) (slice_index_or seats i d).pass.seat }
    requires numbers { (i : ℕ) (d : _) → i < 2 → (slice_index_or seats i d).pass.number ≡ i }
    requires list { (passes.items ≡ []) × (2 ≤ vec_capacity passes) }
{
    let [first, second] = seats;
    passes.push_reserved(first.pass);
    passes.push_reserved(second.pass);
    house.close(gate, passes)
}
