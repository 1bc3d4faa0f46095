//! How a domain is opened.
ghost use Rattle.std.specs.Prelude.{◌≡◌, ℕ, ◌+◌, ◌*◌, ◌<◌, ◌≤◌, All, [], length, map, slice_get, vec_capacity, None, Some, IfErr, IfOk};
ghost use Rattle.dim_gate.specs.Gate.{constants, first_gate};
ghost use Rattle.dim_turn.specs.Passes.{seen_of};
ghost use Rattle.dim_run.specs.Gates.{Owns, known, opened};
ghost use Rattle.dim_mutex.specs.Standing.{IsIdle};
ghost use Rattle.dim_mutex.specs.Views.{opening, allowance_of, view_of, constants_of, fresh, AreCallersOf, IsReady};

use super::Domain;
use crate::caller::Caller;
use crate::room::Room;
use dim_base::OutOfMemory;
use dim_gate::GateState;
use dim_run::Pass;
use dim_signature::{Catalogue, MOST_SIGNATURES};
use dim_turn::Turn;
use std::alloc::Global;
use std::sync::Mutex;

/// At most so many signatures are learnt, 16 of cycles and 32 of starvations.
const LEARNS: u32 = 48;

impl Domain {
    /// A domain with an empty history, and its callers, one for each thread, in the order of their
    /// numbers. Nobody holds a lock, and each caller may make `allowance` entries.
    ///
    /// There are 1 to 32 threads and up to 256 locks. At most 4,080 signatures are loaded; what is
    /// learnt has this depth, from 1 to 32. The allowance is from 1 to 65,536.
    pub fn open(
        alloc: Global,
        catalogue: Catalogue,
        locks: u32,
        threads: u32,
        depth: u8,
        allowance: u32,
    ) -> Result<(Domain, Vec<Caller>), OutOfMemory>
        requires few { length catalogue.sigs ≤ 4080 }
        requires locks { locks ≤ 256 }
        requires threads { (1 ≤ threads) × (threads ≤ 32) }
        requires depth { (1 ≤ depth) × (depth ≤ 32) }
        requires allowance { (1 ≤ allowance) × (allowance ≤ 65536) }
        ensures constants { IfOk result (λ r. (opening r.0).constants
            ≡ constants_of threads locks catalogue.sigs depth) }
        ensures empty { IfOk result (λ r. (opening r.0).history ≡ []) }
        ensures each { IfOk result (λ r. (opening r.0).callers ≡ threads) }
        ensures allowance { IfOk result (λ r. allowance_of r.0 ≡ allowance) }
        ensures callers { IfOk result (λ r. AreCallersOf r.0 r.1.items) }
        ensures fresh { IfOk result (λ r. (i : ℕ) (c : _) → slice_get r.1.items i ≡ Some c
            → c.known ≡ fresh (opening r.0) i allowance) }
        ensures idle { IfOk result (λ r. (i : ℕ) (c : _) → slice_get r.1.items i ≡ Some c
            → IsIdle c.known) }
    {
        let mut callers = Vec::with_capacity(alloc, threads as usize)?;
        let room = Room::new(alloc)?;
        let mut gate = gate_of(alloc, catalogue, locks, threads, depth)?;
        gate.reserve(threads * allowance)?;
        match Domain::begin(alloc, gate, room, allowance) {
            Ok((domain, passes)) => {
                seat(passes, &mut callers);
                Ok((domain, callers))
            }
            Err((_gate, error)) => Err(error),
        }
    }

    /// A domain over this gate, whose history and catalogue are what they are, and a pass for each
    /// thread. Where memory runs out, the gate comes back.
    pub(super) fn begin(
        alloc: Global,
        gate: GateState,
        room: Room,
        allowance: u32,
    ) -> Result<(Domain, Vec<Pass>), (GateState, OutOfMemory)>
        requires ready { IsReady gate allowance }
        ensures opening { IfOk result (λ r. opening r.0 ≡ opened gate gate.threads) }
        ensures allowance { IfOk result (λ r. allowance_of r.0 ≡ allowance) }
        ensures each { IfOk result (λ r. length r.1.items ≡ gate.threads) }
        ensures passes { IfOk result (λ r. (i : ℕ) (p : _) → slice_get r.1.items i ≡ Some p
            → Owns r.0.table r.0.start p.seat × (known p ≡ fresh (opening r.0) i allowance)) }
        ensures err { IfErr result (λ e. e.0 ≡ gate) }
    {
        let before = u64::from(gate.tables().len());
        let threads = gate.tables().threads();
        let bound = before + u64::from(threads * allowance);
        match Turn::start(alloc, gate, threads, allowance) {
            Ok((turn, passes)) => {
                let room = Mutex::new(room);
                Ok((Domain { turn, room, bound }, passes))
            }
            Err((gate, error)) => Err((gate, error)),
        }
    }
}

/// The gate of an empty history.
fn gate_of(
    alloc: Global,
    catalogue: Catalogue,
    locks: u32,
    threads: u32,
    depth: u8,
) -> Result<GateState, OutOfMemory>
    requires few { length catalogue.sigs ≤ 4080 }
    requires locks { locks ≤ 256 }
    requires threads { (1 ≤ threads) × (threads ≤ 32) }
    requires depth { (1 ≤ depth) × (depth ≤ 32) }
    ensures { IfOk result
        (λ gate. gate ≡ first_gate None (constants_of threads locks catalogue.sigs depth)) }
{
    let learns = LEARNS.min(MOST_SIGNATURES - catalogue.len());
    GateState::new(alloc, threads, locks, catalogue, depth, learns)
}

/// A caller for each pass, in order, where nothing was entered yet.
fn seat(mut passes: Vec<Pass>, callers: &mut Vec<Caller>)
    requires unused { All (λ p. seen_of p ≡ []) passes.items }
    requires empty { callers.old.items ≡ [] }
    requires room { length passes.items ≤ vec_capacity callers.old }
    ensures { callers.new.items ≡ map view_of passes.items }
{
    while let Some(pass) = passes.pop() {
        callers.push_reserved(Caller::new(pass));
    }
    callers.reverse();
    passes.destroy_empty();
}
