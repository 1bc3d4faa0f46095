//! Machines take their seats and leave them, and passes are put into the seats and out again.
ghost use Rattle.std.specs.Prelude.{◌≡◌, ◌≤◌, [], length, map, vec_capacity};
ghost use Rattle.dim_run.specs.Seated.{machines_in, passes_in};

use crate::living::gate::Pass;
use crate::living::seat::Seat;
use dim_vm::Machine;
use std::mem::swap;

/// Each machine takes a seat with the pass of its thread, the last one first.
pub(crate) fn take_seats(machines: &mut Vec<Machine>, passes: &mut Vec<Pass>, seats: &mut Vec<Seat>)
    requires each { length passes.old.items ≡ length machines.old.items }
    requires empty { seats.old.items ≡ [] }
    requires room { length machines.old.items ≤ vec_capacity seats.old }
    ensures machines { machines_in seats.new.items ≡ machines.old.items }
    ensures passes { passes_in seats.new.items ≡ passes.old.items }
    ensures empty { (machines.new.items ≡ []) × (passes.new.items ≡ []) }
    ensures room { (vec_capacity machines.new ≡ vec_capacity machines.old)
        × (vec_capacity passes.new ≡ vec_capacity passes.old)
        × (vec_capacity seats.new ≡ vec_capacity seats.old) }
{
    while let Some(machine) = machines.pop() {
        let Some(pass) = passes.pop() else {
            unreachable!()
        };
        seats.push_reserved(Seat { machine, pass });
    }
}

/// Each machine leaves its seat, and so does its pass.
pub(crate) fn leave_seats(
    seats: &mut Vec<Seat>,
    machines: &mut Vec<Machine>,
    passes: &mut Vec<Pass>,
)
    requires empty { (machines.old.items ≡ []) × (passes.old.items ≡ []) }
    requires room { (length seats.old.items ≤ vec_capacity machines.old)
        × (length seats.old.items ≤ vec_capacity passes.old) }
    ensures machines { machines.new.items ≡ machines_in seats.old.items }
    ensures passes { passes.new.items ≡ passes_in seats.old.items }
    ensures empty { seats.new.items ≡ [] }
    ensures room { (vec_capacity machines.new ≡ vec_capacity machines.old)
        × (vec_capacity seats.new ≡ vec_capacity seats.old) }
{
    while let Some(seat) = seats.pop() {
        let Seat { machine, pass } = seat;
        machines.push_reserved(machine);
        passes.push_reserved(pass);
    }
}

/// The pass of each thread goes into its machine's seat, and the one that lay there comes out. No
/// machine is moved.
pub(crate) fn exchange_passes(seats: &mut Vec<Seat>, passes: &mut Vec<Pass>)
    requires each { length seats.old.items ≡ length passes.old.items }
    ensures machines { machines_in seats.new.items ≡ machines_in seats.old.items }
    ensures passes { passes_in seats.new.items ≡ passes.old.items }
    ensures back { passes.new.items ≡ passes_in seats.old.items }
{
    passes.as_mut_slice().reverse();
    swap_passes(seats.as_mut_slice(), passes.as_mut_slice());
    passes.as_mut_slice().reverse();
}

/// Each pass goes into the seat at its place, and the one that lay there comes out.
fn swap_passes(seats: &mut [Seat], passes: &mut [Pass])
    requires each { length seats.old ≡ length passes.old }
    ensures machines { map (λ s. s.machine) seats.new ≡ map (λ s. s.machine) seats.old }
    ensures passes { map (λ s. s.pass) seats.new ≡ passes.old }
    ensures back { passes.new ≡ map (λ s. s.pass) seats.old }
{
    for i in 0..seats.len() {
        swap(&mut seats[i].pass, &mut passes[i]);
    }
}
