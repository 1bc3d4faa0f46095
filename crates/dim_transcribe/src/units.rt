//! How many units the threads of a program need.
ghost use Rattle.std.specs.Prelude.{◌<◌};
ghost use Rattle.dim_asm.specs.Code.{thread_count};

use crate::standing::{ends, makes};
use crate::transcript::{Limit, Move, Transcribe};
use dim_asm::Program;
use dim_base::Tid;
use dim_orders::{Kept, Operation};
use dim_vm::Machine;

/// So many units a thread has, and so many it is given to see how many it needs.
const MOST_UNITS: u32 = 8192;

const PLENTY: u32 = 16777216;

/// That some thread needs more units than it has, and how many the one that needs most does. `None`
/// where none needs more, or one doesn't make its operations whatever it has.
pub fn over_units(program: &Program, kept: &Kept, moves: &[Vec<Move>]) -> Option<Transcribe> {
    let mut most = 0;
    for t in 0..program.threads() {
        let chain = kept.chains.get(t as usize)?;
        let by = moves.get(t as usize)?;
        most = units_of(program, Tid(t), &chain.operations, by)?.max(most);
    }
    over(most)
}

/// That so many units are too many, if they are.
fn over(units: u32) -> Option<Transcribe> {
    if units <= MOST_UNITS {
        return None;
    }
    Some(Transcribe::Over {
        limit: Limit::Units,
        count: units as u64,
    })
}

/// How many units a thread needs to make some operations and to end, one of them for the end.
fn units_of(program: &Program, t: Tid, operations: &[Operation], moves: &[Move]) -> Option<u32>
    requires { t.0 < thread_count program.now }
{
    let mut machine = Machine::new(program, t, PLENTY);
    let mut holds = [0u8; 256];
    for (o, by) in operations.iter().zip(moves.iter()) {
        if !makes(&mut machine, &mut holds, program, t, o.deed, by) {
            return None;
        }
    }
    if !ends(&mut machine, program, t) {
        return None;
    }
    Some(PLENTY.saturating_sub(machine.units()).saturating_add(1))
}
