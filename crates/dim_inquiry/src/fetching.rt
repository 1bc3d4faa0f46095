//! The program and the history that a run loads, fetched and read.
ghost use Rattle.std.specs.Prelude.{◌≡◌, ◌≤◌, length, IfOk};
ghost use Rattle.dim_inquiry.specs.Course.{WhereTold, StopCause, Runs, HasWords};
ghost use Rattle.dim_inquiry.specs.Inputs.{inputs_of, IsRead};
ghost use Rattle.dim_inquiry.specs.Taking.{fetches_inputs, IsTaken};

use crate::calls::fetch_at;
use crate::inputs::{Inputs, PROGRAM_LIMIT, fetch_history, take_inputs};
use crate::stop::{Place, Stop};
use dim_base::{Files, Word};
use std::alloc::Global;

/// Fetches and reads the program and the history that a run loads.
pub fn fetch_inputs<F: Files>(
    alloc: Global,
    files: &mut F,
    program: &Word,
    history: &Word,
) -> Result<Inputs, Stop>
    ensures runs { WhereTold (F.told files.old) (λ before.
        Runs inputs_of (fetches_inputs before program.now history.now) before result (F.told files.new)) }
    ensures taken { IfOk result (λ x. WhereTold (F.told files.old)
        (λ before. IsTaken before program.now history.now (inputs_of x))) }
    ensures kept { F.told files.new ≡ F.told files.old }
    ensures few { IfOk result (λ x. length x.history.catalogue.sigs ≤ 4080) }
    ensures names { IfOk result (λ x. IsRead x.history) }
    ensures cause { StopCause (F.faults files.old) (F.faults files.new) result }
    ensures words { HasWords result }
{
    let program = fetch_at(alloc, files, Place::Program, program, PROGRAM_LIMIT)?;
    let history = fetch_history(alloc, files, history)?;
    take_inputs(alloc, &program, &history)
}
