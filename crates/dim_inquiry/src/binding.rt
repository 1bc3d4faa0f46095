//! A program and a history that share a table of names.
ghost use Rattle.std.specs.Prelude.{◌≡◌, ◌≤◌, ◌++◌, IfOk, OnOk, length};
ghost use Rattle.dim_stack.specs.Names.{HasNames, table_of};
ghost use Rattle.dim_asm.specs.Bound.{own_names, IsBound};
ghost use Rattle.dim_asm.specs.Code.{func_names};
ghost use Rattle.dim_history_file.specs.Grammar.{AreNear};
ghost use Rattle.dim_history_file.specs.Value.{named};
ghost use Rattle.dim_inquiry.specs.Inputs.{inputs_of, IsRead};
ghost use Rattle.dim_inquiry.specs.Inputs.{names_of, program_of, loaded_of};

use crate::inputs::Inputs;
use dim_asm::Program;
use dim_base::OutOfMemory;
use dim_history_file::{History, rename_into};
use dim_stack::{Names, merged_law};
use std::alloc::Global;

// The table of the names of both.
fn names_of(alloc: Global, program: &Program, history: &History) -> Result<Names, OutOfMemory>
    requires few { length history.now.names ≤ 4194304 }
    ensures names { IfOk result
        (λ names. names ≡ table_of (own_names program.now ++ history.now.names)) }
    ensures known { IfOk result (λ names. HasNames names (func_names program.now.funcs)) }
    ensures covers { IfOk result (λ names. HasNames names history.now.names) }
{
    merged_law();
    let own = program.names(alloc)?;
    let names = Names::merge(alloc, &own, &history.names)?;
    Ok(names)
}

/// The program and the history with the numbers that their functions have in one table of the names
/// of both.
pub fn bound(alloc: Global, inputs: Inputs) -> Result<Inputs, OutOfMemory>
    requires { IsRead inputs.history }
    ensures program { IfOk result (λ both. both.program ≡ program_of (inputs_of inputs)) }
    ensures names { IfOk result (λ both. both.history.names ≡ names_of (inputs_of inputs)) }
    ensures loaded { IfOk result
        (λ both. both.history.catalogue.sigs ≡ loaded_of (inputs_of inputs)) }
    ensures numbers { IfOk result (λ both. IsBound both.history.names both.program) }
    ensures near { IfOk result (λ both. AreNear both.history.catalogue.sigs) }
    ensures read { OnOk result (named (names_of (inputs_of inputs)) (loaded_of (inputs_of inputs))
        ≡ (inputs_of inputs).sigs) }
{
    let Inputs {
        mut program,
        history,
    } = inputs;
    let names = names_of(alloc, &program, &history)?;
    program.bind(&names);
    let history = rename_into(alloc, history, names)?;
    history.law();
    Ok(Inputs { program, history })
}
