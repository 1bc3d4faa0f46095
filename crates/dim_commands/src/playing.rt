//! The run of a program.
ghost use Rattle.std.specs.Prelude.{◌≡◌, IfOk};
ghost use Rattle.dim_rag.specs.History.{past};
ghost use Rattle.dim_run.specs.Gates.{risen};
ghost use Rattle.dim_run.specs.Living.{by_threads};
ghost use Rattle.dim_run.specs.Run.{played};
ghost use Rattle.dim_commands.specs.Whole.{IsMadeOf, MayRun};

use dim_asm::Program;
use dim_base::OutOfMemory;
use dim_gate::laws::immune_law;
use dim_history_file::History;
use dim_inquiry::inputs::Inputs;
use dim_run::laws::{complete_law, spelled_law};
use dim_run::{House, KeptRun, Settings, live_kept, play_kept};
use dim_stack::Names;
use std::alloc::Global;
use std::sync::Wait;
use std::thread::Threads;

/// A run that was made, its program, and the names of its functions.
#[derive(Drop)]
pub struct Made {
    pub program: Program,
    pub names: Names,
    pub run: KeptRun,
}

/// The run of a program with the history that it loads, in one table of names. The signatures of
/// the history move into the run.
pub fn played(alloc: Global, both: Inputs, s: &Settings) -> Result<Made, OutOfMemory>
    requires { MayRun both s.now }
    ensures made { IfOk result (IsMadeOf both s.now) }
    ensures entries { IfOk result
        (λ made. made.run.tables.entries ≡ played made.program both.history.catalogue.sigs s.now) }
{
    immune_law();
    complete_law();
    spelled_law();
    both.program.law();
    both.history.law();
    let Inputs { program, history } = both;
    let History {
        names,
        catalogue,
        ..
    } = history;
    let run = play_kept(alloc, &program, catalogue, s)?;
    Ok(Made {
        program,
        names,
        run,
    })
}

/// The live run of a program with the history that it loads, in one table of names. The signatures
/// of the history move into the run. It may wait.
pub fn lived<H: House, R: Threads + Wait + Sync>(
    rt: &R,
    alloc: Global,
    house: &mut H,
    both: Inputs,
    s: &Settings,
) -> Result<Made, OutOfMemory>
    requires { MayRun both s.now }
    ensures made { IfOk result (IsMadeOf both s.now) }
    ensures count { IfOk result
        (λ made. H.count house.new ≡ risen (by_threads (past made.run.tables.entries))
        (H.count house.old)) }
{
    immune_law();
    complete_law();
    spelled_law();
    both.program.law();
    both.history.law();
    let Inputs { program, history } = both;
    let History {
        names,
        catalogue,
        ..
    } = history;
    let run = live_kept(rt, alloc, house, &program, catalogue, s)?;
    Ok(Made {
        program,
        names,
        run,
    })
}
