//! What a run leaves: its texts, and its report beside them.
ghost use Rattle.std.specs.Prelude.{◌≡◌, List, length, map, IfOk, OnOk, Ok};
ghost use Rattle.dim_asm.specs.Bound.{IsBound};
ghost use Rattle.dim_events.specs.Kinds.{totals_of};
ghost use Rattle.dim_gate.specs.Kinds.{kind_of};
ghost use Rattle.dim_history_file.specs.Grammar.{AreNear};
ghost use Rattle.dim_history_file.specs.Judging.{history_of};
ghost use Rattle.dim_history_file.specs.Seen.{value_of};
ghost use Rattle.dim_history_file.specs.Spelling.{history_text};
ghost use Rattle.dim_history_file.specs.Value.{named};
ghost use Rattle.dim_run.specs.Spelled.{AreSpelled};
ghost use Rattle.dim_schedule.specs.Settings.{AreSettings};
ghost use Rattle.dim_signature.specs.Sig.{Sig};
ghost use Rattle.dim_trace.specs.Text.{trace_text};
ghost use Rattle.dim_commands.specs.Lawful.{IsTraceable, ReadsBack};
ghost use Rattle.dim_commands.specs.Report.{ran};

use crate::playing::Made;
use crate::ran::ran;
use crate::storing::{Output, RunTexts};
use dim_asm::Program;
use dim_base::OutOfMemory;
use dim_history_file::{History, write};
use dim_rag::Tables;
use dim_run::{KeptRun, Settings};
use dim_signature::Catalogue;
use dim_stack::Names;
use dim_trace::{entries_law, length_law, reading_law, write_tables};
use std::alloc::Global;

/// The texts of a history that is left, and of the trace of a run with the entries of these tables.
pub fn texts_of(
    alloc: Global,
    program: &Program,
    history: &History,
    tables: &Tables,
    s: &Settings,
) -> Result<RunTexts, OutOfMemory>
    requires settings { AreSettings s.now }
    requires bound { IsBound history.now.names program.now }
    requires near { AreNear history.now.catalogue.sigs }
    ensures history { IfOk result
        (λ texts. texts.new_history ≡ history_text (value_of history.now)) }
    ensures trace { IfOk result
        (λ texts. texts.trace ≡ trace_text program.now history.now.names s.now.fuel s.now.depth
        tables.now.entries) }
    ensures again { OnOk result
        (history_of (history_text (value_of history.now)) ≡ Ok (value_of history.now)) }
    ensures trace_again { OnOk result ((loaded : List Sig)
        → IsTraceable program.now loaded s.now tables.now.entries
        → ReadsBack program.now history.now.names s.now tables.now.entries) }
{
    reading_law();
    entries_law();
    length_law();
    program.law();
    history.law();
    let trace = write_tables(alloc, program, &history.names, s.fuel, s.depth, tables)?;
    let new_history = write(alloc, history)?;
    Ok(RunTexts { new_history, trace })
}

// The history of some signatures, and of a table with the names of their functions.
fn kept(names: Names, catalogue: Catalogue) -> History
    requires { AreSpelled names catalogue.sigs }
    ensures names { result.names ≡ names }
    ensures value { value_of result ≡ named names catalogue.sigs }
    ensures near { AreNear result.catalogue.sigs }
{
    History { names, catalogue }
}

/// What is written of a run that was made: the history that it leaves, its trace and its report.
/// The names and the signatures move into that history.
pub fn output_of(alloc: Global, made: Made, s: &Settings) -> Result<Output, OutOfMemory>
    requires settings { AreSettings s.now }
    requires bound { IsBound made.names made.program }
    requires spelled { AreSpelled made.names made.run.catalogue.sigs }
    requires totals { made.run.totals ≡ totals_of (map kind_of made.run.tables.entries) }
    ensures history { IfOk result (λ output. output.texts.new_history
        ≡ history_text (named made.names made.run.catalogue.sigs)) }
    ensures trace { IfOk result
        (λ output. output.texts.trace ≡ trace_text made.program made.names s.now.fuel s.now.depth
        made.run.tables.entries) }
    ensures report { IfOk result
        (λ output. output.report ≡ ran made.program made.run.outcome made.run.tables.entries
        (length made.run.catalogue.sigs) made.run.ends.items) }
    ensures again { OnOk result
        (history_of (history_text (named made.names made.run.catalogue.sigs))
        ≡ Ok (named made.names made.run.catalogue.sigs)) }
    ensures trace_again { OnOk result ((loaded : List Sig)
        → IsTraceable made.program loaded s.now made.run.tables.entries
        → ReadsBack made.program made.names s.now made.run.tables.entries) }
{
    let Made {
        program,
        names,
        run,
    } = made;
    let report = ran(alloc, &program, &run)?;
    let KeptRun {
        tables,
        catalogue,
        ..
    } = run;
    let history = kept(names, catalogue);
    let texts = texts_of(alloc, &program, &history, &tables, s)?;
    Ok(Output { texts, report })
}
