//! How many entries of each kind a run has.
ghost use Rattle.std.specs.Prelude.{◌≡◌, ◌++◌, OnOk};
ghost use Rattle.std.specs.String.{string_bytes};
ghost use Rattle.dim_commands.specs.Report.{count_line, grant_lines, hold_lines, other_lines, count_lines};

use dim_events::Totals;
use std::alloc::AllocError;
use std::fmt::Write;

fn put_count(text: &mut String, word: &str, count: u64) -> Result<(), AllocError>
    ensures { OnOk result
        (string_bytes text.new ≡ string_bytes text.old ++ count_line word.now count) }
{
    writeln!(text, "{word} {count}")
}

fn put_grants(text: &mut String, totals: &Totals) -> Result<(), AllocError>
    ensures { OnOk result
        (string_bytes text.new ≡ string_bytes text.old ++ grant_lines totals.now) }
{
    put_count(text, "go", totals.goes)?;
    put_count(text, "yield", totals.yields)?;
    put_count(text, "got", totals.gots)
}

fn put_holds(text: &mut String, totals: &Totals) -> Result<(), AllocError>
    ensures { OnOk result (string_bytes text.new ≡ string_bytes text.old ++ hold_lines totals.now) }
{
    put_count(text, "free", totals.frees)?;
    put_count(text, "took", totals.takes)?;
    put_count(text, "miss", totals.misses)
}

fn put_others(text: &mut String, totals: &Totals) -> Result<(), AllocError>
    ensures { OnOk result
        (string_bytes text.new ≡ string_bytes text.old ++ other_lines totals.now) }
{
    put_count(text, "end", totals.ends)?;
    put_count(text, "break", totals.breaks)?;
    put_count(text, "learn", totals.learns)
}

/// Appends a line for each kind with the number of its entries.
#[tactic(auto, unfolding(crate::specs::Report::count_lines))]
pub fn put_counts(text: &mut String, totals: &Totals) -> Result<(), AllocError>
    ensures { OnOk result
        (string_bytes text.new ≡ string_bytes text.old ++ count_lines totals.now) }
{
    put_grants(text, totals)?;
    put_holds(text, totals)?;
    put_others(text, totals)
}
