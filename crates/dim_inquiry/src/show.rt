//! `show`, up to its report.
ghost use Rattle.dim_inquiry.specs.Course.{WhereTold, StopCause, Runs, HasWords};
ghost use Rattle.dim_inquiry.specs.Show.{show_course};

use crate::inputs::{fetch_history, read_history};
use crate::report::Report;
use crate::showing::shown;
use crate::stop::Stop;
use dim_base::{Files, Word};
use std::alloc::Global;

/// Fetches and reads a history, and tells its signatures.
pub fn show<F: Files>(alloc: Global, name: &Word, files: &mut F) -> Result<Report, Stop>
    ensures runs { WhereTold (F.told files.old) (λ before.
        Runs (λ r. r) (show_course before name.now) before result (F.told files.new)) }
    ensures cause { StopCause (F.faults files.old) (F.faults files.new) result }
    ensures words { HasWords result }
{
    let bytes = fetch_history(alloc, files, name)?;
    let history = read_history(alloc, &bytes)?;
    Ok(shown(alloc, &history)?)
}
