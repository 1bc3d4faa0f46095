//! From the words to what is stored.
ghost use Rattle.std.specs.Prelude.{IfOk};
ghost use Rattle.transcribe.specs.Made.{IsWorked, WhereTold};

use crate::files::{fetch, store};
use crate::making::{Made, Summary, made_of};
use crate::stop::{Place, Stop};
use crate::words::Command;
use dim_base::Files;
use std::alloc::Global;

/// Fetches and reads a log, makes a program of what is kept of it and the table of its places,
/// stores both, and gives what is to be told. Where nothing is kept nothing is stored.
pub fn work<F: Files>(alloc: Global, command: &Command<'_>, files: &mut F) -> Result<Summary, Stop>
    ensures { IfOk result (λ _. WhereTold (F.told files.old) (IsWorked command.now (F.told files.new))) }
{
    let bytes = fetch(alloc, files, command.log)?;
    match made_of(alloc, &bytes)? {
        Made::Nothing { summary } => Ok(summary),
        Made::Program {
            text,
            places,
            summary,
        } => {
            store(alloc, files, Place::Program, command.program, &text)?;
            store(alloc, files, Place::Places, command.places, &places)?;
            Ok(summary)
        }
    }
}
