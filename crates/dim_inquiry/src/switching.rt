//! A history with one signature in another state, and the report of `switch`.
ghost use Rattle.std.specs.Prelude.{◌≡◌, ◌<◌, length, IfOk};
ghost use Rattle.std.specs.String.{string_bytes};
ghost use Rattle.dim_history_file.specs.Seen.{value_of};
ghost use Rattle.dim_inquiry.specs.Switch.{switched_at, switched};

use crate::report::{Ending, Report};
use dim_base::{Bytes, OutOfMemory};
use dim_history_file::History;
use dim_text::state_word;
use std::alloc::{AllocError, Global};

/// The history with the signature of this number switched on or off, and all else as it was.
pub fn switched_history(history: History, index: u32, on: bool) -> History
    requires { index < length history.catalogue.sigs }
    ensures { value_of result ≡ switched_at index on (value_of history) }
{
    history.law();
    let History {
        names,
        mut catalogue,
        ..
    } = history;
    catalogue.switch(index, on);
    History { names, catalogue }
}

fn switched_text(alloc: Global, index: u32, on: bool) -> Result<String, AllocError>
    ensures { IfOk result (λ text. string_bytes text ≡ (switched index on).text) }
{
    let state = state_word(on);
    format!(in alloc; "signature {index} {state}\n")
}

/// The report of `switch`: the signature's number and its new state.
pub fn switched(alloc: Global, index: u32, on: bool) -> Result<Report, OutOfMemory>
    ensures { IfOk result (λ r. r ≡ switched index on) }
{
    let text = switched_text(alloc, index, on)?;
    Ok(Report {
        ending: Ending::Done,
        text: Bytes::from_vec(text.into_bytes()),
    })
}
