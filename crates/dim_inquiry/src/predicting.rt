//! The report of `predict`.
ghost use Rattle.std.specs.Prelude.{◌≡◌, IfOk};
ghost use Rattle.std.specs.String.{string_bytes};
ghost use Rattle.dim_inquiry.specs.Predict.{foretold_report};

use crate::report::{Ending, Report};
use dim_base::{Bytes, OutOfMemory};
use std::alloc::{AllocError, Global};

fn foretold_text(alloc: Global, candidates: usize, added: u32) -> Result<String, AllocError>
    ensures { IfOk result (λ text. string_bytes text ≡ (foretold_report candidates added).text) }
{
    format!(in alloc; "candidates {candidates} added {added}\n")
}

/// The report of `predict`: how many candidates there are, and how many were added to the history.
pub fn foretold_report(alloc: Global, candidates: usize, added: u32) -> Result<Report, OutOfMemory>
    ensures { IfOk result (λ r. r ≡ foretold_report candidates added) }
{
    let text = foretold_text(alloc, candidates, added)?;
    Ok(Report {
        ending: Ending::Done,
        text: Bytes::from_vec(text.into_bytes()),
    })
}
