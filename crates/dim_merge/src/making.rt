//! What is made of two histories: the text that is stored, and the report.
ghost use Rattle.std.specs.Prelude.{◌≡◌, ℕ, List, IfErr, IfOk};
ghost use Rattle.std.specs.String.{string_bytes};
ghost use Rattle.dim_text.specs.Reading.{Gives};
ghost use Rattle.dim_history_file.specs.Seen.{value_of};
ghost use Rattle.dim_history_file.specs.Spelling.{history_text};
ghost use Rattle.dim_merge.specs.Course.{makes};
ghost use Rattle.dim_merge.specs.Made.{counts_seen, made_of};
ghost use Rattle.dim_merge.specs.Merging.{merge_of, told_size};
ghost use Rattle.dim_merge.specs.Report.{counts_of, report_line};
ghost use Rattle.dim_merge.specs.Sources.{IsRead, values_of};
ghost use Rattle.dim_merge.specs.Stops.{IsNoFault, refusal_of};

use crate::sources::Histories;
use crate::stop::Stop;
use crate::{MergeFault, merge};
use dim_base::{Bytes, OutOfMemory};
use dim_history_file::{History, write};
use std::alloc::{AllocError, Global};

/// How many signatures a merged history has, how many of them the second added, and how many of the
/// second's the first knows.
#[derive(Clone, Copy, Debug, PartialEq, Eq)]
pub struct Counts {
    pub signatures: u32,
    pub added: u32,
    pub both: u32,
}

/// What is stored, and what is told of it.
#[derive(Drop)]
pub struct Made {
    pub text: Bytes,
    pub report: Bytes,
}

fn report_text(alloc: Global, counts: Counts) -> Result<String, AllocError>
    ensures { IfOk result (λ text. string_bytes text ≡ report_line (counts_seen counts)) }
{
    let Counts {
        signatures,
        added,
        both,
    } = counts;
    format!(in alloc; "signatures {signatures} added {added} both {both}\n")
}

// A merged history, and how it came to be.
#[derive(Drop)]
struct Merged {
    history: History,
    counts: Counts,
}

// Two histories as one, and what each gave.
fn merge_counted(alloc: Global, both: Histories) -> Result<Merged, MergeFault>
    requires first { IsRead both.first }
    requires second { IsRead both.second }
    ensures sigs { Gives told_size (λ m. value_of m.history) result
        (merge_of (value_of both.first) (value_of both.second)) }
    ensures counts { IfOk result (λ m. counts_seen m.counts
        ≡ counts_of (value_of both.first) (value_of both.second) (value_of m.history)) }
{
    let Histories { first, second } = both;
    let first_has = first.catalogue.len();
    let second_has = second.catalogue.len();
    let history = merge(alloc, first, second)?;
    let signatures = history.catalogue.len();
    let added = signatures - first_has;
    let counts = Counts {
        signatures,
        added,
        both: second_has - added,
    };
    Ok(Merged { history, counts })
}

// The text and the report of a merged history.
fn spelled(alloc: Global, merged: &Merged) -> Result<Made, OutOfMemory>
    ensures text { IfOk result (λ made. made.text ≡ history_text (value_of merged.now.history)) }
    ensures report { IfOk result
        (λ made. made.report ≡ report_line (counts_seen merged.now.counts)) }
{
    let text = write(alloc, &merged.history)?;
    let report = report_text(alloc, merged.counts)?;
    Ok(Made {
        text,
        report: Bytes::from_vec(report.into_bytes()),
    })
}

/// What is made of two histories that were read.
#[tactic(auto, unfolding(crate::specs::Course::makes), using(crate::proofs::Going::no_fault))]
pub fn make(alloc: Global, both: Histories) -> Result<Made, Stop>
    requires first { IsRead both.first }
    requires second { IsRead both.second }
    ensures made { (name : List ℕ)
        → Gives refusal_of (made_of name) result (makes name (values_of both)) }
    ensures faultless { IfErr result IsNoFault }
{
    let merged = merge_counted(alloc, both)?;
    Ok(spelled(alloc, &merged)?)
}
