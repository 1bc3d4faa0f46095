//! From the text of a log to what is made of it.
ghost use Rattle.std.specs.Prelude.{◌≡◌, ◌≤◌, ◌^◌, All, IfOk, Ok, length, vec_len};
ghost use Rattle.dim_asm.specs.Assembling.{program_of};
ghost use Rattle.dim_log.specs.Saying.{log_of};
ghost use Rattle.dim_log.specs.Seen.{log_value};
ghost use Rattle.dim_orders.specs.Own.{IsWithin};
ghost use Rattle.dim_transcribe.specs.Performs.{Performs};
ghost use Rattle.transcribe.specs.Made.{IsMadeOf};

use crate::stop::Stop;
use dim_base::Bytes;
use dim_log::{Log, LogError, read_log};
use dim_orders::{Counts, Kept, keep};
use dim_transcribe::{Transcribe, Transcript, places_text, transcribe};
use std::alloc::Global;

/// What is told of a log and of what is made of it.
#[derive(Clone, Copy, Debug)]
pub struct Summary {
    /// How many threads the program has, and how many operations; 0 where nothing is kept.
    pub threads: usize,
    pub operations: usize,
    pub counts: Counts,
    /// Whether the last line of the log isn't whole.
    pub cut: bool,
    /// How many kept stacks have more frames than the program's.
    pub frames: u32,
}

/// What is made of a log.
#[derive(Drop)]
pub enum Made {
    /// Nothing is kept of it.
    Nothing {
        summary: Summary,
    },
    /// A program, and the table of its places.
    Program {
        text: Bytes,
        places: Bytes,
        summary: Summary,
    },
}

fn summed_up(log: &Log, kept: &Kept, frames: u32) -> Summary {
    let mut operations: usize = 0;
    for chain in kept.chains.iter() {
        operations = operations.saturating_add(chain.operations.len());
    }
    Summary {
        threads: kept.chains.len(),
        operations,
        counts: kept.counts,
        cut: log.cut,
        frames,
    }
}

fn read(alloc: Global, bytes: &Bytes) -> Result<Log, Stop>
    requires { length bytes.now ≤ 2 ^ 29 }
    ensures says { IfOk result (λ log. log_of bytes.now ≡ Ok (log_value log)) }
    ensures within { IfOk result
        (λ log. All (IsWithin (vec_len log.threads)) log.events.items) }
{
    match read_log(alloc, bytes.as_slice()) {
        Ok(log) => Ok(log),
        Err(LogError::Bad(fault)) => Err(Stop::Bad(fault)),
        Err(LogError::OutOfMemory) => Err(Stop::OutOfMemory),
    }
}

fn transcribed(alloc: Global, log: &Log, kept: &Kept) -> Result<Transcript, Stop>
    ensures performs { IfOk result (λ t. Performs t.program t.key log.now kept.now) }
    ensures text { IfOk result (λ t. program_of t.text ≡ Ok t.program) }
{
    match transcribe(alloc, log, kept) {
        Ok(transcript) => Ok(transcript),
        Err(Transcribe::Over { limit, count }) => Err(Stop::Over(limit, count)),
        Err(Transcribe::Unfaithful) => Err(Stop::Unfaithful),
        Err(Transcribe::OutOfMemory) => Err(Stop::OutOfMemory),
    }
}

/// What is made of the text of a log.
pub fn made_of(alloc: Global, bytes: &Bytes) -> Result<Made, Stop>
    requires { length bytes.now ≤ 2 ^ 29 }
    ensures { IfOk result (IsMadeOf bytes.now) }
{
    let log = read(alloc, bytes)?;
    let kept = keep(alloc, &log)?;
    if kept.chains.is_empty() {
        let summary = summed_up(&log, &kept, 0);
        return Ok(Made::Nothing { summary });
    }
    let made = transcribed(alloc, &log, &kept)?;
    let places = places_text(alloc, &made.program, &made.key, &log)?;
    let summary = summed_up(&log, &kept, made.cut);
    Ok(Made::Program {
        text: made.text,
        places,
        summary,
    })
}
