//! From what is kept of a log to a program that does it.
ghost use Rattle.std.specs.Prelude.{◌≡◌, Ok, IfOk};
ghost use Rattle.dim_asm.specs.Assembling.{program_of};
ghost use Rattle.dim_transcribe.specs.Performs.{Performs};

use crate::cutting::cut_stacks;
use crate::drafting::{Draft, OWN_FUNCTIONS};
use crate::items::Items;
use crate::moving::Assembled;
use crate::performing::performs;
use crate::printing::text_of;
use crate::sites::Sites;
use crate::transcript::{Limit, Transcribe, Transcript};
use crate::units::over_units;
use dim_asm::assemble;
use dim_base::Bytes;
use dim_log::Log;
use dim_orders::Kept;
use std::alloc::Global;

/// The program that does what is kept of a log.
///
/// Each thread of it makes the operations of a chain, from functions that stand for those of the
/// source; at a try that misses it frees what its section holds and goes on with the next section.
/// It fails with `Over` where a limit of programs is passed, or where a thread needs more than
/// 8,192 units to come to its end alone. Of what it makes it is proved only that the answer does
/// what is kept: each program is played before it is handed out, and one that doesn't is
/// `Unfaithful`. So is a program for no chain at all, since there is none.
pub fn transcribe(alloc: Global, log: &Log, kept: &Kept) -> Result<Transcript, Transcribe>
    ensures performs { IfOk result (λ t. Performs t.program t.key log.now kept.now) }
    ensures text { IfOk result (λ t. program_of t.text ≡ Ok t.program) }
{
    let t = transcribed(alloc, log, kept)?;
    if performs(&t.program, &t.key, log, kept, &t.moves) {
        return Ok(t);
    }
    Err(over_units(&t.program, kept, &t.moves).unwrap_or(Transcribe::Unfaithful))
}

/// A program for what is kept of a log. It isn't said here that it does that.
fn transcribed(alloc: Global, log: &Log, kept: &Kept) -> Result<Transcript, Transcribe>
    ensures { IfOk result (λ t. program_of t.text ≡ Ok t.program) }
{
    within(Limit::Threads, kept.chains.len(), 32)?;
    let items = Items::of(alloc, &kept.chains)?;
    within(Limit::Locks, items.locks.len(), 256)?;
    let sites = Sites::of(alloc, log, &items.steps)?;
    let functions = sites.functions.len().saturating_add(OWN_FUNCTIONS);
    within(Limit::Functions, functions, 256)?;
    let draft = Draft::of(alloc, log, &items, &sites)?;
    within(Limit::Instructions, draft.instructions(), 65536)?;
    let text = text_of(alloc, items.locks.len(), &draft, &items.starts)?;
    let program = assemble(alloc, text.as_bytes())?;
    let made = Assembled {
        program: &program,
        items: &items,
        sites: &sites,
        draft: &draft,
    };
    let key = made.key(alloc)?;
    let moves = made.moves(alloc, log, &kept.chains)?;
    let cut = cut_stacks(alloc, log, kept)?;
    let text = Bytes::from_vec(text.into_bytes());
    Ok(Transcript {
        text,
        program,
        key,
        moves,
        cut,
    })
}

/// Fails where there are more than so many.
fn within(limit: Limit, count: usize, most: usize) -> Result<(), Transcribe> {
    if count > most {
        return Err(Transcribe::Over {
            limit,
            count: count as u64,
        });
    }
    Ok(())
}
