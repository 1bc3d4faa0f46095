//! Attempts, each from the signatures that the one before leaves.
ghost use Rattle.std.specs.Prelude.{◌≡◌, ℕ, suc, ◌≤◌, List, length, IfOk};
ghost use Rattle.dim_asm.specs.Bound.{IsBound};
ghost use Rattle.dim_asm.specs.Code.{Code};
ghost use Rattle.dim_signature.specs.Sig.{Sig};
ghost use Rattle.dim_history_file.specs.Grammar.{AreNear};
ghost use Rattle.dim_schedule.specs.declared.settings.Settings.{Settings};
ghost use Rattle.dim_schedule.specs.Settings.{AreSettings};
ghost use Rattle.dim_tune.specs.Attempts.{attempts_of, sigs_after, AreAttempts};
ghost use Rattle.dim_tune.specs.Made.{AreDone, AreKept};
ghost use Rattle.dim_tune.specs.Runs.{IsKeptRun, IsRun};

use crate::attempt::{Immunized, KeptImmunized};
use crate::making::{Made, Rest, make_all};
use dim_asm::Program;
use dim_base::OutOfMemory;
use dim_history_file::History;
use dim_run::{KeptRun, Settings};
use dim_stack::Names;
use std::alloc::Global;

/// How many bytes the room has that is asked for before the first attempt. An attempt of up to some
/// 200,000 entries takes less.
const ROOM: usize = 16 * 1024 * 1024;

/// Runs a program again and again, first from the signatures of a history, and then each time from
/// those that the run before left. It goes on while a run ends deadlocked and has learnt, and what
/// it leaves has at most 4,080 signatures and a text of at most 6,291,456 bytes; and there are at
/// most so many attempts, from 1 to 64.
///
/// Each run is that of `play_kept` with the settings. The program is bound to the names of the
/// history, which has at most 4,080 signatures and no offset above 65,535. The history answered has
/// the same names. The rules stand in docs/rules.md, under "Repeated attempts".
///
/// The names and the program stay where they are. Each run takes a copy of the signatures, and
/// those that it leaves go on to the next; they are copied once more at the end, so that both the
/// run and the history have them. Of the runs only the last one is kept.
pub fn immunize_kept(
    alloc: Global,
    program: &Program,
    history: History,
    s: &Settings,
    attempts: u32,
) -> Result<KeptImmunized, OutOfMemory>
    requires settings { AreSettings s.now }
    requires few { length history.catalogue.sigs ≤ 4080 }
    requires bound { IsBound history.names program.now }
    requires near { AreNear history.catalogue.sigs }
    requires some { 1 ≤ attempts }
    requires most { attempts ≤ 64 }
    ensures attempts { IfOk result (λ made. AreAttempts history.names program.now s.now
        history.catalogue.sigs attempts (length made.lines.items)) }
    ensures lines { IfOk result (λ made. made.lines.items
        ≡ attempts_of program.now s.now history.catalogue.sigs (length made.lines.items)) }
    ensures run { IfOk result (λ made. (i : ℕ) → suc i ≡ length made.lines.items
        → IsKeptRun program.now (sigs_after program.now s.now history.catalogue.sigs i) s.now
        made.run) }
    ensures names { IfOk result (λ made. made.history.names ≡ history.names) }
    ensures signatures { IfOk result (λ made. made.history.catalogue.sigs
        ≡ sigs_after program.now s.now history.catalogue.sigs (length made.lines.items)) }
    ensures near { IfOk result (λ made. AreNear made.history.catalogue.sigs) }
{
    warm_up(alloc)?;
    let lines = Vec::new(alloc);
    let mut made = Made { lines, history };
    let last = make_all(alloc, &mut made, program, s, attempts)?;
    ended(alloc, made, last)
}

/// Asks for room once and gives it back, before the first attempt.
///
/// A system's allocator takes that as the measure of what to keep. So what an attempt gives back
/// stays for the next one, and isn't handed back to the system, which would clear it again for each
/// attempt.
fn warm_up(alloc: Global) -> Result<(), OutOfMemory> {
    let _room: Vec<u8> = Vec::with_capacity(alloc, ROOM)?;
    Ok(())
}

/// Makes the attempts that `immunize_kept` makes, on a copy of the history, and lists the entries
/// of the last run, which takes more than 400 bytes for each.
pub fn immunize(
    alloc: Global,
    program: &Program,
    history: &History,
    s: &Settings,
    attempts: u32,
) -> Result<Immunized, OutOfMemory>
    requires settings { AreSettings s.now }
    requires few { length history.now.catalogue.sigs ≤ 4080 }
    requires bound { IsBound history.now.names program.now }
    requires near { AreNear history.now.catalogue.sigs }
    requires some { 1 ≤ attempts }
    requires most { attempts ≤ 64 }
    ensures attempts { IfOk result (λ made. AreAttempts history.now.names program.now s.now
        history.now.catalogue.sigs attempts (length made.lines.items)) }
    ensures lines { IfOk result (λ made. made.lines.items
        ≡ attempts_of program.now s.now history.now.catalogue.sigs (length made.lines.items)) }
    ensures run { IfOk result (λ made. (i : ℕ) → suc i ≡ length made.lines.items
        → IsRun program.now (sigs_after program.now s.now history.now.catalogue.sigs i) s.now
        made.run) }
    ensures names { IfOk result (λ made. made.history.names ≡ history.now.names) }
    ensures signatures { IfOk result (λ made. made.history.catalogue.sigs
        ≡ sigs_after program.now s.now history.now.catalogue.sigs (length made.lines.items)) }
    ensures near { IfOk result (λ made. AreNear made.history.catalogue.sigs) }
{
    let own = copied(alloc, history)?;
    let made = immunize_kept(alloc, program, own, s, attempts)?;
    let KeptImmunized {
        lines,
        run,
        history,
    } = made;
    let run = run.listed(alloc)?;
    Ok(Immunized {
        lines,
        run,
        history,
    })
}

/// All attempts, with the last run whole again.
fn ended(alloc: Global, made: Made, last: Rest) -> Result<KeptImmunized, OutOfMemory>
    ensures { (names : List (List ℕ)) (p : Code) (s : Settings) (read : List Sig) (k : ℕ)
        → AreDone names p s read k made last → IfOk result (AreKept names p s read k) }
{
    let Made { lines, history } = made;
    let Rest {
        tables,
        ends,
        outcome,
        totals,
    } = last;
    let catalogue = history.catalogue.copy(alloc)?;
    let run = KeptRun {
        tables,
        catalogue,
        ends,
        outcome,
        totals,
    };
    Ok(KeptImmunized {
        lines,
        run,
        history,
    })
}

/// A history with the same names and signatures.
fn copied(alloc: Global, history: &History) -> Result<History, OutOfMemory>
    ensures names { IfOk result (λ h. h.names ≡ history.now.names) }
    ensures signatures { IfOk result (λ h. h.catalogue.sigs ≡ history.now.catalogue.sigs) }
{
    history.law();
    let names = copied_names(alloc, &history.names)?;
    let catalogue = history.catalogue.copy(alloc)?;
    Ok(History { names, catalogue })
}

/// A table with the same names.
fn copied_names(alloc: Global, names: &Names) -> Result<Names, OutOfMemory>
    ensures { IfOk result (λ n. n ≡ names.now) }
{
    let _few = names.len(); // for the contract: it is a table
    let none = Names::of(alloc, &[])?;
    Names::merge(alloc, names, &none)
}
