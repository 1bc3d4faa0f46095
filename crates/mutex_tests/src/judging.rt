//! A history, judged by the gate: each entry is what a fresh gate enters there.
ghost use Rattle.std.specs.Prelude.{◌≡◌, true};
ghost use Rattle.dim_gate.specs.Answer.{MayGive};
ghost use Rattle.dim_gate.specs.Gate.{constants};

use dim_base::Tid;
use dim_gate::GateState;
use dim_rag::{Command, Entry, Tables, same_entry};
use dim_signature::Catalogue;
use std::alloc::Global;
use std::process::Abort;

/// Whose entry it is, where the tender has number `tender`, and the command that makes it.
fn made_by(e: &Entry, tender: Tid) -> (Tid, Command) {
    match *e {
        Entry::Go { t, l, stack } | Entry::Yield { t, l, stack, .. } => {
            (t, Command::Request { l, stack })
        }
        Entry::Got { t, l } => (t, Command::Acquire { l }),
        Entry::Free { t, l } => (t, Command::Release { l }),
        Entry::Took { t, l, stack } | Entry::Miss { t, l, stack, .. } => {
            (t, Command::Try { l, stack })
        }
        Entry::End { t, why } => (t, Command::End { why }),
        Entry::Break { set, t } => (tender, Command::Break { set, t }),
        Entry::Learn { births } => (tender, Command::Learn { births }),
    }
}

/// Whether the gate allows a caller's command.
fn may_give(gate: &GateState, t: Tid, cmd: &Command) -> bool
    ensures { result ≡ true → MayGive (constants gate.now) t.0 cmd.now }
{
    let (threads, locks) = (gate.tables().threads(), gate.tables().locks());
    match cmd {
        Command::Request { l, .. }
        | Command::Acquire { l }
        | Command::Release { l }
        | Command::Try { l, .. } => t.0 < threads && l.0 < locks,
        Command::End { .. } => t.0 < threads,
        Command::Break { .. } | Command::Learn { .. } => t.0 == threads,
    }
}

/// Gives the gate a command.
fn give(rt: &impl Abort, gate: &mut GateState, t: Tid, cmd: Command) {
    assert!(rt; gate.tables().len() < 1_000_000);
    gate.reserve(1).expect(rt, "room");
    assert!(rt; may_give(gate, t, &cmd));
    gate.act(t.0, cmd);
}

/// Each entry of these tables is what a gate with their signatures, at depth 4, enters behind those
/// before it.
pub fn is_legal(rt: &impl Abort, alloc: Global, loaded: Catalogue, tables: &Tables) {
    let (threads, locks) = (tables.threads(), tables.locks());
    assert!(rt; loaded.len() <= 4048 && 1 <= threads && threads <= 32 && locks <= 256);
    let mut gate = GateState::new(alloc, threads, locks, loaded, 4, 48).expect(rt, "a gate");
    for place in 0..tables.len() {
        let e = tables.entry(place);
        let (t, cmd) = made_by(&e, Tid(threads));
        give(rt, &mut gate, t, cmd);
        assert!(rt; gate.tables().len() == place + 1);
        assert!(rt; same_entry(&gate.tables().entry(place), &e), "{place}");
    }
}
