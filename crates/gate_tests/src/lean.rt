//! Replies of a gate that keeps no entry.
ghost use Rattle.std.specs.Prelude.{◌≤◌, IsTrue};
ghost use Rattle.dim_gate.specs.Gate.{constants};
ghost use Rattle.dim_gate.specs.Answer.{MayGive};

use crate::gates::same;
use dim_base::{Lid, Tid};
use dim_gate::LeanGate;
use dim_rag::{Births, Command, Mode, Named, Reply};
use dim_signature::{Catalogue, Signature};
use samples::entries::at;
use std::alloc::Global;
use std::process::Abort;

const A: Lid = Lid(0);

const B: Lid = Lid(1);

fn request(l: Lid) -> Command {
    let stack = at(0, 0);
    Command::Request { l, stack }
}

fn acquire(l: Lid) -> Command {
    Command::Acquire { l }
}

/// A gate for two threads and two locks, with room for some entries, that knows a signature of two
/// such requests.
fn knowing(rt: &impl Abort, alloc: Global) -> LeanGate {
    let stacks = [at(0, 0), at(0, 0)];
    let sig = Signature::new(alloc, 1, &stacks).expect(rt, "a signature");
    let mut loaded = Catalogue::new(alloc);
    loaded.add(sig).expect(rt, "a catalogue");
    assert!(rt; loaded.len() <= 1);
    let mut gate = LeanGate::new(alloc, 2, 2, loaded, 4, 16).expect(rt, "a gate");
    gate.reserve(16);
    gate
}

/// Whether the caller may give this command.
fn may_give(gate: &LeanGate, caller: u32, cmd: &Command) -> bool
    ensures { IsTrue result → MayGive (constants gate.now) caller cmd.now }
{
    let (threads, locks) = (gate.graph().threads(), gate.graph().locks());
    match cmd {
        Command::Request { l, .. } => caller < threads && l.0 < locks,
        Command::Acquire { l } => caller < threads && l.0 < locks,
        Command::Release { l } => caller < threads && l.0 < locks,
        _ => false,
    }
}

/// Makes room for an entry more.
fn make_room(rt: &impl Abort, gate: &mut LeanGate)
    ensures { 1 ≤ gate.new.spare }
{
    assert!(rt; gate.graph().len() < 300);
    gate.reserve(1);
}

/// The gate gives this reply to the command.
fn due(rt: &impl Abort, gate: &mut LeanGate, caller: u32, cmd: Command, reply: Reply) {
    make_room(rt, gate);
    assert!(rt; may_give(gate, caller, &cmd));
    assert_eq!(rt; gate.act_on(caller, &cmd), reply, "to {cmd:?} of {caller}");
}

/// The thread is allowed on the lock since this place.
fn is_allowed(rt: &impl Abort, gate: &LeanGate, t: Tid, l: Lid, birth: u32) {
    assert!(rt; t.0 < gate.graph().threads());
    assert!(rt; gate.graph().mode(t) == Mode::Allowed { l, birth });
}

/// The gate is done with. It is dropped here alone, since the proof of a drop is long.
fn done(_gate: LeanGate) {}

#[test]
fn a_gate_that_keeps_no_entry_holds_back_and_wakes(rt: HostRuntime) {
    let mut gate = knowing(&rt, rt.alloc());
    due(&rt, &mut gate, 0, request(A), Reply::Go);
    due(&rt, &mut gate, 0, acquire(A), Reply::Got);
    let births = Births::new(&[0, 2]);
    let yielded = Reply::Yield(Named { sig: 0, births });
    due(&rt, &mut gate, 1, request(B), yielded);
    due(&rt, &mut gate, 1, acquire(B), Reply::Still { cause: 0 });
    due(&rt, &mut gate, 0, Command::Release { l: A }, Reply::Freed);
    due(&rt, &mut gate, 1, acquire(B), Reply::Woken);
    due(&rt, &mut gate, 1, request(B), Reply::Go);
    same(&rt, gate.graph().len() as u64, 5);
    is_allowed(&rt, &gate, Tid(1), B, 4);
    done(gate);
}
