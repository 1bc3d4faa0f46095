//! A gate with the room that it has left, without a lock, with a feed, and under a mutex.
ghost use Rattle.std.specs.Prelude.{◌≡◌, ◌≤◌, ◌<◌, [], IfOk};
ghost use Rattle.dim_gate.specs.Notes.{IsInboxOf};

use crate::commands::{call_stack, command};
use dim_base::OutOfMemory;
use dim_events::{Inbox, pair, status};
use dim_gate::GateState;
use dim_rag::Entry;
use dim_signature::Catalogue;
use dim_stack::Stack;
use std::alloc::{AllocError, Global};
use std::sync::{Mutex, Wait};
use std::thread::{Threads, map_indices};

/// How many places the ring of a feed has.
const RING: u32 = 1024;

/// A gate for four threads and four locks that knows no signature, with room for just so many
/// entries.
pub fn new_gate(alloc: Global, room: u32) -> Result<GateState, OutOfMemory>
    ensures sizes { IfOk result (λ gate. (gate.threads ≡ 4) × (gate.locks ≡ 4)) }
    ensures empty { IfOk result (λ gate. gate.entries ≡ []) }
    ensures room { IfOk result (λ gate. gate.spare ≡ room) }
{
    let mut gate = GateState::new(alloc, 4, 4, Catalogue::new(alloc), 4, 16)?;
    gate.reserve(room)?;
    Ok(gate)
}

/// A gate of `new_gate`, and for how many more entries it has room at least.
#[derive(Drop)]
pub struct Desk {
    pub gate: GateState,
    left: u32,
    ghost threads: { gate.threads ≡ 4 },
    ghost locks: { gate.locks ≡ 4 },
    ghost room: { left ≤ gate.spare },
}

impl Desk {
    /// A desk with room for so many entries. Memory may run out.
    pub fn new(alloc: Global, room: u32) -> Result<Desk, OutOfMemory> {
        let gate = new_gate(alloc, room)?;
        Ok(Desk { gate, left: room })
    }

    /// A caller's command at this step, while there is room.
    fn ask(&mut self, caller: u32, step: u32, stack: &Stack)
        requires { caller < 4 }
        ensures { self.new.gate.feed ≡ self.old.gate.feed }
    {
        if self.left > 0 {
            self.left -= 1;
            self.gate.act(caller, command(caller, step, stack));
        }
    }

    /// Takes the note of the last entry, if it isn't taken yet.
    fn take_note(&mut self, inbox: &mut Inbox<Entry>)
        requires { IsInboxOf self.old.gate.feed inbox.old }
        ensures { IsInboxOf self.new.gate.feed inbox.new }
    {
        self.gate.take_note(inbox);
    }
}

/// The commands of the one caller, with no lock.
pub fn play_plain(desk: &mut Desk, steps: u32) {
    let stack = call_stack();
    for step in 0..steps {
        desk.ask(0, step, &stack);
    }
}

/// A desk whose gate has a feed, and the end of its ring at which notes are taken.
pub fn new_fed(alloc: Global, room: u32) -> Result<(Desk, Inbox<Entry>), OutOfMemory>
    ensures { IfOk result (λ made. IsInboxOf made.0.gate.feed made.1) }
{
    let mut gate = new_gate(alloc, room)?;
    let (mut out, inbox) = pair::<Entry>(alloc, RING)?;
    out.reserve(room)?;
    let (status, _watch, _passes) = status(alloc, 1)?;
    gate.attach(out, status);
    Ok((Desk { gate, left: room }, inbox))
}

/// The commands of the one caller, with no lock, who takes the note of each entry.
pub fn play_fed(desk: &mut Desk, inbox: &mut Inbox<Entry>, steps: u32)
    requires { IsInboxOf desk.old.gate.feed inbox.old }
{
    let stack = call_stack();
    for step in 0..steps {
        desk.ask(0, step, &stack);
        desk.take_note(inbox);
    }
}

/// The commands of one caller among several.
fn play<R: Wait>(rt: &R, desk: &Mutex<Desk>, caller: u32, steps: u32)
    requires { caller < 4 }
{
    let stack = call_stack();
    for step in 0..steps {
        desk.lock(rt).ask(caller, step, &stack);
    }
}

/// The commands of each caller in a thread of its own.
pub fn play_locked<R: Threads + Wait + Sync>(
    rt: &R,
    alloc: Global,
    desk: &Mutex<Desk>,
    callers: u32,
    steps: u32,
) -> Result<(), AllocError>
    requires { callers ≤ 4 }
{
    map_indices(
        rt,
        alloc,
        callers as usize,
        &|caller| play(rt, desk, caller as u32, steps),
    )?;
    Ok(())
}
