//! Replies of the gate, row by row.
ghost use Rattle.std.specs.Prelude.{◌≡◌, ◌≤◌, IsSome, IsTrue};
ghost use Rattle.dim_events.specs.Watching.{IsPassOf};
ghost use Rattle.dim_gate.specs.Gate.{constants};
ghost use Rattle.dim_gate.specs.Answer.{MayGive};
ghost use Rattle.dim_gate.specs.Notes.{IsInboxOf};

use dim_base::{Lid, Tid};
use dim_events::{Inbox, Kind, Watch, WatchPass, pair, status};
use dim_gate::GateState;
use dim_rag::{Births, Command, Entry, MissWhy, Mode, Named, Refusal, Reply, Why, same_entry};
use dim_signature::{Catalogue, Signature};
use dim_stack::Stack;
use samples::entries::{at, end, go, got, took};
use std::alloc::Global;
use std::process::Abort;

const A: Lid = Lid(0);

const B: Lid = Lid(1);

const C: Lid = Lid(2);

fn stack() -> Stack {
    at(0, 0)
}

fn request(l: Lid, stack: Stack) -> Command {
    Command::Request { l, stack }
}

fn acquire(l: Lid) -> Command {
    Command::Acquire { l }
}

fn release(l: Lid) -> Command {
    Command::Release { l }
}

fn attempt(l: Lid) -> Command {
    Command::Try { l, stack: stack() }
}

fn learn_of(births: Births) -> Command {
    Command::Learn { births }
}

fn break_out(set: u32, thread: u32) -> Command {
    let t = Tid(thread);
    Command::Break { set, t }
}

fn refused(refusal: Refusal) -> Reply {
    Reply::Refused(refusal)
}

fn out_of_turn(mode: Mode) -> Reply {
    refused(Refusal::OutOfTurn { mode })
}

fn known(index: u32) -> Reply {
    refused(Refusal::Known { index })
}

fn full(cap: u32) -> Reply {
    refused(Refusal::Full { cap })
}

fn learnt(index: u32) -> Reply {
    Reply::Learnt { index }
}

fn own() -> Reply {
    refused(Refusal::Own { birth: 0 })
}

fn stale() -> Reply {
    refused(Refusal::Stale { member: 0 })
}

/// The catalogue of this signature alone.
fn knowing(rt: &impl Abort, alloc: Global, sig: Signature) -> Catalogue {
    let mut loaded = Catalogue::new(alloc);
    loaded.add(sig).expect(rt, "a catalogue");
    loaded
}

fn signature(rt: &impl Abort, alloc: Global, depth: u8, stacks: [Stack; 2]) -> Signature {
    Signature::new(alloc, depth, &stacks).expect(rt, "a signature")
}

/// A gate for two threads, with room for some entries.
fn new_gate(
    rt: &impl Abort,
    alloc: Global,
    locks: u32,
    loaded: Catalogue,
    learns: u32,
) -> GateState {
    assert!(rt; locks <= 256);
    assert!(rt; loaded.len() <= 1);
    assert!(rt; learns <= 48);
    let mut gate = GateState::new(alloc, 2, locks, loaded, 4, learns).expect(rt, "a gate");
    gate.reserve(16).expect(rt, "room");
    gate
}

/// A gate for two threads and two locks that knows no signature.
fn fresh(rt: &impl Abort, alloc: Global) -> GateState {
    new_gate(rt, alloc, 2, Catalogue::new(alloc), 16)
}

/// A gate for two threads and two locks that knows no signature, where thread 0 holds a.
fn held(rt: &impl Abort, alloc: Global) -> GateState {
    let mut gate = fresh(rt, alloc);
    due(rt, &mut gate, 0, request(A, stack()), Reply::Go);
    due(rt, &mut gate, 0, acquire(A), Reply::Got);
    gate
}

/// Makes room for an entry more.
fn make_room(rt: &impl Abort, gate: &mut GateState)
    ensures room { 1 ≤ gate.new.spare }
    ensures feed { gate.new.feed ≡ gate.old.feed }
{
    assert!(rt; gate.tables().len() < 300);
    gate.reserve(1).expect(rt, "room");
}

/// Whether the caller may give this command.
fn may_give(gate: &GateState, caller: u32, cmd: &Command) -> bool
    ensures { IsTrue result → MayGive (constants gate.now) caller cmd.now }
{
    let (threads, locks) = (gate.tables().threads(), gate.tables().locks());
    match cmd {
        Command::Request { l, .. } => caller < threads && l.0 < locks,
        Command::Acquire { l } => caller < threads && l.0 < locks,
        Command::Release { l } => caller < threads && l.0 < locks,
        Command::Try { l, .. } => caller < threads && l.0 < locks,
        Command::End { .. } => caller < threads,
        Command::Break { .. } | Command::Learn { .. } => caller == threads,
    }
}

/// The reply to a command that the caller may give.
fn ask(rt: &impl Abort, gate: &mut GateState, caller: u32, cmd: Command) -> Reply
    ensures feed { gate.new.feed ≡ gate.old.feed }
{
    make_room(rt, gate);
    assert!(rt; may_give(gate, caller, &cmd));
    gate.act(caller, cmd)
}

/// The gate gives this reply to the command.
fn due(rt: &impl Abort, gate: &mut GateState, caller: u32, cmd: Command, reply: Reply) {
    assert_eq!(rt; ask(rt, gate, caller, cmd), reply, "to {cmd:?} of {caller}");
}

/// Both numbers are the same.
pub(crate) fn same(rt: &impl Abort, number: u64, expected: u64) {
    assert_eq!(rt; number, expected);
}

/// The gate's history has so many entries.
pub(crate) fn has(rt: &impl Abort, gate: &GateState, entries: u64) {
    same(rt, gate.tables().len() as u64, entries);
}

/// The gate is done with. It is dropped here alone, since the proof of a drop is long.
pub(crate) fn done(_gate: GateState) {}

#[test]
fn yields_until_woken(rt: HostRuntime) {
    let stack = stack();
    let sig = signature(&rt, rt.alloc(), 1, [stack, stack]);
    let mut gate = new_gate(&rt, rt.alloc(), 2, knowing(&rt, rt.alloc(), sig), 16);
    due(&rt, &mut gate, 0, request(A, stack), Reply::Go);
    due(&rt, &mut gate, 0, acquire(A), Reply::Got);
    let births = Births::new(&[0, 2]);
    let yielded = Reply::Yield(Named { sig: 0, births });
    due(&rt, &mut gate, 1, request(B, stack), yielded);
    due(&rt, &mut gate, 1, acquire(B), Reply::Still { cause: 0 });
    due(&rt, &mut gate, 0, release(A), Reply::Freed);
    due(&rt, &mut gate, 1, acquire(B), Reply::Woken);
    due(&rt, &mut gate, 1, request(B, stack), Reply::Go);
    has(&rt, &gate, 5);
    done(gate);
}

#[test]
fn an_allowed_thread_may_only_acquire(rt: HostRuntime) {
    let mut gate = fresh(&rt, rt.alloc());
    let mode = Mode::Allowed { l: A, birth: 0 };
    due(&rt, &mut gate, 0, request(A, stack()), Reply::Go);
    due(&rt, &mut gate, 0, request(A, stack()), out_of_turn(mode));
    due(&rt, &mut gate, 0, acquire(B), out_of_turn(mode));
    due(&rt, &mut gate, 0, acquire(A), Reply::Got);
    due(&rt, &mut gate, 0, request(A, stack()), Reply::Took);
    has(&rt, &gate, 3);
    done(gate);
}

#[test]
fn a_held_lock_is_busy(rt: HostRuntime) {
    let mut gate = held(&rt, rt.alloc());
    let holder = Tid(0);
    let not_owner = Refusal::NotOwner {
        holder: Some(holder),
    };
    due(&rt, &mut gate, 1, release(A), refused(not_owner));
    due(&rt, &mut gate, 1, attempt(A), Reply::MissBusy { holder });
    has(&rt, &gate, 3);
    done(gate);
}

/// Thread 0 requests a this many times, and takes it each time once more.
fn take_again(rt: &impl Abort, gate: &mut GateState, times: u32) {
    for _ in 0..times {
        due(rt, gate, 0, request(A, stack()), Reply::Took);
    }
}

/// A is held this many times.
fn counts(rt: &impl Abort, gate: &GateState, times: u64) {
    assert!(rt; gate.tables().locks() == 2);
    same(rt, gate.tables().count(A) as u64, times);
}

#[test]
fn a_lock_is_held_255_times(rt: HostRuntime) {
    let mut gate = held(&rt, rt.alloc());
    take_again(&rt, &mut gate, 254);
    due(&rt, &mut gate, 0, request(A, stack()), own());
    due(&rt, &mut gate, 0, attempt(A), own());
    counts(&rt, &gate, 255);
    due(&rt, &mut gate, 0, release(A), Reply::Freed);
    due(&rt, &mut gate, 0, attempt(A), Reply::Took);
    done(gate);
}

#[test]
fn certificates_may_be_stale(rt: HostRuntime) {
    let mut gate = held(&rt, rt.alloc());
    let births = Births::new(&[0, 0]);
    due(&rt, &mut gate, 2, break_out(0, 0), stale());
    due(&rt, &mut gate, 2, learn_of(births), stale());
    has(&rt, &gate, 2);
    done(gate);
}

/// A gate for two threads and three locks, where so many signatures may be learnt.
///
/// The one that is known, with two stacks, keeps thread 1 from b, since thread 0 holds a. Thread 0
/// waits for c, which thread 1 holds.
fn starving(rt: &impl Abort, alloc: Global, learns: u32) -> GateState {
    let sig = signature(rt, alloc, 4, [at(0, 0), at(1, 1)]);
    let mut gate = new_gate(rt, alloc, 3, knowing(rt, alloc, sig), learns);
    ask(rt, &mut gate, 0, request(A, at(0, 0)));
    ask(rt, &mut gate, 0, acquire(A));
    ask(rt, &mut gate, 1, request(C, at(1, 0)));
    ask(rt, &mut gate, 1, acquire(C));
    ask(rt, &mut gate, 0, request(C, at(0, 1)));
    ask(rt, &mut gate, 1, request(B, at(1, 1)));
    gate
}

/// The births of what starves then, of the locks a and c, and the Learn and the Break of it.
fn births() -> Births {
    Births::new(&[0, 2])
}

fn learn() -> Command {
    learn_of(births())
}

fn out() -> Command {
    break_out(3, 1)
}

fn unlearnt() -> Reply {
    refused(Refusal::Unlearnt { births: births() })
}

/// The gate knows the signature of these stacks by this number.
fn finds(rt: &impl Abort, gate: &GateState, stacks: [Stack; 2], number: u32) {
    assert!(rt; gate.catalogue().find(&stacks) == Some(number));
}

#[test]
fn a_starvation_is_learnt_before_its_break(rt: HostRuntime) {
    let mut gate = starving(&rt, rt.alloc(), 48);
    let births = Births::new(&[2, 0]);
    due(&rt, &mut gate, 2, out(), unlearnt());
    due(&rt, &mut gate, 2, learn_of(births), stale());
    due(&rt, &mut gate, 2, learn(), learnt(1));
    due(&rt, &mut gate, 2, learn(), known(1));
    due(&rt, &mut gate, 2, out(), Reply::Broken { t: Tid(1) });
    finds(&rt, &gate, [at(0, 0), at(1, 0)], 1);
    done(gate);
}

#[test]
fn a_starvation_leaves_sixteen_places(rt: HostRuntime) {
    let mut gate = starving(&rt, rt.alloc(), 16);
    due(&rt, &mut gate, 2, learn(), full(17));
    due(&rt, &mut gate, 2, out(), Reply::Broken { t: Tid(1) });
    done(gate);
    let mut wider = starving(&rt, rt.alloc(), 17);
    due(&rt, &mut wider, 2, out(), unlearnt());
    due(&rt, &mut wider, 2, learn(), learnt(1));
    done(wider);
}

/// The entry at a place is this one.
fn stands(rt: &impl Abort, gate: &GateState, place: u32, e: Entry) {
    assert!(rt; place < gate.tables().len());
    assert!(rt;
        same_entry(&gate.tables().entry(place), &e),
        "place {place}"
    );
}

/// What a try enters that finds a held by thread 0.
fn missed() -> Entry {
    let why = MissWhy::Busy { holder: Tid(0) };
    Entry::Miss {
        t: Tid(1),
        l: A,
        stack: stack(),
        why,
    }
}

#[test]
fn only_what_is_granted_or_missed_is_entered(rt: HostRuntime) {
    let mut gate = fresh(&rt, rt.alloc());
    let mode = Mode::Allowed { l: A, birth: 0 };
    let holder = Tid(0);
    let not_owner = Refusal::NotOwner {
        holder: Some(holder),
    };
    due(&rt, &mut gate, 0, request(A, stack()), Reply::Go);
    due(&rt, &mut gate, 0, request(A, stack()), out_of_turn(mode));
    due(&rt, &mut gate, 0, acquire(B), out_of_turn(mode));
    due(&rt, &mut gate, 0, acquire(A), Reply::Got);
    due(&rt, &mut gate, 0, request(A, stack()), Reply::Took);
    due(&rt, &mut gate, 1, release(A), refused(not_owner));
    due(&rt, &mut gate, 1, attempt(A), Reply::MissBusy { holder });
    due(&rt, &mut gate, 2, break_out(0, 0), stale());
    due(&rt, &mut gate, 2, learn_of(Births::new(&[0, 0])), stale());
    let done_with_it = Command::End { why: Why::Done };
    due(&rt, &mut gate, 0, done_with_it, Reply::Ended);
    let ended = out_of_turn(Mode::Ended { place: 4 });
    due(&rt, &mut gate, 0, release(A), ended);
    has(&rt, &gate, 5);
    stands(&rt, &gate, 0, go(0, 0, stack()));
    stands(&rt, &gate, 1, got(0, 0));
    stands(&rt, &gate, 2, took(0, 0, stack()));
    stands(&rt, &gate, 3, missed());
    stands(&rt, &gate, 4, end(0, Why::Done));
    done(gate);
}

#[test]
fn a_signature_that_is_switched_off_holds_nobody_back(rt: HostRuntime) {
    let stack = stack();
    let sig = signature(&rt, rt.alloc(), 1, [stack, stack]).noted(false, 0);
    let mut gate = new_gate(&rt, rt.alloc(), 2, knowing(&rt, rt.alloc(), sig), 16);
    due(&rt, &mut gate, 0, request(A, stack), Reply::Go);
    due(&rt, &mut gate, 0, acquire(A), Reply::Got);
    // A switched-on signature of these stacks would make thread 1 yield.
    due(&rt, &mut gate, 1, request(B, stack), Reply::Go);
    due(&rt, &mut gate, 1, acquire(B), Reply::Got);
    due(&rt, &mut gate, 0, request(B, stack), Reply::Go);
    due(&rt, &mut gate, 1, request(A, stack), Reply::Go);
    // The signature of the cycle is of the catalogue, so it is known.
    due(&rt, &mut gate, 2, learn(), known(0));
    has(&rt, &gate, 6);
    done(gate);
}

/// A gate with a feed, the inbox of that, the watch of its totals and a pass to read these with.
fn attached(rt: &impl Abort, alloc: Global) -> (GateState, Inbox<Entry>, Watch, WatchPass)
    ensures inbox { IsInboxOf result.0.feed result.1 }
    ensures pass { IsPassOf result.2 result.3 }
{
    // A value of this type in the function lets the check pass an `Entry` to a generic function.
    let _why = MissWhy::Busy { holder: Tid(0) };
    let mut gate = GateState::new(alloc, 2, 2, Catalogue::new(alloc), 4, 16).expect(rt, "a gate");
    let (mut out, inbox) = pair::<Entry>(alloc, 1).expect(rt, "a ring");
    out.reserve(4).expect(rt, "room");
    gate.reserve(4).expect(rt, "room");
    let (status, watch, mut passes) = status(alloc, 1).expect(rt, "a table");
    let pass = passes.pop().unwrap();
    gate.attach(out, status);
    (gate, inbox, watch, pass)
}

/// Thread 0 takes a, and its second request is refused.
fn take(rt: &impl Abort, gate: &mut GateState)
    ensures { gate.new.feed ≡ gate.old.feed }
{
    ask(rt, gate, 0, request(A, stack()));
    ask(rt, gate, 0, request(A, stack()));
    ask(rt, gate, 0, acquire(A));
}

/// Whether this note is of that entry.
fn is_of(note: Option<Entry>, e: Entry) -> bool {
    match note {
        Some(n) => same_entry(&n, &e),
        None => false,
    }
}

/// The notes of that are a Go and a Got. The ring has room for one, so the gate hands on the other.
fn notes_both(rt: &impl Abort, gate: &mut GateState, inbox: &mut Inbox<Entry>)
    requires { IsInboxOf gate.old.feed inbox.old }
    ensures { gate.new.feed ≡ gate.old.feed }
{
    let _why = MissWhy::Busy { holder: Tid(0) };
    let (t, l, stack) = (Tid(0), A, stack());
    assert!(rt; is_of(inbox.take(), Entry::Go { t, l, stack }));
    assert!(rt; is_of(gate.take_note(inbox), Entry::Got { t, l }));
    assert!(rt; gate.take_note(inbox).is_none());
}

/// Its totals are one Go and one Got.
fn totals_both(rt: &impl Abort, gate: &mut GateState)
    requires { IsSome gate.old.feed }
{
    let totals = gate.totals();
    same(rt, totals.goes, 1);
    same(rt, totals.gots, 1);
    same(rt, totals.frees, 0);
}

fn reads_a_got(rt: &impl Abort, watch: &Watch, pass: &mut WatchPass)
    requires { IsPassOf watch.now pass.old }
{
    same(rt, watch.read(pass, Kind::Got), 1);
}

#[test]
fn an_attached_gate_tells_its_entries(rt: HostRuntime) {
    let (mut gate, mut inbox, watch, mut pass) = attached(&rt, rt.alloc());
    take(&rt, &mut gate);
    reads_a_got(&rt, &watch, &mut pass);
    notes_both(&rt, &mut gate, &mut inbox);
    totals_both(&rt, &mut gate);
    done(gate);
}
