ghost use Rattle.std.specs.Prelude.{◌≡◌, ◌≤◌, ◌+◌, []};
ghost use Rattle.dim_gate.specs.Gate.{constants};
ghost use Rattle.dim_schedule.specs.Settings.{AreSettings};
ghost use Rattle.dim_run.specs.Settle.{IsTwin};

use dim_asm::assemble;
use dim_base::{Lid, Tid};
use dim_gate::GateState;
use dim_history_file::read;
use dim_monitor::Monitor;
use dim_rag::{Births, Command, Entry, Why};
use dim_run::{Finish, Last, Outcome, Run, Settings, play, settle, tell};
use dim_signature::Catalogue;
use samples::entries::{at, end, free, go, got, left, right};
use samples::histories::{
    EMPTY_BEFORE, INTERLEAVED_BEFORE, LEARNT_BEFORE, MOST_YIELDS, SWITCHED_OFF,
};
use samples::programs::{CHAINED, CROSSED, ENDS_HOLDING, LEADS_ON, NEVER_FREED};
use std::alloc::Global;
use std::process::Abort;

fn settings(fuel: u32) -> Settings
    requires some { 1 ≤ fuel }
    requires few { fuel ≤ 8192 }
    ensures { AreSettings result }
{
    Settings {
        fuel,
        quantum: 2,
        depth: 4,
        seed: 0,
        workers: 4,
    }
}

/// The run of a program with a history, each given by its text.
fn run_of(rt: &impl Abort, alloc: Global, program: &[u8], history: &[u8], fuel: u32) -> Run {
    let program = assemble(alloc, program).expect(rt, "a program");
    let history = read(alloc, history).expect(rt, "a history");
    assert!(rt; history.catalogue.len() <= 4080);
    assert!(rt; 1 <= fuel);
    assert!(rt; fuel <= 8_192);
    play(alloc, &program, &history, &settings(fuel)).expect(rt, "a run")
}

/// The run is done with. Most tests drop it by this call, since the proof of a drop is long.
pub(crate) fn close(_run: Run) {}

/// Both numbers are the same.
pub(crate) fn same(rt: &impl Abort, number: u64, expected: u64) {
    assert_eq!(rt; number, expected);
}

/// The run has so many entries, of which the last ones are these.
fn has(rt: &impl Abort, run: &Run, len: usize, last: &[Entry]) {
    let entries = run.entries.as_slice();
    assert!(rt; entries.len() == len);
    assert!(rt; last.len() <= len);
    assert!(rt; &entries[len - last.len()..] == last);
}

pub(crate) fn ended(rt: &impl Abort, run: &Run, outcome: Outcome) {
    assert_eq!(rt; run.outcome, outcome);
}

/// So many signatures are known after the run.
fn knows(rt: &impl Abort, run: &Run, signatures: u64) {
    same(rt, run.catalogue.len() as u64, signatures);
}

/// The Learn of the births 0 and 2.
fn learn() -> Entry {
    let births = Births::new(&[0, 2]);
    Entry::Learn { births }
}

#[test]
fn first_deadlock_is_learnt(rt: HostRuntime) {
    let run = run_of(&rt, rt.alloc(), CROSSED, EMPTY_BEFORE, 8_192);
    let wanted = [
        go(0, 0, left(0)),
        got(0, 0),
        go(1, 1, right(0)),
        got(1, 1),
        go(0, 1, left(1)),
        go(1, 0, right(1)),
        learn(),
    ];
    has(&rt, &run, 7, &wanted);
    ended(&rt, &run, Outcome::Deadlocked);
    knows(&rt, &run, 1);
    same(&rt, run.totals.goes, 4);
    same(&rt, run.totals.gots, 2);
    same(&rt, run.totals.learns, 1);
    same(&rt, run.totals.ends, 0);
    close(run);
}

#[test]
fn a_starvation_is_learnt_and_broken(rt: HostRuntime) {
    let run = run_of(&rt, rt.alloc(), CHAINED, INTERLEAVED_BEFORE, 8_192);
    let wanted = [
        learn(),
        Entry::Break { set: 3, t: Tid(1) },
        got(1, 1),
        free(1, 1),
        free(1, 2),
        end(1, Why::Done),
        got(0, 2),
        free(0, 2),
        free(0, 0),
        end(0, Why::Done),
    ];
    has(&rt, &run, 16, &wanted);
    ended(&rt, &run, Outcome::Finished);
    knows(&rt, &run, 2);
    same(&rt, run.totals.learns, 1);
    close(run);
}

#[test]
fn a_break_may_lead_into_a_known_deadlock(rt: HostRuntime) {
    let run = run_of(&rt, rt.alloc(), LEADS_ON, INTERLEAVED_BEFORE, 8_192);
    let wanted = [
        got(1, 1),
        free(1, 2),
        got(0, 2),
        go(0, 1, left(2)),
        go(1, 0, right(3)),
    ];
    has(&rt, &run, 13, &wanted);
    ended(&rt, &run, Outcome::Deadlocked);
    knows(&rt, &run, 2);
    close(run);
}

#[test]
fn an_ended_cause_is_broken_out(rt: HostRuntime) {
    let run = run_of(&rt, rt.alloc(), ENDS_HOLDING, LEARNT_BEFORE, 8_192);
    let broken = Entry::Break { set: 3, t: Tid(1) };
    let wanted = [
        end(0, Why::Done),
        broken,
        got(1, 1),
        free(1, 1),
        end(1, Why::Done),
    ];
    has(&rt, &run, 8, &wanted);
    close(run);
}

// `LEARNT` with yields from earlier runs.
const SEVEN_YIELDS: &[u8] = b"dim history 2\nsignature 4 2 on 7\nleft:0\nright:0\nend 1\n";

/// So many yields has the one signature after a run that begins with this history.
fn counts_yields(rt: &impl Abort, alloc: Global, history: &[u8], yields: u64) {
    let run = run_of(rt, alloc, CROSSED, history, 8_192);
    yielded(rt, &run, yields);
    close(run);
}

fn yielded(rt: &impl Abort, run: &Run, yields: u64) {
    assert!(rt; run.catalogue.len() == 1);
    same(rt, run.catalogue.get(0).yields() as u64, yields);
}

#[test]
fn the_yields_of_a_run_are_counted(rt: HostRuntime) {
    counts_yields(&rt, rt.alloc(), LEARNT_BEFORE, 1);
    counts_yields(&rt, rt.alloc(), SEVEN_YIELDS, 8);
    counts_yields(&rt, rt.alloc(), MOST_YIELDS, 4_294_967_295);
    counts_yields(&rt, rt.alloc(), EMPTY_BEFORE, 0);
}

/// The one signature is switched off.
fn is_off(rt: &impl Abort, run: &Run) {
    assert!(rt; run.catalogue.len() == 1);
    assert!(rt; !run.catalogue.get(0).on());
}

#[test]
fn a_switched_off_signature_is_not_learnt_again(rt: HostRuntime) {
    let run = run_of(&rt, rt.alloc(), CROSSED, SWITCHED_OFF, 8_192);
    has(&rt, &run, 6, &[]);
    ended(&rt, &run, Outcome::Deadlocked);
    yielded(&rt, &run, 0);
    is_off(&rt, &run);
    close(run);
}

#[test]
fn a_lock_of_an_ended_thread_is_never_given(rt: HostRuntime) {
    let run = run_of(&rt, rt.alloc(), NEVER_FREED, EMPTY_BEFORE, 8_192);
    let wanted = [
        go(0, 0, left(0)),
        got(0, 0),
        go(1, 0, right(0)),
        end(0, Why::Done),
    ];
    has(&rt, &run, 4, &wanted);
    ended(&rt, &run, Outcome::Stalled);
    close(run);
}

fn last(finish: Finish) -> Last {
    Last {
        finish,
        said: 0,
        last: 0,
    }
}

fn are_ends(rt: &impl Abort, run: &Run, ends: &[Last]) {
    assert!(rt; run.ends.as_slice() == ends);
}

#[test]
fn each_thread_is_told_as_it_finished(rt: HostRuntime) {
    let run = run_of(&rt, rt.alloc(), NEVER_FREED, EMPTY_BEFORE, 8_192);
    let waits = Finish::Waits { l: Lid(0) };
    are_ends(&rt, &run, &[last(Finish::Done), last(waits)]);
    close(run);
}

#[test]
fn a_request_needs_two_units(rt: HostRuntime) {
    let run = run_of(&rt, rt.alloc(), CROSSED, EMPTY_BEFORE, 1);
    has(&rt, &run, 2, &[]);
    ended(&rt, &run, Outcome::Finished);
    close(run);
}

/// A gate of two threads and two locks, with room for 88 entries.
fn gate(rt: &impl Abort, alloc: Global) -> GateState
    ensures constants { constants result
        ≡ record { threads = 2; locks = 2; loaded = []; depth = 4; cap = 16 } }
    ensures entries { result.entries ≡ [] }
    ensures room { 88 ≤ result.spare }
{
    let known = Catalogue::new(alloc);
    let mut gate = GateState::new(alloc, 2, 2, known, 4, 16).expect(rt, "a gate");
    gate.reserve(88).expect(rt, "room");
    gate
}

/// A monitor of two threads and two locks, with room for 88 entries.
fn monitor(rt: &impl Abort, alloc: Global) -> Monitor
    ensures monitor { (result.threads ≡ 2) × (result.locks ≡ 2) × (result.entries ≡ []) }
    ensures room { 88 ≤ result.spare }
{
    let mut monitor = Monitor::new(alloc, 2, 2).expect(rt, "a monitor");
    monitor.reserve(88).expect(rt, "room");
    monitor
}

/// Thread t asks for lock l, and is to get it where it may.
fn take(gate: &mut GateState, monitor: &mut Monitor, t: u32, l: u32, offset: u32)
    requires twin { IsTwin gate.old monitor.old }
    requires thread { t + 1 ≤ gate.old.threads }
    requires lock { l + 1 ≤ gate.old.locks }
    requires gate_room { 2 ≤ gate.old.spare }
    requires room { 2 ≤ monitor.old.spare }
    ensures constants { constants gate.new ≡ constants gate.old }
    ensures gate_spare { gate.old.spare ≤ gate.new.spare + 2 }
    ensures twin { IsTwin gate.new monitor.new }
    ensures spare { monitor.old.spare ≤ monitor.new.spare + 2 }
{
    let l = Lid(l);
    let stack = at(t, offset);
    tell(gate, monitor, t, Command::Request { l, stack });
    tell(gate, monitor, t, Command::Acquire { l });
}

/// The gate's history has so many entries, and the monitor took them all.
fn took_all(rt: &impl Abort, gate: &GateState, monitor: &Monitor, entries: u64) {
    same(rt, gate.tables().len() as u64, entries);
    same(rt, monitor.taken() as u64, entries);
}

/// The gate and the monitor are done with.
fn close_both(_gate: GateState, _monitor: Monitor) {}

#[test]
fn a_settle_learns_a_cycle_once(rt: HostRuntime) {
    let mut gate = gate(&rt, rt.alloc());
    let mut monitor = monitor(&rt, rt.alloc());
    take(&mut gate, &mut monitor, 0, 0, 0);
    take(&mut gate, &mut monitor, 1, 1, 0);
    take(&mut gate, &mut monitor, 0, 1, 1);
    take(&mut gate, &mut monitor, 1, 0, 1);
    same(&rt, settle(&mut gate, &mut monitor) as u64, 0);
    took_all(&rt, &gate, &monitor, 7);
    close_both(gate, monitor);
}
