ghost use Rattle.std.specs.Prelude.{◌≤◌};
ghost use Rattle.dim_schedule.specs.Settings.{AreSettings};

use crate::runs::{close, ended, same};
use dim_asm::assemble;
use dim_history_file::read;
use dim_rag::{Entry, Why};
use dim_run::{House, Outcome, Run, Settings, TurnHouse, live};
use samples::histories::{EMPTY_BEFORE, LEARNT_BEFORE};
use samples::programs::{CROSSED, SMALLEST};
use std::alloc::Global;
use std::process::Abort;
use std::sync::Wait;
use std::thread::Threads;

fn settings(workers: u32) -> Settings
    requires some { 1 ≤ workers }
    requires few { workers ≤ 16 }
    ensures { AreSettings result }
{
    Settings {
        fuel: 8_192,
        quantum: 2,
        depth: 4,
        seed: 0,
        workers,
    }
}

/// The live run of a program with a history, each given by its text.
fn run_of<R: Abort + Threads + Wait + Sync>(
    rt: &R,
    alloc: Global,
    house: &mut TurnHouse,
    program: &[u8],
    history: &[u8],
    workers: u32,
) -> Run {
    let program = assemble(alloc, program).expect(rt, "a program");
    let history = read(alloc, history).expect(rt, "a history");
    assert!(rt; history.catalogue.len() <= 4080);
    assert!(rt; 1 <= workers);
    assert!(rt; workers <= 16);
    live(rt, alloc, house, &program, &history, &settings(workers)).expect(rt, "a run")
}

/// The run is the end of its one thread.
fn ends_at_once(rt: &impl Abort, run: &Run) {
    assert!(rt; run.entries.len() == 1);
    assert!(rt; matches!(run.entries[0], Entry::End { why: Why::Done, .. }));
}

#[test]
fn the_smallest_program_ends_at_once(rt: HostRuntime) {
    let mut house = TurnHouse::new();
    let run = run_of(&rt, rt.alloc(), &mut house, SMALLEST, EMPTY_BEFORE, 4);
    ends_at_once(&rt, &run);
    same(&rt, house.passed(), 1);
    close(run);
}

/// The yields of the one signature are those of the run.
fn yields_as_told(rt: &impl Abort, run: &Run) {
    assert!(rt; run.catalogue.len() == 1);
    let yields = run.catalogue.get(0).yields() as u64;
    same(rt, yields, run.totals.yields);
}

/// A run in which both threads finish, because the deadlock is known.
fn finishes<R: Abort + Threads + Wait + Sync>(rt: &R, alloc: Global) {
    let mut house = TurnHouse::new();
    let run = run_of(rt, alloc, &mut house, CROSSED, LEARNT_BEFORE, 2);
    ended(rt, &run, Outcome::Finished);
    same(rt, house.passed(), run.entries.len() as u64);
    yields_as_told(rt, &run);
    close(run);
}

#[test]
fn a_known_deadlock_never_comes(rt: HostRuntime) {
    for _ in 0..50 {
        finishes(&rt, rt.alloc());
    }
}
