//! The two workers of `transfers`, run after run.
use dim_base::Tid;
use dim_history_file::{History, read, write};
use dim_mutex::Pending;
use std::alloc::Global;
use std::process::Abort;
use std::sync::Wait;
use std::thread::Threads;
use transfers::{Came, learnt, work};

/// What came of the workers over a history, and the history that they leave, which a file keeps.
fn run<R: Threads + Wait + Abort + Sync>(
    rt: &R,
    alloc: Global,
    history: History,
) -> (Came, Came, History) {
    let worked = work(rt, alloc, history).expect(rt, "a run");
    let (gave, took) = (worked.gave, worked.took);
    let known = learnt(worked.names, worked.closed).expect(rt, "a history");
    let text = write(alloc, &known).expect(rt, "a text");
    (
        gave,
        took,
        read(alloc, text.as_slice()).expect(rt, "a history"),
    )
}

/// Both workers wait, each for the lock that the other holds.
fn deadlocked(rt: &impl Abort, gave: Came, took: Came) {
    assert!(rt; matches!(gave, Came::Waits(Pending::Busy { holder: Tid(1) })));
    assert!(rt; matches!(took, Came::Waits(Pending::Busy { holder: Tid(0) })));
}

/// The history has one signature, in this state and with so many yields.
fn knows_one(rt: &impl Abort, history: &History, on: bool, yields: u32) {
    assert!(rt; history.catalogue.len() == 1);
    assert!(rt; history.catalogue.get(0).on() == on);
    assert!(rt; history.catalogue.get(0).yields() == yields);
}

#[test]
fn the_second_run_keeps_clear_of_the_deadlock(rt: HostRuntime) {
    let alloc = rt.alloc();
    let (gave, took, known) = run(&rt, alloc, History::empty(alloc).expect(&rt, "none"));
    deadlocked(&rt, gave, took);
    knows_one(&rt, &known, true, 0);
    let (gave, took, known) = run(&rt, alloc, known);
    assert!(rt; matches!(gave, Came::Moved { from: 70, to: 130 }));
    assert!(rt; matches!(took, Came::Moved { from: 120, to: 80 }));
    knows_one(&rt, &known, true, 1);
}

/// The history with its one signature switched off.
fn switched_off(rt: &impl Abort, history: History) -> History {
    history.law();
    let History {
        names,
        mut catalogue,
        ..
    } = history;
    assert!(rt; catalogue.len() == 1);
    catalogue.switch(0, false);
    History { names, catalogue }
}

#[test]
fn a_signature_that_is_off_keeps_clear_of_nothing(rt: HostRuntime) {
    let alloc = rt.alloc();
    let (_, _, known) = run(&rt, alloc, History::empty(alloc).expect(&rt, "none"));
    let (gave, took, known) = run(&rt, alloc, switched_off(&rt, known));
    deadlocked(&rt, gave, took);
    knows_one(&rt, &known, false, 0);
}
