use dim_base::Tid;
use dim_monitor::Monitor;
use dim_rag::{Births, Entry};
use samples::entries::{free, go, got, left, right, took, yielded};
use std::alloc::Global;
use std::process::Abort;

const A: u32 = 0;

const B: u32 = 1;

const C: u32 = 2;

const D: u32 = 3;

/// A monitor of four threads and four locks that has taken these notes.
fn told(rt: &impl Abort, alloc: Global, notes: &[Entry]) -> Monitor {
    let mut monitor = Monitor::new(alloc, 4, 4).expect(rt, "a monitor");
    for note in notes {
        assert!(rt; monitor.taken() < 100);
        monitor.reserve(1).expect(rt, "room");
        assert!(rt; monitor.graph().fits(note), "{note:?}");
        monitor.feed(*note);
    }
    monitor
}

/// Two threads that each hold what the other one asks for at last.
fn deadlock() -> [Entry; 6] {
    [
        go(0, A, left(0)),
        got(0, A),
        go(1, B, right(0)),
        got(1, B),
        go(0, B, left(1)),
        go(1, A, right(1)),
    ]
}

#[test]
fn a_deadlock_is_one_cycle(rt: HostRuntime) {
    let monitor = told(&rt, rt.alloc(), &deadlock());
    let cycles = monitor.cycles();
    assert_eq!(rt; cycles.len(), 1);
    assert!(rt; cycles.at(0) == Births::new(&[0, 2]));
}

#[test]
fn a_lock_held_twice_has_the_birth_of_its_first_grant(rt: HostRuntime) {
    let notes = [
        took(0, A, left(0)),
        took(0, A, left(0)),
        took(0, A, left(0)),
        free(0, A),
        took(1, B, left(0)),
        go(0, B, left(1)),
        go(1, A, left(1)),
    ];
    let cycles = told(&rt, rt.alloc(), &notes).cycles();
    assert_eq!(rt; cycles.len(), 1);
    assert!(rt; cycles.at(0) == Births::new(&[0, 4]));
}

#[test]
fn one_that_waits_is_no_cycle(rt: HostRuntime) {
    let monitor = told(&rt, rt.alloc(), &deadlock()[..5]);
    assert_eq!(rt; monitor.taken(), 5);
    assert_eq!(rt; monitor.cycles().len(), 0);
    assert_eq!(rt; monitor.stuck(), 0);
}

#[test]
fn two_deadlocks_are_in_the_order_of_their_first_threads(rt: HostRuntime) {
    let notes = [
        took(0, A, left(0)),
        took(1, B, left(0)),
        took(2, C, left(0)),
        took(3, D, left(0)),
        go(1, C, left(1)),
        go(2, B, left(1)),
        go(3, A, left(1)),
        go(0, D, left(1)),
    ];
    let cycles = told(&rt, rt.alloc(), &notes).cycles();
    assert_eq!(rt; cycles.len(), 2);
    assert!(rt; cycles.at(0) == Births::new(&[0, 3]));
    assert!(rt; cycles.at(1) == Births::new(&[1, 2]));
}

#[test]
fn the_choice_of_a_stuck_set_yields(rt: HostRuntime) {
    let notes = [
        go(0, A, left(0)),
        got(0, A),
        go(1, C, right(0)),
        got(1, C),
        go(0, C, left(1)),
        yielded(1, B, [0, 5], right(1)),
    ];
    let monitor = told(&rt, rt.alloc(), &notes);
    assert_eq!(rt; monitor.stuck(), 3);
    assert_eq!(rt; monitor.choice(), Some(Tid(1)));
}

#[test]
fn the_choice_need_not_be_in_its_starvation(rt: HostRuntime) {
    // Thread 2 holds two locks and yields because of thread 0, which starves with thread 1.
    let notes = [
        go(0, A, left(0)),
        got(0, A),
        took(1, C, left(0)),
        took(2, B, left(0)),
        took(2, D, left(0)),
        go(0, C, left(1)),
        yielded(1, B, [0, 6], right(1)),
        yielded(2, C, [7, 0], right(1)),
    ];
    let before = told(&rt, rt.alloc(), &notes[..6]);
    assert!(rt; before.starved().is_none());
    let monitor = told(&rt, rt.alloc(), &notes);
    assert_eq!(rt; monitor.stuck(), 7);
    assert_eq!(rt; monitor.choice(), Some(Tid(2)));
    assert!(rt; monitor.starved() == Some(Births::new(&[0, 2])));
}

#[test]
fn a_cycle_is_no_starvation(rt: HostRuntime) {
    // Thread 2 yields because of thread 0, which is deadlocked with thread 1.
    let notes = [
        go(0, A, left(0)),
        got(0, A),
        go(1, B, right(0)),
        got(1, B),
        go(0, B, left(1)),
        go(1, A, right(1)),
        yielded(2, C, [0, 6], left(0)),
    ];
    let monitor = told(&rt, rt.alloc(), &notes);
    assert_eq!(rt; monitor.stuck(), 7);
    assert_eq!(rt; monitor.choice(), Some(Tid(2)));
    assert!(rt; monitor.starved().is_none());
}
