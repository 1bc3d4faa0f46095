//! The shapes of traces, one for each entry.
use crate::drawings::{drawing_of, given_alone, given_of};
use dim_base::{Lid, Tid};
use dim_picture::{Mark, Shape};
use dim_rag::Why;
use dim_run::Outcome;
use samples::{histories, programs, traces};

fn wait(t: u32, l: u32) -> Mark {
    Mark::Wait {
        t: Tid(t),
        l: Lid(l),
    }
}

fn yielded(t: u32, l: u32) -> Mark {
    Mark::Yield {
        t: Tid(t),
        l: Lid(l),
        sig: 0,
    }
}

fn hold(t: u32, l: u32) -> Mark {
    Mark::Hold {
        t: Tid(t),
        l: Lid(l),
    }
}

fn free(t: u32, l: u32, birth: u32) -> Mark {
    Mark::Free {
        t: Tid(t),
        l: Lid(l),
        birth,
    }
}

fn inner(t: u32, l: u32, birth: u32) -> Mark {
    Mark::Inner {
        t: Tid(t),
        l: Lid(l),
        birth,
    }
}

fn deeper(t: u32, l: u32, birth: u32) -> Mark {
    Mark::Deeper {
        t: Tid(t),
        l: Lid(l),
        birth,
    }
}

fn miss(t: u32, l: u32) -> Mark {
    Mark::Miss {
        t: Tid(t),
        l: Lid(l),
    }
}

fn broken(t: u32, l: u32) -> Mark {
    Mark::Break {
        t: Tid(t),
        l: Lid(l),
    }
}

fn done(t: u32) -> Mark {
    Mark::End {
        t: Tid(t),
        why: Why::Done,
    }
}

fn at(mark: Mark, end: u32, row: u32) -> Shape {
    Shape { mark, end, row }
}

// The shapes of `traces::AVOIDED`.
fn avoided() -> [Shape; 15] {
    [
        at(wait(0, 0), 1, 0),
        at(hold(0, 0), 6, 0),
        at(yielded(1, 1), 7, 0),
        at(wait(0, 1), 4, 1),
        at(hold(0, 1), 5, 1),
        at(free(0, 1, 3), 6, 1),
        at(free(0, 0, 0), 7, 0),
        at(wait(1, 1), 8, 0),
        at(hold(1, 1), 13, 0),
        at(done(0), 10, 0),
        at(wait(1, 0), 11, 1),
        at(hold(1, 0), 12, 1),
        at(free(1, 0, 10), 13, 1),
        at(free(1, 1, 7), 14, 0),
        at(done(1), 15, 0),
    ]
}

// The shapes of `traces::STARVED`.
fn starved() -> [Shape; 16] {
    [
        at(wait(0, 0), 1, 0),
        at(hold(0, 0), 14, 0),
        at(wait(1, 2), 3, 0),
        at(hold(1, 2), 10, 0),
        at(wait(0, 2), 12, 1),
        at(yielded(1, 1), 7, 1),
        at(Mark::Learn, 7, 0),
        at(broken(1, 1), 8, 1),
        at(hold(1, 1), 9, 1),
        at(free(1, 1, 7), 10, 1),
        at(free(1, 2, 2), 11, 0),
        at(done(1), 12, 0),
        at(hold(0, 2), 13, 1),
        at(free(0, 2, 4), 14, 1),
        at(free(0, 0, 0), 15, 0),
        at(done(0), 16, 0),
    ]
}

// The shapes of two threads that take a lock twice, one after the other.
fn taken_twice() -> [Shape; 12] {
    [
        at(wait(0, 0), 1, 0),
        at(hold(0, 0), 4, 0),
        at(deeper(0, 0, 0), 3, 0),
        at(inner(0, 0, 0), 4, 0),
        at(free(0, 0, 0), 5, 0),
        at(done(0), 6, 0),
        at(wait(1, 0), 7, 0),
        at(hold(1, 0), 10, 0),
        at(deeper(1, 0, 6), 9, 0),
        at(inner(1, 0, 6), 10, 0),
        at(free(1, 0, 6), 11, 0),
        at(done(1), 12, 0),
    ]
}

#[test]
fn a_yield_waits_until_the_next_entry_of_its_thread(rt: HostRuntime) {
    let alloc = rt.alloc();
    let (program, history, trace) = (programs::CROSSED, histories::LEARNT, traces::AVOIDED);
    let given = given_of(&rt, alloc, program, history, trace);
    let drawing = drawing_of(&rt, alloc, &given);
    assert!(rt; drawing.shapes.as_slice() == avoided().as_slice());
    assert_eq!(rt; drawing.outcome, Outcome::Finished);
}

#[test]
fn a_break_ends_a_yield_and_begins_a_wait(rt: HostRuntime) {
    let alloc = rt.alloc();
    let (program, history, trace) = (programs::CHAINED, histories::INTERLEAVED, traces::STARVED);
    let given = given_of(&rt, alloc, program, history, trace);
    let drawing = drawing_of(&rt, alloc, &given);
    assert!(rt; drawing.shapes.as_slice() == starved().as_slice());
    assert_eq!(rt; drawing.outcome, Outcome::Finished);
}

#[test]
fn what_a_deadlock_leaves_goes_on_to_the_end(rt: HostRuntime) {
    let alloc = rt.alloc();
    let given = given_alone(&rt, alloc, programs::CROSSED, traces::LEARNT);
    let drawing = drawing_of(&rt, alloc, &given);
    let wanted = [
        at(wait(0, 0), 1, 0),
        at(hold(0, 0), 7, 0),
        at(wait(1, 1), 3, 0),
        at(hold(1, 1), 7, 0),
        at(wait(0, 1), 7, 1),
        at(wait(1, 0), 7, 1),
        at(Mark::Learn, 7, 0),
    ];
    assert!(rt; drawing.shapes.as_slice() == wanted.as_slice());
    assert_eq!(rt; drawing.outcome, Outcome::Deadlocked);
}

#[test]
fn a_hold_ends_at_its_outermost_free(rt: HostRuntime) {
    let alloc = rt.alloc();
    let trace =
        b"dim trace 1\nsettings 8192 4\ngo 0 a main:0\ngot 0 a\ntook 0 a main:1\nfree 0 a\nfree 0 a\ndone 0\ngo 1 a main:0\ngot 1 a\ntook 1 a main:1\nfree 1 a\nfree 1 a\ndone 1\nend 12\n";
    let given = given_alone(&rt, alloc, programs::TAKEN_TWICE, trace);
    let drawing = drawing_of(&rt, alloc, &given);
    assert!(rt; drawing.shapes.as_slice() == taken_twice().as_slice());
    assert_eq!(rt; drawing.outcome, Outcome::Finished);
}

#[test]
fn a_try_that_fails_stands_in_a_row_of_its_own(rt: HostRuntime) {
    let alloc = rt.alloc();
    let trace =
        b"dim trace 1\nsettings 8192 4\ngo 0 a left:0\ngot 0 a\ngo 1 b right:0\ngot 1 b\nbusy 0 b 1 left:1\nfree 0 a\ndone 0\ngo 1 a right:1\ngot 1 a\nfree 1 a\nfree 1 b\ndone 1\nend 12\n";
    let given = given_alone(&rt, alloc, programs::TRIES, trace);
    let drawing = drawing_of(&rt, alloc, &given);
    assert_eq!(rt; drawing.shapes.len(), 12);
    assert_eq!(rt; drawing.shapes[4], at(miss(0, 1), 5, 1));
    assert_eq!(rt; drawing.shapes[5], at(free(0, 0, 0), 6, 0));
    assert_eq!(rt; drawing.shapes[6], at(done(0), 7, 0));
}

#[test]
fn a_try_that_succeeds_begins_a_hold(rt: HostRuntime) {
    let alloc = rt.alloc();
    let trace =
        b"dim trace 1\nsettings 8192 4\ngo 0 a left:0\ngot 0 a\ntook 0 b left:1\nfree 0 a\ndone 0\ngo 1 b right:0\nend 6\n";
    let given = given_alone(&rt, alloc, programs::TRIES, trace);
    let drawing = drawing_of(&rt, alloc, &given);
    let wanted = [
        at(wait(0, 0), 1, 0),
        at(hold(0, 0), 3, 0),
        at(hold(0, 1), 6, 1),
        at(free(0, 0, 0), 4, 0),
        at(done(0), 5, 0),
        at(wait(1, 1), 6, 0),
    ];
    assert!(rt; drawing.shapes.as_slice() == wanted.as_slice());
    assert_eq!(rt; drawing.outcome, Outcome::Stalled);
}
