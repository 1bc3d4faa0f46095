//! What a thread does at each reply to a poll, and which of them end a slice.
use super::{A, DONE, Outcome, SPENT, run, run_again, script};
use dim_vm::State;
use std::alloc::Global;
use std::process::Abort;

const CODE: &str = "LOCK a\nHALT";

const WAITS: State = State::Waits { l: A };

const YIELDS: State = State::Yields { l: A };

/// The Yields, Stills and Busys of a script; the fuel, and the moves that a slice may make; and the
/// moves that it makes, the units, the state, the asks and the entries after it.
type Case = ((u32, u32, u32), (u32, u16), (u32, u32, State, u64, usize));

/// A slice that begins at `LOCK a`.
const FIRST: [Case; 18] = [
    // Still stops the slice, whatever is left; a poll pays nothing and is no move
    ((1, 3, 0), (9, 9), (1, 8, YIELDS, 2, 1)),
    ((1, 3, 0), (2, 9), (1, 1, YIELDS, 2, 1)),
    // a Yield needs two units
    ((1, 3, 0), (1, 9), (0, 1, SPENT, 1, 1)),
    // woken with two units or more: Yield, Woken, Go, Got
    ((1, 1, 0), (4, 9), (3, 1, DONE, 5, 4)),
    ((1, 1, 0), (3, 9), (3, 0, SPENT, 5, 4)),
    // woken with one unit: Yield, Woken
    ((1, 1, 0), (2, 9), (1, 1, SPENT, 3, 2)),
    // it yields again: Yield, Woken, Yield, and Busy as after a break
    ((2, 1, 1), (9, 9), (2, 7, YIELDS, 4, 2)),
    // let through by a break: Yield, Got
    ((1, 0, 0), (9, 9), (2, 7, DONE, 3, 3)),
    ((1, 0, 0), (2, 9), (2, 0, SPENT, 3, 3)),
    // let through by a break, and busy: Yield, Busy
    ((1, 0, 1), (9, 9), (1, 8, YIELDS, 2, 1)),
    ((1, 0, 1), (2, 9), (1, 1, YIELDS, 2, 1)),
    // let through, and busy: Go, Busy
    ((0, 0, 1), (9, 9), (1, 8, WAITS, 2, 1)),
    ((0, 0, 1), (2, 9), (1, 1, WAITS, 2, 1)),
    // no poll once all moves are made
    ((1, 3, 0), (9, 1), (1, 8, YIELDS, 1, 1)),
    ((0, 0, 1), (9, 1), (1, 8, WAITS, 1, 1)),
    ((1, 1, 0), (9, 2), (2, 7, WAITS, 3, 2)),
    // no Spent once all moves are made
    ((1, 0, 0), (2, 2), (2, 0, State::Running, 2, 2)),
    ((1, 1, 0), (2, 1), (1, 1, YIELDS, 1, 1)),
];

/// The slice after such a one.
const SECOND: [Case; 13] = [
    // Got, after a Busy
    ((0, 0, 1), (9, 9), (1, 7, DONE, 4, 3)),
    ((0, 0, 1), (2, 9), (1, 0, SPENT, 4, 3)),
    ((0, 0, 2), (9, 9), (0, 8, WAITS, 3, 1)),
    // Still again, or Woken and then Go and Got
    ((1, 3, 0), (9, 9), (0, 8, YIELDS, 3, 1)),
    ((1, 2, 0), (9, 9), (2, 6, DONE, 6, 4)),
    ((1, 2, 0), (2, 9), (0, 1, SPENT, 4, 2)),
    ((1, 2, 0), (9, 1), (0, 8, YIELDS, 2, 1)),
    ((1, 1, 0), (9, 1), (1, 7, WAITS, 3, 2)),
    // let through by a break
    ((1, 0, 1), (9, 9), (1, 7, DONE, 4, 3)),
    ((1, 0, 2), (9, 9), (0, 8, YIELDS, 3, 1)),
    ((1, 0, 0), (2, 1), (1, 0, State::Running, 2, 2)),
    // the thread has ended: an empty slice
    ((0, 0, 0), (9, 9), (0, 7, DONE, 3, 3)),
    ((0, 0, 0), (1, 9), (0, 1, SPENT, 1, 1)),
];

/// The outcome is that of the case.
fn is_as(rt: &impl Abort, outcome: Outcome, case: &Case) {
    let ((yields, stills, busys), (fuel, q), (moves, units, state, asks, entries)) = *case;
    let wanted = Outcome {
        moves,
        units,
        state,
        asks,
        entries,
    };
    assert_eq!(rt; outcome, wanted, "{yields} {stills} {busys} {fuel} {q}");
}

fn first_slice(rt: &impl Abort, alloc: Global, case: &Case) {
    let ((yields, stills, busys), (fuel, q), _) = *case;
    let (outcome, _sayings) = run(rt, alloc, CODE, fuel, q, script(yields, stills, busys));
    is_as(rt, outcome, case);
}

#[test]
fn first_slices(rt: HostRuntime) {
    for case in &FIRST {
        first_slice(&rt, rt.alloc(), case);
    }
}

fn second_slice(rt: &impl Abort, alloc: Global, case: &Case) {
    let ((yields, stills, busys), (fuel, q), _) = *case;
    let outcome = run_again(rt, alloc, CODE, fuel, q, script(yields, stills, busys));
    is_as(rt, outcome, case);
}

#[test]
fn second_slices(rt: HostRuntime) {
    for case in &SECOND {
        second_slice(&rt, rt.alloc(), case);
    }
}
