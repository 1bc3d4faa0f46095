//! What moves need and pay, and where a slice ends by its number of moves.
use super::{A, DONE, FREE, Outcome, SPENT, run, same, script, stands};
use dim_rag::Why;
use dim_vm::State;
use std::alloc::Global;
use std::process::Abort;

const RUNNING: State = State::Running;

const UNDER: State = State::Ended {
    why: Why::Trapped { trap: 1 },
};

const NO_LOCK: State = State::Ended {
    why: Why::Trapped { trap: 6 },
};

const RELOCK: State = State::Ended {
    why: Why::Trapped { trap: 7 },
};

const FELL_OFF: State = State::Ended {
    why: Why::Trapped { trap: 9 },
};

/// A code; the fuel, and the moves that a slice may make; and the moves that it makes, the units,
/// the state and the entries after it.
type Case = (&'static str, (u32, u16), (u32, u32, State, usize));

const PAYS: [Case; 39] = [
    // no units left: it is spent, whatever the instruction is
    ("HALT", (0, 9), (0, 0, SPENT, 1)),
    ("LOCK a", (0, 9), (0, 0, SPENT, 1)),
    ("POP\nHALT", (1, 9), (1, 0, SPENT, 1)),
    ("POP\nRET", (1, 9), (1, 0, SPENT, 1)),
    ("POP\nPOP", (1, 9), (1, 0, SPENT, 1)),
    ("POP", (1, 9), (1, 0, SPENT, 1)),
    ("LOCK a\nLOCK a", (2, 9), (2, 0, SPENT, 3)),
    // one that ends the thread needs a unit, and pays none
    ("HALT", (1, 9), (0, 1, DONE, 1)),
    ("POP\nRET", (2, 9), (1, 1, DONE, 1)),
    ("POP\nPOP", (2, 9), (1, 1, UNDER, 1)),
    ("POP", (2, 9), (1, 1, FELL_OFF, 1)),
    // a plain instruction pays one
    ("CALL sets\nHALT", (9, 9), (4, 5, DONE, 1)),
    ("JMP 0", (5, 9), (5, 0, SPENT, 1)),
    // a request needs two and pays one, and the Got pays another
    ("LOCK a", (1, 9), (0, 1, SPENT, 1)),
    ("LOCK a\nHALT", (2, 9), (2, 0, SPENT, 3)),
    ("LOCK a\nHALT", (3, 9), (2, 1, DONE, 3)),
    ("POP\nPUSH 0\nLOCKX", (3, 9), (2, 1, SPENT, 1)),
    ("POP\nPUSH 0\nLOCKX\nHALT", (4, 9), (4, 0, SPENT, 3)),
    // with one unit at a request, a trap goes before
    ("LOCK a\nJMP 0", (512, 600), (511, 1, RELOCK, 257)),
    ("POP\nLOCKX", (2, 9), (1, 1, UNDER, 1)),
    ("PUSH 2\nLOCKX", (2, 9), (1, 1, NO_LOCK, 1)),
    // Free and Took need one and pay it, also where the lock is held
    ("LOCK a\nLOCK a", (3, 9), (3, 0, SPENT, 4)),
    ("LOCK a\nLOCK a\nHALT", (4, 9), (3, 1, DONE, 4)),
    ("LOCK b\nPUSH 1\nLOCKX", (4, 9), (4, 0, SPENT, 4)),
    ("LOCK a\nTRYLOCK a\nHALT", (4, 9), (3, 1, DONE, 4)),
    ("LOCK a\nUNLOCK a", (2, 9), (2, 0, SPENT, 3)),
    ("LOCK a\nUNLOCK a\nHALT", (3, 9), (3, 0, SPENT, 4)),
    ("LOCK a\nPUSH 0\nUNLOCKX\nHALT", (5, 9), (4, 1, DONE, 4)),
    ("TRYLOCK a\nHALT", (1, 9), (1, 0, SPENT, 2)),
    ("TRYLOCK a\nHALT", (2, 9), (1, 1, DONE, 2)),
    // a slice makes no more moves than it may, and then no End
    ("POP", (9, 1), (1, 8, RUNNING, 0)),
    ("POP\nHALT", (9, 1), (1, 8, RUNNING, 0)),
    ("POP\nPOP", (1, 1), (1, 0, RUNNING, 0)),
    ("POP\nHALT", (9, 2), (1, 8, DONE, 1)),
    ("JMP 0", (900, 800), (800, 100, RUNNING, 0)),
    ("LOCK a", (9, 1), (1, 8, State::Waits { l: A }, 1)),
    ("LOCK a", (9, 2), (2, 7, RUNNING, 2)),
    ("LOCK a\nUNLOCK a", (9, 3), (3, 6, RUNNING, 3)),
    ("TRYLOCK a", (9, 1), (1, 8, RUNNING, 1)),
];

/// The code pays what the case says.
fn pays(rt: &impl Abort, alloc: Global, case: &Case) {
    let (code, (fuel, q), (moves, units, state, entries)) = *case;
    let (outcome, _sayings) = run(rt, alloc, code, fuel, q, FREE);
    stands(rt, code, &outcome, state);
    same(rt, code, outcome.moves as u64, moves as u64);
    same(rt, code, outcome.units as u64, units as u64);
    same(rt, code, outcome.entries as u64, entries as u64);
}

#[test]
fn what_moves_pay(rt: HostRuntime) {
    for case in &PAYS {
        pays(&rt, rt.alloc(), case);
    }
}

#[test]
fn a_miss_pays_a_unit(rt: HostRuntime) {
    let (outcome, _sayings) = run(&rt, rt.alloc(), "TRYLOCK a\nHALT", 1, 9, script(0, 0, 1));
    let wanted = Outcome {
        moves: 1,
        units: 0,
        state: SPENT,
        asks: 2,
        entries: 2,
    };
    assert_eq!(rt; outcome, wanted);
}
