//! Many live runs, each checked.
use crate::calls::{call, call_after, held, succeeds_after};
use crate::reports::{as_text, lines_with, number_at};
use command_calls::words::{CHECK, CHECK_ALONE};
use command_calls::{Around, loaded};
use samples::histories::{EMPTY, FIRST_FRAMES, FIVE_FORKS, INTERLEAVED, LEARNT};
use samples::programs::{
    CHAINED, CROSSED, ENDS_HOLDING, LEADS_ON, ONE_AGAINST_TWO, PHILOSOPHERS, SMALLEST,
    THREE_CROSSED,
};
use std::alloc::Global;
use std::process::Abort;
use std::sync::Wait;
use std::thread::Threads;

// Programs whose threads wait for each other, and what is known of them.
const PROGRAMS: [(&[u8], &[u8]); 10] = [
    (CROSSED, EMPTY),
    (CROSSED, LEARNT),
    (CHAINED, INTERLEAVED),
    (LEADS_ON, INTERLEAVED),
    (ENDS_HOLDING, LEARNT),
    (PHILOSOPHERS, EMPTY),
    (PHILOSOPHERS, FIVE_FORKS),
    (THREE_CROSSED, EMPTY),
    (ONE_AGAINST_TWO, EMPTY),
    (ONE_AGAINST_TWO, FIRST_FRAMES),
];

const QUANTA: [&str; 5] = ["1", "2", "3", "4", "16"];

const WORKERS: [&str; 2] = ["2", "4"];

// What came of many runs: how many there were, in how many a deadlock was learnt, and in how many a
// thread yielded.
#[derive(Drop)]
struct Tally {
    runs: u32,
    learnt: u32,
    yielded: u32,
}

impl Tally {
    // Counts a run by its report.
    fn count(&mut self, report: &str) {
        self.runs = self.runs.saturating_add(1);
        if number_at(report, "learn") > 0 {
            self.learnt = self.learnt.saturating_add(1);
        }
        if number_at(report, "yield") > 0 {
            self.yielded = self.yielded.saturating_add(1);
        }
    }
}

// A run came to an outcome, `check` says yes to its trace, and its new history reads back.
fn is_sound<R: Abort + Threads + Wait + Sync>(rt: &R, alloc: Global, after: Around) {
    assert!(rt; matches!(after.status, 0 | 3 | 4));
    let checked = call_after(rt, alloc, &CHECK, after);
    assert!(rt; checked.status == 0);
    succeeds_after(rt, alloc, &["show", "h"], checked);
}

// Runs a program with these words, and checks and counts the run.
fn live_once<R: Abort + Threads + Wait + Sync>(
    rt: &R,
    alloc: Global,
    words: &[&str],
    program: &[u8],
    history: &[u8],
    tally: &mut Tally,
) {
    let after = loaded(rt, alloc, words, program, history).expect(rt, "memory");
    tally.count(as_text(after.out.taken()));
    is_sound(rt, alloc, after);
}

// Runs a program with so many workers, in slices of each of the quanta.
fn live_often<R: Abort + Threads + Wait + Sync>(
    rt: &R,
    alloc: Global,
    program: &[u8],
    history: &[u8],
    workers: &str,
    tally: &mut Tally,
) {
    for &quantum in &QUANTA {
        let words = [
            "live",
            "p",
            "g",
            "h",
            "t",
            "--quantum",
            quantum,
            "--workers",
            workers,
        ];
        live_once(rt, alloc, &words, program, history, tally);
    }
}

// Runs each program with each number of workers.
fn live_all<R: Abort + Threads + Wait + Sync>(rt: &R, alloc: Global, tally: &mut Tally) {
    for &(program, history) in &PROGRAMS {
        for &workers in &WORKERS {
            live_often(rt, alloc, program, history, workers, tally);
        }
    }
}

// With slices of two moves both threads of `CROSSED` take their first locks in the first round: so
// a deadlock is learnt, and once it is known one of them yields, however their calls fall in with
// each other.
#[test]
fn two_hundred_live_runs_are_checked(rt: HostRuntime) {
    let mut tally = Tally {
        runs: 0,
        learnt: 0,
        yielded: 0,
    };
    live_all(&rt, rt.alloc(), &mut tally);
    live_all(&rt, rt.alloc(), &mut tally);
    assert_eq!(rt; tally.runs, 200);
    assert!(rt; tally.learnt > 0 && tally.yielded > 0);
}

// The words of a report behind which numbers of entries stand, with the words of their lines in a
// trace.
const KINDS: [(&str, &[&str]); 9] = [
    ("go", &["go"]),
    ("yield", &["yield"]),
    ("got", &["got"]),
    ("free", &["free"]),
    ("took", &["took"]),
    ("miss", &["busy", "avoid"]),
    ("end", &["done", "trap", "spent"]),
    ("break", &["break"]),
    ("learn", &["learn"]),
];

// What a live run of the program of 7 leaves.
fn live_7<R: Abort + Threads + Wait + Sync>(rt: &R, alloc: Global) -> Around {
    let stored = call(rt, alloc, &["generate", "7", "p"], SMALLEST);
    let words = ["live", "p", "-", "h", "t", "--workers", "4"];
    call_after(rt, alloc, &words, stored)
}

// The report says of each kind what the trace has.
fn agree(rt: &impl Abort, report: &str, trace: &str) {
    for &(word, lines) in &KINDS {
        assert!(rt;
            number_at(report, word) == lines_with(trace, lines),
            "{word}"
        );
    }
    assert!(rt; number_at(report, "entries") == number_at(trace, "end"));
}

#[test]
fn a_generated_program_lives(rt: HostRuntime) {
    let live = live_7(&rt, rt.alloc());
    let trace = as_text(held(&rt, rt.alloc(), &live, "t"));
    agree(&rt, as_text(live.out.taken()), trace);
    succeeds_after(&rt, rt.alloc(), &CHECK_ALONE, live);
}
