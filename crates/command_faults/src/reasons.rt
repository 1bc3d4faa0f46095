//! Why the threads of a trace yielded.

use crate::calls::{answers, call, call_after, done, failing, says};
use samples::histories::{INTERLEAVED, LEARNT};
use samples::programs::{CHAINED, CROSSED, PLAIN, SMALLEST};
use samples::traces;
use std::alloc::Global;
use std::process::Abort;
use std::sync::Wait;
use std::thread::Threads;

const WHY: &str = "why p g t";

const RUN: &str = "run p g h t --quantum 2";

// The thread that is let on first has freed a lock of the signature.
const WOKEN: &str =
    "yield 2 thread 1 lock b sig 0\nby 0 a held left:0\nwoken 6\nsignature 0 yields 1 broken 0\nyields 1\n";

// The thread is broken out of a starvation, whose signature is learnt at place 6.
const BROKEN: &str =
    "yield 5 thread 1 lock b sig 0\nby 0 a held left:0\nbroken 7\nsignature 0 yields 1 broken 1\nsignature 1 yields 0 broken 0\nyields 1\n";

// A program, a history and a trace, and what is put.
type Row = (&'static [u8], &'static [u8], &'static [u8], &'static str);

fn explains<R: Abort + Threads + Wait + Sync>(rt: &R, alloc: Global, row: &Row) {
    let (program, history, trace, put) = *row;
    let given = [("p", program), ("g", history), ("t", trace)];
    answers(rt, alloc, WHY, &given, 0, put);
}

const REASONS: [Row; 3] = [
    (CROSSED, LEARNT, traces::AVOIDED, WOKEN),
    (CHAINED, INTERLEAVED, traces::STARVED, BROKEN),
    (
        SMALLEST,
        LEARNT,
        traces::SMALLEST,
        "signature 0 yields 0 broken 0\nyields 0\n",
    ),
];

#[test]
fn each_yield_has_its_reason(rt: HostRuntime) {
    for row in &REASONS {
        explains(&rt, rt.alloc(), row);
    }
}

// Thread 2 waits for an edge of thread 1, which is allowed on a lock that thread 0 holds.
const ALLOWED: &[u8] =
    b"dim program 1\nlock a\nlock b\nfunc w0 0\nLOCK a\nUNLOCK a\nRET\nend\nfunc w1 0\nLOCK a\nUNLOCK a\nRET\nend\nfunc w2 0\nLOCK b\nUNLOCK b\nRET\nend\nthread w0 0\nthread w1 0\nthread w2 0\nend program\n";

const ALLOWED_HISTORY: &[u8] = b"dim history 2\nsignature 4 2 on 0\nw1:0\nw2:0\nend 1\n";

const ALLOWED_PUT: &str =
    "yield 3 thread 2 lock b sig 0\nby 1 a allowed w1:0\nwoken 7\nsignature 0 yields 1 broken 0\nyields 1\n";

// Thread 0 takes its lock twice, and gives it back twice.
const TWICE: &[u8] =
    b"dim program 1\nlock a\nlock b\nfunc w0 0\nLOCK a\nLOCK a\nUNLOCK a\nUNLOCK a\nRET\nend\nfunc w1 0\nLOCK b\nUNLOCK b\nRET\nend\nthread w0 0\nthread w1 0\nend program\n";

const TWICE_HISTORY: &[u8] = b"dim history 2\nsignature 4 2 on 0\nw0:0\nw1:0\nend 1\n";

const TWICE_PUT: &str =
    "yield 2 thread 1 lock b sig 0\nby 0 a held w0:0\nwoken 5\nsignature 0 yields 1 broken 0\nyields 1\n";

// Thread 2 waits for an edge of each of the others, of which thread 1 gives up its own first.
const THREE: &[u8] =
    b"dim program 1\nlock a\nlock b\nlock c\nfunc w0 0\nLOCK a\nPUSH 1\nPOP\nUNLOCK a\nRET\nend\nfunc w1 0\nLOCK b\nUNLOCK b\nRET\nend\nfunc w2 0\nLOCK c\nUNLOCK c\nRET\nend\nthread w0 0\nthread w1 0\nthread w2 0\nend program\n";

const THREE_HISTORY: &[u8] = b"dim history 2\nsignature 4 3 on 0\nw0:0\nw1:0\nw2:0\nend 1\n";

const THREE_PUT: &str =
    "yield 4 thread 2 lock c sig 0\nby 0 a held w0:0\nby 1 b held w1:0\nwoken 5\nsignature 0 yields 1 broken 0\nyields 1\n";

// A program and a history, and what is put of their run.
type Run = (&'static [u8], &'static [u8], &'static str);

const RUNS: [Run; 5] = [
    (ALLOWED, ALLOWED_HISTORY, ALLOWED_PUT),
    (TWICE, TWICE_HISTORY, TWICE_PUT),
    (THREE, THREE_HISTORY, THREE_PUT),
    (CROSSED, LEARNT, WOKEN),
    (CHAINED, INTERLEAVED, BROKEN),
];

// The run of a program has these reasons.
fn has_reasons<R: Abort + Threads + Wait + Sync>(rt: &R, alloc: Global, row: &Run) {
    let (program, history, put) = *row;
    let run = call(rt, alloc, RUN, &[("p", program), ("g", history)]);
    let after = call_after(rt, alloc, WHY, run);
    says(rt, &after, WHY, 0, put);
    done(after);
}

#[test]
fn a_run_is_explained(rt: HostRuntime) {
    for row in &RUNS {
        has_reasons(&rt, rt.alloc(), row);
    }
}

const GRANTED: &[u8] =
    b"dim trace 1\nsettings 8192 4\ngo 0 a left:0\ngot 0 a\ngo 1 b right:0\nend 3\n";

// Words, a program and a trace, the status, and what is put.
type Refused = (&'static str, &'static [u8], &'static [u8], u8, &'static str);

const REFUSED: [Refused; 5] = [
    (WHY, CROSSED, GRANTED, 11, "no 2 legal\n"),
    ("why p - t", CROSSED, traces::UNLEARNT, 11, "no 6 settled\n"),
    (
        "why t g t",
        PLAIN,
        traces::SPENT,
        5,
        "program line 1 kind 1\n",
    ),
    (
        "why p p p",
        PLAIN,
        traces::SPENT,
        6,
        "history line 1 kind 1\n",
    ),
    (
        "why p g p",
        PLAIN,
        traces::SPENT,
        13,
        "trace line 1 kind 1\n",
    ),
];

fn is_refused<R: Abort + Threads + Wait + Sync>(rt: &R, alloc: Global, row: &Refused) {
    let (words, program, trace, status, put) = *row;
    let given = [("p", program), ("g", LEARNT), ("t", trace)];
    answers(rt, alloc, words, &given, status, put);
}

#[test]
fn what_check_refuses_has_no_reasons(rt: HostRuntime) {
    for row in &REFUSED {
        is_refused(&rt, rt.alloc(), row);
    }
}

const GOOD: [(&str, &[u8]); 3] = [("p", SMALLEST), ("g", LEARNT), ("t", traces::SMALLEST)];

// Words, the calls on good files that fail, the status, and what is put.
type Failed = (&'static str, &'static [u32], u8, &'static str);

const FAILED: [Failed; 4] = [
    (WHY, &[1], 7, "file fault program\n"),
    (WHY, &[2], 7, "file fault history\n"),
    (WHY, &[3], 7, "file fault trace\n"),
    ("why p g s", &[], 16, "file absent trace\n"),
];

fn is_failed<R: Abort + Threads + Wait + Sync>(rt: &R, alloc: Global, row: &Failed) {
    let (words, fails, status, put) = *row;
    let after = failing(rt, alloc, words, &GOOD, fails, &[]);
    says(rt, &after, words, status, put);
    done(after);
}

#[test]
fn its_files_are_those_of_a_check(rt: HostRuntime) {
    for row in &FAILED {
        is_failed(&rt, rt.alloc(), row);
    }
}
