//! Traces that are checked.

use crate::calls::{answers, call, call_after, done, ended, failing, says};
use command_calls::Around;
use samples::histories::{INTERLEAVED, LEARNT};
use samples::programs::{CHAINED, CROSSED, PLAIN, SMALLEST};
use samples::traces;
use std::alloc::Global;
use std::process::Abort;
use std::sync::Wait;
use std::thread::Threads;

const CHECK: &str = "check p g t";

// A check with no history.
const ALONE: &str = "check p - t";

const GRANTED: &[u8] =
    b"dim trace 1\nsettings 8192 4\ngo 0 a left:0\ngot 0 a\ngo 1 b right:0\ngo 0 b left:1\ngot 0 b\nfree 0 b\nfree 0 a\ngo 1 b right:0\ngot 1 b\ndone 0\ngo 1 a right:1\ngot 1 a\nfree 1 a\nfree 1 b\ndone 1\nend 15\n";

const SPENT: &[u8] = b"dim trace 1\nsettings 8192 4\ngo 0 a main:2\ngot 0 a\nspent 0\nend 3\n";

const MISCOUNTED: &[u8] = b"dim trace 1\nsettings 8192 4\ndone 0\nend 2\n";

// Words, a program, a history and a trace, the status, and what is put.
type Row = (
    &'static str,
    &'static [u8],
    &'static [u8],
    &'static [u8],
    u8,
    &'static str,
);

fn is_checked<R: Abort + Threads + Wait + Sync>(rt: &R, alloc: Global, row: &Row) {
    let (words, program, history, trace, status, put) = *row;
    let given = [("p", program), ("g", history), ("t", trace)];
    answers(rt, alloc, words, &given, status, put);
}

const EXECUTED: [Row; 2] = [
    (CHECK, CROSSED, LEARNT, traces::AVOIDED, 0, "yes 15\n"),
    (ALONE, PLAIN, LEARNT, traces::SPENT, 0, "yes 3\n"),
];

#[test]
fn a_trace_executes_its_program(rt: HostRuntime) {
    for row in &EXECUTED {
        is_checked(&rt, rt.alloc(), row);
    }
}

const BREAKING: [Row; 3] = [
    (CHECK, CROSSED, LEARNT, GRANTED, 11, "no 2 legal\n"),
    (
        ALONE,
        CROSSED,
        LEARNT,
        traces::UNLEARNT,
        11,
        "no 6 settled\n",
    ),
    (ALONE, PLAIN, LEARNT, SPENT, 11, "no 2 walk\n"),
];

#[test]
fn a_trace_breaks_a_rule(rt: HostRuntime) {
    for row in &BREAKING {
        is_checked(&rt, rt.alloc(), row);
    }
}

const STARVING: [Row; 2] = [
    (CHECK, CHAINED, INTERLEAVED, traces::STARVED, 0, "yes 16\n"),
    (
        CHECK,
        CHAINED,
        INTERLEAVED,
        traces::STARVED_UNLEARNT,
        11,
        "no 6 legal\n",
    ),
];

#[test]
fn a_break_waits_for_its_learn(rt: HostRuntime) {
    for row in &STARVING {
        is_checked(&rt, rt.alloc(), row);
    }
}

const FAULTY: Row = (
    ALONE,
    SMALLEST,
    LEARNT,
    MISCOUNTED,
    13,
    "trace line 4 kind 5\n",
);

#[test]
fn a_trace_has_a_fault(rt: HostRuntime) {
    is_checked(&rt, rt.alloc(), &FAULTY);
}

// The trace that a run left executes its program, with this line.
fn is_executed<R: Abort + Threads + Wait + Sync>(
    rt: &R,
    alloc: Global,
    run: Around,
    words: &str,
    put: &str,
) {
    let after = call_after(rt, alloc, words, run);
    says(rt, &after, words, 0, put);
    done(after);
}

#[test]
fn a_run_is_checked(rt: HostRuntime) {
    let given = [("p", CROSSED), ("g", LEARNT)];
    let run = call(&rt, rt.alloc(), "run p g h t --quantum 2", &given);
    is_executed(&rt, rt.alloc(), run, CHECK, "yes 15\n");
}

// The run of a program that was generated. It puts what `generate` put.
fn generated_run<R: Abort + Threads + Wait + Sync>(rt: &R, alloc: Global) -> Around {
    let stored = call(rt, alloc, "generate 7 p", &[("p", SMALLEST)]);
    assert_eq!(rt; stored.status, 0);
    let put = Vec::from_slice(alloc, stored.out.taken()).expect(rt, "bytes");
    let run = call_after(rt, alloc, "run p - h t", stored);
    assert!(rt; run.says(3, put.as_slice()));
    run
}

#[test]
fn the_run_of_a_generated_program_is_checked(rt: HostRuntime) {
    let run = generated_run(&rt, rt.alloc());
    is_executed(&rt, rt.alloc(), run, ALONE, "yes 123\n");
}

const GOOD: [(&str, &[u8]); 3] = [("p", SMALLEST), ("g", LEARNT), ("t", traces::SMALLEST)];

// Words, the calls on good files that fail, the status, and what is put.
type Judged = (&'static str, &'static [u32], u8, &'static str);

fn is_judged<R: Abort + Threads + Wait + Sync>(rt: &R, alloc: Global, row: &Judged) {
    let (words, fails, status, put) = *row;
    let after = failing(rt, alloc, words, &GOOD, fails, &[]);
    says(rt, &after, words, status, put);
    done(after);
}

const FETCHED: [Judged; 4] = [
    (CHECK, &[3], 7, "file fault trace\n"),
    (ALONE, &[2], 7, "file fault trace\n"),
    ("check p g s", &[], 16, "file absent trace\n"),
    ("check g p s", &[], 16, "file absent trace\n"),
];

#[test]
fn a_trace_is_fetched_last(rt: HostRuntime) {
    for row in &FETCHED {
        is_judged(&rt, rt.alloc(), row);
    }
}

const IN_ORDER: [Judged; 3] = [
    ("check t t p", &[], 5, "program line 1 kind 1\n"),
    ("check p p p", &[], 6, "history line 1 kind 1\n"),
    ("check p g p", &[], 13, "trace line 1 kind 1\n"),
];

#[test]
fn texts_are_judged_in_order(rt: HostRuntime) {
    for row in &IN_ORDER {
        is_judged(&rt, rt.alloc(), row);
    }
}

// Words, and their status over good files.
const NAMED: [(&str, u8); 6] = [
    (ALONE, 0),
    ("check p -", 2),
    ("check - - t", 2),
    ("check p - -", 2),
    ("check p - t t", 2),
    ("check p - t --depth 4", 2),
];

fn ends<R: Abort + Threads + Wait + Sync>(rt: &R, alloc: Global, words: &str, status: u8) {
    let after = call(rt, alloc, words, &GOOD);
    ended(rt, &after, words, status);
    done(after);
}

#[test]
fn words_are_three_names(rt: HostRuntime) {
    for &(words, status) in &NAMED {
        ends(&rt, rt.alloc(), words, status);
    }
}
