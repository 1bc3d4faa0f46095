//! Histories that are shown, and those that are refused.

use crate::calls::{answers, call, done, ended, is_too_long, keeps};
use command_calls::large::{many_signatures, many_signatures_before};
use samples::histories::{LEARNT_BEFORE, SWITCHED_OFF};
use samples::programs::SMALLEST;
use std::alloc::Global;
use std::process::Abort;
use std::sync::Wait;
use std::thread::Threads;

// These words over a history g end with this status and put this.
fn shows<R: Abort + Threads + Wait + Sync>(
    rt: &R,
    alloc: Global,
    words: &str,
    history: &[u8],
    status: u8,
    put: &str,
) {
    let given = [("p", SMALLEST), ("g", history)];
    answers(rt, alloc, words, &given, status, put);
}

// Words, a history g, and what is put of it.
const SHOWN: [(&str, &[u8], &str); 3] = [
    (
        "show g",
        LEARNT_BEFORE,
        "signature 0 depth 4 on yields 0\nleft:0\nright:0\nsignatures 1\n",
    ),
    (
        "show g",
        SWITCHED_OFF,
        "signature 0 depth 4 off yields 0\nleft:0\nright:0\nsignatures 1\n",
    ),
    ("show -", LEARNT_BEFORE, "signatures 0\n"),
];

#[test]
fn a_history_is_shown(rt: HostRuntime) {
    for &(words, history, put) in &SHOWN {
        shows(&rt, rt.alloc(), words, history, 0, put);
    }
}

// Histories that are refused, and the line that is put of each.
const BAD: [(&[u8], &str); 4] = [
    (
        b"dim history 1\nsignature 4 2\nleft:0\nright:0\nend 1",
        "history line 5 kind 2\n",
    ),
    (
        b"dim history 1\nsignature 4 2\nleft:0\nright:0\nend 1\n\n",
        "history line 6 kind 8\n",
    ),
    (
        b"dim history 1\nsignature 4 2\nright:0\nleft:0\nend 1\n",
        "history line 4 kind 5\n",
    ),
    (
        b"dim history 1\nsignature 4 2\nleft:0\nright:0\nsignature 7 2\nleft:0\nright:0\nend 2\n",
        "history line 7 kind 6\n",
    ),
];

#[test]
fn a_history_may_be_bad(rt: HostRuntime) {
    for &(history, put) in &BAD {
        shows(&rt, rt.alloc(), "show g", history, 6, put);
    }
}

#[test]
fn a_history_may_be_too_long(rt: HostRuntime) {
    let put = "file long history\n";
    is_too_long(&rt, rt.alloc(), "show g", "g", 8_388_609, put);
}

// A run in slices of two moves.
const RUN: &str = "run p g h t --quantum 2";

// This history is too full for a run, which puts this.
fn is_too_full<R: Abort + Threads + Wait + Sync>(rt: &R, alloc: Global, text: String, put: &str) {
    shows(rt, alloc, RUN, text.as_bytes(), 10, put);
}

#[test]
fn a_history_may_be_too_full(rt: HostRuntime) {
    let before = many_signatures_before(rt.alloc(), 4081).expect(&rt, "a history");
    is_too_full(&rt, rt.alloc(), before, "history full 4081 112071\n");
    let text = many_signatures(rt.alloc(), 4081).expect(&rt, "a history");
    is_too_full(&rt, rt.alloc(), text, "history full 4081 132476\n");
}

// A run of this history keeps it, in this text.
fn is_kept<R: Abort + Threads + Wait + Sync>(rt: &R, alloc: Global, history: &[u8], text: &[u8]) {
    let after = call(rt, alloc, RUN, &[("p", SMALLEST), ("g", history)]);
    ended(rt, &after, RUN, 0);
    keeps(rt, alloc, &after, "h", text);
    done(after);
}

#[test]
fn the_largest_history_is_kept(rt: HostRuntime) {
    let text = many_signatures(rt.alloc(), 4080).expect(&rt, "a history");
    is_kept(&rt, rt.alloc(), text.as_bytes(), text.as_bytes());
    let before = many_signatures_before(rt.alloc(), 4080).expect(&rt, "a history");
    is_kept(&rt, rt.alloc(), before.as_bytes(), text.as_bytes());
}
