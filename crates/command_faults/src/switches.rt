//! Signatures that are switched off and on.
use crate::calls::{call, call_after, done, ended, failing, is_too_long, keeps, refuses, says};
use samples::histories::{AVOIDED, LEARNT, LEARNT_BEFORE, SWITCHED_OFF};
use samples::programs::SMALLEST;
use std::alloc::Global;
use std::process::Abort;
use std::sync::Wait;
use std::thread::Threads;

const OFF: &str = "switch g 0 off h";

const ON: &str = "switch h 0 on n";

// These words over a history g put this, store the new history, and leave g as it was.
fn switches<R: Abort + Threads + Wait + Sync>(
    rt: &R,
    alloc: Global,
    words: &str,
    history: &[u8],
    put: &str,
    new: &[u8],
) {
    let after = call(rt, alloc, words, &[("p", SMALLEST), ("g", history)]);
    says(rt, &after, words, 0, put);
    keeps(rt, alloc, &after, "h", new);
    keeps(rt, alloc, &after, "g", history);
    done(after);
}

// Histories with the same signature, in each version and switched off already.
const ALIKE: [&[u8]; 3] = [LEARNT, LEARNT_BEFORE, SWITCHED_OFF];

#[test]
fn a_signature_is_switched_off(rt: HostRuntime) {
    let put = "signature 0 off\n";
    for &history in &ALIKE {
        switches(&rt, rt.alloc(), OFF, history, put, SWITCHED_OFF);
    }
}

#[test]
fn a_signature_is_switched_on_again(rt: HostRuntime) {
    let off = call(&rt, rt.alloc(), OFF, &[("p", SMALLEST), ("g", AVOIDED)]);
    let after = call_after(&rt, rt.alloc(), ON, off);
    says(&rt, &after, ON, 0, "signature 0 on\n");
    keeps(&rt, rt.alloc(), &after, "n", AVOIDED);
    done(after);
}

const SEVERAL: &[u8] =
    b"dim history 2\nsignature 1 2 on 7\na:0\nb:0\nsignature 2 3 on 9\na:1\na:1\nb:0 c:4\nsignature 32 2 off 3\na:2\nb:2\nend 3\n";

// The same with the second one switched off.
const ONE_OFF: &[u8] =
    b"dim history 2\nsignature 1 2 on 7\na:0\nb:0\nsignature 2 3 off 9\na:1\na:1\nb:0 c:4\nsignature 32 2 off 3\na:2\nb:2\nend 3\n";

#[test]
fn one_signature_of_several_is_switched(rt: HostRuntime) {
    let (words, put) = ("switch g 1 off h", "signature 1 off\n");
    switches(&rt, rt.alloc(), words, SEVERAL, put, ONE_OFF);
}

// The files of most calls.
const GIVEN: [(&str, &[u8]); 2] = [("p", SMALLEST), ("g", LEARNT)];

// Words whose number no signature has, and the line that is put.
const UNKNOWN: [(&str, &str); 3] = [
    ("switch g 1 off h", "no signature 1\n"),
    ("switch g 4294967295 on h", "no signature 4294967295\n"),
    ("switch - 0 on h", "no signature 0\n"),
];

#[test]
fn a_number_may_be_that_of_no_signature(rt: HostRuntime) {
    for &(words, put) in &UNKNOWN {
        refuses(&rt, rt.alloc(), words, &GIVEN, 14, put);
    }
}

#[test]
fn a_store_or_a_put_may_fail(rt: HostRuntime) {
    let stored = failing(&rt, rt.alloc(), OFF, &GIVEN, &[2], &[]);
    says(&rt, &stored, OFF, 7, "file fault newhistory\n");
    done(stored);
    let put = failing(&rt, rt.alloc(), OFF, &GIVEN, &[], &[1]);
    ended(&rt, &put, OFF, 8);
    keeps(&rt, rt.alloc(), &put, "h", SWITCHED_OFF);
    done(put);
}

#[test]
fn a_history_may_be_too_long_to_switch(rt: HostRuntime) {
    let put = "file long history\n";
    is_too_long(&rt, rt.alloc(), OFF, "g", 8_388_609, put);
}
