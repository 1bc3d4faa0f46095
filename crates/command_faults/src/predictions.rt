//! What `predict` says of traces, and the histories that it leaves.
use crate::calls::{answers, call, call_after, done, keeps, refuses, says};
use samples::histories::{EMPTY, LEARNT};
use samples::programs::CROSSED;
use samples::traces;
use std::alloc::{AllocError, Global};
use std::fmt::Write;
use std::process::Abort;
use std::sync::Wait;
use std::thread::Threads;

const RUN: &str = "run p - g t";

const PREDICT: &str = "predict p - t h";

const ONE_ADDED: &str = "candidates 1 added 1\n";

const NONE: &str = "candidates 0 added 0\n";

#[test]
fn a_good_run_is_enough_to_be_immune(rt: HostRuntime) {
    let alloc = rt.alloc();
    let good = call(&rt, alloc, RUN, &[("p", CROSSED)]);
    let after = call_after(&rt, alloc, PREDICT, good);
    says(&rt, &after, PREDICT, 0, ONE_ADDED);
    keeps(&rt, alloc, &after, "h", LEARNT);
    let immune = call_after(&rt, alloc, "run p h n u --quantum 2", after);
    keeps(&rt, alloc, &immune, "u", traces::AVOIDED);
    done(immune);
}

// `CROSSED`, where both threads hold a third lock all the time.
const GUARDED: &[u8] =
    b"dim program 1\nlock a\nlock b\nlock g\nfunc left 0\nLOCK g\nLOCK a\nLOCK b\nUNLOCK b\nUNLOCK a\nUNLOCK g\nRET\nend\nfunc right 0\nLOCK g\nLOCK b\nLOCK a\nUNLOCK a\nUNLOCK b\nUNLOCK g\nRET\nend\nthread left 0\nthread right 0\nend program\n";

// A thread that takes two locks in both orders, one after the other, while the other takes none.
const ALONE: &[u8] =
    b"dim program 1\nlock a\nlock b\nfunc both 0\nLOCK a\nLOCK b\nUNLOCK b\nUNLOCK a\nLOCK b\nLOCK a\nUNLOCK a\nUNLOCK b\nRET\nend\nfunc none 0\nRET\nend\nthread both 0\nthread none 0\nend program\n";

// What is predicted of the run of a program with a history leaves this history, and puts this.
fn leaves<R: Abort + Threads + Wait + Sync>(
    rt: &R,
    alloc: Global,
    program: &[u8],
    words: &str,
    put: &str,
    history: &[u8],
) {
    let given = [("p", program), ("l", LEARNT)];
    let after = call_after(rt, alloc, words, call(rt, alloc, RUN, &given));
    says(rt, &after, words, 0, put);
    keeps(rt, alloc, &after, "h", history);
    done(after);
}

#[test]
fn no_alarm_is_false_by_a_common_lock_or_one_thread(rt: HostRuntime) {
    leaves(&rt, rt.alloc(), GUARDED, PREDICT, NONE, EMPTY);
    leaves(&rt, rt.alloc(), ALONE, PREDICT, NONE, EMPTY);
}

const SHALLOW: &[u8] = b"dim history 2\nsignature 1 2 on 0\nleft:0\nright:0\nend 1\n";

#[test]
fn a_candidate_has_the_depth_asked_for_and_is_added_once(rt: HostRuntime) {
    let words = "predict p - t h --depth 1";
    leaves(&rt, rt.alloc(), CROSSED, words, ONE_ADDED, SHALLOW);
    leaves(&rt, rt.alloc(), CROSSED, "predict p l t h", NONE, LEARNT);
}

const GRANTED: &[u8] =
    b"dim trace 1\nsettings 8192 4\ngo 0 a left:0\ngot 0 a\ngo 1 b right:0\nend 3\n";

#[test]
fn a_trace_that_does_not_execute_the_program_foretells_nothing(rt: HostRuntime) {
    let given = [("p", CROSSED), ("l", LEARNT), ("t", GRANTED)];
    let words = "predict p l t h";
    refuses(&rt, rt.alloc(), words, &given, 11, "no 2 legal\n");
    let given = [("p", CROSSED), ("t", CROSSED)];
    refuses(
        &rt,
        rt.alloc(),
        PREDICT,
        &given,
        13,
        "trace line 1 kind 1\n",
    );
}

// One thread that takes so many locks, one after the other, and keeps them. Each is taken while it
// holds those before it.
fn taking(alloc: Global, locks: u32) -> Result<String, AllocError> {
    let mut text = String::from_str(alloc, "dim program 1\n")?;
    for i in 0..locks {
        writeln!(text, "lock l{i}")?;
    }
    writeln!(text, "func main 0")?;
    for i in 0..locks {
        writeln!(text, "LOCK l{i}")?;
    }
    writeln!(text, "RET\nend\nthread main 0\nend program")?;
    Ok(text)
}

fn ends_with<R: Abort + Threads + Wait + Sync>(
    rt: &R,
    alloc: Global,
    locks: u32,
    status: u8,
    put: &str,
) {
    let program = taking(alloc, locks).expect(rt, "a program");
    let good = call(rt, alloc, RUN, &[("p", program.as_bytes())]);
    let after = call_after(rt, alloc, PREDICT, good);
    says(rt, &after, PREDICT, status, put);
    done(after);
}

// 91 locks make 4,095 nestings, and 92 make 4,186.
#[test]
fn more_than_4096_nestings_are_refused(rt: HostRuntime) {
    ends_with(&rt, rt.alloc(), 91, 0, NONE);
    ends_with(&rt, rt.alloc(), 92, 15, "nestings over 4096\n");
}
