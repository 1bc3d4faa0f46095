//! Attempts, of which each begins with what the one before learnt.
use crate::leaving::Wanted::{Front, Whole};
use crate::leaving::{Left, NOTHING_MORE, has_left, leaves, leaves_alone};
use command_calls::large::many_signatures;
use command_calls::loaded;
use samples::histories::{AVOIDED, EMPTY, INTERLEAVED, LEARNT, SWITCHED_OFF};
use samples::programs::{CROSSED, LEADS_ON, NEVER_FREED, SMALLEST};
use samples::traces;
use std::alloc::Global;
use std::process::Abort;
use std::sync::Wait;
use std::thread::Threads;

const ALONE: [&str; 7] = ["immunize", "p", "-", "h", "t", "--quantum", "2"];

const LOADED: [&str; 7] = ["immunize", "p", "g", "h", "t", "--quantum", "2"];

#[test]
fn the_second_attempt_avoids_what_the_first_one_learnt(rt: HostRuntime) {
    let left = Left {
        status: 0,
        report: Whole(
            b"attempt 1 deadlocked learnt 1\nattempt 2 finished learnt 0\noutcome finished\nentries 15\ngo 4\nyield 1\ngot 4\nfree 4\ntook 0\nmiss 0\nend 2\nbreak 0\nlearn 0\nsignatures 1\nthread 0 done said 0 last 0\nthread 1 done said 0 last 0\n",
        ),
        history: Whole(AVOIDED),
        trace: Whole(traces::AVOIDED),
    };
    leaves_alone(&rt, rt.alloc(), &ALONE, CROSSED, left);
}

// The signature that was loaded, and that of the starvation that the first attempt learnt: each
// has kept one thread from its lock.
#[test]
fn a_starvation_that_is_learnt_is_avoided_in_the_next_attempt(rt: HostRuntime) {
    let left = Left {
        status: 0,
        report: Front(
            b"attempt 1 deadlocked learnt 1\nattempt 2 finished learnt 0\noutcome finished\nentries 21\n",
        ),
        history: Whole(
            b"dim history 2\nsignature 4 2 on 1\nleft:0\nright:1\nsignature 4 2 on 1\nleft:0\nright:0\nend 2\n",
        ),
        trace: Front(
            b"dim trace 1\nsettings 8192 4\ngo 0 a left:0\ngot 0 a\nyield 1 c 1 2 0 2 right:0\n",
        ),
    };
    leaves(&rt, rt.alloc(), &LOADED, LEADS_ON, INTERLEAVED, left);
}

#[test]
fn no_more_attempts_are_made_than_are_allowed(rt: HostRuntime) {
    let words = [
        "immunize",
        "p",
        "-",
        "h",
        "t",
        "--quantum",
        "2",
        "--attempts",
        "1",
    ];
    let left = Left {
        status: 3,
        report: Whole(
            b"attempt 1 deadlocked learnt 1\noutcome deadlocked\nentries 7\ngo 4\nyield 0\ngot 2\nfree 0\ntook 0\nmiss 0\nend 0\nbreak 0\nlearn 1\nsignatures 1\nthread 0 waits b said 0 last 0\nthread 1 waits a said 0 last 0\n",
        ),
        history: Whole(LEARNT),
        trace: Whole(traces::LEARNT),
    };
    leaves_alone(&rt, rt.alloc(), &words, CROSSED, left);
}

#[test]
fn a_deadlock_that_is_known_ends_the_attempts(rt: HostRuntime) {
    let left = Left {
        status: 3,
        report: Front(b"attempt 1 deadlocked learnt 0\noutcome deadlocked\nentries 6\n"),
        history: Whole(SWITCHED_OFF),
        trace: Whole(traces::UNLEARNT),
    };
    leaves(&rt, rt.alloc(), &LOADED, CROSSED, SWITCHED_OFF, left);
}

#[test]
fn a_run_without_a_deadlock_ends_them_too(rt: HostRuntime) {
    let finished = Left {
        report: Front(b"attempt 1 finished learnt 0\noutcome finished\nentries 1\n"),
        history: Whole(EMPTY),
        trace: Whole(traces::SMALLEST),
        ..NOTHING_MORE
    };
    leaves_alone(&rt, rt.alloc(), &ALONE, SMALLEST, finished);
    let stalled = Left {
        status: 4,
        report: Front(b"attempt 1 stalled learnt 0\noutcome stalled\nentries 4\n"),
        history: Whole(EMPTY),
        ..NOTHING_MORE
    };
    leaves_alone(&rt, rt.alloc(), &ALONE, NEVER_FREED, stalled);
}

// From a history with so many signatures that meet none of the program's stacks this is left.
fn leaves_beside<R: Abort + Threads + Wait + Sync>(
    rt: &R,
    alloc: Global,
    count: u32,
    left: Left<'_>,
) {
    let history = many_signatures(alloc, count).expect(rt, "a history");
    let after = loaded(rt, alloc, &LOADED, CROSSED, history.as_bytes()).expect(rt, "memory");
    has_left(rt, alloc, &LOADED, &after, left);
}

#[test]
fn a_history_that_is_full_ends_them(rt: HostRuntime) {
    let left = Left {
        status: 3,
        report: Front(b"attempt 1 deadlocked learnt 1\noutcome deadlocked\n"),
        trace: Whole(traces::LEARNT),
        ..NOTHING_MORE
    };
    leaves_beside(&rt, rt.alloc(), 4_080, left);
}

#[test]
fn one_that_is_just_not_full_is_loaded_again(rt: HostRuntime) {
    let left = Left {
        report: Front(
            b"attempt 1 deadlocked learnt 1\nattempt 2 finished learnt 0\noutcome finished\n",
        ),
        ..NOTHING_MORE
    };
    leaves_beside(&rt, rt.alloc(), 4_079, left);
}
