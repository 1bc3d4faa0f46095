//! Runs whose slices go beside each other.

use crate::calls::{call, call_failing, done, files_of, held, keeps, succeeds_after};
use crate::reports::{as_text, lines_with};
use command_calls::large::{crowd, crowd_history};
use command_calls::words::{CHECK, LIVE, RUN};
use command_calls::{Around, loaded, words_of};
use dim_base::MemSink;
use dim_cli::quiet;
use samples::histories::{EMPTY, LEARNT};
use samples::programs::{CROSSED, SMALLEST};
use samples::{reports, traces};
use std::alloc::Global;
use std::process::Abort;
use std::sync::Wait;
use std::thread::Threads;

#[test]
fn the_smallest_program_lives_as_it_runs(rt: HostRuntime) {
    let after = call(&rt, rt.alloc(), &LIVE, SMALLEST);
    assert!(rt; after.says(0, reports::SMALLEST));
    keeps(&rt, rt.alloc(), &after, "h", EMPTY);
    keeps(&rt, rt.alloc(), &after, "t", traces::SMALLEST);
    assert!(rt; after.passed == 1);
    done(after);
}

const TWO_WORKERS: [&str; 9] = [
    "live",
    "p",
    "g",
    "h",
    "t",
    "--quantum",
    "2",
    "--workers",
    "2",
];

// The new history of a run with the crossed orders has as many yields as its trace.
fn counts_yields(rt: &impl Abort, alloc: Global, after: &Around) {
    let yields = lines_with(as_text(held(rt, alloc, after, "t")), &["yield"]);
    let wanted = format!(in alloc;
        "dim history 2\nsignature 4 2 on {yields}\nleft:0\nright:0\nend 1\n"
    ).expect(rt, "a text");
    keeps(rt, alloc, after, "h", wanted.as_bytes());
}

// A live run in which the deadlock is known finishes, and is checked.
fn avoids<R: Abort + Threads + Wait + Sync>(rt: &R, alloc: Global) {
    let after = loaded(rt, alloc, &TWO_WORKERS, CROSSED, LEARNT).expect(rt, "memory");
    assert!(rt; after.status == 0);
    counts_yields(rt, alloc, &after);
    succeeds_after(rt, alloc, &CHECK, after);
}

#[test]
fn a_known_deadlock_never_comes(rt: HostRuntime) {
    for _ in 0..50 {
        avoids(&rt, rt.alloc());
    }
}

// Words, and the status of their call.
const OPTIONS: [(&[&str], u8); 5] = [
    (&["run", "p", "-", "h", "t", "--workers", "2"], 2),
    (&["live", "p", "-", "h", "t", "--seed", "1"], 2),
    (&["live", "p", "-", "h", "t", "--workers", "16"], 0),
    (&["live", "p", "-", "h", "t", "--workers", "17"], 2),
    (&["live", "p", "-", "h", "t", "--workers", "0"], 2),
];

// The call of these words ends with this status.
fn ends<R: Abort + Threads + Wait + Sync>(rt: &R, alloc: Global, words: &[&str], status: u8) {
    let after = call(rt, alloc, words, SMALLEST);
    assert!(rt; after.status == status, "{words:?}");
}

#[test]
fn each_command_has_its_own_options(rt: HostRuntime) {
    for &(words, status) in &OPTIONS {
        ends(&rt, rt.alloc(), words, status);
    }
}

// One worker plays one slice after the other. Where threads take two locks in crossed orders, slices
// of two moves meet in the deadlock, and those of sixteen do all of a thread's work.
const SLICES: [(&str, u8); 2] = [("2", 3), ("16", 0)];

fn ends_by_quantum<R: Abort + Threads + Wait + Sync>(
    rt: &R,
    alloc: Global,
    quantum: &str,
    status: u8,
) {
    let words = [
        "live",
        "p",
        "-",
        "h",
        "t",
        "--workers",
        "1",
        "--quantum",
        quantum,
    ];
    let after = call(rt, alloc, &words, CROSSED);
    assert!(rt; after.status == status, "{quantum}");
    done(after);
}

#[test]
fn one_worker_goes_by_the_quantum(rt: HostRuntime) {
    for &(quantum, status) in &SLICES {
        ends_by_quantum(&rt, rt.alloc(), quantum, status);
    }
}

#[test]
fn the_house_is_left_by_other_commands(rt: HostRuntime) {
    let after = call(&rt, rt.alloc(), &RUN, SMALLEST);
    assert!(rt; after.status == 0);
    assert!(rt; after.passed == 0);
    done(after);
}

#[test]
fn a_store_of_a_live_run_may_fail(rt: HostRuntime) {
    let after = call_failing(&rt, rt.alloc(), &LIVE, SMALLEST, &[3], &[]);
    assert!(rt; after.says(7, b"file fault trace\n"));
    keeps(&rt, rt.alloc(), &after, "h", EMPTY);
    done(after);
}

// The status of a call that waits for nothing.
fn quiet_status(rt: &impl Abort, alloc: Global, words: &[&str]) -> u8 {
    let mut files = files_of(rt, alloc, SMALLEST);
    let mut out = MemSink::new(alloc, &[]).expect(rt, "a sink");
    let words = words_of(alloc, words).expect(rt, "words");
    quiet(alloc, &words, &mut files, &mut out)
}

#[test]
fn what_waits_for_nothing_knows_no_live(rt: HostRuntime) {
    assert_eq!(rt; quiet_status(&rt, rt.alloc(), &LIVE), 2);
    assert_eq!(rt; quiet_status(&rt, rt.alloc(), &RUN), 0);
}

const SIXTEEN_WORKERS: [&str; 9] = [
    "live",
    "p",
    "g",
    "h",
    "t",
    "--quantum",
    "1024",
    "--workers",
    "16",
];

// What a live run of the crowd leaves.
fn live_crowd<R: Abort + Threads + Wait + Sync>(rt: &R, alloc: Global) -> Around {
    let program = crowd(alloc).expect(rt, "a program");
    let history = crowd_history(alloc, 0).expect(rt, "a history");
    let (program, history) = (program.as_bytes(), history.as_bytes());
    loaded(rt, alloc, &SIXTEEN_WORKERS, program, history).expect(rt, "memory")
}

#[test]
fn the_largest_crowd_lives(rt: HostRuntime) {
    let after = live_crowd(&rt, rt.alloc());
    assert!(rt; after.status == 0);
    succeeds_after(&rt, rt.alloc(), &CHECK, after);
}
