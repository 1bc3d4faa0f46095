//! Runs at the limits.
use crate::leaving::Wanted::{Front, Whole};
use crate::leaving::{Left, NOTHING_MORE, has_left, leaves, leaves_alone, spends};
use command_calls::large::{crowd, crowd_history, many_signatures_before};
use command_calls::words::{SHORT_SLICES, SHORT_SLICES_ALONE};
use command_calls::{Around, loaded, over};
use samples::histories::{EMPTY, LEARNT};
use samples::programs::{CROSSED, NEVER_FREED, PLAIN};
use samples::traces;
use std::alloc::{AllocError, Global};
use std::fmt::Write;
use std::process::Abort;
use std::sync::Wait;
use std::thread::Threads;

// The trace of the crowd, of which the last thread's request would complete the signature.
fn crowd_trace(alloc: Global) -> Result<String, AllocError> {
    let mut text = String::from_str(alloc, "dim trace 1\nsettings 8192 4\n")?;
    for k in 0..31 {
        write!(text, "go {k} k{k:02} w:0\ngot {k} k{k:02}\n")?;
    }
    text.push_str("yield 31 k31 0 32")?;
    for k in 0..32u32 {
        write!(text, " {}", 2 * k)?;
    }
    text.push_str(" w:0\n")?;
    for k in 0..31 {
        writeln!(text, "done {k}")?;
    }
    text.push_str("break 4294967295 31\ngot 31 k31\ndone 31\nend 97\n")?;
    Ok(text)
}

// The run of the crowd, whose signature is known, leaves this.
fn crowd_leaves<R: Abort + Threads + Wait + Sync>(rt: &R, alloc: Global, left: Left<'_>) {
    let program = crowd(alloc).expect(rt, "a program");
    let history = crowd_history(alloc, 0).expect(rt, "a history");
    let (program, history) = (program.as_bytes(), history.as_bytes());
    leaves(rt, alloc, &SHORT_SLICES, program, history, left);
}

#[test]
fn the_largest_signature_is_avoided(rt: HostRuntime) {
    let history = crowd_history(rt.alloc(), 1).expect(&rt, "a history");
    let trace = crowd_trace(rt.alloc()).expect(&rt, "a trace");
    let left = Left {
        status: 0,
        history: Whole(history.as_bytes()),
        trace: Whole(trace.as_bytes()),
        ..NOTHING_MORE
    };
    crowd_leaves(&rt, rt.alloc(), left);
}

// A function that calls itself, and one that pushes operands, for ever.
const DEEPER: &[u8] = b"dim program 1\nfunc f 0\nCALL f\nRET\nend\nthread f 0\nend program\n";

const FULLER: &[u8] = b"dim program 1\nfunc g 0\nPUSH 1\nJMP 0\nend\nthread g 0\nend program\n";

// Programs, the fuel of each thread, and the trace.
const SHORT_OF_FUEL: [(&[u8], &str, &[u8]); 7] = [
    (PLAIN, "1", b"dim trace 1\nsettings 1 4\nspent 0\nend 1\n"),
    (PLAIN, "2", b"dim trace 1\nsettings 2 4\nspent 0\nend 1\n"),
    (
        NEVER_FREED,
        "1",
        b"dim trace 1\nsettings 1 4\nspent 0\nspent 1\nend 2\n",
    ),
    (
        DEEPER,
        "31",
        b"dim trace 1\nsettings 31 4\nspent 0\nend 1\n",
    ),
    (
        DEEPER,
        "32",
        b"dim trace 1\nsettings 32 4\ntrap 0 3\nend 1\n",
    ),
    (
        FULLER,
        "510",
        b"dim trace 1\nsettings 510 4\nspent 0\nend 1\n",
    ),
    (
        FULLER,
        "511",
        b"dim trace 1\nsettings 511 4\ntrap 0 2\nend 1\n",
    ),
];

#[test]
fn fuel_ends_before_a_trap_or_behind_it(rt: HostRuntime) {
    for &(program, fuel, trace) in &SHORT_OF_FUEL {
        spends(&rt, rt.alloc(), program, fuel, trace);
    }
}

const FUEL_OF_2: [&str; 9] = ["run", "p", "g", "h", "t", "--quantum", "2", "--fuel", "2"];

#[test]
fn fuel_ends_where_a_thread_yields(rt: HostRuntime) {
    let left = Left {
        status: 0,
        trace: Whole(
            b"dim trace 1\nsettings 2 4\ngo 0 a left:0\ngot 0 a\nyield 1 b 0 2 0 2 right:0\nspent 0\nbreak 3 1\ngot 1 b\nspent 1\nend 7\n",
        ),
        ..NOTHING_MORE
    };
    leaves(&rt, rt.alloc(), &FUEL_OF_2, CROSSED, LEARNT, left);
}

// What a run leaves that begins with the largest history.
fn run_with_the_largest<R: Abort + Threads + Wait + Sync>(rt: &R, alloc: Global) -> Around {
    let history = many_signatures_before(alloc, 4080).expect(rt, "a history");
    loaded(rt, alloc, &SHORT_SLICES, CROSSED, history.as_bytes()).expect(rt, "memory")
}

// A run isn't begun with the history that another has left, since that is full.
fn is_full<R: Abort + Threads + Wait + Sync>(rt: &R, alloc: Global, before: Around) {
    let words = ["run", "p", "h", "n", "s"];
    let after = over(rt, alloc, &words, before.files).expect(rt, "memory");
    assert!(rt; after.says(10, b"history full 4081 132477\n"));
}

#[test]
fn the_largest_history_learns(rt: HostRuntime) {
    let after = run_with_the_largest(&rt, rt.alloc());
    let left = Left {
        status: 3,
        trace: Whole(traces::LEARNT),
        ..NOTHING_MORE
    };
    has_left(&rt, rt.alloc(), &SHORT_SLICES, &after, left);
    is_full(&rt, rt.alloc(), after);
}

#[test]
fn an_ended_holder_is_waited_for(rt: HostRuntime) {
    let left = Left {
        status: 4,
        history: Whole(EMPTY),
        trace: Whole(
            b"dim trace 1\nsettings 8192 4\ngo 0 a left:0\ngot 0 a\ngo 1 a right:0\ndone 0\nend 4\n",
        ),
        ..NOTHING_MORE
    };
    leaves_alone(&rt, rt.alloc(), &SHORT_SLICES_ALONE, NEVER_FREED, left);
}

const DEPTH_OF_32: [&str; 9] = ["run", "p", "-", "h", "t", "--quantum", "2", "--depth", "32"];

#[test]
fn what_is_learnt_has_the_depth_of_the_settings(rt: HostRuntime) {
    let left = Left {
        status: 3,
        history: Whole(b"dim history 2\nsignature 32 2 on 0\nleft:0\nright:0\nend 1\n"),
        trace: Front(b"dim trace 1\nsettings 8192 32\ngo 0 a left:0\n"),
        ..NOTHING_MORE
    };
    leaves_alone(&rt, rt.alloc(), &DEPTH_OF_32, CROSSED, left);
}

// The first thread says 9 and then -5, and drops more than it has; the second says 7 as long as it
// can.
const SAYING: &[u8] =
    b"dim program 1\nfunc main 0\nPUSH 9\nSAY\nPUSH -5\nSAY\nPOP\nPOP\nRET\nend\nfunc loop 0\nDUP\nSAY\nJMP 0\nend\nthread main 0\nthread loop 7\nend program\n";

const FUEL_OF_9: [&str; 7] = ["run", "p", "-", "h", "t", "--fuel", "9"];

#[test]
fn what_was_said_last_is_reported(rt: HostRuntime) {
    let left = Left {
        status: 0,
        report: Whole(
            b"outcome finished\nentries 2\ngo 0\nyield 0\ngot 0\nfree 0\ntook 0\nmiss 0\nend 2\nbreak 0\nlearn 0\nsignatures 0\nthread 0 trap 1 said 2 last -5\nthread 1 spent said 3 last 7\n",
        ),
        trace: Whole(b"dim trace 1\nsettings 9 4\ntrap 0 1\nspent 1\nend 2\n"),
        ..NOTHING_MORE
    };
    leaves_alone(&rt, rt.alloc(), &FUEL_OF_9, SAYING, left);
}
