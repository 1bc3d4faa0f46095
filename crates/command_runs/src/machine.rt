//! What the machine does.
use crate::leaving::Wanted::{Front, Whole};
use crate::leaving::{Left, NOTHING_MORE, leaves, leaves_alone, spends};
use command_calls::words::{RUN, SHORT_SLICES_ALONE};
use samples::histories::{
    EMPTY, FIVE_FORKS, FIVE_FORKS_AVOIDED, FIVE_FORKS_BEFORE, MATCHED_BY_FOUR,
    MATCHED_BY_FOUR_BEFORE, MATCHED_BY_ONE, MATCHED_BY_ONE_BEFORE,
};
use samples::programs::{NESTED, PHILOSOPHERS, PLAIN, TAKEN_TWICE, TRAPPED, TRIES};
use samples::traces;

const SLICES_OF_4_ALONE: [&str; 7] = ["run", "p", "-", "h", "t", "--quantum", "4"];

#[test]
fn philosophers_wait_for_one_another(rt: HostRuntime) {
    let left = Left {
        status: 3,
        history: Whole(FIVE_FORKS),
        trace: Whole(
            b"dim trace 1\nsettings 8192 4\ngo 0 f0 phil:2\ngot 0 f0\ngo 1 f1 phil:2\ngot 1 f1\ngo 2 f2 phil:2\ngot 2 f2\ngo 3 f3 phil:2\ngot 3 f3\ngo 4 f4 phil:2\ngot 4 f4\ngo 4 f0 phil:13\ngo 0 f1 phil:13\ngo 1 f2 phil:13\ngo 2 f3 phil:13\ngo 3 f4 phil:13\nlearn 5 0 2 4 6 8\nend 16\n",
        ),
        ..NOTHING_MORE
    };
    leaves_alone(&rt, rt.alloc(), &SLICES_OF_4_ALONE, PHILOSOPHERS, left);
}

const SLICES_OF_4: [&str; 7] = ["run", "p", "g", "h", "t", "--quantum", "4"];

#[test]
fn one_philosopher_yields_once_the_deadlock_is_known(rt: HostRuntime) {
    let left = Left {
        status: 0,
        report: Front(b"outcome finished\nentries 36\ngo 10\nyield 1\n"),
        history: Whole(FIVE_FORKS_AVOIDED),
        trace: Front(
            b"dim trace 1\nsettings 8192 4\ngo 0 f0 phil:2\ngot 0 f0\ngo 1 f1 phil:2\ngot 1 f1\ngo 2 f2 phil:2\ngot 2 f2\ngo 3 f3 phil:2\ngot 3 f3\nyield 4 f4 0 5 0 2 4 6 8 phil:2\n",
        ),
    };
    for history in [FIVE_FORKS, FIVE_FORKS_BEFORE] {
        leaves(&rt, rt.alloc(), &SLICES_OF_4, PHILOSOPHERS, history, left);
    }
}

#[test]
fn stacks_that_agree_to_the_depth_are_avoided(rt: HostRuntime) {
    let left = Left {
        status: 0,
        report: Front(b"outcome finished\nentries 9\n"),
        trace: Front(
            b"dim trace 1\nsettings 8192 4\ngo 0 a take:0 one:0\ngot 0 a\nyield 1 b 0 2 0 2 take:0 two:0\n",
        ),
        ..NOTHING_MORE
    };
    for history in [MATCHED_BY_ONE, MATCHED_BY_ONE_BEFORE] {
        leaves(&rt, rt.alloc(), &SLICES_OF_4, NESTED, history, left);
    }
}

#[test]
fn stacks_that_agree_to_a_lesser_depth_are_not_avoided(rt: HostRuntime) {
    let left = Left {
        status: 0,
        report: Front(b"outcome finished\nentries 8\n"),
        trace: Front(
            b"dim trace 1\nsettings 8192 4\ngo 0 a take:0 one:0\ngot 0 a\ngo 1 b take:0 two:0\n",
        ),
        ..NOTHING_MORE
    };
    for history in [MATCHED_BY_FOUR, MATCHED_BY_FOUR_BEFORE] {
        leaves(&rt, rt.alloc(), &SLICES_OF_4, NESTED, history, left);
    }
}

#[test]
fn a_try_that_misses_waits_for_nobody(rt: HostRuntime) {
    let left = Left {
        status: 0,
        history: Whole(EMPTY),
        trace: Whole(
            b"dim trace 1\nsettings 8192 4\ngo 0 a left:0\ngot 0 a\ngo 1 b right:0\ngot 1 b\nbusy 0 b 1 left:1\ngo 1 a right:1\nfree 0 a\ndone 0\ngot 1 a\nfree 1 a\nfree 1 b\ndone 1\nend 12\n",
        ),
        ..NOTHING_MORE
    };
    leaves_alone(&rt, rt.alloc(), &SHORT_SLICES_ALONE, TRIES, left);
}

#[test]
fn traps_end_threads(rt: HostRuntime) {
    let left = Left {
        status: 0,
        trace: Whole(
            b"dim trace 1\nsettings 8192 4\ngo 0 a re:0\ngot 0 a\ntook 0 a re:1\ndone 0\ntrap 1 8\nend 5\n",
        ),
        ..NOTHING_MORE
    };
    leaves_alone(&rt, rt.alloc(), &RUN, TRAPPED, left);
}

#[test]
fn a_lock_is_free_when_it_was_given_back_as_often(rt: HostRuntime) {
    let left = Left {
        status: 0,
        trace: Whole(
            b"dim trace 1\nsettings 8192 4\ngo 0 a main:0\ngot 0 a\ntook 0 a main:1\nfree 0 a\ngo 1 a main:0\nfree 0 a\ndone 0\ngot 1 a\ntook 1 a main:1\nfree 1 a\nfree 1 a\ndone 1\nend 12\n",
        ),
        ..NOTHING_MORE
    };
    leaves_alone(&rt, rt.alloc(), &SLICES_OF_4_ALONE, TAKEN_TWICE, left);
}

// The fuel of the one thread of `PLAIN`, and the trace.
const UNITS: [(&str, &[u8]); 4] = [
    ("3", b"dim trace 1\nsettings 3 4\nspent 0\nend 1\n"),
    ("4", traces::SPENT),
    (
        "5",
        b"dim trace 1\nsettings 5 4\ngo 0 a main:2\ngot 0 a\nfree 0 a\nspent 0\nend 4\n",
    ),
    (
        "6",
        b"dim trace 1\nsettings 6 4\ngo 0 a main:2\ngot 0 a\nfree 0 a\ndone 0\nend 4\n",
    ),
];

#[test]
fn each_move_costs_a_unit(rt: HostRuntime) {
    for &(fuel, trace) in &UNITS {
        spends(&rt, rt.alloc(), PLAIN, fuel, trace);
    }
}
