//! Runs whose schedule is drawn from a seed.

use crate::leaving::Wanted::Whole;
use crate::leaving::{Left, NOTHING_MORE, leaves, leaves_alone};
use samples::histories::{ELSEWHERE, FIRST_FRAMES};
use samples::programs::{FREES_AND_TAKES, ONE_AGAINST_TWO, PLAIN, THREE_CROSSED};

const SEED_OF_5: [&str; 9] = ["run", "p", "-", "h", "t", "--seed", "5", "--quantum", "1"];

#[test]
fn one_thread_has_one_schedule(rt: HostRuntime) {
    let left = Left {
        status: 0,
        trace: Whole(
            b"dim trace 1\nsettings 8192 4\ngo 0 a main:2\ngot 0 a\nfree 0 a\ndone 0\nend 4\n",
        ),
        ..NOTHING_MORE
    };
    leaves_alone(&rt, rt.alloc(), &SEED_OF_5, PLAIN, left);
}

const GREATEST_SEED: [&str; 11] = [
    "run",
    "p",
    "-",
    "h",
    "t",
    "--fuel",
    "9",
    "--quantum",
    "4",
    "--seed",
    "4294967295",
];

#[test]
fn the_greatest_seed_stalls_a_run(rt: HostRuntime) {
    let left = Left {
        status: 4,
        trace: Whole(
            b"dim trace 1\nsettings 9 4\ngo 0 l2 f1:0 f2:0\ngot 0 l2\ngo 1 l2 f1:0\ngo 2 l2 f1:0\nfree 0 l2\ngo 0 l2 f0:1 f1:1 f2:0\ngot 0 l2\ntrap 0 8\nend 8\n",
        ),
        ..NOTHING_MORE
    };
    leaves_alone(&rt, rt.alloc(), &GREATEST_SEED, FREES_AND_TAKES, left);
}

const SEED_OF_3: [&str; 9] = ["run", "p", "g", "h", "t", "--quantum", "3", "--seed", "3"];

#[test]
fn a_seed_begins_at_the_last_thread(rt: HostRuntime) {
    let left = Left {
        status: 3,
        history: Whole(
            b"dim history 2\nsignature 1 2 on 0\nw1:0 f1:1\nw1:1\nsignature 4 2 on 0\nw0:0\nw1:0\nend 2\n",
        ),
        trace: Whole(
            b"dim trace 1\nsettings 8192 4\ngo 2 b w0:0\ngo 0 b w0:0\ngot 0 b\ngo 1 d w1:0\ngot 1 d\ngo 1 b w1:1\ngo 0 d w0:1\nlearn 2 1 3\nend 8\n",
        ),
        ..NOTHING_MORE
    };
    leaves(&rt, rt.alloc(), &SEED_OF_3, THREE_CROSSED, ELSEWHERE, left);
}

const SLICES_OF_7: [&str; 9] = [
    "run",
    "p",
    "g",
    "h",
    "t",
    "--quantum",
    "7",
    "--seed",
    "4294967295",
];

#[test]
fn a_seed_is_drawn_from_to_the_end(rt: HostRuntime) {
    let left = Left {
        status: 0,
        history: Whole(b"dim history 2\nsignature 1 2 on 2\nw0:0\nw1:0\nend 1\n"),
        trace: Whole(
            b"dim trace 1\nsettings 8192 4\ngo 0 c w0:0\ngot 0 c\ngo 0 a w0:1\ngot 0 a\ngo 0 b w0:2\nyield 1 a 0 2 0 5 w1:0\ngo 2 c w0:0\ngot 0 b\nfree 0 b\nfree 0 a\nfree 0 c\ndone 0\nyield 1 a 0 2 6 12 w1:0\ngot 2 c\ngo 2 a w0:1\ngot 2 a\ngo 2 b w0:2\ngot 2 b\nfree 2 b\nfree 2 a\nfree 2 c\ndone 2\ngo 1 a w1:0\ngot 1 a\ngo 1 c w1:1\ngot 1 c\nfree 1 c\nfree 1 a\ndone 1\nend 29\n",
        ),
        ..NOTHING_MORE
    };
    leaves(
        &rt,
        rt.alloc(),
        &SLICES_OF_7,
        ONE_AGAINST_TWO,
        FIRST_FRAMES,
        left,
    );
}
