//! What runs do.

use crate::leaving::Wanted::Whole;
use crate::leaving::{Left, NOTHING_MORE, leaves, leaves_alone};
use command_calls::words::{RUN, SHORT_SLICES, SHORT_SLICES_ALONE};
use samples::histories::{
    AVOIDED, EMPTY, INTERLEAVED, INTERLEAVED_BEFORE, LEARNT, LEARNT_BEFORE, MOST_YIELDS,
    SWITCHED_OFF,
};
use samples::programs::{CHAINED, CROSSED, ENDS_HOLDING, LEADS_ON, NEVER_FREED, SMALLEST};
use samples::{reports, traces};

#[test]
fn a_thread_may_do_all_in_one_slice(rt: HostRuntime) {
    let left = Left {
        status: 0,
        trace: Whole(
            b"dim trace 1\nsettings 8192 4\ngo 0 a left:0\ngot 0 a\ngo 0 b left:1\ngot 0 b\nfree 0 b\nfree 0 a\ndone 0\ngo 1 b right:0\ngot 1 b\ngo 1 a right:1\ngot 1 a\nfree 1 a\nfree 1 b\ndone 1\nend 14\n",
        ),
        ..NOTHING_MORE
    };
    leaves_alone(&rt, rt.alloc(), &RUN, CROSSED, left);
}

#[test]
fn the_smallest_run_stores_both_files(rt: HostRuntime) {
    let left = Left {
        status: 0,
        report: Whole(reports::SMALLEST),
        history: Whole(EMPTY),
        trace: Whole(traces::SMALLEST),
    };
    leaves_alone(&rt, rt.alloc(), &RUN, SMALLEST, left);
}

#[test]
fn a_lock_of_an_ended_thread_stalls_a_run(rt: HostRuntime) {
    let left = Left {
        status: 4,
        report: Whole(
            b"outcome stalled\nentries 4\ngo 2\nyield 0\ngot 1\nfree 0\ntook 0\nmiss 0\nend 1\nbreak 0\nlearn 0\nsignatures 0\nthread 0 done said 0 last 0\nthread 1 waits a said 0 last 0\n",
        ),
        trace: Whole(
            b"dim trace 1\nsettings 8192 4\ngo 0 a left:0\ngot 0 a\ndone 0\ngo 1 a right:0\nend 4\n",
        ),
        ..NOTHING_MORE
    };
    leaves_alone(&rt, rt.alloc(), &RUN, NEVER_FREED, left);
}

#[test]
fn a_first_deadlock_is_learnt(rt: HostRuntime) {
    let left = Left {
        status: 3,
        report: Whole(
            b"outcome deadlocked\nentries 7\ngo 4\nyield 0\ngot 2\nfree 0\ntook 0\nmiss 0\nend 0\nbreak 0\nlearn 1\nsignatures 1\nthread 0 waits b said 0 last 0\nthread 1 waits a said 0 last 0\n",
        ),
        history: Whole(LEARNT),
        trace: Whole(traces::LEARNT),
    };
    leaves_alone(&rt, rt.alloc(), &SHORT_SLICES_ALONE, CROSSED, left);
}

#[test]
fn a_deadlock_that_is_known_is_avoided(rt: HostRuntime) {
    let left = Left {
        status: 0,
        report: Whole(
            b"outcome finished\nentries 15\ngo 4\nyield 1\ngot 4\nfree 4\ntook 0\nmiss 0\nend 2\nbreak 0\nlearn 0\nsignatures 1\nthread 0 done said 0 last 0\nthread 1 done said 0 last 0\n",
        ),
        history: Whole(AVOIDED),
        trace: Whole(traces::AVOIDED),
    };
    leaves(&rt, rt.alloc(), &SHORT_SLICES, CROSSED, LEARNT_BEFORE, left);
}

// What the runs of `CHAINED` and of `LEADS_ON` leave: the signature that was loaded has kept one
// thread from its lock, and the two that starved then had taken their first locks.
const STARVED: &[u8] =
    b"dim history 2\nsignature 4 2 on 1\nleft:0\nright:1\nsignature 4 2 on 0\nleft:0\nright:0\nend 2\n";

#[test]
fn a_deadlock_that_is_switched_off_comes_again(rt: HostRuntime) {
    let left = Left {
        status: 3,
        history: Whole(SWITCHED_OFF),
        trace: Whole(traces::UNLEARNT),
        ..NOTHING_MORE
    };
    leaves(&rt, rt.alloc(), &SHORT_SLICES, CROSSED, SWITCHED_OFF, left);
}

const ONE_YIELD_LESS: &[u8] =
    b"dim history 2\nsignature 4 2 on 4294967294\nleft:0\nright:0\nend 1\n";

#[test]
fn yields_are_counted_up_to_the_highest_number(rt: HostRuntime) {
    let left = Left {
        status: 0,
        history: Whole(MOST_YIELDS),
        ..NOTHING_MORE
    };
    leaves(&rt, rt.alloc(), &SHORT_SLICES, CROSSED, MOST_YIELDS, left);
    leaves(
        &rt,
        rt.alloc(),
        &SHORT_SLICES,
        CROSSED,
        ONE_YIELD_LESS,
        left,
    );
}

#[test]
fn a_starvation_is_learnt_and_broken_out(rt: HostRuntime) {
    let left = Left {
        status: 0,
        history: Whole(STARVED),
        trace: Whole(traces::STARVED),
        ..NOTHING_MORE
    };
    for history in [INTERLEAVED, INTERLEAVED_BEFORE] {
        leaves(&rt, rt.alloc(), &SHORT_SLICES, CHAINED, history, left);
    }
}

#[test]
fn a_break_may_lead_into_a_known_deadlock(rt: HostRuntime) {
    let left = Left {
        status: 3,
        history: Whole(STARVED),
        trace: Whole(
            b"dim trace 1\nsettings 8192 4\ngo 0 a left:0\ngot 0 a\ngo 1 c right:0\ngot 1 c\ngo 0 c left:1\nyield 1 b 0 2 0 5 right:1\nlearn 2 0 2\nbreak 3 1\ngot 1 b\nfree 1 c\ngot 0 c\ngo 0 b left:2\ngo 1 a right:3\nend 13\n",
        ),
        ..NOTHING_MORE
    };
    for history in [INTERLEAVED, INTERLEAVED_BEFORE] {
        leaves(&rt, rt.alloc(), &SHORT_SLICES, LEADS_ON, history, left);
    }
}

#[test]
fn a_cause_that_has_ended_is_broken_out(rt: HostRuntime) {
    let left = Left {
        status: 0,
        trace: Whole(
            b"dim trace 1\nsettings 8192 4\ngo 0 a left:0\ngot 0 a\nyield 1 b 0 2 0 2 right:0\ndone 0\nbreak 3 1\ngot 1 b\nfree 1 b\ndone 1\nend 8\n",
        ),
        ..NOTHING_MORE
    };
    for history in [LEARNT, LEARNT_BEFORE] {
        leaves(&rt, rt.alloc(), &SHORT_SLICES, ENDS_HOLDING, history, left);
    }
}

// A signature of functions that no program has.
const OF_NO_FUNCTION: &[u8] = b"dim history 2\nsignature 7 2 on 0\nlost:3\nzoo:0\nend 1\n";

// The same in version 1.
const OF_NO_FUNCTION_BEFORE: &[u8] = b"dim history 1\nsignature 7 2\nlost:3\nzoo:0\nend 1\n";

#[test]
fn a_signature_that_names_no_function_is_kept(rt: HostRuntime) {
    let left = Left {
        status: 3,
        history: Whole(
            b"dim history 2\nsignature 7 2 on 0\nlost:3\nzoo:0\nsignature 4 2 on 0\nleft:0\nright:0\nend 2\n",
        ),
        trace: Whole(traces::LEARNT),
        ..NOTHING_MORE
    };
    for history in [OF_NO_FUNCTION, OF_NO_FUNCTION_BEFORE] {
        leaves(&rt, rt.alloc(), &SHORT_SLICES, CROSSED, history, left);
    }
}
