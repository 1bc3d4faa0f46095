use crate::calls::{EMPTY, call, keeps, says};
use std::alloc::Global;
use std::process::Abort;

/// Two signatures, the first of which the other history knows too.
const FIRST: &[u8] =
    b"dim history 2\nsignature 4 2 on 7\nleft:0\nright:0\nsignature 2 2 off 0\nmain:3 run:1\nmain:3 run:2\nend 2\n";

/// Another depth and state for the stacks that both know, before and behind two further signatures.
const SECOND: &[u8] =
    b"dim history 2\nsignature 4 2 on 1\nabove:5\nright:0\nsignature 1 2 off 5\nleft:0\nright:0\nsignature 3 2 off 2\nleft:0\nleft:0\nend 3\n";

const MERGED: &[u8] =
    b"dim history 2\nsignature 4 2 on 12\nleft:0\nright:0\nsignature 2 2 off 0\nmain:3 run:1\nmain:3 run:2\nsignature 4 2 on 1\nabove:5\nright:0\nsignature 3 2 off 2\nleft:0\nleft:0\nend 4\n";

/// The other way round the second's depth and state stay, and its order.
const TURNED: &[u8] =
    b"dim history 2\nsignature 4 2 on 1\nabove:5\nright:0\nsignature 1 2 off 12\nleft:0\nright:0\nsignature 3 2 off 2\nleft:0\nleft:0\nsignature 2 2 off 0\nmain:3 run:1\nmain:3 run:2\nend 4\n";

/// `FIRST` with itself: each number of yields twice.
const TWICE: &[u8] =
    b"dim history 2\nsignature 4 2 on 14\nleft:0\nright:0\nsignature 2 2 off 0\nmain:3 run:1\nmain:3 run:2\nend 2\n";

const NEAR_THE_TOP: &[u8] = b"dim history 2\nsignature 4 2 on 4294967290\nleft:0\nright:0\nend 1\n";

const SIX_MORE: &[u8] = b"dim history 2\nsignature 4 2 on 6\nleft:0\nright:0\nend 1\n";

const AT_THE_TOP: &[u8] = b"dim history 2\nsignature 4 2 on 4294967295\nleft:0\nright:0\nend 1\n";

/// A history of version 1: on, with 0 yields.
const BEFORE: &[u8] = b"dim history 1\nsignature 4 2\nleft:0\nright:0\nend 1\n";

/// The history that these two become, and what is told of it.
fn becomes(
    rt: &impl Abort,
    alloc: Global,
    (first, second): (&[u8], &[u8]),
    merged: &[u8],
    report: &str,
) {
    let after = call(rt, alloc, "a b c", &[("a", first), ("b", second)]);
    says(rt, &after, 0, report);
    keeps(rt, alloc, &after, "a", first);
    keeps(rt, alloc, &after, "b", second);
    keeps(rt, alloc, &after, "c", merged);
}

#[test]
fn each_knows_what_either_knew(rt: HostRuntime) {
    let alloc = rt.alloc();
    let report = "signatures 4 added 2 both 1\n";
    becomes(&rt, alloc, (FIRST, SECOND), MERGED, report);
    let report = "signatures 4 added 1 both 1\n";
    becomes(&rt, alloc, (SECOND, FIRST), TURNED, report);
}

#[test]
fn yields_are_added_up_to_the_highest_number(rt: HostRuntime) {
    let alloc = rt.alloc();
    let report = "signatures 1 added 0 both 1\n";
    becomes(&rt, alloc, (NEAR_THE_TOP, SIX_MORE), AT_THE_TOP, report);
    becomes(&rt, alloc, (BEFORE, SIX_MORE), SIX_MORE, report);
}

#[test]
fn a_history_with_itself_and_with_none(rt: HostRuntime) {
    let alloc = rt.alloc();
    let given: [(&str, &[u8]); 1] = [("a", FIRST)];
    let after = call(&rt, alloc, "a a c", &given);
    says(&rt, &after, 0, "signatures 2 added 0 both 2\n");
    keeps(&rt, alloc, &after, "c", TWICE);
    let after = call(&rt, alloc, "a - c", &given);
    says(&rt, &after, 0, "signatures 2 added 0 both 0\n");
    keeps(&rt, alloc, &after, "c", FIRST);
    let after = call(&rt, alloc, "- a c", &given);
    says(&rt, &after, 0, "signatures 2 added 2 both 0\n");
    keeps(&rt, alloc, &after, "c", FIRST);
    let after = call(&rt, alloc, "- - c", &given);
    says(&rt, &after, 0, "signatures 0 added 0 both 0\n");
    keeps(&rt, alloc, &after, "c", EMPTY);
}
