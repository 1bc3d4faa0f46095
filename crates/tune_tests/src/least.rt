ghost use Rattle.std.specs.Prelude.{◌≤◌, length};
ghost use Rattle.dim_schedule.specs.Settings.{AreSettings};

use crate::bound::{Both, read_both};
use crate::many::elsewhere;
use dim_base::OutOfMemory;
use dim_run::{Run, Settings, play};
use dim_trace::Trace;
use dim_tune::depths;
use samples::histories::{INTERLEAVED, LEARNT, MATCHED_BY_FOUR, MATCHED_BY_ONE, SWITCHED_OFF};
use samples::programs::{CHAINED, CROSSED, NESTED};
use std::alloc::Global;
use std::process::Abort;

fn settings(quantum: u32) -> Settings
    requires some { 1 ≤ quantum }
    requires few { quantum ≤ 1024 }
    ensures { AreSettings result }
{
    Settings {
        fuel: 8_192,
        quantum,
        depth: 4,
        seed: 0,
        workers: 4,
    }
}

/// The least depths for the trace of the run of a program from a history.
fn least_of(alloc: Global, both: &Both, s: &Settings) -> Result<Vec<u8>, OutOfMemory>
    requires settings { AreSettings s.now }
    requires few { length both.now.history.catalogue.sigs ≤ 4080 }
{
    let run = play(alloc, &both.program, &both.history, s)?;
    let Run { entries, .. } = run;
    let trace = Trace {
        fuel: s.fuel,
        depth: s.depth,
        entries,
    };
    depths(alloc, &both.program, &both.history, &trace)
}

/// These are the least depths, for a program and a history that are given by their texts.
fn has_least(rt: &impl Abort, alloc: Global, texts: (&[u8], &[u8]), quantum: u32, expected: &[u8])
    requires some { 1 ≤ quantum }
    requires few { quantum ≤ 1024 }
{
    let both = read_both(rt, alloc, texts.0, texts.1);
    let least = least_of(alloc, &both, &settings(quantum)).expect(rt, "depths");
    assert!(rt; least.as_slice() == expected);
}

#[test]
fn two_frames_are_needed_where_one_would_yield(rt: HostRuntime) {
    has_least(&rt, rt.alloc(), (NESTED, MATCHED_BY_FOUR), 4, &[2]);
    has_least(&rt, rt.alloc(), (NESTED, MATCHED_BY_ONE), 4, &[1]);
}

#[test]
fn stacks_of_one_frame_need_no_more(rt: HostRuntime) {
    has_least(&rt, rt.alloc(), (CROSSED, LEARNT), 2, &[1]);
    has_least(&rt, rt.alloc(), (CROSSED, SWITCHED_OFF), 2, &[1]);
    has_least(&rt, rt.alloc(), (CHAINED, INTERLEAVED), 2, &[1]);
}

// The signature of `MATCHED_BY_FOUR`, at depth 2.
const MATCHED_BY_TWO: &[u8] = b"dim history 2\nsignature 2 2 on 0\ntake:0 x:0\ntake:0 y:0\nend 1\n";

#[test]
fn the_least_depth_can_be_the_signatures_own(rt: HostRuntime) {
    has_least(&rt, rt.alloc(), (NESTED, MATCHED_BY_TWO), 4, &[2]);
}

// The same, switched off.
const MATCHED_BY_NONE: &[u8] =
    b"dim history 2\nsignature 4 2 off 0\ntake:0 x:0\ntake:0 y:0\nend 1\n";

#[test]
fn one_that_is_off_needs_no_more_than_one_frame(rt: HostRuntime) {
    has_least(&rt, rt.alloc(), (NESTED, MATCHED_BY_NONE), 4, &[1]);
}

// Three signatures, of which the second one would be named at depth 1 where none is, and the third
// one is switched off.
const SEVERAL: &[u8] =
    b"dim history 2\nsignature 4 2 on 0\nlost:0\nlost:1\nsignature 3 2 on 0\ntake:0 x:0\ntake:0 y:0\nsignature 2 2 off 0\ntake:0 x:1\ntake:0 y:1\nend 3\n";

#[test]
fn each_signature_has_its_own_least_depth(rt: HostRuntime) {
    has_least(&rt, rt.alloc(), (NESTED, SEVERAL), 4, &[1, 2, 1]);
}

#[test]
fn those_that_agree_nowhere_need_no_more_than_one_frame(rt: HostRuntime) {
    let text = elsewhere(rt.alloc(), 4_000).expect(&rt, "a history");
    let both = read_both(&rt, rt.alloc(), NESTED, text.as_bytes());
    let least = least_of(rt.alloc(), &both, &settings(4)).expect(&rt, "depths");
    assert!(&rt; least.len() == 4_000);
    for depth in &least {
        assert!(&rt; *depth == 1);
    }
}
