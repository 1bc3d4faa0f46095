//! Programs that numbers stand for.

use crate::calls::{call, call_after, call_failing, done, keeps};
use crate::reports::as_text;
use command_calls::Around;
use command_calls::words::RUN;
use dim_base::Bytes;
use dim_cli::generated;
use samples::programs::SMALLEST;
use std::alloc::Global;
use std::process::Abort;
use std::sync::Wait;
use std::thread::Threads;

const LOCKS: &[u8] =
    b"dim program 1\nlock l00\nlock l01\nlock l02\nlock l03\nlock l04\nlock l05\nlock l06\nlock l07\nlock l08\nlock l09\nlock l10\nlock l11\nlock l12\nlock l13\nlock l14\nlock l15\nfunc f00 0\n";

const REPORT: &[u8] =
    b"outcome deadlocked\nentries 123\ngo 53\nyield 0\ngot 37\nfree 32\ntook 0\nmiss 0\nend 0\nbreak 0\nlearn 1\nsignatures 1\nthread 0 waits l07 said 0 last 0\nthread 1 waits l09 said 0 last 0\nthread 2 waits l09 said 0 last 0\nthread 3 waits l07 said 0 last 0\nthread 4 waits l07 said 0 last 0\nthread 5 waits l09 said 0 last 0\nthread 6 waits l07 said 0 last 0\nthread 7 waits l07 said 0 last 0\nthread 8 waits l08 said 0 last 0\nthread 9 waits l09 said 0 last 0\nthread 10 waits l10 said 0 last 0\nthread 11 waits l10 said 0 last 0\nthread 12 waits l09 said 0 last 0\nthread 13 waits l08 said 0 last 0\nthread 14 waits l10 said 0 last 0\nthread 15 waits l07 said 0 last 0\n";

const GENERATE: [&str; 3] = ["generate", "7", "q"];

// The text of a number's program.
fn text_of(rt: &impl Abort, alloc: Global, n: u32) -> Bytes {
    generated(alloc, n).expect(rt, "a program")
}

// `generate` puts the report and stores this text.
fn stores<R: Abort + Threads + Wait + Sync>(rt: &R, alloc: Global, text: &[u8]) {
    let after = call(rt, alloc, &GENERATE, SMALLEST);
    assert!(rt; after.says(0, REPORT));
    keeps(rt, alloc, &after, "q", text);
}

#[test]
fn a_number_stands_for_one_program(rt: HostRuntime) {
    let text = text_of(&rt, rt.alloc(), 7);
    stores(&rt, rt.alloc(), text.as_slice());
    stores(&rt, rt.alloc(), text.as_slice());
}

// What a run of the program of 7 leaves.
fn run_of_7<R: Abort + Threads + Wait + Sync>(rt: &R, alloc: Global, words: &[&str]) -> Around {
    let text = text_of(rt, alloc, 7);
    call(rt, alloc, words, text.as_slice())
}

#[test]
fn a_generated_program_is_run(rt: HostRuntime) {
    let after = run_of_7(&rt, rt.alloc(), &RUN);
    assert!(rt; after.says(3, REPORT));
    done(after);
}

// Both calls have left the same under a name.
fn same_held(rt: &impl Abort, alloc: Global, first: &Around, second: &Around, name: &str) {
    let first = first.held(alloc, name).expect(rt, "a name");
    let second = second.held(alloc, name).expect(rt, "a name");
    assert!(rt; first == second, "{name}");
}

// A text's program is run alike twice.
fn runs_alike_twice<R: Abort + Threads + Wait + Sync>(rt: &R, alloc: Global, text: &[u8]) {
    let first = call(rt, alloc, &RUN, text);
    let second = call(rt, alloc, &RUN, text);
    assert!(rt; first.out.taken() == second.out.taken());
    same_held(rt, alloc, &first, &second, "h");
    same_held(rt, alloc, &first, &second, "t");
}

#[test]
fn a_generated_program_runs_alike_twice(rt: HostRuntime) {
    let text = text_of(&rt, rt.alloc(), 7);
    runs_alike_twice(&rt, rt.alloc(), text.as_slice());
}

// What is left of two runs of a number's program with so much fuel, of which the second loads what
// the first has learnt.
fn run_twice<R: Abort + Threads + Wait + Sync>(rt: &R, alloc: Global, fuel: &str) -> Around {
    let words = [
        "run",
        "p",
        "-",
        "g",
        "t",
        "--quantum",
        "1024",
        "--fuel",
        fuel,
    ];
    let first = run_of_7(rt, alloc, &words);
    let words = [
        "run",
        "p",
        "g",
        "h",
        "t",
        "--quantum",
        "1024",
        "--fuel",
        fuel,
    ];
    call_after(rt, alloc, &words, first)
}

// The second of two runs with so much fuel reports this.
fn reports<R: Abort + Threads + Wait + Sync>(rt: &R, alloc: Global, fuel: &str, line: &str) {
    let after = run_twice(rt, alloc, fuel);
    assert!(rt; as_text(after.out.taken()).contains(line), "fuel {fuel}");
}

// One unit at the start, 39 for each of a hundred loops, and two for the last test. The end wants
// one more, and doesn't take it.
#[test]
fn a_generated_thread_uses_3903_units(rt: HostRuntime) {
    reports(&rt, rt.alloc(), "3903", "thread 0 spent ");
    reports(&rt, rt.alloc(), "3904", "thread 0 done ");
}

const TAIL: &[u8] =
    b"func m15 1\nPUTL 0\nGETL 0\nJZ 12\nCALL f22\nCALL f14\nCALL f05\nCALL f19\nGETL 0\nPUSH 1\nSUB\nPUTL 0\nJMP 1\nRET\nend\nthread m00 100\nthread m01 100\nthread m02 100\nthread m03 100\nthread m04 100\nthread m05 100\nthread m06 100\nthread m07 100\nthread m08 100\nthread m09 100\nthread m10 100\nthread m11 100\nthread m12 100\nthread m13 100\nthread m14 100\nthread m15 100\nend program\n";

// These bytes stand at a place of the text of a number's program.
fn stands(rt: &impl Abort, alloc: Global, n: u32, place: usize, bytes: &[u8]) {
    let text = text_of(rt, alloc, n);
    let rest = text.as_slice().get(place..).unwrap_or(&[]);
    assert!(rt; rest.starts_with(bytes), "{n}");
}

// Numbers, and what stands behind the locks.
const FIRST_FUNCTIONS: [(u32, &[u8]); 3] = [
    (
        0,
        b"LOCK l03\nLOCK l06\nUNLOCK l06\nUNLOCK l03\nRET\nend\nfunc f01 0\nLOCK l03\nLOCK l13\nUNLOCK l13\nUNLOCK l03\nRET\nend\n",
    ),
    (
        7,
        b"LOCK l09\nLOCK l05\nUNLOCK l05\nUNLOCK l09\nRET\nend\nfunc f01 0\nLOCK l13\nLOCK l07\nUNLOCK l07\nUNLOCK l13\nRET\nend\n",
    ),
    (
        4_294_967_295,
        b"LOCK l12\nLOCK l14\nUNLOCK l14\nUNLOCK l12\nRET\nend\nfunc f01 0\nLOCK l14\nLOCK l02\nUNLOCK l02\nUNLOCK l14\nRET\nend\n",
    ),
];

#[test]
fn two_words_draw_the_locks_of_a_function(rt: HostRuntime) {
    stands(&rt, rt.alloc(), 7, 0, LOCKS);
    for &(n, locks) in &FIRST_FUNCTIONS {
        stands(&rt, rt.alloc(), n, LOCKS.len(), locks);
    }
}

// Numbers, and what stands where the last function begins.
const LAST_FUNCTIONS: [(u32, &[u8]); 2] = [
    (
        0,
        b"func m15 1\nPUTL 0\nGETL 0\nJZ 12\nCALL f28\nCALL f00\nCALL f00\nCALL f29\nGETL 0\n",
    ),
    (
        4_294_967_295,
        b"func m15 1\nPUTL 0\nGETL 0\nJZ 12\nCALL f02\nCALL f10\nCALL f26\nCALL f18\nGETL 0\n",
    ),
];

// The text of a number's program has so many bytes, of which the last ones are these.
fn ends(rt: &impl Abort, alloc: Global, n: u32, len: usize, tail: &[u8]) {
    let text = text_of(rt, alloc, n);
    assert!(rt; text.as_slice().len() == len);
    assert!(rt; text.as_slice().ends_with(tail));
}

#[test]
fn four_words_draw_the_calls_of_a_function(rt: HostRuntime) {
    ends(&rt, rt.alloc(), 7, 3994, TAIL);
    for &(n, calls) in &LAST_FUNCTIONS {
        stands(&rt, rt.alloc(), n, 3636, calls);
    }
}

// Words, and whether they are a command.
const COMMANDS: [(&[&str], bool); 10] = [
    (&["generate", "4294967295", "generate"], true),
    (&["generate"], false),
    (&["generate", "7"], false),
    (&["generate", "run", "p"], false),
    (&["generate", "4294967296", "q"], false),
    (&["generate", "07", "q"], false),
    (&["generate", "7", "-"], false),
    (&["generate", "7", "q", "r"], false),
    (&["generate", "7", "q", "--quantum", "64"], false),
    (&["generate", "--fuel", "1", "7", "q"], false),
];

// These words are a command, or they are none.
fn are<R: Abort + Threads + Wait + Sync>(rt: &R, alloc: Global, words: &[&str], command: bool) {
    let after = call(rt, alloc, words, SMALLEST);
    assert!(rt; (after.status != 2) == command, "{words:?}");
}

#[test]
fn words_are_a_number_and_a_name(rt: HostRuntime) {
    for &(words, command) in &COMMANDS {
        are(&rt, rt.alloc(), words, command);
    }
}

#[test]
fn a_generated_program_may_not_be_stored(rt: HostRuntime) {
    let after = call_failing(&rt, rt.alloc(), &GENERATE, SMALLEST, &[1], &[]);
    assert!(rt; after.says(7, b"file fault program\n"));
    done(after);
    let after = call_failing(&rt, rt.alloc(), &GENERATE, SMALLEST, &[], &[1]);
    assert!(rt; after.status == 8);
    assert!(rt; after.held(rt.alloc(), "q").expect(&rt, "a name").is_some());
    done(after);
}
