//! Statuses, and the lines that go with them.

use crate::calls::{call, done, ended, is_too_long};
use samples::programs::SMALLEST;
use std::alloc::Global;
use std::process::Abort;
use std::sync::Wait;
use std::thread::Threads;

#[test]
fn a_program_may_be_too_long(rt: HostRuntime) {
    let put = "file long program\n";
    is_too_long(&rt, rt.alloc(), "run p - h t", "p", 4_194_305, put);
}

// These words over the smallest program end with this status.
fn ends<R: Abort + Threads + Wait + Sync>(rt: &R, alloc: Global, words: &str, status: u8) {
    let after = call(rt, alloc, words, &[("p", SMALLEST)]);
    ended(rt, &after, words, status);
    done(after);
}

// Words that are no command.
const NO_COMMANDS: [&str; 15] = [
    "",
    "run p",
    "run p - h h",
    "run p - p t",
    "run p - h t --fuel 0",
    "run p - h t --fuel=5",
    "run p - h t --fuel 5 --fuel 5",
    "run - - h t",
    "halt",
    "run p - h t --workers 2",
    "live p - h t --seed 1",
    "--help",
    "switch g 0 yes h",
    "switch g 0 off g",
    "switch g 4294967296 off h",
];

#[test]
fn words_may_be_no_command(rt: HostRuntime) {
    for &words in &NO_COMMANDS {
        ends(&rt, rt.alloc(), words, 2);
    }
}

#[test]
fn options_stand_anywhere(rt: HostRuntime) {
    ends(&rt, rt.alloc(), "run --fuel 5 p - h t", 0);
}

// Seeds, and the status of a run with each.
const SEEDED: [(&str, u8); 5] = [
    ("run p - h t --seed 0", 0),
    ("run p - h t --seed 4294967295", 0),
    ("run p - h t --seed 4294967296", 2),
    ("run p - h t --seed", 2),
    ("run p - h t --seed 1 --seed 1", 2),
];

#[test]
fn a_seed_may_be_any_number_of_32_bits(rt: HostRuntime) {
    for &(words, status) in &SEEDED {
        ends(&rt, rt.alloc(), words, status);
    }
}
