//! What each instruction does to the operands, the locals, the calls and the sayings.
use super::{DONE, FREE, Sayings, ends, run, script, trapped};
use crate::fake::Script;
use std::alloc::Global;
use std::fmt::Write;
use std::process::Abort;

/// The operands that a code leaves, the newest first: each is said, after those above it, in a run
/// of its own.
fn operands_after(rt: &impl Abort, alloc: Global, code: &str, script: Script) -> Vec<i64> {
    let mut code = String::from_str(alloc, code).expect(rt, "a text");
    let mut operands = Vec::new(alloc);
    for _ in 0..4 {
        code.push_str("\nSAY").expect(rt, "room");
        let (outcome, sayings) = run(rt, alloc, &code, 999, 999, script);
        if outcome.state == trapped(1) {
            break;
        }
        operands.push(sayings.last).expect(rt, "room");
    }
    operands
}

/// The code leaves these operands.
fn leaves(rt: &impl Abort, alloc: Global, code: &str, script: Script, wanted: &[i64]) {
    let operands = operands_after(rt, alloc, code, script);
    assert_eq!(rt; operands.as_slice(), wanted, "{code}");
}

/// Codes, and the operands that they leave.
const LEAVES: [(&str, &[i64]); 51] = [
    ("PUSH 5", &[5, 7]),
    ("PUSH -9223372036854775808", &[i64::MIN, 7]),
    ("PUSH 9223372036854775807", &[i64::MAX, 7]),
    ("POP", &[]),
    ("PUSH 5\nPOP", &[7]),
    ("DUP", &[7, 7]),
    ("PUSH 5\nSWAP", &[7, 5]),
    ("PUSH 5\nPUSH 6\nSWAP", &[5, 6, 7]),
    ("PUSH 5\nADD", &[12]),
    ("PUSH 4\nPUSH -5\nADD", &[-1, 7]),
    ("PUSH 9223372036854775806\nPUSH 1\nADD", &[i64::MAX, 7]),
    ("PUSH -9223372036854775807\nPUSH -1\nADD", &[i64::MIN, 7]),
    (
        "PUSH 9223372036854775807\nPUSH -9223372036854775808\nADD",
        &[-1, 7],
    ),
    ("PUSH 5\nSUB", &[2]),
    ("PUSH 9\nSUB", &[-2]),
    ("PUSH -9223372036854775807\nPUSH 1\nSUB", &[i64::MIN, 7]),
    ("PUSH 9223372036854775806\nPUSH -1\nSUB", &[i64::MAX, 7]),
    ("PUSH -1\nPUSH -9223372036854775808\nSUB", &[i64::MAX, 7]),
    ("PUSH 6\nLT", &[0]),
    ("PUSH 7\nLT", &[0]),
    ("PUSH 8\nLT", &[1]),
    ("PUSH -8\nLT", &[0]),
    ("PUSH -3\nPUSH -2\nLT", &[1, 7]),
    (
        "PUSH -9223372036854775808\nPUSH 9223372036854775807\nLT",
        &[1, 7],
    ),
    ("PUSH 7\nEQ", &[1]),
    ("PUSH 8\nEQ", &[0]),
    ("PUSH -7\nEQ", &[0]),
    ("PUSH -1\nPUSH -1\nEQ", &[1, 7]),
    ("JMP 2\nPUSH 5", &[7]),
    ("JMP 1\nPUSH 5", &[5, 7]),
    ("JZ 2\nPUSH 5", &[5]),
    ("PUSH 0\nJZ 3\nPUSH 5", &[7]),
    ("PUSH -1\nJZ 3\nPUSH 5", &[5, 7]),
    ("GETL 0", &[0, 7]),
    ("PUTL 1", &[]),
    ("PUTL 1\nGETL 1", &[7]),
    ("PUTL 1\nGETL 0", &[0]),
    ("PUTL 1\nCALL reads\nGETL 1", &[7, 0]),
    ("PUTL 1\nCALL sets\nGETL 1", &[7]),
    ("CALL sets\nCALL reads", &[0, 7]),
    ("CALL reads\nPUSH 5", &[5, 0, 7]),
    ("CALL has_16", &[5, 0, 7]),
    ("LOCK a", &[7]),
    ("PUSH 1\nLOCKX", &[7]),
    ("PUSH 1\nLOCKX\nUNLOCK b", &[7]),
    ("LOCK b\nPUSH 1\nUNLOCKX", &[7]),
    ("LOCK a\nLOCK b\nUNLOCK a\nLOCK a", &[7]),
    ("TRYLOCK a", &[1, 7]),
    ("TRYLOCK a\nUNLOCK a\nTRYLOCK b\nUNLOCK b", &[1, 1, 7]),
    ("SAY", &[]),
    ("PUSH 5\nSAY", &[7]),
];

#[test]
fn what_instructions_leave(rt: HostRuntime) {
    for &(code, wanted) in &LEAVES {
        leaves(&rt, rt.alloc(), code, FREE, wanted);
    }
}

/// What instructions leave where the first lock that is tried is busy.
const MISSES: [(&str, &[i64]); 2] = [("TRYLOCK a", &[0, 7]), ("TRYLOCK a\nTRYLOCK a", &[1, 0, 7])];

#[test]
fn a_lock_that_is_missed_leaves_0(rt: HostRuntime) {
    for &(code, wanted) in &MISSES {
        leaves(&rt, rt.alloc(), code, script(0, 0, 1), wanted);
    }
}

/// Codes, with how often they say something, and what they say last.
const SAYS: [(&str, u64, i64); 5] = [
    ("POP", 0, 0),
    ("SAY", 1, 7),
    ("PUSH -5\nSAY", 1, -5),
    ("PUSH -5\nSAY\nSAY", 2, 7),
    ("PUSH 0\nSAY\nSAY\nPUSH 0\nSAY", 3, 0),
];

/// The code says something so often, and this last.
fn says(rt: &impl Abort, alloc: Global, code: &str, said: u64, last: i64) {
    let (_outcome, sayings) = run(rt, alloc, code, 999, 999, FREE);
    assert_eq!(rt; sayings, Sayings { said, last }, "{code}");
}

#[test]
fn sayings_are_counted(rt: HostRuntime) {
    for &(code, said, last) in &SAYS {
        says(&rt, rt.alloc(), code, said, last);
    }
}

/// Codes that end as done, with the moves before that.
const ENDS: [(&str, u32); 6] = [
    ("HALT", 0),
    ("RET", 0),
    ("CALL halts\nPOP", 1),
    ("CALL sets\nRET", 4),
    ("LOCK a\nHALT\nPOP", 2),
    ("JMP 2\nRET\nJMP 1", 2),
];

/// The thread is done after so many moves.
fn is_done(rt: &impl Abort, alloc: Global, code: &str, moves: u32) {
    let (outcome, _sayings) = run(rt, alloc, code, 999, 999, FREE);
    ends(rt, code, &outcome, DONE, 999, moves);
}

#[test]
fn threads_are_done(rt: HostRuntime) {
    for &(code, moves) in &ENDS {
        is_done(&rt, rt.alloc(), code, moves);
    }
}
