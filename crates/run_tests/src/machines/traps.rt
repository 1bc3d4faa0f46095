//! Each trap, at each instruction that has it, and which goes before which.
use super::{FREE, ends, run, same, slice_of, stands, trapped};
use dim_asm::{Program, assemble};
use std::alloc::Global;
use std::fmt::Write;
use std::process::Abort;

const UNDER: u8 = 1;

const OVER: u8 = 2;

const DEPTH: u8 = 3;

const SUM: u8 = 4;

const LOCAL: u8 = 5;

const NO_LOCK: u8 = 6;

const RELOCK: u8 = 7;

const NOT_OWNER: u8 = 8;

const FELL_OFF: u8 = 9;

/// Codes, with the number of their trap, and the moves before it.
const TRAPS: [(&str, u8, u32); 65] = [
    ("POP\nPOP", UNDER, 1),
    ("POP\nDUP", UNDER, 1),
    ("POP\nSWAP", UNDER, 1),
    ("SWAP", UNDER, 0),
    ("POP\nADD", UNDER, 1),
    ("ADD", UNDER, 0),
    ("POP\nPUSH 9223372036854775807\nADD", UNDER, 2),
    ("POP\nSUB", UNDER, 1),
    ("SUB", UNDER, 0),
    ("POP\nPUSH -9223372036854775808\nSUB", UNDER, 2),
    ("POP\nLT", UNDER, 1),
    ("LT", UNDER, 0),
    ("POP\nEQ", UNDER, 1),
    ("EQ", UNDER, 0),
    ("POP\nJZ 0", UNDER, 1),
    ("POP\nPUTL 0", UNDER, 1),
    ("POP\nLOCKX", UNDER, 1),
    ("POP\nUNLOCKX", UNDER, 1),
    ("POP\nSAY", UNDER, 1),
    // the argument, and 255 operands more
    ("PUSH 1\nJMP 0", OVER, 510),
    ("DUP\nJMP 0", OVER, 510),
    ("GETL 0\nJMP 0", OVER, 510),
    ("TRYLOCK a\nUNLOCK a\nJMP 0", OVER, 765),
    // the outermost call, and 31 more
    ("CALL deeper", DEPTH, 31),
    ("PUSH 9223372036854775807\nADD", SUM, 1),
    ("PUSH 9223372036854775807\nPUSH 1\nADD", SUM, 2),
    ("PUSH -9223372036854775808\nPUSH -1\nADD", SUM, 2),
    ("PUSH -9223372036854775808\nPUSH 1\nSUB", SUM, 2),
    ("PUSH 9223372036854775807\nPUSH -1\nSUB", SUM, 2),
    ("PUSH 0\nPUSH -9223372036854775808\nSUB", SUM, 2),
    ("GETL 2", LOCAL, 0),
    ("GETL 255", LOCAL, 0),
    ("PUTL 2", LOCAL, 0),
    ("PUTL 255", LOCAL, 0),
    ("POP\nPUTL 2", LOCAL, 1),
    ("CALL has_none", LOCAL, 1),
    ("CALL reads_the_17th", LOCAL, 1),
    ("PUSH -1\nLOCKX", NO_LOCK, 1),
    ("PUSH 2\nLOCKX", NO_LOCK, 1),
    ("PUSH 4294967296\nLOCKX", NO_LOCK, 1),
    ("PUSH -9223372036854775808\nLOCKX", NO_LOCK, 1),
    ("PUSH -1\nUNLOCKX", NO_LOCK, 1),
    ("PUSH 2\nUNLOCKX", NO_LOCK, 1),
    ("PUSH 4294967296\nUNLOCKX", NO_LOCK, 1),
    ("LOCK a\nPUSH 4294967296\nUNLOCKX", NO_LOCK, 3),
    // held 255 times: a Go and a Got, and 254 Tooks, or as many Tooks as there are holds
    ("LOCK a\nJMP 0", RELOCK, 511),
    ("PUSH 1\nLOCKX\nJMP 0", RELOCK, 767),
    ("TRYLOCK a\nPOP\nJMP 0", RELOCK, 765),
    ("LOCK a\nTRYLOCK a\nUNLOCK a\nPOP\nJMP 0", RELOCK, 1272),
    ("LOCK a\nTRYLOCK a", FELL_OFF, 3),
    ("TRYLOCK a\nLOCK a", FELL_OFF, 2),
    ("PUSH 1\nLOCKX\nLOCK b", FELL_OFF, 4),
    ("LOCK a\nLOCK a\nUNLOCK a\nUNLOCK a\nUNLOCK a", NOT_OWNER, 5),
    (
        "LOCK a\nPUSH 0\nLOCKX\nPUSH 0\nUNLOCKX\nUNLOCK a\nUNLOCK a",
        NOT_OWNER,
        7,
    ),
    ("UNLOCK a", NOT_OWNER, 0),
    ("LOCK a\nUNLOCK b", NOT_OWNER, 2),
    ("LOCK a\nUNLOCK a\nUNLOCK a", NOT_OWNER, 3),
    ("TRYLOCK a\nUNLOCK a\nUNLOCK a", NOT_OWNER, 2),
    ("PUSH 1\nUNLOCKX", NOT_OWNER, 1),
    ("PUSH 1\nLOCKX\nUNLOCK a", NOT_OWNER, 3),
    ("LOCK a\nPUSH 1\nUNLOCKX", NOT_OWNER, 3),
    ("POP", FELL_OFF, 1),
    ("JMP 1", FELL_OFF, 1),
    ("PUSH 0\nJZ 2", FELL_OFF, 2),
    ("CALL falls_off\nRET", FELL_OFF, 2),
];

/// All operands that there may be: the argument, a 0 in each of 250 rounds that local 0 counts, and
/// five more.
const FULL: &str = "PUSH 0
GETL 0
PUSH 1
ADD
DUP
PUTL 0
PUSH 250
EQ
JZ 0
PUSH 0
PUSH 0
PUSH 0
PUSH 0
PUSH 0
";

const MOVES_OF_FULL: u32 = 250 * 9 + 5;

/// The traps of code behind which all operands are there.
const TRAPS_WHEN_FULL: [(&str, u8, u32); 9] = [
    ("PUSH 1", OVER, 0),
    ("DUP", OVER, 0),
    ("GETL 1", OVER, 0),
    ("GETL 2", LOCAL, 0),
    ("TRYLOCK a", OVER, 0),
    ("LOCK a\nTRYLOCK a", OVER, 2),
    ("POP\nPUSH 1\nPUSH 1", OVER, 2),
    ("ADD\nDUP\nDUP", OVER, 2),
    ("SWAP\nPUTL 1\nGETL 1\nGETL 1", OVER, 3),
];

const FUEL: u32 = 4_096;

/// A code traps after so many moves. A trap pays nothing, and its End isn't a move.
fn assert_trap(rt: &impl Abort, alloc: Global, code: &str, trap: u8, moves: u32) {
    let (outcome, _sayings) = run(rt, alloc, code, FUEL, 4_096, FREE);
    ends(rt, code, &outcome, trapped(trap), FUEL, moves);
}

#[test]
fn what_traps(rt: HostRuntime) {
    for &(code, trap, moves) in &TRAPS {
        assert_trap(&rt, rt.alloc(), code, trap, moves);
    }
}

/// Where all operands are there, a code traps after so many moves.
fn assert_trap_when_full(rt: &impl Abort, alloc: Global, code: &str, trap: u8, moves: u32) {
    let code = format!(in alloc; "{FULL}{code}").expect(rt, "a text");
    let moves = moves.saturating_add(MOVES_OF_FULL);
    assert_trap(rt, alloc, &code, trap, moves);
}

#[test]
fn what_traps_when_all_operands_are_there(rt: HostRuntime) {
    for &(code, trap, moves) in &TRAPS_WHEN_FULL {
        assert_trap_when_full(&rt, rt.alloc(), code, trap, moves);
    }
}

/// A program with all locks that there may be.
fn with_256_locks(rt: &impl Abort, alloc: Global, code: &str) -> Program {
    let mut text = String::from_str(alloc, "dim program 1\n").expect(rt, "a text");
    for n in 0..256 {
        writeln!(text, "lock l{n}").expect(rt, "room");
    }
    writeln!(text, "func main 0\n{code}\nend\nthread main 0\nend program").expect(rt, "room");
    assemble(alloc, text.as_bytes()).expect(rt, "a program")
}

/// The traps of code in a program of 256 locks.
const TRAPS_WITH_256_LOCKS: [(&str, u8, u32); 3] = [
    ("PUSH 255\nLOCKX\nLOCK l255", FELL_OFF, 4),
    ("PUSH 255\nUNLOCKX", NOT_OWNER, 1),
    ("PUSH 256\nLOCKX", NO_LOCK, 1),
];

/// In a program of 256 locks, a code traps after so many moves.
fn assert_trap_with_256_locks(rt: &impl Abort, alloc: Global, code: &str, trap: u8, moves: u32) {
    let program = with_256_locks(rt, alloc, code);
    let (outcome, _sayings) = slice_of(rt, alloc, &program, FUEL, 99, FREE);
    stands(rt, code, &outcome, trapped(trap));
    same(rt, code, outcome.moves as u64, moves as u64);
}

#[test]
fn what_traps_with_256_locks(rt: HostRuntime) {
    for &(code, trap, moves) in &TRAPS_WITH_256_LOCKS {
        assert_trap_with_256_locks(&rt, rt.alloc(), code, trap, moves);
    }
}

/// All operands, a held 255 times, and a lock that is tried then.
fn full_and_held(rt: &impl Abort, alloc: Global) -> String {
    let mut code = String::from_str(alloc, FULL).expect(rt, "a text");
    for _ in 0..255 {
        code.push_str("LOCK a\n").expect(rt, "room");
    }
    code.push_str("TRYLOCK a").expect(rt, "room");
    code
}

#[test]
fn relock_goes_before_over(rt: HostRuntime) {
    let code = full_and_held(&rt, rt.alloc());
    // a Go and a Got, and 254 Tooks
    assert_trap(&rt, rt.alloc(), &code, RELOCK, MOVES_OF_FULL + 256);
}
