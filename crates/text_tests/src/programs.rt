//! Small programs, and each kind of fault.
ghost use Rattle.std.specs.Prelude.{IfOk};
ghost use Rattle.dim_stack.specs.Names.{HasNames};
ghost use Rattle.dim_asm.specs.Code.{func_names};

use dim_asm::{AsmError, Op, Program, assemble};
use dim_base::{Lid, OutOfMemory, Tid};
use dim_stack::{Names, merged_law};
use samples::programs::PHILOSOPHERS;
use std::alloc::Global;
use std::fmt::Write;
use std::process::Abort;

// Two functions that take two locks in turn.
pub const DOORS: &str = "dim program 1
lock a
lock b
func left 0
LOCK a
LOCK b
UNLOCK b
UNLOCK a
RET
end
func right 0
LOCK b
LOCK a
UNLOCK a
UNLOCK b
RET
end
thread left 0
thread right 0
end program
";

// The program that a text spells.
pub fn program_of(rt: &impl Abort, alloc: Global, text: &[u8]) -> Program {
    assemble(alloc, text).expect(rt, "a program")
}

// The program is done with.
pub fn done(_program: Program) {}

// Both numbers are the same.
pub fn same(rt: &impl Abort, number: u32, expected: u32) {
    assert_eq!(rt; number, expected);
}

fn same_op(rt: &impl Abort, op: Option<Op>, expected: Option<Op>) {
    assert_eq!(rt; op, expected);
}

// The program has so many threads, locks and functions.
fn has(rt: &impl Abort, p: &Program, threads: u32, locks: u32, funcs: u32) {
    same(rt, p.threads(), threads);
    same(rt, p.locks(), locks);
    same(rt, p.funcs(), funcs);
}

// The lock with this number has this name.
fn names_lock(rt: &impl Abort, p: &Program, l: u32, name: &str) {
    assert!(rt; l < p.locks());
    assert!(rt; p.lock_name(Lid(l)).as_str() == name);
}

// The function with this number has this name.
fn names_func(rt: &impl Abort, p: &Program, f: u32, name: &str) {
    assert!(rt; f < p.funcs());
    assert!(rt; p.func_name(f).as_str() == name);
}

// The thread begins in this function, with this argument.
fn starts(rt: &impl Abort, p: &Program, t: u32, func: u32, argument: i64) {
    assert!(rt; t < p.threads());
    assert_eq!(rt; p.start(Tid(t)), (func, argument));
}

#[test]
fn a_program_is_assembled(rt: HostRuntime) {
    let p = program_of(&rt, rt.alloc(), DOORS.as_bytes());
    has(&rt, &p, 2, 2, 2);
    names_lock(&rt, &p, 1, "b");
    names_func(&rt, &p, 1, "right");
    same(&rt, p.number(0), 0);
    same(&rt, p.number(1), 1);
    starts(&rt, &p, 1, 1, 0);
    same_op(&rt, p.op(1, 0), Some(Op::Lock { l: Lid(1) }));
    same_op(&rt, p.op(1, 2), Some(Op::Unlock { l: Lid(0) }));
    same_op(&rt, p.op(1, 4), Some(Op::Ret));
    same_op(&rt, p.op(1, 5), None);
    done(p);
}

const NO_LOCK: &[u8] =
    b"dim program 1\nfunc main 16\nRET\nend\nthread main -9223372036854775808\nend program\n";

#[test]
fn the_smallest_program_has_no_lock(rt: HostRuntime) {
    let p = program_of(&rt, rt.alloc(), NO_LOCK);
    has(&rt, &p, 1, 0, 1);
    same(&rt, p.locals(0), 16);
    starts(&rt, &p, 0, 0, -9223372036854775808);
    done(p);
}

const FORWARD: &[u8] =
    b"dim program 1\nlock f\nfunc e 0\nCALL f\nLOCK f\nRET\nend\nfunc f 2\nRET\nend\nthread e 1\nend program\n";

#[test]
fn a_call_may_go_forward(rt: HostRuntime) {
    let p = program_of(&rt, rt.alloc(), FORWARD);
    same_op(&rt, p.op(0, 0), Some(Op::Call { f: 1 }));
    same_op(&rt, p.op(0, 1), Some(Op::Lock { l: Lid(0) }));
    same(&rt, p.locals(1), 2);
    done(p);
}

// A program of one function, of two instructions of which this is the first.
fn with_op(rt: &impl Abort, alloc: Global, op: &str) -> String {
    format!(in alloc;
        "dim program 1\nlock a\nfunc f 1\n{op}\nRET\nend\nthread f 0\nend program\n"
    ).expect(rt, "a text")
}

// The line spells this instruction.
fn spells(rt: &impl Abort, alloc: Global, line: &str, op: Op) {
    let text = with_op(rt, alloc, line);
    let p = program_of(rt, alloc, text.as_bytes());
    same_op(rt, p.op(0, 0), Some(op));
}

const OPS: [(&str, Op); 21] = [
    ("PUSH -7", Op::Push { n: -7 }),
    ("POP", Op::Pop),
    ("DUP", Op::Dup),
    ("SWAP", Op::Swap),
    ("ADD", Op::Add),
    ("SUB", Op::Sub),
    ("LT", Op::Lt),
    ("EQ", Op::Eq),
    ("JMP 2", Op::Jmp { k: 2 }),
    ("JZ 0", Op::Jz { k: 0 }),
    ("GETL 255", Op::GetL { i: 255 }),
    ("PUTL 0", Op::PutL { i: 0 }),
    ("CALL f", Op::Call { f: 0 }),
    ("RET", Op::Ret),
    ("LOCK a", Op::Lock { l: Lid(0) }),
    ("LOCKX", Op::LockX),
    ("UNLOCK a", Op::Unlock { l: Lid(0) }),
    ("UNLOCKX", Op::UnlockX),
    ("TRYLOCK a", Op::TryLock { l: Lid(0) }),
    ("SAY", Op::Say),
    ("HALT", Op::Halt),
];

#[test]
fn each_word_is_an_instruction(rt: HostRuntime) {
    for &(line, op) in &OPS {
        spells(&rt, rt.alloc(), line, op);
    }
}

// The line and the number of the kind of a text's fault.
fn fault(alloc: Global, text: &str) -> Option<(u32, u32)> {
    match assemble(alloc, text.as_bytes()) {
        Err(AsmError::Bad(fault)) => Some((fault.line, fault.kind.number())),
        _ => None,
    }
}

// A text has this fault, or none.
fn has_fault(rt: &impl Abort, alloc: Global, text: &str, expected: Option<(u32, u32)>) {
    assert_eq!(rt; fault(alloc, text), expected);
}

// The line is an instruction with a fault of this kind.
fn misspells(rt: &impl Abort, alloc: Global, line: &str, kind: u32) {
    let text = with_op(rt, alloc, line);
    has_fault(rt, alloc, text.as_str(), Some((4, kind)));
}

const BAD_OPS: [(&str, u32); 14] = [
    ("pop", 1),
    ("LOCKS a", 1),
    ("JMP 3", 6),
    ("JZ 65536", 6),
    ("JMP 65537", 2),
    ("GETL 256", 2),
    ("PUTL -1", 2),
    ("PUSH 9223372036854775808", 2),
    ("PUSH -0", 2),
    ("PUSH", 6),
    ("POP 1", 6),
    ("TRYLOCK f", 5),
    ("CALL a", 5),
    ("UNLOCK 1", 3),
];

#[test]
fn an_instruction_has_its_own_faults(rt: HostRuntime) {
    for &(line, kind) in &BAD_OPS {
        misspells(&rt, rt.alloc(), line, kind);
    }
}

#[test]
fn philosophers_are_assembled(rt: HostRuntime) {
    let p = program_of(&rt, rt.alloc(), PHILOSOPHERS);
    has(&rt, &p, 5, 5, 1);
    same_op(&rt, p.op(0, 6), Some(Op::Jz { k: 9 }));
    same_op(&rt, p.op(0, 17), Some(Op::Ret));
    same_op(&rt, p.op(0, 18), None);
    starts(&rt, &p, 4, 0, 4);
    done(p);
}

// Functions that are declared against the order of their names.
const TURNED: &[u8] =
    b"dim program 1\nfunc b 0\nRET\nend\nfunc a 0\nRET\nend\nthread a 0\nend program\n";

// The table of a program's own names has so many.
fn has_names(rt: &impl Abort, alloc: Global, p: &Program, many: u32) {
    let names = p.names(alloc).expect(rt, "names");
    same(rt, names.len(), many);
}

#[test]
fn functions_are_numbered_by_their_names(rt: HostRuntime) {
    let p = program_of(&rt, rt.alloc(), TURNED);
    same(&rt, p.number(0), 1);
    same(&rt, p.number(1), 0);
    starts(&rt, &p, 0, 1, 0);
    has_names(&rt, rt.alloc(), &p, 2);
    done(p);
}

// The table of the names of two programs.
fn both_names(alloc: Global, p: &Program, q: &Program) -> Result<Names, OutOfMemory>
    ensures { IfOk result (λ names. HasNames names (func_names p.now.funcs)) }
{
    merged_law();
    Names::merge(alloc, &p.names(alloc)?, &q.names(alloc)?)
}

// Binds a program to the table of its names and those of the program that a text spells.
pub fn bind_with(rt: &impl Abort, alloc: Global, p: &mut Program, text: &[u8]) {
    let q = program_of(rt, alloc, text);
    let names = both_names(alloc, p, &q).expect(rt, "names");
    p.bind(&names);
}

#[test]
fn a_program_is_bound_to_a_larger_table(rt: HostRuntime) {
    let mut p = program_of(&rt, rt.alloc(), DOORS.as_bytes());
    bind_with(&rt, rt.alloc(), &mut p, PHILOSOPHERS);
    same(&rt, p.number(0), 0);
    same(&rt, p.number(1), 2);
    done(p);
}

// Texts, and of each the line of its first fault and the number of its kind.
const FAULTS: [(&str, u32, u32); 20] = [
    ("", 1, 1),
    ("dim program 2\n", 1, 1),
    ("dim program 1", 1, 1),
    ("dim program 1\n", 2, 1),
    ("dim program 1\nthread f 0\n", 2, 1),
    ("dim program 1\n lock a\n", 2, 1),
    ("dim program 1\nlock a b\n", 2, 6),
    ("dim program 1\nlock  a\n", 2, 6),
    ("dim program 1\nlock a \n", 2, 6),
    ("dim program 1\nlock 1a\n", 2, 3),
    ("dim program 1\nlock a\nlock a\n", 3, 4),
    ("dim program 1\nfunc f 17\n", 2, 2),
    ("dim program 1\nfunc 1 x\n", 2, 3),
    ("dim program 1\nfunc f 0\nend\n", 3, 6),
    ("dim program 1\nfunc f 0\nPUSHED\n", 3, 1),
    ("dim program 1\nfunc f 0\nRET\nend\nend program\n", 5, 1),
    ("dim program 1\nfunc f 0\nRET\nend\nthread f 0\nend\n", 6, 6),
    (
        "dim program 1\nfunc f 0\nRET\nend\nthread f 0\nend program\n\n",
        7,
        1,
    ),
    (
        "dim program 1\nfunc f 0\nCALL g\nRET\nend\nthread h 0\nend program\n",
        3,
        5,
    ),
    (
        "dim program 1\nfunc f 0\nLOCK f\nRET\nend\nthread f 00\nend program\n",
        6,
        2,
    ),
];

#[test]
fn the_first_fault_is_told(rt: HostRuntime) {
    for &(text, line, kind) in &FAULTS {
        has_fault(&rt, rt.alloc(), text, Some((line, kind)));
    }
}

// A text that declares a lock more than a program may have.
fn of_257_locks(rt: &impl Abort, alloc: Global) -> String {
    let mut text = String::from_str(alloc, "dim program 1\n").expect(rt, "a text");
    for i in 0..257 {
        writeln!(text, "lock l{i}").expect(rt, "room");
    }
    text
}

#[test]
fn there_are_limits(rt: HostRuntime) {
    let text = of_257_locks(&rt, rt.alloc());
    has_fault(&rt, rt.alloc(), text.as_str(), Some((258, 7)));
}

// The text with one of its lines replaced.
fn with_line(rt: &impl Abort, alloc: Global, text: &str, number: usize, line: &str) -> String {
    let mut edited = String::new(alloc);
    for (i, old) in text.lines().enumerate() {
        let new = if i + 1 == number { line } else { old };
        edited.push_str(new).expect(rt, "room");
        edited.push_str("\n").expect(rt, "room");
    }
    edited
}

#[test]
fn forms_are_judged_before_uses(rt: HostRuntime) {
    let alloc = rt.alloc();
    let unknown = with_line(&rt, alloc, DOORS, 5, "LOCK q");
    let malformed = with_line(&rt, alloc, unknown.as_str(), 19, "thread right x");
    has_fault(&rt, alloc, unknown.as_str(), Some((5, 5)));
    has_fault(&rt, alloc, malformed.as_str(), Some((19, 2)));
    let cut = DOORS.trim_end_matches("end program\n");
    has_fault(&rt, alloc, cut, Some((20, 1)));
    has_fault(&rt, alloc, DOORS, None);
}
