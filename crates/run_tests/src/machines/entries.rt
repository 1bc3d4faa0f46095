//! The entries that the instructions about locks make, with their stacks.

use super::{done, program_of, script};
use crate::fake::{Fake, Script};
use dim_asm::Program;
use dim_base::{Lid, Tid};
use dim_rag::{Births, Entry, MissWhy, Why};
use dim_stack::{Frame, Stack};
use dim_vm::Machine;
use std::alloc::Global;
use std::process::Abort;

const T: Tid = Tid(0);

const A: Lid = Lid(0);

const B: Lid = Lid(1);

/// A slice of a program's first thread makes these entries.
fn makes(rt: &impl Abort, alloc: Global, program: &Program, script: Script, entries: &[Entry]) {
    let _some = program.threads();
    let mut machine = Machine::new(program, T, 99);
    let mut door = Fake::new(alloc, T, program.locks(), 100, script).expect(rt, "a door");
    let _slice = machine.slice(program, &mut door, 99);
    assert!(rt; door.entries() == entries);
}

fn go(l: Lid, stack: Stack) -> Entry {
    Entry::Go { t: T, l, stack }
}

fn got(l: Lid) -> Entry {
    Entry::Got { t: T, l }
}

fn took(l: Lid, stack: Stack) -> Entry {
    Entry::Took { t: T, l, stack }
}

fn free(l: Lid) -> Entry {
    Entry::Free { t: T, l }
}

fn end(why: Why) -> Entry {
    Entry::End { t: T, why }
}

/// A Yield of no births.
fn yields(l: Lid, stack: Stack) -> Entry {
    Entry::Yield {
        t: T,
        l,
        stack,
        sig: 0,
        births: Births::new(&[]),
    }
}

fn miss(l: Lid, stack: Stack, why: MissWhy) -> Entry {
    Entry::Miss {
        t: T,
        l,
        stack,
        why,
    }
}

fn in_main(program: &Program, at: u32) -> Stack {
    Stack::new(&[Frame {
        func: program.number(0),
        at,
    }])
}

const TRAPPED: Why = Why::Trapped { trap: 1 };

#[test]
fn locks_by_name_and_by_number(rt: HostRuntime) {
    let code = "LOCK b\nPUSH 0\nLOCKX\nUNLOCK b\nPUSH 0\nUNLOCKX\nHALT";
    let program = program_of(&rt, rt.alloc(), code);
    let wanted = [
        go(B, in_main(&program, 0)),
        got(B),
        go(A, in_main(&program, 2)),
        got(A),
        free(B),
        free(A),
        end(Why::Done),
    ];
    makes(&rt, rt.alloc(), &program, script(0, 0, 0), &wanted);
    done(program);
}

#[test]
fn a_lock_by_number_is_asked_for_again(rt: HostRuntime) {
    let program = program_of(&rt, rt.alloc(), "PUSH 1\nLOCKX\nHALT");
    let wanted = [
        yields(B, in_main(&program, 1)),
        go(B, in_main(&program, 1)),
        got(B),
        end(Why::Done),
    ];
    makes(&rt, rt.alloc(), &program, script(1, 1, 0), &wanted);
    done(program);
}

#[test]
fn locks_that_are_tried(rt: HostRuntime) {
    let code = "POP\nTRYLOCK b\nTRYLOCK b\nPOP\nPOP\nPOP";
    let program = program_of(&rt, rt.alloc(), code);
    let why = MissWhy::Busy { holder: Tid(9) };
    let wanted = [
        miss(B, in_main(&program, 1), why),
        took(B, in_main(&program, 2)),
        end(TRAPPED),
    ];
    makes(&rt, rt.alloc(), &program, script(0, 0, 1), &wanted);
    done(program);
}

#[test]
fn locks_that_are_held_are_taken_once_more(rt: HostRuntime) {
    let code = "LOCK b\nLOCK b\nPUSH 1\nLOCKX\nTRYLOCK b\nUNLOCK b\nHALT";
    let program = program_of(&rt, rt.alloc(), code);
    let wanted = [
        go(B, in_main(&program, 0)),
        got(B),
        took(B, in_main(&program, 1)),
        took(B, in_main(&program, 3)),
        took(B, in_main(&program, 4)),
        free(B),
        end(Why::Done),
    ];
    makes(&rt, rt.alloc(), &program, script(0, 0, 0), &wanted);
    done(program);
}

/// The stack at offset 1 of `takes`, the sixth function behind `main`, where `main` calls it at
/// offset 1.
fn in_takes(program: &Program) -> Stack {
    let (func, at) = (program.number(6), 1);
    let caller = program.number(0);
    Stack::new(&[
        Frame { func, at },
        Frame {
            func: caller,
            at: 1,
        },
    ])
}

#[test]
fn a_stack_is_innermost_first(rt: HostRuntime) {
    let program = program_of(&rt, rt.alloc(), "PUSH 5\nCALL takes\nRET");
    let wanted = [
        yields(A, in_takes(&program)),
        go(A, in_takes(&program)),
        got(A),
        end(Why::Done),
    ];
    makes(&rt, rt.alloc(), &program, script(1, 1, 0), &wanted);
    done(program);
}
