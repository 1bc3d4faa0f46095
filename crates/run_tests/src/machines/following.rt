//! Machines that go on by entries that were made before.
use super::{done, program_of};
use dim_asm::Program;
use dim_base::{Lid, Tid};
use dim_rag::{Entry, EntryRef, Why};
use dim_stack::{Frame, Stack};
use dim_vm::Machine;
use std::process::Abort;

const T: Tid = Tid(0);

const A: Lid = Lid(0);

const CODE: &str = "PUSH 1\nPOP\nLOCK a\nUNLOCK a\nHALT";

// Whether the first thread of a program, with so much fuel, goes on by each of these entries, in
// order.
fn follows(program: &Program, fuel: u32, may_end: bool, entries: &[Entry]) -> bool {
    let _some = program.threads();
    let mut machine = Machine::new(program, T, fuel);
    for e in entries {
        if !machine.follow(program, &EntryRef::of(e), may_end) {
            return false;
        }
    }
    true
}

fn go(program: &Program, at: u32) -> Entry {
    Entry::Go {
        t: T,
        l: A,
        stack: Stack::new(&[Frame {
            func: program.number(0),
            at,
        }]),
    }
}

fn took(program: &Program, at: u32) -> Entry {
    Entry::Took {
        t: T,
        l: A,
        stack: Stack::new(&[Frame {
            func: program.number(0),
            at,
        }]),
    }
}

const GOT: Entry = Entry::Got { t: T, l: A };

const FREE: Entry = Entry::Free { t: T, l: A };

fn end(t: Tid, why: Why) -> Entry {
    Entry::End { t, why }
}

/// The thread goes on by these entries.
fn goes(rt: &impl Abort, program: &Program, fuel: u32, may_end: bool, entries: &[Entry]) {
    assert!(rt; follows(program, fuel, may_end, entries));
}

/// The thread doesn't go on by one of these entries.
fn stops(rt: &impl Abort, program: &Program, fuel: u32, may_end: bool, entries: &[Entry]) {
    assert!(rt; !follows(program, fuel, may_end, entries));
}

#[test]
fn a_machine_goes_on_by_its_own_entries(rt: HostRuntime) {
    let program = program_of(&rt, rt.alloc(), CODE);
    let own = [go(&program, 2), GOT, FREE, end(T, Why::Done)];
    goes(&rt, &program, 99, true, &own);
    stops(&rt, &program, 99, true, &[go(&program, 3)]);
    stops(&rt, &program, 99, true, &[go(&program, 2), GOT, GOT]);
    let another = [go(&program, 2), GOT, FREE, end(Tid(1), Why::Done)];
    stops(&rt, &program, 99, true, &another);
    done(program);
}

#[test]
fn a_machine_ends_as_spent_without_units(rt: HostRuntime) {
    let program = program_of(&rt, rt.alloc(), CODE);
    let spent = [go(&program, 2), GOT, end(T, Why::Spent)];
    goes(&rt, &program, 4, false, &spent);
    stops(&rt, &program, 5, true, &spent);
    done(program);
}

#[test]
fn a_machine_with_a_unit_ends_as_spent_where_it_may(rt: HostRuntime) {
    let program = program_of(&rt, rt.alloc(), CODE);
    goes(&rt, &program, 3, true, &[end(T, Why::Spent)]);
    stops(&rt, &program, 3, false, &[end(T, Why::Spent)]);
    stops(&rt, &program, 3, true, &[go(&program, 2)]);
    done(program);
}

#[test]
fn a_machine_takes_a_lock_once_more(rt: HostRuntime) {
    let code = "LOCK a\nLOCK a\nUNLOCK a\nUNLOCK a\nHALT";
    let program = program_of(&rt, rt.alloc(), code);
    let own = [
        go(&program, 0),
        GOT,
        took(&program, 1),
        FREE,
        FREE,
        end(T, Why::Done),
    ];
    goes(&rt, &program, 99, true, &own);
    goes(&rt, &program, 3, true, &own[..3]);
    stops(&rt, &program, 2, true, &own[..3]);
    stops(&rt, &program, 99, true, &[took(&program, 1)]);
    stops(&rt, &program, 99, true, &[go(&program, 0), GOT, GOT]);
    done(program);
}
