//! A try that is made, and one that misses.
use crate::given::{chain, kept, log, operation, spot};
use dim_asm::Program;
use dim_base::{Lid, Tid};
use dim_log::Log;
use dim_orders::{Deed, Kept};
use dim_rag::{EntryRef, Why};
use dim_stack::Frame;
use dim_transcribe::{Transcribe, Transcript, transcribe};
use dim_vm::Machine;
use std::alloc::Global;

const T: Tid = Tid(0);

// A thread takes a, tries b, and frees both; and then takes c and frees it.
fn tried(alloc: Global) -> Result<(Log, Kept), Transcribe> {
    let mut stacks = Vec::new(alloc);
    for line in 0..6 {
        stacks.push(vec![in alloc; spot(0, line)]?)?;
    }
    let log = log(alloc, &["f"], stacks)?;
    let operations = vec![in alloc;
        operation(Deed::Lock, 0, 0),
        operation(Deed::Try, 1, 1),
        operation(Deed::Unlock, 1, 2),
        operation(Deed::Unlock, 0, 3),
        operation(Deed::Lock, 2, 4),
        operation(Deed::Unlock, 2, 5),
    ]?;
    Ok((log, kept(vec![in alloc; chain(alloc, operations)]?)))
}

// The frames with which the first thread makes an operation.
fn frames(t: &Transcript, operation: usize) -> &[Frame] {
    match t.moves.first() {
        Some(moves) => match moves.get(operation) {
            Some(by) => by.stack.as_slice(),
            None => &[],
        },
        None => &[],
    }
}

// Whether a machine goes on by each of some entries.
fn follows(program: &Program, machine: &mut Machine, entries: &[EntryRef<'_>]) -> bool {
    for e in entries.iter() {
        if !machine.follow(program, e, false) {
            return false;
        }
    }
    true
}

// Where the try misses, a is freed, and the next section comes.
#[test]
fn a_try_that_misses(rt: HostRuntime) {
    let alloc = rt.alloc();
    let (log, kept) = tried(alloc).expect(&rt, "memory");
    let t = transcribe(alloc, &log, &kept).expect(&rt, "a transcript");
    let _some = t.program.threads();
    let mut machine = Machine::new(&t.program, T, 8192);
    let entries = [
        EntryRef::Go {
            t: T,
            l: Lid(0),
            stack: frames(&t, 0),
        },
        EntryRef::Got { t: T, l: Lid(0) },
        EntryRef::MissBusy {
            t: T,
            l: Lid(1),
            stack: frames(&t, 1),
            holder: Tid(1),
        },
        EntryRef::Free { t: T, l: Lid(0) },
        EntryRef::Go {
            t: T,
            l: Lid(2),
            stack: frames(&t, 4),
        },
        EntryRef::Got { t: T, l: Lid(2) },
        EntryRef::Free { t: T, l: Lid(2) },
        EntryRef::End {
            t: T,
            why: Why::Done,
        },
    ];
    assert!(rt; follows(&t.program, &mut machine, &entries));
}
