use crate::checks::immune;
use dim_asm::{Program, assemble};
use dim_base::{Lid, Tid};
use dim_rag::{Births, Entry, MissWhy, Named, Why};
use dim_stack::{Frame, Names, Stack};
use dim_trace::{Trace, TraceError, check, read_trace, write_trace};
use samples::entries::{at, end, free, go, got, took};
use samples::programs::{CHAINED, CROSSED};
use samples::traces;
use std::alloc::Global;
use std::process::Abort;

const EACH_KIND: &[u8] =
    b"dim trace 1\nsettings 5 32\ngo 0 a left:0 right:65535\nyield 1 b 4095 3 0 2 1048575 right:0 left:7\ngot 0 a\nfree 0 a\ntook 31 b right:3\nbusy 0 b 31 left:1\navoid 0 b 1 2 10 20 left:1 left:2\ndone 0\ntrap 1 9\nspent 2\nbreak 4294967295 1\nlearn 2 0 2\nend 12\n";

const A: u32 = 0;

const B: u32 = 1;

fn called(func: u32, at: u32, by: u32, from: u32) -> Stack {
    let caller = Frame { func: by, at: from };
    Stack::new(&[Frame { func, at }, caller])
}

fn miss(t: u32, l: u32, stack: Stack, why: MissWhy) -> Entry {
    let (t, l) = (Tid(t), Lid(l));
    Entry::Miss { t, l, stack, why }
}

/// The cause of a Miss that would complete a cover.
fn avoid() -> MissWhy {
    MissWhy::Avoid(Named {
        sig: 1,
        births: Births::new(&[10, 20]),
    })
}

fn entry_of_each_kind() -> [Entry; 12] {
    [
        go(0, A, called(0, 0, 1, 65535)),
        Entry::Yield {
            t: Tid(1),
            l: Lid(B),
            stack: called(1, 0, 0, 7),
            sig: 4095,
            births: Births::new(&[0, 2, 1048575]),
        },
        got(0, A),
        free(0, A),
        took(31, B, at(1, 3)),
        miss(0, B, at(0, 1), MissWhy::Busy { holder: Tid(31) }),
        miss(0, B, called(0, 1, 0, 2), avoid()),
        end(0, Why::Done),
        end(1, Why::Trapped { trap: 9 }),
        end(2, Why::Spent),
        Entry::Break {
            set: 4294967295,
            t: Tid(1),
        },
        Entry::Learn {
            births: Births::new(&[0, 2]),
        },
    ]
}

fn trace_of(rt: &impl Abort, alloc: Global, fuel: u32, depth: u8, entries: &[Entry]) -> Trace {
    // A value of this type in the function lets the check pass an `Entry` to a generic function.
    let _why = MissWhy::Busy { holder: Tid(0) };
    let entries = Vec::from_slice(alloc, entries).expect(rt, "entries");
    Trace {
        fuel,
        depth,
        entries,
    }
}

fn program_of(rt: &impl Abort, alloc: Global, text: &[u8]) -> Program {
    assemble(alloc, text).expect(rt, "a program")
}

/// The names of the functions of a program, by their numbers.
fn names_of(rt: &impl Abort, alloc: Global, program: &Program) -> Names {
    program.names(alloc).expect(rt, "names")
}

/// A trace of the program of the locks a and b is written as this text.
fn is_written(rt: &impl Abort, alloc: Global, trace: &Trace, text: &[u8]) {
    let program = program_of(rt, alloc, CROSSED);
    let names = names_of(rt, alloc, &program);
    let written = write_trace(alloc, &program, &names, trace).expect(rt, "a text");
    assert_eq!(rt; written.as_slice(), text);
}

/// The trace is done with. The tests drop one here alone, since the proof of a drop is long.
fn done(_trace: Trace) {}

#[test]
fn immunity_after_one_deadlock(rt: HostRuntime) {
    let trace = trace_of(&rt, rt.alloc(), 8192, 4, &immune());
    is_written(&rt, rt.alloc(), &trace, traces::AVOIDED);
    done(trace);
}

#[test]
fn a_line_of_each_kind_of_entry(rt: HostRuntime) {
    let trace = trace_of(&rt, rt.alloc(), 5, 32, &entry_of_each_kind());
    is_written(&rt, rt.alloc(), &trace, EACH_KIND);
    done(trace);
}

// Texts that are no traces of the program above: of each the line of its first fault and the number
// of its kind.
const FAULTS: [(&[u8], u32, u32); 56] = [
    (b"", 1, 1),
    (b"dim trace 1", 1, 1),
    (b"dim  trace 1\n", 1, 1),
    (b"dim trace 1\n", 2, 1),
    (b"dim trace 1\nsettings 8192 4", 2, 1),
    (b"dim trace 1\nsettings 8193 4\n", 2, 1),
    (b"dim trace 1\nsettings 0 4\n", 2, 1),
    (b"dim trace 1\nsettings 1 33\n", 2, 1),
    (b"dim trace 1\nsettings 1 4 \n", 2, 1),
    (b"dim trace 1\nsettings 1\n", 2, 1),
    (b"dim trace 1\nsettings 1 1\n", 3, 2),
    (b"dim trace 1\nsettings 1 1\nend 0", 3, 2),
    (b"dim trace 1\nsettings 1 1\n\n", 3, 2),
    (b"dim trace 1\nsettings 1 1\nwent 0 a\n", 3, 2),
    (b"dim trace 1\nsettings 1 1\ngot 0\n", 3, 2),
    (b"dim trace 1\nsettings 1 1\ngot 0 a a\n", 3, 2),
    (b"dim trace 1\nsettings 1 1\ngot  0 a\n", 3, 2),
    (b"dim trace 1\nsettings 1 1\ngot 0 a \n", 3, 2),
    (b"dim trace 1\nsettings 1 1\ngo 0 a\n", 3, 2),
    (b"dim trace 1\nsettings 1 1\ngo 32 c left\n", 3, 2),
    (b"dim trace 1\nsettings 1 1\ngo 0 a left:0:0\n", 3, 2),
    (b"dim trace 1\nsettings 1 1\ngo 0 a left:0 \n", 3, 2),
    (b"dim trace 1\nsettings 1 1\nend\n", 3, 2),
    (b"dim trace 1\nsettings 1 1\nend 0 0\n", 3, 2),
    (b"dim trace 1\nsettings 1 1\ngot 32 c\n", 3, 4),
    (b"dim trace 1\nsettings 1 1\ngot 31 c\n", 3, 3),
    (b"dim trace 1\nsettings 1 1\ngot 01 a\n", 3, 4),
    (b"dim trace 1\nsettings 1 1\ngo 0 a none:0\n", 3, 3),
    (b"dim trace 1\nsettings 1 1\ngo 0 a :0\n", 3, 3),
    (
        b"dim trace 1\nsettings 1 1\ngo 0 a left:65536 none:0\n",
        3,
        4,
    ),
    (b"dim trace 1\nsettings 1 1\nbusy 0 a 32 none:0\n", 3, 4),
    (
        b"dim trace 1\nsettings 1 1\navoid 0 a 4096 2 0 1 left:0\n",
        3,
        4,
    ),
    (
        b"dim trace 1\nsettings 1 1\nyield 0 a 0 2 0 1048576 left:0\n",
        3,
        4,
    ),
    (
        b"dim trace 1\nsettings 1 1\nyield 0 a 0 3 0 1 left:0\n",
        3,
        2,
    ),
    (b"dim trace 1\nsettings 1 1\ntrap 0 0\n", 3, 4),
    (b"dim trace 1\nsettings 1 1\ntrap 0 10\n", 3, 4),
    (b"dim trace 1\nsettings 1 1\nbreak 4294967296 0\n", 3, 4),
    (b"dim trace 1\nsettings 1 1\nlearn\n", 3, 2),
    (b"dim trace 1\nsettings 1 1\nlearn 2 0\n", 3, 2),
    (b"dim trace 1\nsettings 1 1\nlearn 1\n", 3, 4),
    (b"dim trace 1\nsettings 1 1\nlearn 1  2\n", 3, 2),
    (b"dim trace 1\nsettings 1 1\nlearn 33 x:y:z\n", 3, 4),
    (b"dim trace 1\nsettings 1 1\nyield 0 a 0\n", 3, 2),
    (b"dim trace 1\nsettings 1 1\nyield 0 c 0 x\n", 3, 3),
    (b"dim trace 1\nsettings 1 1\nyield 32 c 0 x\n", 3, 4),
    (b"dim trace 1\nsettings 1 1\nyield 0 a 0 1 no stack\n", 3, 4),
    (b"dim trace 1\nsettings 1 1\nend x\n", 3, 4),
    (b"dim trace 1\nsettings 1 1\nend 01\n", 3, 4),
    (b"dim trace 1\nsettings 1 1\nend 1\n", 3, 5),
    (
        b"dim trace 1\nsettings 1 1\nend 99999999999999999999\n",
        3,
        5,
    ),
    (b"dim trace 1\nsettings 8192 4\ndone 0\nend 2\n", 4, 5),
    (
        b"dim trace 1\nsettings 1 1\ngo 32 a left:0 left:0 left:0 left:0 left:0 left:0 left:0 left:0 left:0 left:0 left:0 left:0 left:0 left:0 left:0 left:0 left:0 left:0 left:0 left:0 left:0 left:0 left:0 left:0 left:0 left:0 left:0 left:0 left:0 left:0 left:0 left:0 left:0\n",
        3,
        7,
    ),
    (
        b"dim trace 1\nsettings 1 1\nyield 0 a 0 2 0 1048576 left:0 left:0 left:0 left:0 left:0 left:0 left:0 left:0 left:0 left:0 left:0 left:0 left:0 left:0 left:0 left:0 left:0 left:0 left:0 left:0 left:0 left:0 left:0 left:0 left:0 left:0 left:0 left:0 left:0 left:0 left:0 left:0 left:0\n",
        3,
        7,
    ),
    (
        b"dim trace 1\nsettings 1 1\nyield 0 a 0 1 left:0 left:0 left:0 left:0 left:0 left:0 left:0 left:0 left:0 left:0 left:0 left:0 left:0 left:0 left:0 left:0 left:0 left:0 left:0 left:0 left:0 left:0 left:0 left:0 left:0 left:0 left:0 left:0 left:0 left:0 left:0 left:0 left:0\n",
        3,
        4,
    ),
    (b"dim trace 1\nsettings 1 1\nend 0\n\n", 4, 6),
    (b"dim trace 1\nsettings 1 1\nend 0\nx", 4, 6),
];

// A program with more locks and functions, and damaged traces of it.
const CROWD: &[u8] =
    b"dim program 1\nlock a\nlock b\nlock f0\nlock f1\nlock f2\nlock f3\nlock f4\nfunc phil 0\nRET\nend\nfunc w0 0\nRET\nend\nfunc w1 0\nRET\nend\nfunc w2 0\nRET\nend\nfunc w3 0\nRET\nend\nfunc w4 0\nRET\nend\nthread phil 0\nend program\n";

const DAMAGED: [(&[u8], u32, u32); 6] = [
    (
        b"dim trace 1\nsettings 17 1\ngo 0 f0 phil:14\ngo 1 f1 phil:14\ngo 2 f2 phil:14\ngo 3 f3 phil:14\ngot 2 f2\ngot 3 f3\ngot 0 f0\ngot 1 f1\nyield 4 f4",
        11,
        2,
    ),
    (
        b"dim trace 1\nsettings 8192 4\ngo 0 f0 phil:14\ngo 1 f1 phil:14\ngo 2 f2 phil:14\ngot 2 f2\ngot 3 f3\ngot 0 f0\ngot 1 f1\ngo 4 f4 phil:14\nyield 1 f2 0 2 0 9 phil:16\nyield 2 f3 0 2 0 10 phil:16\nyield 3 f4 0 2 0 11 phil:16\ngot 4 f4\nyield 0 f1 0 2 2 13 phil:16\nlearn 2 0 2\nbreak 15 0\nbreak 15 1\nlearn 3 0 1 2\nbreak 15 2\nlearn 4 0 1 2 3\nbreak 15 lock\nyield 4 f0 0 2 1 21 phil:16\nbreak 31 4\nlearn 5 0 1 2 3 8\n end 24\n",
        22,
        4,
    ),
    (
        b"dim trace 1\nsettings 8192 4\ngo 0 f0 phil:14\ngot 0 f0\ngo 1 f1 phil:14\ngot 1 f1\ngo 2 f2 phil:14\ngot 2 f2\ngo 0 f1 phil:16\ngo 1 f2 phil:16\ngo 2 f3 phil:16\ngo 3 f3 phil:14\ngot 3 f3\ngo 3 f0 phil:16\nlearn 4: 0 2 4 9\nend 13\n",
        15,
        4,
    ),
    (
        b"dim trace 1\nsettings 8192 3\ngo 3 a w0:0\ngot 3 a\ngo 3 b w0:1\ngot 3 b\nfree 3 a\nfree 3 b\ndone 3\ngo 0 a w0:0\ngot 0 a\ngot 0 b\nfree 0 a\nfree 0 b\ndone 0\ngo 1 a w1:0\ngot 1 a\ngo 1 b w1:1\ngot 1 b\nfree 1 bx\nfree 1 a\ndone 1\ngo 2 a w0:0\ngot 2 a\ngo 2 b w0:1\ngot 2 b\nfree 2 a\nfree 2 b\ndone 2\nend 28\n",
        20,
        3,
    ),
    (
        b"dim trace 1\nsettings 8192 4\ngo 0 b w0:0\ngot 0 b\ngo 0 a w0:1\ngo 1 b w1:0\ngo 2 b w1:0\ngot 0 a\nfree 0 a\nfree 0 b\ngot 1 b\ngo 1 a w1:1\ngot 1 a\ngo 0 b w0:4\nfree 1 b\nfree 1 a\ndone 1\ngot 2 b\ngo 2 a w1:1\ngot 2 a\nfree 2 1 b\nfree 2 a\ndone 2\ngot 0 b\ngo 0 a w0:5\ngot 0 a\nfree 0 a\nfree 0 b\ndone 0\nend 27\n",
        21,
        2,
    ),
    (
        b"dim trace 1\nsettings 8192 3\ngo 2 a w2:0\ngot 3 b\ngo 4 b w4:0\ngo 5 a w2:0\nbreak 63 1\ngot 0 a\nyield 1 b 0 2 7 0 w1:0\ngo 0 b w0:1\ngo 3 a w3:11\nlearn 2 5 1\ngo 0 a w0:0\nend 12\n",
        14,
        5,
    ),
];

// The line and the number of the kind of a text's first fault.
fn fault(alloc: Global, program: &Program, names: &Names, text: &[u8]) -> Option<(u32, u32)> {
    match read_trace(alloc, program, names, text) {
        Err(TraceError::Bad(fault)) => Some((fault.line, fault.kind.number())),
        _ => None,
    }
}

/// A text is read, and written again as it was.
fn comes_back(rt: &impl Abort, alloc: Global, program: &Program, text: &[u8]) {
    let names = names_of(rt, alloc, program);
    let trace = read_trace(alloc, program, &names, text).expect(rt, "a trace");
    let again = write_trace(alloc, program, &names, &trace).expect(rt, "a text");
    assert!(rt; again.as_slice() == text);
}

/// Each of these texts of traces of a program is read, and written again as it was.
fn come_back(rt: &impl Abort, alloc: Global, program: &[u8], texts: &[&[u8]]) {
    let program = program_of(rt, alloc, program);
    for text in texts {
        comes_back(rt, alloc, &program, text);
    }
}

#[test]
fn a_text_that_was_read_is_written_again(rt: HostRuntime) {
    let texts = [traces::SMALLEST, traces::LEARNT, traces::AVOIDED, EACH_KIND];
    come_back(&rt, rt.alloc(), CROSSED, &texts);
    come_back(&rt, rt.alloc(), CHAINED, &[traces::STARVED_UNLEARNT]);
}

fn trace_in(rt: &impl Abort, alloc: Global, text: &[u8]) -> Trace {
    let program = program_of(rt, alloc, CROSSED);
    let names = names_of(rt, alloc, &program);
    read_trace(alloc, &program, &names, text).expect(rt, "a trace")
}

/// The trace has this fuel, this depth and these entries.
fn is_of(rt: &impl Abort, trace: &Trace, fuel: u32, depth: u8, entries: &[Entry]) {
    assert_eq!(rt; (trace.fuel, trace.depth), (fuel, depth));
    assert_eq!(rt; trace.entries.as_slice(), entries);
}

#[test]
fn the_entries_of_a_text_are_read(rt: HostRuntime) {
    let trace = trace_in(&rt, rt.alloc(), EACH_KIND);
    is_of(&rt, &trace, 5, 32, &entry_of_each_kind());
    done(trace);
}

/// Each of these texts has its first fault in this line, and the fault has this kind.
fn have_faults(rt: &impl Abort, alloc: Global, program: &[u8], texts: &[(&[u8], u32, u32)]) {
    let program = program_of(rt, alloc, program);
    let names = names_of(rt, alloc, &program);
    for &(text, line, kind) in texts {
        has_fault(rt, fault(alloc, &program, &names, text), line, kind);
    }
}

fn has_fault(rt: &impl Abort, fault: Option<(u32, u32)>, line: u32, kind: u32) {
    assert_eq!(rt; fault, Some((line, kind)));
}

#[test]
fn bad_traces_are_told_apart(rt: HostRuntime) {
    have_faults(&rt, rt.alloc(), CROSSED, &FAULTS);
}

#[test]
fn the_first_damage_is_told(rt: HostRuntime) {
    have_faults(&rt, rt.alloc(), CROWD, &DAMAGED);
}
