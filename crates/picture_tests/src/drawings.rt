//! What pictures show of texts.
ghost use Rattle.std.specs.Prelude.{◌≤◌, length};

use dim_asm::{Program, assemble};
use dim_history_file::{History, read};
use dim_picture::{Drawing, drawn};
use dim_signature::Catalogue;
use dim_trace::{KeptTrace, Verdict, check_kept, read_kept};
use std::alloc::Global;
use std::process::Abort;

/// What is drawn of a program, a history and a trace.
#[derive(Drop)]
pub struct Given {
    pub program: Program,
    pub history: History,
    pub trace: KeptTrace,
}

pub fn given_of(
    rt: &impl Abort,
    alloc: Global,
    program: &[u8],
    history: &[u8],
    trace: &[u8],
) -> Given
    ensures sigs { length result.history.catalogue.sigs ≤ 4080 }
    ensures low { 1 ≤ result.trace.depth }
    ensures high { result.trace.depth ≤ 32 }
    ensures short { length result.trace.entries ≤ 1048576 }
{
    let program = assemble(alloc, program).expect(rt, "a program");
    let history = read(alloc, history).expect(rt, "a history");
    let trace = read_kept(alloc, &program, &history.names, trace).expect(rt, "a trace");
    assert!(rt; history.catalogue.len() <= 4080);
    assert!(rt; 1 <= trace.depth() && trace.depth() <= 32);
    assert!(rt; trace.len() <= 1048576);
    Given {
        program,
        history,
        trace,
    }
}

/// What is drawn of a program, the history that knows no signature, and a trace.
pub fn given_alone(rt: &impl Abort, alloc: Global, program: &[u8], trace: &[u8]) -> Given
    ensures sigs { length result.history.catalogue.sigs ≤ 4080 }
    ensures low { 1 ≤ result.trace.depth }
    ensures high { result.trace.depth ≤ 32 }
    ensures short { length result.trace.entries ≤ 1048576 }
{
    let program = assemble(alloc, program).expect(rt, "a program");
    let names = program.names(alloc).expect(rt, "a table");
    let trace = read_kept(alloc, &program, &names, trace).expect(rt, "a trace");
    let catalogue = Catalogue::new(alloc);
    let history = History { names, catalogue };
    assert!(rt; history.catalogue.len() <= 4080);
    assert!(rt; 1 <= trace.depth() && trace.depth() <= 32);
    assert!(rt; trace.len() <= 1048576);
    Given {
        program,
        history,
        trace,
    }
}

/// What a picture shows of a trace that executes its program on its history.
pub fn drawing_of(rt: &impl Abort, alloc: Global, given: &Given) -> Drawing
    requires sigs { length given.now.history.catalogue.sigs ≤ 4080 }
    requires low { 1 ≤ given.now.trace.depth }
    requires high { given.now.trace.depth ≤ 32 }
    requires short { length given.now.trace.entries ≤ 1048576 }
{
    let Given {
        program,
        history,
        trace,
    } = given;
    match check_kept(alloc, program, history, trace).expect(rt, "a verdict") {
        Verdict::Yes => drawn(alloc, program, history, trace).expect(rt, "a drawing"),
        Verdict::No { .. } => panic!(rt; "the trace doesn't execute the program"),
    }
}
