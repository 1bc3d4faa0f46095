//! Runs of a thread alone: what each instruction does, each trap, what moves cost, and polls.
ghost use Rattle.std.specs.Prelude.{◌≤◌, ◌<◌, ◌^◌};

mod entries;
mod following;
mod instructions;
mod polls;
mod traps;
mod units;

use crate::fake::{Fake, Script};
use dim_asm::{Program, assemble};
use dim_base::{Lid, Tid};
use dim_rag::Why;
use dim_vm::{Machine, Slice, State};
use std::alloc::Global;
use std::process::Abort;

// The code of a case stands between these two, as the instructions of `main`, whose thread has the
// argument 7.
const BEFORE: &str = "dim program 1
lock a
lock b
func main 2
";

const BEHIND: &str = "end
func sets 2
PUSH 5
PUTL 1
RET
end
func reads 2
GETL 1
RET
end
func has_16 16
PUSH 5
PUTL 15
GETL 14
GETL 15
RET
end
func reads_the_17th 16
GETL 16
end
func has_none 0
GETL 0
end
func takes 0
POP
LOCK a
RET
end
func deeper 0
CALL deeper
end
func falls_off 0
POP
end
func halts 0
HALT
end
thread main 7
end program
";

const A: Lid = Lid(0);

const FREE: Script = Script {
    yields: 0,
    stills: 0,
    busys: 0,
};

/// The moves of a slice, and how all stands after it.
#[derive(Clone, Copy, Debug, PartialEq, Eq)]
struct Outcome {
    moves: u32,
    units: u32,
    state: State,
    asks: u64,
    entries: usize,
}

/// What a thread has said.
#[derive(Clone, Copy, Debug, PartialEq, Eq)]
struct Sayings {
    said: u64,
    last: i64,
}

fn program_of(rt: &impl Abort, alloc: Global, code: &str) -> Program {
    let text = format!(in alloc; "{BEFORE}{code}\n{BEHIND}").expect(rt, "a text");
    assemble(alloc, text.as_bytes()).expect(rt, "a program")
}

/// The program is done with. Most tests drop it by this call, since the proof of a drop is long.
fn done(_program: Program) {}

/// One slice of a program's first thread.
fn slice_of(
    rt: &impl Abort,
    alloc: Global,
    program: &Program,
    fuel: u32,
    q: u32,
    script: Script,
) -> (Outcome, Sayings)
    requires some { 1 ≤ q }
    requires few { q < 2 ^ 20 }
{
    let _some = program.threads();
    let mut machine = Machine::new(program, Tid(0), fuel);
    let mut door = Fake::new(alloc, Tid(0), program.locks(), q + 1, script).expect(rt, "a door");
    let slice = machine.slice(program, &mut door, q);
    (outcome_of(&slice, &machine, &door), sayings_of(&machine))
}

/// The second of two slices of a program's first thread.
fn second_slice_of(
    rt: &impl Abort,
    alloc: Global,
    program: &Program,
    fuel: u32,
    q: u32,
    script: Script,
) -> Outcome
    requires some { 1 ≤ q }
    requires few { q < 2 ^ 20 }
{
    let _some = program.threads();
    let mut machine = Machine::new(program, Tid(0), fuel);
    let left = 2 * q + 2;
    let mut door = Fake::new(alloc, Tid(0), program.locks(), left, script).expect(rt, "a door");
    let first = machine.slice(program, &mut door, q);
    assert!(rt; first.moves <= q);
    door.open();
    let second = machine.slice(program, &mut door, q);
    outcome_of(&second, &machine, &door)
}

fn outcome_of(slice: &Slice, machine: &Machine, door: &Fake) -> Outcome {
    Outcome {
        moves: slice.moves,
        units: machine.units(),
        state: slice.state,
        asks: door.asks(),
        entries: door.entries().len(),
    }
}

fn sayings_of(machine: &Machine) -> Sayings {
    Sayings {
        said: machine.said(),
        last: machine.last(),
    }
}

/// A slice of at most so many moves, or of one, of a code.
fn run(
    rt: &impl Abort,
    alloc: Global,
    code: &str,
    fuel: u32,
    q: u16,
    script: Script,
) -> (Outcome, Sayings) {
    let program = program_of(rt, alloc, code);
    slice_of(rt, alloc, &program, fuel, u32::from(q).max(1), script)
}

/// The second of two slices of a code.
fn run_again(
    rt: &impl Abort,
    alloc: Global,
    code: &str,
    fuel: u32,
    q: u16,
    script: Script,
) -> Outcome {
    let program = program_of(rt, alloc, code);
    second_slice_of(rt, alloc, &program, fuel, u32::from(q).max(1), script)
}

/// The code leads to this number.
fn same(rt: &impl Abort, code: &str, number: u64, expected: u64) {
    assert_eq!(rt; number, expected, "{code}");
}

/// The code leads to this state.
fn stands(rt: &impl Abort, code: &str, outcome: &Outcome, state: State) {
    assert_eq!(rt; outcome.state, state, "{code}");
}

/// The code ends in this state after so many moves, each of which paid a unit.
fn ends(rt: &impl Abort, code: &str, outcome: &Outcome, state: State, fuel: u32, moves: u32) {
    stands(rt, code, outcome, state);
    same(rt, code, outcome.moves as u64, moves as u64);
    same(
        rt,
        code,
        outcome.units as u64,
        fuel.saturating_sub(moves) as u64,
    );
}

fn trapped(trap: u8) -> State {
    State::Ended {
        why: Why::Trapped { trap },
    }
}

const DONE: State = State::Ended { why: Why::Done };

const SPENT: State = State::Ended { why: Why::Spent };

fn script(yields: u32, stills: u32, busys: u32) -> Script {
    Script {
        yields,
        stills,
        busys,
    }
}
