//! The domain of the two workers.
ghost use Rattle.std.specs.Prelude.{◌≡◌, ◌<◌, ◌≤◌, ◌==◌, ◌+◌, false, [], length, vec_capacity, IfOk};
ghost use Rattle.dim_mutex.specs.Standing.{IsIdle};
ghost use Rattle.dim_mutex.specs.Views.{opening, bound_of, IsCallerOf};
ghost use Rattle.transfers.specs.Callers.{StaysCaller};

use crate::functions::{GIVE, TAKE, named};
use crate::meeting::Meeting;
use crate::moving::{Came, Task, give, take};
use crate::refusal::Refusal;
use dim_base::{Lid, OutOfMemory};
use dim_history_file::History;
use dim_mutex::laws::owed_law;
use dim_mutex::{Caller, Closed, Domain, Immune};
use dim_signature::Catalogue;
use dim_stack::{Frame, Names, Stack};
use std::alloc::Global;
use std::sync::Wait;
use std::thread::{Threads, join};

const A: Lid = Lid(0);

const B: Lid = Lid(1);

/// What is in each account at first.
const BEGIN: u64 = 100;

/// Each caller may make so many entries. It is more than a caller can ever owe.
const ALLOWANCE: u32 = 300;

/// What is compared of two stacks.
const DEPTH: u8 = 4;

const MOST_SIGNATURES: u32 = 4080;

/// What came of the two workers, and what their domain leaves, with the names of the functions in
/// it.
#[derive(Drop)]
pub struct Worked {
    pub gave: Came,
    pub took: Came,
    pub names: Names,
    pub closed: Closed,
}

/// A domain with two locks and two callers, who hold nothing, and the list that they were in.
fn open(
    alloc: Global,
    loaded: Catalogue,
) -> Result<(Domain, Caller, Caller, Vec<Caller>), OutOfMemory>
    requires few { length loaded.sigs ≤ 4080 }
    ensures callers { IfOk result (λ r. (opening r.0).callers ≡ 2) }
    ensures locks { IfOk result (λ r. (opening r.0).constants.locks ≡ 2) }
    ensures bound { IfOk result (λ r. bound_of r.0 ≡ 600) }
    ensures first { IfOk result
        (λ r. IsCallerOf r.0 r.1 × IsIdle r.1.known × (r.1.known.number ≡ 0)) }
    ensures second { IfOk result
        (λ r. IsCallerOf r.0 r.2 × IsIdle r.2.known × (r.2.known.number ≡ 1)) }
    ensures list { IfOk result (λ r. (r.3.items ≡ []) × (2 ≤ vec_capacity r.3)) }
{
    let (domain, mut callers) = Domain::open(alloc, loaded, 2, 2, DEPTH, ALLOWANCE)?;
    let second = callers.pop().unwrap();
    let first = callers.pop().unwrap();
    Ok((domain, first, second, callers))
}

/// Both workers, each in a thread of its own.
fn beside<R: Threads + Wait + Sync>(
    rt: &R,
    domain: &Domain,
    first: Caller,
    second: Caller,
    a: &Immune<u64>,
    b: &Immune<u64>,
    tasks: (Task, Task),
) -> ((Caller, Came), (Caller, Came))
    requires first { IsCallerOf domain.now first × IsIdle first.known }
    requires second { IsCallerOf domain.now second × IsIdle second.known }
    requires a { a.now.l.0 < (opening domain.now).constants.locks }
    requires b { b.now.l.0 < (opening domain.now).constants.locks }
    requires apart { (a.now.l.0 == b.now.l.0) ≡ false }
    requires apart_too { (b.now.l.0 == a.now.l.0) ≡ false }
    ensures first { StaysCaller domain.now first result.0.0 }
    ensures second { StaysCaller domain.now second result.1.0 }
{
    let meeting = Meeting::new();
    let meeting = &meeting;
    let (giving, taking) = tasks;
    join(
        rt,
        move || give(rt, domain, first, a, b, &giving, meeting),
        move || take(rt, domain, second, b, a, &taking, meeting),
    )
}

/// What the domain leaves, after a settle.
fn close(
    alloc: Global,
    domain: Domain,
    first: Caller,
    second: Caller,
    mut callers: Vec<Caller>,
) -> Result<Closed, OutOfMemory>
    requires callers { (opening domain).callers ≡ 2 }
    requires bound { bound_of domain ≡ 600 }
    requires first { IsCallerOf domain first × (first.known.number ≡ 0) }
    requires second { IsCallerOf domain second × (second.known.number ≡ 1) }
    requires list { (callers.items ≡ []) × (2 ≤ vec_capacity callers) }
{
    owed_law();
    callers.push_reserved(first);
    callers.push_reserved(second);
    match domain.tend(alloc, callers, ALLOWANCE) {
        Ok((domain, callers, _breaks)) => Ok(domain.close(callers)),
        Err((_closed, error)) => Err(error),
    }
}

/// The stack of a worker's function at an offset, or None where the table has no such name.
fn stack_at(names: &Names, function: &str, at: u32) -> Option<Stack> {
    let func = names.find(function.as_bytes())?;
    Some(Stack::new(&[Frame { func, at }]))
}

/// A task in a worker's function.
fn task_in(names: &Names, function: &str, amount: u64) -> Result<Task, Refusal> {
    let from_at = stack_at(names, function, 0).ok_or(Refusal::Nameless)?;
    let to_at = stack_at(names, function, 1).ok_or(Refusal::Nameless)?;
    Ok(Task {
        amount,
        from_at,
        to_at,
    })
}

/// Opens a domain over a history, lets both workers run, tends it and closes it. The first worker
/// moves 30 from account 0 to account 1, the second 10 back.
///
/// It is refused where the history has more than 4,080 signatures or 4,194,304 names, and where
/// memory runs out. It may wait.
pub fn work<R: Threads + Wait + Sync>(
    rt: &R,
    alloc: Global,
    history: History,
) -> Result<Worked, Refusal> {
    let History {
        names,
        catalogue,
        ..
    } = named(alloc, history)?;
    if catalogue.len() > MOST_SIGNATURES {
        return Err(Refusal::Full);
    }
    let tasks = (task_in(&names, GIVE, 30)?, task_in(&names, TAKE, 10)?);
    let (domain, first, second, callers) = open(alloc, catalogue)?;
    let (a, b) = (Immune::new(A, BEGIN), Immune::new(B, BEGIN));
    let ((first, gave), (second, took)) = beside(rt, &domain, first, second, &a, &b, tasks);
    let closed = close(alloc, domain, first, second, callers)?;
    Ok(Worked {
        gave,
        took,
        names,
        closed,
    })
}
