//! Callers of a gate who take turns, on one thread and on two.
ghost use Rattle.std.specs.Prelude.{◌≡◌, ◌≤◌, ◌<◌, ◌+◌, [], vec_capacity};
ghost use Rattle.dim_turn.specs.Passes.{start_of, IsPassOf};

use crate::gates::{done, has, same};
use dim_base::{Lid, Tid};
use dim_gate::GateState;
use dim_rag::{Command, Entry, Reply, Tables};
use dim_signature::Catalogue;
use dim_stack::{Frame, Stack};
use dim_turn::{Pass, Turn};
use std::alloc::Global;
use std::process::Abort;
use std::sync::Wait;
use std::thread::{Threads, join};

const A: Lid = Lid(0);

/// A turn of a gate for two threads and two locks that knows no signature, with two passes, and the
/// list that they were in.
fn begin(
    rt: &impl Abort,
    alloc: Global,
) -> (
    Turn<GateState>,
    Pass<GateState>,
    Pass<GateState>,
    Vec<Pass<GateState>>,
)
    ensures callers { ((start_of result.0).callers ≡ 2)
        × ((start_of result.0).book.value.threads ≡ 2) × ((start_of result.0).book.value.locks ≡ 2) }
    ensures first { IsPassOf result.0 result.1 × (result.1.number ≡ 0) × (result.1.left ≡ 4) }
    ensures second { IsPassOf result.0 result.2 × (result.2.number ≡ 1) × (result.2.left ≡ 4) }
    ensures list { (result.3.items ≡ []) × (2 ≤ vec_capacity result.3) }
{
    let mut gate = GateState::new(alloc, 2, 2, Catalogue::new(alloc), 4, 16).expect(rt, "a gate");
    gate.reserve(8).expect(rt, "room");
    let (turn, mut passes) = match Turn::start(alloc, gate, 2, 4) {
        Ok(started) => started,
        Err(_) => panic!(rt; "no memory for a turn"),
    };
    let second = passes.pop().unwrap();
    let first = passes.pop().unwrap();
    (turn, first, second, passes)
}

/// The gate, once both passes have returned.
fn finish(
    turn: Turn<GateState>,
    first: Pass<GateState>,
    second: Pass<GateState>,
    mut passes: Vec<Pass<GateState>>,
) -> GateState
    requires callers { (start_of turn).callers ≡ 2 }
    requires first { IsPassOf turn first × (first.number ≡ 0) }
    requires second { IsPassOf turn second × (second.number ≡ 1) }
    requires list { (passes.items ≡ []) × (2 ≤ vec_capacity passes) }
{
    passes.push_reserved(first);
    passes.push_reserved(second);
    turn.close(passes)
}

/// Asks for a.
fn request<R: Wait>(rt: &R, turn: &Turn<GateState>, pass: &mut Pass<GateState>) -> Reply
    requires pass { IsPassOf turn.now pass.old }
    requires number { pass.old.number < (start_of turn.now).book.value.threads }
    requires lock { 0 < (start_of turn.now).book.value.locks }
    requires left { 1 ≤ pass.old.left }
    ensures pass { IsPassOf turn.now pass.new × (pass.new.number ≡ pass.old.number) }
    ensures left { pass.old.left ≤ pass.new.left + 1 }
{
    let stack = Stack::new(&[Frame { func: 0, at: 0 }]);
    turn.call(rt, pass, Command::Request { l: A, stack })
}

/// Takes a, which was granted.
fn acquire<R: Wait>(rt: &R, turn: &Turn<GateState>, pass: &mut Pass<GateState>) -> Reply
    requires pass { IsPassOf turn.now pass.old }
    requires number { pass.old.number < (start_of turn.now).book.value.threads }
    requires lock { 0 < (start_of turn.now).book.value.locks }
    requires left { 1 ≤ pass.old.left }
    ensures pass { IsPassOf turn.now pass.new × (pass.new.number ≡ pass.old.number) }
    ensures left { pass.old.left ≤ pass.new.left + 1 }
{
    turn.call(rt, pass, Command::Acquire { l: A })
}

/// Asks for a and takes it, and answers both replies.
fn take<R: Wait>(
    rt: &R,
    turn: &Turn<GateState>,
    mut pass: Pass<GateState>,
) -> (Pass<GateState>, Reply, Reply)
    requires pass { IsPassOf turn.now pass }
    requires number { pass.number < (start_of turn.now).book.value.threads }
    requires lock { 0 < (start_of turn.now).book.value.locks }
    requires left { 2 ≤ pass.left }
    ensures pass { IsPassOf turn.now result.0 × (result.0.number ≡ pass.number) }
{
    let requested = request(rt, turn, &mut pass);
    let acquired = acquire(rt, turn, &mut pass);
    (pass, requested, acquired)
}

/// A Request and an Acquire through each of two passes, each in a thread of its own.
fn take_beside<R: Threads + Wait + Sync>(
    rt: &R,
    turn: &Turn<GateState>,
    first: Pass<GateState>,
    second: Pass<GateState>,
) -> (
    (Pass<GateState>, Reply, Reply),
    (Pass<GateState>, Reply, Reply),
)
    requires first { IsPassOf turn.now first × (2 ≤ first.left)
        × (first.number < (start_of turn.now).book.value.threads) }
    requires second { IsPassOf turn.now second × (2 ≤ second.left)
        × (second.number < (start_of turn.now).book.value.threads) }
    requires lock { 0 < (start_of turn.now).book.value.locks }
    ensures first { IsPassOf turn.now result.0.0 × (result.0.0.number ≡ first.number) }
    ensures second { IsPassOf turn.now result.1.0 × (result.1.0.number ≡ second.number) }
{
    join(
        rt,
        move || take(rt, turn, first),
        move || take(rt, turn, second),
    )
}

/// The places of the thread's last Go and of its last Got.
fn places(tables: &Tables, thread: Tid) -> (Option<u32>, Option<u32>) {
    let (mut went, mut got) = (None, None);
    for place in 0..tables.len() {
        match tables.entry(place) {
            Entry::Go { t, .. } if t == thread => went = Some(place),
            Entry::Got { t, .. } if t == thread => got = Some(place),
            _ => {}
        }
    }
    (went, got)
}

/// The caller asks for a, and this is the reply.
fn requests<R: Wait + Abort>(
    rt: &R,
    turn: &Turn<GateState>,
    pass: &mut Pass<GateState>,
    reply: Reply,
)
    requires pass { IsPassOf turn.now pass.old }
    requires number { pass.old.number < (start_of turn.now).book.value.threads }
    requires lock { 0 < (start_of turn.now).book.value.locks }
    requires left { 1 ≤ pass.old.left }
    ensures pass { IsPassOf turn.now pass.new × (pass.new.number ≡ pass.old.number) }
    ensures left { pass.old.left ≤ pass.new.left + 1 }
{
    let given = request(rt, turn, pass);
    is(rt, &given, &reply);
}

/// The caller takes a, and this is the reply.
fn acquires<R: Wait + Abort>(
    rt: &R,
    turn: &Turn<GateState>,
    pass: &mut Pass<GateState>,
    reply: Reply,
)
    requires pass { IsPassOf turn.now pass.old }
    requires number { pass.old.number < (start_of turn.now).book.value.threads }
    requires lock { 0 < (start_of turn.now).book.value.locks }
    requires left { 1 ≤ pass.old.left }
    ensures pass { IsPassOf turn.now pass.new × (pass.new.number ≡ pass.old.number) }
    ensures left { pass.old.left ≤ pass.new.left + 1 }
{
    let given = acquire(rt, turn, pass);
    is(rt, &given, &reply);
}

fn is(rt: &impl Abort, reply: &Reply, expected: &Reply) {
    assert_eq!(rt; *reply, *expected);
}

/// The thread's last Go and its last Got are at these places.
fn has_at(rt: &impl Abort, gate: &GateState, thread: Tid, went: Option<u32>, got: Option<u32>) {
    assert!(rt; places(gate.tables(), thread) == (went, got));
}

#[test]
fn two_callers_take_turns(rt: HostRuntime) {
    let (turn, mut first, mut second, passes) = begin(&rt, rt.alloc());
    requests(&rt, &turn, &mut first, Reply::Go);
    requests(&rt, &turn, &mut second, Reply::Go);
    acquires(&rt, &turn, &mut first, Reply::Got);
    acquires(&rt, &turn, &mut second, Reply::Busy { holder: Tid(0) });
    same(&rt, first.left() as u64, 2);
    same(&rt, second.left() as u64, 3);
    let gate = finish(turn, first, second, passes);
    has(&rt, &gate, 3);
    has_at(&rt, &gate, Tid(0), Some(0), Some(2));
    has_at(&rt, &gate, Tid(1), Some(1), None);
    done(gate);
}

/// The winner got a, and has two entries left. The other was told who holds it, and has three.
fn won(rt: &impl Abort, winner: Tid, got: &Reply, other: &Reply, left: (u32, u32)) {
    is(rt, got, &Reply::Got);
    is(rt, other, &Reply::Busy { holder: winner });
    assert!(rt; left == (2, 3));
}

/// One of the two callers won. These are the winner and the other.
fn one_won(rt: &impl Abort, got: &Reply, also_got: &Reply, left: (u32, u32)) -> (Tid, Tid) {
    if *got == Reply::Got {
        won(rt, Tid(0), got, also_got, left);
        (Tid(0), Tid(1))
    } else {
        won(rt, Tid(1), also_got, got, (left.1, left.0));
        (Tid(1), Tid(0))
    }
}

/// The winner went before it got a, and the other went and got nothing.
fn in_order(rt: &impl Abort, gate: &GateState, winner: Tid, other: Tid) {
    let (won_go, won_got) = places(gate.tables(), winner);
    let (lost_go, lost_got) = places(gate.tables(), other);
    assert!(rt; won_go.is_some() && won_go < won_got);
    assert!(rt; lost_go.is_some() && lost_got.is_none());
}

#[test]
fn two_callers_in_threads_take_turns(rt: HostRuntime) {
    let (turn, first, second, passes) = begin(&rt, rt.alloc());
    let ((first, went, got), (second, also_went, also_got)) = take_beside(
        &rt, &turn, first, second,
    );
    is(&rt, &went, &Reply::Go);
    is(&rt, &also_went, &Reply::Go);
    let (winner, other) = one_won(&rt, &got, &also_got, (first.left(), second.left()));
    let gate = finish(turn, first, second, passes);
    has(&rt, &gate, 3);
    in_order(&rt, &gate, winner, other);
    done(gate);
}
