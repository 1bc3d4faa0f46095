ghost use Rattle.std.specs.Prelude.{◌≡◌};

use dim_asm::assemble;
use dim_base::Tid;
use dim_history_file::read;
use dim_rag::{Births, Entry, MissWhy, Why};
use dim_trace::{Rule, Trace, Verdict, check};
use samples::entries::{at, end, free, go, got, left, right, took, yielded};
use samples::histories::{EMPTY_BEFORE, INTERLEAVED_BEFORE, LEARNT_BEFORE};
use samples::programs::{CROSSED, PLAIN};
use std::alloc::Global;
use std::process::Abort;

// A thread that takes a lock twice and gives it back twice.
const AGAIN: &[u8] =
    b"dim program 1\nlock a\nfunc main 0\nLOCK a\nLOCK a\nUNLOCK a\nUNLOCK a\nRET\nend\nthread main 0\nend program\n";

// Threads 0 and 1 take their locks along a chain; thread 2 does nothing.
const CHAINED_BESIDE_ONE: &[u8] =
    b"dim program 1\nlock a\nlock b\nlock c\nfunc left 0\nLOCK a\nLOCK c\nUNLOCK c\nUNLOCK a\nRET\nend\nfunc right 0\nLOCK c\nLOCK b\nUNLOCK b\nUNLOCK c\nRET\nend\nfunc stay 0\nRET\nend\nthread left 0\nthread right 0\nthread stay 0\nend program\n";

/// A program and a history, by their texts, and the fuel of each thread.
type Setting = (&'static [u8], &'static [u8], u32);

/// The entries of `traces::AVOIDED`: thread 1 yields once.
pub(crate) fn immune() -> [Entry; 15] {
    [
        go(0, 0, left(0)),
        got(0, 0),
        yielded(1, 1, [0, 2], right(0)),
        go(0, 1, left(1)),
        got(0, 1),
        free(0, 1),
        free(0, 0),
        go(1, 1, right(0)),
        got(1, 1),
        end(0, Why::Done),
        go(1, 0, right(1)),
        got(1, 0),
        free(1, 0),
        free(1, 1),
        end(1, Why::Done),
    ]
}

/// The deadlock of CROSSED, without its Learn.
fn deadlock() -> [Entry; 6] {
    [
        go(0, 0, at(0, 0)),
        got(0, 0),
        go(1, 1, at(1, 0)),
        got(1, 1),
        go(0, 1, at(0, 1)),
        go(1, 0, at(1, 1)),
    ]
}

/// The Learn of the cycle of that deadlock, and of what starves in CHAINED_BESIDE_ONE.
fn learnt() -> Entry {
    Entry::Learn {
        births: Births::new(&[0, 2]),
    }
}

fn extend(rt: &impl Abort, entries: &mut Vec<Entry>, more: &[Entry]) {
    // A value of this type in the function lets the check pass an `Entry` to a generic function.
    let _why = MissWhy::Busy { holder: Tid(0) };
    for e in more {
        entries.push(*e).expect(rt, "room");
    }
}

/// The trace of depth 4 with the entries of all these parts, one after the other.
fn trace_of(rt: &impl Abort, alloc: Global, fuel: u32, parts: &[&[Entry]]) -> Trace
    ensures { result.depth ≡ 4 }
{
    let mut entries = Vec::new(alloc);
    for part in parts {
        extend(rt, &mut entries, part);
    }
    Trace {
        fuel,
        depth: 4,
        entries,
    }
}

/// The verdict on a trace, for a program and a history that are given by their texts.
fn verdict(rt: &impl Abort, alloc: Global, setting: Setting, parts: &[&[Entry]]) -> Verdict {
    let (program, history, fuel) = setting;
    let program = assemble(alloc, program).expect(rt, "a program");
    let history = read(alloc, history).expect(rt, "a history");
    let trace = trace_of(rt, alloc, fuel, parts);
    assert!(rt; history.catalogue.len() <= 4080);
    assert!(rt; trace.entries.len() <= 1048576);
    check(alloc, &program, &history, &trace).expect(rt, "a verdict")
}

/// This is the verdict on a trace.
fn told(rt: &impl Abort, alloc: Global, setting: Setting, parts: &[&[Entry]], expected: Verdict) {
    assert_eq!(rt; verdict(rt, alloc, setting, parts), expected);
}

fn no(place: u32, rule: Rule) -> Verdict {
    Verdict::No { place, rule }
}

const IMMUNE: Setting = (CROSSED, LEARNT_BEFORE, 8_192);

const DEADLOCKED: Setting = (CROSSED, EMPTY_BEFORE, 8_192);

const LONELY: Setting = (PLAIN, EMPTY_BEFORE, 8_192);

const TWICE: Setting = (AGAIN, EMPTY_BEFORE, 8_192);

const STARVING: Setting = (CHAINED_BESIDE_ONE, INTERLEAVED_BEFORE, 8_192);

#[test]
fn a_run_with_a_yield_executes_its_program(rt: HostRuntime) {
    told(&rt, rt.alloc(), IMMUNE, &[&immune()], Verdict::Yes);
}

#[test]
fn a_grant_in_place_of_a_yield_is_illegal(rt: HostRuntime) {
    let mut entries = immune();
    entries[2] = go(1, 1, at(1, 0));
    told(&rt, rt.alloc(), IMMUNE, &[&entries], no(2, Rule::Legal));
}

#[test]
fn a_cycle_that_is_not_learnt_is_not_settled(rt: HostRuntime) {
    let settled = no(6, Rule::Settled);
    told(&rt, rt.alloc(), DEADLOCKED, &[&deadlock()], settled);
}

#[test]
fn a_deadlock_that_is_learnt_executes(rt: HostRuntime) {
    let parts: [&[Entry]; 2] = [&deadlock(), &[learnt()]];
    told(&rt, rt.alloc(), DEADLOCKED, &parts, Verdict::Yes);
}

#[test]
fn a_thread_with_units_left_is_not_spent(rt: HostRuntime) {
    let few = (PLAIN, EMPTY_BEFORE, 4);
    told(&rt, rt.alloc(), few, &[&spent()], Verdict::Yes);
    told(&rt, rt.alloc(), LONELY, &[&spent()], no(2, Rule::Walk));
}

fn spent() -> [Entry; 3] {
    [go(0, 0, at(0, 2)), got(0, 0), end(0, Why::Spent)]
}

#[test]
fn a_thread_that_runs_on_is_not_settled(rt: HostRuntime) {
    let entries = [go(0, 0, at(0, 2)), got(0, 0)];
    told(&rt, rt.alloc(), LONELY, &[&entries], no(2, Rule::Settled));
}

#[test]
fn a_lock_and_a_thread_that_the_program_lacks_are_illegal(rt: HostRuntime) {
    let lock = [go(0, 1, at(0, 2))];
    told(&rt, rt.alloc(), LONELY, &[&lock], no(0, Rule::Legal));
    let thread = [end(1, Why::Done)];
    told(&rt, rt.alloc(), LONELY, &[&thread], no(0, Rule::Legal));
}

#[test]
fn a_lock_and_a_thread_whose_numbers_take_more_than_a_byte_are_illegal(rt: HostRuntime) {
    let lock = [go(0, 0, at(0, 2)), got(0, 256)];
    told(&rt, rt.alloc(), LONELY, &[&lock], no(1, Rule::Legal));
    let thread = [go(256, 0, at(0, 2))];
    told(&rt, rt.alloc(), LONELY, &[&thread], no(0, Rule::Legal));
}

/// Thread 0 takes the lock of AGAIN.
fn first() -> [Entry; 2] {
    [go(0, 0, at(0, 0)), got(0, 0)]
}

#[test]
fn a_lock_that_is_held_is_taken_once_more(rt: HostRuntime) {
    let moves = [
        took(0, 0, at(0, 1)),
        free(0, 0),
        free(0, 0),
        end(0, Why::Done),
    ];
    told(&rt, rt.alloc(), TWICE, &[&first(), &moves], Verdict::Yes);
    let asks = [go(0, 0, at(0, 1))];
    told(
        &rt,
        rt.alloc(),
        TWICE,
        &[&first(), &asks],
        no(2, Rule::Legal),
    );
    let keeps = [took(0, 0, at(0, 1)), free(0, 0), end(0, Why::Done)];
    told(
        &rt,
        rt.alloc(),
        TWICE,
        &[&first(), &keeps],
        no(4, Rule::Walk),
    );
}

/// A run of CHAINED_BESIDE_ONE from INTERLEAVED_BEFORE up to where thread 0 waits for c, and thread
/// 1 yields because of thread 0.
fn starving() -> [Entry; 6] {
    [
        go(0, 0, at(0, 0)),
        got(0, 0),
        go(1, 2, at(1, 0)),
        got(1, 2),
        go(0, 2, at(0, 1)),
        yielded(1, 1, [0, 5], at(1, 1)),
    ]
}

/// The end of thread 2.
fn stays() -> Entry {
    end(2, Why::Done)
}

/// The Break of what starves then.
fn broken() -> Entry {
    Entry::Break { set: 3, t: Tid(1) }
}

/// How CHAINED_BESIDE_ONE ends: thread 1 goes on, and then thread 0.
fn rest() -> [Entry; 8] {
    [
        got(1, 1),
        free(1, 1),
        free(1, 2),
        end(1, Why::Done),
        got(0, 2),
        free(0, 2),
        free(0, 0),
        end(0, Why::Done),
    ]
}

/// This is the verdict on the run of CHAINED_BESIDE_ONE that goes on with these entries, and then
/// to its end.
fn told_with(rt: &impl Abort, alloc: Global, next: &[Entry], expected: Verdict) {
    told(rt, alloc, STARVING, &[&starving(), next, &rest()], expected);
}

#[test]
fn a_starvation_is_learnt_before_its_break(rt: HostRuntime) {
    let in_order = [stays(), learnt(), broken()];
    told_with(&rt, rt.alloc(), &in_order, Verdict::Yes);
    let unlearnt = [broken(), stays()];
    told_with(&rt, rt.alloc(), &unlearnt, no(6, Rule::Legal));
}

#[test]
fn a_starvation_is_broken_as_soon_as_it_is_learnt(rt: HostRuntime) {
    let late = [learnt(), stays(), broken()];
    told_with(&rt, rt.alloc(), &late, no(17, Rule::Settled));
}
