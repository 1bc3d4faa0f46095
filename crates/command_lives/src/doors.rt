//! Workers that are at their doors at the same time: a round or a run that took one slice after the
//! other would fail here.
use crate::calls::files_of;
use crate::reports::{as_text, sum_at};
use crate::seats::{begin, finish, seat_of};
use command_calls::{MeetingHouse, words_of};
use dim_asm::{Program, assemble};
use dim_base::{MemSink, OutOfMemory};
use dim_cli::drive;
use dim_gate::GateState;
use dim_run::{House, work_round};
use samples::programs::CROSSED;
use std::alloc::Global;
use std::process::Abort;
use std::sync::Wait;
use std::thread::Threads;

// The moves of a round in which each thread of a program of two may make two, and its gate.
fn round_of_two<R: Abort + Threads + Wait + Sync>(
    rt: &R,
    alloc: Global,
    house: &mut MeetingHouse,
    program: &Program,
) -> Result<(u64, GateState), OutOfMemory> {
    assert!(rt; program.threads() == 2);
    let (gate, first, second, passes) = begin(alloc, house, program)?;
    let mut seats = [
        seat_of(&gate, program, first),
        seat_of(&gate, program, second),
    ];
    let moves = work_round(rt, &gate, program, &mut seats, 2, 2);
    let book = finish(house, gate, seats, passes);
    Ok((moves, book))
}

// The same of the two orders.
fn crossed_round<R: Abort + Threads + Wait + Sync>(
    rt: &R,
    alloc: Global,
    house: &mut MeetingHouse,
) -> (u64, GateState) {
    let program = assemble(alloc, CROSSED).expect(rt, "a program");
    round_of_two(rt, alloc, house, &program).expect(rt, "a round")
}

#[test]
fn two_doors_meet(rt: HostRuntime) {
    let mut house = MeetingHouse::new();
    let (moves, book) = crossed_round(&rt, rt.alloc(), &mut house);
    assert_eq!(rt; moves, 4);
    assert!(rt; house.met());
    assert!(rt; book.tables().len() == 4);
}

// The words of a report behind which the numbers of threads' entries stand.
const BY_THREADS: [&str; 7] = ["go", "yield", "got", "free", "took", "miss", "end"];

const TWO_WORKERS: [&str; 9] = [
    "live",
    "p",
    "-",
    "h",
    "t",
    "--quantum",
    "2",
    "--workers",
    "2",
];

// The status of a live run of the two orders in a house, and what it puts.
fn live_in<R: Abort + Threads + Wait + Sync>(
    rt: &R,
    alloc: Global,
    house: &mut MeetingHouse,
) -> (u8, MemSink) {
    let mut files = files_of(rt, alloc, CROSSED);
    let mut out = MemSink::new(alloc, &[]).expect(rt, "a sink");
    let words = words_of(alloc, &TWO_WORKERS).expect(rt, "words");
    let status = drive(rt, alloc, house, &words, &mut files, &mut out);
    (status, out)
}

#[test]
fn live_doors_meet(rt: HostRuntime) {
    let mut house = MeetingHouse::new();
    let (status, out) = live_in(&rt, rt.alloc(), &mut house);
    assert!(rt; status == 0 || status == 3);
    assert!(rt; house.met());
    assert_eq!(rt; house.passed(), sum_at(as_text(out.taken()), &BY_THREADS));
}
