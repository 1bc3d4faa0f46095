//! Programs and tables of places, as worked out by hand.
use crate::given::{chain, kept, log, operation, spot};
use dim_log::Log;
use dim_orders::{Deed, Kept};
use dim_transcribe::{Transcribe, performs, places_text, transcribe};
use std::alloc::Global;

// One thread takes a lock and frees it, in one function.
const ONE: &str = "dim program 1
lock m0
func run 0
CALL items
JZ 7
CALL roots
JZ 5
SWAP
POP
JMP 0
RET
end
func items 1
PUTL 0
GETL 0
PUSH 1
LT
JZ 12
PUSH 2
PUSH 1
PUSH 0
PUSH 0
PUSH 0
PUSH 1
RET
GETL 0
PUSH 2
LT
JZ 23
PUSH 2
PUSH 2
PUSH 0
PUSH 1
PUSH 0
PUSH 1
RET
PUSH 0
RET
end
func roots 1
PUTL 0
CALL std__sort
RET
end
func std__sort 1
PUTL 0
GETL 0
PUSH 1
LT
JZ 8
LOCKX
PUSH 1
RET
UNLOCKX
PUSH 1
RET
end
thread run 0
end program
";

const ONE_PLACES: &str = "dim places 1
lock m0 0xc
place std__sort:5 3std::Sort:7
place std__sort:8 3std::Sort:9
end 3
";

fn one(alloc: Global) -> Result<(Log, Kept), Transcribe> {
    let stacks = vec![in alloc; vec![in alloc; spot(0, 7)]?, vec![in alloc; spot(0, 9)]?]?;
    let log = log(alloc, &["3std::Sort"], stacks)?;
    let operations = vec![in alloc; operation(Deed::Lock, 2, 0), operation(Deed::Unlock, 2, 1)]?;
    Ok((log, kept(vec![in alloc; chain(alloc, operations)]?)))
}

#[test]
fn one_lock(rt: HostRuntime) {
    let alloc = rt.alloc();
    let (log, kept) = one(alloc).expect(&rt, "memory");
    let t = transcribe(alloc, &log, &kept).expect(&rt, "a transcript");
    assert_eq!(rt; t.text.as_slice(), ONE.as_bytes());
    let text = places_text(alloc, &t.program, &t.key, &log).expect(&rt, "memory");
    assert_eq!(rt; text.as_slice(), ONE_PLACES.as_bytes());
    assert_eq!(rt; t.cut, 0);
}

// Two threads take two locks in opposite orders, each in a function that another one calls.
fn crossed(alloc: Global) -> Result<(Log, Kept), Transcribe> {
    let mut stacks = Vec::new(alloc);
    for line in 12..16 {
        stacks.push(vec![in alloc; spot(1, line), spot(0, 30)]?)?;
    }
    for line in 22..26 {
        stacks.push(vec![in alloc; spot(2, line), spot(0, 31)]?)?;
    }
    let log = log(alloc, &["Work", "left", "right"], stacks)?;
    let left = vec![in alloc;
        operation(Deed::Lock, 0, 0),
        operation(Deed::Lock, 1, 1),
        operation(Deed::Unlock, 1, 2),
        operation(Deed::Unlock, 0, 3),
    ]?;
    let right = vec![in alloc;
        operation(Deed::Lock, 1, 4),
        operation(Deed::Lock, 0, 5),
        operation(Deed::Unlock, 0, 6),
        operation(Deed::Unlock, 1, 7),
    ]?;
    let chains = vec![in alloc; chain(alloc, left), chain(alloc, right)]?;
    Ok((log, kept(chains)))
}

// Each function begins with PUTL, and a test has four instructions. `left` has four sites of three
// instructions: behind two tests at 9 and 12, and behind a third one at 19 and 22. `work` has two
// sites of two instructions behind one test.
const CROSSED_PLACES: &str = "dim places 1
lock m0 0xa
lock m1 0xb
place left:9 left:12
place left:12 left:13
place left:19 left:14
place left:22 left:15
place right:9 right:22
place right:12 right:23
place right:19 right:24
place right:22 right:25
place work:5 Work:30
place work:7 Work:31
end 12
";

#[test]
fn two_orders(rt: HostRuntime) {
    let alloc = rt.alloc();
    let (log, kept) = crossed(alloc).expect(&rt, "memory");
    let t = transcribe(alloc, &log, &kept).expect(&rt, "a transcript");
    let text = places_text(alloc, &t.program, &t.key, &log).expect(&rt, "memory");
    assert_eq!(rt; text.as_slice(), CROSSED_PLACES.as_bytes());
}

// The first place stands for line 7.
#[test]
fn a_table_that_is_wrong_by_a_line(rt: HostRuntime) {
    let alloc = rt.alloc();
    let (log, kept) = one(alloc).expect(&rt, "memory");
    let mut t = transcribe(alloc, &log, &kept).expect(&rt, "a transcript");
    assert!(rt; performs(&t.program, &t.key, &log, &kept, &t.moves));
    if let Some(place) = t.key.places.first_mut() {
        place.spot = spot(0, 8);
    }
    assert!(rt; !performs(&t.program, &t.key, &log, &kept, &t.moves));
}

// One thread takes a lock at line 7 and frees it, twice. Stack 1 is at line 9, and stack 2 at 11.
fn frees(alloc: Global, first: u32, second: u32) -> Result<(Log, Kept), Transcribe> {
    let mut stacks = Vec::new(alloc);
    for line in [7, 9, 11] {
        stacks.push(vec![in alloc; spot(0, line)]?)?;
    }
    let log = log(alloc, &["f"], stacks)?;
    let operations = vec![in alloc;
        operation(Deed::Lock, 0, 0),
        operation(Deed::Unlock, 0, first),
        operation(Deed::Lock, 0, 0),
        operation(Deed::Unlock, 0, second),
    ]?;
    Ok((log, kept(vec![in alloc; chain(alloc, operations)]?)))
}

// Two programs with the same places, of which one frees at line 9 first and one at line 11. By the
// key the stacks of each would do for the other's log, but its machine doesn't come to them.
#[test]
fn frees_in_another_order(rt: HostRuntime) {
    let alloc = rt.alloc();
    let (log, kept) = frees(alloc, 1, 2).expect(&rt, "memory");
    let (_log, other) = frees(alloc, 2, 1).expect(&rt, "memory");
    let t = transcribe(alloc, &log, &kept).expect(&rt, "a transcript");
    let u = transcribe(alloc, &log, &other).expect(&rt, "a transcript");
    let places = places_text(alloc, &t.program, &t.key, &log).expect(&rt, "memory");
    let same = places_text(alloc, &u.program, &u.key, &log).expect(&rt, "memory");
    assert_eq!(rt; places.as_slice(), same.as_slice());
    assert!(rt; performs(&t.program, &t.key, &log, &kept, &t.moves));
    assert!(rt; !performs(&t.program, &t.key, &log, &other, &u.moves));
    assert!(rt; performs(&u.program, &u.key, &log, &other, &u.moves));
}

// The thread of the program goes on behind the first operation.
#[test]
fn an_operation_too_many(rt: HostRuntime) {
    let alloc = rt.alloc();
    let (log, mut kept) = one(alloc).expect(&rt, "memory");
    let t = transcribe(alloc, &log, &kept).expect(&rt, "a transcript");
    if let Some(chain) = kept.chains.first_mut() {
        let _last = chain.operations.pop();
    }
    assert!(rt; !performs(&t.program, &t.key, &log, &kept, &t.moves));
}
