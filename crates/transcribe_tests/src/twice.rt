//! A lock that its thread holds and takes once more.
use crate::given::{chain, kept, log, operation, spot};
use dim_log::Log;
use dim_orders::{Deed, Kept};
use dim_transcribe::{Transcribe, performs, transcribe};
use std::alloc::Global;

// A thread takes a, takes a once more, takes b, and frees all; another one takes b, and then a.
fn twice(alloc: Global) -> Result<(Log, Kept), Transcribe> {
    let mut stacks = Vec::new(alloc);
    for line in 0..10 {
        stacks.push(vec![in alloc; spot(0, line)]?)?;
    }
    let log = log(alloc, &["f"], stacks)?;
    let left = vec![in alloc;
        operation(Deed::Lock, 0, 0),
        operation(Deed::Lock, 0, 1),
        operation(Deed::Lock, 1, 2),
        operation(Deed::Unlock, 1, 3),
        operation(Deed::Unlock, 0, 4),
        operation(Deed::Unlock, 0, 5),
    ]?;
    let right = vec![in alloc;
        operation(Deed::Lock, 1, 6),
        operation(Deed::Lock, 0, 7),
        operation(Deed::Unlock, 0, 8),
        operation(Deed::Unlock, 1, 9),
    ]?;
    let chains = vec![in alloc; chain(alloc, left), chain(alloc, right)]?;
    Ok((log, kept(chains)))
}

#[test]
fn a_lock_that_is_taken_twice(rt: HostRuntime) {
    let alloc = rt.alloc();
    let (log, kept) = twice(alloc).expect(&rt, "memory");
    let t = transcribe(alloc, &log, &kept).expect(&rt, "a transcript");
    assert!(rt; performs(&t.program, &t.key, &log, &kept, &t.moves));
}
