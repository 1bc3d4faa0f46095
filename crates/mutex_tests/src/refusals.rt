//! Each refusal of a lock and of a try, once.
ghost use Rattle.std.specs.Prelude.{◌≡◌, ◌<◌};
ghost use Rattle.dim_mutex.specs.Views.{opening, IsCallerOf};

use crate::calls::{are_births, close, knowing, lock, open, release, tend, try_lock};
use dim_base::{Lid, Tid};
use dim_mutex::{Caller, Domain, Immune, Missed, Pending};
use dim_rag::Named;
use dim_signature::Catalogue;
use samples::entries::{at, left as left_at, right as right_at};
use std::process::Abort;
use std::sync::Wait;

const A: Lid = Lid(0);

const B: Lid = Lid(1);

#[test]
fn a_lock_of_another_is_busy(rt: HostRuntime) {
    let alloc = rt.alloc();
    let (domain, mut first, mut second, callers) = open(&rt, alloc, Catalogue::new(alloc), 2);
    let a = Immune::new(A, 1);
    assert!(rt; lock(&rt, &domain, &a, A, &mut first, &at(0, 0), 1).is_ok());
    let busy = lock(&rt, &domain, &a, A, &mut second, &at(0, 1), 3);
    assert!(rt; matches!(busy, Err(Pending::Busy { holder: Tid(0) })));
    match second.pending() {
        Some((l, stack)) => assert!(rt; l == A && stack == at(0, 1)),
        None => panic!(rt; "it waits"),
    }
    assert!(rt; second.left() == 7 && second.owed() == 0);
    let closed = close(domain, first, second, callers);
    assert!(rt; closed.tables.len() == 3);
}

/// Takes a lock that is free, and gives it back.
fn pass_through<R: Wait + Abort>(rt: &R, domain: &Domain, a: &Immune<u32>, caller: &mut Caller)
    requires caller { IsCallerOf domain.now caller.old }
    requires lock { a.now.l ≡ A }
    requires some { 0 < (opening domain.now).constants.locks }
    ensures caller { IsCallerOf domain.now caller.new
        × (caller.new.known.number ≡ caller.old.known.number) }
{
    match lock(rt, domain, a, A, caller, &at(0, 0), 1) {
        Ok(guard) => release(rt, domain, guard, caller),
        Err(_) => panic!(rt; "a is free"),
    }
}

/// Tries a lock that is free, and gives it back.
fn try_through<R: Wait + Abort>(rt: &R, domain: &Domain, a: &Immune<u32>, caller: &mut Caller)
    requires caller { IsCallerOf domain.now caller.old }
    requires lock { a.now.l ≡ A }
    requires some { 0 < (opening domain.now).constants.locks }
    ensures caller { IsCallerOf domain.now caller.new
        × (caller.new.known.number ≡ caller.old.known.number) }
{
    match try_lock(rt, domain, a, A, caller, &at(0, 0)) {
        Ok(guard) => release(rt, domain, guard, caller),
        Err(_) => panic!(rt; "a is free"),
    }
}

#[test]
fn a_lock_without_room_is_spent(rt: HostRuntime) {
    let alloc = rt.alloc();
    let (domain, mut first, second, callers) = open(&rt, alloc, Catalogue::new(alloc), 2);
    let a = Immune::new(A, 1);
    pass_through(&rt, &domain, &a, &mut first);
    pass_through(&rt, &domain, &a, &mut first);
    let spent = lock(&rt, &domain, &a, A, &mut first, &at(0, 0), 1);
    assert!(rt; matches!(spent, Err(Pending::Spent { left: 2 })));
    assert!(rt; first.pending().is_none());
    let (domain, mut first, second, callers, breaks) = tend(
        &rt, alloc, domain, first, second, callers,
    );
    assert!(rt; breaks == 0 && first.left() == 8);
    assert!(rt; lock(&rt, &domain, &a, A, &mut first, &at(0, 0), 1).is_ok());
    let closed = close(domain, first, second, callers);
    assert!(rt; closed.tables.len() == 8);
}

#[test]
fn a_try_without_room_is_spent(rt: HostRuntime) {
    let alloc = rt.alloc();
    let (domain, mut first, second, callers) = open(&rt, alloc, Catalogue::new(alloc), 2);
    let a = Immune::new(A, 1);
    try_through(&rt, &domain, &a, &mut first);
    try_through(&rt, &domain, &a, &mut first);
    try_through(&rt, &domain, &a, &mut first);
    try_through(&rt, &domain, &a, &mut first);
    let spent = try_lock(&rt, &domain, &a, A, &mut first, &at(0, 0));
    assert!(rt; matches!(spent, Err(Missed::Spent { left: 0 })));
    let closed = close(domain, first, second, callers);
    assert!(rt; closed.tables.len() == 8);
}

#[test]
fn a_try_that_would_complete_a_cover_is_avoided(rt: HostRuntime) {
    let alloc = rt.alloc();
    let loaded = knowing(&rt, alloc, [left_at(0), right_at(0)]);
    let (domain, mut first, mut second, callers) = open(&rt, alloc, loaded, 2);
    let (a, b) = (Immune::new(A, 1), Immune::new(B, 2));
    assert!(rt; lock(&rt, &domain, &a, A, &mut first, &left_at(0), 1).is_ok());
    match try_lock(&rt, &domain, &b, B, &mut second, &right_at(0)) {
        Err(Missed::Avoid(Named { sig, births })) => {
            assert!(rt; sig == 0);
            are_births(&rt, &births, 0, 2);
        }
        _ => panic!(rt; "it would complete the cover"),
    }
    assert!(rt; second.pending().is_none());
    let closed = close(domain, first, second, callers);
    assert!(rt; closed.tables.len() == 3);
}
