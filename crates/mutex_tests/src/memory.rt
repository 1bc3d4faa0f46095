//! What a `tend` leaves, whether memory suffices for it or not. It doesn't under
//! `rt try --test --fail-alloc N`, where N is the number of an allocation of the `tend`.
ghost use Rattle.std.specs.Prelude.{◌≡◌};
ghost use Rattle.dim_mutex.specs.Views.{opening, IsCallerOf};

use crate::calls::{knowing, left, lock, open};
use dim_base::{Lid, Tid};
use dim_mutex::{Caller, Closed, Domain, Immune, Pending};
use dim_rag::{Births, Entry};
use samples::entries::{go, got, left as left_at, right as right_at, yielded};
use std::process::Abort;
use std::sync::Wait;

const A: Lid = Lid(0);

const B: Lid = Lid(1);

const C: Lid = Lid(2);

/// The first caller waits for the second, which is held back by a lock of the first.
fn starve<R: Wait + Abort>(rt: &R, domain: &Domain, first: &mut Caller, second: &mut Caller)
    requires first { IsCallerOf domain.now first.old }
    requires second { IsCallerOf domain.now second.old }
    requires locks { (opening domain.now).constants.locks ≡ 3 }
    ensures first { IsCallerOf domain.now first.new
        × (first.new.known.number ≡ first.old.known.number) }
    ensures second { IsCallerOf domain.now second.new
        × (second.new.known.number ≡ second.old.known.number) }
{
    let (a, b, c) = (Immune::new(A, 1), Immune::new(B, 2), Immune::new(C, 3));
    assert!(rt; lock(rt, domain, &a, A, first, &left_at(0), 1).is_ok());
    assert!(rt; lock(rt, domain, &c, C, second, &right_at(0), 1).is_ok());
    let busy = lock(rt, domain, &c, C, first, &left_at(1), 1);
    assert!(rt; matches!(busy, Err(Pending::Busy { holder: Tid(1) })));
    let still = lock(rt, domain, &b, B, second, &right_at(1), 1);
    assert!(rt; matches!(still, Err(Pending::Still { cause: 0 })));
}

/// The history then, and what a settle adds to it.
fn entries() -> [Entry; 8] {
    [
        go(0, 0, left_at(0)),
        got(0, 0),
        go(1, 2, right_at(0)),
        got(1, 2),
        go(0, 2, left_at(1)),
        yielded(1, 1, [0, 5], right_at(1)),
        Entry::Learn {
            births: Births::new(&[0, 2]),
        },
        Entry::Break { set: 3, t: Tid(1) },
    ]
}

/// Nothing of the settle is left, or all.
fn left_whole(rt: &impl Abort, closed: &Closed) {
    if closed.tables.len() == 6 {
        assert!(rt; closed.catalogue.len() == 1);
        left(rt, closed, &entries()[..6]);
    } else {
        assert!(rt; closed.catalogue.len() == 2);
        left(rt, closed, &entries());
    }
}

#[test]
fn all_of_a_settle_is_left_or_nothing(rt: HostRuntime) {
    let alloc = rt.alloc();
    let loaded = knowing(&rt, alloc, [left_at(0), right_at(1)]);
    let (domain, mut first, mut second, mut callers) = open(&rt, alloc, loaded, 3);
    starve(&rt, &domain, &mut first, &mut second);
    assert!(rt; domain.bound() <= 1000);
    assert!(rt; first.owed() <= 6 && second.owed() <= 6);
    callers.push_reserved(first);
    callers.push_reserved(second);
    match domain.tend(alloc, callers, 8) {
        Ok((domain, callers, breaks)) => {
            let closed = domain.close(callers);
            assert!(rt; breaks == 1 && closed.tables.len() == 8);
            left_whole(&rt, &closed);
        }
        Err((closed, _)) => left_whole(&rt, &closed),
    }
}
