//! Which sections are kept.
use crate::given::{attempt, counts, has, keep_of, lock, unlock};

// Two threads take two locks in opposite orders. The section of thread 0 with lock 2 alone is left
// out, and so is one that is as the one before.
#[test]
fn opposite_orders_are_kept(rt: HostRuntime) {
    let kept = keep_of(
        &rt,
        rt.alloc(),
        2,
        3,
        &[
            lock(0, 2, 9),
            unlock(0, 2, 9),
            lock(0, 0, 1),
            lock(0, 1, 2),
            unlock(0, 1, 3),
            unlock(0, 0, 4),
            lock(0, 0, 1),
            lock(0, 1, 2),
            unlock(0, 1, 3),
            unlock(0, 0, 4),
            lock(1, 1, 5),
            lock(1, 0, 6),
            unlock(1, 1, 7),
            unlock(1, 0, 8),
        ],
    );
    assert_eq!(rt; kept.chains.len(), 2);
    has(
        &rt,
        &kept.chains[0],
        &[0],
        &[(0, 0, 1), (0, 1, 2), (2, 1, 3), (2, 0, 4)],
    );
    has(
        &rt,
        &kept.chains[1],
        &[1],
        &[(0, 1, 5), (0, 0, 6), (2, 1, 7), (2, 0, 8)],
    );
    assert_eq!(rt; counts(&kept), (2, 2, 2, 0, 0));
}

// One order alone, an unlock of what is not held, and a lock that is taken again while it is held.
#[test]
fn one_order_is_not_kept(rt: HostRuntime) {
    let kept = keep_of(
        &rt,
        rt.alloc(),
        2,
        2,
        &[
            unlock(1, 0, 0),
            lock(0, 0, 1),
            lock(0, 0, 1),
            lock(0, 1, 2),
            lock(0, 0, 3),
            unlock(0, 0, 4),
            unlock(0, 1, 5),
            unlock(0, 0, 6),
            unlock(0, 0, 7),
            lock(1, 0, 1),
            lock(1, 1, 2),
            unlock(1, 0, 3),
        ],
    );
    assert_eq!(rt; kept.chains.len(), 0);
    assert_eq!(rt; counts(&kept), (2, 1, 0, 1, 1));
}

// Five philosophers, each with the fork of its number and then the next, and a lock 5 in which
// they never cross. The last one's section is open.
#[test]
fn a_cycle_of_five_is_kept(rt: HostRuntime) {
    let kept = keep_of(
        &rt,
        rt.alloc(),
        5,
        6,
        &[
            lock(0, 0, 0),
            lock(0, 1, 1),
            lock(0, 5, 2),
            unlock(0, 5, 3),
            unlock(0, 1, 3),
            unlock(0, 0, 3),
            lock(1, 1, 0),
            lock(1, 2, 1),
            unlock(1, 2, 3),
            unlock(1, 1, 3),
            lock(2, 2, 0),
            lock(2, 3, 1),
            unlock(2, 3, 3),
            unlock(2, 2, 3),
            lock(3, 3, 0),
            lock(3, 4, 1),
            unlock(3, 4, 3),
            unlock(3, 3, 3),
            lock(4, 4, 0),
            lock(4, 0, 1),
        ],
    );
    assert_eq!(rt; kept.chains.len(), 5);
    has(
        &rt,
        &kept.chains[0],
        &[0],
        &[
            (0, 0, 0),
            (0, 1, 1),
            (0, 5, 2),
            (2, 5, 3),
            (2, 1, 3),
            (2, 0, 3),
        ],
    );
    has(
        &rt,
        &kept.chains[4],
        &[4],
        &[(0, 4, 0), (0, 0, 1), (2, 0, 1), (2, 4, 1)],
    );
    assert_eq!(rt; counts(&kept), (6, 7, 5, 0, 1));
}

// A try that took is held and no nesting, one that missed is nothing. Lock 2 is held around both
// orders of thread 1.
#[test]
fn tries_are_held_and_do_not_wait(rt: HostRuntime) {
    let kept = keep_of(
        &rt,
        rt.alloc(),
        2,
        3,
        &[
            attempt(0, 0, 1, true),
            attempt(0, 2, 1, false),
            lock(0, 1, 2),
            unlock(0, 1, 3),
            unlock(0, 0, 4),
            lock(1, 2, 1),
            lock(1, 1, 5),
            lock(1, 0, 6),
            unlock(1, 0, 7),
            unlock(1, 1, 8),
            unlock(1, 2, 9),
            lock(1, 1, 5),
            attempt(1, 0, 6, true),
            unlock(1, 0, 7),
            unlock(1, 1, 8),
        ],
    );
    assert_eq!(rt; kept.chains.len(), 2);
    has(
        &rt,
        &kept.chains[0],
        &[0],
        &[(1, 0, 1), (0, 1, 2), (2, 1, 3), (2, 0, 4)],
    );
    has(
        &rt,
        &kept.chains[1],
        &[1],
        &[
            (0, 2, 1),
            (0, 1, 5),
            (0, 0, 6),
            (2, 0, 7),
            (2, 1, 8),
            (2, 2, 9),
        ],
    );
    assert_eq!(rt; counts(&kept), (3, 4, 2, 0, 0));
}
