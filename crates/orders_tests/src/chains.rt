//! Which threads are one behind the other.
use crate::given::{counts, has, keep_of, lock, unlock};
use dim_log::Event;

fn start(thread: u32, other: u32) -> Event {
    Event::Start { thread, other }
}

fn join(thread: u32, other: u32) -> Event {
    Event::Join { thread, other }
}

// Thread 0 joins thread 1 before it starts thread 2, so these are one chain; thread 3 it starts
// before, and thread 4 nobody starts.
#[test]
fn joined_threads_are_one_chain(rt: HostRuntime) {
    let kept = keep_of(
        &rt,
        rt.alloc(),
        5,
        2,
        &[
            start(0, 1),
            start(0, 3),
            lock(1, 0, 1),
            lock(1, 1, 2),
            unlock(1, 1, 3),
            unlock(1, 0, 4),
            join(0, 1),
            start(0, 2),
            lock(2, 1, 1),
            lock(2, 0, 2),
            unlock(2, 0, 3),
            unlock(2, 1, 4),
            lock(3, 1, 5),
            lock(3, 0, 6),
            unlock(3, 0, 7),
            unlock(3, 1, 8),
            lock(4, 0, 5),
            lock(4, 1, 6),
            unlock(4, 1, 7),
            unlock(4, 0, 8),
        ],
    );
    assert_eq!(rt; kept.chains.len(), 3);
    has(
        &rt,
        &kept.chains[0],
        &[1, 2],
        &[
            (0, 0, 1),
            (0, 1, 2),
            (2, 1, 3),
            (2, 0, 4),
            (0, 1, 1),
            (0, 0, 2),
            (2, 0, 3),
            (2, 1, 4),
        ],
    );
    has(
        &rt,
        &kept.chains[1],
        &[3],
        &[(0, 1, 5), (0, 0, 6), (2, 0, 7), (2, 1, 8)],
    );
    has(
        &rt,
        &kept.chains[2],
        &[4],
        &[(0, 0, 5), (0, 1, 6), (2, 1, 7), (2, 0, 8)],
    );
    assert_eq!(rt; counts(&kept), (2, 2, 2, 0, 0));
}

// A join by another thread than the one that starts, a join before the last event, and a start
// behind the first event put nothing behind.
#[test]
fn other_joins_put_nothing_behind(rt: HostRuntime) {
    let kept = keep_of(
        &rt,
        rt.alloc(),
        4,
        2,
        &[
            lock(1, 0, 1),
            lock(1, 1, 2),
            unlock(1, 1, 3),
            unlock(1, 0, 4),
            join(3, 1),
            start(0, 2),
            start(3, 0),
            lock(2, 1, 1),
            lock(2, 0, 2),
            unlock(2, 0, 3),
            join(3, 2),
            unlock(2, 1, 4),
        ],
    );
    assert_eq!(rt; kept.chains.len(), 2);
    has(
        &rt,
        &kept.chains[0],
        &[1],
        &[(0, 0, 1), (0, 1, 2), (2, 1, 3), (2, 0, 4)],
    );
    has(
        &rt,
        &kept.chains[1],
        &[2],
        &[(0, 1, 1), (0, 0, 2), (2, 0, 3), (2, 1, 4)],
    );
}
