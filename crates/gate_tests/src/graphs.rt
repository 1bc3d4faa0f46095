ghost use Rattle.std.specs.Prelude.{◌≤◌, length};

use dim_base::{Lid, Tid};
use dim_rag::{Births, Edge, Entry, MissWhy, Mode, Named, Tables, Why, same_entry};
use dim_stack::{Frame, Stack};
use samples::entries::{free, go, got, left, right, took, yielded};
use std::alloc::Global;
use std::process::Abort;

const A: u32 = 0;

const B: u32 = 1;

const C: u32 = 2;

/// A stack of three frames, of which this is the place in the innermost.
fn deep(at: u32) -> Stack {
    Stack::new(&[
        Frame { func: 0, at: 7 },
        Frame { func: 1, at: 8 },
        Frame { func: 0, at },
    ])
}

/// A miss of a try, with a stack of three frames.
fn missed(t: u32, l: u32, why: MissWhy) -> Entry {
    Entry::Miss {
        t: Tid(t),
        l: Lid(l),
        stack: deep(l),
        why,
    }
}

/// A miss because of a cover of signature 5 with these births.
fn avoided(t: u32, l: u32, births: [u32; 2]) -> Entry {
    let named = Named {
        sig: 5,
        births: Births::new(&births),
    };
    missed(t, l, MissWhy::Avoid(named))
}

fn done(t: u32) -> Entry {
    Entry::End {
        t: Tid(t),
        why: Why::Done,
    }
}

fn broken(set: u32, t: u32) -> Entry {
    Entry::Break { set, t: Tid(t) }
}

fn learn(births: &[u32]) -> Entry
    requires { length births.now ≤ 32 }
{
    Entry::Learn {
        births: Births::new(births),
    }
}

fn trapped(t: u32, trap: u8) -> Entry {
    Entry::End {
        t: Tid(t),
        why: Why::Trapped { trap },
    }
}

/// A mode, with the number of its lock, and then the birth or the place.
#[derive(Clone, Copy)]
enum Stands {
    Runs,
    Allowed(u32, u32),
    Yields(u32, u32),
    Ended(u32),
}

use Stands::{Allowed, Ended, Runs, Yields};

fn mode_of(stands: Stands) -> Mode {
    match stands {
        Runs => Mode::Running,
        Allowed(l, birth) => Mode::Allowed { l: Lid(l), birth },
        Yields(l, place) => Mode::Yielding { l: Lid(l), place },
        Ended(place) => Mode::Ended { place },
    }
}

/// What stands after the first `after` entries of a history of two threads.
#[derive(Clone, Copy)]
struct Then {
    after: u32,
    modes: [Stands; 2],
    /// Of each lock the owner and the birth of its hold edge.
    holders: [Option<(u32, u32)>; 3],
    /// The first cause of thread 1, if its causes stand.
    cause: Option<u32>,
}

fn new_tables(rt: &impl Abort, alloc: Global) -> Tables {
    Tables::new(alloc, 2, 3).expect(rt, "tables")
}

/// Appends an entry that fits.
fn append(rt: &impl Abort, tables: &mut Tables, e: &Entry) {
    assert!(rt; tables.len() < 300);
    tables.reserve(1).expect(rt, "room");
    assert!(rt; tables.fits(e), "{e:?}");
    tables.push(*e);
}

/// Replays the entries and compares what stands with what is said, at each length that is named.
fn replay(rt: &impl Abort, alloc: Global, entries: &[Entry], thens: &[Then]) -> Tables {
    let mut tables = new_tables(rt, alloc);
    for e in entries {
        append(rt, &mut tables, e);
        compare_all(rt, &tables, thens);
    }
    tables
}

/// The tables are done with. Most tests drop them by this call, since the proof of a drop is long.
fn drop_tables(_tables: Tables) {}

/// Replays the entries for the sake of what is compared on the way.
fn replay_all(rt: &impl Abort, alloc: Global, entries: &[Entry], thens: &[Then]) {
    drop_tables(replay(rt, alloc, entries, thens));
}

fn compare_all(rt: &impl Abort, tables: &Tables, thens: &[Then]) {
    for then in thens {
        if then.after == tables.len() {
            compare(rt, tables, then);
        }
    }
}

fn compare(rt: &impl Abort, tables: &Tables, then: &Then) {
    assert!(rt; tables.threads() == 2);
    assert!(rt; tables.locks() == 3);
    for t in 0..2u32 {
        let mode = mode_of(then.modes[t as usize]);
        is_mode(rt, tables.mode(Tid(t)), mode, t, then.after);
    }
    for l in 0..3u32 {
        let holder = owner_and_birth(tables.holder(Lid(l)));
        is_holder(rt, holder, then.holders[l as usize], l, then.after);
    }
    is_cause(rt, tables.standing(Tid(1)), then.cause, then.after);
}

fn is_mode(rt: &impl Abort, mode: Mode, expected: Mode, t: u32, after: u32) {
    assert_eq!(rt; mode, expected, "thread {t} after {after}");
}

fn is_holder(
    rt: &impl Abort,
    holder: Option<(u32, u32)>,
    expected: Option<(u32, u32)>,
    l: u32,
    after: u32,
) {
    assert_eq!(rt; holder, expected, "lock {l} after {after}");
}

fn is_cause(rt: &impl Abort, cause: Option<u32>, expected: Option<u32>, after: u32) {
    assert_eq!(rt; cause, expected, "after {after}");
}

fn owner_and_birth(edge: Option<Edge>) -> Option<(u32, u32)> {
    match edge {
        Some(e) => Some((e.t.0, e.birth)),
        None => None,
    }
}

/// The lock is held so many times.
fn counts(rt: &impl Abort, tables: &Tables, l: u32, times: u32) {
    assert!(rt; l < tables.locks());
    same(rt, tables.count(Lid(l)), times);
}

fn same(rt: &impl Abort, number: u32, expected: u32) {
    assert_eq!(rt; number, expected);
}

fn judged(rt: &impl Abort, found: Result<(), u32>, expected: Result<(), u32>) {
    assert_eq!(rt; found, expected);
}

/// Whether these births are those of a cycle, or which of them isn't.
fn cycle(rt: &impl Abort, tables: &Tables, births: &[u32], expected: Result<(), u32>)
    requires { length births.now ≤ 32 }
{
    judged(rt, tables.is_cycle(&Births::new(births)), expected);
}

/// Whether these births are those of a starvation, or which of them isn't.
fn starvation(rt: &impl Abort, tables: &Tables, births: &[u32], expected: Result<(), u32>)
    requires { length births.now ≤ 32 }
{
    judged(rt, tables.is_starved(&Births::new(births)), expected);
}

/// Whether the set is stuck, or which of its threads isn't.
fn stuck(rt: &impl Abort, tables: &Tables, set: u32, expected: Result<(), Tid>) {
    assert_eq!(rt; tables.is_stuck(set), expected);
}

/// The choice of a stuck set.
fn choice(rt: &impl Abort, tables: &Tables, set: u32, expected: Option<Tid>) {
    assert_eq!(rt; tables.choice(set), expected);
}

/// The births of a starvation in a stuck set.
fn starved(rt: &impl Abort, tables: &Tables, set: u32, expected: Option<Births>) {
    assert!(rt; tables.starved(set) == expected);
}

/// The edge with this birth.
fn edge_born(rt: &impl Abort, tables: &Tables, birth: u32, expected: Option<Edge>) {
    assert_eq!(rt; tables.edge_born(birth), expected);
}

const AFTER_A_DEADLOCK: [Then; 1] = [Then {
    after: 7,
    modes: [Allowed(B, 4), Allowed(A, 5)],
    holders: [Some((0, 0)), Some((1, 2)), None],
    cause: None,
}];

#[test]
fn first_deadlock_is_a_cycle(rt: HostRuntime) {
    let entries = [
        go(0, A, left(0)),
        got(0, A),
        go(1, B, right(0)),
        got(1, B),
        go(0, B, left(1)),
        go(1, A, right(1)),
        learn(&[0, 2]),
    ];
    let tables = replay(&rt, rt.alloc(), &entries, &AFTER_A_DEADLOCK);
    cycle(&rt, &tables, &[0, 2], Ok(()));
    cycle(&rt, &tables, &[2, 0], Err(1));
    cycle(&rt, &tables, &[0, 0], Err(0));
    cycle(&rt, &tables, &[0], Err(0));
    stuck(&rt, &tables, 3, Ok(()));
    stuck(&rt, &tables, 7, Err(Tid(2)));
    choice(&rt, &tables, 3, None);
    starvation(&rt, &tables, &[0, 2], Err(0));
    starved(&rt, &tables, 3, None);
    drop_tables(tables);
}

const AFTER_A_YIELD: [Then; 6] = [
    Then {
        after: 3,
        modes: [Runs, Yields(B, 2)],
        holders: [Some((0, 0)), None, None],
        cause: Some(0),
    },
    Then {
        after: 6,
        modes: [Runs, Yields(B, 2)],
        holders: [Some((0, 0)), None, None],
        cause: Some(0),
    },
    Then {
        after: 7,
        modes: [Runs, Yields(B, 2)],
        holders: [None, None, None],
        cause: None,
    },
    Then {
        after: 8,
        modes: [Runs, Allowed(B, 7)],
        holders: [None, None, None],
        cause: None,
    },
    Then {
        after: 12,
        modes: [Ended(9), Runs],
        holders: [Some((1, 10)), Some((1, 7)), None],
        cause: None,
    },
    Then {
        after: 15,
        modes: [Ended(9), Ended(14)],
        holders: [None, None, None],
        cause: None,
    },
];

#[test]
fn a_yield_waits_for_its_cause(rt: HostRuntime) {
    let entries = [
        go(0, A, left(0)),
        got(0, A),
        yielded(1, B, [0, 2], right(0)),
        go(0, B, left(1)),
        got(0, B),
        free(0, B),
        free(0, A),
        go(1, B, right(0)),
        got(1, B),
        done(0),
        go(1, A, right(1)),
        got(1, A),
        free(1, A),
        free(1, B),
        done(1),
    ];
    replay_all(&rt, rt.alloc(), &entries, &AFTER_A_YIELD);
}

/// A run that gets stuck after six entries, and goes on by a Break.
fn broken_up() -> [Entry; 15] {
    [
        go(0, A, left(0)),
        got(0, A),
        go(1, C, right(0)),
        got(1, C),
        go(0, C, left(1)),
        yielded(1, B, [0, 5], right(1)),
        broken(3, 1),
        got(1, B),
        free(1, B),
        free(1, C),
        done(1),
        got(0, C),
        free(0, C),
        free(0, A),
        done(0),
    ]
}

const AROUND_A_BREAK: [Then; 4] = [
    Then {
        after: 6,
        modes: [Allowed(C, 4), Yields(B, 5)],
        holders: [Some((0, 0)), None, Some((1, 2))],
        cause: Some(0),
    },
    Then {
        after: 7,
        modes: [Allowed(C, 4), Allowed(B, 6)],
        holders: [Some((0, 0)), None, Some((1, 2))],
        cause: None,
    },
    Then {
        after: 8,
        modes: [Allowed(C, 4), Runs],
        holders: [Some((0, 0)), Some((1, 6)), Some((1, 2))],
        cause: None,
    },
    Then {
        after: 12,
        modes: [Runs, Ended(10)],
        holders: [Some((0, 0)), None, Some((0, 4))],
        cause: None,
    },
];

/// Thread 0 waits for lock C, which thread 1 holds, and thread 1 yields because of lock A, which
/// thread 0 holds.
fn compare_starvation(rt: &impl Abort, tables: &Tables) {
    starved(rt, tables, 3, Some(Births::new(&[0, 2])));
    starvation(rt, tables, &[0, 2], Ok(()));
    starvation(rt, tables, &[2, 0], Err(1));
    starvation(rt, tables, &[0, 0], Err(0));
    starvation(rt, tables, &[0, 2, 0], Err(2));
    starvation(rt, tables, &[0], Err(0));
    cycle(rt, tables, &[0, 2], Err(1));
}

/// Both threads are stuck, and thread 1 is the choice. Neither is stuck alone.
fn compare_stuck(rt: &impl Abort, tables: &Tables) {
    stuck(rt, tables, 3, Ok(()));
    choice(rt, tables, 3, Some(Tid(1)));
    stuck(rt, tables, 1, Err(Tid(0)));
    stuck(rt, tables, 2, Err(Tid(1)));
}

/// The hold edge of the lock that the Break granted was born at it.
fn compare_births(rt: &impl Abort, tables: &Tables) {
    let edge = Edge {
        t: Tid(1),
        l: Lid(B),
        stack: right(1),
        birth: 6,
    };
    edge_born(rt, tables, 6, Some(edge));
    edge_born(rt, tables, 5, None);
    edge_born(rt, tables, 99, None);
}

#[test]
fn a_break_grants_what_the_yield_wants(rt: HostRuntime) {
    let entries = broken_up();
    let blocked = replay(&rt, rt.alloc(), &entries[..6], &AROUND_A_BREAK);
    compare_stuck(&rt, &blocked);
    compare_starvation(&rt, &blocked);
    drop_tables(blocked);
    let held = replay(&rt, rt.alloc(), &entries[..8], &AROUND_A_BREAK);
    compare_births(&rt, &held);
    drop_tables(held);
    replay_all(&rt, rt.alloc(), &entries, &AROUND_A_BREAK);
}

const AROUND_AN_END: [Then; 3] = [
    Then {
        after: 4,
        modes: [Ended(3), Yields(B, 2)],
        holders: [Some((0, 0)), None, None],
        cause: Some(0),
    },
    Then {
        after: 6,
        modes: [Ended(3), Runs],
        holders: [Some((0, 0)), Some((1, 4)), None],
        cause: None,
    },
    Then {
        after: 8,
        modes: [Ended(3), Ended(7)],
        holders: [Some((0, 0)), None, None],
        cause: None,
    },
];

#[test]
fn an_ended_thread_keeps_what_it_holds(rt: HostRuntime) {
    let entries = [
        go(0, A, left(0)),
        got(0, A),
        yielded(1, B, [0, 2], right(0)),
        done(0),
        broken(3, 1),
        got(1, B),
        free(1, B),
        done(1),
    ];
    let blocked = replay(&rt, rt.alloc(), &entries[..4], &AROUND_AN_END);
    stuck(&rt, &blocked, 3, Ok(()));
    choice(&rt, &blocked, 3, Some(Tid(1)));
    starved(&rt, &blocked, 3, None);
    drop_tables(blocked);
    replay_all(&rt, rt.alloc(), &entries, &AROUND_AN_END);
}

/// A history of two threads with entries of each kind, whose stacks and births have several
/// lengths.
fn of_each_kind() -> [Entry; 13] {
    [
        go(0, A, deep(9)),
        got(0, A),
        took(1, B, left(3)),
        missed(1, A, MissWhy::Busy { holder: Tid(0) }),
        avoided(1, C, [0, 2]),
        yielded(1, C, [2, 0], deep(4)),
        go(0, B, right(6)),
        learn(&[0, 2, 6]),
        broken(3, 1),
        got(1, C),
        free(1, C),
        took(1, C, deep(5)),
        trapped(1, 7),
    ]
}

fn is_entry(rt: &impl Abort, e: &Entry, expected: &Entry) {
    assert!(rt; same_entry(e, expected), "{e:?}");
}

/// The entries of the tables are these, by their places.
fn reads_back(rt: &impl Abort, tables: &Tables, entries: &[Entry]) {
    assert!(rt; tables.len() as usize == entries.len());
    for place in 0..tables.len() {
        is_entry(rt, &tables.entry(place), &entries[place as usize]);
    }
}

#[test]
fn an_entry_of_each_kind_is_read_back(rt: HostRuntime) {
    let entries = of_each_kind();
    let tables = replay(&rt, rt.alloc(), &entries, &[]);
    same(&rt, tables.len(), 13);
    same(&rt, tables.graph().len(), 13);
    reads_back(&rt, &tables, &entries);
    drop_tables(tables);
}

/// The entries of the tables are these, in a list.
fn lists(rt: &impl Abort, alloc: Global, tables: &Tables, entries: &[Entry]) {
    let all = tables.entries(alloc).expect(rt, "entries");
    assert!(rt; all.as_slice() == entries);
}

#[test]
fn all_entries_are_read_back(rt: HostRuntime) {
    let entries = of_each_kind();
    let tables = replay(&rt, rt.alloc(), &entries, &[]);
    lists(&rt, rt.alloc(), &tables, &entries);
    drop_tables(tables);
}

const AROUND_FREES: [Then; 4] = [
    Then {
        after: 3,
        modes: [Runs, Runs],
        holders: [Some((0, 0)), None, None],
        cause: None,
    },
    Then {
        after: 5,
        modes: [Runs, Allowed(A, 3)],
        holders: [Some((0, 0)), None, None],
        cause: None,
    },
    Then {
        after: 6,
        modes: [Runs, Allowed(A, 3)],
        holders: [None, None, None],
        cause: None,
    },
    Then {
        after: 7,
        modes: [Runs, Runs],
        holders: [Some((1, 3)), None, None],
        cause: None,
    },
];

/// After these entries lock A is held so many times, and the edge of the entry at 2, a Took, is
/// none.
fn is_held(rt: &impl Abort, alloc: Global, entries: &[Entry], times: u32) {
    let tables = replay(rt, alloc, entries, &AROUND_FREES);
    counts(rt, &tables, A, times);
    edge_born(rt, &tables, 2, None);
    drop_tables(tables);
}

#[test]
fn a_lock_is_free_after_as_many_frees(rt: HostRuntime) {
    let entries = [
        go(0, A, left(0)),
        got(0, A),
        took(0, A, left(1)),
        go(1, A, right(0)),
        free(0, A),
        free(0, A),
        got(1, A),
    ];
    is_held(&rt, rt.alloc(), &entries[..0], 0);
    is_held(&rt, rt.alloc(), &entries[..1], 0);
    is_held(&rt, rt.alloc(), &entries[..2], 1);
    is_held(&rt, rt.alloc(), &entries[..3], 2);
    is_held(&rt, rt.alloc(), &entries[..4], 2);
    is_held(&rt, rt.alloc(), &entries[..5], 1);
    is_held(&rt, rt.alloc(), &entries[..6], 0);
    is_held(&rt, rt.alloc(), &entries, 1);
}

fn does_not_fit(rt: &impl Abort, tables: &Tables, e: &Entry) {
    assert!(rt; !tables.fits(e), "{e:?}");
}

/// Takes lock B so many times. Once it is held, no other thread's Took of it fits.
fn take_often(rt: &impl Abort, tables: &mut Tables, again: &Entry, most: u32) {
    for times in 0..most {
        counts(rt, tables, B, times);
        if times > 0 {
            does_not_fit(rt, tables, &took(1, B, right(0)));
        }
        append(rt, tables, again);
    }
}

#[test]
fn a_lock_is_held_255_times_at_most(rt: HostRuntime) {
    let mut tables = new_tables(&rt, rt.alloc());
    let again = took(0, B, left(1));
    take_often(&rt, &mut tables, &again, 255);
    counts(&rt, &tables, B, 255);
    does_not_fit(&rt, &tables, &again);
    drop_tables(tables);
}
