//! Searches whose answers are known.
ghost use Rattle.std.specs.Prelude.{◌≡◌, ◌+◌, ◌≤◌, length};
ghost use Rattle.dim_rag.specs.History.{past};
ghost use Rattle.dim_rag.specs.Born.{all_edges};

use dim_base::{Lid, Tid};
use dim_cover::{Index, first_cover};
use dim_rag::{Births, Edge, Entry, Named, Tables};
use dim_signature::{Catalogue, Signature};
use dim_stack::Stack;
use samples::entries::{free, go, got, left, took};
use std::alloc::Global;
use std::process::Abort;

/// Adds a signature of depth 1 that is switched on or off.
fn add(rt: &impl Abort, alloc: Global, catalogue: &mut Catalogue, stacks: &[Stack], on: bool) {
    assert!(rt; stacks.len() <= 32);
    let sig = Signature::new(alloc, 1, stacks).expect(rt, "a signature");
    catalogue.add(sig.noted(on, 0)).expect(rt, "a number");
}

/// One signature of depth 1.
fn catalogue_of(rt: &impl Abort, alloc: Global, stacks: &[Stack]) -> Catalogue {
    let mut catalogue = Catalogue::new(alloc);
    add(rt, alloc, &mut catalogue, stacks, true);
    catalogue
}

/// The tables of the empty history.
fn new_tables(rt: &impl Abort, alloc: Global, threads: u32, locks: u32) -> Tables {
    assert!(rt; 1 <= threads);
    assert!(rt; threads <= 32);
    assert!(rt; locks <= 256);
    Tables::new(alloc, threads, locks).expect(rt, "tables")
}

/// Lets an entry come next, which fits.
fn append(rt: &impl Abort, tables: &mut Tables, e: &Entry) {
    assert!(rt; tables.len() < 300);
    tables.reserve(1).expect(rt, "room");
    assert!(rt; tables.fits(e));
    tables.enter(e);
}

/// The history has so many entries.
fn has(rt: &impl Abort, tables: &Tables, entries: u32) {
    assert!(rt; tables.len() == entries);
}

/// The named cover for an edge that a grant would give now.
fn named(catalogue: &Catalogue, tables: &Tables, t: u32, l: u32, at: u32) -> Option<Named> {
    let new_edge = Edge {
        t: Tid(t),
        l: Lid(l),
        stack: left(at),
        birth: tables.len(),
    };
    first_cover(catalogue, tables, &new_edge)
}

/// The cover of a signature with these births.
fn cover_of(sig: u32, births: &[u32]) -> Option<Named>
    requires { length births.now ≤ 32 }
{
    let births = Births::new(births);
    Some(Named { sig, births })
}

/// For an edge that a grant would give now, this cover is named.
fn names(
    rt: &impl Abort,
    catalogue: &Catalogue,
    tables: &Tables,
    t: u32,
    l: u32,
    at: u32,
    cover: Option<Named>,
) {
    assert!(rt; named(catalogue, tables, t, l, at) == cover);
}

/// The catalogue is done with.
fn drop_catalogue(_catalogue: Catalogue) {}

/// The tables are done with.
fn drop_tables(_tables: Tables) {}

#[test]
fn the_least_births_are_named(rt: HostRuntime) {
    let stacks = [left(1), left(1), left(2)];
    let catalogue = catalogue_of(&rt, rt.alloc(), &stacks);
    let mut tables = new_tables(&rt, rt.alloc(), 4, 4);
    append(&rt, &mut tables, &took(0, 0, left(1)));
    append(&rt, &mut tables, &took(0, 1, left(1)));
    append(&rt, &mut tables, &took(1, 2, left(2)));
    append(&rt, &mut tables, &go(2, 3, left(1)));
    has(&rt, &tables, 4);

    names(&rt, &catalogue, &tables, 3, 3, 1, cover_of(0, &[0, 4, 2]));
    // The edge with birth 0 is on the new edge's lock.
    names(&rt, &catalogue, &tables, 3, 0, 1, cover_of(0, &[1, 4, 2]));
    // No edge agrees with the third stack but the new one's own thread's.
    names(&rt, &catalogue, &tables, 1, 0, 1, None);
    drop_catalogue(catalogue);
    drop_tables(tables);
}

/// Lets threads take this many locks in turn, so many each.
fn take_all(rt: &impl Abort, tables: &mut Tables, locks: u32, each: u32) {
    assert!(rt; 1 <= each);
    for l in 0..locks {
        append(rt, tables, &took(l / each, l, left(0)));
    }
}

/// Lets the threads 6 to 30 ask for a lock.
fn ask_all(rt: &impl Abort, tables: &mut Tables, l: u32) {
    for t in 6..31 {
        append(rt, tables, &go(t, l, left(0)));
    }
}

#[test]
fn few_disjoint_pairs_are_seen_at_once(rt: HostRuntime) {
    let catalogue = catalogue_of(&rt, rt.alloc(), &[left(0); 12]);
    let mut tables = new_tables(&rt, rt.alloc(), 32, 40);
    take_all(&rt, &mut tables, 36, 6);
    ask_all(&rt, &mut tables, 36);
    has(&rt, &tables, 61);
    names(&rt, &catalogue, &tables, 31, 37, 0, None);
    drop_catalogue(catalogue);
    drop_tables(tables);
}

/// Two signatures of depth 1, of stacks 1 and 2 and of stacks 1 and 3, each switched on or off.
fn two_signatures(rt: &impl Abort, alloc: Global, first: bool, second: bool) -> Catalogue {
    let mut catalogue = Catalogue::new(alloc);
    add(rt, alloc, &mut catalogue, &[left(1), left(2)], first);
    add(rt, alloc, &mut catalogue, &[left(1), left(3)], second);
    catalogue
}

/// With the two signatures, each switched on or off, this cover is named.
fn names_of_two(
    rt: &impl Abort,
    alloc: Global,
    tables: &Tables,
    first: bool,
    second: bool,
    cover: Option<Named>,
) {
    let catalogue = two_signatures(rt, alloc, first, second);
    names(rt, &catalogue, tables, 2, 2, 1, cover);
}

#[test]
fn a_signature_that_is_switched_off_is_not_named(rt: HostRuntime) {
    let mut tables = new_tables(&rt, rt.alloc(), 3, 3);
    append(&rt, &mut tables, &took(0, 0, left(2)));
    append(&rt, &mut tables, &took(1, 1, left(3)));
    has(&rt, &tables, 2);
    names_of_two(&rt, rt.alloc(), &tables, true, true, cover_of(0, &[2, 0]));
    names_of_two(&rt, rt.alloc(), &tables, false, true, cover_of(1, &[2, 1]));
    names_of_two(&rt, rt.alloc(), &tables, false, false, None);
    drop_tables(tables);
}

/// Lets threads take a lock through one stack and a lock through another, and four more ask through
/// a third.
fn take_two_each(rt: &impl Abort, tables: &mut Tables, threads: u32) {
    for t in 0..threads.min(20) {
        append(rt, tables, &took(t, 2 * t, left(1)));
        append(rt, tables, &took(t, 2 * t + 1, left(2)));
    }
    for k in 0..4 {
        append(rt, tables, &go(threads.min(20) + k, 40 + k, left(3)));
    }
}

/// So many stacks of the first kind, as many of the second, and two of the third.
fn of_three_kinds(rt: &impl Abort, alloc: Global, many: u32) -> Catalogue {
    let mut stacks = [left(3); 22];
    for k in 0..20u32 {
        stacks[k as usize] = left(1 + k % 2);
    }
    let all = &stacks[..];
    catalogue_of(rt, alloc, &all[20 - 2 * many.min(10) as usize..])
}

/// Whether no cover is named where so many threads hold through two stacks, of which a signature
/// has so many each, beside two of a third.
fn has_none(rt: &impl Abort, alloc: Global, threads: u32, many: u32) -> bool {
    let catalogue = of_three_kinds(rt, alloc, many);
    let mut tables = new_tables(rt, alloc, 32, 48);
    take_two_each(rt, &mut tables, threads);
    has(rt, &tables, 2 * threads.min(20) + 4);
    named(&catalogue, &tables, 31, 47, 3).is_none()
}

#[test]
fn few_threads_of_two_kinds_are_seen_at_once(rt: HostRuntime) {
    assert!(rt; has_none(&rt, rt.alloc(), 9, 5));
    assert!(rt; has_none(&rt, rt.alloc(), 11, 6));
    assert!(rt; has_none(&rt, rt.alloc(), 15, 8));
    // With one thread more there are covers.
    assert!(rt; !has_none(&rt, rt.alloc(), 10, 5));
}

/// Lets threads ask for few locks through two stacks, and eight more each for a lock of its own
/// through two others.
fn ask_for_few(rt: &impl Abort, tables: &mut Tables) {
    for t in 0..20 {
        append(rt, tables, &go(t, t % 5, left(1 + t / 10)));
    }
    for t in 20..28 {
        append(rt, tables, &go(t, t, left(3 + t % 2)));
    }
}

#[test]
fn few_locks_of_two_kinds_are_seen_at_once(rt: HostRuntime) {
    let (a, b, c, d) = (left(1), left(2), left(3), left(4));
    let catalogue = catalogue_of(&rt, rt.alloc(), &[a, a, a, b, b, b, c, c, d, d]);
    let mut tables = new_tables(&rt, rt.alloc(), 32, 40);
    ask_for_few(&rt, &mut tables);
    has(&rt, &tables, 28);
    // The six stacks of two kinds have five locks.
    names(&rt, &catalogue, &tables, 31, 37, 3, None);
    drop_catalogue(catalogue);
    drop_tables(tables);
}

#[test]
fn a_cover_of_many_threads_is_found_at_once(rt: HostRuntime) {
    let catalogue = catalogue_of(&rt, rt.alloc(), &[left(0); 12]);
    let mut tables = new_tables(&rt, rt.alloc(), 32, 40);
    take_all(&rt, &mut tables, 33, 3);
    let cover = cover_of(0, &[0, 3, 6, 9, 12, 15, 18, 21, 24, 27, 30, 33]);
    names(&rt, &catalogue, &tables, 31, 37, 0, cover);
    drop_catalogue(catalogue);
    drop_tables(tables);
}

/// The tables and the index of the empty history of so many threads and two locks.
fn fresh(rt: &impl Abort, alloc: Global, threads: u32) -> (Tables, Index)
    requires some { 1 ≤ threads }
    requires few { threads ≤ 32 }
    ensures room { result.1.room ≡ result.0.threads + result.0.locks }
    ensures edges { result.1.edges ≡ all_edges (past result.0.entries) }
{
    let tables = Tables::new(alloc, threads, 2).expect(rt, "tables");
    let index = Index::new(alloc, threads, 2).expect(rt, "an index");
    (tables, index)
}

/// Lets an entry come next in tables and index, which fits.
fn grow(rt: &impl Abort, tables: &mut Tables, index: &mut Index, e: &Entry)
    requires room { index.old.room ≡ tables.old.threads + tables.old.locks }
    requires edges { index.old.edges ≡ all_edges (past tables.old.entries) }
    ensures room { index.new.room ≡ tables.new.threads + tables.new.locks }
    ensures edges { index.new.edges ≡ all_edges (past tables.new.entries) }
{
    assert!(rt; tables.len() < 300);
    tables.reserve(1).expect(rt, "room");
    assert!(rt; tables.fits(e));
    index.tell(tables, e);
    tables.enter(e);
}

/// So many edges agree with a stack at depth 4, with these births.
fn agree(rt: &impl Abort, index: &Index, at: u32, births: &[u32]) {
    let stack = left(at);
    let mut out = [0; 288];
    let count = index.agreeing(4, &stack, &mut out);
    assert!(rt; index.count(4, &stack) == count);
    assert!(rt; out[..count as usize] == births[..]);
}

/// The index is done with.
fn drop_index(_index: Index) {}

#[test]
fn a_free_leaves_the_other_edges(rt: HostRuntime) {
    let (mut tables, mut index) = fresh(&rt, rt.alloc(), 2);
    grow(&rt, &mut tables, &mut index, &go(0, 0, left(0)));
    grow(&rt, &mut tables, &mut index, &got(0, 0));
    grow(&rt, &mut tables, &mut index, &go(1, 1, left(0)));
    has(&rt, &tables, 3);
    agree(&rt, &index, 0, &[0, 2]);
    grow(&rt, &mut tables, &mut index, &free(0, 0));
    agree(&rt, &index, 0, &[2]);
    drop_tables(tables);
    drop_index(index);
}

#[test]
fn a_thread_that_frees_one_lock_holds_the_other(rt: HostRuntime) {
    let (mut tables, mut index) = fresh(&rt, rt.alloc(), 1);
    grow(&rt, &mut tables, &mut index, &go(0, 0, left(0)));
    grow(&rt, &mut tables, &mut index, &got(0, 0));
    grow(&rt, &mut tables, &mut index, &go(0, 1, left(0)));
    grow(&rt, &mut tables, &mut index, &got(0, 1));
    grow(&rt, &mut tables, &mut index, &free(0, 0));
    has(&rt, &tables, 5);
    agree(&rt, &index, 0, &[2]);
    drop_tables(tables);
    drop_index(index);
}

#[test]
fn a_lock_held_twice_has_one_edge(rt: HostRuntime) {
    let (mut tables, mut index) = fresh(&rt, rt.alloc(), 1);
    grow(&rt, &mut tables, &mut index, &took(0, 0, left(0)));
    grow(&rt, &mut tables, &mut index, &took(0, 0, left(1)));
    has(&rt, &tables, 2);
    agree(&rt, &index, 0, &[0]);
    agree(&rt, &index, 1, &[]);
    grow(&rt, &mut tables, &mut index, &free(0, 0));
    agree(&rt, &index, 0, &[0]);
    grow(&rt, &mut tables, &mut index, &free(0, 0));
    has(&rt, &tables, 4);
    agree(&rt, &index, 0, &[]);
    drop_tables(tables);
    drop_index(index);
}
