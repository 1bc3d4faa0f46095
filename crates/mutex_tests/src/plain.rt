//! A history, judged by a plain program: each entry fits those before it, and each answer to a
//! Request is what a search through all choices of edges finds.

use dim_base::Tid;
use dim_cover::first_cover;
use dim_rag::{Edge, Entry, Named, Tables};
use dim_signature::Catalogue;
use std::alloc::Global;
use std::process::Abort;

/// The first cover that a grant of this edge would complete now is this one.
fn completes(
    rt: &impl Abort,
    loaded: &Catalogue,
    tables: &Tables,
    edge: &Edge,
    cover: Option<Named>,
) {
    assert!(rt; edge.birth == tables.len());
    assert!(rt; first_cover(loaded, tables, edge) == cover);
}

/// A thread that asks runs, or yields and is woken: not all causes of its Yield stand.
fn may_ask(rt: &impl Abort, tables: &Tables, t: Tid) {
    assert!(rt; t.0 < tables.threads());
    assert!(rt; tables.standing(t).is_none());
}

/// A Request that makes this entry now may be made, and is answered rightly.
fn is_answered(rt: &impl Abort, loaded: &Catalogue, tables: &Tables, e: &Entry) {
    let birth = tables.len();
    match *e {
        Entry::Go { t, l, stack } => {
            may_ask(rt, tables, t);
            let edge = Edge { t, l, stack, birth };
            completes(rt, loaded, tables, &edge, None);
        }
        Entry::Yield {
            t,
            l,
            stack,
            sig,
            births,
        } => {
            may_ask(rt, tables, t);
            let edge = Edge { t, l, stack, birth };
            completes(rt, loaded, tables, &edge, Some(Named { sig, births }));
        }
        _ => {}
    }
}

/// Lets an entry come next, which fits.
fn append(rt: &impl Abort, tables: &mut Tables, e: &Entry) {
    assert!(rt; tables.len() < 1_000_000);
    tables.reserve(1).expect(rt, "room");
    assert!(rt; tables.fits(e));
    tables.enter(e);
}

/// The history of these tables, in which no signature was learnt before the last Request, keeps
/// clear of each of these signatures, and holds nobody back for anything else.
pub fn keeps_clear(rt: &impl Abort, alloc: Global, loaded: &Catalogue, tables: &Tables) {
    let (threads, locks) = (tables.threads(), tables.locks());
    assert!(rt; 1 <= threads && threads <= 32 && locks <= 256);
    let mut plain = Tables::new(alloc, threads, locks).expect(rt, "tables");
    for place in 0..tables.len() {
        let e = tables.entry(place);
        is_answered(rt, loaded, &plain, &e);
        append(rt, &mut plain, &e);
    }
}
