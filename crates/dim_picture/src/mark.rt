//! What an entry is in a picture.
ghost use Rattle.std.specs.Prelude.{◌≡◌, ◌<◌, [], IsSome};
ghost use Rattle.dim_rag.specs.declared.entry.Entry.TheVariants.{Free, Took};
ghost use Rattle.dim_rag.specs.Fits.{FitsAfter, IsInRange, MayTake};
ghost use Rattle.dim_rag.specs.History.{past, hold};
ghost use Rattle.dim_picture.specs.Marks.{birth_of, mark_of, wanted};

use dim_base::{Lid, Tid};
use dim_rag::{Entry, Graph, Mode, Why};

/// What an entry is in a picture.
#[derive(Clone, Copy, Debug, PartialEq, Eq)]
pub enum Mark {
    /// A Go: the thread waits for a lock.
    Wait { t: Tid, l: Lid },
    /// A Yield, which names a signature.
    Yield { t: Tid, l: Lid, sig: u32 },
    /// A Got, or a Took of a lock that the thread didn't hold.
    Hold { t: Tid, l: Lid },
    /// A Took of a lock that the thread holds already, with the birth of that hold.
    Deeper { t: Tid, l: Lid, birth: u32 },
    /// A Free after which the thread goes on to hold the lock, with the birth of that hold.
    Inner { t: Tid, l: Lid, birth: u32 },
    /// A Free that ends a hold, with its birth.
    Free { t: Tid, l: Lid, birth: u32 },
    Miss { t: Tid, l: Lid },
    End { t: Tid, why: Why },
    /// A Break: the thread waits for the lock for which it yielded.
    Break { t: Tid, l: Lid },
    Learn,
}

/// What an entry is that comes next.
pub fn mark_of(graph: &Graph, e: &Entry) -> Mark
    requires in_range { IsInRange graph.now.threads graph.now.locks e.now }
    requires fits { FitsAfter (past graph.now.entries) e.now }
    ensures { result ≡ mark_of (past graph.now.entries) e.now }
{
    match e {
        Entry::Go { t, l, .. } => Mark::Wait { t: *t, l: *l },
        Entry::Yield { t, l, sig, .. } => Mark::Yield {
            t: *t,
            l: *l,
            sig: *sig,
        },
        Entry::Got { t, l } => Mark::Hold { t: *t, l: *l },
        Entry::Free { t, l } => freed(graph, *t, *l),
        Entry::Took { t, l, .. } => taken(graph, *t, *l),
        Entry::Miss { t, l, .. } => Mark::Miss { t: *t, l: *l },
        Entry::End { t, why } => Mark::End { t: *t, why: *why },
        Entry::Break { t, .. } => Mark::Break {
            t: *t,
            l: wanted(graph.mode(*t)),
        },
        Entry::Learn { .. } => Mark::Learn,
    }
}

/// The birth of the hold of a thread on a lock, or the place of the next entry where it has none.
fn birth_of(graph: &Graph, t: Tid, l: Lid) -> u32
    requires { l.0 < graph.now.locks }
    ensures { result ≡ birth_of t l (past graph.now.entries) }
{
    match graph.hold_birth(t, l) {
        Some(birth) => birth,
        None => graph.len(),
    }
}

/// What a Free is of a thread that holds the lock.
fn freed(graph: &Graph, t: Tid, l: Lid) -> Mark
    requires in_range { l.0 < graph.now.locks }
    requires held { IsSome (hold t.0 l.0 (past graph.now.entries)) }
    ensures { result ≡ mark_of (past graph.now.entries) (Free t l) }
{
    let birth = birth_of(graph, t, l);
    if graph.count(l) > 1 {
        Mark::Inner { t, l, birth }
    } else {
        Mark::Free { t, l, birth }
    }
}

/// What a Took is of a thread that may take the lock.
fn taken(graph: &Graph, t: Tid, l: Lid) -> Mark
    requires in_range { l.0 < graph.now.locks }
    requires may { MayTake t.0 l.0 (past graph.now.entries) }
    ensures { result ≡ mark_of (past graph.now.entries) (Took t l []) }
{
    let birth = birth_of(graph, t, l);
    if graph.count(l) > 0 {
        Mark::Deeper { t, l, birth }
    } else {
        Mark::Hold { t, l }
    }
}

/// The lock that a thread in this mode wants that yields.
fn wanted(mode: Mode) -> Lid
    ensures { result ≡ wanted mode }
{
    match mode {
        Mode::Yielding { l, .. } => l,
        _ => Lid(0),
    }
}
