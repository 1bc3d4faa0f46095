//! The graph of a history: its allow and hold edges, and what each thread does.
ghost use Rattle.std.specs.Prelude.{◌≡◌, ℕ, ◌+◌, ◌-◌, ◌<◌, ◌≤◌, ◌^◌, [], ◌∷◌, ◌++◌, length, max, replicate, Some, None, IsSome, IfOk, IfSome, IfNone, option_map};
ghost use Rattle.dim_rag.specs.declared.entry.Edge.{Edge};
ghost use Rattle.dim_rag.specs.History.{past, mode, allow, hold, count, edge_of_wish, latest_wish};
ghost use Rattle.dim_rag.specs.Holder.{holder};
ghost use Rattle.dim_rag.specs.Counts.{times_held};
ghost use Rattle.dim_rag.specs.Fits.{Fits, FitsAfter, IsUnheld, IsInRange, IsYielding, AreInRange};
ghost use Rattle.dim_rag.specs.Tables.{HasLockBelow, held_by};
ghost use Rattle.dim_rag.specs.Rows.{idle_row};
ghost use Rattle.dim_rag.specs.Shown.{HasStack, shown};
ghost use Rattle.dim_rag.specs.Links.{link_of};

mod born;
mod causes;
mod chronicle;
mod cycles;
mod fits;
mod holder;
mod link;
mod replay;
mod row;
mod set;
mod starving;
mod stuck;
mod told;
mod trail;

use crate::entry::{Edge, Entry, Mode};
use crate::entry_ref::EntryRef;
use dim_base::{Lid, OutOfMemory, Tid};
use holder::Holder;
pub use holder::MOST_HOLDS;
use link::Link;
use replay::replay;
use row::Row;
pub use set::{is_member, without};
use std::alloc::Global;
use std::marker::Model;
use told::Told;
pub use trail::Trail;

/// The graph after exactly a list of entries that fits, told one by one. It keeps none of them, and
/// only their number.
///
/// A contract sees the numbers of threads and of locks, the entries, oldest first, and `spare`, how
/// many further entries may be told. No call but `new` takes memory.
#[derive(Drop)]
pub struct Graph {
    threads: u32,
    locks: u32,
    spare: u32,
    rows: Vec<Row>,
    holders: Vec<Holder>,
    /// How often each lock is held.
    counts: Vec<u8>,
    told: Told,
}

impl Model for Graph {
    ghost use Rattle.dim_rag.specs.Tables.{Replay};
    ghost use Rattle.dim_rag.specs.Rows.{IsGraph};

    ghost Value = { Replay };

    ghost view = { λ a. record { threads = a.threads; locks = a.locks; entries = a.told; spare = a.spare } };

    ghost invariant = { λ a. IsGraph a.threads a.locks a.spare a.rows.items a.holders.items a.counts.items a.told };
}

impl Graph {
    /// The graph of the empty list, for 1 to 32 threads and at most 256 locks.
    pub fn new(alloc: Global, threads: u32, locks: u32) -> Result<Graph, OutOfMemory>
        requires some { 1 ≤ threads }
        requires few { threads ≤ 32 }
        requires few_locks { locks ≤ 256 }
        ensures { IfOk result
            (λ graph. graph
            ≡ record { threads = threads; locks = locks; entries = []; spare = 0 }) }
    {
        let rows = idle_rows(alloc, threads)?;
        let holders = free_holders(alloc, locks)?;
        let counts = vec![in alloc; 0u8; locks as usize]?;
        Ok(Graph {
            threads,
            locks,
            spare: 0,
            rows,
            holders,
            counts,
            told: Told::new(),
        })
    }

    /// Allows at least `entries` further entries. The length and `entries` together are below 2^32.
    /// It takes no memory.
    pub fn reserve(&mut self, entries: u32)
        requires { length self.old.entries + entries < 2 ^ 32 }
        ensures { self.new ≡ record self.old { spare = max self.old.spare entries } }
    {
        self.spare = self.spare.max(entries);
    }

    /// Takes an entry that fits, while `spare` is at least 1. It costs the same at any length.
    pub fn enter(&mut self, e: &Entry)
        requires room { 1 ≤ self.old.spare }
        requires in_range { IsInRange self.old.threads self.old.locks e.now }
        requires fits { FitsAfter (past self.old.entries) e.now }
        ensures { self.new
            ≡ record self.old
            { entries = self.old.entries ++ e.now ∷ []; spare = self.old.spare - 1 } }
    {
        self.enter_ref(&EntryRef::of(e));
    }

    /// Takes an entry that fits and is given by reference, while `spare` is at least 1. It costs the
    /// same at any length.
    ///
    /// It is inlined, so that the kind of an entry is asked for once where it is known.
    #[inline(always)]
    pub fn enter_ref(&mut self, e: &EntryRef<'_>)
        requires room { 1 ≤ self.old.spare }
        requires stack { HasStack e.now }
        requires in_range { IsInRange self.old.threads self.old.locks (shown e.now) }
        requires fits { FitsAfter (past self.old.entries) (shown e.now) }
        ensures { self.new
            ≡ record self.old
            { entries = self.old.entries ++ shown e.now ∷ []; spare = self.old.spare - 1 } }
    {
        let place = self.told.len();
        replay(
            &mut self.rows,
            &mut self.holders,
            &mut self.counts,
            e,
            place,
        );
        self.told.tell(e);
        self.spare -= 1;
    }

    /// How many entries there are. They fit, each after those before it.
    pub fn len(&self) -> u32
        ensures len { result ≡ length self.now.entries }
        ensures fits { Fits (past self.now.entries) }
        ensures in_range { AreInRange self.now.threads self.now.locks (past self.now.entries) }
        ensures threads { (1 ≤ self.now.threads) × (self.now.threads ≤ 32) }
        ensures locks { self.now.locks ≤ 256 }
        ensures small { length self.now.entries + self.now.spare < 2 ^ 32 }
    {
        self.told.len()
    }

    /// How many threads there are, from 1 to 32.
    pub fn threads(&self) -> u32
        ensures threads { result ≡ self.now.threads }
        ensures few { result ≤ 32 }
    {
        self.threads
    }

    /// How many locks there are, from 0 to 256.
    pub fn locks(&self) -> u32
        ensures locks { result ≡ self.now.locks }
        ensures in_range { AreInRange self.now.threads self.now.locks (past self.now.entries) }
        ensures few { result ≤ 256 }
    {
        self.locks
    }

    /// The mode of a thread.
    pub fn mode(&self, t: Tid) -> Mode
        requires { t.0 < self.now.threads }
        ensures value { result ≡ mode t.0 (past self.now.entries) }
        ensures lock { HasLockBelow self.now.locks result }
    {
        self.rows[t.0 as usize].mode
    }

    /// The allow edge of a thread, which has at most one; none exactly where it has none on any
    /// lock.
    pub fn allow_of(&self, t: Tid) -> Option<Edge>
        requires { t.0 < self.now.threads }
        ensures some { IfSome result
            (λ e. (e.t ≡ t) × (allow t.0 e.l.0 (past self.now.entries) ≡ Some e)) }
        ensures none { IfNone result ((l : ℕ) → allow t.0 l (past self.now.entries) ≡ None) }
        ensures each { (l : ℕ) (x : Edge) → allow t.0 l (past self.now.entries) ≡ Some x
            → result ≡ Some x }
    {
        self.rows[t.0 as usize].allow_edge(t)
    }

    /// The edge that a thread which yields gets when it is broken out now: that of its latest Yield,
    /// born at this length.
    pub fn wished(&self, t: Tid) -> Option<Edge>
        requires in_range { t.0 < self.now.threads }
        requires yields { IsYielding t.0 (past self.now.entries) }
        ensures { result
            ≡ option_map (edge_of_wish t (length (past self.now.entries)))
            (latest_wish t.0 (past self.now.entries)) }
    {
        let place = self.told.len();
        self.rows[t.0 as usize].wished_edge(t, place)
    }

    /// The hold edge on a lock, which has at most one; none exactly where no thread holds it.
    pub fn holder(&self, l: Lid) -> Option<Edge>
        requires { l.0 < self.now.locks }
        ensures value { result ≡ holder self.now.threads l.0 (past self.now.entries) }
        ensures some { IfSome result (λ e. hold e.t.0 l.0 (past self.now.entries) ≡ Some e) }
        ensures none { IfNone result ((t : ℕ) → hold t l.0 (past self.now.entries) ≡ None) }
        ensures all { (t : ℕ) → hold t l.0 (past self.now.entries) ≡ held_by t result }
        ensures each { (t : ℕ) (x : Edge) → hold t l.0 (past self.now.entries) ≡ Some x
            → result ≡ Some x }
        ensures thread { IfSome result (λ e. e.t.0 < self.now.threads) }
    {
        self.holders[l.0 as usize].edge()
    }

    /// The thread that holds a lock; none exactly where no thread does. It copies no edge.
    pub fn owner(&self, l: Lid) -> Option<Tid>
        requires { l.0 < self.now.locks }
        ensures { result
            ≡ option_map (λ (e : Edge). e.t) (holder self.now.threads l.0 (past self.now.entries)) }
    {
        self.holders[l.0 as usize].owner()
    }

    /// The owner and the birth of the hold edge on a lock; none exactly where no thread holds it.
    fn holder_link(&self, l: Lid) -> Option<Link>
        requires { l.0 < self.now.locks }
        ensures value { result
            ≡ option_map link_of (holder self.now.threads l.0 (past self.now.entries)) }
        ensures thread { IfSome result (λ x. x.t.0 < self.now.threads) }
    {
        self.holders[l.0 as usize].link()
    }

    /// The birth of the hold edge of a thread on a lock; none exactly where the thread doesn't hold
    /// it. It copies no edge.
    pub fn hold_birth(&self, t: Tid, l: Lid) -> Option<u32>
        requires { l.0 < self.now.locks }
        ensures { result
            ≡ option_map (λ (e : Edge). e.birth) (hold t.0 l.0 (past self.now.entries)) }
    {
        self.holders[l.0 as usize].birth_held_by(t)
    }

    /// How often a lock is held by its holder, from 1 to 255, and 0 exactly where it is free.
    pub fn count(&self, l: Lid) -> u32
        requires { l.0 < self.now.locks }
        ensures value { result ≡ times_held self.now.threads l.0 (past self.now.entries) }
        ensures owner { (t : ℕ) → IsSome (hold t l.0 (past self.now.entries))
            → count t l.0 (past self.now.entries) ≡ result }
        ensures others { (t : ℕ) → hold t l.0 (past self.now.entries) ≡ None
            → count t l.0 (past self.now.entries) ≡ 0 }
        ensures free { IsUnheld l.0 (past self.now.entries) → result ≡ 0 }
        ensures most { result ≤ 255 }
    {
        u32::from(self.counts[l.0 as usize])
    }

    /// The hold edge of a thread on a lock; none exactly where the thread doesn't hold it.
    pub fn hold_of(&self, t: Tid, l: Lid) -> Option<Edge>
        requires { l.0 < self.now.locks }
        ensures { result ≡ hold t.0 l.0 (past self.now.entries) }
    {
        self.holders[l.0 as usize].held_by(t)
    }
}

/// A row for each thread.
fn idle_rows(alloc: Global, threads: u32) -> Result<Vec<Row>, OutOfMemory>
    ensures { IfOk result (λ rows. rows.items ≡ replicate threads idle_row) }
{
    let mut rows = Vec::new(alloc);
    for _ in 0..threads {
        rows.push(Row::idle())?;
    }
    Ok(rows)
}

/// No holder for each lock.
fn free_holders(alloc: Global, locks: u32) -> Result<Vec<Holder>, OutOfMemory>
    ensures { IfOk result (λ holders. holders.items ≡ replicate locks None) }
{
    let mut holders = Vec::new(alloc);
    for _ in 0..locks {
        holders.push(Holder::none())?;
    }
    Ok(holders)
}
