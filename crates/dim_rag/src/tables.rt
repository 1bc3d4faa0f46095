//! Tables that replay the entries of a gate's history, and keep them.
ghost use Rattle.std.specs.Prelude.{◌≡◌, ℕ, ◌+◌, ◌-◌, ◌<◌, ◌≤◌, ◌^◌, ◌↔◌, IsTrue, [], ◌∷◌, ◌++◌, length, slice_get, map, max, Some, None, IsSome, IfOk, OnOk, OnErr, IfSome, IfNone, MatchResult, option_map};
ghost use Rattle.dim_base.specs.declared.Tid.{Tid};
ghost use Rattle.dim_rag.specs.declared.entry.Edge.{Edge};
ghost use Rattle.dim_rag.specs.History.{past, mode, allow, hold, count, latest_wish};
ghost use Rattle.dim_rag.specs.Holder.{holder};
ghost use Rattle.dim_rag.specs.Counts.{times_held};
ghost use Rattle.dim_rag.specs.Fits.{Fits, FitsAfter, IsUnheld, IsInRange, AreInRange};
ghost use Rattle.dim_rag.specs.Asks.{may_ask, IsReady};
ghost use Rattle.dim_rag.specs.Tables.{HasLockBelow, held_by};
ghost use Rattle.dim_rag.specs.Born.{IsEdge, edge_born};
ghost use Rattle.dim_rag.specs.Edges.{standing};
ghost use Rattle.dim_rag.specs.Waits.{waits};
ghost use Rattle.dim_rag.specs.Certificate.{held_at, cycle_fault};
ghost use Rattle.dim_rag.specs.Stuck.{IsStuck, IsFirstFree, stale, choice};
ghost use Rattle.dim_rag.specs.Starvation.{starvation_fault, starved};
ghost use Rattle.dim_rag.specs.Shown.{HasStack, shown};
ghost use Rattle.dim_rag.specs.Yielded.{yielded};

use crate::births::Births;
use crate::entry::{Edge, Entry, Mode};
use crate::entry_ref::EntryRef;
use crate::graph::Graph;
use crate::journal::Journal;
use dim_base::{Lid, OutOfMemory, Tid};
use dim_stack::Stack;
use std::alloc::Global;
use std::marker::Model;

/// The replay of a list of entries that fits: what edges, modes and cycles there are after exactly
/// that list.
///
/// They are a graph, which answers, and a journal, which keeps the entries. A contract sees the
/// numbers of threads and of locks, the entries, oldest first, and `spare`, for how many further
/// entries there is room. No call but `new`, `reserve` and `entries` takes memory.
#[derive(Drop)]
pub struct Tables {
    graph: Graph,
    journal: Journal,
}

impl Model for Tables {
    ghost use Rattle.std.specs.Prelude.{◌≡◌};
    ghost use Rattle.dim_rag.specs.Tables.{Replay};

    ghost Value = { Replay };

    ghost view = { λ a. a.graph };

    ghost invariant = { λ a. (a.journal.entries ≡ a.graph.entries) × (a.journal.spare ≡ a.graph.spare) };
}

impl Tables {
    /// The tables of the empty list, for 1 to 32 threads and at most 256 locks.
    pub fn new(alloc: Global, threads: u32, locks: u32) -> Result<Tables, OutOfMemory>
        requires some { 1 ≤ threads }
        requires few { threads ≤ 32 }
        requires few_locks { locks ≤ 256 }
        ensures { IfOk result
            (λ tables. tables
            ≡ record { threads = threads; locks = locks; entries = []; spare = 0 }) }
    {
        let graph = Graph::new(alloc, threads, locks)?;
        let journal = Journal::new(alloc);
        Ok(Tables { graph, journal })
    }

    /// Makes room for at least `entries` further entries. The length and `entries` together are
    /// below 2^32.
    ///
    /// Where memory runs out, all is as before.
    pub fn reserve(&mut self, entries: u32) -> Result<(), OutOfMemory>
        requires { length self.old.entries + entries < 2 ^ 32 }
        ensures ok { OnOk result
            (self.new ≡ record self.old { spare = max self.old.spare entries }) }
        ensures err { OnErr result (self.new ≡ self.old) }
    {
        self.journal.reserve(entries)?;
        self.graph.reserve(entries);
        Ok(())
    }

    /// Appends an entry that fits, in the room that there is. It costs the same at any length.
    pub fn push(&mut self, e: Entry)
        requires room { 1 ≤ self.old.spare }
        requires in_range { IsInRange self.old.threads self.old.locks e }
        requires fits { FitsAfter (past self.old.entries) e }
        ensures { self.new
            ≡ record self.old { entries = self.old.entries ++ e ∷ []; spare = self.old.spare - 1 } }
    {
        self.enter(&e);
    }

    /// Appends an entry that fits and that stays the caller's, in the room that there is. It costs
    /// the same at any length.
    pub fn enter(&mut self, e: &Entry)
        requires room { 1 ≤ self.old.spare }
        requires in_range { IsInRange self.old.threads self.old.locks e.now }
        requires fits { FitsAfter (past self.old.entries) e.now }
        ensures { self.new
            ≡ record self.old
            { entries = self.old.entries ++ e.now ∷ []; spare = self.old.spare - 1 } }
    {
        self.enter_ref(&EntryRef::of(e));
    }

    /// Appends an entry that fits and is given by reference, in the room that there is. It costs the
    /// same at any length, and makes no entry.
    ///
    /// It is inlined, so that the kind of an entry is asked for once where it is known.
    #[inline(always)]
    pub fn enter_ref(&mut self, e: &EntryRef<'_>)
        requires room { 1 ≤ self.old.spare }
        requires stack { HasStack e.now }
        requires in_range { IsInRange self.old.threads self.old.locks (shown e.now) }
        requires fits { FitsAfter (past self.old.entries) (shown e.now) }
        ensures { self.new
            ≡ record self.old
            { entries = self.old.entries ++ shown e.now ∷ []; spare = self.old.spare - 1 } }
    {
        let _few = self.graph.len(); // for the contract: there are few threads and locks
        self.graph.enter_ref(e);
        self.journal.push_ref(e);
    }

    /// The entry at a place below the length.
    pub fn entry(&self, place: u32) -> Entry
        requires { place < length self.now.entries }
        ensures { slice_get self.now.entries place ≡ Some result }
    {
        self.journal.entry(place)
    }

    /// The entry at a place below the length, by reference. It makes no entry, and takes no memory.
    ///
    /// It is inlined, so that the kind of an entry is asked for once where it is looked at.
    #[inline(always)]
    pub fn look(&self, place: u32) -> EntryRef<'_>
        requires { place < length self.now.entries }
        ensures { slice_get self.now.entries place ≡ Some (shown result) }
    {
        self.journal.look(place)
    }

    /// The number of the signature that the entry at a place names, where it is a Yield. The place
    /// is below the length.
    ///
    /// It makes no entry, and takes no memory.
    pub fn yielded(&self, place: u32) -> Option<u32>
        requires { place < length self.now.entries }
        ensures { slice_get (map yielded self.now.entries) place ≡ Some result }
    {
        self.journal.yielded(place)
    }

    /// The entries in full, oldest first, in a list of their own, which takes more than 400 bytes
    /// for each.
    pub fn entries(&self, alloc: Global) -> Result<Vec<Entry>, OutOfMemory>
        ensures { IfOk result (λ all. all.items ≡ self.now.entries) }
    {
        self.journal.entries(alloc)
    }

    /// The graph of the entries.
    pub fn graph(&self) -> &Graph
        ensures { result.now ≡ self.now }
    {
        &self.graph
    }

    /// How many entries there are. They fit, each after those before it.
    pub fn len(&self) -> u32
        ensures len { result ≡ length self.now.entries }
        ensures fits { Fits (past self.now.entries) }
        ensures in_range { AreInRange self.now.threads self.now.locks (past self.now.entries) }
        ensures threads { (1 ≤ self.now.threads) × (self.now.threads ≤ 32) }
        ensures locks { self.now.locks ≤ 256 }
        ensures small { length self.now.entries + self.now.spare < 2 ^ 32 }
    {
        self.graph.len()
    }

    /// How many threads there are, from 1 to 32.
    pub fn threads(&self) -> u32
        ensures threads { result ≡ self.now.threads }
        ensures few { result ≤ 32 }
    {
        self.graph.threads()
    }

    /// How many locks there are, from 0 to 256.
    pub fn locks(&self) -> u32
        ensures locks { result ≡ self.now.locks }
        ensures in_range { AreInRange self.now.threads self.now.locks (past self.now.entries) }
        ensures few { result ≤ 256 }
    {
        self.graph.locks()
    }

    /// The mode of a thread.
    pub fn mode(&self, t: Tid) -> Mode
        requires { t.0 < self.now.threads }
        ensures value { result ≡ mode t.0 (past self.now.entries) }
        ensures lock { HasLockBelow self.now.locks result }
    {
        self.graph.mode(t)
    }

    /// The allow edge of a thread, which has at most one; none exactly where it has none on any
    /// lock.
    pub fn allow_of(&self, t: Tid) -> Option<Edge>
        requires { t.0 < self.now.threads }
        ensures some { IfSome result
            (λ e. (e.t ≡ t) × (allow t.0 e.l.0 (past self.now.entries) ≡ Some e)) }
        ensures none { IfNone result ((l : ℕ) → allow t.0 l (past self.now.entries) ≡ None) }
        ensures each { (l : ℕ) (x : Edge) → allow t.0 l (past self.now.entries) ≡ Some x
            → result ≡ Some x }
    {
        self.graph.allow_of(t)
    }

    /// The hold edge on a lock, which has at most one; none exactly where no thread holds it.
    pub fn holder(&self, l: Lid) -> Option<Edge>
        requires { l.0 < self.now.locks }
        ensures value { result ≡ holder self.now.threads l.0 (past self.now.entries) }
        ensures some { IfSome result (λ e. hold e.t.0 l.0 (past self.now.entries) ≡ Some e) }
        ensures none { IfNone result ((t : ℕ) → hold t l.0 (past self.now.entries) ≡ None) }
        ensures all { (t : ℕ) → hold t l.0 (past self.now.entries) ≡ held_by t result }
        ensures each { (t : ℕ) (x : Edge) → hold t l.0 (past self.now.entries) ≡ Some x
            → result ≡ Some x }
        ensures thread { IfSome result (λ e. e.t.0 < self.now.threads) }
    {
        self.graph.holder(l)
    }

    /// The thread that holds a lock; none exactly where no thread does. It copies no edge.
    pub fn owner(&self, l: Lid) -> Option<Tid>
        requires { l.0 < self.now.locks }
        ensures { result
            ≡ option_map (λ (e : Edge). e.t) (holder self.now.threads l.0 (past self.now.entries)) }
    {
        self.graph.owner(l)
    }

    /// The birth of the hold edge of a thread on a lock; none exactly where the thread doesn't hold
    /// it. It copies no edge.
    pub fn hold_birth(&self, t: Tid, l: Lid) -> Option<u32>
        requires { l.0 < self.now.locks }
        ensures { result
            ≡ option_map (λ (e : Edge). e.birth) (hold t.0 l.0 (past self.now.entries)) }
    {
        self.graph.hold_birth(t, l)
    }

    /// How often a lock is held by its holder, from 1 to 255, and 0 exactly where it is free.
    pub fn count(&self, l: Lid) -> u32
        requires { l.0 < self.now.locks }
        ensures value { result ≡ times_held self.now.threads l.0 (past self.now.entries) }
        ensures owner { (t : ℕ) → IsSome (hold t l.0 (past self.now.entries))
            → count t l.0 (past self.now.entries) ≡ result }
        ensures others { (t : ℕ) → hold t l.0 (past self.now.entries) ≡ None
            → count t l.0 (past self.now.entries) ≡ 0 }
        ensures free { IsUnheld l.0 (past self.now.entries) → result ≡ 0 }
        ensures most { result ≤ 255 }
    {
        self.graph.count(l)
    }

    /// The hold edge of a thread on a lock; none exactly where the thread doesn't hold it.
    pub fn hold_of(&self, t: Tid, l: Lid) -> Option<Edge>
        requires { l.0 < self.now.locks }
        ensures { result ≡ hold t.0 l.0 (past self.now.entries) }
    {
        self.graph.hold_of(t, l)
    }

    /// Whether an entry may come next: its thread and its lock, where it has them, are in range,
    /// and the mode of its thread and the holder of its lock allow it.
    pub fn fits(&self, e: &Entry) -> bool
        ensures { IsTrue result
            ↔ (IsInRange self.now.threads self.now.locks e.now
            × FitsAfter (past self.now.entries) e.now) }
    {
        self.graph.fits(e)
    }

    /// Whether a thread runs, or yields on this lock with this stack.
    pub fn may_ask(&self, t: Tid, l: Lid, stack: &Stack) -> bool
        requires { t.0 < self.now.threads }
        ensures value { result ≡ may_ask l stack.now (mode t.0 (past self.now.entries))
            (latest_wish t.0 (past self.now.entries)) }
        ensures ready { IsTrue result → IsReady t.0 l stack.now (past self.now.entries) }
        ensures always { IsReady t.0 l stack.now (past self.now.entries) → IsTrue result }
    {
        self.graph.may_ask(t, l, stack)
    }

    /// The allow or hold edge with a birth, which is one at most; none exactly where there is none.
    ///
    /// It looks at each thread and then at each lock, so it costs the same at any length.
    pub fn edge_born(&self, birth: u32) -> Option<Edge>
        ensures value { result ≡ edge_born (past self.now.entries) birth }
        ensures some { IfSome result (λ e. IsEdge (past self.now.entries) e × (e.birth ≡ birth)) }
        ensures each { (e : Edge) → IsEdge (past self.now.entries) e → e.birth ≡ birth
            → result ≡ Some e }
        ensures in_range { IfSome result (λ e. (e.t.0 < self.now.threads)
            × (e.l.0 < self.now.locks)) }
    {
        self.graph.edge_born(birth)
    }

    /// The first cause, in order of position, of a thread that yields and whose causes all stand.
    ///
    /// None exactly where the thread doesn't yield, or is woken: a cause of its Yield has ended, or
    /// it had none.
    pub fn standing(&self, t: Tid) -> Option<u32>
        requires { t.0 < self.now.threads }
        ensures { result ≡ standing self.now.threads self.now.locks t.0 (past self.now.entries) }
    {
        self.graph.standing(t)
    }

    /// The first position that keeps a list of places from being the births of a cycle, position by
    /// position.
    ///
    /// Position `i` passes where its place is the birth of a hold edge, whose owner is allowed on
    /// the lock of the hold edge with the next birth, and, for `i` above 0, has a greater number
    /// than the owner at position 0. Behind the last position comes the first. A list shorter than
    /// 2 fails at 0.
    pub fn is_cycle(&self, births: &Births) -> Result<(), u32>
        ensures { MatchResult result
            (λ done. cycle_fault self.now.threads self.now.locks (past self.now.entries) births.now
            ≡ None)
            (λ i. cycle_fault self.now.threads self.now.locks (past self.now.entries) births.now
            ≡ Some i) }
    {
        self.graph.is_cycle(births)
    }

    /// The hold edge on the lock on which a thread is allowed; none exactly where it is allowed on
    /// none, or nobody holds that.
    pub fn waits_for(&self, t: Tid) -> Option<Edge>
        requires { t.0 < self.now.threads }
        ensures value { result ≡ waits self.now.threads (past self.now.entries) t.0 }
        ensures thread { IfSome result (λ e. e.t.0 < self.now.threads) }
    {
        self.graph.waits_for(t)
    }

    /// The hold edge with a birth; none exactly where no lock has one.
    pub fn held_at(&self, place: u32) -> Option<Edge>
        ensures value { result ≡ held_at self.now.threads self.now.locks (past self.now.entries)
            place }
        ensures thread { IfSome result (λ e. e.t.0 < self.now.threads) }
    {
        self.graph.held_at(place)
    }

    /// The least member of a set that keeps it from being stuck, or whose number is no thread.
    ///
    /// A member may be one where it has ended, or is allowed on a lock that a member holds, or
    /// yields with causes that all stand and whose owners are all members.
    pub fn is_stuck(&self, set: u32) -> Result<(), Tid>
        ensures reading { MatchResult result
            (λ done. IsStuck self.now.threads self.now.locks (past self.now.entries) set)
            (λ t. IsFirstFree self.now.threads self.now.locks (past self.now.entries) set t.0) }
        ensures value { MatchResult result
            (λ done. stale self.now.threads self.now.locks (past self.now.entries) set ≡ None)
            (λ t. stale self.now.threads self.now.locks (past self.now.entries) set ≡ Some t.0) }
    {
        self.graph.is_stuck(set)
    }

    /// The member of a set that yields and holds the most locks, and of these the one with the
    /// least number.
    ///
    /// None exactly where no member yields.
    pub fn choice(&self, set: u32) -> Option<Tid>
        ensures { option_map (λ (t : Tid). t.0) result
            ≡ choice set self.now.locks (past self.now.entries) self.now.threads }
    {
        self.graph.choice(set)
    }
    /// The births of the starvation of a stuck set with a choice: the one that following steps from
    /// the choice runs into.
    ///
    /// A thread steps to the hold edge on the lock on which it is allowed, or, where it yields and
    /// all its causes stand, to the edge of the first of them. None exactly where the set has no
    /// starvation, and where it has no choice.
    pub fn starved(&self, set: u32) -> Option<Births>
        ensures value { result ≡ starved self.now.threads self.now.locks (past self.now.entries)
            set }
        ensures certified { IfSome result
            (λ b. starvation_fault self.now.threads self.now.locks (past self.now.entries) b
            ≡ None) }
    {
        self.graph.starved(set)
    }

    /// The first position that keeps a list of places from being the births of a starvation,
    /// position by position.
    ///
    /// Position `i` passes where its place is the birth of an edge, whose owner steps to the edge
    /// with the next birth and, for `i` above 0, has a greater number than the owner at position 0,
    /// and whose lock differs from those of the positions before it. Behind the last position comes
    /// the first. A list shorter than 2 fails at 0, and so does one where every position passes and
    /// no owner yields.
    pub fn is_starved(&self, births: &Births) -> Result<(), u32>
        ensures { MatchResult result
            (λ done. starvation_fault self.now.threads self.now.locks (past self.now.entries)
            births.now ≡ None)
            (λ i. starvation_fault self.now.threads self.now.locks (past self.now.entries)
            births.now ≡ Some i) }
    {
        self.graph.is_starved(births)
    }
}
