//! What a gate knows beside the graph of its history.
ghost use Rattle.std.specs.Prelude.{◌≡◌, ℕ, ◌+◌, ◌-◌, ◌≤◌, ◌∷◌, ◌++◌, [], length, take, is_some, IfOk, None, Option};
ghost use Rattle.dim_rag.specs.declared.entry.Entry.TheVariants.{Learn};
ghost use Rattle.dim_rag.specs.History.{past};
ghost use Rattle.dim_rag.specs.Fits.{FitsAfter, IsInRange};
ghost use Rattle.dim_rag.specs.Shown.{HasStack, shown};
ghost use Rattle.dim_rag.specs.Tables.{Replay};
ghost use Rattle.dim_signature.specs.Catalogue.{signature_number};
ghost use Rattle.dim_cover.specs.Shelf.{IsShelf};
ghost use Rattle.dim_gate.specs.FeedId.{FeedId};
ghost use Rattle.dim_gate.specs.Gate.{constants, gate_at};
ghost use Rattle.dim_gate.specs.Known.{known_sigs, learnt_sigs, stacks_of};
ghost use Rattle.dim_gate.specs.Starved.{learn_fault, is_unlearnt};
ghost use Rattle.dim_gate.specs.Invariant.{HasEdges, Knows, MayLearn, MayShelve};
ghost use Rattle.dim_gate.specs.Answer.{reply_of, MayGive};
ghost use Rattle.dim_gate.specs.Legal.{IsLegalAfter};

use crate::stacks::EdgeStacks;
use crate::tender;
use crate::tender::{break_out, learn};
use crate::threads::{acquire, end, release};
use dim_base::{OutOfMemory, Tid};
use dim_cover::{Index, Shelf};
use dim_rag::{Births, Command, EntryRef, Graph, Reply, Tables};
use dim_signature::Catalogue;
use std::alloc::Global;

/// The edges of a history, and the signatures that are known after it: those that were loaded, and
/// then those that were learnt.
#[derive(Drop)]
pub struct Knowledge {
    /// The edges of the history where a signature is known, and else none, since they are looked at
    /// only for a cover of a signature.
    pub index: Index,
    pub catalogue: Catalogue,
    /// The signatures of the catalogue, by their stacks.
    pub shelf: Shelf,
    /// How many signatures were loaded.
    pub loaded: u32,
    /// The depth of those that are learnt.
    pub depth: u8,
    /// How many may be known.
    pub cap: u32,
}

impl Knowledge {
    /// What is known of the empty history, where at most `learns` signatures may be learnt, each
    /// with this depth.
    pub fn new(
        alloc: Global,
        threads: u32,
        locks: u32,
        loaded: Catalogue,
        depth: u8,
        learns: u32,
    ) -> Result<Knowledge, OutOfMemory>
        requires some { 1 ≤ threads }
        requires few { threads ≤ 32 }
        requires few_locks { locks ≤ 256 }
        requires low { 1 ≤ depth }
        requires high { depth ≤ 32 }
        requires few_known { length loaded.sigs + learns ≤ 4096 }
        ensures knows { IfOk result
            (λ k. Knows record { threads = threads; locks = locks; entries = []; spare = 0 } k) }
        ensures loaded { IfOk result (λ k. take k.loaded k.catalogue.sigs ≡ loaded.sigs) }
        ensures depth { IfOk result (λ k. k.depth ≡ depth) }
        ensures cap { IfOk result (λ k. k.cap ≡ length loaded.sigs + learns) }
    {
        let index = Index::new(alloc, threads, locks)?;
        let known = loaded.len();
        let mut catalogue = loaded;
        catalogue.reserve(learns)?;
        let shelf = Shelf::new(alloc, &catalogue, learns)?;
        Ok(Knowledge {
            index,
            catalogue,
            shelf,
            loaded: known,
            depth,
            cap: known + learns,
        })
    }

    /// What is answered to a caller's command.
    ///
    /// It is inlined, since commands and replies are large, and would else be copied on their way.
    #[inline(always)]
    pub fn decide(&self, graph: &Graph, caller: u32, cmd: &Command) -> Reply
        requires knows { Knows graph.now self.now }
        requires allowed { MayGive (constants (gate_at graph.now self.now None)) caller cmd.now }
        ensures { result
            ≡ reply_of (constants (gate_at graph.now self.now None)) caller cmd.now
            (past graph.now.entries) }
    {
        let (catalogue, cap) = (&self.catalogue, self.cap);
        let t = Tid(caller);
        match cmd {
            Command::Request { l, stack } => self.request(graph, t, *l, stack),
            Command::Acquire { l } => acquire(graph, t, *l),
            Command::Release { l } => release(graph, t, *l),
            Command::Try { l, stack } => self.attempt(graph, t, *l, stack),
            Command::End { why } => end(graph, t, *why),
            Command::Break { set, t } => break_out(graph, catalogue, cap, *set, *t),
            Command::Learn { births } => learn(graph, catalogue, cap, births),
        }
    }

    /// Takes in what an entry makes known that comes next. It takes no memory.
    ///
    /// It is inlined, so that the kind of an entry is asked for once where it is known.
    #[inline(always)]
    pub fn take_in(&mut self, graph: &Graph, e: &EntryRef<'_>)
        requires knows { Knows graph.now self.old }
        requires stack { HasStack e.now }
        requires legal { IsLegalAfter (constants (gate_at graph.now self.old None))
            (past graph.now.entries) (shown e.now) }
        ensures knows { (spare : ℕ) → Knows record graph.now
            { entries = graph.now.entries ++ shown e.now ∷ []; spare = spare } self.new }
        ensures same { (r : Replay) (feed : Option FeedId) → gate_at r self.new feed
            ≡ gate_at r self.old feed }
    {
        let _few = graph.len(); // for the contract: the entries fit, and there are few
        let known = self.catalogue.len();
        note_learnt(&mut self.catalogue, &mut self.shelf, graph, self.depth, e);
        tell_index(&mut self.index, &self.catalogue, graph, e, known);
    }

    /// Enters an entry into tables that comes next, and takes in what it makes known.
    ///
    /// It isn't inlined, so that what answers a command stays small enough to be inlined itself.
    #[inline(never)]
    pub fn enter(&mut self, tables: &mut Tables, e: &EntryRef<'_>)
        requires room { 1 ≤ tables.old.spare }
        requires knows { Knows tables.old self.old }
        requires stack { HasStack e.now }
        requires legal { IsLegalAfter (constants (gate_at tables.old self.old None))
            (past tables.old.entries) (shown e.now) }
        ensures tables { tables.new
            ≡ record tables.old
            { entries = tables.old.entries ++ shown e.now ∷ []; spare = tables.old.spare - 1 } }
        ensures knows { Knows tables.new self.new }
        ensures same { (r : Replay) (feed : Option FeedId) → gate_at r self.new feed
            ≡ gate_at r self.old feed }
    {
        let _few = tables.len(); // for the contract: the entries fit, and there are few
        self.take_in(tables.graph(), e);
        tables.enter_ref(e);
    }

    /// Whether the signature of a cycle or of a starvation is known.
    pub fn knows(&self, graph: &Graph, births: &Births) -> bool
        requires knows { Knows graph.now self.now }
        requires fault { learn_fault graph.now.threads graph.now.locks (past graph.now.entries)
            births.now ≡ None }
        ensures { result
            ≡ is_some
            (signature_number
            (known_sigs (take self.now.loaded self.now.catalogue.sigs) self.now.depth
            (past graph.now.entries)) (stacks_of births.now (past graph.now.entries))) }
    {
        tender::knows(graph, &self.catalogue, births)
    }

    /// Whether the signature of a starvation is to be learnt before its Break.
    pub fn is_unlearnt(&self, graph: &Graph, births: &Births) -> bool
        requires knows { Knows graph.now self.now }
        requires fault { learn_fault graph.now.threads graph.now.locks (past graph.now.entries)
            births.now ≡ None }
        ensures { result
            ≡ is_unlearnt self.now.cap
            (known_sigs (take self.now.loaded self.now.catalogue.sigs) self.now.depth
            (past graph.now.entries)) (past graph.now.entries) births.now }
    {
        tender::is_unlearnt(graph, &self.catalogue, self.cap, births)
    }
}

/// Tells an index the entry that comes next, where a signature is known with it. Where none was known
/// before it, the index first takes in the edges that stand.
#[inline(always)]
fn tell_index(index: &mut Index, catalogue: &Catalogue, graph: &Graph, e: &EntryRef<'_>, known: u32)
    requires room { index.old.room ≡ graph.now.threads + graph.now.locks }
    requires edges { HasEdges known index.old.edges (past graph.now.entries) }
    requires more { known ≤ length catalogue.now.sigs }
    requires stack { HasStack e.now }
    requires in_range { IsInRange graph.now.threads graph.now.locks (shown e.now) }
    requires fits { FitsAfter (past graph.now.entries) (shown e.now) }
    ensures edges { HasEdges (length catalogue.now.sigs) index.new.edges
        (shown e.now ∷ past graph.now.entries) }
    ensures room { index.new.room ≡ index.old.room }
{
    if catalogue.len() == 0 {
        return;
    }
    if known == 0 {
        index.catch_up(graph);
    }
    index.tell_ref(graph, e);
}

/// Puts a signature that is learnt into the catalogue and onto the shelf.
fn note_learnt(
    catalogue: &mut Catalogue,
    shelf: &mut Shelf,
    graph: &Graph,
    depth: u8,
    e: &EntryRef<'_>,
)
    requires low { 1 ≤ depth }
    requires high { depth ≤ 32 }
    requires may { MayLearn graph.now.threads graph.now.locks catalogue.old
        (past graph.now.entries) (shown e.now) }
    requires shelf { IsShelf shelf.old catalogue.old.sigs }
    requires spare { MayShelve shelf.old.spare (shown e.now) }
    ensures sigs { catalogue.new.sigs ≡ catalogue.old.sigs ++ learnt_sigs depth (shown e.now)
        (past graph.now.entries) }
    ensures room { length catalogue.new.sigs + catalogue.new.spare
        ≡ length catalogue.old.sigs + catalogue.old.spare }
    ensures shelf { IsShelf shelf.new catalogue.new.sigs }
    ensures shelf_room { length catalogue.new.sigs + shelf.new.spare
        ≡ length catalogue.old.sigs + shelf.old.spare }
{
    if let EntryRef::Learn { births } = e {
        enter_learnt(catalogue, shelf, graph, depth, births);
    }
}

/// Puts the signature of the cycle or the starvation with these births into the catalogue and onto
/// the shelf.
///
/// It isn't inlined, since its table of stacks is large and a function fills its locals each time
/// that it is called.
#[inline(never)]
fn enter_learnt(
    catalogue: &mut Catalogue,
    shelf: &mut Shelf,
    graph: &Graph,
    depth: u8,
    births: &Births,
)
    requires low { 1 ≤ depth }
    requires high { depth ≤ 32 }
    requires may { MayLearn graph.now.threads graph.now.locks catalogue.old
        (past graph.now.entries) (Learn births.now) }
    requires shelf { IsShelf shelf.old catalogue.old.sigs }
    requires spare { MayShelve shelf.old.spare (Learn births.now) }
    ensures sigs { catalogue.new.sigs ≡ catalogue.old.sigs ++ learnt_sigs depth (Learn births.now)
        (past graph.now.entries) }
    ensures room { length catalogue.new.sigs + catalogue.new.spare
        ≡ length catalogue.old.sigs + catalogue.old.spare }
    ensures shelf { IsShelf shelf.new catalogue.new.sigs }
    ensures shelf_room { length catalogue.new.sigs + shelf.new.spare
        ≡ length catalogue.old.sigs + shelf.old.spare }
{
    let stacks = EdgeStacks::of(graph, births);
    catalogue.learn(depth, stacks.as_slice());
    shelf.learn(catalogue);
}
