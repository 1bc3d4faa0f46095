//! The entries of a trace, followed one by one.
ghost use Rattle.std.specs.Prelude.{◌≡◌, ◌+◌, ◌-◌, ◌≤◌, ◌++◌, ◌∷◌, [], ℕ, length, slice_get, IfOk, OnOk, Some};
ghost use Rattle.dim_asm.specs.Code.{lock_count, thread_count};
ghost use Rattle.dim_rag.specs.Born.{all_edges};
ghost use Rattle.dim_rag.specs.Fits.{AreInRange, Fits, FitsAfter, IsInRange};
ghost use Rattle.dim_rag.specs.History.{past};
ghost use Rattle.dim_rag.specs.Shown.{HasStack, shown};
ghost use Rattle.dim_gate.specs.Gate.{Constants};
ghost use Rattle.dim_gate.specs.Legal.{Legal};
ghost use Rattle.dim_tune.specs.declared.lowered.Lowered.{Lowered};
ghost use Rattle.dim_tune.specs.Depths.{AreLeastDepths};
ghost use Rattle.dim_tune.specs.Innermost.{AreFiled};
ghost use Rattle.dim_tune.specs.Raised.{AreLowered, AreNext, depths_of};

use crate::innermost::Innermost;
use crate::lowered::Lowered;
use crate::raising::{all_lowered, raise_all};
use dim_asm::Program;
use dim_base::OutOfMemory;
use dim_cover::Index;
use dim_rag::{EntryRef, Graph};
use dim_signature::Catalogue;
use dim_trace::KeptTrace;
use std::alloc::Global;

/// The entries so far, and each loaded signature at the least depth at which they are legal.
#[derive(Drop)]
pub struct Follower {
    graph: Graph,
    /// The edges of the entries.
    index: Index,
    all: Vec<Lowered>,
}

impl Follower {
    /// No entry so far, with room for so many, and each signature at depth 1.
    pub fn new(
        alloc: Global,
        program: &Program,
        loaded: &Catalogue,
        entries: u32,
    ) -> Result<Follower, OutOfMemory>
        ensures threads { IfOk result (λ f. f.graph.threads ≡ thread_count program.now) }
        ensures locks { IfOk result (λ f. f.graph.locks ≡ lock_count program.now) }
        ensures empty { IfOk result (λ f. f.graph.entries ≡ []) }
        ensures room { IfOk result (λ f. entries ≤ f.graph.spare) }
        ensures index { IfOk result (λ f. f.index
            ≡ record { room = thread_count program.now + lock_count program.now; edges = [] }) }
        ensures lowered { IfOk result (λ f. AreLowered loaded.now.sigs f.all.items) }
        ensures ones { IfOk result (λ f. (i : ℕ) (x : Lowered) → slice_get f.all.items i ≡ Some x
            → x.depth ≡ 1) }
    {
        let mut graph = Graph::new(alloc, program.threads(), program.locks())?;
        graph.reserve(entries);
        let index = Index::new(alloc, program.threads(), program.locks())?;
        let all = all_lowered(alloc, loaded)?;
        Ok(Follower { graph, index, all })
    }

    /// Follows all entries of a trace.
    pub fn follow_all(
        &mut self,
        alloc: Global,
        loaded: &Catalogue,
        innermost: &Innermost,
        trace: &KeptTrace,
    ) -> Result<(), OutOfMemory>
        requires filed { AreFiled innermost.now.files loaded.now.sigs }
        requires empty { self.old.graph.entries ≡ [] }
        requires room { length trace.now.entries ≤ self.old.graph.spare }
        requires index { self.old.index
            ≡ record {
              room = self.old.graph.threads + self.old.graph.locks;
              edges = [];
            } }
        requires fits { Fits (past trace.now.entries) }
        requires in_range { AreInRange self.old.graph.threads self.old.graph.locks
            (past trace.now.entries) }
        requires lowered { AreLowered loaded.now.sigs self.old.all.items }
        requires ones { (i : ℕ) (x : Lowered) → slice_get self.old.all.items i ≡ Some x
            → x.depth ≡ 1 }
        ensures { (c : Constants) → c.loaded ≡ loaded.now.sigs
            → Legal c (past trace.now.entries)
            → OnOk result (AreLeastDepths c (past trace.now.entries)
            (depths_of self.new.all.items)) }
    {
        for place in 0..trace.len() {
            self.follow(alloc, loaded, innermost, &trace.look(place))?;
        }
        Ok(())
    }

    /// Follows the entry that comes next.
    fn follow(
        &mut self,
        alloc: Global,
        loaded: &Catalogue,
        innermost: &Innermost,
        e: &EntryRef<'_>,
    ) -> Result<(), OutOfMemory>
        requires filed { AreFiled innermost.now.files loaded.now.sigs }
        requires room { 1 ≤ self.old.graph.spare }
        requires stack { HasStack e.now }
        requires in_range { IsInRange self.old.graph.threads self.old.graph.locks (shown e.now) }
        requires fits { FitsAfter (past self.old.graph.entries) (shown e.now) }
        requires index { self.old.index
            ≡ record {
              room = self.old.graph.threads + self.old.graph.locks;
              edges = all_edges (past self.old.graph.entries);
            } }
        requires lowered { AreLowered loaded.now.sigs self.old.all.items }
        ensures graph { OnOk result (self.new.graph ≡ record self.old.graph {
          entries = self.old.graph.entries ++ shown e.now ∷ [];
          spare = self.old.graph.spare - 1;
        }) }
        ensures index { OnOk result (self.new.index
            ≡ record self.old.index
            { edges = all_edges (shown e.now ∷ past self.old.graph.entries) }) }
        ensures lowered { OnOk result (AreLowered loaded.now.sigs self.new.all.items) }
        ensures next { OnOk result (AreNext loaded.now.sigs (past self.old.graph.entries)
            (shown e.now) self.old.all.items self.new.all.items) }
    {
        raise_all(
            alloc,
            &mut self.all,
            loaded,
            innermost,
            &self.graph,
            &self.index,
            e,
        )?;
        self.index.tell_ref(&self.graph, e);
        self.graph.enter_ref(e);
        Ok(())
    }

    /// The depths at which the signatures are tried, in order.
    pub fn depths(&self, alloc: Global) -> Result<Vec<u8>, OutOfMemory>
        ensures { IfOk result (λ depths. depths.items
            ≡ depths_of self.now.all.items) }
    {
        let mut depths = Vec::new(alloc);
        for x in &self.all {
            depths.push(x.depth)?;
        }
        Ok(depths)
    }
}
