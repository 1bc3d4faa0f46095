//! A gate that keeps no entry.
ghost use Rattle.std.specs.Prelude.{◌≡◌, ◌+◌, ◌≤◌, ◌<◌, ◌^◌, ◌↔◌, length, max, is_some, IfOk, IsTrue, None, Some};
ghost use Rattle.dim_rag.specs.History.{past};
ghost use Rattle.dim_rag.specs.Made.{entry_by};
ghost use Rattle.dim_rag.specs.Shown.{HasStack, shown};
ghost use Rattle.dim_rag.specs.declared.command.Command.TheVariants.{Acquire, Release};
ghost use Rattle.dim_rag.specs.declared.entry.Entry.TheVariants.{Got, Free};
ghost use Rattle.dim_signature.specs.Catalogue.{signature_number};
ghost use Rattle.dim_gate.specs.Gate.{constants, first_gate, replay, gate_after};
ghost use Rattle.dim_gate.specs.Known.{known_sigs, stacks_of};
ghost use Rattle.dim_gate.specs.Starved.{learn_fault};
ghost use Rattle.dim_gate.specs.Answer.{reply_of, entry_of, MayGive};
ghost use Rattle.dim_gate.specs.Legal.{IsLegalAfter, Legal};
ghost use Rattle.dim_gate.specs.Replies.{is_freed, is_got};

use crate::knowledge::Knowledge;
use crate::threads::{acquire, release};
use dim_base::{Lid, OutOfMemory, Tid};
use dim_rag::{Births, Command, EntryRef, Graph, Reply};
use dim_signature::Catalogue;
use std::alloc::Global;
use std::marker::Model;

/// A gate whose entries are kept elsewhere, if at all: it answers as `GateState` does, and keeps of
/// its history but what the answers need. It has no feed.
///
/// A contract sees what it sees of a `GateState`, the entries too. No call but `new` takes memory.
#[derive(Drop)]
pub struct LeanGate {
    graph: Graph,
    knowledge: Knowledge,
}

impl Model for LeanGate {
    ghost use Rattle.std.specs.Prelude.{None};
    ghost use Rattle.dim_gate.specs.Gate.{Gate, gate_at};
    ghost use Rattle.dim_gate.specs.Invariant.{Knows};

    ghost Value = { Gate };

    ghost view = { λ a. gate_at a.graph a.knowledge None };

    ghost invariant = { λ a. Knows a.graph a.knowledge };
}

impl LeanGate {
    /// The gate of the empty history, where at most `learns` signatures may be learnt, each with
    /// this depth.
    pub fn new(
        alloc: Global,
        threads: u32,
        locks: u32,
        loaded: Catalogue,
        depth: u8,
        learns: u32,
    ) -> Result<LeanGate, OutOfMemory>
        requires some { 1 ≤ threads }
        requires few { threads ≤ 32 }
        requires few_locks { locks ≤ 256 }
        requires low { 1 ≤ depth }
        requires high { depth ≤ 32 }
        requires few_known { length loaded.sigs + learns ≤ 4096 }
        ensures { IfOk result
            (λ gate. gate
            ≡ first_gate None
            record {
              threads = threads;
              locks = locks;
              loaded = loaded.sigs;
              depth = depth;
              cap = length loaded.sigs + learns;
            }) }
    {
        let graph = Graph::new(alloc, threads, locks)?;
        let knowledge = Knowledge::new(alloc, threads, locks, loaded, depth, learns)?;
        Ok(LeanGate { graph, knowledge })
    }

    /// Allows this many entries.
    pub fn reserve(&mut self, entries: u32)
        requires { length self.old.entries + entries < 2 ^ 32 }
        ensures { self.new ≡ record self.old { spare = max self.old.spare entries } }
    {
        self.graph.reserve(entries);
    }

    /// The graph of the history, which is legal.
    pub fn graph(&self) -> &Graph
        ensures graph { result.now ≡ replay self.now }
        ensures legal { Legal (constants self.now) (past self.now.entries) }
    {
        &self.graph
    }

    /// Whether the signature of a cycle or of a starvation is known. It needs births that
    /// `Graph::is_cycle` or `Graph::is_starved` lets pass.
    pub fn knows(&self, births: &Births) -> bool
        requires { learn_fault self.now.threads self.now.locks (past self.now.entries) births.now
            ≡ None }
        ensures { result
            ≡ is_some
            (signature_number (known_sigs self.now.loaded self.now.depth (past self.now.entries))
            (stacks_of births.now (past self.now.entries))) }
    {
        self.knowledge.knows(&self.graph, births)
    }

    /// Answers a caller's command, as `GateState::act_on` does. The reply tells the entry that it
    /// makes, and one without an entry changes nothing.
    ///
    /// It is inlined, since commands and replies are large, and would else be copied on their way.
    #[inline(always)]
    pub fn act_on(&mut self, caller: u32, cmd: &Command) -> Reply
        requires room { 1 ≤ self.old.spare }
        requires allowed { MayGive (constants self.old) caller cmd.now }
        ensures reply { result
            ≡ reply_of (constants self.old) caller cmd.now (past self.old.entries) }
        ensures told { entry_by record { 0 = caller } cmd.now result
            ≡ entry_of (constants self.old) caller cmd.now (past self.old.entries) }
        ensures entry { self.new
            ≡ gate_after self.old
            (entry_of (constants self.old) caller cmd.now (past self.old.entries)) }
    {
        let reply = self.knowledge.decide(&self.graph, caller, cmd);
        if let Some(e) = &EntryRef::by(Tid(caller), cmd, &reply) {
            let _few = self.graph.len(); // for the contract: the entries fit
            self.enter(e);
        }
        reply
    }

    /// Lets a thread that polls for a lock have it, if `act_on` does. It answers whether it does,
    /// and makes no command.
    pub fn acquire(&mut self, t: Tid, l: Lid) -> bool
        requires room { 1 ≤ self.old.spare }
        requires thread { t.0 < self.old.threads }
        requires lock { l.0 < self.old.locks }
        ensures made { IsTrue result
            ↔ (entry_of (constants self.old) t.0 (Acquire l) (past self.old.entries)
            ≡ Some (Got t l)) }
        ensures entry { self.new
            ≡ gate_after self.old (entry_of (constants self.old) t.0 (Acquire l) (past self.old.entries)) }
    {
        if !is_got(&acquire(&self.graph, t, l)) {
            return false;
        }
        self.enter(&EntryRef::Got { t, l });
        true
    }

    /// Lets a thread give a lock back, if `act_on` does. It answers whether it does, and makes no
    /// command.
    pub fn release(&mut self, t: Tid, l: Lid) -> bool
        requires room { 1 ≤ self.old.spare }
        requires thread { t.0 < self.old.threads }
        requires lock { l.0 < self.old.locks }
        ensures made { IsTrue result
            ↔ (entry_of (constants self.old) t.0 (Release l) (past self.old.entries)
            ≡ Some (Free t l)) }
        ensures entry { self.new
            ≡ gate_after self.old (entry_of (constants self.old) t.0 (Release l) (past self.old.entries)) }
    {
        if !is_freed(&release(&self.graph, t, l)) {
            return false;
        }
        self.enter(&EntryRef::Free { t, l });
        true
    }

    /// Takes in an entry that is legal.
    #[inline(always)]
    fn enter(&mut self, e: &EntryRef<'_>)
        requires room { 1 ≤ self.old.spare }
        requires stack { HasStack e.now }
        requires legal { IsLegalAfter (constants self.old) (past self.old.entries) (shown e.now) }
        ensures { self.new ≡ gate_after self.old (Some (shown e.now)) }
    {
        let _few = self.graph.len(); // for the contract: the entries fit, and there are few
        self.knowledge.take_in(&self.graph, e);
        self.graph.enter_ref(e);
    }
}

/// Whether a reply is Got.
fn is_got(reply: &Reply) -> bool
    ensures { result ≡ is_got reply.now }
{
    matches!(reply, Reply::Got)
}

/// Whether a reply is Freed.
fn is_freed(reply: &Reply) -> bool
    ensures { result ≡ is_freed reply.now }
{
    matches!(reply, Reply::Freed)
}
