//! Depths that are raised until an entry is what the gate makes.
ghost use Rattle.std.specs.Prelude.{◌≡◌, ◌<◌, ◌≤◌, ◌↔◌, ◌++◌, ◌∷◌, [], ℕ, length, true, slice_get, IfOk, OnOk, IsTrue, Some};
ghost use Rattle.dim_rag.specs.Born.{AreByBirth, In, all_edges};
ghost use Rattle.dim_rag.specs.Fits.{IsInRange};
ghost use Rattle.dim_rag.specs.History.{past};
ghost use Rattle.dim_rag.specs.Shown.{HasStack, shown};
ghost use Rattle.dim_tune.specs.declared.lowered.Lowered.{Lowered};
ghost use Rattle.dim_tune.specs.Asked.{recorded, Keeps};
ghost use Rattle.dim_tune.specs.Innermost.{AreFiled};
ghost use Rattle.dim_tune.specs.Raised.{cover_at, AreLowered, AreNext, AreRaised, IsLowered, IsRaised};

use crate::asked::{asked, edge_after, keeps};
use crate::innermost::Innermost;
use crate::lowered::Lowered;
use dim_base::OutOfMemory;
use dim_cover::Index;
use dim_rag::{Edge, EntryRef, Graph};
use dim_signature::{Catalogue, Signature};
use std::alloc::Global;

/// Each signature of a catalogue at depth 1.
pub fn all_lowered(alloc: Global, loaded: &Catalogue) -> Result<Vec<Lowered>, OutOfMemory>
    ensures lowered { IfOk result (λ all. AreLowered loaded.now.sigs all.items) }
    ensures ones { IfOk result (λ all. (i : ℕ) (x : Lowered) → slice_get all.items i ≡ Some x
        → x.depth ≡ 1) }
{
    let mut all = Vec::new(alloc);
    for i in 0..loaded.len() {
        all.push(lowered(alloc, 1, loaded.get(i))?)?;
    }
    Ok(all)
}

/// A signature at a depth from 1 to its own.
fn lowered(alloc: Global, depth: u8, sig: &Signature) -> Result<Lowered, OutOfMemory>
    requires low { 1 ≤ depth }
    requires high { depth ≤ sig.now.depth }
    ensures lowered { IfOk result (IsLowered sig.now) }
    ensures depth { IfOk result (λ x. x.depth ≡ depth) }
{
    let mut known = Catalogue::new(alloc);
    known.reserve(1)?;
    let _high = sig.depth(); // for the contract: it is at most 32
    known.learn(depth, sig.as_slice());
    Ok(Lowered { depth, known })
}

/// Raises each signature to the first depth, from its own on, at which what was named stays so that
/// an entry says, which comes next. It looks only at those that have a stack with the innermost
/// frame of the edge that was asked for: no other has a cover with that edge, at any depth.
pub fn raise_all(
    alloc: Global,
    all: &mut Vec<Lowered>,
    loaded: &Catalogue,
    innermost: &Innermost,
    graph: &Graph,
    index: &Index,
    e: &EntryRef<'_>,
) -> Result<(), OutOfMemory>
    requires lowered { AreLowered loaded.now.sigs all.old.items }
    requires filed { AreFiled innermost.now.files loaded.now.sigs }
    requires stack { HasStack e.now }
    requires in_range { IsInRange graph.now.threads graph.now.locks (shown e.now) }
    requires edges { index.now.edges ≡ all_edges (past graph.now.entries) }
    ensures lowered { OnOk result (AreLowered loaded.now.sigs all.new.items) }
    ensures next { OnOk result (AreNext loaded.now.sigs (past graph.now.entries) (shown e.now)
        all.old.items all.new.items) }
{
    match &asked(graph, e) {
        Some(wish) => {
            let near = innermost.at(&wish.first_frame());
            let edge = edge_after(graph, wish);
            raise_each(alloc, all, loaded, near, index, &edge, e)
        }
        None => Ok(()),
    }
}

/// Raises the signatures with these numbers, where a cover was looked for that uses a new edge.
fn raise_each(
    alloc: Global,
    all: &mut Vec<Lowered>,
    loaded: &Catalogue,
    numbers: &[u32],
    index: &Index,
    edge: &Edge,
    e: &EntryRef<'_>,
) -> Result<(), OutOfMemory>
    requires lowered { AreLowered loaded.now.sigs all.old.items }
    requires numbers { (n : ℕ) → In n numbers.now → n < length loaded.now.sigs }
    requires newest { AreByBirth (index.now.edges ++ edge.now ∷ []) }
    ensures lowered { OnOk result (AreLowered loaded.now.sigs all.new.items) }
    ensures raised { OnOk result (AreRaised loaded.now.sigs numbers.now index.now.edges
        (shown e.now) edge.now all.old.items all.new.items) }
{
    for k in 0..numbers.len() {
        let i = numbers[k];
        raise(
            alloc,
            &mut all[i as usize],
            loaded.get(i),
            i,
            index,
            edge,
            e,
        )?;
    }
    Ok(())
}

/// Raises signature i from the depth at which it is tried to the first at which what was named
/// stays so that an entry says; or to its own.
fn raise(
    alloc: Global,
    x: &mut Lowered,
    sig: &Signature,
    i: u32,
    index: &Index,
    edge: &Edge,
    e: &EntryRef<'_>,
) -> Result<(), OutOfMemory>
    requires lowered { IsLowered sig.now x.old }
    requires newest { AreByBirth (index.now.edges ++ edge.now ∷ []) }
    ensures lowered { OnOk result (IsLowered sig.now x.new) }
    ensures raised { OnOk result (IsRaised sig.now i index.now.edges (shown e.now) edge.now
        x.old.depth x.new.depth) }
{
    if !sig.on() {
        return Ok(());
    }
    'depth: while x.depth < sig.depth() && !is_kept(x, sig, i, index, edge, e) {
        *x = lowered(alloc, x.depth + 1, sig)?;
    }
    Ok(())
}

/// Whether what was named stays so that an entry says, where signature i is tried at this depth.
fn is_kept(
    x: &Lowered,
    sig: &Signature,
    i: u32,
    index: &Index,
    edge: &Edge,
    e: &EntryRef<'_>,
) -> bool
    requires lowered { IsLowered sig.now x.now }
    requires on { sig.now.on ≡ true }
    requires newest { AreByBirth (index.now.edges ++ edge.now ∷ []) }
    ensures { IsTrue result
        ↔ Keeps (recorded (shown e.now)) i (cover_at sig.now x.now.depth index.now.edges edge.now) }
{
    keeps(e, i, &index.first_cover(&x.known, edge))
}
