//! The stacks of a signature that is learnt.
ghost use Rattle.std.specs.Prelude.{◌≡◌, ◌≤◌, length, IsSome, None};
ghost use Rattle.dim_rag.specs.History.{past};
ghost use Rattle.dim_rag.specs.Born.{edge_born};
ghost use Rattle.dim_signature.specs.Sorted.{AreSorted};
ghost use Rattle.dim_gate.specs.Known.{stacks_of, stack_at};
ghost use Rattle.dim_gate.specs.Starved.{learn_fault};

use dim_rag::{Births, Graph};
use dim_signature::sort_stacks;
use dim_stack::{Frame, Stack};
use std::marker::Model;

/// The sorted stacks of the edges of a cycle or of a starvation.
#[derive(Drop)]
pub struct EdgeStacks {
    len: usize,
    list: [Stack; 32],
}

impl Model for EdgeStacks {
    ghost use Rattle.std.specs.Prelude.{◌≡◌, ◌≤◌, List, length, take};
    ghost use Rattle.dim_stack.specs.declared.Frame.{Frame};

    ghost Value = { List (List Frame) };

    ghost view = { λ s. take s.len s.list };

    ghost invariant = { λ s. (s.len ≤ 32) × (length s.list ≡ 32) };
}

impl EdgeStacks {
    /// Those of the cycle or the starvation with these births.
    #[inline(never)]
    pub fn of(graph: &Graph, births: &Births) -> EdgeStacks
        requires { learn_fault graph.now.threads graph.now.locks (past graph.now.entries)
            births.now ≡ None }
        ensures value { result ≡ stacks_of births.now (past graph.now.entries) }
        ensures ordered { AreSorted result }
        ensures few { length result ≡ length births.now }
        ensures several { 2 ≤ length result }
    {
        let len = births.len() as usize;
        let mut list = [Stack::new(&[Frame { func: 0, at: 0 }]); 32];
        for i in 0..len {
            list[i] = stack_of(graph, births.at(i as u32));
        }
        sort_stacks(&mut list[..len]);
        EdgeStacks { len, list }
    }

    /// The stacks, in order.
    pub fn as_slice(&self) -> &[Stack]
        ensures { result.now ≡ self.now }
    {
        &self.list[..self.len]
    }
}

/// The stack of the edge with a birth.
fn stack_of(graph: &Graph, birth: u32) -> Stack
    requires { IsSome (edge_born (past graph.now.entries) birth) }
    ensures { result ≡ stack_at birth (past graph.now.entries) }
{
    graph.edge_born(birth).unwrap().stack
}
