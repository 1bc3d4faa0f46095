//! Edges without their stacks.
ghost use Rattle.std.specs.Prelude.{◌≡◌};
ghost use Rattle.dim_rag.specs.Links.{link_of};

use crate::entry::Edge;
use dim_base::Tid;

/// The owner and the birth of an edge, which is what a walk from thread to thread needs of it.
///
/// An edge is large, since it has a stack.
#[derive(Clone, Copy)]
pub struct Link {
    pub t: Tid,
    pub birth: u32,
}

impl Link {
    /// That of an edge.
    pub fn of(edge: &Edge) -> Link
        ensures { result ≡ link_of edge.now }
    {
        Link {
            t: edge.t,
            birth: edge.birth,
        }
    }
}
