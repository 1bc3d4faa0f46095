//! Tags of edges: an edge whose tag no stack of a signature has agrees with none of them.
ghost use Rattle.std.specs.Prelude.{◌≡◌, ◌<◌, ◌≤◌, replicate, true};
ghost use Rattle.dim_cover.specs.Candidates.{candidate_of};
ghost use Rattle.dim_cover.specs.Index.{AreWanted, pair, tag_of};

use crate::candidate::{Candidate, candidate_of};
use crate::front::pair_of;
use dim_rag::Edge;
use dim_signature::Signature;

/// For each tag, whether it is wanted.
pub type Wanted = [bool; 64];

/// The tag of a bucket of two innermost frames.
pub fn tag_of(pair: usize) -> u8
    ensures tag { result ≡ tag_of pair }
    ensures low { result < 64 }
{
    (pair % 64) as u8
}

/// The tags that edges can have which agree with a stack of a signature: at depth 1 all.
pub fn wanted_by(sig: &Signature) -> Wanted
    ensures wanted { AreWanted sig.now.depth result sig.now.stacks }
    ensures deep { 1 ≤ sig.now.depth }
{
    if sig.depth() < 2 {
        return every_tag();
    }
    let mut wanted = [false; 64];
    for i in 0..sig.len() {
        wanted[tag_of(pair_of(sig.stack(i))) as usize] = true;
    }
    wanted
}

/// All tags are wanted.
fn every_tag() -> Wanted
    ensures { result ≡ replicate 64 true }
{
    [true; 64]
}

/// What is kept of an edge with a tag, if it agrees with one of the stacks. It looks at the edge
/// only where the tag is wanted.
pub fn tagged_candidate(sig: &Signature, wanted: &Wanted, tag: u8, e: &Edge) -> Option<Candidate>
    requires deep { 1 ≤ sig.now.depth }
    requires wanted { AreWanted sig.now.depth wanted.now sig.now.stacks }
    requires tag { tag ≡ tag_of (pair e.now.stack) }
    ensures { result ≡ candidate_of sig.now.depth sig.now.stacks e.now }
{
    if wanted[tag as usize] {
        candidate_of(sig, e)
    } else {
        None
    }
}
