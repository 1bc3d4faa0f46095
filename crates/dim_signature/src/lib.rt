//! Signatures of deadlocks, and the catalogue that numbers them.
#![tactic(auto)]

mod catalogue;
mod order;
mod signature;
mod sorting;

pub use catalogue::{Add, Catalogue, MOST_SIGNATURES, change_law, number_law};
pub use signature::{SigFault, Signature};
pub use sorting::{sort_stacks, sorted_law};
