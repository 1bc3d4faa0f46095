//! Which operations of a log a deadlock could come from.
#![tactic(auto)]

mod components;
mod counting;
mod crossing;
mod hold;
mod keeping;
mod kept;
mod laws;
mod lines;
mod orders;
mod own;
mod parts;
mod sections;

pub use keeping::keep;
pub use kept::{Chain, Counts, Deed, Kept, Operation};
pub use laws::{cycles_law, places_law, sections_law};
