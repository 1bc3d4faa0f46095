//! Machines, and the door through which a machine asks the gate.
#![tactic(auto)]

mod context;
mod door;
mod frames;
mod laws;
mod locking;
mod machine;
mod operands;
mod rows;
mod state;
mod step;
mod trap;

pub use door::{Door, stops_after};
pub use laws::{own_entries_law, own_history_law, own_walks_law, stacks_law, walk_places_law};
pub use machine::Machine;
pub use state::{Slice, State};
pub use trap::Trap;
