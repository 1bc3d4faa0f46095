//! The entries of a gate's history, and the graph that replays them: edges, modes, standing causes,
//! cycles, stuck sets and starvations.
#![tactic(auto)]

mod births;
mod command;
mod entry;
mod entry_ref;
mod graph;
mod journal;
pub mod laws;
mod tables;

pub use births::Births;
pub use command::{Command, Refusal, Reply};
pub use entry::{Edge, Entry, MissWhy, Mode, Named, Why, same_entry};
pub use entry_ref::{EntryRef, same_shown};
pub use graph::{Graph, MOST_HOLDS, Trail, is_member, without};
pub use journal::Journal;
pub use tables::Tables;
