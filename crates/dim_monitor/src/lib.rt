//! The monitor: a second graph of a history, of the entries that it is told, and what is stuck or
//! starves in it.
#![tactic(auto)]

mod cycles;
pub mod laws;
mod monitor;
pub mod search;
mod stuck;

pub use cycles::Cycles;
pub use monitor::Monitor;
