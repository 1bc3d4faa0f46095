//! Logs of the lock operations of a run: their text, and what it says.
#![tactic(auto)]

mod fault;
mod frames;
mod laws;
mod line;
mod log;
mod operation;
mod reader;
mod reading;
mod stacks;
mod table;
mod words;

pub use fault::LogError;
pub use laws::{first_fault_law, frame_law};
pub use log::{Event, Log, LogFault, LogFaultKind, Spot};
pub use reading::read_log;
