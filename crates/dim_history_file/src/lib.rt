//! Histories of signatures with the names of their functions, and the text of a history.
#![tactic(auto)]

mod fault;
mod frames;
mod history;
mod laws;
mod names;
mod opening;
mod reader;
mod reading;
mod recent;
mod renaming;
mod signing;
mod version;
mod writing;

pub use fault::{FileFault, FileKind, ReadFault};
pub use history::History;
pub use laws::{first_fault_law, length_law, reading_law, spelling_law};
pub use reading::read;
pub use recent::Recent;
pub use renaming::{rename, rename_into};
pub use writing::{put_signature, put_stack, write};
