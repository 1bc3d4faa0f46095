//! Two histories become one, which knows what either knows.
#![tactic(auto)]

mod laws;
mod lines;
mod making;
mod merging;
mod parted;
mod parts;
mod program;
mod size;
mod sources;
mod stop;
mod words;

pub use laws::merged_law;
pub use merging::{MergeFault, merge};
pub use program::merge_files;
