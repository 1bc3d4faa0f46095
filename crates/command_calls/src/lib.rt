//! Calls of the commands over files in memory, for the crates that test them: what a call leaves,
//! the programs and histories that it is given, and a house whose callers have to meet.
#![tactic(auto)]

mod around;
pub mod large;
mod meeting;
pub mod words;

pub use around::{Around, called, driven, loaded, over, words_of};
pub use meeting::{MeetingGate, MeetingHouse};
