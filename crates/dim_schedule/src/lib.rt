//! How a run goes: its settings, and the words of its seed, from which the slices are drawn.
#![tactic(auto)]

mod schedule;
mod settings;

pub use schedule::Schedule;
pub use settings::Settings;
