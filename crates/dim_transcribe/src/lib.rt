//! The program that does what is kept of a log, and the table that leads back to the source.
#![tactic(auto)]

mod code;
mod cutting;
mod drafting;
mod items;
mod moving;
mod naming;
mod performing;
mod places;
mod printing;
mod sites;
mod standing;
mod table;
mod transcribing;
mod transcript;
mod units;

pub use performing::performs;
pub use table::places_text;
pub use transcribing::transcribe;
pub use transcript::{Key, Limit, Move, StandIn, Transcribe, Transcript};
