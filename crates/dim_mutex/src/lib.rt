//! Locks for a program's own threads: they are taken under a gate, which yields where a grant would
//! instantiate a known signature.
#![tactic(auto)]

mod answers;
mod caller;
mod closed;
mod domain;
mod guard;
mod holdings;
mod immune;
pub mod laws;
mod room;

pub use answers::{Missed, Pending};
pub use caller::Caller;
pub use closed::Closed;
pub use domain::Domain;
pub use guard::Guard;
pub use immune::Immune;
