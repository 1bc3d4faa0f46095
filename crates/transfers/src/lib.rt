//! Two workers that move amounts between two accounts, and take the locks of these in opposite
//! orders. The locks keep clear of the deadlocks that a history knows.
#![tactic(auto)]

mod functions;
mod learning;
mod meeting;
mod moving;
mod refusal;
mod working;

pub use learning::learnt;
pub use moving::Came;
pub use refusal::Refusal;
pub use working::{Worked, work};
