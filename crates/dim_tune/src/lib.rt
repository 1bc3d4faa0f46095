//! Attempts that learn from one another, and the least depths at which signatures do what they did.
#![tactic(auto)]

mod asked;
mod attempt;
mod depth;
mod following;
mod immunizing;
mod innermost;
pub mod laws;
mod lowered;
mod making;
mod raising;

pub use attempt::{Attempt, Immunized, KeptImmunized};
pub use depth::{depths, depths_kept};
pub use immunizing::{immunize, immunize_kept};
