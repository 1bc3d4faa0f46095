//! Deadlocks that a run did not come to: the signatures of the pairs of nestings that could make
//! them, and a history that has them.
#![tactic(auto)]

mod adopting;
mod gathering;
mod granted;
mod holds;
mod key;
pub mod laws;
mod links;
mod lock_set;
mod numbers;
mod pairs;
mod places;
mod predicting;
mod prediction;
mod roll;
mod search;
mod seen;

pub use adopting::adopt;
pub use predicting::{Predict, candidates, candidates_kept};
pub use prediction::{Prediction, predicted};
