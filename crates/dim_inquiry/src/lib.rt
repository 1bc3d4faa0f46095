//! What all commands share, and the commands that play nothing: each from its words and its files to
//! its report, or to why it stops before that.
#![tactic(auto)]

pub mod binding;
pub mod calls;
pub mod check;
pub mod fetching;
pub mod inputs;
pub mod judging;
pub mod predict;
mod predicting;
mod report;
pub mod show;
mod showing;
mod stop;
pub mod switch;
mod switching;
pub mod why;

pub use report::{Ending, Report};
pub use stop::{Place, Refusal, Stop};
