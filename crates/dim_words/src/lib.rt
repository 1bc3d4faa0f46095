//! The words of the command line: which command they are.
#![tactic(auto)]

mod command;
mod found;
mod grammar;
mod kept;
mod kind;
pub mod laws;
mod parting;
mod seen;

pub use command::{
    CheckCommand, Command, ImmunizeCommand, PredictCommand, RunCommand, SwitchCommand,
    default_settings, is_dash,
};
pub use kind::Kind;
pub use parting::{Line, Parting, read_line};
