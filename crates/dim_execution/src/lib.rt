//! What executes a program on a catalogue, and the gate and the machines with which it begins.
#![tactic(auto)]

mod start;

pub use start::{machines_of, new_gate, new_lean_gate};
