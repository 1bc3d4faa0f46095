//! Tests of machines over a door that follows a script, and of runs.
#![tactic(auto)]

pub mod fake;
#[cfg(test)]
mod lives;
#[cfg(test)]
mod machines;
#[cfg(test)]
mod runs;
