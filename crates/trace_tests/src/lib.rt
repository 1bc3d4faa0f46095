//! Tests of traces: their text, its faults, and what `check` says of them.
#![tactic(auto)]

#[cfg(test)]
mod checks;
#[cfg(test)]
mod traces;
