//! Tests of what is kept of a log.
#![tactic(auto)]

#[cfg(test)]
mod chains;
#[cfg(test)]
mod given;
#[cfg(test)]
mod sections;
