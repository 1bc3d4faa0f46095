//! Tests of repeated attempts and of least depths.
#![tactic(auto)]

#[cfg(test)]
mod attempts;
#[cfg(test)]
mod bound;
#[cfg(test)]
mod least;
#[cfg(test)]
mod many;
