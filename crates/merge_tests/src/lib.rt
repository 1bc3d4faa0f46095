//! Tests of histories that become one.
#![tactic(auto)]

#[cfg(test)]
mod calls;
#[cfg(test)]
mod merging;
#[cfg(test)]
mod refusals;
