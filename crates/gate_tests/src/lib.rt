//! Tests of the gate and of what it stands on: entries and the graph, the monitor, covers, replies,
//! and a gate at a turn lock.
#![tactic(auto)]

#[cfg(test)]
mod covers;
#[cfg(test)]
mod gates;
#[cfg(test)]
mod graphs;
#[cfg(test)]
mod lean;
#[cfg(test)]
mod monitors;
#[cfg(test)]
mod turns;
