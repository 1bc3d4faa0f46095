//! Tests of logs.
#![tactic(auto)]

#[cfg(test)]
mod faults;
#[cfg(test)]
mod given;
#[cfg(test)]
mod logs;
