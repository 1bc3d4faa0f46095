//! Tests of the words of the command line.
#![tactic(auto)]

#[cfg(test)]
mod commands;
#[cfg(test)]
mod reading;
#[cfg(test)]
mod tables;
