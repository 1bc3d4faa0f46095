//! The programs, histories, traces, reports and entries that several crates of tests are given or
//! expect, each once.
#![tactic(auto)]

pub mod entries;
pub mod histories;
pub mod programs;
pub mod reports;
pub mod traces;
