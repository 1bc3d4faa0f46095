//! The program that a number stands for, large, valid and not written by hand.
#![tactic(auto)]

mod generating;

pub use generating::generated;
