//! The commands that play a program, and the one that tells how deep signatures must agree: each from
//! its words, its files and what else it is given to its report, or to why it stops before that.
#![tactic(auto)]

mod attempts;
pub mod depths;
mod ends;
pub mod generate;
pub mod immunize;
pub mod living;
mod playing;
mod ran;
pub mod run;
mod storing;
mod telling;
mod texts;
mod totals;
