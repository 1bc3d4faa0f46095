//! Tests of what is read from texts and written: numbers and names, stacks, signatures, histories
//! and programs.
#![tactic(auto)]

#[cfg(test)]
mod histories;
#[cfg(test)]
mod printing;
#[cfg(test)]
mod programs;
#[cfg(test)]
mod signatures;
#[cfg(test)]
mod stacks;
#[cfg(test)]
mod texts;
