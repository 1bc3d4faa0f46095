//! Tests: runs whose slices go beside each other, and the programs that numbers stand for.
#![tactic(auto)]

#[cfg(test)]
mod calls;
#[cfg(test)]
mod doors;
#[cfg(test)]
mod generates;
#[cfg(test)]
mod lives;
#[cfg(test)]
mod many;
#[cfg(test)]
mod reports;
pub mod seats;
