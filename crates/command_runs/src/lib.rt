//! Tests: what runs play, store and report.
#![tactic(auto)]

#[cfg(test)]
mod attempts;
#[cfg(test)]
mod leaving;
#[cfg(test)]
mod limits;
#[cfg(test)]
mod machine;
#[cfg(test)]
mod runs;
#[cfg(test)]
mod seeds;
