//! Tests of transcripts of logs.
#![tactic(auto)]

#[cfg(test)]
mod given;
#[cfg(test)]
mod limits;
#[cfg(test)]
mod transcripts;
#[cfg(test)]
mod tries;
#[cfg(test)]
mod twice;
