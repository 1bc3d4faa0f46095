//! The words of commands. Their files are p, a program, g, a history, h, a new history, and t, a
//! trace.

/// A run with no history.
pub const RUN: [&str; 5] = ["run", "p", "-", "h", "t"];

/// A run in slices of two moves, with a history.
pub const SHORT_SLICES: [&str; 7] = ["run", "p", "g", "h", "t", "--quantum", "2"];

/// A run in slices of two moves, with no history.
pub const SHORT_SLICES_ALONE: [&str; 7] = ["run", "p", "-", "h", "t", "--quantum", "2"];

/// A live run with no history.
pub const LIVE: [&str; 5] = ["live", "p", "-", "h", "t"];

/// A check with a history.
pub const CHECK: [&str; 4] = ["check", "p", "g", "t"];

/// A check with no history.
pub const CHECK_ALONE: [&str; 4] = ["check", "p", "-", "t"];
