//! Histories of many signatures.
use std::alloc::{AllocError, Global};
use std::fmt::Write;

/// The text of a history with so many signatures, each of two stacks at which no program of the
/// tests takes a lock.
pub fn elsewhere(alloc: Global, count: u32) -> Result<String, AllocError> {
    let mut text = String::from_str(alloc, "dim history 2\n")?;
    for i in 0..count {
        writeln!(text, "signature 4 2 on 0\nlost:{i}\nlost:{}", i + 1)?;
    }
    writeln!(text, "end {count}")?;
    Ok(text)
}
