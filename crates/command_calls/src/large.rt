//! Texts at the limits.
use std::alloc::{AllocError, Global};
use std::fmt::Write;

// The text of a history with so many signatures, each of two stacks, behind this first line, and
// with this behind the words of each signature's line.
fn signatures(alloc: Global, head: &str, state: &str, count: u32) -> Result<String, AllocError> {
    let mut text = String::from_str(alloc, head)?;
    for i in 0..count {
        writeln!(text, "signature 4 2{state}\na:{i}\nb:{i}")?;
    }
    writeln!(text, "end {count}")?;
    Ok(text)
}

/// The text of a history with so many signatures, each of two stacks, on and with no yield.
pub fn many_signatures(alloc: Global, count: u32) -> Result<String, AllocError> {
    signatures(alloc, "dim history 2\n", " on 0", count)
}

/// The text of a history of version 1 with so many signatures, each of two stacks.
pub fn many_signatures_before(alloc: Global, count: u32) -> Result<String, AllocError> {
    signatures(alloc, "dim history 1\n", "", count)
}

/// A program of 32 threads that each take the lock of their number and keep it.
pub fn crowd(alloc: Global) -> Result<String, AllocError> {
    let mut text = String::from_str(alloc, "dim program 1\n")?;
    for k in 0..32 {
        writeln!(text, "lock k{k:02}")?;
    }
    text.push_str("func w 0\nLOCKX\nRET\nend\n")?;
    for k in 0..32 {
        writeln!(text, "thread w {k}")?;
    }
    text.push_str("end program\n")?;
    Ok(text)
}

/// A history with the signature of all threads of the crowd, on and with so many yields.
pub fn crowd_history(alloc: Global, yields: u32) -> Result<String, AllocError> {
    let mut text = format!(in alloc; "dim history 2\nsignature 4 32 on {yields}\n")?;
    for _ in 0..32 {
        text.push_str("w:0\n")?;
    }
    text.push_str("end 1\n")?;
    Ok(text)
}
