//! Names of functions of a program, of which no two are the same.
use dim_base::OutOfMemory;
use std::alloc::Global;
use std::fmt::Write;

/// A name has at most so many bytes, and before a number that makes it different, so many.
const MOST_BYTES: usize = 24;

const MOST_BEFORE_NUMBER: usize = 20;

/// There are at most so many names.
const MOST_NAMES: u32 = 256;

/// The byte that stands for one of the source.
fn cleaned_byte(byte: u8) -> char {
    match byte {
        b'A'..=b'Z' => byte.to_ascii_lowercase() as char,
        b'a'..=b'z' | b'0'..=b'9' => byte as char,
        _ => '_',
    }
}

/// A word of the source as a name: in lower case, without other bytes than letters, digits and `_`,
/// from its first letter on, and cut.
fn cleaned(alloc: Global, word: &[u8], most: usize) -> Result<String, OutOfMemory> {
    let mut name = String::new(alloc);
    for byte in word.iter() {
        let next = cleaned_byte(*byte);
        if name.len() < most && (!name.is_empty() || next.is_ascii_lowercase()) {
            name.push(next)?;
        }
    }
    if name.is_empty() {
        name.push('f')?;
    }
    Ok(name)
}

/// Whether a name is one of these.
fn is_taken(names: &[String], name: &str) -> bool {
    names.iter().any(|other| other.as_str() == name)
}

/// The name of a word of the source that none of these has.
pub fn new_name(alloc: Global, names: &[String], word: &[u8]) -> Result<String, OutOfMemory> {
    let name = cleaned(alloc, word, MOST_BYTES)?;
    if !is_taken(names, name.as_str()) {
        return Ok(name);
    }
    for number in 2..=MOST_NAMES {
        let mut other = cleaned(alloc, word, MOST_BEFORE_NUMBER)?;
        write!(other, "_{number}")?;
        if !is_taken(names, other.as_str()) {
            return Ok(other);
        }
    }
    Ok(name)
}
