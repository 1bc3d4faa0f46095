//! What the words of a text are.
use dim_base::{OutOfMemory, Word};
use dim_words::{Command, Line, read_line};
use std::alloc::Global;

/// The line that the words of a text may be.
pub(crate) fn read(alloc: Global, text: &str) -> Result<Option<Line>, OutOfMemory> {
    let mut words = Vec::new(alloc);
    for word in text.split_whitespace() {
        words.push(Word::of(alloc, word)?)?;
    }
    read_line(alloc, words.as_slice())
}

/// The command that a line may be.
pub(crate) fn command_of(line: &Option<Line>) -> Option<Command<'_>> {
    match line {
        Some(line) => line.command(),
        None => None,
    }
}

pub(crate) fn is_command(alloc: Global, text: &str) -> Result<bool, OutOfMemory> {
    let line = read(alloc, text)?;
    Ok(command_of(&line).is_some())
}
