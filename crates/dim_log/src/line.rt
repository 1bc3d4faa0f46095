//! The parts of a line.
ghost use Rattle.std.specs.Prelude.{◌≡◌, ◌≤◌, ℕ, List, Ok, IfOk, length};
ghost use Rattle.dim_text.specs.Cuts.{words_of};
ghost use Rattle.dim_log.specs.Saying.{site_of, said_by, said_in};
ghost use Rattle.dim_log.specs.Line.{found_site, found_deed, found_line, frame_words};

use crate::LogFaultKind;
use crate::operation::{Operation, operation_named, took};
use crate::words::Words;

/// The word for a lock, and the text of the frames at which it is used.
#[derive(Clone, Copy)]
pub struct Site<'a> {
    pub lock: &'a [u8],
    pub frames: &'a [u8],
}

/// What is done.
#[derive(Clone, Copy)]
pub enum Deed<'a> {
    Lock(Site<'a>),
    Try(Site<'a>, bool),
    Unlock(Site<'a>),
    Start(&'a [u8]),
    Join(&'a [u8]),
}

/// The word for a thread, and what it does.
#[derive(Clone, Copy)]
pub struct Line<'a> {
    pub thread: &'a [u8],
    pub deed: Deed<'a>,
}

// The parts of `LOCK FRAME ..`.
#[tactic(auto, using(crate::proofs::Splitting::some_words_of), unfolding(crate::specs::Saying::site_of, crate::specs::Saying::stack_of))]
fn read_site<'a>(words: &mut Words<'a>) -> Result<Site<'a>, LogFaultKind>
    ensures value { site_of words.old ≡ found_site result }
    ensures few { IfOk result (λ s. length (words_of s.frames.now) ≤ length words.old) }
{
    let lock = words.next_word()?;
    let frames = words.text()?;
    Ok(Site { lock, frames })
}

// The parts of `LOCK 0 FRAME ..` or `LOCK 1 FRAME ..`.
#[tactic(auto, unfolding(crate::specs::Saying::said_by, crate::specs::Saying::stack_of))]
fn read_try<'a>(words: &mut Words<'a>) -> Result<Deed<'a>, LogFaultKind>
    ensures value { (thread : List ℕ)
        → said_by thread Operation.Try words.old ≡ found_deed thread result }
    ensures few { IfOk result (λ d. frame_words d ≤ length words.old) }
{
    let lock = words.next_word()?;
    let took = took(words.next_word()?)?;
    let frames = words.text()?;
    Ok(Deed::Try(Site { lock, frames }, took))
}

#[tactic(auto, unfolding(crate::specs::Saying::said_by))]
fn read_deed<'a>(operation: Operation, words: &mut Words<'a>) -> Result<Deed<'a>, LogFaultKind>
    ensures value { (thread : List ℕ)
        → said_by thread operation words.old ≡ found_deed thread result }
    ensures few { IfOk result (λ d. frame_words d ≤ length words.old) }
{
    match operation {
        Operation::Lock => Ok(Deed::Lock(read_site(words)?)),
        Operation::Try => read_try(words),
        Operation::Unlock => Ok(Deed::Unlock(read_site(words)?)),
        Operation::Start => Ok(Deed::Start(words.last_word()?)),
        Operation::Join => Ok(Deed::Join(words.last_word()?)),
    }
}

/// The parts of a line, whose frames are not looked at.
#[tactic(auto, unfolding(crate::specs::Saying::said_in))]
pub fn parse(text: &[u8]) -> Result<Line<'_>, LogFaultKind>
    ensures value { said_in text.now ≡ found_line result }
    ensures few { IfOk result (λ l. frame_words l.deed ≤ length (words_of text.now)) }
{
    let mut words = Words::of(text);
    let thread = words.next_word()?;
    let operation = operation_named(words.next_word()?)?;
    let deed = read_deed(operation, &mut words)?;
    Ok(Line { thread, deed })
}
