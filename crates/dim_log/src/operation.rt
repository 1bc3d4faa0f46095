//! The words for operations, and the result of a trylock.
ghost use Rattle.std.specs.Prelude.{◌≡◌};
ghost use Rattle.dim_log.specs.Saying.{operation_of, took_of};

use crate::LogFaultKind;
use dim_text::is_word;

/// An operation.
#[derive(Clone, Copy, Debug, PartialEq, Eq)]
pub enum Operation {
    Lock,
    Try,
    Unlock,
    Start,
    Join,
}

/// The operation that a word names.
#[tactic(auto, unfolding(crate::specs::Saying::operation_of))]
pub fn operation_named(word: &[u8]) -> Result<Operation, LogFaultKind>
    ensures { result ≡ operation_of word.now }
{
    if is_word(word, b"lock") {
        Ok(Operation::Lock)
    } else if is_word(word, b"trylock") {
        Ok(Operation::Try)
    } else if is_word(word, b"unlock") {
        Ok(Operation::Unlock)
    } else if is_word(word, b"start") {
        Ok(Operation::Start)
    } else if is_word(word, b"join") {
        Ok(Operation::Join)
    } else {
        Err(LogFaultKind::Operation)
    }
}

/// Whether a trylock took the lock, by the word for it.
#[tactic(auto, unfolding(crate::specs::Saying::took_of))]
pub fn took(word: &[u8]) -> Result<bool, LogFaultKind>
    ensures { result ≡ took_of word.now }
{
    if is_word(word, b"1") {
        Ok(true)
    } else if is_word(word, b"0") {
        Ok(false)
    } else {
        Err(LogFaultKind::Took)
    }
}
