//! The line that opens a signature.
ghost use Rattle.std.specs.Prelude.{◌≡◌, Some};
ghost use Rattle.dim_text.specs.Reading.{Gives};
ghost use Rattle.dim_history_file.specs.Judging.{form_of, long_form, next_word, opening_of, short_form};
ghost use Rattle.dim_history_file.specs.Reader.{form_seen};
ghost use Rattle.dim_history_file.specs.Signing.{line_for};

use crate::FileKind;
use crate::version::Version;
use dim_signature::Signature;
use dim_text::{Parts, number, number_from, state_in, two_words};

/// What the line says.
#[derive(Clone, Copy, Debug, PartialEq, Eq)]
pub struct Opening {
    /// From 1 to 32.
    pub depth: u8,
    /// How many stacks come, from 2 to 32.
    pub count: u32,
    /// Whether the signature is switched on.
    pub on: bool,
    pub yields: u32,
}

impl Opening {
    /// What the line of a signature says.
    pub fn of(sig: &Signature) -> Opening
        ensures { result ≡ line_for sig.now }
    {
        Opening {
            depth: sig.depth(),
            count: sig.len(),
            on: sig.on(),
            yields: sig.yields(),
        }
    }
}

/// The words of the line behind the first.
#[derive(Clone, Copy)]
pub struct Form<'a> {
    depth: &'a [u8],
    count: &'a [u8],
    on: bool,
    yields: &'a [u8],
}

// The next word, which isn't empty.
fn next_word<'a>(words: &mut Parts<'a>) -> Result<&'a [u8], FileKind>
    ensures { Gives Some (λ word. (word.now, words.new)) result (next_word words.old) }
{
    match words.next_part() {
        Some(word) if !word.is_empty() => Ok(word),
        _ => Err(FileKind::Line),
    }
}

// `DEPTH COUNT`
#[tactic(auto, unfolding(crate::specs::Judging::short_form))]
fn short_form<'a>(words: &mut Parts<'a>) -> Result<Form<'a>, FileKind>
    ensures { Gives Some form_seen result (short_form words.old) }
{
    let (depth, count) = two_words(words, FileKind::Line)?;
    Ok(Form {
        depth,
        count,
        on: true,
        yields: b"0",
    })
}

// `DEPTH COUNT STATE YIELDS`
#[tactic(auto, unfolding(crate::specs::Judging::long_form))]
fn long_form<'a>(words: &mut Parts<'a>) -> Result<Form<'a>, FileKind>
    ensures { Gives Some form_seen result (long_form words.old) }
{
    let depth = next_word(words)?;
    let count = next_word(words)?;
    let (state, yields) = two_words(words, FileKind::Line)?;
    let on = state_in(state).ok_or(FileKind::Line)?;
    Ok(Form {
        depth,
        count,
        on,
        yields,
    })
}

impl<'a> Form<'a> {
    /// The form that the version gives these words.
    pub fn of(version: Version, words: &mut Parts<'a>) -> Result<Form<'a>, FileKind>
        ensures { Gives Some form_seen result (form_of version words.old) }
    {
        match version {
            Version::One => short_form(words),
            Version::Two => long_form(words),
        }
    }

    /// What its numbers are.
    #[tactic(auto, unfolding(crate::specs::Judging::opening_of))]
    pub fn opening(&self) -> Result<Opening, FileKind>
        ensures { Gives Some (λ opening. opening) result (opening_of (form_seen self.now)) }
    {
        let depth = number_from(self.depth, 1, 32).ok_or(FileKind::Number)?;
        let count = number_from(self.count, 2, 32).ok_or(FileKind::Number)?;
        let yields = number(self.yields, u32::MAX).ok_or(FileKind::Number)?;
        Ok(Opening {
            depth: depth as u8,
            count,
            on: self.on,
            yields,
        })
    }
}
