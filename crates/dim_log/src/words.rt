//! The words of a line, one behind the other.
ghost use Rattle.std.specs.Prelude.{◌≡◌, ◌==◌, ◌∷◌, [], Some};
ghost use Rattle.std.specs.List.{position};
ghost use Rattle.std.specs.Option.{option_map_or};
ghost use Rattle.dim_text.specs.Cuts.{words_of};
ghost use Rattle.dim_text.specs.Reading.{Gives};
ghost use Rattle.dim_log.specs.Saying.{next_word, last_word, some_words};

use crate::LogFaultKind;
use std::marker::Model;

// Where the first space stands.
fn space(line: &[u8]) -> Option<usize>
    ensures { result ≡ position (λ b. b == 32) line.now }
{
    line.iter().position(|b| *b == b' ')
}

// The first word, and what stands behind its space.
#[tactic(auto, using(crate::proofs::Splitting::split_at_place, crate::proofs::Splitting::split_at_none))]
fn cut(line: &[u8]) -> (&[u8], Option<&[u8]>)
    ensures { words_of line.now
        ≡ result.0.now ∷ option_map_or (λ r. words_of r.now) result.1 [] }
{
    match space(line) {
        Some(at) => (&line[..at], Some(&line[at + 1..])),
        None => (line, None),
    }
}

/// The words that are left.
#[derive(Drop)]
pub struct Words<'a> {
    rest: Option<&'a [u8]>,
}

impl<'a> Model for Words<'a> {
    ghost use Rattle.std.specs.Prelude.{List, ℕ, []};
    ghost use Rattle.std.specs.Option.{option_map_or};
    ghost use Rattle.dim_text.specs.Cuts.{words_of};

    ghost Value = { List (List ℕ) };

    ghost view = { λ w. option_map_or (λ r. words_of r.now) w.rest [] };
}

impl<'a> Words<'a> {
    /// The words of a line.
    pub fn of(line: &'a [u8]) -> Words<'a>
        ensures { result ≡ words_of line.now }
    {
        Words { rest: Some(line) }
    }

    /// The next word. It fails with `Short` where none is left, or it is empty.
    #[tactic(auto, unfolding(crate::specs::Saying::next_word))]
    pub fn next_word(&mut self) -> Result<&'a [u8], LogFaultKind>
        ensures { Gives Some (λ word. (word.now, self.new)) result (next_word self.old) }
    {
        let line = self.rest.ok_or(LogFaultKind::Short)?;
        let (word, rest) = cut(line);
        if word.is_empty() {
            return Err(LogFaultKind::Short);
        }
        self.rest = rest;
        Ok(word)
    }

    /// The last word. It fails with `Short` where none is left, or it is empty, and with `Long`
    /// where more are left.
    #[tactic(auto, using(crate::proofs::Splitting::last_of_more), unfolding(crate::specs::Saying::last_word))]
    pub fn last_word(&mut self) -> Result<&'a [u8], LogFaultKind>
        ensures { Gives Some (λ word. word.now) result (last_word self.old) }
    {
        let word = self.next_word()?;
        match self.rest {
            Some(_) => Err(LogFaultKind::Long),
            None => Ok(word),
        }
    }

    /// The text of the words that are left. It fails with `Short` where none is left.
    #[tactic(auto, using(crate::proofs::Splitting::some_words_of))]
    pub fn text(&self) -> Result<&'a [u8], LogFaultKind>
        ensures { Gives Some (λ text. words_of text.now) result (some_words self.now) }
    {
        match self.rest {
            Some(text) => Ok(text),
            None => Err(LogFaultKind::Short),
        }
    }
}
