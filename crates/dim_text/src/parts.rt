//! A list of bytes by its parts between separators.
ghost use Rattle.std.specs.Prelude.{◌≡◌, ◌≢◌, ◌==◌, ◌∷◌, [], ◌↔◌, ◌≤◌, length, IsTrue, MatchOption};
ghost use Rattle.std.specs.List.{slice_split, position};
ghost use Rattle.std.specs.Option.{option_map};
ghost use Rattle.dim_text.specs.Cuts.{sides_of};

use memchr::memchr;
use std::marker::Model;

// Where the first separator stands.
fn place_of(bytes: &[u8], separator: u8) -> Option<usize>
    ensures { result ≡ position (λ b. b == separator) bytes.now }
{
    bytes.iter().position(|b| *b == separator)
}

// The same place, found faster where it may be far off, as the end of a line is.
#[tactic(auto, using(crate::proofs::Searching::first_is_position))]
fn far_place_of(bytes: &[u8], separator: u8) -> Option<usize>
    ensures { result ≡ position (λ b. b == separator) bytes.now }
{
    memchr(separator, bytes)
}

// The bytes before the first separator, and those behind it.
#[tactic(auto, using(crate::proofs::Splitting::split_at_place, crate::proofs::Splitting::split_at_none))]
fn cut(bytes: &[u8], separator: u8) -> Option<(&[u8], &[u8])>
    ensures { let parts = slice_split (λ b. b == separator) in
        MatchOption result (parts bytes.now ≡ bytes.now ∷ []) (λ x. parts bytes.now ≡ x.0.now ∷ parts x.1.now) }
{
    match place_of(bytes, separator) {
        Some(at) => Some((&bytes[..at], &bytes[at + 1..])),
        None => None,
    }
}

/// The parts that are left. Between two separators, or a separator and an end, stands one part,
/// which may be empty.
#[derive(Drop)]
pub struct Parts<'a> {
    rest: Option<&'a [u8]>,
    separator: u8,
}

impl<'a> Model for Parts<'a> {
    ghost use Rattle.std.specs.Prelude.{List, ℕ, ◌==◌, []};
    ghost use Rattle.std.specs.Option.{option_map_or};
    ghost use Rattle.std.specs.List.{slice_split};

    ghost Value = { List (List ℕ) };

    ghost view = { λ p. option_map_or (λ r. slice_split (λ b. b == p.separator) r.now) p.rest [] };
}

impl<'a> Parts<'a> {
    ghost use Rattle.dim_text.specs.Cuts.{lines_of, words_of};

    /// The parts between line feeds. The last stands behind the last line feed, so it's no line.
    pub fn lines(bytes: &'a [u8]) -> Parts<'a>
        ensures { result ≡ lines_of bytes.now }
    {
        Parts {
            rest: Some(bytes),
            separator: b'\n',
        }
    }

    /// The parts between spaces.
    pub fn words(line: &'a [u8]) -> Parts<'a>
        ensures { result ≡ words_of line.now }
    {
        Parts {
            rest: Some(line),
            separator: b' ',
        }
    }

    /// The next part, or `None` where none is left.
    pub fn next_part(&mut self) -> Option<&'a [u8]>
        ensures { MatchOption result ((self.old ≡ []) × (self.new ≡ []))
            (λ part. self.old ≡ part.now ∷ self.new) }
    {
        let rest = self.rest?;
        match cut(rest, self.separator) {
            Some((part, behind)) => {
                self.rest = Some(behind);
                Some(part)
            }
            None => {
                self.rest = None;
                Some(rest)
            }
        }
    }

    /// The next part that has a separator behind it. `None` leaves the one part that is left, if
    /// there is one.
    #[tactic(auto, using(crate::proofs::Splitting::split_at_place, crate::proofs::Splitting::split_at_none, crate::proofs::Splitting::some_part))]
    pub fn next_ended(&mut self) -> Option<&'a [u8]>
        ensures { MatchOption result ((length self.old ≤ 1) × (self.new ≡ self.old))
            (λ part. (self.old ≡ part.now ∷ self.new) × (self.new ≢ [])) }
    {
        let rest = self.rest?;
        let at = far_place_of(rest, self.separator)?;
        self.rest = Some(&rest[at + 1..]);
        Some(&rest[..at])
    }

    /// Whether no part is left.
    #[tactic(auto, using(crate::proofs::Splitting::some_part))]
    pub fn is_done(&self) -> bool
        ensures { IsTrue result ↔ (self.now ≡ []) }
    {
        match self.rest {
            None => true,
            Some(_) => false,
        }
    }
}

/// The sides of the one `:` of a word, or `None` where it hasn't exactly one.
#[tactic(auto, using(crate::proofs::Splitting::more_sides))]
pub fn frame_sides(word: &[u8]) -> Option<(&[u8], &[u8])>
    ensures { option_map (λ sides. (sides.0.now, sides.1.now)) result ≡ sides_of word.now }
{
    let (name, offset) = cut(word, b':')?;
    match cut(offset, b':') {
        None => Some((name, offset)),
        Some(_) => None,
    }
}
