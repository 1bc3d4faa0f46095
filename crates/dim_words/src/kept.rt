//! The test that goes first over the words that begin with a dash.
ghost use Rattle.std.specs.Prelude.{◌≡◌, ◌≤◌, ◌∷◌, length, IfOk, IfSome};
ghost use Rattle.std.specs.Option.{option_map};
ghost use Rattle.dim_words.specs.Kept.{is_dashed, begun, next_place, may_stand, keep_name, keep_given, kept, kept_after, Keeps, Steps};

use crate::command::is_dash;
use crate::kind::{Kind, Setting};
use crate::seen::Seen;
use dim_base::{OutOfMemory, Word};
use std::alloc::Global;
use std::marker::Model;

/// The words for the parser, as far as they were tested.
#[derive(Drop)]
pub struct Kept<'a> {
    pub words: Vec<&'a str>,
    seen: Seen,
    until: Option<u32>,
}

impl<'a> Model for Kept<'a> {
    ghost use Rattle.std.specs.Prelude.{map};
    ghost use Rattle.dim_words.specs.Kept as spec;

    ghost Value = { spec.Kept };

    ghost view = { λ k. record {
      words = map (λ w. w.now) k.words.items;
      seen = k.seen;
      until = k.until;
    } };
}

// Whether a word begins with a dash.
fn is_dashed(word: &Word) -> bool
    ensures { result ≡ is_dashed word.now }
{
    match word.as_slice() {
        [] => false,
        [first, ..] => *first == b'-',
    }
}

// How many names are yet to come before the history's.
fn next_place(until: Option<u32>) -> Option<u32>
    ensures { result ≡ next_place until }
{
    match until {
        None | Some(0) => None,
        Some(n) => Some(n - 1),
    }
}

// Whether a word may be a name, where so many come before that of the history.
fn may_stand(until: Option<u32>, word: &Word) -> bool
    ensures { result ≡ may_stand until word.now }
{
    !is_dashed(word) || (is_dash(word) && until == Some(0))
}

impl<'a> Kept<'a> {
    fn new(alloc: Global, kind: Kind) -> Result<Kept<'a>, OutOfMemory>
        ensures { IfOk result (λ k. k ≡ begun kind) }
    {
        let mut words = Vec::new(alloc);
        words.push("dim")?;
        words.push(kind.word())?;
        Ok(Kept {
            words,
            seen: Seen::new(),
            until: kind.history_place(),
        })
    }

    // Keeps a name. `None` where it begins with a dash, but for a lone dash in the history's place.
    fn name(&mut self, word: &'a Word) -> Result<Option<()>, OutOfMemory>
        ensures { IfOk result (λ o. Keeps o self.new (keep_name word.now self.old)) }
    {
        if !may_stand(self.until, word) {
            return Ok(None);
        }
        self.words.push(word.as_str())?;
        self.until = next_place(self.until);
        Ok(Some(()))
    }

    // Keeps an option with its value.
    // `None` where the option was met before, or the value begins with a dash.
    fn given(
        &mut self,
        setting: Setting,
        word: &'a Word,
        value: &'a Word,
    ) -> Result<Option<()>, OutOfMemory>
        ensures { IfOk result (λ o.
            Keeps o self.new (keep_given setting word.now value.now self.old)) }
    {
        if is_dashed(value) {
            return Ok(None);
        }
        let Some(seen) = self.seen.marked(setting) else {
            return Ok(None);
        };
        self.seen = seen;
        self.words.push(word.as_str())?;
        self.words.push(value.as_str())?;
        Ok(Some(()))
    }

    // Keeps a name, or an option with its value, and gives the words then left.
    // `None` where they are those of no command.
    fn step(
        &mut self,
        kind: Kind,
        word: &'a Word,
        behind: &'a [Word],
    ) -> Result<Option<&'a [Word]>, OutOfMemory>
        ensures shorter { IfOk result (λ left.
            IfSome left (λ words. length words.now ≤ length behind.now)) }
        ensures steps { IfOk result (λ left.
            Steps kind (kept_after kind self.old (word.now ∷ behind.now))
            self.new (option_map (λ words. words.now) left)) }
    {
        let Some(setting) = Setting::within(kind, word) else {
            return match self.name(word)? {
                Some(()) => Ok(Some(behind)),
                None => Ok(None),
            };
        };
        let Some((value, left)) = behind.split_first() else {
            return Ok(None);
        };
        match self.given(setting, word, value)? {
            Some(()) => Ok(Some(left)),
            None => Ok(None),
        }
    }
}

/// The words for the parser, from those behind a command's word.
///
/// `None` where a word that begins with a dash is neither an option of the command that stands once
/// and has a value without a dash, nor the lone dash in the history's place.
pub fn keep<'a>(
    alloc: Global,
    kind: Kind,
    words: &'a [Word],
) -> Result<Option<Kept<'a>>, OutOfMemory>
    ensures { IfOk result (λ k. k ≡ kept kind words.now) }
{
    let mut kept = Kept::new(alloc, kind)?;
    let mut rest = words;
    while let Some((word, behind)) = rest.split_first() {
        let Some(left) = kept.step(kind, word, behind)? else {
            return Ok(None);
        };
        rest = left;
    }
    Ok(Some(kept))
}
