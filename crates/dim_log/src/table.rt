//! Words by their numbers.
ghost use Rattle.std.specs.Prelude.{◌≡◌, ◌≢◌, ◌<◌, ◌≤◌, ◌^◌, ◌++◌, ◌∷◌, [], length, not, Some, slice_get, IfOk, OnOk};
ghost use Rattle.std.specs.List.{list_any};
ghost use Rattle.std.specs.Str.{bytes_eq};
ghost use Rattle.dim_log.specs.Tables.{with_new};
ghost use Rattle.dim_log.specs.Seen.{word_at};

use dim_base::{Bytes, OutOfMemory};
use indexmap::IndexSet;
use std::alloc::Global;
use std::marker::Model;

/// Words without doubles, numbered in the order in which they were added.
#[derive(Drop)]
pub struct Table<'a> {
    places: IndexSet<&'a [u8]>,
}

impl<'a> Model for Table<'a> {
    ghost use Rattle.std.specs.Prelude.{List, ℕ, map};

    ghost Value = { List (List ℕ) };

    ghost view = { λ t. map (λ k. k.now) t.places.keys };
}

impl<'a> Table<'a> {
    /// No words yet.
    pub fn new(alloc: Global) -> Table<'a>
        ensures { result ≡ [] }
    {
        Table {
            places: IndexSet::new(alloc),
        }
    }

    /// The number of a word, and whether it is new. A new word gets the next number.
    pub fn add(&mut self, word: &'a [u8]) -> Result<(u32, bool), OutOfMemory>
        requires room { length self.old < 2 ^ 31 }
        ensures words { OnOk result (self.new ≡ with_new bytes_eq self.old word.now) }
        ensures word { IfOk result (λ r. word_at self.new r.0 ≡ word.now) }
        ensures within { IfOk result (λ r. r.0 < length self.new) }
        ensures new { IfOk result (λ r. r.1 ≡ not (list_any (bytes_eq word.now) self.old)) }
    {
        let (place, is_new) = self.places.insert_full(word)?;
        Ok((place as u32, is_new))
    }

    /// The number of a word. A new word gets the next number.
    pub fn number(&mut self, word: &'a [u8]) -> Result<u32, OutOfMemory>
        requires room { length self.old < 2 ^ 31 }
        ensures words { OnOk result (self.new ≡ with_new bytes_eq self.old word.now) }
        ensures word { IfOk result (λ n. word_at self.new n ≡ word.now) }
        ensures within { IfOk result (λ n. n < length self.new) }
    {
        let (number, _) = self.add(word)?;
        Ok(number)
    }

    /// The words in the order of their numbers.
    pub fn words(&self, alloc: Global) -> Result<Vec<Bytes>, OutOfMemory>
        ensures { IfOk result (λ words. words.items ≡ self.now) }
    {
        let mut words = Vec::with_capacity(alloc, self.places.len())?;
        for word in self.places.as_slice() {
            words.push(Bytes::of(alloc, *word)?)?;
        }
        Ok(words)
    }
}
