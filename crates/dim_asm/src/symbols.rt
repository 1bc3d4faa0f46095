//! Names by their numbers.
ghost use Rattle.std.specs.Prelude.{◌≡◌, ◌++◌, ◌∷◌, [], ◌<◌, ◌-◌, ◌^◌, false, length, slice_get, OnOk, IfSome};
ghost use Rattle.dim_asm.specs.Code.{place_of, has_name};

use dim_base::{OutOfMemory, Word};
use indexmap::IndexSet;
use std::alloc::Global;
use std::marker::Model;

/// Names without doubles, numbered in the order in which they were added.
#[derive(Drop)]
pub struct Symbols {
    words: Vec<Word>,
    places: IndexSet<String>,
}

impl Model for Symbols {
    ghost use Rattle.std.specs.Prelude.{◌≡◌, ◌<◌, ◌^◌, List, ℕ, length, map};
    ghost use Rattle.std.specs.String.{string_bytes};

    ghost Value = { List (List ℕ) };

    ghost view = { λ s. s.words.items };

    ghost invariant = { λ s. record { places : map string_bytes s.places.keys ≡ s.words.items; few : length s.words.items < 2 ^ 32 } };
}

impl Symbols {
    /// No names yet.
    pub fn new(alloc: Global) -> Symbols
        ensures { result ≡ [] }
    {
        Symbols {
            words: Vec::new(alloc),
            places: IndexSet::new(alloc),
        }
    }

    /// How many names there are.
    pub fn len(&self) -> usize
        ensures { result ≡ length self.now }
    {
        self.words.len()
    }

    fn place(&self, name: &str) -> Option<usize>
        ensures value { result ≡ place_of self.now name.now }
        ensures within { IfSome result (λ i. i < length self.now) }
        ensures few { length self.now < 2 ^ 32 }
    {
        self.places.get_index_of(name)
    }

    /// The number of a name, or `None` where it isn't there.
    pub fn find(&self, name: &str) -> Option<u32>
        ensures value { result ≡ place_of self.now name.now }
        ensures within { IfSome result (λ i. i < length self.now) }
    {
        let place = self.place(name)?;
        Some(place as u32)
    }

    /// Whether a name is there.
    pub fn has(&self, name: &str) -> bool
        ensures { result ≡ has_name self.now name.now }
    {
        self.places.contains(name)
    }

    /// Gives a name the next number.
    pub fn add(&mut self, alloc: Global, name: &str) -> Result<(), OutOfMemory>
        requires free { has_name self.old name.now ≡ false }
        requires few { length self.old < 2 ^ 32 - 1 }
        ensures { OnOk result (self.new ≡ self.old ++ name.now ∷ []) }
    {
        let word = Word::of(alloc, name)?;
        let key = String::from_str(alloc, name)?;
        self.words.reserve(1)?;
        self.places.insert(key)?;
        self.words.push_reserved(word);
        Ok(())
    }

    /// The name of a number.
    pub fn name(&self, i: usize) -> &Word
        requires { i < length self.now }
        ensures { slice_get self.now i ≡ Some result.now }
    {
        &self.words[i]
    }
}
