//! Names of functions, by their numbers.
ghost use Rattle.std.specs.Prelude.{◌≡◌, ◌+◌, ◌++◌, ◌<◌, ◌^◌, All, IfOk, IsTrue, OnOk, Some, length, slice_get};
ghost use Rattle.dim_text.specs.Naming.{IsName};
ghost use Rattle.dim_stack.specs.Names.{HasNamesOf, IsTable, name_number, table_of};

use dim_base::{OutOfMemory, Word};
use dim_text::is_word;
use indexmap::IndexSet;
use std::alloc::Global;
use std::marker::Model;

/// A sorted table of names without doubles. The number of a name is its place, so numbers are in
/// the order of names.
///
/// Names are compared byte by byte, and a proper prefix comes first.
#[derive(Debug, Drop)]
pub struct Names {
    table: IndexSet<Word>,
}

impl Model for Names {
    ghost use Rattle.std.specs.Prelude.{List, ℕ};
    ghost use Rattle.dim_stack.specs.Names.{IsTable};

    ghost Value = { List (List ℕ) };

    ghost view = { λ n. n.table.keys };

    ghost invariant = { λ n. IsTable n.table.keys };
}

impl Names {
    /// The table of these names, in which each stands once.
    pub fn of(alloc: Global, words: &[Word]) -> Result<Names, OutOfMemory>
        requires few { length words.now < 2 ^ 32 }
        requires named { All IsName words.now }
        ensures { IfOk result (λ n. n ≡ table_of words.now) }
    {
        let mut table = IndexSet::new(alloc);
        add_words(alloc, &mut table, words)?;
        sort_words(&mut table)?;
        Ok(Names { table })
    }

    /// The table of the names of a set, which takes no memory for them.
    pub fn of_set(set: IndexSet<Word>) -> Result<Names, OutOfMemory>
        requires few { length set.keys < 2 ^ 32 }
        requires named { All IsName set.keys }
        ensures { IfOk result (λ n. n ≡ table_of set.keys) }
    {
        let mut table = set;
        sort_words(&mut table)?;
        Ok(Names { table })
    }

    /// The table of the names of both.
    pub fn merge(alloc: Global, a: &Names, b: &Names) -> Result<Names, OutOfMemory>
        requires { length a.now + length b.now < 2 ^ 32 }
        ensures { IfOk result (λ n. n ≡ table_of (a.now ++ b.now)) }
    {
        let mut table = IndexSet::new(alloc);
        add_words(alloc, &mut table, a.table.as_slice())?;
        add_words(alloc, &mut table, b.table.as_slice())?;
        sort_words(&mut table)?;
        Ok(Names { table })
    }

    /// How many names there are.
    pub fn len(&self) -> u32
        ensures len { result ≡ length self.now }
        ensures table { IsTable self.now }
    {
        self.table.len() as u32
    }

    /// The number of a name, and None where it is not there.
    pub fn number(&self, w: &Word) -> Option<u32>
        ensures { result ≡ name_number self.now w.now }
    {
        match self.table.get_index_of(w) {
            Some(i) => Some(i as u32),
            None => None,
        }
    }

    /// The number of the name that a text spells, and None where it is not there.
    pub fn find(&self, name: &[u8]) -> Option<u32>
        ensures { result ≡ name_number self.now name.now }
    {
        let place = self
            .table
            .as_slice()
            .binary_search_by(|word| word.as_slice().cmp(name));
        match place {
            Ok(i) => Some(i as u32),
            Err(_) => None,
        }
    }

    /// What `find` answers, which is fast where the name has the number `guess`.
    pub fn find_with_guess(&self, name: &[u8], guess: u32) -> Option<u32>
        ensures { result ≡ name_number self.now name.now }
    {
        if self.has_number(name, guess) {
            return Some(guess);
        }
        self.find(name)
    }

    // Whether this is the number of the name that a text spells.
    fn has_number(&self, name: &[u8], number: u32) -> bool
        ensures { IsTrue result → name_number self.now name.now ≡ Some number }
    {
        number < self.len() && is_word(self.name(number).as_slice(), name)
    }

    /// The name with a number. It needs `n` below the length.
    pub fn name(&self, n: u32) -> &Word
        requires { n < length self.now }
        ensures name { slice_get self.now n ≡ Some result.now }
        ensures named { IsName result.now }
    {
        &self.table.as_slice()[n as usize]
    }
}

// Puts the words in that are not there yet.
fn add_words(alloc: Global, table: &mut IndexSet<Word>, words: &[Word]) -> Result<(), OutOfMemory>
    ensures { OnOk result (HasNamesOf table.old.keys words.now table.new.keys) }
{
    for word in words {
        table.insert(Word::of(alloc, word.as_str())?)?;
    }
    Ok(())
}

// Puts the words of a table in order.
fn sort_words(table: &mut IndexSet<Word>) -> Result<(), OutOfMemory>
    ensures { OnOk result (table.new.keys ≡ table_of table.old.keys) }
{
    table.sort()?;
    Ok(())
}
