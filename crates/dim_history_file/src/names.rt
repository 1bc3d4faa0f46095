//! The names in a text.
ghost use Rattle.std.specs.Prelude.{◌≡◌, ◌∷◌, [], IfOk, IsTrue, OnOk, Some, slice_get};
ghost use Rattle.dim_stack.specs.Names.{table_of, HasNamesOf};
ghost use Rattle.dim_history_file.specs.Naming.{names_in_word, names_in_line, names_in};

use crate::recent::Recent;
use dim_base::{OutOfMemory, Word};
use dim_stack::Names;
use dim_text::{Parts, frame_sides, is_word, name};
use indexmap::IndexSet;
use std::alloc::Global;

/// A table of names has fewer than this.
const MOST_NAMES: usize = 4294967295;

// Whether a name stands at a place.
fn is_at(table: &IndexSet<Word>, name: &[u8], place: u32) -> bool
    ensures { IsTrue result → slice_get table.now.keys place ≡ Some name.now }
{
    let words = table.as_slice();
    (place as usize) < words.len() && is_word(words[place as usize].as_slice(), name)
}

// Puts a name in, and notes where it stands.
fn add_name(
    alloc: Global,
    table: &mut IndexSet<Word>,
    recent: &mut Recent,
    name: &str,
) -> Result<(), OutOfMemory>
    ensures { OnOk result (HasNamesOf table.old.keys (name.now ∷ []) table.new.keys) }
{
    let (place, _) = table.insert_full(Word::of(alloc, name)?)?;
    recent.note(name.as_bytes(), u32::try_from(place).unwrap_or(0));
    Ok(())
}

// Puts the name of a word's frame in.
fn add_word(
    alloc: Global,
    table: &mut IndexSet<Word>,
    recent: &mut Recent,
    word: &[u8],
) -> Result<(), OutOfMemory>
    ensures { OnOk result (HasNamesOf table.old.keys (names_in_word word.now) table.new.keys) }
{
    let Some((function, _)) = frame_sides(word) else {
        return Ok(());
    };
    if is_at(table, function, recent.guess(function)) {
        return Ok(());
    }
    match name(function) {
        Some(name) => add_name(alloc, table, recent, name),
        None => Ok(()),
    }
}

// Puts the names of a line's frames in.
fn add_line(
    alloc: Global,
    table: &mut IndexSet<Word>,
    recent: &mut Recent,
    line: &[u8],
) -> Result<(), OutOfMemory>
    ensures { OnOk result (HasNamesOf table.old.keys (names_in_line line.now) table.new.keys) }
{
    let mut words = Parts::words(line);
    while let Some(word) = words.next_part() {
        add_word(alloc, table, recent, word)?;
    }
    Ok(())
}

// The names of a text's frames, in the order in which they come.
fn collect(alloc: Global, bytes: &[u8]) -> Result<IndexSet<Word>, OutOfMemory>
    ensures { IfOk result (λ table. HasNamesOf [] (names_in bytes.now) table.keys) }
{
    let mut table = IndexSet::new(alloc);
    let mut recent = Recent::new();
    let mut lines = Parts::lines(bytes);
    while let Some(line) = lines.next_part() {
        add_line(alloc, &mut table, &mut recent, line)?;
    }
    Ok(table)
}

/// The table of the names in a text. Where there are more than any memory has room for, memory has
/// run out.
pub fn table(alloc: Global, bytes: &[u8]) -> Result<Names, OutOfMemory>
    ensures { IfOk result (λ n. n ≡ table_of (names_in bytes.now)) }
{
    let table = collect(alloc, bytes)?;
    if table.len() > MOST_NAMES {
        return Err(OutOfMemory);
    }
    Names::of_set(table)
}
