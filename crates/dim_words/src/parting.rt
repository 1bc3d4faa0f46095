//! The names and the settings that the words behind a command's word give.
ghost use Rattle.std.specs.Prelude.{◌≡◌, ◌∷◌, ◌++◌, Some, None, IfOk, IfSome, OnOk, option_map, option_and_then};
ghost use Rattle.dim_words.specs.Words.{value_of, asked_by, command_by, command_of, Parted};
ghost use Rattle.dim_words.specs.Ranges.{IsRanged};
ghost use Rattle.dim_words.specs.Found.{given_value, words_taken, taken_with, names_from, one_more, asked_line};

use crate::found::{Found, parse};
use crate::kept::keep;
use crate::kind::{Kind, Setting};
use dim_base::{OutOfMemory, Word};
use std::alloc::Global;
use std::marker::Model;

/// The names, in order, and the settings that were given.
#[derive(Drop)]
pub struct Parting {
    pub names: Vec<Word>,
    pub fuel: Option<u32>,
    pub quantum: Option<u32>,
    pub depth: Option<u32>,
    pub seed: Option<u32>,
    pub workers: Option<u32>,
    pub attempts: Option<u32>,
}

impl Model for Parting {
    ghost use Rattle.dim_words.specs.Words as spec;

    ghost Value = { spec.Parted };

    ghost use Rattle.dim_words.specs.Ranges.{AreRanged};

    ghost view = { λ p. record {
      names = p.names.items;
      fuel = p.fuel;
      quantum = p.quantum;
      depth = p.depth;
      seed = p.seed;
      workers = p.workers;
      attempts = p.attempts;
    } };

    ghost invariant = { λ p. AreRanged p.fuel p.quantum p.depth p.workers p.attempts };
}

/// A command's kind, with what it is given.
#[derive(Drop)]
pub struct Line {
    pub kind: Kind,
    pub parting: Parting,
}

// The value that an option is given. `None` where it is no number of its range.
fn given(setting: Setting, word: Option<&str>) -> Option<Option<u32>>
    ensures value { result ≡ given_value setting (option_map (λ w. w.now) word.entry) }
    ensures range { IfSome result (IsRanged setting) }
{
    match word {
        None => Some(None),
        Some(text) => Some(Some(setting.value(text.as_bytes())?)),
    }
}

// Adds a name that was found.
fn add(alloc: Global, names: &mut Vec<Word>, name: Option<&str>) -> Result<(), OutOfMemory>
    ensures { OnOk result (
        names.new.items ≡ names.old.items ++ one_more (option_map (λ w. w.now) name.entry)) }
{
    if let Some(text) = name {
        names.push(Word::of(alloc, text)?)?;
    }
    Ok(())
}

fn names(alloc: Global, found: &Found) -> Result<Vec<Word>, OutOfMemory>
    ensures { IfOk result (λ names. names.items ≡ names_from found.now) }
{
    let mut names = Vec::new(alloc);
    add(alloc, &mut names, found.first)?;
    add(alloc, &mut names, found.second)?;
    add(alloc, &mut names, found.third)?;
    add(alloc, &mut names, found.fourth)?;
    Ok(names)
}

// These names, and the settings that were found. `None` where a setting's word is no number of its
// range.
fn with_settings(names: Vec<Word>, found: &Found) -> Option<Parting>
    ensures { result ≡ taken_with names.items found.now }
{
    Some(Parting {
        fuel: given(Setting::Fuel, found.fuel)?,
        quantum: given(Setting::Quantum, found.quantum)?,
        depth: given(Setting::Depth, found.depth)?,
        seed: given(Setting::Seed, found.seed)?,
        workers: given(Setting::Workers, found.workers)?,
        attempts: given(Setting::Attempts, found.attempts)?,
        names,
    })
}

// The names and the settings that were found. `None` where a setting's word is no number of its
// range.
fn words_taken(alloc: Global, found: &Found) -> Result<Option<Parting>, OutOfMemory>
    ensures { IfOk result (λ p. p ≡ words_taken found.now) }
{
    let names = names(alloc, found)?;
    Ok(with_settings(names, found))
}

// What the words behind a command's word give. `None` where they are those of no command.
fn part(alloc: Global, kind: Kind, words: &[Word]) -> Result<Option<Parting>, OutOfMemory>
    ensures { IfOk result (λ p. option_and_then (asked_by kind) p ≡ command_by kind words.now) }
{
    let Some(kept) = keep(alloc, kind, words)? else {
        return Ok(None);
    };
    let Some(found) = parse(alloc, kept.words.as_slice())? else {
        return Ok(None);
    };
    words_taken(alloc, &found)
}

/// The command that the words may be, with what it is given.
pub fn read_line(alloc: Global, words: &[Word]) -> Result<Option<Line>, OutOfMemory>
    ensures { IfOk result (λ l. option_and_then asked_line l ≡ command_of words.now) }
{
    let Some((word, behind)) = words.split_first() else {
        return Ok(None);
    };
    let Some(kind) = Kind::of(word) else {
        return Ok(None);
    };
    let Some(parting) = part(alloc, kind, behind)? else {
        return Ok(None);
    };
    Ok(Some(Line { kind, parting }))
}
