//! Stacks by their numbers.
ghost use Rattle.std.specs.Prelude.{◌≡◌, ◌<◌, ◌≤◌, ◌+◌, ◌^◌, [], IfErr, IfOk, OnOk, length};
ghost use Rattle.std.specs.Str.{bytes_eq};
ghost use Rattle.dim_text.specs.Cuts.{words_of};
ghost use Rattle.dim_text.specs.Reading.{Fails};
ghost use Rattle.dim_text.specs.Stops.{kind_of};
ghost use Rattle.dim_log.specs.Tables.{with_new};
ghost use Rattle.dim_log.specs.Saying.{frames_of};

use crate::frames::spots;
use crate::table::Table;
use crate::{LogFaultKind, Spot};
use dim_text::Stop;
use std::alloc::Global;

/// Stacks without doubles, numbered in the order in which they were added.
///
/// A stack has one text, so that it is found by its text, which is read once.
#[derive(Drop)]
pub struct Stacks<'a> {
    pub functions: Table<'a>,
    pub texts: Table<'a>,
    pub stacks: Vec<Vec<Spot>>,
}

impl<'a> Stacks<'a> {
    ghost use Rattle.dim_log.specs.Reader.{seen, AreSound, Numbered};

    /// No stacks yet.
    pub fn new(alloc: Global) -> Stacks<'a>
        ensures functions { result.functions ≡ [] }
        ensures texts { result.texts ≡ [] }
        ensures stacks { seen result ≡ [] }
        ensures sound { AreSound result }
    {
        Stacks {
            functions: Table::new(alloc),
            texts: Table::new(alloc),
            stacks: Vec::new(alloc),
        }
    }

    /// The number of the stack that a text spells. A new stack gets the next number.
    pub fn number(&mut self, alloc: Global, text: &'a [u8]) -> Result<u32, Stop<LogFaultKind>>
        requires sound { AreSound self.old }
        requires room { length self.old.functions + length (words_of text.now) ≤ 2 ^ 31 }
        requires few { length self.old.texts < 2 ^ 31 }
        ensures failed { IfErr result (λ e. Fails (kind_of e) (frames_of (words_of text.now))) }
        ensures numbered { IfOk result (Numbered self.old self.new text.now) }
        ensures texts { OnOk result (self.new.texts ≡ with_new bytes_eq self.old.texts text.now) }
    {
        let (number, is_new) = self.texts.add(text)?;
        if is_new {
            let stack = spots(alloc, &mut self.functions, text)?;
            self.stacks.push(stack)?;
        }
        Ok(number)
    }
}
