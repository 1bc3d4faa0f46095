//! The reader of a history, line by line.
ghost use Rattle.std.specs.Prelude.{◌≡◌, ◌<◌, Some, OnOk, length, map};
ghost use Rattle.dim_text.specs.Reading.{Gives, Leaves, in_line};
ghost use Rattle.dim_text.specs.Cuts.{words_of};
ghost use Rattle.dim_text.specs.Stops.{kind_of};
ghost use Rattle.dim_stack.specs.Names.{IsNamedBy, HasNames};
ghost use Rattle.dim_signature.specs.Sig.{IsSig};
ghost use Rattle.dim_signature.specs.Sorted.{AreSorted};
ghost use Rattle.dim_history_file.specs.Faults.{fault, fault_of};
ghost use Rattle.dim_history_file.specs.Value.{named_stack};
ghost use Rattle.dim_history_file.specs.Judging.{head_line, signature_line, end_line, due_line, stack_line, is_less_than_last, signature_with, step, at_end, start, with_signature};
ghost use Rattle.dim_history_file.specs.Naming.{names_in_line};
ghost use Rattle.dim_history_file.specs.Signing.{opened};

use crate::fault::in_line;
use crate::frames::stack;
use crate::opening::{Form, Opening};
use crate::recent::Recent;
use crate::signing::{enter, signature};
use crate::version::Version;
use crate::{FileKind, ReadFault};
use dim_signature::{Catalogue, MOST_SIGNATURES};
use dim_stack::{Names, Stack, compare};
use dim_text::{Parts, Stop, number, one_word, unless};
use std::alloc::Global;

/// What is due.
#[derive(Clone, Copy, Debug, PartialEq, Eq)]
pub enum Stage {
    /// The first line.
    Head,
    /// A signature or the end.
    Due,
    /// A stack of a signature with this line.
    Stacks(Opening),
    /// Nothing more.
    Closed,
}

/// What has been read so far.
#[derive(Drop)]
pub struct Reader {
    // The version of the text, from its first line on.
    pub version: Version,
    pub stage: Stage,
    // The names of all functions of the text.
    pub names: Names,
    // Where some of them were found last.
    pub recent: Recent,
    pub catalogue: Catalogue,
    // The stacks of the signature that is being read.
    pub stacks: Vec<Stack>,
}

impl Reader {
    ghost use Rattle.dim_history_file.specs.Reader.{IsReading, sigs_of, state_of, begun_of};
    ghost use Rattle.dim_history_file.specs.Grammar.{FitsStage, IsBegun};

    /// Nothing yet.
    pub fn new(alloc: Global, names: Names) -> Reader
        ensures state { state_of result ≡ start }
        ensures names { result.names ≡ names }
        ensures reading { IsReading result }
    {
        let _few = names.len();
        Reader {
            version: Version::Two,
            stage: Stage::Head,
            names,
            recent: Recent::new(),
            catalogue: Catalogue::new(alloc),
            stacks: Vec::new(alloc),
        }
    }

    // `dim history 1` or `dim history 2`
    #[tactic(auto, unfolding(crate::specs::Judging::head_line))]
    fn head_line(&mut self, line: &[u8]) -> Result<(), FileKind>
        ensures value { Leaves Some (state_of self.new) result
            (head_line (sigs_of self.old) line.now) }
        ensures names { self.new.names ≡ self.old.names }
        ensures reading { IsReading self.old → IsReading self.new }
    {
        self.version = Version::of(line).ok_or(FileKind::Head)?;
        self.stage = Stage::Due;
        Ok(())
    }

    // `signature DEPTH COUNT`, and from version 2 on with STATE and YIELDS
    #[tactic(auto, unfolding(crate::specs::Judging::signature_line))]
    fn signature_line(&mut self, words: &mut Parts) -> Result<(), FileKind>
        ensures value { Leaves Some (state_of self.new) result
            (signature_line self.old.version (sigs_of self.old) words.old) }
        ensures names { self.new.names ≡ self.old.names }
        ensures reading { IsReading self.old → IsReading self.new }
    {
        let form = Form::of(self.version, words)?;
        unless(self.catalogue.len() == MOST_SIGNATURES, FileKind::Limit)?;
        let opening = form.opening()?;
        self.stacks.clear();
        self.stage = Stage::Stacks(opening);
        Ok(())
    }

    // `end N`
    #[tactic(auto, unfolding(crate::specs::Judging::end_line))]
    fn end_line(&mut self, words: &mut Parts) -> Result<(), FileKind>
        ensures value { Leaves Some (state_of self.new) result
            (end_line self.old.version (sigs_of self.old) words.old) }
        ensures names { self.new.names ≡ self.old.names }
        ensures reading { IsReading self.old → IsReading self.new }
    {
        let word = one_word(words, FileKind::Line)?;
        let n = number(word, MOST_SIGNATURES).ok_or(FileKind::Number)?;
        unless(n != self.catalogue.len(), FileKind::Count)?;
        self.stage = Stage::Closed;
        Ok(())
    }

    // A line where a signature or the end is due.
    #[tactic(auto, unfolding(crate::specs::Judging::due_line))]
    fn due_line(&mut self, words: &mut Parts) -> Result<(), FileKind>
        ensures value { Leaves Some (state_of self.new) result
            (due_line self.old.version (sigs_of self.old) words.old) }
        ensures names { self.new.names ≡ self.old.names }
        ensures reading { IsReading self.old → IsReading self.new }
    {
        match words.next_part() {
            Some(first) if first == b"signature".as_slice() => self.signature_line(words),
            Some(first) if first == b"end".as_slice() => self.end_line(words),
            _ => Err(FileKind::Line),
        }
    }

    // Whether a stack is less than the last that was read.
    fn is_less_than_last(&self, stack: &Stack) -> bool
        requires reading { IsReading self.now }
        requires named { IsNamedBy self.now.names stack.now }
        ensures { result ≡ is_less_than_last (named_stack self.now.names stack.now)
            (map (named_stack self.now.names) self.now.stacks.items) }
    {
        match self.stacks.last() {
            Some(last) => compare(stack, last).is_lt(),
            None => false,
        }
    }

    // Makes the signature of this line and the stacks that were read.
    fn end_signature(&mut self, alloc: Global, opening: Opening) -> Result<(), Stop<FileKind>>
        requires reading { IsReading self.old }
        requires sorted { AreSorted self.old.stacks.items }
        requires in_range { IsSig (opened opening self.old.stacks.items) }
        requires room { length self.old.catalogue.sigs < 4096 }
        ensures value { Leaves kind_of (state_of self.new) result
            (with_signature self.old.version (sigs_of self.old)
            (signature_with opening (map (named_stack self.old.names) self.old.stacks.items))) }
        ensures names { self.new.names ≡ self.old.names }
        ensures reading { OnOk result (IsReading self.new) }
    {
        let sig = signature(alloc, opening, &self.stacks)?;
        self.stage = Stage::Due;
        enter(&mut self.catalogue, sig)
    }

    // A stack of a signature with this line.
    #[tactic(auto, unfolding(crate::specs::Judging::stack_line))]
    fn stack_line(
        &mut self,
        alloc: Global,
        opening: Opening,
        line: &[u8],
    ) -> Result<(), Stop<FileKind>>
        requires stage { self.old.stage ≡ Stage.Stacks opening }
        requires reading { IsReading self.old }
        requires begun { IsBegun self.old.version (sigs_of self.old) (begun_of self.old opening) }
        requires covers { HasNames self.old.names (names_in_line line.now) }
        ensures value { Leaves kind_of (state_of self.new) result
            (stack_line self.old.version (sigs_of self.old)
            (begun_of self.old opening) (words_of line.now)) }
        ensures names { self.new.names ≡ self.old.names }
        ensures reading { OnOk result (IsReading self.new) }
    {
        let stack = stack(&self.names, &mut self.recent, line)?;
        unless(self.is_less_than_last(&stack), FileKind::Unsorted)?;
        self.stacks.push(stack)?;
        if self.stacks.len() < opening.count as usize {
            return Ok(());
        }
        self.end_signature(alloc, opening)
    }

    // Takes a line.
    #[tactic(auto, unfolding(crate::specs::Judging::step))]
    fn take(&mut self, alloc: Global, line: &[u8]) -> Result<(), Stop<FileKind>>
        requires reading { IsReading self.old }
        requires fits { FitsStage (state_of self.old) }
        requires covers { HasNames self.old.names (names_in_line line.now) }
        ensures value { Leaves kind_of (state_of self.new) result
            (step (state_of self.old) line.now) }
        ensures names { self.new.names ≡ self.old.names }
        ensures reading { OnOk result (IsReading self.new) }
    {
        match self.stage {
            Stage::Head => self.head_line(line)?,
            Stage::Due => self.due_line(&mut Parts::words(line))?,
            Stage::Stacks(opening) => self.stack_line(alloc, opening, line)?,
            Stage::Closed => return Err(Stop::Bad(FileKind::Rest)),
        }
        Ok(())
    }

    /// Reads the line of this number.
    pub fn step(&mut self, alloc: Global, number: u32, line: &[u8]) -> Result<(), ReadFault>
        requires reading { IsReading self.old }
        requires fits { FitsStage (state_of self.old) }
        requires covers { HasNames self.old.names (names_in_line line.now) }
        ensures value { Leaves fault_of (state_of self.new) result
            (in_line fault number (step (state_of self.old) line.now)) }
        ensures names { self.new.names ≡ self.old.names }
        ensures reading { OnOk result (IsReading self.new) }
    {
        in_line(number, self.take(alloc, line))
    }

    /// Whether the text may end here.
    #[tactic(auto, unfolding(crate::specs::Judging::at_end))]
    pub fn finish(&self, last: &[u8]) -> Result<(), Stop<FileKind>>
        ensures { Gives kind_of (λ _. sigs_of self.now) result
            (at_end (state_of self.now) last.now) }
    {
        match self.stage {
            Stage::Closed if last.is_empty() => Ok(()),
            Stage::Head => Err(Stop::Bad(FileKind::Head)),
            Stage::Closed => Err(Stop::Bad(FileKind::Rest)),
            Stage::Due | Stage::Stacks(_) => Err(Stop::Bad(FileKind::Line)),
        }
    }
}
