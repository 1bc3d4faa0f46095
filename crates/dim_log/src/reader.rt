//! The reader of a log, line by line.
ghost use Rattle.std.specs.Prelude.{◌≡◌, ◌<◌, ◌≤◌, ◌+◌, ◌^◌, ℕ, [], IfErr, IfOk, OnOk, length};
ghost use Rattle.dim_text.specs.Cuts.{words_of};
ghost use Rattle.dim_text.specs.Reading.{Fails, Leaves, in_line};
ghost use Rattle.dim_text.specs.Stops.{kind_of};
ghost use Rattle.dim_log.specs.Faults.{fault, fault_of};
ghost use Rattle.dim_log.specs.Saying.{step};
ghost use Rattle.dim_log.specs.Line.{frame_words, said_line, stack_at_site};

use crate::fault::in_line;
use crate::line::{Deed, Line, Site, parse};
use crate::stacks::Stacks;
use crate::table::Table;
use crate::{Event, Log, LogError, LogFaultKind};
use dim_base::OutOfMemory;
use dim_text::Stop;
use std::alloc::Global;

/// What has been read so far.
#[derive(Drop)]
pub struct Reader<'a> {
    pub threads: Table<'a>,
    pub locks: Table<'a>,
    pub stacks: Stacks<'a>,
    pub events: Vec<Event>,
}

impl<'a> Reader<'a> {
    ghost use Rattle.dim_log.specs.Reader.{said, weight, Adds, AreSound, HasRoom, IsReading, Takes, TakesSite};

    /// Nothing yet.
    pub fn new(alloc: Global) -> Reader<'a>
        ensures said { said result ≡ [] }
        ensures reading { IsReading result }
        ensures room { (n : ℕ) → n ≤ 2 ^ 31 → HasRoom result n }
    {
        Reader {
            threads: Table::new(alloc),
            locks: Table::new(alloc),
            stacks: Stacks::new(alloc),
            events: Vec::new(alloc),
        }
    }

    // The number of a thread.
    fn add_thread(&mut self, word: &'a [u8]) -> Result<u32, OutOfMemory>
        requires room { length self.old.threads < 2 ^ 31 }
        ensures { IfOk result (Adds self.old self.new word.now) }
    {
        self.threads.number(word)
    }

    // The numbers of a lock and of the stack at which it is used.
    fn take_site(
        &mut self,
        alloc: Global,
        site: &Site<'a>,
    ) -> Result<(u32, u32), Stop<LogFaultKind>>
        requires sound { AreSound self.old.stacks }
        requires room { HasRoom self.old (length (words_of site.now.frames.now) + 1) }
        ensures failed { IfErr result (λ e. Fails (kind_of e) (stack_at_site site.now)) }
        ensures taken { IfOk result (λ r. TakesSite self.old self.new site.now r.0 r.1) }
    {
        let lock = self.locks.number(site.lock)?;
        let stack = self.stacks.number(alloc, site.frames)?;
        Ok((lock, stack))
    }

    // The event of a line.
    fn take_line(&mut self, alloc: Global, line: &Line<'a>) -> Result<Event, Stop<LogFaultKind>>
        requires sound { AreSound self.old.stacks }
        requires room { HasRoom self.old (frame_words line.now.deed + 2) }
        ensures failed { IfErr result (λ e. Fails (kind_of e) (said_line line.now)) }
        ensures taken { IfOk result (λ e. Takes self.old self.new line.now e) }
    {
        let thread = self.add_thread(line.thread)?;
        match &line.deed {
            Deed::Lock(site) => {
                let (lock, stack) = self.take_site(alloc, site)?;
                Ok(Event::Lock {
                    thread,
                    lock,
                    stack,
                })
            }
            Deed::Try(site, took) => {
                let (lock, stack) = self.take_site(alloc, site)?;
                Ok(Event::Try {
                    thread,
                    lock,
                    stack,
                    took: *took,
                })
            }
            Deed::Unlock(site) => {
                let (lock, stack) = self.take_site(alloc, site)?;
                Ok(Event::Unlock {
                    thread,
                    lock,
                    stack,
                })
            }
            Deed::Start(other) => {
                let other = self.add_thread(*other)?;
                Ok(Event::Start { thread, other })
            }
            Deed::Join(other) => {
                let other = self.add_thread(*other)?;
                Ok(Event::Join { thread, other })
            }
        }
    }

    // Takes a line.
    #[tactic(auto, unfolding(crate::specs::Saying::step))]
    fn take(&mut self, alloc: Global, text: &'a [u8]) -> Result<(), Stop<LogFaultKind>>
        requires reading { IsReading self.old }
        requires room { HasRoom self.old (weight text.now) }
        ensures value { Leaves kind_of (said self.new) result (step (said self.old) text.now) }
        ensures reading { OnOk result (IsReading self.new) }
        ensures room { OnOk result ((n : ℕ) → HasRoom self.old (weight text.now + n)
            → HasRoom self.new n) }
    {
        let line = parse(text)?;
        let event = self.take_line(alloc, &line)?;
        self.events.push(event)?;
        Ok(())
    }

    /// Reads the line of this number.
    pub fn step(&mut self, alloc: Global, number: u32, line: &'a [u8]) -> Result<(), LogError>
        requires reading { IsReading self.old }
        requires room { HasRoom self.old (weight line.now) }
        ensures value { Leaves fault_of (said self.new) result
            (in_line fault number (step (said self.old) line.now)) }
        ensures reading { OnOk result (IsReading self.new) }
        ensures room { OnOk result ((n : ℕ) → HasRoom self.old (weight line.now + n)
            → HasRoom self.new n) }
    {
        in_line(number, self.take(alloc, line))
    }

    /// The log of what was read.
    pub fn finish(self, alloc: Global, cut: bool) -> Result<Log, OutOfMemory>
        ensures threads { IfOk result (λ log. log.threads.items ≡ self.entry.threads) }
        ensures locks { IfOk result (λ log. log.locks.items ≡ self.entry.locks) }
        ensures functions { IfOk result (λ log. log.functions.items ≡ self.entry.stacks.functions) }
        ensures stacks { IfOk result (λ log. log.stacks ≡ self.entry.stacks.stacks) }
        ensures events { IfOk result (λ log. log.events ≡ self.entry.events) }
        ensures cut { IfOk result (λ log. log.cut ≡ cut) }
    {
        let Reader {
            threads,
            locks,
            stacks,
            events,
        } = self;
        let Stacks {
            functions,
            stacks,
            ..
        } = stacks;
        Ok(Log {
            threads: threads.words(alloc)?,
            locks: locks.words(alloc)?,
            functions: functions.words(alloc)?,
            stacks,
            events,
            cut,
        })
    }
}
