//! Which threads can be one behind the other.
ghost use Rattle.std.specs.Prelude.{◌≡◌, ℕ, ◌==◌, ◌||◌, ◌+◌, ◌^◌, ◌<◌, ◌++◌, ◌∷◌, if◌then◌else◌, false, List, Some, All, Contains, IfOk, IfSome, OnOk, length, map, slice_get, slice_set, []};
ghost use Rattle.dim_log.specs.declared.log.Event.{Event};
ghost use Rattle.dim_log.specs.declared.log.Event.TheVariants as event;
ghost use Rattle.dim_orders.specs.Lines.{AreOnce, IsLine};
ghost use Rattle.dim_orders.specs.Own.{IsWithin, row};
ghost use Rattle.dim_orders.specs.Placing.{AreLasts, ArePlaced, EndsWith, is_placed};

use crate::own::{add, pop, rows, thread_of};
use dim_base::OutOfMemory;
use dim_log::Event;
use std::alloc::Global;

/// Threads put into lines.
#[derive(Drop)]
struct Lines {
    lines: Vec<Vec<u32>>,
    /// The line of each thread that is in one.
    line_of: Vec<Option<usize>>,
    /// The threads that each thread has joined, in which it has looked for none since.
    free: Vec<Vec<u32>>,
}

/// The threads that do something, each in one line, where each but the first of a line was started
/// behind the join of the one before it, by the same thread. The threads of the events need to be
/// among so many.
pub fn lines_of(
    alloc: Global,
    threads: usize,
    events: &[Event],
) -> Result<Vec<Vec<u32>>, OutOfMemory>
    requires { All (IsWithin threads) events.now }
    ensures once { IfOk result (λ lines. AreOnce events.now (map (λ v. v.items) lines.items)) }
    ensures joined { IfOk result (λ lines.
        All (IsLine events.now) (map (λ v. v.items) lines.items)) }
{
    let lasts = lasts_of(alloc, threads, events)?;
    let mut lines = Lines::new(alloc, threads)?;
    for (i, event) in events.iter().enumerate() {
        lines.take(alloc, &lasts, i, event)?;
    }
    Ok(lines.lines)
}

/// For each thread the number of events up to its last.
fn lasts_of(alloc: Global, threads: usize, events: &[Event]) -> Result<Vec<usize>, OutOfMemory>
    requires { All (IsWithin threads) events.now }
    ensures len { IfOk result (λ lasts. length lasts.items ≡ threads) }
    ensures lasts { IfOk result (λ lasts. AreLasts events.now (length events.now) lasts.items) }
{
    let mut lasts = zeros(alloc, threads)?;
    for (i, event) in events.iter().enumerate() {
        lasts[thread_of(event) as usize] = i + 1;
    }
    Ok(lasts)
}

fn zeros(alloc: Global, count: usize) -> Result<Vec<usize>, OutOfMemory>
    ensures { IfOk result (λ v. length v.items ≡ count) }
{
    let mut list = Vec::with_capacity(alloc, count)?;
    for _ in 0..count {
        list.push(0)?;
    }
    Ok(list)
}

/// So many threads, none in a line.
fn none_placed(alloc: Global, count: usize) -> Result<Vec<Option<usize>>, OutOfMemory>
    ensures len { IfOk result (λ v. length v.items ≡ count) }
    ensures none { IfOk result (λ v. (t : ℕ) → is_placed v.items t ≡ false) }
{
    let mut list = Vec::with_capacity(alloc, count)?;
    for _ in 0..count {
        list.push(None)?;
    }
    Ok(list)
}

fn single(alloc: Global, thread: u32) -> Result<Vec<u32>, OutOfMemory>
    ensures { IfOk result (λ v. v.items ≡ thread ∷ []) }
{
    let mut line = Vec::new(alloc);
    line.push(thread)?;
    Ok(line)
}

impl Lines {
    fn new(alloc: Global, threads: usize) -> Result<Lines, OutOfMemory>
        ensures len { IfOk result (λ l. length l.line_of.items ≡ threads) }
        ensures free { IfOk result (λ l. length l.free.items ≡ threads) }
        ensures placed { IfOk result (λ l. (events : List Event) → ArePlaced events 0
            (map (λ v. v.items) l.lines.items) l.line_of.items (map (λ v. v.items) l.free.items)) }
    {
        let line_of = none_placed(alloc, threads)?;
        let free = rows(alloc, threads)?;
        Ok(Lines {
            lines: Vec::new(alloc),
            line_of,
            free,
        })
    }

    /// Takes the event at a place.
    fn take(
        &mut self,
        alloc: Global,
        lasts: &[usize],
        i: usize,
        event: &Event,
    ) -> Result<(), OutOfMemory>
        requires within { IsWithin (length self.old.line_of.items) event.now }
        requires free { length self.old.free.items ≡ length self.old.line_of.items }
        requires lasts { length lasts.now ≡ length self.old.line_of.items }
        requires small { i + 1 < 2 ^ 64 }
        ensures len { length self.new.line_of.items ≡ length self.old.line_of.items }
        ensures free { length self.new.free.items ≡ length self.old.free.items }
        ensures placed { OnOk result ((events : List Event) → slice_get events i ≡ Some event.now
            → AreLasts events (length events) lasts.now
            → ArePlaced events i (map (λ v. v.items) self.old.lines.items)
            self.old.line_of.items (map (λ v. v.items) self.old.free.items)
            → ArePlaced events (i + 1) (map (λ v. v.items) self.new.lines.items)
            self.new.line_of.items (map (λ v. v.items) self.new.free.items)) }
    {
        self.begin(alloc, thread_of(event))?;
        match *event {
            Event::Start { thread, other } => self.start(alloc, thread, other),
            Event::Join { thread, other } => self.join(alloc, thread, other, lasts, i),
            _ => Ok(()),
        }
    }

    /// Puts a thread into a line of its own, where it is in none.
    fn begin(&mut self, alloc: Global, thread: u32) -> Result<(), OutOfMemory>
        requires { thread < length self.old.line_of.items }
        ensures len { length self.new.line_of.items ≡ length self.old.line_of.items }
        ensures free { self.new.free ≡ self.old.free }
        ensures lines { OnOk result (map (λ v. v.items) self.new.lines.items
            ≡ (if is_placed self.old.line_of.items thread
            then map (λ v. v.items) self.old.lines.items
            else map (λ v. v.items) self.old.lines.items ++ (thread ∷ []) ∷ [])) }
        ensures placed { (t : ℕ) → is_placed self.new.line_of.items t
            ≡ (is_placed self.old.line_of.items t || t == thread) }
    {
        if self.line_of[thread as usize].is_none() {
            self.line_of[thread as usize] = Some(self.lines.len());
            self.lines.push(single(alloc, thread)?)?;
        }
        Ok(())
    }

    /// Puts a thread that is started behind one that the same thread joined, where there is one
    /// with none behind it yet.
    fn start(&mut self, alloc: Global, by: u32, thread: u32) -> Result<(), OutOfMemory>
        requires by { by < length self.old.free.items }
        requires thread { thread < length self.old.line_of.items }
        ensures len { length self.new.line_of.items ≡ length self.old.line_of.items }
        ensures free { length self.new.free.items ≡ length self.old.free.items }
        ensures placed { OnOk result ((events : List Event) (n : ℕ)
            → slice_get events n ≡ Some (event.Start by thread)
            → ArePlaced events (n + 1) (map (λ v. v.items) self.old.lines.items)
            self.old.line_of.items (map (λ v. v.items) self.old.free.items)
            → ArePlaced events (n + 1) (map (λ v. v.items) self.new.lines.items)
            self.new.line_of.items (map (λ v. v.items) self.new.free.items)) }
    {
        if self.line_of[thread as usize].is_none() {
            if let Some(line) = self.take_free(by) {
                return self.put(line, thread);
            }
        }
        self.begin(alloc, thread)
    }

    /// Notes that a thread joined another, where that does nothing later.
    fn join(
        &mut self,
        alloc: Global,
        by: u32,
        thread: u32,
        lasts: &[usize],
        i: usize,
    ) -> Result<(), OutOfMemory>
        requires by { by < length self.old.free.items }
        requires thread { thread < length self.old.line_of.items }
        requires lasts { length lasts.now ≡ length self.old.line_of.items }
        requires small { i + 1 < 2 ^ 64 }
        ensures len { length self.new.line_of.items ≡ length self.old.line_of.items }
        ensures free { length self.new.free.items ≡ length self.old.free.items }
        ensures placed { OnOk result ((events : List Event)
            → slice_get events i ≡ Some (event.Join by thread)
            → AreLasts events (length events) lasts.now
            → ArePlaced events (i + 1) (map (λ v. v.items) self.old.lines.items)
            self.old.line_of.items (map (λ v. v.items) self.old.free.items)
            → ArePlaced events (i + 1) (map (λ v. v.items) self.new.lines.items)
            self.new.line_of.items (map (λ v. v.items) self.new.free.items)) }
    {
        self.begin(alloc, thread)?;
        if lasts[thread as usize] <= i + 1 {
            add(&mut self.free, by as usize, thread)?;
        }
        Ok(())
    }

    /// The number of a line whose last thread this one has joined, which it takes.
    fn take_free(&mut self, by: u32) -> Option<usize>
        requires { by < length self.old.free.items }
        ensures lines { self.new.lines ≡ self.old.lines }
        ensures line_of { self.new.line_of ≡ self.old.line_of }
        ensures len { length self.new.free.items ≡ length self.old.free.items }
        ensures fewer { (x a : ℕ) → Contains (row self.new.free.items x) a
            → Contains (row self.old.free.items x) a }
        ensures found { IfSome result (λ line. (a : ℕ) × Contains (row self.old.free.items by) a
            × EndsWith (map (λ v. v.items) self.old.lines.items) line a) }
    {
        while let Some(thread) = pop(&mut self.free, by as usize) {
            if let Some(line) = self.line_with_last(thread) {
                return Some(line);
            }
        }
        None
    }

    /// The number of the line that ends with a thread.
    fn line_with_last(&self, thread: u32) -> Option<usize>
        ensures { IfSome result (λ line.
            EndsWith (map (λ v. v.items) self.now.lines.items) line thread) }
    {
        let line = self.line_of.get(thread as usize).copied()??;
        let last = self.lines.get(line)?.last()?;
        if *last == thread { Some(line) } else { None }
    }

    /// Puts a thread at the end of a line.
    fn put(&mut self, line: usize, thread: u32) -> Result<(), OutOfMemory>
        requires line { line < length self.old.lines.items }
        requires thread { thread < length self.old.line_of.items }
        ensures len { length self.new.line_of.items ≡ length self.old.line_of.items }
        ensures free { self.new.free ≡ self.old.free }
        ensures lines { OnOk result (map (λ v. v.items) self.new.lines.items
            ≡ slice_set (map (λ v. v.items) self.old.lines.items) line
            (row self.old.lines.items line ++ thread ∷ [])) }
        ensures placed { (t : ℕ) → is_placed self.new.line_of.items t
            ≡ (is_placed self.old.line_of.items t || t == thread) }
    {
        self.line_of[thread as usize] = Some(line);
        add(&mut self.lines, line, thread)
    }
}
