//! What the threads of a program do, item by item.
use crate::transcript::{Limit, Transcribe};
use dim_orders::{Chain, Deed, Operation};
use indexmap::IndexSet;
use std::alloc::Global;

/// There can't be more items than instructions.
const MOST_ITEMS: usize = 65536;

/// An operation on a lock of the program, with a stack of the log, and which items come next:
/// behind it, and behind a try that missed.
#[derive(Clone, Copy, Debug)]
pub struct Step {
    pub deed: Deed,
    pub lock: usize,
    pub stack: u32,
    pub next: usize,
    pub missed: usize,
}

/// What the threads do: the locks in the order in which they come, the items of all threads, of
/// which one that ends its thread is `None`, and where each thread's begin.
///
/// Behind a thread's own items stand those that a missed try needs: they free what its section
/// holds, the newest first, and lead to the next section.
#[derive(Drop)]
pub struct Items {
    pub locks: IndexSet<u32>,
    pub steps: Vec<Option<Step>>,
    pub starts: Vec<usize>,
}

impl Items {
    /// The items of some chains.
    pub fn of(alloc: Global, chains: &[Chain]) -> Result<Items, Transcribe> {
        let mut items = Items {
            locks: IndexSet::new(alloc),
            steps: Vec::new(alloc),
            starts: Vec::new(alloc),
        };
        for chain in chains.iter() {
            items.put_chain(alloc, &chain.operations)?;
        }
        Ok(items)
    }

    /// Appends the items of a chain.
    fn put_chain(&mut self, alloc: Global, operations: &[Operation]) -> Result<(), Transcribe> {
        let first = self.steps.len();
        self.starts.push(first)?;
        let behind = behind_sections(alloc, operations)?;
        let mut held = Vec::new(alloc);
        let mut more = Releases::behind(alloc, first.saturating_add(operations.len()));
        for (i, o) in operations.iter().enumerate() {
            let lock = self.locks.insert_full(o.lock)?.0;
            let next = first.saturating_add(i);
            let section = first.saturating_add(behind.get(i).copied().unwrap_or(0));
            let missed = more.missed(o, &held, section)?;
            self.steps.push(Some(Step {
                deed: o.deed,
                lock,
                stack: o.stack,
                next: next.saturating_add(1),
                missed,
            }))?;
            holds_after(&mut held, o.deed, lock)?;
            within(self.steps.len().saturating_add(more.steps.len()))?;
        }
        self.steps.push(None)?;
        for step in more.steps.iter() {
            self.steps.push(Some(*step))?;
        }
        Ok(())
    }
}

/// Whether so many items are few enough.
fn within(items: usize) -> Result<(), Transcribe> {
    if items > MOST_ITEMS {
        return Err(Transcribe::Over {
            limit: Limit::Instructions,
            count: items as u64,
        });
    }
    Ok(())
}

/// What is held behind an operation, the newest last.
fn holds_after(held: &mut Vec<usize>, deed: Deed, lock: usize) -> Result<(), Transcribe> {
    match deed {
        Deed::Lock | Deed::Try => held.push(lock)?,
        Deed::Unlock => {
            if let Some(place) = held.iter().rposition(|l| *l == lock) {
                held.remove(place);
            }
        }
    }
    Ok(())
}

/// For each operation, the place of the one behind its section, at whose end nothing is held.
fn behind_sections(alloc: Global, operations: &[Operation]) -> Result<Vec<usize>, Transcribe> {
    let mut behind = Vec::new(alloc);
    let mut holds: usize = 0;
    for (i, o) in operations.iter().enumerate() {
        holds = match o.deed {
            Deed::Lock | Deed::Try => holds.saturating_add(1),
            Deed::Unlock => holds.saturating_sub(1),
        };
        if holds == 0 {
            behind.resize(i.saturating_add(1), i.saturating_add(1))?;
        }
    }
    behind.resize(operations.len(), operations.len())?;
    Ok(behind)
}

/// The items that free what is held at a missed try, and the number of the first one.
#[derive(Drop)]
struct Releases {
    first: usize,
    steps: Vec<Step>,
}

impl Releases {
    /// None so far, and they will stand behind the item of this number, which ends the thread.
    fn behind(alloc: Global, end: usize) -> Releases {
        Releases {
            first: end.saturating_add(1),
            steps: Vec::new(alloc),
        }
    }

    /// The number of the next one.
    fn number(&self) -> usize {
        self.first.saturating_add(self.steps.len())
    }

    /// The item behind an operation that is missed: the first of those that free what is held, or
    /// else the first one of the next section.
    fn missed(
        &mut self,
        o: &Operation,
        held: &[usize],
        section: usize,
    ) -> Result<usize, Transcribe> {
        if o.deed != Deed::Try || held.is_empty() {
            return Ok(section);
        }
        let number = self.number();
        for lock in held.iter().rev() {
            let next = self.number().saturating_add(1);
            self.steps.push(Step {
                deed: Deed::Unlock,
                lock: *lock,
                stack: o.stack,
                next,
                missed: section,
            })?;
        }
        if let Some(last) = self.steps.last_mut() {
            last.next = section;
        }
        Ok(number)
    }
}
