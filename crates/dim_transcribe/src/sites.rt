//! What is done at which places of the source.
use crate::items::Step;
use crate::places::innermost;
use dim_base::OutOfMemory;
use dim_log::{Log, Spot};
use dim_orders::Deed;
use std::alloc::Global;

/// What is done at a place of the source: the lock is taken or freed whose number is an operand, a
/// lock of the program is tried, or a function is called.
#[derive(Clone, Copy, Debug, PartialEq, Eq, PartialOrd, Ord)]
pub enum Act {
    Lock,
    Unlock,
    Try { lock: usize },
    Call { function: u32 },
}

/// A place of the source, and what is done there.
#[derive(Clone, Copy, Debug, PartialEq, Eq, PartialOrd, Ord)]
pub struct Site {
    pub function: u32,
    pub line: u32,
    pub act: Act,
}

/// What is done at an item.
fn act_of(step: &Step) -> Act {
    match step.deed {
        Deed::Lock => Act::Lock,
        Deed::Unlock => Act::Unlock,
        Deed::Try => Act::Try { lock: step.lock },
    }
}

/// The sites of an item, innermost first.
pub fn sites_of(alloc: Global, log: &Log, step: &Step) -> Result<Vec<Site>, OutOfMemory> {
    let mut sites = Vec::new(alloc);
    let mut act = act_of(step);
    for spot in spots_of(log, step.stack).iter() {
        sites.push(Site {
            function: spot.function,
            line: spot.line,
            act,
        })?;
        act = Act::Call {
            function: spot.function,
        };
    }
    Ok(sites)
}

/// The innermost frames of a stack of the log. There are none where it has no such stack.
fn spots_of(log: &Log, stack: u32) -> &[Spot] {
    match log.stacks.get(stack as usize) {
        Some(spots) => innermost(spots),
        None => &[],
    }
}

/// The sites of a program and the functions that are outermost in some stack, each once, in their
/// order.
#[derive(Drop)]
pub struct Sites {
    pub all: Vec<Site>,
    pub roots: Vec<u32>,
    /// The functions that have a site, and the number of the first site of each.
    pub functions: Vec<u32>,
    pub firsts: Vec<usize>,
}

impl Sites {
    /// The sites of some items.
    pub fn of(alloc: Global, log: &Log, steps: &[Option<Step>]) -> Result<Sites, OutOfMemory> {
        let mut sites = Sites {
            all: Vec::new(alloc),
            roots: Vec::new(alloc),
            functions: Vec::new(alloc),
            firsts: Vec::new(alloc),
        };
        for item in steps.iter() {
            if let Some(step) = item {
                sites.put(&sites_of(alloc, log, step)?)?;
            }
        }
        sites.all.sort()?;
        sites.all.dedup();
        sites.roots.sort()?;
        sites.roots.dedup();
        sites.note_functions()?;
        Ok(sites)
    }

    /// Appends the sites of an item.
    fn put(&mut self, path: &[Site]) -> Result<(), OutOfMemory> {
        for site in path.iter() {
            self.all.push(*site)?;
        }
        if let Some(site) = path.last() {
            self.roots.push(site.function)?;
        }
        Ok(())
    }

    /// Notes the functions of the sites, which are in their order.
    fn note_functions(&mut self) -> Result<(), OutOfMemory> {
        for (i, site) in self.all.iter().enumerate() {
            if self.functions.last() != Some(&site.function) {
                self.functions.push(site.function)?;
                self.firsts.push(i)?;
            }
        }
        Ok(())
    }

    /// The number of a site. It is a large one where the site is none of these.
    pub fn number(&self, site: &Site) -> usize {
        self.all.binary_search(site).unwrap_or(usize::MAX)
    }

    /// The number of a function among those that have a site.
    pub fn function(&self, function: u32) -> usize {
        self.functions
            .binary_search(&function)
            .unwrap_or(usize::MAX)
    }

    /// The number of a function among the outermost ones.
    pub fn root(&self, function: u32) -> usize {
        self.roots.binary_search(&function).unwrap_or(usize::MAX)
    }

    /// The number of a site among those of its function.
    pub fn selector(&self, site: &Site) -> usize {
        let first = self.firsts.get(self.function(site.function)).copied();
        self.number(site).saturating_sub(first.unwrap_or(0))
    }

    /// The sites of a function, by its number among those that have one.
    pub fn of_function(&self, j: usize) -> &[Site] {
        let first = self.firsts.get(j).copied().unwrap_or(self.all.len());
        let next = self.firsts.get(j.saturating_add(1)).copied();
        self.all
            .get(first..next.unwrap_or(self.all.len()))
            .unwrap_or(&[])
    }
}
