//! The functions of a program that is being made.
use crate::code::{Instruction, Tree};
use crate::items::{Items, Step};
use crate::naming::new_name;
use crate::sites::{Act, Site, Sites, sites_of};
use dim_base::OutOfMemory;
use dim_log::Log;
use std::alloc::Global;

/// The functions that call those of the source, by their numbers: the loop over items, the tree
/// that tells what an item is, and the one that calls an outermost function.
pub const RUN: usize = 0;

pub const ITEMS: usize = 1;

pub const ROOTS: usize = 2;

/// How many these are.
pub const OWN_FUNCTIONS: usize = 3;

/// Where the loop calls the outermost functions.
pub const CALL_OF_ROOTS: usize = 2;

/// The code of a function, its number of locals, and the offset at which each leaf of it begins.
#[derive(Drop)]
pub struct Function {
    pub locals: u32,
    pub tree: Tree,
}

/// The functions of a program in the order of their numbers, and their names.
#[derive(Drop)]
pub struct Draft {
    pub names: Vec<String>,
    pub functions: Vec<Function>,
}

impl Draft {
    /// The functions for some items.
    pub fn of(
        alloc: Global,
        log: &Log,
        items: &Items,
        sites: &Sites,
    ) -> Result<Draft, OutOfMemory> {
        let mut draft = Draft {
            names: Vec::new(alloc),
            functions: Vec::new(alloc),
        };
        draft.put(String::from_str(alloc, "run")?, 0, run(alloc)?)?;
        draft.put_tree(alloc, "items", &item_leaves(alloc, log, items, sites)?)?;
        draft.put_tree(alloc, "roots", &root_leaves(alloc, sites)?)?;
        for (j, function) in sites.functions.iter().enumerate() {
            let leaves = site_leaves(alloc, sites, j)?;
            draft.put_source(alloc, log, *function, &leaves)?;
        }
        Ok(draft)
    }

    /// How many instructions there are.
    pub fn instructions(&self) -> usize {
        let mut all: usize = 0;
        for function in self.functions.iter() {
            all = all.saturating_add(function.tree.code.len());
        }
        all
    }

    /// Where a leaf of a function begins.
    pub fn leaf(&self, function: usize, leaf: usize) -> usize {
        match self.functions.get(function) {
            Some(function) => function.tree.starts.get(leaf).copied().unwrap_or(0),
            None => 0,
        }
    }

    /// Appends a function.
    fn put(&mut self, name: String, locals: u32, tree: Tree) -> Result<(), OutOfMemory> {
        self.names.push(name)?;
        self.functions.push(Function { locals, tree })?;
        Ok(())
    }

    /// Appends a function that goes by its argument.
    fn put_tree(
        &mut self,
        alloc: Global,
        name: &str,
        leaves: &[Vec<Instruction>],
    ) -> Result<(), OutOfMemory> {
        let name = String::from_str(alloc, name)?;
        self.put(name, 1, Tree::of(alloc, leaves)?)
    }

    /// Appends a function of the source.
    fn put_source(
        &mut self,
        alloc: Global,
        log: &Log,
        function: u32,
        leaves: &[Vec<Instruction>],
    ) -> Result<(), OutOfMemory> {
        let name = match log.functions.get(function as usize) {
            Some(word) => new_name(alloc, &self.names, word.as_slice())?,
            None => new_name(alloc, &self.names, b"")?,
        };
        self.put(name, 1, Tree::of(alloc, leaves)?)
    }
}

/// The loop: its operand is an item. `items` leaves which item is behind a missed try, which one
/// is next, and what `roots` is to do, or 0. `roots` leaves 0 at a missed try, and else 1.
fn run(alloc: Global) -> Result<Tree, OutOfMemory> {
    let code = vec![in alloc;
        Instruction::Call { f: ITEMS },
        Instruction::Jz { k: 7 },
        Instruction::Call { f: ROOTS },
        Instruction::Jz { k: 5 },
        Instruction::Swap,
        Instruction::Pop,
        Instruction::Jmp { k: 0 },
        Instruction::Ret,
    ]?;
    Ok(Tree {
        code,
        starts: Vec::new(alloc),
    })
}

/// What `items` leaves at each item.
fn item_leaves(
    alloc: Global,
    log: &Log,
    items: &Items,
    sites: &Sites,
) -> Result<Vec<Vec<Instruction>>, OutOfMemory> {
    let mut leaves = Vec::new(alloc);
    for item in items.steps.iter() {
        leaves.push(match item {
            Some(step) => item_leaf(alloc, log, step, sites)?,
            None => end_leaf(alloc)?,
        })?;
    }
    Ok(leaves)
}

/// Leaves 0.
fn end_leaf(alloc: Global) -> Result<Vec<Instruction>, OutOfMemory> {
    Ok(vec![in alloc; Instruction::Push { n: 0 }, Instruction::Ret]?)
}

/// Leaves which items come next, the lock, and at each function which of its sites it is to go to.
fn item_leaf(
    alloc: Global,
    log: &Log,
    step: &Step,
    sites: &Sites,
) -> Result<Vec<Instruction>, OutOfMemory> {
    let mut leaf = vec![in alloc;
        Instruction::Push { n: step.missed },
        Instruction::Push { n: step.next },
        Instruction::Push { n: step.lock },
    ]?;
    let mut root = 0;
    for site in sites_of(alloc, log, step)?.iter() {
        leaf.push(Instruction::Push {
            n: sites.selector(site),
        })?;
        root = sites.root(site.function);
    }
    leaf.push(Instruction::Push { n: root })?;
    leaf.push(Instruction::Push { n: 1 })?;
    leaf.push(Instruction::Ret)?;
    Ok(leaf)
}

/// The calls of the outermost functions.
fn root_leaves(alloc: Global, sites: &Sites) -> Result<Vec<Vec<Instruction>>, OutOfMemory> {
    let mut leaves = Vec::new(alloc);
    for root in sites.roots.iter() {
        leaves.push(call_leaf(alloc, sites, *root)?)?;
    }
    Ok(leaves)
}

/// Calls a function of the source.
fn call_leaf(alloc: Global, sites: &Sites, function: u32) -> Result<Vec<Instruction>, OutOfMemory> {
    let f = OWN_FUNCTIONS.saturating_add(sites.function(function));
    Ok(vec![in alloc; Instruction::Call { f }, Instruction::Ret]?)
}

/// What is done at the sites of a function.
fn site_leaves(
    alloc: Global,
    sites: &Sites,
    j: usize,
) -> Result<Vec<Vec<Instruction>>, OutOfMemory> {
    let mut leaves = Vec::new(alloc);
    for site in sites.of_function(j).iter() {
        leaves.push(site_leaf(alloc, sites, site)?)?;
    }
    Ok(leaves)
}

/// What is done at a site. Each leaves 1, but for a missed try, which leaves 0.
fn site_leaf(alloc: Global, sites: &Sites, site: &Site) -> Result<Vec<Instruction>, OutOfMemory> {
    match site.act {
        Act::Lock => lock_leaf(alloc, Instruction::LockX),
        Act::Unlock => lock_leaf(alloc, Instruction::UnlockX),
        Act::Try { lock } => try_leaf(alloc, lock),
        Act::Call { function } => call_leaf(alloc, sites, function),
    }
}

/// Takes or frees the lock that is told.
fn lock_leaf(alloc: Global, what: Instruction) -> Result<Vec<Instruction>, OutOfMemory> {
    Ok(vec![in alloc; what, Instruction::Push { n: 1 }, Instruction::Ret]?)
}

/// Tries a lock.
fn try_leaf(alloc: Global, l: usize) -> Result<Vec<Instruction>, OutOfMemory> {
    Ok(vec![in alloc;
        Instruction::Pop,
        Instruction::TryLock { l },
        Instruction::Ret,
    ]?)
}

/// Where in its leaf a site is: a try stands behind the POP of the number of its lock.
pub fn within_leaf(act: Act) -> usize {
    match act {
        Act::Try { .. } => 1,
        Act::Lock | Act::Unlock | Act::Call { .. } => 0,
    }
}
