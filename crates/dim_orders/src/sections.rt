//! From the operations of a thread to its sections.
ghost use Rattle.std.specs.Prelude.{◌≡◌, [], ◌∷◌, ◌++◌, List, map, IfOk, OnOk};
ghost use Rattle.dim_orders.specs.declared.kept.Operation.{Operation};
ghost use Rattle.dim_orders.specs.Sections.{closing, ended, is_found, last_stack, sections, sections_from};

use crate::hold::{Hold, act, is_held};
use crate::kept::{Deed, Operation};
use dim_base::OutOfMemory;
use std::alloc::Global;
use std::mem;

/// The sections of a thread, how many unlocks of what it did not hold were left out, and whether
/// the end of the log cut its last section.
#[derive(Drop)]
pub struct Sections {
    pub list: Vec<Vec<Operation>>,
    pub unheld: u32,
    pub open: bool,
}

/// A walk through the operations of a thread.
#[derive(Drop)]
struct Walk {
    held: Vec<Hold>,
    /// The section that is begun.
    begun: Vec<Operation>,
    list: Vec<Vec<Operation>>,
    unheld: u32,
}

/// The sections of a thread, each from where it holds nothing to where it holds nothing again.
/// Unlocks of what it does not hold are left out, and those that are missing at the end added.
pub fn sections_of(alloc: Global, operations: &[Operation]) -> Result<Sections, OutOfMemory>
    ensures { IfOk result (λ s. map (λ v. v.items) s.list.items ≡ sections operations.now) }
{
    let mut walk = Walk::new(alloc);
    for operation in operations {
        walk.take(alloc, *operation)?;
    }
    walk.end()
}

impl Walk {
    fn new(alloc: Global) -> Walk
        ensures held { result.held.items ≡ [] }
        ensures begun { result.begun.items ≡ [] }
        ensures list { result.list.items ≡ [] }
    {
        Walk {
            held: Vec::new(alloc),
            begun: Vec::new(alloc),
            list: Vec::new(alloc),
            unheld: 0,
        }
    }

    fn take(&mut self, alloc: Global, operation: Operation) -> Result<(), OutOfMemory>
        ensures { OnOk result ((rest : List Operation) →
            map (λ v. v.items) self.new.list.items
            ++ sections_from self.new.held.items self.new.begun.items rest
            ≡ map (λ v. v.items) self.old.list.items
            ++ sections_from self.old.held.items self.old.begun.items (operation ∷ rest)) }
    {
        if !is_there(&self.held, operation) {
            self.unheld = self.unheld.saturating_add(1);
            return Ok(());
        }
        act(&mut self.held, operation)?;
        self.begun.push(operation)?;
        if self.held.is_empty() {
            self.list
                .push(mem::replace(&mut self.begun, Vec::new(alloc)))?;
        }
        Ok(())
    }

    fn end(self) -> Result<Sections, OutOfMemory>
        ensures { IfOk result (λ s. map (λ v. v.items) s.list.items
            ≡ map (λ v. v.items) self.list.items ++ ended self.held.items self.begun.items) }
    {
        let Walk {
            held,
            begun,
            list,
            unheld,
        } = self;
        if held.is_empty() {
            return Ok(Sections {
                list,
                unheld,
                open: false,
            });
        }
        let list = with_last(list, closed(held, begun)?)?;
        Ok(Sections {
            list,
            unheld,
            open: true,
        })
    }
}

fn with_last(
    mut list: Vec<Vec<Operation>>,
    last: Vec<Operation>,
) -> Result<Vec<Vec<Operation>>, OutOfMemory>
    ensures { IfOk result (λ all. all.items ≡ list.items ++ last ∷ []) }
{
    list.push(last)?;
    Ok(list)
}

/// A section that is begun, and then the unlocks of what is held, newest first.
fn closed(mut held: Vec<Hold>, mut begun: Vec<Operation>) -> Result<Vec<Operation>, OutOfMemory>
    ensures { IfOk result (λ all. all.items
        ≡ begun.items ++ closing (last_stack begun.items) held.items) }
{
    let stack = stack_of_last(&begun);
    while let Some(hold) = held.pop() {
        begun.push(Operation {
            deed: Deed::Unlock,
            lock: hold.lock,
            stack,
        })?;
    }
    Ok(begun)
}

fn stack_of_last(operations: &[Operation]) -> u32
    ensures { result ≡ last_stack operations.now }
{
    match operations.last() {
        Some(operation) => operation.stack,
        None => 0,
    }
}

/// Whether an operation is no unlock of what is not held.
fn is_there(held: &[Hold], operation: Operation) -> bool
    ensures { result ≡ is_found held.now operation }
{
    match operation.deed {
        Deed::Lock => true,
        Deed::Try => true,
        Deed::Unlock => is_held(held, operation.lock),
    }
}
