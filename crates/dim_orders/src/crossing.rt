//! Which sections of a thread are kept.
ghost use Rattle.std.specs.Prelude.{◌≡◌, [], map, IfOk};
ghost use Rattle.std.specs.List.{filter};
ghost use Rattle.dim_orders.specs.Crossing.{Adds, crossings, kept_from, key};
ghost use Rattle.dim_orders.specs.Nestings.{asked, crosses, nesting};

use crate::hold::{Hold, act};
use crate::kept::Operation;
use crate::orders::is_wait;
use crate::parts::is_crossing;
use dim_base::OutOfMemory;
use indexmap::IndexSet;
use std::alloc::Global;

/// The operations of the sections that have a crossing nesting which none before them has.
pub fn kept_sections(
    alloc: Global,
    parts: &[u32],
    sections: &[Vec<Operation>],
) -> Result<Vec<Operation>, OutOfMemory>
    ensures { IfOk result (λ kept. kept.items
        ≡ kept_from parts.now [] (map (λ v. v.items) sections.now)) }
{
    let mut had = IndexSet::new(alloc);
    let mut kept = Vec::new(alloc);
    for section in sections {
        if add_crossings(alloc, parts, section, &mut had)? {
            kept.extend_from_slice(section)?;
        }
    }
    Ok(kept)
}

/// Puts the crossing nestings of a section to others, and answers whether one of them is new.
fn add_crossings(
    alloc: Global,
    parts: &[u32],
    section: &[Operation],
    had: &mut IndexSet<Vec<u32>>,
) -> Result<bool, OutOfMemory>
    ensures { IfOk result (λ new. Adds had.old.keys had.new.keys
        (crossings parts.now section.now) new) }
{
    let mut held = Vec::new(alloc);
    let mut new = false;
    for operation in section {
        if add_crossing(alloc, parts, &held, operation, had)? {
            new = true;
        }
        act(&mut held, *operation)?;
    }
    Ok(new)
}

/// Puts an operation to others, where it is a crossing nesting, and answers whether it is new.
fn add_crossing(
    alloc: Global,
    parts: &[u32],
    held: &[Hold],
    operation: &Operation,
    had: &mut IndexSet<Vec<u32>>,
) -> Result<bool, OutOfMemory>
    ensures { IfOk result (λ new. Adds had.old.keys had.new.keys
        (filter (crosses parts.now) (asked held.now operation.now)) new) }
{
    if !is_wait(held, operation) || !is_crossing(parts, held, operation) {
        return Ok(false);
    }
    let numbers = key_of(alloc, held, operation)?;
    Ok(had.insert(numbers)?)
}

/// The numbers of a nesting.
fn key_of(alloc: Global, held: &[Hold], operation: &Operation) -> Result<Vec<u32>, OutOfMemory>
    ensures { IfOk result (λ v. v.items ≡ key (nesting held.now operation.now)) }
{
    let mut numbers = Vec::new(alloc);
    numbers.push(operation.lock)?;
    numbers.push(operation.stack)?;
    for hold in held {
        numbers.push(hold.lock)?;
        numbers.push(hold.stack)?;
    }
    Ok(numbers)
}
