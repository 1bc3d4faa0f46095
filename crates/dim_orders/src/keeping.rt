//! From a log to what is kept of it.
ghost use Rattle.std.specs.Prelude.{◌≡◌, ◌++◌, ◌∷◌, [], All, IfOk, OnOk, map, vec_len};
ghost use Rattle.std.specs.List.{filter, flat_map};
ghost use Rattle.dim_orders.specs.Crossing.{kept_from};
ghost use Rattle.dim_orders.specs.Kept.{AreKept, CyclesLaw, has_any, line_by, shown};
ghost use Rattle.dim_orders.specs.Own.{IsWithin, row};
ghost use Rattle.dim_orders.specs.Sections.{sections};

use crate::counting::{count_crossing, count_nested};
use crate::crossing::kept_sections;
use crate::kept::{Chain, Counts, Kept, Operation};
use crate::lines::lines_of;
use crate::orders::{Orders, orders_of};
use crate::own::split;
use crate::parts::parts_of;
use crate::sections::{Sections, sections_of};
use dim_base::OutOfMemory;
use dim_log::Log;
use std::alloc::Global;

/// The operations of a log that a deadlock could come from, and how much the log has. The threads
/// of its events need to be among those of its table.
///
/// A section of a thread goes from where it holds nothing to where it holds nothing again. It is
/// kept where one of its nestings crosses and no section of its thread before it has that nesting:
/// the same holds in order, the same lock, the same stacks. A nesting is a lock that is taken, and
/// not tried, while its thread holds others and not that one. It crosses where its lock and a held
/// one lie on one cycle of orders.
///
/// The time is linear in the events, and of each nesting in what it holds.
pub fn keep(alloc: Global, log: &Log) -> Result<Kept, OutOfMemory>
    requires { All (IsWithin (vec_len log.now.threads)) log.now.events.items }
    ensures kept { IfOk result (λ k. AreKept log.now.events.items (map shown k.chains.items)) }
    // What is left out can be no part of a deadlock.
    ensures cycles { IfOk result (λ k.
        CyclesLaw log.now.events.items (map shown k.chains.items)) }
{
    let threads = split(alloc, log.threads.len(), &log.events)?;
    let orders = orders_of(alloc, &threads)?;
    let parts = parts_of(alloc, log.locks.len(), &orders, &threads)?;
    let lines = lines_of(alloc, log.threads.len(), &log.events)?;
    let mut counts = counts_of(alloc, log.locks.len(), &orders, &parts)?;
    let kept = kept_threads(alloc, &parts, &threads, &mut counts)?;
    let chains = chains_of(alloc, &lines, &kept)?;
    Ok(Kept { chains, counts })
}

/// The counts of a log's orders.
fn counts_of(
    alloc: Global,
    locks: usize,
    orders: &Orders,
    parts: &[u32],
) -> Result<Counts, OutOfMemory> {
    Ok(Counts {
        nested: count_nested(alloc, locks, orders)?,
        orders: u32::try_from(orders.len()).unwrap_or(u32::MAX),
        crossing: count_crossing(alloc, locks, orders, parts)?,
        unheld: 0,
        open: 0,
    })
}

/// What is kept of each thread, and counts of what is not whole.
fn kept_threads(
    alloc: Global,
    parts: &[u32],
    threads: &[Vec<Operation>],
    counts: &mut Counts,
) -> Result<Vec<Vec<Operation>>, OutOfMemory>
    ensures { IfOk result (λ kept. map (λ v. v.items) kept.items
        ≡ map (λ v. kept_from parts.now [] (sections v.items)) threads.now) }
{
    let mut kept = Vec::with_capacity(alloc, threads.len())?;
    for operations in threads {
        let sections = sections_of(alloc, operations)?;
        count(&sections, counts);
        kept.push(kept_sections(alloc, parts, &sections.list)?)?;
    }
    Ok(kept)
}

fn count(sections: &Sections, counts: &mut Counts) {
    counts.unheld = counts.unheld.saturating_add(sections.unheld);
    counts.open = counts.open.saturating_add(u32::from(sections.open));
}

/// The chains of which something is kept.
fn chains_of(
    alloc: Global,
    lines: &[Vec<u32>],
    kept: &[Vec<Operation>],
) -> Result<Vec<Chain>, OutOfMemory>
    ensures { IfOk result (λ chains. map shown chains.items
        ≡ filter has_any (map (λ v. line_by (row kept.now) v.items) lines.now)) }
{
    let mut chains = Vec::new(alloc);
    for line in lines {
        add_chain(alloc, &mut chains, line, kept)?;
    }
    Ok(chains)
}

/// Puts the chain of some threads to others, where something is kept of it.
fn add_chain(
    alloc: Global,
    chains: &mut Vec<Chain>,
    line: &[u32],
    kept: &[Vec<Operation>],
) -> Result<(), OutOfMemory>
    ensures { OnOk result (map shown chains.new.items ≡ map shown chains.old.items
        ++ filter has_any (line_by (row kept.now) line.now ∷ [])) }
{
    let operations = joined(alloc, line, kept)?;
    if !operations.is_empty() {
        let threads = Vec::from_slice(alloc, line)?;
        chains.push(Chain {
            threads,
            operations,
        })?;
    }
    Ok(())
}

/// What is kept of some threads, one behind the other.
fn joined(
    alloc: Global,
    line: &[u32],
    kept: &[Vec<Operation>],
) -> Result<Vec<Operation>, OutOfMemory>
    ensures { IfOk result (λ v. v.items ≡ flat_map (row kept.now) line.now) }
{
    let mut operations = Vec::new(alloc);
    for thread in line {
        operations.extend_from_slice(row_of(kept, *thread))?;
    }
    Ok(operations)
}

/// The list of a number, and none behind the end.
fn row_of(kept: &[Vec<Operation>], number: u32) -> &[Operation]
    ensures { result.now ≡ row kept.now number }
{
    match kept.get(number as usize) {
        Some(operations) => operations,
        None => &[],
    }
}
