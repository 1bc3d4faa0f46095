//! Stacks that are longer than what the program has of them.
use crate::places::innermost;
use dim_base::OutOfMemory;
use dim_log::Log;
use dim_orders::Kept;
use std::alloc::Global;

/// How many stacks of kept operations have frames that the program hasn't.
pub fn cut_stacks(alloc: Global, log: &Log, kept: &Kept) -> Result<u32, OutOfMemory> {
    let mut seen = vec![in alloc; false; log.stacks.len()]?;
    let mut cut: u32 = 0;
    for chain in kept.chains.iter() {
        for o in chain.operations.iter() {
            if is_new(&mut seen, o.stack) && is_cut(log, o.stack) {
                cut = cut.saturating_add(1);
            }
        }
    }
    Ok(cut)
}

/// Whether a stack hasn't been seen, which it has been from now on. One that isn't there has.
fn is_new(seen: &mut [bool], stack: u32) -> bool {
    match seen.get_mut(stack as usize) {
        Some(was) if !*was => {
            *was = true;
            true
        }
        _ => false,
    }
}

/// Whether the program hasn't all frames of a stack.
fn is_cut(log: &Log, stack: u32) -> bool {
    match log.stacks.get(stack as usize) {
        Some(spots) => innermost(spots).len() < spots.len(),
        None => false,
    }
}
