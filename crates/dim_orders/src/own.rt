//! From a log to the operations of each thread.
ghost use Rattle.std.specs.Prelude.{◌≡◌, ◌≢◌, ℕ, ◌==◌, ◌<◌, if◌then◌else◌, [], ◌∷◌, ◌++◌, All, IfOk, OnOk, length, map, slice_set};
ghost use Rattle.std.specs.Option.{option_to_list};
ghost use Rattle.dim_orders.specs.Own.{deed_of, doer, IsWithin, own, row};

use crate::kept::{Deed, Operation};
use dim_base::OutOfMemory;
use dim_log::Event;
use std::alloc::Global;

/// Whose event it is.
pub fn thread_of(event: &Event) -> u32
    ensures { result ≡ doer event.now }
{
    match *event {
        Event::Lock { thread, .. } => thread,
        Event::Try { thread, .. } => thread,
        Event::Unlock { thread, .. } => thread,
        Event::Start { thread, .. } => thread,
        Event::Join { thread, .. } => thread,
    }
}

/// What an event does to a lock. A try that did not take does nothing.
fn operation_of(event: &Event) -> Option<Operation>
    ensures { result ≡ deed_of event.now }
{
    match *event {
        Event::Lock { lock, stack, .. } => Some(Operation {
            deed: Deed::Lock,
            lock,
            stack,
        }),
        Event::Try {
            lock,
            stack,
            took,
            ..
        } => {
            if took {
                Some(Operation {
                    deed: Deed::Try,
                    lock,
                    stack,
                })
            } else {
                None
            }
        }
        Event::Unlock { lock, stack, .. } => Some(Operation {
            deed: Deed::Unlock,
            lock,
            stack,
        }),
        Event::Start { .. } => None,
        Event::Join { .. } => None,
    }
}

/// So many empty lists.
pub fn rows<T: Drop>(alloc: Global, count: usize) -> Result<Vec<Vec<T>>, OutOfMemory>
    ensures len { IfOk result (λ rows. length rows.items ≡ count) }
    ensures empty { IfOk result (λ rows. (t : ℕ) → row rows.items t ≡ []) }
{
    let mut rows = Vec::with_capacity(alloc, count)?;
    for _ in 0..count {
        rows.push(Vec::new(alloc))?;
    }
    Ok(rows)
}

/// Puts an item at the end of the list of this number, which is there.
pub fn add<T: Drop>(rows: &mut Vec<Vec<T>>, number: usize, item: T) -> Result<(), OutOfMemory>
    requires { number < length rows.old.items }
    ensures len { length rows.new.items ≡ length rows.old.items }
    ensures set { OnOk result (map (λ v. v.items) rows.new.items
        ≡ slice_set (map (λ v. v.items) rows.old.items) number
        (row rows.old.items number ++ item ∷ [])) }
    ensures added { OnOk result ((t : ℕ) → row rows.new.items t
        ≡ (if t == number then row rows.old.items t ++ item ∷ [] else row rows.old.items t)) }
{
    rows[number].push(item)?;
    Ok(())
}

/// Takes the last item of the list of this number, which is there.
pub fn pop<T>(rows: &mut Vec<Vec<T>>, number: usize) -> Option<T>
    requires { number < length rows.old.items }
    ensures len { length rows.new.items ≡ length rows.old.items }
    ensures popped { row rows.old.items number
        ≡ row rows.new.items number ++ option_to_list result }
    ensures others { (t : ℕ) → t ≢ number → row rows.new.items t ≡ row rows.old.items t }
{
    rows[number].pop()
}

/// The operations of each of so many threads, in the order of the log. Each event needs threads
/// among them.
pub fn split(
    alloc: Global,
    threads: usize,
    events: &[Event],
) -> Result<Vec<Vec<Operation>>, OutOfMemory>
    requires { All (IsWithin threads) events.now }
    ensures len { IfOk result (λ rows. length rows.items ≡ threads) }
    ensures own { IfOk result (λ rows. (t : ℕ) → row rows.items t ≡ own t events.now) }
{
    let mut own = rows(alloc, threads)?;
    for event in events {
        if let Some(operation) = operation_of(event) {
            add(&mut own, thread_of(event) as usize, operation)?;
        }
    }
    Ok(own)
}
