//! The signatures that a domain knows.
ghost use Rattle.std.specs.Prelude.{◌<◌, ◌≤◌, IfOk, length};

use anyhow::{Error, Result, anyhow, ensure};
use dim_base::OutOfMemory;
use dim_signature::{Catalogue, Signature};
use dim_stack::{Frame, Stack};
use std::alloc::Global;

/// How many signatures there are, where there are some.
const MANY: u32 = 4000;

/// What a domain knows.
#[derive(Clone, Copy)]
pub enum Known {
    /// No signature.
    Nothing,
    /// Many, of which none has a stack that agrees with one at which a lock is taken.
    Apart,
    /// Many, of which each has the stack at which locks are taken, and one that never comes.
    Here,
}

pub fn no_memory(_error: OutOfMemory) -> Error {
    anyhow!("out of memory")
}

/// A stack of one frame.
fn stack_of(func: u32) -> Stack {
    Stack::new(&[Frame { func, at: 0 }])
}

/// The stack at which each lock is taken.
pub fn here() -> Stack {
    stack_of(0)
}

/// The first stack of a signature: that at which locks are taken, or one of its own.
fn first_stack(shared: bool, i: u32) -> Stack
    requires { i < 4000 }
{
    if shared { here() } else { stack_of(i + 1) }
}

/// The catalogue of many signatures that differ, of which each has the stack at which locks are taken,
/// or none has it.
fn many(alloc: Global, shared: bool) -> Result<Catalogue> {
    let mut known = Catalogue::new(alloc);
    for i in 0..MANY {
        let stacks = [first_stack(shared, i), stack_of(i + MANY + 1)];
        let signature = Signature::new(alloc, 4, &stacks).map_err(|_| anyhow!("a signature"))?;
        known.add(signature).map_err(|_| anyhow!("a signature"))?;
    }
    Ok(known)
}

/// What a domain knows, as a catalogue.
pub fn catalogue(alloc: Global, known: Known) -> Result<Catalogue>
    ensures { IfOk result (λ c. length c.sigs ≤ 4080) }
{
    let catalogue = match known {
        Known::Nothing => Catalogue::new(alloc),
        Known::Apart => many(alloc, false)?,
        Known::Here => many(alloc, true)?,
    };
    ensure!(catalogue.len() <= 4080, "too many signatures");
    Ok(catalogue)
}
