//! What the tender costs.
ghost use Rattle.std.specs.Prelude.{◌≡◌, ◌≤◌, ◌<◌, ◌+◌, IfOk};
ghost use Rattle.dim_mutex.specs.Views.{opening, AreCallersOf};

use crate::signatures::Known;
use crate::timing::{Span, played};
use anyhow::{Result, anyhow};
use dim_mutex::laws::owed_law;
use dim_mutex::{Caller, Domain};
use std::alloc::Global;
use std::rt::Clock;
use std::sync::Wait;
use std::thread::Threads;
use std::time::Instant;

const ALLOWANCE: u32 = 65_536;

/// A domain and its callers after a settle, and from when to when it took.
fn tend<R: Clock>(
    rt: &R,
    alloc: Global,
    domain: Domain,
    callers: Vec<Caller>,
) -> Result<(Domain, Vec<Caller>, Span)>
    requires callers { AreCallersOf domain callers.items }
    requires one { (opening domain).callers ≡ 1 }
    ensures callers { IfOk result (λ r. AreCallersOf r.0 r.1.items) }
    ensures one { IfOk result (λ r. (opening r.0).callers ≡ 1) }
{
    owed_law();
    if domain.bound() > 1_000_000 {
        domain.close(callers);
        return Err(anyhow!("too many entries"));
    }
    let start = Instant::now(rt);
    match domain.tend(alloc, callers, ALLOWANCE) {
        Ok((domain, callers, _breaks)) => {
            let end = Instant::now(rt);
            Ok((domain, callers, Span { start, end }))
        }
        Err(_) => Err(anyhow!("out of memory")),
    }
}

/// What two settles of a domain cost in nanoseconds: one behind so many entries, and one behind none
/// more.
struct Tends {
    entries: u32,
    first: u128,
    again: u128,
}

/// What a `tend` costs behind so many rounds, and what one more costs behind that.
fn time_tends<R: Clock + Threads + Wait + Sync>(rt: &R, alloc: Global, rounds: u32) -> Result<Tends>
    requires { (1 ≤ rounds) × (rounds ≤ 20000) }
{
    let (domain, callers, _span) = played(rt, alloc, Known::Nothing, 1, 1, rounds)?;
    let (domain, callers, first) = tend(rt, alloc, domain, callers)?;
    let (domain, callers, again) = tend(rt, alloc, domain, callers)?;
    let entries = domain.close(callers).tables.len();
    Ok(Tends {
        entries,
        first: first.nanos()?,
        again: again.nanos()?,
    })
}

/// Prints what they cost behind so many rounds. A lock and its release make three entries.
fn tell<R: Clock + Print + Threads + Wait + Sync>(rt: &R, alloc: Global, rounds: u32) -> Result<()>
    requires { (1 ≤ rounds) × (rounds ≤ 20000) }
{
    let Tends {
        entries,
        first,
        again,
    } = time_tends(rt, alloc, rounds)?;
    println!(rt; "entries {entries} tend {first} again {again}")?;
    Ok(())
}

/// Prints a line for each number of entries.
pub fn tell_tends<R: Clock + Print + Threads + Wait + Sync>(rt: &R, alloc: Global) -> Result<()> {
    tell(rt, alloc, 333)?;
    tell(rt, alloc, 3333)?;
    tell(rt, alloc, 20_000)
}
