//! What a worker does.
ghost use Rattle.std.specs.Prelude.{◌≡◌, ◌<◌, ◌==◌, false, true};
ghost use Rattle.dim_rag.specs.declared.entry.Mode.TheVariants.{Running};
ghost use Rattle.dim_mutex.specs.Standing.{holds, mode_of, IsIdle, MayWait};
ghost use Rattle.dim_mutex.specs.Views.{opening, IsCallerOf};
ghost use Rattle.transfers.specs.Callers.{StaysCaller};

use crate::meeting::Meeting;
use dim_mutex::{Caller, Domain, Guard, Immune, Pending};
use dim_stack::Stack;
use std::sync::Wait;

/// What came of a worker.
#[derive(Clone, Copy, Debug, PartialEq, Eq)]
pub enum Came {
    /// It moved its amount; then so much was in the accounts.
    Moved { from: u64, to: u64 },
    /// It waits for a lock.
    Waits(Pending),
}

/// What a worker is to do: how much it moves, and at which places in its function it takes the lock
/// of the account that it takes from, and of the one that it gives to.
#[derive(Clone, Copy)]
pub struct Task {
    pub amount: u64,
    pub from_at: Stack,
    pub to_at: Stack,
}

/// With one account's lock held, takes the other's, moves the amount and gives both back. Where the
/// other isn't got, the caller waits for it, and goes on holding the first.
fn move_on<R: Wait>(
    rt: &R,
    domain: &Domain,
    caller: &mut Caller,
    held: Guard<'_, u64>,
    to: &Immune<u64>,
    task: &Task,
) -> Came
    requires caller { IsCallerOf domain.now caller.old }
    requires runs { mode_of caller.old.known ≡ Running }
    requires held { holds held.l.0 caller.old.known ≡ true }
    requires low { to.now.l.0 < (opening domain.now).constants.locks }
    requires free { holds to.now.l.0 caller.old.known ≡ false }
    requires apart { (to.now.l.0 == held.l.0) ≡ false }
    ensures { StaysCaller domain.now caller.old caller.new }
{
    match to.lock(rt, domain, caller, &task.to_at, 1) {
        Ok(other) => {
            let moved = task.amount.min(*held.get());
            let held = held.change(|amount| *amount = amount.saturating_sub(moved));
            let other = other.change(|amount| *amount = amount.saturating_add(moved));
            let (from, to) = (*held.get(), *other.get());
            other.release(rt, domain, caller);
            held.release(rt, domain, caller);
            Came::Moved { from, to }
        }
        Err(why) => Came::Waits(why),
    }
}

/// Takes the lock of the account that is taken from, which the caller may already wait for, and
/// then goes on.
fn start<R: Wait>(
    rt: &R,
    domain: &Domain,
    caller: &mut Caller,
    from: &Immune<u64>,
    to: &Immune<u64>,
    task: &Task,
) -> Came
    requires caller { IsCallerOf domain.now caller.old }
    requires low { from.now.l.0 < (opening domain.now).constants.locks }
    requires low_to { to.now.l.0 < (opening domain.now).constants.locks }
    requires free { holds from.now.l.0 caller.old.known ≡ false }
    requires free_to { holds to.now.l.0 caller.old.known ≡ false }
    requires may { MayWait from.now.l task.now.from_at caller.old.known }
    requires apart { (from.now.l.0 == to.now.l.0) ≡ false }
    ensures { StaysCaller domain.now caller.old caller.new }
{
    match from.lock(rt, domain, caller, &task.from_at, 1) {
        Ok(held) => move_on(rt, domain, caller, held, to, task),
        Err(pending) => Came::Waits(pending),
    }
}

/// The first worker: it takes its first lock at once, and its second when the other has asked for
/// its own.
pub fn give<R: Wait>(
    rt: &R,
    domain: &Domain,
    mut caller: Caller,
    from: &Immune<u64>,
    to: &Immune<u64>,
    task: &Task,
    meeting: &Meeting,
) -> (Caller, Came)
    requires caller { IsCallerOf domain.now caller × IsIdle caller.known }
    requires low { from.now.l.0 < (opening domain.now).constants.locks }
    requires low_to { to.now.l.0 < (opening domain.now).constants.locks }
    requires apart { (from.now.l.0 == to.now.l.0) ≡ false }
    ensures { StaysCaller domain.now caller result.0 }
{
    let first = from.lock(rt, domain, &mut caller, &task.from_at, 1);
    meeting.tell(rt, 1);
    meeting.wait_for(rt, 2);
    let came = match first {
        Ok(held) => move_on(rt, domain, &mut caller, held, to, task),
        Err(pending) => Came::Waits(pending),
    };
    meeting.tell(rt, 3);
    (caller, came)
}

/// The second worker: it asks for its first lock when the other has its own, and goes on when the
/// other is done.
pub fn take<R: Wait>(
    rt: &R,
    domain: &Domain,
    mut caller: Caller,
    from: &Immune<u64>,
    to: &Immune<u64>,
    task: &Task,
    meeting: &Meeting,
) -> (Caller, Came)
    requires caller { IsCallerOf domain.now caller × IsIdle caller.known }
    requires low { from.now.l.0 < (opening domain.now).constants.locks }
    requires low_to { to.now.l.0 < (opening domain.now).constants.locks }
    requires apart { (from.now.l.0 == to.now.l.0) ≡ false }
    ensures { StaysCaller domain.now caller result.0 }
{
    meeting.wait_for(rt, 1);
    let first = from.lock(rt, domain, &mut caller, &task.from_at, 1);
    meeting.tell(rt, 2);
    meeting.wait_for(rt, 3);
    let came = match first {
        Ok(held) => move_on(rt, domain, &mut caller, held, to, task),
        Err(_) => start(rt, domain, &mut caller, from, to, task),
    };
    (caller, came)
}
