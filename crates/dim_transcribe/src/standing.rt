//! Machines that go on by the entries of an operation, and how often each lock is held then.
ghost use Rattle.std.specs.Prelude.{◌≡◌, ℕ, suc, ◌<◌, ◌∷◌, List, IsTrue};
ghost use Rattle.dim_base.specs.declared.Tid.{Tid};
ghost use Rattle.dim_asm.specs.Code.{thread_count};
ghost use Rattle.dim_rag.specs.declared.entry.Entry.{Entry};
ghost use Rattle.dim_rag.specs.declared.entry.Entry.TheVariants.{End, Go, Got};
ghost use Rattle.dim_rag.specs.declared.entry.Why.TheVariants.{Done};
ghost use Rattle.dim_rag.specs.Shown.{shown};
ghost use Rattle.dim_vm.specs.Configuration.{holding};
ghost use Rattle.dim_vm.specs.Table.{times};
ghost use Rattle.dim_transcribe.specs.Performs.{Begins, Stands, StandsWith, calls_after, held_after, held_times, locked, most_units, made};

use crate::transcript::Move;
use dim_asm::Program;
use dim_base::{Lid, Tid};
use dim_orders::Deed;
use dim_rag::{EntryRef, MOST_HOLDS, Why};
use dim_stack::Frame;
use dim_vm::Machine;

/// How often a thread holds each lock.
pub type Holds = [u8; 256];

/// So many units a thread has.
#[tactic(auto, unfolding(crate::specs::Performs::most_units))]
fn units() -> u32
    ensures { result ≡ most_units }
{
    8192
}

/// The machine of a thread at its start, where it holds no lock.
pub fn starting(program: &Program, t: Tid) -> Machine
    requires { t.0 < thread_count program.now }
    ensures { Begins program.now t result }
{
    Machine::new(program, t, units())
}

/// How often a lock is held.
fn held(holds: &Holds, l: Lid) -> u8
    ensures { result ≡ times holds.now l.0 }
{
    holds.get(l.0 as usize).copied().unwrap_or(0)
}

/// Keeps how often a lock is held, if it is one of those.
fn keep(holds: &mut Holds, l: Lid, times: u8) -> bool
    ensures { IsTrue result → holds.new ≡ holding l times holds.old }
{
    if l.0 >= 256 {
        return false;
    }
    holds[l.0 as usize] = times;
    true
}

/// Keeps that a lock is held once more, if it isn't held 255 times.
fn keep_one_more(holds: &mut Holds, l: Lid) -> bool
    ensures { IsTrue result → holds.new ≡ holding l (suc (times holds.old l.0)) holds.old }
{
    let times = held(holds, l);
    if times == MOST_HOLDS {
        return false;
    }
    keep(holds, l, times + 1)
}

/// Keeps how often each lock is held after an entry, if that can be kept.
fn keep_after(holds: &mut Holds, e: &EntryRef<'_>) -> bool
    ensures { IsTrue result → holds.new ≡ held_after (shown e.now) holds.old }
{
    match e {
        EntryRef::Got { l, .. } => keep(holds, *l, 1),
        EntryRef::Free { l, .. } => {
            let times = held(holds, *l).saturating_sub(1);
            keep(holds, *l, times)
        }
        EntryRef::Took { l, .. } => keep_one_more(holds, *l),
        EntryRef::Go { .. }
        | EntryRef::Yield { .. }
        | EntryRef::MissBusy { .. }
        | EntryRef::MissAvoid { .. }
        | EntryRef::End { .. }
        | EntryRef::Break { .. }
        | EntryRef::Learn { .. } => true,
    }
}

/// Goes on by an entry, if that tells what the machine does next.
fn goes_on(machine: &mut Machine, program: &Program, e: &EntryRef<'_>) -> bool
    ensures stands { IsTrue result → (t : Tid) → (h : List Entry) → Stands program.now t machine.old h
        → Stands program.now t machine.new (shown e.now ∷ h) }
    ensures holds { IsTrue result
        → machine.new.holds ≡ held_after (shown e.now) machine.old.holds }
{
    machine.follow(program, e, false)
}

/// The same, and keeps how often each lock is held.
fn follows(machine: &mut Machine, holds: &mut Holds, program: &Program, e: &EntryRef<'_>) -> bool
    ensures { IsTrue result → (t : Tid) → (h : List Entry)
        → StandsWith program.now t machine.old holds.old h
        → StandsWith program.now t machine.new holds.new (shown e.now ∷ h) }
{
    if !goes_on(machine, program, e) {
        return false;
    }
    keep_after(holds, e)
}

/// Goes on by the entries of a lock that is taken and wasn't held, if they tell what the machine
/// does next.
fn takes_first(
    machine: &mut Machine,
    holds: &mut Holds,
    program: &Program,
    t: Tid,
    l: Lid,
    stack: &[Frame],
) -> bool
    ensures { IsTrue result → (h : List Entry)
        → StandsWith program.now t machine.old holds.old h
        → StandsWith program.now t machine.new holds.new (Got t l ∷ Go t l stack.now ∷ h) }
{
    if !follows(machine, holds, program, &EntryRef::Go { t, l, stack }) {
        return false;
    }
    follows(machine, holds, program, &EntryRef::Got { t, l })
}

/// Goes on by the entries of a lock that is taken, if they tell what the machine does next.
fn takes(
    machine: &mut Machine,
    holds: &mut Holds,
    program: &Program,
    t: Tid,
    l: Lid,
    stack: &[Frame],
) -> bool
    ensures { IsTrue result → (h : List Entry)
        → StandsWith program.now t machine.old holds.old h
        → StandsWith program.now t machine.new holds.new
        (locked (held_times program.now t h l) t l stack.now h) }
{
    if held(holds, l) == 0 {
        return takes_first(machine, holds, program, t, l, stack);
    }
    follows(machine, holds, program, &EntryRef::Took { t, l, stack })
}

/// Goes on by the entries of an operation, if they tell what the machine does next, and keeps how
/// often each lock is held.
fn does(
    machine: &mut Machine,
    holds: &mut Holds,
    program: &Program,
    t: Tid,
    deed: Deed,
    l: Lid,
    stack: &[Frame],
) -> bool
    ensures { IsTrue result → (h : List Entry)
        → StandsWith program.now t machine.old holds.old h
        → StandsWith program.now t machine.new holds.new
        (made program.now t l stack.now deed h) }
{
    match deed {
        Deed::Lock => takes(machine, holds, program, t, l, stack),
        Deed::Try => follows(machine, holds, program, &EntryRef::Took { t, l, stack }),
        Deed::Unlock => follows(machine, holds, program, &EntryRef::Free { t, l }),
    }
}

/// Makes the plain instructions that come next, and answers whether the machine then has these
/// calls.
fn comes_to(machine: &mut Machine, program: &Program, stack: &[Frame]) -> bool
    ensures stands { (t : Tid) → (holds : List ℕ) → (h : List Entry)
        → StandsWith program.now t machine.old holds h
        → StandsWith program.now t machine.new holds h }
    ensures calls { IsTrue result → (t : Tid) → (h : List Entry)
        → Stands program.now t machine.old h → calls_after program.now t h ≡ stack.now }
{
    machine.rests_at(program, stack)
}

/// Goes on by the entries of an operation, if they tell what the machine does next and it has the
/// calls there with which the operation is made, and keeps how often each lock is held.
pub fn makes(
    machine: &mut Machine,
    holds: &mut Holds,
    program: &Program,
    t: Tid,
    deed: Deed,
    by: &Move,
) -> bool
    ensures made { IsTrue result → (h : List Entry)
        → StandsWith program.now t machine.old holds.old h
        → StandsWith program.now t machine.new holds.new
        (made program.now t by.now.lock by.now.stack deed h) }
    ensures calls { IsTrue result → (h : List Entry)
        → Stands program.now t machine.old h → calls_after program.now t h ≡ by.now.stack }
{
    let stack = by.stack.as_slice();
    if !comes_to(machine, program, stack) {
        return false;
    }
    does(machine, holds, program, t, deed, by.lock, stack)
}

/// Whether the machine ends next, by an instruction.
pub fn ends(machine: &mut Machine, program: &Program, t: Tid) -> bool
    ensures { IsTrue result → (h : List Entry) → Stands program.now t machine.old h
        → Stands program.now t machine.new (End t Done ∷ h) }
{
    goes_on(machine, program, &EntryRef::End { t, why: Why::Done })
}
