//! The instructions about locks. None of them is made here: each shows what it is, or traps.
ghost use Rattle.std.specs.Prelude.{◌≡◌, ◌<◌, length, IfOk};
ghost use Rattle.dim_asm.specs.Code.{lock_count};
ghost use Rattle.dim_vm.specs.Operands as stack;
ghost use Rattle.dim_vm.specs.Steps.{lock_shows, try_shows, unlock_shows};

use crate::operands::Operands;
use crate::step::Step;
use crate::trap::Trap;
use dim_asm::Program;
use dim_base::Lid;
use dim_rag::MOST_HOLDS;

/// LOCK, and LOCKX where the lock was an operand, which drops then.
pub fn want(holds: &[u8], l: Lid, drops: bool) -> Result<Step, Trap>
    requires { l.0 < length holds.now }
    ensures { result ≡ lock_shows holds.now l drops }
{
    let times = holds[l.0 as usize];
    if times >= MOST_HOLDS {
        return Err(Trap::Relock);
    }
    if times > 0 {
        return Ok(Step::Retakes { l, drops });
    }
    Ok(Step::Wants { l, drops })
}

/// UNLOCK, and UNLOCKX where the lock was an operand, which drops then.
pub fn free(holds: &[u8], l: Lid, drops: bool) -> Result<Step, Trap>
    requires { l.0 < length holds.now }
    ensures { result ≡ unlock_shows holds.now l drops }
{
    if holds[l.0 as usize] == 0 {
        return Err(Trap::NotOwner);
    }
    Ok(Step::Frees { l, drops })
}

/// TRYLOCK, which needs room for an operand.
pub fn attempt(holds: &[u8], l: Lid, operands: &Operands) -> Result<Step, Trap>
    requires { l.0 < length holds.now }
    ensures { result ≡ try_shows holds.now l operands.now }
{
    if holds[l.0 as usize] >= MOST_HOLDS {
        return Err(Trap::Relock);
    }
    if operands.is_full() {
        return Err(Trap::Over);
    }
    Ok(Step::Tries { l })
}

/// The lock whose number is the newest operand.
pub fn lock_operand(program: &Program, operands: &Operands) -> Result<Lid, Trap>
    ensures value { result ≡ stack.lock_operand (lock_count program.now) operands.now }
    ensures low { IfOk result (λ l. l.0 < lock_count program.now) }
{
    let n = operands.top()?;
    if n >= 0 && n < i64::from(program.locks()) {
        Ok(Lid(n as u32))
    } else {
        Err(Trap::NoLock)
    }
}
