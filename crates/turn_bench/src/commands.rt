//! What the callers ask.
ghost use Rattle.std.specs.Prelude.{◌≡◌, ◌<◌, true};
ghost use Rattle.dim_gate.specs.Gate.{Constants};
ghost use Rattle.dim_gate.specs.Answer.{MayGive};
ghost use Rattle.dim_gate.specs.Book.{may_give};

use dim_base::Lid;
use dim_rag::Command;
use dim_stack::{Frame, Stack};

/// The stack of each request.
pub fn call_stack() -> Stack {
    Stack::new(&[Frame { func: 0, at: 0 }])
}

/// A caller's command at this step: by turns it asks for the lock with its own number, takes it,
/// and frees it.
pub fn command(caller: u32, step: u32, stack: &Stack) -> Command
    ensures may { (c : Constants) → caller < c.threads → caller < c.locks
        → MayGive c caller result }
    ensures allowed { (c : Constants) → caller < c.threads → caller < c.locks
        → may_give c caller result ≡ true }
{
    let l = Lid(caller);
    match step % 3 {
        0 => Command::Request { l, stack: *stack },
        1 => Command::Acquire { l },
        _ => Command::Release { l },
    }
}
