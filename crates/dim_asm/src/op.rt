use dim_base::Lid;

/// An instruction. Offsets count from 0 in a function, and functions, locks and locals are told by
/// their numbers.
#[derive(Clone, Copy, Debug, PartialEq, Eq)]
pub enum Op {
    /// Pushes n.
    Push { n: i64 },
    /// Drops the top operand.
    Pop,
    /// Pushes the top operand again.
    Dup,
    /// Exchanges the two top operands.
    Swap,
    /// Puts a + b in place of both, where b is the top operand and a the one below it.
    Add,
    /// Puts a - b in place of both.
    Sub,
    /// Puts 1 in place of both where a is less than b, else 0.
    Lt,
    /// Puts 1 in place of both where a equals b, else 0.
    Eq,
    /// Goes to offset k.
    Jmp { k: u32 },
    /// Drops the top operand, and goes to offset k where it was 0.
    Jz { k: u32 },
    /// Pushes local i.
    GetL { i: u32 },
    /// Drops the top operand into local i.
    PutL { i: u32 },
    /// Calls function f.
    Call { f: u32 },
    /// Goes back behind the call, or ends the thread.
    Ret,
    /// Takes lock l.
    Lock { l: Lid },
    /// Takes the lock whose number is the top operand, and drops that.
    LockX,
    /// Frees lock l.
    Unlock { l: Lid },
    /// Frees the lock whose number is the top operand, and drops that.
    UnlockX,
    /// Takes lock l if it's free, and pushes 1; else pushes 0.
    TryLock { l: Lid },
    /// Drops the top operand and says it.
    Say,
    /// Ends the thread.
    Halt,
}
