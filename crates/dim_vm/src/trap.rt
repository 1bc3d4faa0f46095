//! Traps.

/// Why an instruction can't be made. A trap ends the thread and changes nothing of its operands.
#[derive(Clone, Copy, Debug, PartialEq, Eq)]
pub enum Trap {
    /// An operand is missing.
    Under = 1,
    /// There are 256 operands.
    Over = 2,
    /// There are 32 calls.
    Depth = 3,
    /// The result is no number of 64 signed bits.
    Sum = 4,
    /// The function has no such local.
    Local = 5,
    /// The number is no lock of the program.
    NoLock = 6,
    /// The thread holds the lock 255 times.
    Relock = 7,
    /// The thread doesn't hold the lock.
    NotOwner = 8,
    /// No instruction is there: the function ends before it.
    FellOff = 9,
}

impl Trap {
    ghost use Rattle.std.specs.Prelude.{◌≡◌};
    ghost use Rattle.dim_vm.specs.Trap.{number};

    /// Its number, 1 to 9, by which an End tells it.
    pub fn number(self) -> u8
        ensures { result ≡ number self }
    {
        self as u8
    }
}
