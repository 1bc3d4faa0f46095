//! The instruction words.
ghost use Rattle.std.specs.Prelude.{◌≡◌};
ghost use Rattle.dim_asm.specs.Table.{mnemonic_of, most_of, counted};

use crate::Op;
use dim_text::is_word;

/// An instruction whose argument is a number.
#[derive(Clone, Copy, Debug, PartialEq, Eq)]
pub enum Counting {
    Jmp,
    Jz,
    GetL,
    PutL,
}

/// An instruction whose argument is the name of a function or a lock.
#[derive(Clone, Copy, Debug, PartialEq, Eq)]
pub enum Naming {
    Call,
    Lock,
    Unlock,
    TryLock,
}

/// What an instruction word makes, by the kind of its argument.
#[derive(Clone, Copy, Debug, PartialEq, Eq)]
pub enum Mnemonic {
    /// No argument.
    Bare(Op),
    /// A signed number, which is pushed.
    Push,
    /// A number.
    Counts(Counting),
    /// A name.
    Names(Naming),
}

impl Counting {
    /// The greatest number that may stand behind it.
    pub fn most(self) -> u32
        ensures { result ≡ most_of self }
    {
        match self {
            Counting::Jmp | Counting::Jz => 65536,
            Counting::GetL | Counting::PutL => 255,
        }
    }

    /// The instruction with this number.
    pub fn op(self, n: u32) -> Op
        ensures { result ≡ counted self n }
    {
        match self {
            Counting::Jmp => Op::Jmp { k: n },
            Counting::Jz => Op::Jz { k: n },
            Counting::GetL => Op::GetL { i: n },
            Counting::PutL => Op::PutL { i: n },
        }
    }
}

// Each instruction word, and what it makes.
const ROWS: [(&[u8], Mnemonic); 21] = [
    (b"PUSH", Mnemonic::Push),
    (b"POP", Mnemonic::Bare(Op::Pop)),
    (b"DUP", Mnemonic::Bare(Op::Dup)),
    (b"SWAP", Mnemonic::Bare(Op::Swap)),
    (b"ADD", Mnemonic::Bare(Op::Add)),
    (b"SUB", Mnemonic::Bare(Op::Sub)),
    (b"LT", Mnemonic::Bare(Op::Lt)),
    (b"EQ", Mnemonic::Bare(Op::Eq)),
    (b"JMP", Mnemonic::Counts(Counting::Jmp)),
    (b"JZ", Mnemonic::Counts(Counting::Jz)),
    (b"GETL", Mnemonic::Counts(Counting::GetL)),
    (b"PUTL", Mnemonic::Counts(Counting::PutL)),
    (b"CALL", Mnemonic::Names(Naming::Call)),
    (b"RET", Mnemonic::Bare(Op::Ret)),
    (b"LOCK", Mnemonic::Names(Naming::Lock)),
    (b"LOCKX", Mnemonic::Bare(Op::LockX)),
    (b"UNLOCK", Mnemonic::Names(Naming::Unlock)),
    (b"UNLOCKX", Mnemonic::Bare(Op::UnlockX)),
    (b"TRYLOCK", Mnemonic::Names(Naming::TryLock)),
    (b"SAY", Mnemonic::Bare(Op::Say)),
    (b"HALT", Mnemonic::Bare(Op::Halt)),
];

/// What a word makes, if it's an instruction word.
pub fn mnemonic_of(word: &[u8]) -> Option<Mnemonic>
    ensures { result ≡ mnemonic_of word.now }
{
    for row in &ROWS {
        if is_word(word, row.0) {
            return Some(row.1);
        }
    }
    None
}
