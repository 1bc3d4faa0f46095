//! Why a text is no program.
ghost use Rattle.std.specs.Prelude.{◌≡◌};
ghost use Rattle.dim_text.specs.Reading.{Gives, in_line};
ghost use Rattle.dim_asm.specs.Faults.{kind_number, fault, fault_of};

use dim_base::OutOfMemory;
use std::alloc::AllocFailed;

/// What a line breaks.
#[derive(Clone, Copy, Debug, PartialEq, Eq)]
pub enum AsmKind {
    /// The line's first word may not stand at this place, the line has no line feed, or it's
    /// missing or too much.
    Word,
    /// An argument isn't a number of its range.
    Number,
    /// An argument isn't a name.
    Name,
    /// A lock or a function is declared a second time.
    Double,
    /// A name isn't declared.
    Unknown,
    /// The line has another number of words than its first word asks, or a space too many; a
    /// function has no instruction; or a jump leaves its function.
    Shape,
    /// There are more locks, functions, threads or instructions than a program may have.
    Limit,
}

impl AsmKind {
    /// The number of the kind, from 1 in the order of the variants.
    pub fn number(self) -> u32
        ensures { result ≡ kind_number self }
    {
        match self {
            AsmKind::Word => 1,
            AsmKind::Number => 2,
            AsmKind::Name => 3,
            AsmKind::Double => 4,
            AsmKind::Unknown => 5,
            AsmKind::Shape => 6,
            AsmKind::Limit => 7,
        }
    }
}

/// The first fault of a text: its line, counted from 1, and the first kind that applies there.
#[derive(Clone, Copy, Debug, PartialEq, Eq)]
pub struct AsmFault {
    pub line: u32,
    pub kind: AsmKind,
}

/// Why no program was assembled.
#[derive(Clone, Copy, Debug, PartialEq, Eq)]
pub enum AsmError {
    /// The text is no program.
    Bad(AsmFault),
    OutOfMemory,
}

impl From<OutOfMemory> for AsmError {
    ghost use Rattle.std.specs.Prelude.{◌≡◌};
    ghost use Rattle.dim_asm.specs.declared.fault.AsmError.TheVariants.{OutOfMemory};

    ghost from_gives = { λ _ e. e ≡ OutOfMemory };

    fn from(_e: OutOfMemory) -> AsmError {
        AsmError::OutOfMemory
    }
}

impl<T: Drop> From<AllocFailed<T>> for AsmError {
    ghost use Rattle.std.specs.Prelude.{◌≡◌};
    ghost use Rattle.dim_asm.specs.declared.fault.AsmError.TheVariants.{OutOfMemory};

    ghost from_gives = { λ _ e. e ≡ OutOfMemory };

    fn from(_e: AllocFailed<T>) -> AsmError {
        AsmError::OutOfMemory
    }
}

/// The answer for a line that was judged: its value, or its fault with the number of the line.
pub fn in_line<T>(line: u32, judged: Result<T, AsmKind>) -> Result<T, AsmError>
    ensures { Gives fault_of (λ x. x) result (in_line fault line judged) }
{
    match judged {
        Ok(x) => Ok(x),
        Err(kind) => Err(AsmError::Bad(AsmFault { line, kind })),
    }
}
