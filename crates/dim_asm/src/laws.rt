//! What programs and their texts are to one another, and which fault a text has, as laws.
ghost use Rattle.std.specs.Prelude.{◌≡◌, ℕ, List, Ok};
ghost use Rattle.dim_asm.specs.Assembling.{program_of};
ghost use Rattle.dim_asm.specs.Bound.{bound, own_names};
ghost use Rattle.dim_asm.specs.Code.{Code};
ghost use Rattle.dim_asm.specs.Places.{FoundLaw, LinkLaw, OnlyLaw, SecondLaw};
ghost use Rattle.dim_asm.specs.Printing.{program_text, IsPrintable};

/// Each program has one text. A text from which a program is assembled is that program's text, and
/// the text of a program is assembled to the same program, bound to the table of its own names, as
/// it is just after it was assembled. It has nothing to do.
pub fn text_law()
    ensures text { (bytes : List ℕ) (p : Code) → program_of bytes ≡ Ok p → bytes ≡ program_text p }
    ensures printable { (bytes : List ℕ) (p : Code) → program_of bytes ≡ Ok p → IsPrintable p }
    ensures own { (bytes : List ℕ) (p : Code) → program_of bytes ≡ Ok p
        → bound (own_names p) p ≡ p }
    ensures again { (p : Code) → IsPrintable p
        → program_of (program_text p) ≡ Ok (bound (own_names p) p) }
{}

/// Which fault a text has, by the places of its lines. Where all lines before one are taken, each
/// in the state that the one before it led to, and that one is not, its kind there is the fault.
/// What stands behind the last line feed is judged as the end. Only where all is taken is the
/// program linked: the fault is then that of the first line, of those of instructions and threads,
/// that can't be linked. It has nothing to do.
pub fn first_fault_law()
    ensures found { FoundLaw }
    ensures only { OnlyLaw }
    ensures second { SecondLaw }
    ensures links { LinkLaw }
{}
