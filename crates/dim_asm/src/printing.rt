//! From a program to its text.
ghost use Rattle.std.specs.Prelude.{◌≡◌, IfOk, Ok};
ghost use Rattle.std.specs.String.{string_bytes};
ghost use Rattle.dim_asm.specs.Bound.{bound, own_names};
ghost use Rattle.dim_asm.specs.Assembling.{program_of};
ghost use Rattle.dim_asm.specs.Printing.{program_text, IsPrintable};

use crate::Program;
use crate::spelling::{put_funcs, put_locks, put_threads};
use dim_base::{Bytes, OutOfMemory};
use std::alloc::{AllocError, Global};

// The lines of the head, the locks, the functions, the threads and the end.
fn text_of_program(alloc: Global, program: &Program) -> Result<String, AllocError>
    ensures text { IfOk result (λ text. string_bytes text ≡ program_text program.now) }
    ensures printable { IfOk result (λ _. IsPrintable program.now) }
{
    let mut text = String::from_str(alloc, "dim program 1\n")?;
    program.law();
    put_locks(&mut text, program)?;
    put_funcs(&mut text, program)?;
    put_threads(&mut text, program)?;
    text.push_str("end program\n")?;
    Ok(text)
}

/// The one text of a program. It's assembled again to the same program, bound to the table of its
/// own names.
pub fn print(alloc: Global, program: &Program) -> Result<Bytes, OutOfMemory>
    ensures text { IfOk result (λ bytes. bytes ≡ program_text program.now) }
    ensures again { IfOk result
        (λ bytes. program_of bytes ≡ Ok (bound (own_names program.now) program.now)) }
{
    let text = text_of_program(alloc, program)?;
    Ok(Bytes::from_vec(text.into_bytes()))
}
