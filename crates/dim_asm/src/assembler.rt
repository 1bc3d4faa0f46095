//! From a text to a program.
ghost use Rattle.std.specs.Prelude.{◌≡◌, IfOk};
ghost use Rattle.dim_text.specs.Reading.{Gives};
ghost use Rattle.dim_asm.specs.Faults.{fault_of};
ghost use Rattle.dim_asm.specs.Bound.{own_names, IsBound};
ghost use Rattle.dim_asm.specs.Judging.{source_of};
ghost use Rattle.dim_asm.specs.Assembling.{program_of};
ghost use Rattle.dim_asm.specs.Reader.{read, IsCounted};
ghost use Rattle.dim_asm.specs.Grammar.{IsSource};

use crate::fault::in_line;
use crate::linker::link;
use crate::reader::Reader;
use crate::{AsmError, Program};
use dim_text::Parts;
use std::alloc::Global;

// What a text says, by the first pass.
fn read(alloc: Global, bytes: &[u8]) -> Result<Reader<'_>, AsmError>
    ensures source { Gives fault_of read result (source_of bytes.now) }
    ensures counted { IfOk result IsCounted }
    ensures sound { IfOk result (λ r. IsSource (read r)) }
{
    let mut reader = Reader::new(alloc);
    let mut lines = Parts::lines(bytes);
    let mut number = 1;
    while let Some(line) = lines.next_ended() {
        reader.step(alloc, number, line)?;
        number += 1;
    }
    let last = lines.next_part().unwrap_or(b"");
    in_line(number, reader.finish(last))?;
    Ok(reader)
}

/// The program that a text spells, bound to the table of its own names, or the first fault of the
/// text.
pub fn assemble(alloc: Global, bytes: &[u8]) -> Result<Program, AsmError>
    ensures program { Gives fault_of (λ p. p) result (program_of bytes.now) }
    ensures bound { IfOk result (λ p. IsBound (own_names p) p) }
{
    let reader = read(alloc, bytes)?;
    let mut program = link(alloc, reader)?;
    let names = program.names(alloc)?;
    program.bind(&names);
    Ok(program)
}
