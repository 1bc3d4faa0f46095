//! From a text to a history.
ghost use Rattle.std.specs.Prelude.{◌≡◌, IfOk};
ghost use Rattle.dim_text.specs.Reading.{Gives};
ghost use Rattle.dim_stack.specs.Names.{table_of};
ghost use Rattle.dim_history_file.specs.Faults.{fault_of};
ghost use Rattle.dim_history_file.specs.Value.{names_used};
ghost use Rattle.dim_history_file.specs.Judging.{history_of};
ghost use Rattle.dim_history_file.specs.Grammar.{AreNear, IsHistory, IsTextOf};
ghost use Rattle.dim_history_file.specs.Naming.{names_in};
ghost use Rattle.dim_history_file.specs.Reader.{IsReading, sigs_of};
ghost use Rattle.dim_history_file.specs.Seen.{value_of};

use crate::fault::in_line;
use crate::names::table;
use crate::reader::Reader;
use crate::{History, ReadFault};
use dim_base::OutOfMemory;
use dim_text::Parts;
use std::alloc::Global;

// What a text says, with the names of its frames.
fn read_lines(alloc: Global, bytes: &[u8]) -> Result<Reader, ReadFault>
    ensures value { Gives fault_of sigs_of result (history_of bytes.now) }
    ensures names { IfOk result (λ r. r.names ≡ table_of (names_in bytes.now)) }
    ensures reading { IfOk result IsReading }
{
    let names = table(alloc, bytes)?;
    let mut reader = Reader::new(alloc, names);
    let mut lines = Parts::lines(bytes);
    let mut number = 1;
    while let Some(line) = lines.next_ended() {
        reader.step(alloc, number, line)?;
        number += 1;
    }
    let last = lines.next_part().unwrap_or(b"");
    in_line(number, reader.finish(last))?;
    Ok(reader)
}

/// The history that a text of version 1 or 2 spells, or the first fault of the text. Signatures of
/// version 1 are on and have 0 yields.
///
/// Its names are those that its stacks use. Which kind a fault has stands in docs/formats.md.
pub fn read(alloc: Global, bytes: &[u8]) -> Result<History, ReadFault>
    ensures value { Gives fault_of value_of result (history_of bytes.now) }
    ensures text { IfOk result (λ h. IsTextOf bytes.now (value_of h)) }
    ensures names { IfOk result (λ h. h.names ≡ table_of (names_used (value_of h))) }
    ensures history { IfOk result (λ h. IsHistory (value_of h)) }
    ensures near { IfOk result (λ h. AreNear h.catalogue.sigs) }
{
    let reader = read_lines(alloc, bytes)?;
    Ok(History {
        names: reader.names,
        catalogue: reader.catalogue,
    })
}
