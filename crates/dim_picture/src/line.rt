//! The lines of a trace, one by one.
ghost use Rattle.std.specs.Prelude.{◌≡◌, [], ◌∷◌, ◌++◌, IfOk, OnOk, slice_get};
ghost use Rattle.dim_picture.specs.Lines.{line_of, line_at};

use dim_asm::Program;
use dim_base::{OutOfMemory, Tid};
use dim_rag::{Entry, MissWhy};
use dim_stack::Names;
use dim_trace::{KeptTrace, Trace, write_trace};
use std::alloc::Global;

/// The text of a trace of one entry begins with so many bytes of its head, and ends with so many
/// behind the entry's line.
const HEAD: usize = 25;

const END: usize = 7;

/// A trace of one entry.
fn trace_of(alloc: Global, entry: &Entry) -> Result<Trace, OutOfMemory>
    ensures entries { IfOk result (λ t. t.entries.items ≡ entry.now ∷ []) }
    ensures fuel { IfOk result (λ t. t.fuel ≡ 1) }
    ensures depth { IfOk result (λ t. t.depth ≡ 1) }
{
    // A value of this type in the function lets the check pass an `Entry` to a generic function.
    let _why = MissWhy::Busy { holder: Tid(0) };
    let mut entries = Vec::new(alloc);
    entries.push(*entry)?;
    Ok(Trace {
        fuel: 1,
        depth: 1,
        entries,
    })
}

/// Appends the line of an entry, without its line feed.
fn put_line_of(
    alloc: Global,
    out: &mut Vec<u8>,
    program: &Program,
    names: &Names,
    entry: &Entry,
) -> Result<(), OutOfMemory>
    ensures { OnOk result
        (out.new.items ≡ out.old.items ++ line_of program.now names.now entry.now) }
{
    let trace = trace_of(alloc, entry)?;
    let text = write_trace(alloc, program, names, &trace)?;
    let bytes = text.as_slice();
    let end = bytes.len() - END;
    out.extend_from_slice(&bytes[HEAD..end])?;
    Ok(())
}

/// Appends the line of the entry at a place, without its line feed, where there is one.
pub fn put_line_at(
    alloc: Global,
    out: &mut Vec<u8>,
    program: &Program,
    names: &Names,
    trace: &KeptTrace,
    place: u32,
) -> Result<(), OutOfMemory>
    ensures { OnOk result (out.new.items ≡ out.old.items
        ++ line_at program.now names.now (slice_get trace.now.entries place)) }
{
    if place >= trace.len() {
        return Ok(());
    }
    put_line_of(alloc, out, program, names, &trace.entry(place))
}
