//! Writing the text of a trace.
ghost use Rattle.std.specs.Prelude.{◌≡◌, ◌++◌, All, IfOk, OnOk, codes};
ghost use Rattle.std.specs.Fmt.{decimal};
ghost use Rattle.std.specs.String.{string_bytes};
ghost use Rattle.dim_rag.specs.Shown.{shown};
ghost use Rattle.dim_trace.specs.Grammar.{HasSet};
ghost use Rattle.dim_trace.specs.Text.{head_lines, text_of, line_of, words_of_entry, trace_text};

use crate::draft::Draft;
use crate::trace::Trace;
use crate::words::put_entry;
use dim_asm::Program;
use dim_base::{Bytes, OutOfMemory};
use dim_rag::{EntryRef, Tables};
use dim_stack::Names;
use std::alloc::{AllocError, Global};

/// About how many bytes the line of an entry has.
const LINE: usize = 16;

/// The lines before the entries.
fn head(alloc: Global, fuel: u32, depth: u8) -> Result<String, AllocError>
    ensures { IfOk result (λ text. string_bytes text ≡ text_of (head_lines fuel depth)) }
{
    format!(in alloc; "dim trace 1\nsettings {fuel} {depth}\n")
}

/// The text that begins with the lines before the entries, with room for about so many entries'
/// lines.
fn begin(alloc: Global, fuel: u32, depth: u8, entries: usize) -> Result<Draft, AllocError>
    ensures { IfOk result (λ text. text ≡ text_of (head_lines fuel depth)) }
{
    let mut text = Draft::of(head(alloc, fuel, depth)?);
    text.reserve(entries.saturating_mul(LINE))?;
    Ok(text)
}

/// The set of a Break is a number of 32 bits.
fn set_law(entry: &EntryRef<'_>)
    ensures { HasSet (shown entry.now) }
{
    if let EntryRef::Break { set, .. } = entry {
        let _set = *set;
    }
}

/// Appends the line of an entry.
fn put_line(
    text: &mut Draft,
    program: &Program,
    names: &Names,
    entry: &EntryRef<'_>,
) -> Result<(), AllocError>
    ensures line { OnOk result (text.new
        ≡ text.old ++ line_of (words_of_entry program.now names.now (shown entry.now))) }
    ensures set { HasSet (shown entry.now) }
{
    set_law(entry);
    put_entry(text, program, names, entry)?;
    text.put_byte(b'\n')
}

/// Appends the line of the end, which says how many entries there are.
fn put_tail(alloc: Global, text: &mut Draft, count: usize) -> Result<(), AllocError>
    ensures { OnOk result (text.new ≡ text.old ++ (codes "end " ++ (decimal count ++ codes "\n"))) }
{
    let line = format!(in alloc; "end {count}\n")?;
    text.put(line.as_str())
}

/// The lines of the head, of the entries and of the end.
fn text_of_trace(
    alloc: Global,
    program: &Program,
    names: &Names,
    trace: &Trace,
) -> Result<Vec<u8>, AllocError>
    ensures text { IfOk result (λ text. text.items
        ≡ trace_text program.now names.now trace.now.fuel trace.now.depth trace.now.entries.items) }
    ensures sets { OnOk result (All HasSet trace.now.entries.items) }
{
    let count = trace.entries.len();
    let mut text = begin(alloc, trace.fuel, trace.depth, count)?;
    for entry in &trace.entries {
        put_line(&mut text, program, names, &EntryRef::of(entry))?;
    }
    put_tail(alloc, &mut text, count)?;
    text.into_bytes()
}

/// The text of a trace of the program, where functions have their names in this table. A number
/// that has no name is written with an empty one. Each Break's set that was written is a number of
/// 32 bits, as `entries_law` and `length_law` ask.
pub fn write_trace(
    alloc: Global,
    program: &Program,
    names: &Names,
    trace: &Trace,
) -> Result<Bytes, OutOfMemory>
    ensures text { IfOk result (λ text. text
        ≡ trace_text program.now names.now trace.now.fuel trace.now.depth trace.now.entries.items) }
    ensures sets { OnOk result (All HasSet trace.now.entries.items) }
{
    let text = text_of_trace(alloc, program, names, trace)?;
    Ok(Bytes::from_vec(text))
}

/// The lines of the head, of the entries in tables and of the end.
fn text_of_tables(
    alloc: Global,
    program: &Program,
    names: &Names,
    fuel: u32,
    depth: u8,
    tables: &Tables,
) -> Result<Vec<u8>, AllocError>
    ensures text { IfOk result (λ text. text.items
        ≡ trace_text program.now names.now fuel depth tables.now.entries) }
    ensures sets { OnOk result (All HasSet tables.now.entries) }
{
    let count = tables.len();
    let mut text = begin(alloc, fuel, depth, count as usize)?;
    for place in 0..count {
        put_line(&mut text, program, names, &tables.look(place))?;
    }
    put_tail(alloc, &mut text, count as usize)?;
    text.into_bytes()
}

/// The text of the trace with this fuel and this depth whose entries are those of tables: what
/// `write_trace` answers for them, with no list of them made. Each Break's set that was written is
/// a number of 32 bits.
pub fn write_tables(
    alloc: Global,
    program: &Program,
    names: &Names,
    fuel: u32,
    depth: u8,
    tables: &Tables,
) -> Result<Bytes, OutOfMemory>
    ensures text { IfOk result (λ text. text
        ≡ trace_text program.now names.now fuel depth tables.now.entries) }
    ensures sets { OnOk result (All HasSet tables.now.entries) }
{
    let text = text_of_tables(alloc, program, names, fuel, depth, tables)?;
    Ok(Bytes::from_vec(text))
}
