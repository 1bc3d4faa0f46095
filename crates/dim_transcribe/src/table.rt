//! The text of the table of places.
use crate::transcript::{Key, StandIn};
use dim_asm::Program;
use dim_base::{Bytes, Lid, OutOfMemory};
use dim_log::Log;
use dim_stack::Names;
use std::alloc::Global;

/// The text of the table of a program's locks and places: `dim places 1`, a line `lock NAME WORD`
/// for each lock, a line `place FUNCTION:OFFSET FUNCTION:LINE` for each place, and `end N` with the
/// number of lines between.
pub fn places_text(
    alloc: Global,
    program: &Program,
    key: &Key,
    log: &Log,
) -> Result<Bytes, OutOfMemory> {
    let names = program.names(alloc)?;
    let mut text = Vec::from_slice(alloc, b"dim places 1\n")?;
    for (l, lock) in key.locks.iter().enumerate() {
        put_lock(alloc, &mut text, program, l, log.locks.get(*lock as usize))?;
    }
    for place in key.places.iter() {
        put_place(alloc, &mut text, &names, place, log)?;
    }
    let lines = key.locks.len().saturating_add(key.places.len());
    text.extend_from_slice(format!(in alloc; "end {lines}\n")?.as_bytes())?;
    Ok(Bytes::from_vec(text))
}

/// The bytes of a word, or none where there is no word.
fn bytes_of(word: Option<&Bytes>) -> &[u8] {
    match word {
        Some(word) => word.as_slice(),
        None => &[],
    }
}

/// Appends the line of a lock.
fn put_lock(
    alloc: Global,
    text: &mut Vec<u8>,
    program: &Program,
    l: usize,
    word: Option<&Bytes>,
) -> Result<(), OutOfMemory> {
    if l < program.locks() as usize {
        let name = program.lock_name(Lid(l as u32)).as_str();
        text.extend_from_slice(format!(in alloc; "lock {name} ")?.as_bytes())?;
        text.extend_from_slice(bytes_of(word))?;
        text.push(b'\n')?;
    }
    Ok(())
}

/// Appends the line of a place.
fn put_place(
    alloc: Global,
    text: &mut Vec<u8>,
    names: &Names,
    place: &StandIn,
    log: &Log,
) -> Result<(), OutOfMemory> {
    let at = place.frame.at;
    let source = bytes_of(log.functions.get(place.spot.function as usize));
    let line = place.spot.line;
    if place.frame.func < names.len() {
        let name = names.name(place.frame.func).as_str();
        text.extend_from_slice(format!(in alloc; "place {name}:{at} ")?.as_bytes())?;
        text.extend_from_slice(source)?;
        text.extend_from_slice(format!(in alloc; ":{line}\n")?.as_bytes())?;
    }
    Ok(())
}
