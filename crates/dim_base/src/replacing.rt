//! A file is replaced whole: its bytes are written under a name beside it, which then becomes its
//! own.
use crate::OutOfMemory;
use crate::streams::write_all;
use std::alloc::Global;
use std::fs::{File, OpenFile, Permissions};
use std::io::ErrorKind;
use std::{fs, rt};

// How many names beside a file are tried.
const NAMES_BESIDE: u32 = 64;

// What stands under a name.
enum There {
    Nothing,
    // A plain file that may be written.
    Plain(Permissions),
    // A device, a link, a folder, or what can't be looked at or written.
    Other,
}

// A new file under a name that nothing had.
#[derive(Drop)]
struct Beside<F> {
    name: String,
    file: F,
}

fn found_under<R: rt::Files>(rt: &R, name: &str) -> There {
    match fs::symlink_metadata(rt, name) {
        Ok(found) if found.is_file() && may_write(rt, name) => There::Plain(found.permissions()),
        Err(e) if e.kind() == ErrorKind::NotFound => There::Nothing,
        _ => There::Other,
    }
}

fn may_write<R: rt::Files>(rt: &R, name: &str) -> bool {
    File::options().write(true).open(rt, name).is_ok()
}

// Puts the bytes under the name, in place of what stands there, and tells whether all were taken. A
// plain file is replaced, and what can't be is written over.
pub(crate) fn put_under<R: rt::Files>(
    alloc: Global,
    rt: &R,
    name: &str,
    bytes: &[u8],
) -> Result<bool, OutOfMemory> {
    let beside = match found_under(rt, name) {
        There::Nothing => new_beside(alloc, rt, name)?,
        There::Plain(permissions) => beside_with(alloc, rt, name, permissions)?,
        There::Other => None,
    };
    match beside {
        Some(new) => Ok(replace(rt, name, new, bytes)),
        None => Ok(write_over(rt, name, bytes)),
    }
}

// A new file beside a name, with the permissions.
fn beside_with<R: rt::Files>(
    alloc: Global,
    rt: &R,
    name: &str,
    permissions: Permissions,
) -> Result<Option<Beside<R::File>>, OutOfMemory> {
    let Some(new) = new_beside(alloc, rt, name)? else {
        return Ok(None);
    };
    if new.file.set_permissions(permissions).is_ok() {
        return Ok(Some(new));
    }
    let _removed = fs::remove_file(rt, new.name.as_str());
    Ok(None)
}

// A file under the first name beside that nothing has.
fn new_beside<R: rt::Files>(
    alloc: Global,
    rt: &R,
    name: &str,
) -> Result<Option<Beside<R::File>>, OutOfMemory> {
    for number in 0..NAMES_BESIDE {
        let name = format!(in alloc; "{name}.unfinished.{number}")?;
        match File::create_new(rt, name.as_str()) {
            Ok(file) => return Ok(Some(Beside { name, file })),
            Err(e) if e.kind() == ErrorKind::AlreadyExists => {}
            Err(_) => return Ok(None),
        }
    }
    Ok(None)
}

// Writes the new file and gives it the name. One that isn't whole, or gets no name, is taken away.
fn replace<R: rt::Files>(rt: &R, name: &str, new: Beside<R::File>, bytes: &[u8]) -> bool {
    let Beside {
        name: beside,
        mut file,
    } = new;
    let whole = write_all(&mut file, bytes);
    if whole && fs::rename(rt, beside.as_str(), name).is_ok() {
        return true;
    }
    let _removed = fs::remove_file(rt, beside.as_str());
    whole && write_over(rt, name, bytes)
}

fn write_over<R: rt::Files>(rt: &R, name: &str, bytes: &[u8]) -> bool {
    match fs::create(rt, name) {
        Ok(file) => {
            let mut file = file;
            write_all(&mut file, bytes)
        }
        Err(_) => false,
    }
}
