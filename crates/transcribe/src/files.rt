//! The calls on files.
ghost use Rattle.std.specs.Prelude.{◌≡◌, ◌≤◌, ◌^◌, IfOk, OnOk, Some, length};
ghost use Rattle.dim_base.specs.Files.{with_file};
ghost use Rattle.transcribe.specs.Made.{WhereTold};

use crate::stop::{Place, Stop};
use dim_base::{Bytes, Fetch, Files, Store, Word};
use std::alloc::Global;

/// The most bytes of a log that are fetched.
const LOG_LIMIT: u64 = 536_870_912;

/// Fetches the log.
pub fn fetch<F: Files>(alloc: Global, files: &mut F, name: &Word) -> Result<Bytes, Stop>
    ensures short { IfOk result (λ bytes. length bytes ≤ 2 ^ 29) }
    ensures there { IfOk result (λ bytes.
        WhereTold (F.told files.old) (λ before. before name.now ≡ Some bytes)) }
    ensures kept { F.told files.new ≡ F.told files.old }
{
    match files.fetch(alloc, name, LOG_LIMIT) {
        Ok(bytes) => Ok(bytes),
        Err(Fetch::Failed) => Err(Stop::Fault(Place::Log)),
        Err(Fetch::Long { .. }) => Err(Stop::Long),
        Err(Fetch::Absent) => Err(Stop::Absent),
        Err(Fetch::OutOfMemory) => Err(Stop::OutOfMemory),
    }
}

/// Stores what is made.
pub fn store<F: Files>(
    alloc: Global,
    files: &mut F,
    place: Place,
    name: &Word,
    bytes: &Bytes,
) -> Result<(), Stop>
    ensures { OnOk result (WhereTold (F.told files.old)
        (λ before. F.told files.new ≡ Some (with_file before name.now (Some bytes.now)))) }
{
    match files.store(alloc, name, bytes.as_slice()) {
        Ok(()) => Ok(()),
        Err(Store::Failed) => Err(Stop::Fault(place)),
        Err(Store::OutOfMemory) => Err(Stop::OutOfMemory),
    }
}
