//! The calls on files, each at its place.
ghost use Rattle.std.specs.Prelude.{◌≡◌};
ghost use Rattle.dim_inquiry.specs.Course.{WhereTold, StopCause, Runs, HasWords, fetches, stores, fetch_stop, store_stop};

use crate::stop::{Place, Refusal, Stop};
use dim_base::{Bytes, Fetch, Files, Store, Word};
use std::alloc::Global;

fn stop_of_fetch(place: Place, e: Fetch) -> Stop
    ensures { result ≡ fetch_stop place e }
{
    match e {
        Fetch::Failed => Stop::Fault(place),
        Fetch::Long { .. } => Stop::Refused(Refusal::Long(place)),
        Fetch::Absent => Stop::Refused(Refusal::Absent(place)),
        Fetch::OutOfMemory => Stop::OutOfMemory,
    }
}

fn stop_of_store(place: Place, e: Store) -> Stop
    ensures { result ≡ store_stop place e }
{
    match e {
        Store::Failed => Stop::Fault(place),
        Store::OutOfMemory => Stop::OutOfMemory,
    }
}

/// Fetches the file of a command's place, of at most `limit` bytes. A refusal names the place: the
/// file is absent, longer, or the fetch failed; or memory ran out.
pub fn fetch_at<F: Files>(
    alloc: Global,
    files: &mut F,
    place: Place,
    name: &Word,
    limit: u64,
) -> Result<Bytes, Stop>
    ensures runs { WhereTold (F.told files.old) (λ before.
        Runs (λ bytes. bytes) (fetches before place name.now limit) before result (F.told files.new)) }
    ensures cause { StopCause (F.faults files.old) (F.faults files.new) result }
    ensures kept { F.told files.new ≡ F.told files.old }
    ensures words { HasWords result }
{
    match files.fetch(alloc, name, limit) {
        Ok(bytes) => Ok(bytes),
        Err(e) => Err(stop_of_fetch(place, e)),
    }
}

/// Stores the file of a command's place. A refusal names the place where the store failed; or
/// memory ran out.
pub fn store_at<F: Files>(
    alloc: Global,
    files: &mut F,
    place: Place,
    name: &Word,
    bytes: &[u8],
) -> Result<(), Stop>
    ensures runs { WhereTold (F.told files.old) (λ before.
        Runs (λ u. u) (stores place name.now bytes.now) before result (F.told files.new)) }
    ensures cause { StopCause (F.faults files.old) (F.faults files.new) result }
    ensures words { HasWords result }
{
    match files.store(alloc, name, bytes) {
        Ok(()) => Ok(()),
        Err(e) => Err(stop_of_store(place, e)),
    }
}
