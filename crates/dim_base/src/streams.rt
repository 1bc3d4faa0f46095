//! All bytes of a reader, and all bytes to a writer. What was interrupted is tried again, as std
//! does.
ghost use Rattle.std.specs.Prelude.{◌≡◌, ◌≤◌, length, Some, IfOk, IfSome, IsErrOf, IsTrue};
ghost use Rattle.std.specs.Io.KnownBytes.{Appends};
ghost use Rattle.dim_base.specs.Files.{Fetches, FetchCause, SaysLimit, fetched};

use crate::{Bytes, Fetch};
use std::alloc::Global;
use std::io::{ErrorKind, Read, Write};

// All that a reader has left, if it is at most limit.
pub(crate) fn read_all<F: Read + Drop>(
    alloc: Global,
    file: F,
    limit: u64,
    faults: &mut u64,
) -> Result<Bytes, Fetch>
    ensures limit { IfOk result (λ bytes. length bytes ≤ limit) }
    ensures bytes { IfSome (F.remaining file) (λ left. Fetches (fetched (Some left) limit) result) }
    ensures long { SaysLimit limit result }
    ensures cause { FetchCause faults.old faults.new result }
    ensures present { IsErrOf result Fetch.Absent → ⊥ }
{
    let mut bytes = Vec::new(alloc);
    match file.take(limit.saturating_add(1)).read_to_end(&mut bytes) {
        Ok(_) if bytes.len() as u64 > limit => Err(Fetch::Long { limit }),
        Ok(_) => Ok(Bytes::from_vec(bytes)),
        Err(e) if e.kind() == ErrorKind::OutOfMemory => Err(Fetch::OutOfMemory),
        Err(_) => {
            *faults = faults.saturating_add(1);
            Err(Fetch::Failed)
        }
    }
}

// Whether the writer took all of the bytes.
pub(crate) fn write_all<W: Write>(file: &mut W, bytes: &[u8]) -> bool
    ensures { IsTrue result → Appends (W.contents file.old) (W.contents file.new) bytes.now }
{
    file.write_all(bytes).is_ok() && file.flush().is_ok()
}
