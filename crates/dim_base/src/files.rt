//! The files that a program reads and writes, by name.
ghost use Rattle.std.specs.Prelude.{◌≡◌, ◌≤◌, List, ℕ, Option, length, IfOk, IfSome};
ghost use Rattle.dim_base.specs.Files.{Fetches, FetchCause, SaysLimit, StoreCause, Stores, fetched};

use crate::{Bytes, OutOfMemory, Word};
use std::alloc::Global;

/// Why there are no bytes.
#[derive(Clone, Copy, Debug, PartialEq, Eq)]
pub enum Fetch {
    /// The files failed.
    Failed,
    /// There are more bytes than the limit that was given.
    Long { limit: u64 },
    /// Nothing stands under the name.
    Absent,
    OutOfMemory,
}

impl From<OutOfMemory> for Fetch {
    ghost use Rattle.std.specs.Prelude.{◌≡◌};
    ghost use Rattle.dim_base.specs.declared.files.Fetch.TheVariants as fetch;

    ghost from_gives = { λ _ e. e ≡ fetch.OutOfMemory };

    fn from(_e: OutOfMemory) -> Fetch {
        Fetch::OutOfMemory
    }
}

/// Why the bytes do not stand under the name.
#[derive(Clone, Copy, Debug, PartialEq, Eq)]
pub enum Store {
    /// The files failed, and any bytes or none stand under the name now.
    Failed,
    /// All files are as before.
    OutOfMemory,
}

impl From<OutOfMemory> for Store {
    ghost use Rattle.std.specs.Prelude.{◌≡◌};
    ghost use Rattle.dim_base.specs.declared.files.Store.TheVariants as store;

    ghost from_gives = { λ _ e. e ≡ store.OutOfMemory };

    fn from(_e: OutOfMemory) -> Store {
        Store::OutOfMemory
    }
}

pub trait Files {
    /// The bytes under each name, where the object tells them.
    ghost told: { Self → Option (List ℕ → Option (List ℕ)) };

    /// How often the files have failed. This never falls, and stands still at the end of its type.
    ghost faults: { Self → ℕ };

    /// The bytes under a name, at most `limit` of them. A call that fails answers so, whatever
    /// stands there.
    fn fetch(&mut self, alloc: Global, name: &Word, limit: u64) -> Result<Bytes, Fetch>
        ensures limit { IfOk result (λ bytes. length bytes ≤ limit) }
        ensures long { SaysLimit limit result }
        ensures answer { IfSome (told self.old)
            (λ files. Fetches (fetched (files name.now) limit) result) }
        ensures kept { told self.new ≡ told self.old }
        ensures cause { FetchCause (faults self.old) (faults self.new) result };

    /// Puts the bytes under a name, and leaves all other names.
    fn store(&mut self, alloc: Global, name: &Word, bytes: &[u8]) -> Result<(), Store>
        ensures stored { Stores name.now bytes.now (told self.old) (told self.new) result }
        ensures cause { StoreCause (faults self.old) (faults self.new) result };
}
