//! Where a program puts its lines.
ghost use Rattle.std.specs.Prelude.{List, ℕ, Option};
ghost use Rattle.dim_base.specs.Sink.{Puts, PutCause};

use crate::OutOfMemory;
use std::alloc::Global;

/// Why not all of the bytes were taken.
#[derive(Clone, Copy, Debug, PartialEq, Eq)]
pub enum Put {
    /// The sink failed, and took a front of the bytes.
    Failed,
    /// None was taken.
    OutOfMemory,
}

impl From<OutOfMemory> for Put {
    ghost use Rattle.std.specs.Prelude.{◌≡◌};
    ghost use Rattle.dim_base.specs.declared.sink.Put.TheVariants as put;

    ghost from_gives = { λ _ e. e ≡ put.OutOfMemory };

    fn from(_e: OutOfMemory) -> Put {
        Put::OutOfMemory
    }
}

pub trait Sink {
    /// The bytes taken so far, where the object tells them.
    ghost taken: { Self → Option (List ℕ) };

    /// How often the sink has failed. This never falls, and stands still at the end of its type.
    ghost faults: { Self → ℕ };

    /// Takes the bytes at the end.
    fn put(&mut self, alloc: Global, bytes: &[u8]) -> Result<(), Put>
        ensures taken { Puts bytes.now (taken self.old) (taken self.new) result }
        ensures cause { PutCause (faults self.old) (faults self.new) result };
}
