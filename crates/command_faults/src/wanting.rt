//! Files for which memory is wanting.
use dim_base::{Bytes, Fetch, Files, Store, Word};
use std::alloc::Global;

/// Files that always answer that memory ran out. They tell nothing of what they hold, and no call
/// on them is a fault.
#[derive(Drop)]
pub struct Wanting;

impl Files for Wanting {
    ghost use Rattle.std.specs.Prelude.{None};

    ghost told = { λ _. None };

    ghost faults = { λ _. 0 };

    fn fetch(&mut self, _alloc: Global, _name: &Word, _limit: u64) -> Result<Bytes, Fetch> {
        Err(Fetch::OutOfMemory)
    }

    fn store(&mut self, _alloc: Global, _name: &Word, _bytes: &[u8]) -> Result<(), Store> {
        Err(Store::OutOfMemory)
    }
}
