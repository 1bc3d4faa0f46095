//! Why the reading of a line stops.
use dim_base::OutOfMemory;
use std::alloc::AllocFailed;

/// Why the reading of a line stopped, where a fault has a kind of the format's own.
#[derive(Clone, Copy, Debug, PartialEq, Eq)]
pub enum Stop<K> {
    /// The line has a fault of this kind.
    Bad(K),
    OutOfMemory,
}

impl<K> From<OutOfMemory> for Stop<K> {
    ghost use Rattle.std.specs.Prelude.{◌≡◌};
    ghost use Rattle.dim_text.specs.declared.stop.Stop.TheVariants as stop;

    ghost from_gives = { λ _ e. e ≡ stop.OutOfMemory };

    fn from(_e: OutOfMemory) -> Stop<K> {
        Stop::OutOfMemory
    }
}

impl<K, T: Drop> From<AllocFailed<T>> for Stop<K> {
    ghost use Rattle.std.specs.Prelude.{◌≡◌};
    ghost use Rattle.dim_text.specs.declared.stop.Stop.TheVariants as stop;

    ghost from_gives = { λ _ e. e ≡ stop.OutOfMemory };

    fn from(_e: AllocFailed<T>) -> Stop<K> {
        Stop::OutOfMemory
    }
}
