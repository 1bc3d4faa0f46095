//! Two histories on the way to one.
ghost use Rattle.std.specs.Prelude.{◌≡◌, ◌++◌};
ghost use Rattle.dim_merge.specs.Numbered.{AreDifferent};

use dim_history_file::History;

/// Two histories in one table of names.
#[derive(Drop)]
pub struct Both {
    pub first: History,
    pub second: History,
    pub ghost alike: { first.names ≡ second.names },
}

/// What the first of two histories knows, with the yields of both, and what the second knows beside
/// it. No two of all have the same stacks, and they share a table of names.
#[derive(Drop)]
pub struct Parts {
    pub known: History,
    pub added: History,
    pub ghost alike: { known.names ≡ added.names },
    pub ghost different: { AreDifferent (known.catalogue.sigs ++ added.catalogue.sigs) },
}
