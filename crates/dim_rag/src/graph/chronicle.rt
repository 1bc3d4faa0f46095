//! A list of entries that only proofs read.
ghost use Rattle.std.specs.Prelude.{◌≡◌, ◌+◌, ◌<◌, ◌^◌, List, [], ◌∷◌, ◌++◌, length};
ghost use Rattle.std.specs.Borrow.{ftrue};
ghost use Rattle.dim_rag.specs.declared.entry.Entry.{Entry};
ghost use Rattle.dim_rag.specs.Shown.{shown};

use crate::entry_ref::EntryRef;
use std::marker::Model;

/// A list of entries that only proofs read, oldest first: it has no bytes, and its calls do nothing.
#[derive(Drop)]
pub struct Chronicle {
    pub ghost entries: { List Entry },
}

impl Model for Chronicle {
    ghost also_owns = { λ _. ftrue };
}

// It owns nothing.
unsafe impl Send for Chronicle {}

impl Chronicle {
    /// None.
    pub fn new() -> Chronicle
        ensures { result.entries ≡ [] }
    {
        Chronicle {}
    }

    /// One more.
    #[inline(always)]
    pub fn then(&self, _next: &EntryRef<'_>) -> Chronicle
        ensures { result.entries ≡ self.now.entries ++ shown _next.now ∷ [] }
    {
        Chronicle {}
    }
}
