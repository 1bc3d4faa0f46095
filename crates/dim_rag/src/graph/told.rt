//! A list of entries that only contracts see.
ghost use Rattle.std.specs.Prelude.{◌≡◌, ◌+◌, ◌<◌, ◌^◌, [], ◌∷◌, ◌++◌, length};
ghost use Rattle.dim_rag.specs.Shown.{shown};

use crate::entry_ref::EntryRef;
use crate::graph::chronicle::Chronicle;
use std::marker::Model;

/// The entries that were told, oldest first. A contract sees them; at run time there is but their
/// number.
#[derive(Drop)]
pub struct Told {
    count: u32,
    list: Chronicle,
}

impl Model for Told {
    ghost use Rattle.std.specs.Prelude.{◌≡◌, List, length};
    ghost use Rattle.dim_rag.specs.declared.entry.Entry.{Entry};

    ghost Value = { List Entry };

    ghost view = { λ t. t.list.entries };

    ghost invariant = { λ t. t.count ≡ length t.list.entries };
}

impl Told {
    /// None.
    pub fn new() -> Told
        ensures { result ≡ [] }
    {
        Told {
            count: 0,
            list: Chronicle::new(),
        }
    }

    /// One more, which is given by reference. None is made.
    #[inline(always)]
    pub fn tell(&mut self, e: &EntryRef<'_>)
        requires { length self.old + 1 < 2 ^ 32 }
        ensures { self.new ≡ self.old ++ shown e.now ∷ [] }
    {
        self.list = self.list.then(e);
        self.count += 1;
    }

    /// How many they are.
    pub fn len(&self) -> u32
        ensures { result ≡ length self.now }
    {
        self.count
    }
}
