//! A history: signatures, and the names of the functions of their stacks.
ghost use Rattle.std.specs.Prelude.{◌≡◌};
ghost use Rattle.dim_history_file.specs.Value.{AreNamed};

use dim_base::OutOfMemory;
use dim_signature::Catalogue;
use dim_stack::{Names, name_number_law};
use std::alloc::Global;

/// Signatures, and a table in which each function of their stacks stands.
///
/// What it means is the list of its signatures with functions read as names, so names that no stack
/// uses don't count.
#[derive(Debug, Drop)]
pub struct History {
    pub names: Names,
    pub catalogue: Catalogue,
    pub ghost named: { AreNamed names catalogue.sigs },
}

impl History {
    ghost use Rattle.std.specs.Prelude.{◌≡◌, [], IfOk};
    ghost use Rattle.dim_stack.specs.Names.{IsTable};
    ghost use Rattle.dim_signature.specs.Catalogue.{IsCatalogue};
    ghost use Rattle.dim_history_file.specs.Value.{named, numbered};
    ghost use Rattle.dim_history_file.specs.Grammar.{AreNear, AreSized, IsHistory};

    /// No signature and no name.
    pub fn empty(alloc: Global) -> Result<History, OutOfMemory>
        ensures { IfOk result (λ h. (h.names ≡ [])
            × (h.catalogue ≡ record { sigs = []; spare = 0 })) }
    {
        Ok(History {
            names: Names::of(alloc, &[])?,
            catalogue: Catalogue::new(alloc),
        })
    }

    /// Each function of its stacks stands in the table, so that names read as numbers give the
    /// catalogue again; and where each stack has 1 to 32 frames and no offset is above 65,535, the
    /// history has a text.
    pub fn law(&self)
        ensures table { IsTable self.now.names }
        ensures catalogue { IsCatalogue self.now.catalogue.sigs }
        ensures named { AreNamed self.now.names self.now.catalogue.sigs }
        ensures numbered { numbered self.now.names (named self.now.names self.now.catalogue.sigs)
            ≡ self.now.catalogue.sigs }
        ensures history { AreSized self.now.catalogue.sigs → AreNear self.now.catalogue.sigs
            → IsHistory (named self.now.names self.now.catalogue.sigs) }
    {
        name_number_law();
        let _names = self.names.len();
        let _signatures = self.catalogue.len();
    }
}
