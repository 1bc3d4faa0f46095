//! What is true of all that is kept.
ghost use Rattle.dim_log.specs.declared.log.Event.{Event};
ghost use Rattle.std.specs.Prelude.{List};
ghost use Rattle.dim_orders.specs.Cycles.{PlacesLaw};
ghost use Rattle.dim_orders.specs.Sections.{SectionsLaw};
ghost use Rattle.dim_orders.specs.Kept.{AreKept, CyclesLaw, Line};

/// Each nesting of a cycle of nestings of a log stands in the chain of its thread.
pub fn cycles_law()
    ensures { (events : List Event) (chains : List Line) → AreKept events chains
        → CyclesLaw events chains }
{}

/// What the nestings of a log are, by places of the log.
pub fn places_law()
    ensures { PlacesLaw }
{}

/// What the sections of a thread are, joined.
pub fn sections_law()
    ensures { SectionsLaw }
{}
