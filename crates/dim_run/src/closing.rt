//! What stays of a gate at the end of a run.
ghost use Rattle.std.specs.Prelude.{◌≡◌, ◌<◌, length, map, IsSome, IfSome};
ghost use Rattle.dim_rag.specs.History.{past};
ghost use Rattle.dim_events.specs.Kinds.{totals_of};
ghost use Rattle.dim_gate.specs.Gate.{constants, replay};
ghost use Rattle.dim_gate.specs.Kinds.{kind_of};
ghost use Rattle.dim_gate.specs.Legal.{Legal};
ghost use Rattle.dim_run.specs.Grown.{YieldsNameOneOf, counted_from, grown, with_yield};

use dim_events::Totals;
use dim_gate::GateState;
use dim_rag::Tables;
use dim_signature::Catalogue;

/// What stays of a gate that is done with: the tables, the known signatures with the yields of its
/// entries counted, and how many entries of each kind it has. The history is legal.
pub(crate) fn finish(gate: GateState) -> (Tables, Catalogue, Totals)
    requires feed { IsSome gate.feed }
    ensures tables { result.0 ≡ replay gate }
    ensures grown { result.1.sigs ≡ grown gate.loaded gate.depth gate.entries }
    ensures totals { result.2 ≡ totals_of (map kind_of gate.entries) }
    ensures legal { Legal (constants gate) (past gate.entries) }
{
    let mut gate = gate;
    let totals = gate.totals();
    let (tables, mut catalogue) = gate.finish();
    count_yields(&tables, &mut catalogue);
    (tables, catalogue, totals)
}

/// Counts each Yield of some tables for the signature that it names, in one walk over their places.
/// It takes no memory.
fn count_yields(tables: &Tables, catalogue: &mut Catalogue)
    requires numbered { YieldsNameOneOf (length catalogue.old.sigs) tables.now.entries }
    ensures { catalogue.new.sigs ≡ counted_from 0 tables.now.entries catalogue.old.sigs }
{
    let _in_range = catalogue.len(); // for the proof: the numbers of yields are in range
    for place in 0..tables.len() {
        count_yield(tables.yielded(place), catalogue);
    }
}

/// Counts one yield for the signature with a number, if there is one.
fn count_yield(named: Option<u32>, catalogue: &mut Catalogue)
    requires { IfSome named (λ i. i < length catalogue.old.sigs) }
    ensures { catalogue.new.sigs ≡ with_yield named catalogue.old.sigs }
{
    if let Some(i) = named {
        catalogue.count(i, 1);
    }
}
