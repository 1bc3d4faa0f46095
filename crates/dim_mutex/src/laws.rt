//! Laws of callers. Each is a function with nothing to do, whose contract is the law: a call of it
//! brings the law to its caller.
ghost use Rattle.dim_mutex.specs.Standing.{OwedLaw};

/// No caller owes more than 256 entries.
#[tactic(auto, using(crate::proofs::Changes::owed_law))]
pub fn owed_law()
    ensures { OwedLaw }
{}
