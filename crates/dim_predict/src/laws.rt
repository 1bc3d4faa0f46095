//! Laws of nestings and candidates. Each is a function with nothing to do, whose contract is the
//! law: a call of it brings the law to its caller.
ghost use Rattle.dim_predict.specs.Places.{CandidatesLaw, NestingsLaw};
ghost use Rattle.dim_predict.specs.Cycles.{TwoThreadsLaw};
ghost use Rattle.dim_predict.specs.Naming.{FunctionsLaw};

/// Which nestings entries have, by their places.
pub fn nestings_law()
    ensures { NestingsLaw }
{}

/// Which candidates nestings make, by their places.
pub fn candidates_law()
    ensures { CandidatesLaw }
{}

/// The signature of each cycle of two threads is a candidate, at each depth, or has the stacks of a
/// loaded one.
pub fn two_threads_law()
    ensures { TwoThreadsLaw }
{}

/// Each function of a candidate of a trace stands in the table in which those of the trace do, and
/// no offset is above 65,535: the stack of a hold edge is that of a Go, of a Took, or of a Yield
/// that was broken out of. So a history with that table can adopt each candidate.
pub fn functions_law()
    ensures { FunctionsLaw }
{}
