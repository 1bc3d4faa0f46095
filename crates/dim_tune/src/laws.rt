//! Laws of attempts and of least depths. Each is a function with nothing to do, whose contract is
//! the law: a call of it brings the law to its caller.
ghost use Rattle.dim_tune.specs.Found.{FoundLaw};
ghost use Rattle.dim_tune.specs.Laws.{AllGrownLaw, BetweenLaw, GrowsLaw, OneLaw, PrefixLaw};

use dim_gate::laws::known_law;
use dim_run::laws::grown_law;

/// No attempt loses a signature: each that is known after some attempts keeps its number, its
/// stacks, its depth and its state after one more, and its yields grow by the Yields that name it.
/// So the lists of stacks grow at their end alone, and each signature that was read has the yields
/// of all attempts more, up to 4,294,967,295.
pub fn grows_law()
    ensures grows { GrowsLaw }
    ensures prefix { PrefixLaw }
    ensures all { AllGrownLaw }
{
    grown_law();
    known_law();
}

/// Entries that are legal with a signature at a lesser depth are legal at each depth between that
/// and its own. So what is illegal at a depth is illegal at each lesser one, and there is one least
/// depth.
pub fn depth_law()
    ensures between { BetweenLaw }
    ensures one { OneLaw }
    ensures found { FoundLaw }
{}
