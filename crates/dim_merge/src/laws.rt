//! What two histories and the one that they become are to one another, as laws.
ghost use Rattle.dim_merge.specs.Laws.{AgainLaw, FirstLaw, HistoryLaw, ItselfLaw, KnownLaw, NoneLaw, OnceLaw, SecondLaw};

/// What the merged history is: it has the stacks that either has, each once (`known`, `once`). Each
/// signature of the first has its own number there, its depth and its state (`first`), and each of
/// the second that the first doesn't know is there as it was (`second`). So each that is on in the
/// first is on, and each that is on in the second alone. With the history that knows none it is the
/// other one (`none`), and with itself it has the same stacks in the same order (`itself`). It has
/// a text, and is read again from it (`history`, `again`).
pub fn merged_law()
    ensures known { KnownLaw }
    ensures once { OnceLaw }
    ensures first { FirstLaw }
    ensures second { SecondLaw }
    ensures none { NoneLaw }
    ensures itself { ItselfLaw }
    ensures history { HistoryLaw }
    ensures again { AgainLaw }
{}
