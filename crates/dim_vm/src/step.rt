//! What an instruction comes to.
use dim_base::Lid;
use dim_rag::Why;

/// What comes next: a plain instruction, which has been made, or something else, which hasn't.
/// A lock that is wanted, taken once more or freed is the top operand where `drops` says so.
#[derive(Clone, Copy, Debug, PartialEq, Eq)]
pub enum Step {
    Plain,
    Ends { why: Why },
    Wants { l: Lid, drops: bool },
    Retakes { l: Lid, drops: bool },
    Frees { l: Lid, drops: bool },
    Tries { l: Lid },
}
