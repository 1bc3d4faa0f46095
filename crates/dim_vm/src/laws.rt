//! Laws of a thread's own entries, of walks, and of the stacks in them.
ghost use Rattle.dim_vm.specs.Laws.{OwnEntriesLaw, OwnHistoryLaw, OwnWalksLaw};
ghost use Rattle.dim_vm.specs.Places.{CourseLaw, LedLaw, WalkLaw};
ghost use Rattle.dim_vm.specs.Stacks.{AskedLaw, NamedLaw};

/// A thread's own entries, where they are a walk, say how it stands, in which mode it is, and what
/// it holds.
pub fn own_entries_law()
    ensures { OwnEntriesLaw }
{}

/// In a history that fits, a thread's own entries say its mode, save after a Break, and what it
/// holds and wants.
pub fn own_history_law()
    ensures { OwnHistoryLaw }
{}

/// A history that fits is a walk exactly where each thread's own entries are one.
pub fn own_walks_law()
    ensures { OwnWalksLaw }
{}

/// A list is a walk exactly where at each place the entry fits the configuration to which its
/// caller's own entries before that place lead. Those lead it from its start, one by one, each
/// followed by the plain instructions that come next: so many as there are units, or as come before
/// one that isn't plain.
pub fn walk_places_law()
    ensures walk { WalkLaw }
    ensures led { LedLaw }
    ensures course { CourseLaw }
{}

/// The stacks with which threads ask, in a walk: each frame is at an instruction of the program.
/// Where the program is bound to a table of names, the function of such a frame has a name in the
/// table, and its offset is at most 65,535.
pub fn stacks_law()
    ensures asked { AskedLaw }
    ensures named { NamedLaw }
{}
