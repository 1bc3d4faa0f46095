//! Laws of the definitions. Each is a function with nothing to do, whose contract is the law: a
//! call of it brings the law to its caller.
ghost use Rattle.dim_words.specs.Places.{PartingLaw};

/// What the words behind a command's name part into, by their positions.
///
/// A word is an option where it is one of the command and none stands right before it, a value
/// right behind an option, and else a name. Words part exactly where each option has a value of its
/// range behind it and none stands twice.
pub fn parting_law()
    ensures { PartingLaw }
{}
