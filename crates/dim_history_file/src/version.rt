//! The versions of a history's text.
ghost use Rattle.std.specs.Prelude.{◌≡◌};
ghost use Rattle.dim_history_file.specs.Judging.{version_of};

/// What a first line tells of the lines behind it.
#[derive(Clone, Copy, Debug, PartialEq, Eq)]
pub enum Version {
    /// The line of a signature has no state and no yields: it is on, with 0.
    One,
    /// The line of a signature has both.
    Two,
}

impl Version {
    /// The version that a first line tells, if it tells one.
    pub fn of(line: &[u8]) -> Option<Version>
        ensures { result ≡ version_of line.now }
    {
        if line == b"dim history 1".as_slice() {
            Some(Version::One)
        } else if line == b"dim history 2".as_slice() {
            Some(Version::Two)
        } else {
            None
        }
    }
}
