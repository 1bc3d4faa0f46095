//! Histories. Those of the version before the present one end in `BEFORE`.

/// The history that knows no signature.
pub const EMPTY: &[u8] = b"dim history 2\nend 0\n";

/// `EMPTY` in version 1.
pub const EMPTY_BEFORE: &[u8] = b"dim history 1\nend 0\n";

/// The signature of the deadlock of `CROSSED`.
pub const LEARNT: &[u8] = b"dim history 2\nsignature 4 2 on 0\nleft:0\nright:0\nend 1\n";

/// `LEARNT` in version 1.
pub const LEARNT_BEFORE: &[u8] = b"dim history 1\nsignature 4 2\nleft:0\nright:0\nend 1\n";

/// `LEARNT` with one yield.
pub const AVOIDED: &[u8] = b"dim history 2\nsignature 4 2 on 1\nleft:0\nright:0\nend 1\n";

/// `LEARNT` with as many yields as are counted.
pub const MOST_YIELDS: &[u8] =
    b"dim history 2\nsignature 4 2 on 4294967295\nleft:0\nright:0\nend 1\n";

/// `LEARNT` switched off.
pub const SWITCHED_OFF: &[u8] = b"dim history 2\nsignature 4 2 off 0\nleft:0\nright:0\nend 1\n";

/// A signature of `CHAINED` and `LEADS_ON`: one of their two threads has taken a lock before.
pub const INTERLEAVED: &[u8] = b"dim history 2\nsignature 4 2 on 0\nleft:0\nright:1\nend 1\n";

/// `INTERLEAVED` in version 1.
pub const INTERLEAVED_BEFORE: &[u8] = b"dim history 1\nsignature 4 2\nleft:0\nright:1\nend 1\n";

/// The signature of the deadlock of `PHILOSOPHERS`.
pub const FIVE_FORKS: &[u8] =
    b"dim history 2\nsignature 4 5 on 0\nphil:2\nphil:2\nphil:2\nphil:2\nphil:2\nend 1\n";

/// `FIVE_FORKS` in version 1.
pub const FIVE_FORKS_BEFORE: &[u8] =
    b"dim history 1\nsignature 4 5\nphil:2\nphil:2\nphil:2\nphil:2\nphil:2\nend 1\n";

/// `FIVE_FORKS` with one yield.
pub const FIVE_FORKS_AVOIDED: &[u8] =
    b"dim history 2\nsignature 4 5 on 1\nphil:2\nphil:2\nphil:2\nphil:2\nphil:2\nend 1\n";

/// Stacks that agree with those of `NESTED` in one frame, and in no more.
pub const MATCHED_BY_ONE: &[u8] =
    b"dim history 2\nsignature 1 2 on 0\ntake:0 x:0\ntake:0 y:0\nend 1\n";

/// `MATCHED_BY_ONE` in version 1.
pub const MATCHED_BY_ONE_BEFORE: &[u8] =
    b"dim history 1\nsignature 1 2\ntake:0 x:0\ntake:0 y:0\nend 1\n";

/// The stacks of `MATCHED_BY_ONE`, which no stack of `NESTED` agrees with at depth 4.
pub const MATCHED_BY_FOUR: &[u8] =
    b"dim history 2\nsignature 4 2 on 0\ntake:0 x:0\ntake:0 y:0\nend 1\n";

/// `MATCHED_BY_FOUR` in version 1.
pub const MATCHED_BY_FOUR_BEFORE: &[u8] =
    b"dim history 1\nsignature 4 2\ntake:0 x:0\ntake:0 y:0\nend 1\n";

/// A signature that no run of `THREE_CROSSED` comes to.
pub const ELSEWHERE: &[u8] = b"dim history 2\nsignature 1 2 on 0\nw1:0 f1:1\nw1:1\nend 1\n";

/// The signature of the deadlock of `ONE_AGAINST_TWO`, by its first frames.
pub const FIRST_FRAMES: &[u8] = b"dim history 2\nsignature 1 2 on 0\nw0:0\nw1:0\nend 1\n";
