//! Traces of the programs.

/// The run of `SMALLEST`.
pub const SMALLEST: &[u8] = b"dim trace 1\nsettings 8192 4\ndone 0\nend 1\n";

/// The run of `CROSSED` in slices of two moves, without a history: the deadlock is learnt.
pub const LEARNT: &[u8] =
    b"dim trace 1\nsettings 8192 4\ngo 0 a left:0\ngot 0 a\ngo 1 b right:0\ngot 1 b\ngo 0 b left:1\ngo 1 a right:1\nlearn 2 0 2\nend 7\n";

/// The run of `CROSSED` in slices of two moves, where the signature of its deadlock is switched
/// off.
pub const UNLEARNT: &[u8] =
    b"dim trace 1\nsettings 8192 4\ngo 0 a left:0\ngot 0 a\ngo 1 b right:0\ngot 1 b\ngo 0 b left:1\ngo 1 a right:1\nend 6\n";

/// The run of `CROSSED` in slices of two moves, with `LEARNT`.
pub const AVOIDED: &[u8] =
    b"dim trace 1\nsettings 8192 4\ngo 0 a left:0\ngot 0 a\nyield 1 b 0 2 0 2 right:0\ngo 0 b left:1\ngot 0 b\nfree 0 b\nfree 0 a\ngo 1 b right:0\ngot 1 b\ndone 0\ngo 1 a right:1\ngot 1 a\nfree 1 a\nfree 1 b\ndone 1\nend 15\n";

/// The run of `CHAINED` in slices of two moves, with `INTERLEAVED`: the starvation is learnt and
/// broken out of.
pub const STARVED: &[u8] =
    b"dim trace 1\nsettings 8192 4\ngo 0 a left:0\ngot 0 a\ngo 1 c right:0\ngot 1 c\ngo 0 c left:1\nyield 1 b 0 2 0 5 right:1\nlearn 2 0 2\nbreak 3 1\ngot 1 b\nfree 1 b\nfree 1 c\ndone 1\ngot 0 c\nfree 0 c\nfree 0 a\ndone 0\nend 16\n";

/// `STARVED` without the entry that learns.
pub const STARVED_UNLEARNT: &[u8] =
    b"dim trace 1\nsettings 8192 4\ngo 0 a left:0\ngot 0 a\ngo 1 c right:0\ngot 1 c\ngo 0 c left:1\nyield 1 b 0 2 0 5 right:1\nbreak 3 1\ngot 1 b\nfree 1 b\nfree 1 c\ndone 1\ngot 0 c\nfree 0 c\nfree 0 a\ndone 0\nend 15\n";

/// The run of `PLAIN` with fuel 4.
pub const SPENT: &[u8] = b"dim trace 1\nsettings 4 4\ngo 0 a main:2\ngot 0 a\nspent 0\nend 3\n";
