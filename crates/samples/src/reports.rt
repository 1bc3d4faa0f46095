//! Reports of runs.

/// Of the run of `SMALLEST`.
pub const SMALLEST: &[u8] =
    b"outcome finished\nentries 1\ngo 0\nyield 0\ngot 0\nfree 0\ntook 0\nmiss 0\nend 1\nbreak 0\nlearn 0\nsignatures 0\nthread 0 done said 0 last 0\n";
