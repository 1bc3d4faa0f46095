//! Where marks end.
ghost use Rattle.std.specs.Prelude.{◌≡◌, ◌<◌, ◌≤◌, ◌^◌, length, drop};
ghost use Rattle.dim_picture.specs.Shapes.{is_of, frees, closes, end_from};

use crate::mark::Mark;
use dim_base::{Lid, Tid};

/// Whether a mark is of this thread.
pub fn is_of(t: Tid, mark: Mark) -> bool
    ensures { result ≡ is_of t.0 mark }
{
    match mark {
        Mark::Wait { t: u, .. } | Mark::Yield { t: u, .. } | Mark::Hold { t: u, .. } => u.0 == t.0,
        Mark::Deeper { t: u, .. } | Mark::Inner { t: u, .. } | Mark::Free { t: u, .. } => {
            u.0 == t.0
        }
        Mark::Miss { t: u, .. } | Mark::End { t: u, .. } | Mark::Break { t: u, .. } => u.0 == t.0,
        Mark::Learn => false,
    }
}

/// Whether a mark is the Free that ends a hold of this thread on this lock.
fn frees(t: Tid, l: Lid, mark: Mark) -> bool
    ensures { result ≡ frees t l mark }
{
    match mark {
        Mark::Free { t: u, l: m, .. } => u.0 == t.0 && m.0 == l.0,
        _ => false,
    }
}

/// Whether a mark ends at a later one.
fn closes(mark: Mark, later: Mark) -> bool
    ensures { result ≡ closes mark later }
{
    match mark {
        Mark::Wait { t, .. } | Mark::Yield { t, .. } | Mark::Break { t, .. } => is_of(t, later),
        Mark::Hold { t, l } => frees(t, l, later),
        _ => true,
    }
}

/// Where a mark ends by the marks from a place on.
pub fn end_of(mark: Mark, marks: &[Mark], from: u32) -> u32
    requires within { from ≤ length marks.now }
    requires few { length marks.now < 2 ^ 32 }
    ensures { result ≡ end_from mark from (drop from marks.now) }
{
    let count = marks.len() as u32;
    for place in from..count {
        if closes(mark, marks[place as usize]) {
            return place;
        }
    }
    count
}
