//! The rows of the lanes.
ghost use Rattle.std.specs.Prelude.{◌≡◌, ◌+◌, ◌<◌, ◌^◌, IfOk, OnOk, length};
ghost use Rattle.dim_picture.specs.Shapes.{seat_of, first_free, with_taken};

use crate::mark::Mark;
use dim_base::{OutOfMemory, Tid};

/// Where a mark stands.
#[derive(Clone, Copy, Debug, PartialEq, Eq)]
pub enum Seat {
    /// In a row of its own of this thread's lane.
    Own(Tid),
    /// In the row of the mark at this place.
    Beside(u32),
    Nowhere,
}

/// A row of a thread's lane, and the place until which it is taken.
#[derive(Clone, Copy, Debug, PartialEq, Eq)]
pub struct Slot {
    pub t: Tid,
    pub until: u32,
}

/// Where a mark stands.
pub fn seat_of(mark: Mark) -> Seat
    ensures { result ≡ seat_of mark }
{
    match mark {
        Mark::Wait { t, .. } | Mark::Yield { t, .. } | Mark::Hold { t, .. } => Seat::Own(t),
        Mark::Miss { t, .. } | Mark::End { t, .. } | Mark::Break { t, .. } => Seat::Own(t),
        Mark::Deeper { birth, .. } | Mark::Inner { birth, .. } => Seat::Beside(birth),
        Mark::Free { birth, .. } => Seat::Beside(birth),
        Mark::Learn => Seat::Nowhere,
    }
}

/// Takes the first row of a thread's lane that is free at a place, until another place, and answers
/// which it is.
pub fn take_row(slots: &mut Vec<Slot>, t: Tid, place: u32, until: u32) -> Result<u32, OutOfMemory>
    requires few { length slots.old.items < 2 ^ 32 }
    ensures row { IfOk result (λ row. row ≡ first_free t.0 place slots.old.items) }
    ensures slots { OnOk result
        (slots.new.items ≡ with_taken t place until slots.old.items) }
{
    let mut row = 0u32;
    for i in 0..slots.len() {
        if slots[i].t.0 == t.0 {
            if slots[i].until <= place {
                slots[i].until = until;
                return Ok(row);
            }
            row += 1;
        }
    }
    slots.push(Slot { t, until })?;
    Ok(row)
}
