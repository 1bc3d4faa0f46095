//! Where a picture has its places and lanes, in pixels.
ghost use Rattle.std.specs.Prelude.{◌≡◌, ◌-◌, ◌*◌, ◌<◌, ◌≤◌, ◌^◌};
ghost use Rattle.dim_picture.specs.Frames.{column, is_shown, step_of, top_of, width_of, x_of, y_of};

use crate::bar::Bar;
use crate::shape::Shape;
use dim_base::Tid;
use std::marker::Model;

/// A range of places, and where lanes begin.
///
/// A contract sees the first place of the range and the one behind it, the top of each lane, and the
/// end of the last one.
#[derive(Drop)]
pub struct Frame {
    from: u32,
    to: u32,
    tops: Vec<u32>,
    bottom: u32,
}

impl Model for Frame {
    ghost use Rattle.dim_picture.specs.Value.{FrameValue};

    ghost Value = { FrameValue };

    ghost view = { λ f. record { from = f.from; to = f.to; tops = f.tops.items; bottom = f.bottom } };
}

/// How many pixels there are from a place to the next, by the number of places.
fn step_of(places: u32) -> u64
    ensures value { result ≡ step_of places }
    ensures few { result ≤ 46 }
{
    if places <= 24 {
        46
    } else if places <= 50 {
        24
    } else {
        14
    }
}

/// So many steps.
fn steps(step: u64, columns: u32) -> u64
    requires { step ≤ 46 }
    ensures value { result ≡ step * columns }
    ensures near { result ≤ 46 * 2 ^ 32 }
{
    step * u64::from(columns)
}

impl Frame {
    /// The frame with these.
    pub fn new(from: u32, to: u32, tops: Vec<u32>, bottom: u32) -> Frame
        ensures { result ≡ record { from = from; to = to; tops = tops.items; bottom = bottom } }
    {
        Frame {
            from,
            to,
            tops,
            bottom,
        }
    }

    /// The first place of the range.
    pub fn from(&self) -> u32
        ensures { result ≡ self.now.from }
    {
        self.from
    }

    /// The place behind the range.
    pub fn to(&self) -> u32
        ensures { result ≡ self.now.to }
    {
        self.to
    }

    /// The end of the last lane.
    pub fn bottom(&self) -> u64
        ensures value { result ≡ self.now.bottom }
        ensures high { result < 2 ^ 32 }
    {
        u64::from(self.bottom)
    }

    /// How many places the range has.
    pub fn places(&self) -> u32
        ensures { result ≡ self.now.to - self.now.from }
    {
        self.to.saturating_sub(self.from)
    }

    /// The place in the range that is nearest to one, counted from the first.
    fn column(&self, place: u32) -> u32
        ensures { result ≡ column self.now place }
    {
        place.max(self.from).min(self.to).saturating_sub(self.from)
    }

    /// Where a place is, from the left.
    pub fn x_of(&self, place: u32) -> u64
        ensures value { result ≡ x_of self.now place }
        ensures near { result < 2 ^ 48 }
    {
        20 + steps(step_of(self.places()), self.column(place))
    }

    /// Where a shape is that goes from a place to another, in a row of a lane.
    pub fn bar_of(&self, place: u32, end: u32, t: Tid, row: u32) -> Bar
        ensures x { result.x ≡ x_of self.now place }
        ensures y { result.y ≡ y_of self.now t row }
        ensures width { result.width ≡ x_of self.now end - x_of self.now place }
    {
        let x = self.x_of(place);
        Bar {
            x,
            y: self.y_of(t, row),
            width: self.x_of(end).saturating_sub(x),
        }
    }

    /// The top of a lane.
    pub fn top_of(&self, t: Tid) -> u32
        ensures { result ≡ top_of self.now t }
    {
        match self.tops.get(t.0 as usize) {
            Some(top) => *top,
            None => 0,
        }
    }

    /// The top of a row of a lane.
    pub fn y_of(&self, t: Tid, row: u32) -> u64
        ensures value { result ≡ y_of self.now t row }
        ensures high { result < 2 ^ 48 }
    {
        u64::from(self.top_of(t)) + 22 + 24 * u64::from(row)
    }

    /// The width of the picture.
    pub fn width(&self) -> u64
        ensures { result ≡ width_of self.now }
    {
        (self.x_of(self.to) + 70).max(840)
    }

    /// Whether a shape at a place reaches into the range.
    pub fn is_shown(&self, place: u32, shape: &Shape) -> bool
        ensures { result ≡ is_shown self.now place shape.now }
    {
        place < self.to && self.from < shape.end
    }
}
