//! The lanes of a picture, one for each thread.
ghost use Rattle.std.specs.Prelude.{◌≡◌, ◌<◌, ◌≤◌, ◌^◌, IfOk};
ghost use Rattle.dim_picture.specs.Frames.{rows_for, rows_shown, rows_of, below, frame_of};

use crate::frame::Frame;
use crate::rows::{Seat, seat_of};
use crate::shape::Shape;
use dim_base::OutOfMemory;
use std::alloc::Global;

/// How many rows a shape wants of a thread's lane.
fn rows_for(t: u32, row: u32, seat: Seat) -> u64
    ensures value { result ≡ rows_for t row seat }
    ensures few { result ≤ 2 ^ 32 }
{
    match seat {
        Seat::Own(u) if u.0 == t => u64::from(row) + 1,
        _ => 1,
    }
}

/// How many rows the shape at a place wants of a thread's lane, where it reaches into a range.
fn rows_shown(from: u32, to: u32, t: u32, place: usize, shape: &Shape) -> u64
    ensures value { result ≡ rows_shown from to t place shape.now }
    ensures few { result ≤ 2 ^ 32 }
{
    if place < to as usize && from < shape.end {
        rows_for(t, shape.row, seat_of(shape.mark))
    } else {
        1
    }
}

/// How many rows a thread's lane has, by the shapes that reach into a range.
fn rows_of(from: u32, to: u32, shapes: &[Shape], t: u32) -> u64
    ensures value { result ≡ rows_of from to shapes.now t }
    ensures few { result ≤ 2 ^ 32 }
{
    let mut most = 1u64;
    for place in 0..shapes.len() {
        most = most.max(rows_shown(from, to, t, place, &shapes[place]));
    }
    most
}

/// The end of a lane that begins at a top, of at most 2 ^ 32 rows.
fn below(top: u32, rows: u64) -> u32
    requires { rows ≤ 2 ^ 32 }
    ensures { result ≡ below top rows }
{
    (u64::from(top) + 30 + 24 * rows).min(4_294_967_295) as u32
}

/// The frame of a range, with a lane for each of so many threads.
pub fn frame_of(
    alloc: Global,
    threads: u32,
    shapes: &[Shape],
    from: u32,
    to: u32,
) -> Result<Frame, OutOfMemory>
    ensures { IfOk result (λ f. f ≡ frame_of from to shapes.now threads) }
{
    let mut tops = Vec::new(alloc);
    let mut bottom = 70u32;
    for t in 0..threads {
        tops.push(bottom)?;
        bottom = below(bottom, rows_of(from, to, shapes, t));
    }
    Ok(Frame::new(from, to, tops, bottom))
}
