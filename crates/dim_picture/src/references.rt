//! What is drawn of the births that a Yield or a Learn names.
ghost use Rattle.std.specs.Prelude.{◌≡◌, ◌<◌, ◌^◌, ◌++◌, OnOk, slice_get};
ghost use Rattle.std.specs.List.{flat_map};
ghost use Rattle.std.specs.String.{string_bytes};
ghost use Rattle.dim_picture.specs.Figures.{middle, middle_by, link_to, ring_at, link, ring, references_by};
ghost use Rattle.dim_picture.specs.Frames.{x_of};

use crate::frame::Frame;
use crate::rows::{Seat, seat_of};
use crate::shape::Shape;
use crate::svg::{put_circle, put_line};
use dim_rag::{Births, EntryRef};
use dim_trace::KeptTrace;
use std::alloc::AllocError;

/// The middle of a row that is one of a mark's own, from the top.
fn middle_by(frame: &Frame, row: u32, seat: Seat) -> Option<u64>
    ensures { result ≡ middle_by frame.now row seat }
{
    match seat {
        Seat::Own(t) => Some(frame.y_of(t, row) + 9),
        _ => None,
    }
}

/// The middle of the bar that was born at a place, from the top.
fn middle(frame: &Frame, shapes: &[Shape], birth: u32) -> Option<u64>
    ensures { result ≡ middle frame.now (slice_get shapes.now birth) }
{
    match shapes.get(birth as usize) {
        Some(shape) => middle_by(frame, shape.row, seat_of(shape.mark)),
        None => None,
    }
}

/// Appends a line to a cause.
fn put_link_to(text: &mut String, x: u64, y: u64, to: Option<u64>) -> Result<(), AllocError>
    requires { y < 2 ^ 48 }
    ensures { OnOk result (string_bytes text.new ≡ string_bytes text.old ++ link_to x y to) }
{
    if let Some(z) = to {
        put_line(text, "link", x, y + 9, z)?;
        put_circle(text, "dot", x, z, 4)?;
    }
    Ok(())
}

/// Appends a ring on a hold.
fn put_ring_at(text: &mut String, x: u64, at: Option<u64>) -> Result<(), AllocError>
    ensures { OnOk result (string_bytes text.new ≡ string_bytes text.old ++ ring_at x at) }
{
    if let Some(z) = at {
        put_circle(text, "ring", x, z, 5)?;
    }
    Ok(())
}

/// Appends a line from the Yield at a place to the bar that was born at another.
fn put_link(
    text: &mut String,
    frame: &Frame,
    shapes: &[Shape],
    place: u32,
    y: u64,
    birth: u32,
) -> Result<(), AllocError>
    requires { y < 2 ^ 48 }
    ensures { OnOk result (string_bytes text.new ≡ string_bytes text.old
        ++ link frame.now shapes.now place (x_of frame.now place) y birth) }
{
    if birth == place {
        return Ok(());
    }
    put_link_to(text, frame.x_of(place), y, middle(frame, shapes, birth))
}

/// Appends lines from the Yield at a place, whose bar is at `y`, to the bars of its causes.
fn put_links(
    text: &mut String,
    frame: &Frame,
    shapes: &[Shape],
    place: u32,
    y: u64,
    births: &Births,
) -> Result<(), AllocError>
    requires { y < 2 ^ 48 }
    ensures { OnOk result (string_bytes text.new ≡ string_bytes text.old
        ++ flat_map (link frame.now shapes.now place (x_of frame.now place) y) births.now) }
{
    for i in 0..births.len() {
        put_link(text, frame, shapes, place, y, births.at(i))?;
    }
    Ok(())
}

/// Appends a ring of the Learn at a place on the bar that was born at another.
fn put_ring(
    text: &mut String,
    frame: &Frame,
    shapes: &[Shape],
    place: u32,
    birth: u32,
) -> Result<(), AllocError>
    ensures { OnOk result (string_bytes text.new
        ≡ string_bytes text.old ++ ring frame.now shapes.now (x_of frame.now place) birth) }
{
    put_ring_at(text, frame.x_of(place), middle(frame, shapes, birth))
}

/// Appends rings on the bars that the Learn at a place names.
fn put_rings(
    text: &mut String,
    frame: &Frame,
    shapes: &[Shape],
    place: u32,
    births: &Births,
) -> Result<(), AllocError>
    ensures { OnOk result (string_bytes text.new ≡ string_bytes text.old
        ++ flat_map (ring frame.now shapes.now (x_of frame.now place)) births.now) }
{
    for i in 0..births.len() {
        put_ring(text, frame, shapes, place, births.at(i))?;
    }
    Ok(())
}

/// Appends what is drawn of the births of the entry at a place, whose shape stands in a row.
pub fn put_references(
    text: &mut String,
    trace: &KeptTrace,
    frame: &Frame,
    shapes: &[Shape],
    place: u32,
    row: u32,
) -> Result<(), AllocError>
    ensures { OnOk result (string_bytes text.new ≡ string_bytes text.old
        ++ references_by frame.now shapes.now place row (slice_get trace.now.entries place)) }
{
    if place >= trace.len() {
        return Ok(());
    }
    match trace.look(place) {
        EntryRef::Yield { t, births, .. } => {
            put_links(text, frame, shapes, place, frame.y_of(t, row), births)
        }
        EntryRef::Learn { births } => put_rings(text, frame, shapes, place, births),
        _ => Ok(()),
    }
}
