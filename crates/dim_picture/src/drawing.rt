//! What is drawn of the shape at a place.
ghost use Rattle.std.specs.Prelude.{◌≡◌, ◌+◌, ◌++◌, OnOk, codes};
ghost use Rattle.std.specs.String.{string_bytes};
ghost use Rattle.dim_picture.specs.Elements.{words};
ghost use Rattle.dim_picture.specs.Figures.{figure, lane_of, laned, learn_figure};

use crate::bar::Bar;
use crate::figure::{put_break, put_ended, put_freed, put_hold, put_missed, put_wait, put_yield};
use crate::frame::Frame;
use crate::mark::Mark;
use crate::shape::Shape;
use crate::svg::{put_line, put_words};
use dim_asm::Program;
use dim_base::Tid;
use dim_trace::lock_of;
use std::alloc::AllocError;

/// Appends a sign that a hold is counted up or down.
fn put_count(text: &mut String, sign: &str, bar: &Bar) -> Result<(), AllocError>
    ensures { OnOk result (string_bytes text.new ≡ string_bytes text.old
        ++ words (codes "count") (bar.now.x + 2) (bar.now.y + 13) sign.now) }
{
    put_words(text, "count", bar.x + 2, bar.y + 13, sign)
}

/// Appends a Learn at a place.
fn put_learn(text: &mut String, frame: &Frame, place: u32) -> Result<(), AllocError>
    ensures { OnOk result (string_bytes text.new ≡ string_bytes text.old
        ++ learn_figure frame.now place) }
{
    let bottom = frame.bottom();
    let x = frame.x_of(place);
    put_line(text, "learn", x, 64, bottom)?;
    put_words(text, "learnt", x, bottom + 14, "learn")
}

/// The thread in whose lane a mark stands; none for a Learn.
fn lane_of(mark: Mark) -> Option<Tid>
    ensures { result ≡ lane_of mark }
{
    match mark {
        Mark::Wait { t, .. } | Mark::Yield { t, .. } | Mark::Hold { t, .. } => Some(t),
        Mark::Deeper { t, .. } | Mark::Inner { t, .. } | Mark::Free { t, .. } => Some(t),
        Mark::Miss { t, .. } | Mark::End { t, .. } | Mark::Break { t, .. } => Some(t),
        Mark::Learn => None,
    }
}

/// Appends what is drawn of a mark in a lane.
fn put_laned(
    text: &mut String,
    program: &Program,
    mark: Mark,
    bar: &Bar,
    lasts: bool,
) -> Result<(), AllocError>
    ensures { OnOk result (string_bytes text.new ≡ string_bytes text.old
        ++ laned program.now bar.now.x bar.now.y bar.now.width lasts mark) }
{
    match mark {
        Mark::Wait { l, .. } => put_wait(text, lock_of(program, l), bar, lasts),
        Mark::Yield { sig, .. } => put_yield(text, sig, bar),
        Mark::Hold { l, .. } => put_hold(text, lock_of(program, l), l, bar),
        Mark::Deeper { .. } => put_count(text, "+", bar),
        Mark::Inner { .. } => put_count(text, "-", bar),
        Mark::Free { .. } => put_freed(text, bar),
        Mark::Miss { l, .. } => put_missed(text, lock_of(program, l), bar),
        Mark::End { why, .. } => put_ended(text, why, bar),
        Mark::Break { l, .. } => put_break(text, lock_of(program, l), bar, lasts),
        Mark::Learn => Ok(()),
    }
}

/// Appends what is drawn of the shape at a place.
#[tactic(auto, unfolding(crate::specs::Figures::figure))]
pub fn put_figure(
    text: &mut String,
    program: &Program,
    frame: &Frame,
    place: u32,
    shape: &Shape,
) -> Result<(), AllocError>
    ensures { OnOk result (string_bytes text.new
        ≡ string_bytes text.old ++ figure program.now frame.now place shape.now) }
{
    let lasts = place < shape.end.saturating_sub(1);
    match lane_of(shape.mark) {
        Some(t) => {
            let bar = frame.bar_of(place, shape.end, t, shape.row);
            put_laned(text, program, shape.mark, &bar, lasts)
        }
        None => put_learn(text, frame, place),
    }
}
