//! The shapes of a picture.
ghost use Rattle.std.specs.Prelude.{◌≡◌, ◌+◌, ◌≤◌, ◌<◌, ◌^◌, IfOk, OnOk, length, slice_get};
ghost use Rattle.dim_execution.specs.Executes.{Executes};
ghost use Rattle.dim_execution.specs.Start.{gate_of};
ghost use Rattle.dim_rag.specs.History.{past};
ghost use Rattle.dim_run.specs.Run.{outcome_of};
ghost use Rattle.dim_picture.specs.Marks.{marks};
ghost use Rattle.dim_picture.specs.Places.{AreShapes};
ghost use Rattle.dim_picture.specs.Shapes.{row_of, row_at, slots_after, shapes_of};

use crate::ending::end_of;
use crate::laws::{shapes_law, told_law};
use crate::mark::Mark;
use crate::marking::{Marked, mark_all};
use crate::rows::{Seat, Slot, seat_of, take_row};
use crate::shape::Shape;
use dim_asm::Program;
use dim_base::OutOfMemory;
use dim_history_file::History;
use dim_run::Outcome;
use dim_trace::KeptTrace;
use std::alloc::Global;

/// What a picture shows of a trace: a shape for each entry, in order, and how the run ended.
#[derive(Drop)]
pub struct Drawing {
    pub shapes: Vec<Shape>,
    pub outcome: Outcome,
}

/// The row of the shape at a place, or the first one where there is none.
fn row_of(shapes: &[Shape], place: u32) -> u32
    ensures { result ≡ row_of (slice_get shapes.now place) }
{
    match shapes.get(place as usize) {
        Some(shape) => shape.row,
        None => 0,
    }
}

/// The row of a mark at a place that ends at another, which is taken where it is one of its own.
fn row_at(slots: &mut Vec<Slot>, before: &[Shape], seat: Seat, end: u32) -> Result<u32, OutOfMemory>
    requires few { length slots.old.items ≤ length before.now }
    requires few_shapes { length before.now < 2 ^ 32 }
    ensures row { IfOk result (λ row. row ≡ row_at slots.old.items before.now seat) }
    ensures slots { OnOk result
        (slots.new.items ≡ slots_after slots.old.items (length before.now) end seat) }
{
    match seat {
        Seat::Own(t) => take_row(slots, t, before.len() as u32, end),
        Seat::Beside(birth) => Ok(row_of(before, birth)),
        Seat::Nowhere => Ok(0),
    }
}

/// The shapes of some marks.
fn shapes_of(alloc: Global, marks: &[Mark]) -> Result<Vec<Shape>, OutOfMemory>
    requires { length marks.now < 2 ^ 32 }
    ensures { IfOk result (λ shapes. shapes.items ≡ shapes_of marks.now) }
{
    let mut slots = Vec::new(alloc);
    let mut shapes = Vec::new(alloc);
    for place in 0..marks.len() {
        let mark = marks[place];
        let end = end_of(mark, marks, place as u32 + 1);
        let row = row_at(&mut slots, &shapes, seat_of(mark), end)?;
        shapes.push(Shape { mark, end, row })?;
    }
    Ok(shapes)
}

/// What a picture shows of a trace that executes a program on a history.
///
/// `check_kept` says whether the trace executes the program. There is one shape for each entry, in
/// order. What waits or yields ends at the next entry of its thread, a hold at the Free that ends
/// it, and each other shape at the next place; what the trace doesn't end, ends behind it. A shape
/// with a row of its own stands in the first row of its thread's lane that is free at its place. The
/// trace has at most 1,048,576 entries.
pub fn drawn(
    alloc: Global,
    program: &Program,
    history: &History,
    trace: &KeptTrace,
) -> Result<Drawing, OutOfMemory>
    requires executes { Executes
        (gate_of program.now history.now.catalogue.sigs trace.now.depth) program.now
        trace.now.fuel trace.now.entries }
    requires short { length trace.now.entries ≤ 1048576 }
    ensures shapes { IfOk result
        (λ d. d.shapes.items ≡ shapes_of (marks (past trace.now.entries))) }
    ensures places { IfOk result (λ d. AreShapes trace.now.entries d.shapes.items) }
    ensures outcome { IfOk result (λ d. d.outcome ≡ outcome_of program.now trace.now.entries) }
{
    shapes_law();
    told_law();
    // For the contract: what the signatures are.
    let _loaded = history.catalogue.len();
    let Marked { marks, outcome } = mark_all(alloc, program, trace)?;
    let shapes = shapes_of(alloc, &marks)?;
    Ok(Drawing { shapes, outcome })
}
