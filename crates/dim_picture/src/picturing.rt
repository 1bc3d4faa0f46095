//! The text of a picture.
ghost use Rattle.std.specs.Prelude.{◌≡◌, ◌++◌, IfOk, OnOk, length, slice_get, codes};
ghost use Rattle.std.specs.String.{string_bytes};
ghost use Rattle.dim_picture.specs.Page.{colour_of, group, drawn, shown, mark_by, front, back, picture_in, picture_text};

use crate::drawing::put_figure;
use crate::frame::Frame;
use crate::lanes::frame_of;
use crate::line::put_line_at;
use crate::mark::Mark;
use crate::page::{put_foot, put_head, put_heading, put_lanes, put_lock_keys, put_ticks};
use crate::references::put_references;
use crate::shape::Shape;
use crate::shaping::Drawing;
use dim_asm::Program;
use dim_base::{Bytes, OutOfMemory};
use dim_stack::Names;
use dim_trace::KeptTrace;
use std::alloc::{AllocError, Global};

/// The colour of a mark: that of its lock, of eight, or one behind them.
fn colour_of(mark: Mark) -> u32
    ensures { result ≡ colour_of mark }
{
    match mark {
        Mark::Wait { l, .. } | Mark::Yield { l, .. } | Mark::Hold { l, .. } => l.0 % 8,
        Mark::Deeper { l, .. } | Mark::Inner { l, .. } | Mark::Free { l, .. } => l.0 % 8,
        Mark::Miss { l, .. } | Mark::Break { l, .. } => l.0 % 8,
        Mark::End { .. } | Mark::Learn => 8,
    }
}

/// The opening of a mark's group, up to its title.
#[tactic(auto, unfolding(crate::specs::Page::group))]
fn group(alloc: Global, colour: u32) -> Result<String, AllocError>
    ensures { IfOk result (λ text. string_bytes text ≡ group colour) }
{
    format!(in alloc; "<g class=\"l{colour}\"><title>")
}

/// What a picture is drawn of: a trace of a program, with what each entry is, in a frame.
#[derive(Drop)]
struct Scene<'a> {
    program: &'a Program,
    names: &'a Names,
    trace: &'a KeptTrace,
    drawing: &'a Drawing,
    frame: &'a Frame,
}

impl<'a> Scene<'a> {
    /// What is drawn of a shape at a place, behind its title.
    fn drawn(&self, alloc: Global, place: u32, shape: &Shape) -> Result<String, AllocError>
        ensures { IfOk result (λ text. string_bytes text ≡ codes "</title>" ++
            drawn self.now.program.now self.now.frame.now self.now.drawing.now.shapes.items
            place shape.now (slice_get self.now.trace.now.entries place)) }
    {
        let shapes = self.drawing.shapes.as_slice();
        let mut text = String::from_str(alloc, "</title>")?;
        put_figure(&mut text, self.program, self.frame, place, shape)?;
        put_references(&mut text, self.trace, self.frame, shapes, place, shape.row)?;
        text.push_str("</g>\n")?;
        Ok(text)
    }

    /// Appends a shape at a place, with the line of its entry.
    fn put_shown(
        &self,
        alloc: Global,
        out: &mut Vec<u8>,
        place: u32,
        shape: &Shape,
    ) -> Result<(), OutOfMemory>
        ensures { OnOk result (out.new.items ≡ out.old.items
            ++ shown self.now.program.now self.now.names.now self.now.frame.now
            self.now.drawing.now.shapes.items place shape.now
            (slice_get self.now.trace.now.entries place)) }
    {
        let opened = group(alloc, colour_of(shape.mark))?;
        out.extend_from_slice(opened.as_bytes())?;
        put_line_at(alloc, out, self.program, self.names, self.trace, place)?;
        let rest = self.drawn(alloc, place, shape)?;
        Ok(out.extend_from_slice(rest.as_bytes())?)
    }

    /// Appends the shape at a place, where it reaches into the range.
    fn put_mark(&self, alloc: Global, out: &mut Vec<u8>, place: u32) -> Result<(), OutOfMemory>
        ensures { OnOk result (out.new.items ≡ out.old.items
            ++ mark_by self.now.program.now self.now.names.now self.now.frame.now
            self.now.drawing.now.shapes.items place
            (slice_get self.now.drawing.now.shapes.items place)
            (slice_get self.now.trace.now.entries place)) }
    {
        match self.drawing.shapes.get(place as usize) {
            Some(shape) if self.frame.is_shown(place, shape) => {
                self.put_shown(alloc, out, place, shape)
            }
            _ => Ok(()),
        }
    }

    /// What stands before the marks.
    fn front(&self, alloc: Global) -> Result<String, AllocError>
        ensures { IfOk result (λ text. string_bytes text
            ≡ front self.now.program.now self.now.frame.now self.now.drawing.now.outcome
            (length self.now.trace.now.entries) self.now.trace.now.fuel self.now.trace.now.depth) }
    {
        let mut text = String::new(alloc);
        put_head(&mut text, self.frame, self.program.locks())?;
        let trace = self.trace;
        put_heading(
            &mut text,
            self.frame,
            self.drawing.outcome,
            trace.len(),
            trace.fuel(),
            trace.depth(),
        )?;
        put_ticks(&mut text, self.frame)?;
        put_lanes(&mut text, self.program, self.frame)?;
        Ok(text)
    }

    /// What stands behind the marks.
    fn back(&self, alloc: Global) -> Result<String, AllocError>
        ensures { IfOk result (λ text. string_bytes text
            ≡ back self.now.program.now self.now.frame.now) }
    {
        let mut text = String::new(alloc);
        put_lock_keys(&mut text, self.program, self.frame)?;
        put_foot(&mut text, self.frame, self.program.locks())?;
        Ok(text)
    }

    /// The picture.
    fn picture(&self, alloc: Global) -> Result<Vec<u8>, OutOfMemory>
        ensures { IfOk result (λ out. out.items
            ≡ picture_in self.now.program.now self.now.names.now self.now.trace.now.fuel
            self.now.trace.now.depth self.now.trace.now.entries self.now.drawing.now.outcome
            self.now.drawing.now.shapes.items self.now.frame.now) }
    {
        let mut out = self.front(alloc)?.into_bytes();
        for place in 0..self.frame.to() {
            self.put_mark(alloc, &mut out, place)?;
        }
        out.extend_from_slice(self.back(alloc)?.as_bytes())?;
        Ok(out)
    }
}

/// The text of the picture of a trace's entries from a place on and before another, as SVG. docs/
/// has what it shows.
#[tactic(auto, unfolding(crate::specs::Page::picture_text))]
pub fn picture_text(
    alloc: Global,
    program: &Program,
    names: &Names,
    trace: &KeptTrace,
    drawing: &Drawing,
    from: u32,
    to: u32,
) -> Result<Bytes, OutOfMemory>
    ensures { IfOk result (λ text. text
        ≡ picture_text program.now names.now trace.now.fuel trace.now.depth trace.now.entries
        drawing.now.outcome drawing.now.shapes.items from to) }
{
    let frame = frame_of(
        alloc,
        program.threads(),
        drawing.shapes.as_slice(),
        from,
        to,
    )?;
    let scene = Scene {
        program,
        names,
        trace,
        drawing,
        frame: &frame,
    };
    Ok(Bytes::from_vec(scene.picture(alloc)?))
}
