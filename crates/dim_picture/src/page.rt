//! What surrounds the marks: the head, the places, the lanes and the legend.
ghost use Rattle.std.specs.Prelude.{◌≡◌, ◌+◌, ◌*◌, ◌/◌, ◌%◌, ◌<◌, ◌≤◌, ◌^◌, ◌++◌, OnOk};
ghost use Rattle.std.specs.String.{string_bytes};
ghost use Rattle.dim_asm.specs.Code.{lock_count, thread_count};
ghost use Rattle.dim_picture.specs.Page.{opened, style, patterns, kinds, head, outcome_word, heading, range_words, is_labelled, tick, tick_at, ticks, lane, lanes, colour_group, lock_key, lock_keys, kinds_y, moved, foot};

use crate::bar::Bar;
use crate::figure::put_hold;
use crate::frame::Frame;
use crate::style::{KINDS, PATTERNS, STYLE};
use crate::svg::{open_words, put_line, put_rect, put_words};
use dim_asm::Program;
use dim_base::{Lid, Tid};
use dim_run::Outcome;
use dim_trace::lock_of;
use std::alloc::AllocError;
use std::fmt::Write;

/// Appends the opening of the picture.
#[tactic(auto, unfolding(crate::specs::Page::opened))]
fn open_picture(text: &mut String, width: u64, height: u64) -> Result<(), AllocError>
    ensures { OnOk result
        (string_bytes text.new ≡ string_bytes text.old ++ opened width height) }
{
    write!(
        text,
        "<svg xmlns=\"http://www.w3.org/2000/svg\" viewBox=\"0 0 {width} {height}\" width=\"{width}\" height=\"{height}\" font-family=\"system-ui, sans-serif\" font-size=\"12\">"
    )
}

/// Where the legend of the kinds of marks begins, from the top.
fn kinds_y(frame: &Frame, locks: u32) -> u64
    requires { locks ≤ 256 }
    ensures value { result ≡ kinds_y frame.now locks }
    ensures high { result < 2 ^ 48 }
{
    frame.bottom() + 44 + 24 * u64::from((locks + 3) / 4)
}

/// Appends the look of each class.
#[tactic(auto, unfolding(crate::specs::Page::style))]
fn put_style(text: &mut String) -> Result<(), AllocError>
    ensures { OnOk result (string_bytes text.new ≡ string_bytes text.old ++ style) }
{
    text.push_str(STYLE)
}

/// Appends the patterns.
#[tactic(auto, unfolding(crate::specs::Page::patterns))]
fn put_patterns(text: &mut String) -> Result<(), AllocError>
    ensures { OnOk result (string_bytes text.new ≡ string_bytes text.old ++ patterns) }
{
    text.push_str(PATTERNS)
}

/// Appends the legend of the kinds of marks.
#[tactic(auto, unfolding(crate::specs::Page::kinds))]
fn put_kinds(text: &mut String) -> Result<(), AllocError>
    ensures { OnOk result (string_bytes text.new ≡ string_bytes text.old ++ kinds) }
{
    text.push_str(KINDS)
}

/// Appends the head of the picture.
pub fn put_head(text: &mut String, frame: &Frame, locks: u32) -> Result<(), AllocError>
    requires { locks ≤ 256 }
    ensures { OnOk result
        (string_bytes text.new ≡ string_bytes text.old ++ head frame.now locks) }
{
    let (width, height) = (frame.width(), kinds_y(frame, locks) + 60);
    open_picture(text, width, height)?;
    put_style(text)?;
    put_patterns(text)?;
    put_rect(text, "page", 0, 0, width, height)
}

fn outcome_word(outcome: Outcome) -> &'static str
    ensures { result.now ≡ outcome_word outcome }
{
    match outcome {
        Outcome::Finished => "finished",
        Outcome::Deadlocked => "deadlocked",
        Outcome::Stalled => "stalled",
    }
}

/// Appends the range and the settings.
#[tactic(auto, unfolding(crate::specs::Page::range_words))]
fn put_range(
    text: &mut String,
    frame: &Frame,
    entries: u32,
    fuel: u32,
    depth: u8,
) -> Result<(), AllocError>
    ensures { OnOk result (string_bytes text.new
        ≡ string_bytes text.old ++ range_words frame.now entries fuel depth) }
{
    let first = frame.from();
    let last = frame.to().saturating_sub(1);
    write!(
        text,
        "places {first} to {last} of {entries} entries, fuel {fuel}, depth {depth}"
    )
}

/// Appends how the run ended, and its settings.
pub fn put_heading(
    text: &mut String,
    frame: &Frame,
    outcome: Outcome,
    entries: u32,
    fuel: u32,
    depth: u8,
) -> Result<(), AllocError>
    ensures { OnOk result (string_bytes text.new
        ≡ string_bytes text.old ++ heading frame.now outcome entries fuel depth) }
{
    put_words(text, "head", 20, 26, outcome_word(outcome))?;
    open_words(text, "note", 20, 44)?;
    put_range(text, frame, entries, fuel, depth)?;
    text.push_str("</text>\n")
}

/// Whether a place is written at its line: each, or, in a long range, each fifth.
fn is_labelled(frame: &Frame, place: u32) -> bool
    ensures { result ≡ is_labelled frame.now place }
{
    frame.places() <= 50 || place % 5 == 0
}

/// Appends the line of a place.
fn put_tick(text: &mut String, frame: &Frame, place: u32) -> Result<(), AllocError>
    ensures { OnOk result
        (string_bytes text.new ≡ string_bytes text.old ++ tick frame.now place) }
{
    let x = frame.x_of(place);
    put_line(text, "grid", x, 64, frame.bottom())?;
    if !is_labelled(frame, place) {
        return Ok(());
    }
    open_words(text, "tick", x, 60)?;
    write!(text, "{place}</text>")
}

/// Appends the line of a place, where it is in the range.
fn put_tick_at(text: &mut String, frame: &Frame, place: u32) -> Result<(), AllocError>
    ensures { OnOk result
        (string_bytes text.new ≡ string_bytes text.old ++ tick_at frame.now place) }
{
    if frame.from() <= place {
        put_tick(text, frame, place)
    } else {
        Ok(())
    }
}

/// Appends the lines of the places.
pub fn put_ticks(text: &mut String, frame: &Frame) -> Result<(), AllocError>
    ensures { OnOk result
        (string_bytes text.new ≡ string_bytes text.old ++ ticks frame.now frame.now.to) }
{
    for place in 0..frame.to() {
        put_tick_at(text, frame, place)?;
    }
    Ok(())
}

/// Appends the head of a thread's lane: its number and its function.
fn put_lane(text: &mut String, program: &Program, frame: &Frame, t: Tid) -> Result<(), AllocError>
    requires { t.0 < thread_count program.now }
    ensures { OnOk result
        (string_bytes text.new ≡ string_bytes text.old ++ lane program.now frame.now t.0) }
{
    let top = u64::from(frame.top_of(t));
    put_rect(text, "rule", 0, top, frame.width(), 1)?;
    open_words(text, "lane", 20, top + 16)?;
    let (func, _argument) = program.start(t);
    let thread = t.0;
    let name = program.func_name(func).as_str();
    writeln!(text, "{thread} {name}</text>")
}

/// Appends the heads of the lanes.
pub fn put_lanes(text: &mut String, program: &Program, frame: &Frame) -> Result<(), AllocError>
    ensures { OnOk result (string_bytes text.new ≡ string_bytes text.old
        ++ lanes program.now frame.now (thread_count program.now)) }
{
    for t in 0..program.threads() {
        put_lane(text, program, frame, Tid(t))?;
    }
    Ok(())
}

/// Where a lock's colour stands in the legend.
fn key_bar(frame: &Frame, l: u32) -> Bar
    requires { l < 256 }
    ensures x { result.x ≡ 20 + 200 * (l % 4) }
    ensures y { result.y ≡ frame.now.bottom + 34 + 24 * (l / 4) }
    ensures width { result.width ≡ 28 }
{
    Bar {
        x: 20 + 200 * u64::from(l % 4),
        y: frame.bottom() + 34 + 24 * u64::from(l / 4),
        width: 28,
    }
}

/// Appends the opening of a group with a colour.
#[tactic(auto, unfolding(crate::specs::Page::colour_group))]
fn open_colour(text: &mut String, colour: u32) -> Result<(), AllocError>
    ensures { OnOk result
        (string_bytes text.new ≡ string_bytes text.old ++ colour_group colour) }
{
    write!(text, "<g class=\"l{colour}\">")
}

/// Appends a lock's colour and name.
fn put_lock_key(
    text: &mut String,
    program: &Program,
    frame: &Frame,
    l: u32,
) -> Result<(), AllocError>
    requires { l < 256 }
    ensures { OnOk result
        (string_bytes text.new ≡ string_bytes text.old ++ lock_key program.now frame.now l) }
{
    let colour = l % 8;
    let bar = key_bar(frame, l);
    open_colour(text, colour)?;
    put_hold(text, "", Lid(l), &bar)?;
    put_words(
        text,
        "out",
        bar.x + 36,
        bar.y + 13,
        lock_of(program, Lid(l)),
    )?;
    text.push_str("</g>\n")
}

/// Appends the colours of the locks.
pub fn put_lock_keys(text: &mut String, program: &Program, frame: &Frame) -> Result<(), AllocError>
    ensures { OnOk result (string_bytes text.new ≡ string_bytes text.old
        ++ lock_keys program.now frame.now (lock_count program.now)) }
{
    for l in 0..program.locks() {
        put_lock_key(text, program, frame, l)?;
    }
    Ok(())
}

/// Appends the opening of a group that is moved down.
#[tactic(auto, unfolding(crate::specs::Page::moved))]
fn open_moved(text: &mut String, y: u64) -> Result<(), AllocError>
    ensures { OnOk result (string_bytes text.new ≡ string_bytes text.old ++ moved y) }
{
    write!(text, "<g transform=\"translate(20 {y})\">")
}

/// Appends the legend of the kinds of marks, and the end of the picture.
pub fn put_foot(text: &mut String, frame: &Frame, locks: u32) -> Result<(), AllocError>
    requires { locks ≤ 256 }
    ensures { OnOk result
        (string_bytes text.new ≡ string_bytes text.old ++ foot frame.now locks) }
{
    let y = kinds_y(frame, locks);
    open_moved(text, y)?;
    put_kinds(text)?;
    text.push_str("</g>\n</svg>\n")
}
