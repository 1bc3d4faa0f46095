//! The elements of a picture.
ghost use Rattle.std.specs.Prelude.{◌≡◌, ◌++◌, OnOk};
ghost use Rattle.std.specs.String.{string_bytes};
ghost use Rattle.dim_picture.specs.Elements.{rect, opening, words, named, line, circle, sign};

use crate::bar::Bar;
use std::alloc::AllocError;
use std::fmt::Write;

/// Appends a rectangle.
#[tactic(auto, unfolding(crate::specs::Elements::rect))]
pub fn put_rect(
    text: &mut String,
    class: &str,
    x: u64,
    y: u64,
    width: u64,
    height: u64,
) -> Result<(), AllocError>
    ensures { OnOk result (string_bytes text.new
        ≡ string_bytes text.old ++ rect class.now x y width height) }
{
    write!(
        text,
        "<rect class=\"{class}\" x=\"{x}\" y=\"{y}\" width=\"{width}\" height=\"{height}\"/>"
    )
}

/// Appends what stands before words.
#[tactic(auto, unfolding(crate::specs::Elements::opening))]
pub fn open_words(text: &mut String, class: &str, x: u64, y: u64) -> Result<(), AllocError>
    ensures { OnOk result
        (string_bytes text.new ≡ string_bytes text.old ++ opening class.now x y) }
{
    write!(text, "<text class=\"{class}\" x=\"{x}\" y=\"{y}\">")
}

/// Appends some words.
pub fn put_words(
    text: &mut String,
    class: &str,
    x: u64,
    y: u64,
    said: &str,
) -> Result<(), AllocError>
    ensures { OnOk result
        (string_bytes text.new ≡ string_bytes text.old ++ words class.now x y said.now) }
{
    open_words(text, class, x, y)?;
    text.push_str(said)?;
    text.push_str("</text>")
}

/// Appends a name in a bar, where it fits.
pub fn put_named(text: &mut String, class: &str, bar: &Bar, name: &str) -> Result<(), AllocError>
    ensures { OnOk result (string_bytes text.new
        ≡ string_bytes text.old ++ named class.now bar.now.x bar.now.y bar.now.width name.now) }
{
    if name.len() as u64 > bar.width.saturating_sub(9) / 7 {
        return Ok(());
    }
    put_words(text, class, bar.x + 5, bar.y + 13, name)
}

/// Appends a line from the top down, or from the bottom up.
#[tactic(auto, unfolding(crate::specs::Elements::line))]
pub fn put_line(
    text: &mut String,
    class: &str,
    x: u64,
    from: u64,
    to: u64,
) -> Result<(), AllocError>
    ensures { OnOk result (string_bytes text.new
        ≡ string_bytes text.old ++ line class.now x from to) }
{
    write!(text, "<path class=\"{class}\" d=\"M{x} {from}V{to}\"/>")
}

/// Appends a circle.
#[tactic(auto, unfolding(crate::specs::Elements::circle))]
pub fn put_circle(
    text: &mut String,
    class: &str,
    x: u64,
    y: u64,
    radius: u64,
) -> Result<(), AllocError>
    ensures { OnOk result (string_bytes text.new
        ≡ string_bytes text.old ++ circle class.now x y radius) }
{
    write!(
        text,
        "<circle class=\"{class}\" cx=\"{x}\" cy=\"{y}\" r=\"{radius}\"/>"
    )
}

/// Appends a sign, which is drawn from a point on.
#[tactic(auto, unfolding(crate::specs::Elements::sign))]
pub fn put_sign(
    text: &mut String,
    class: &str,
    x: u64,
    y: u64,
    strokes: &str,
) -> Result<(), AllocError>
    ensures { OnOk result (string_bytes text.new
        ≡ string_bytes text.old ++ sign class.now x y strokes.now) }
{
    write!(text, "<path class=\"{class}\" d=\"M{x} {y}{strokes}\"/>")
}
