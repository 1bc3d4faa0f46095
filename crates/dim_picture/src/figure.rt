//! What is drawn of each mark.
ghost use Rattle.std.specs.Prelude.{◌≡◌, ◌++◌, OnOk};
ghost use Rattle.std.specs.String.{string_bytes};
ghost use Rattle.dim_picture.specs.Figures.{pattern_class, pattern, hold, wait, yielding, broken, freed, missed, why_words, ended};

use crate::bar::Bar;
use crate::svg::{open_words, put_named, put_rect, put_sign, put_words};
use dim_asm::Program;
use dim_base::Lid;
use dim_rag::Why;
use dim_trace::lock_of;
use std::alloc::AllocError;
use std::fmt::Write;

/// The pattern of a lock's colour, where there are more locks than colours.
fn pattern_class(l: Lid) -> &'static str
    ensures { result.now ≡ pattern_class l }
{
    match (l.0 / 8) % 4 {
        1 => "p1",
        2 => "p2",
        3 => "p3",
        _ => "p0",
    }
}

/// Appends a lock's pattern.
fn put_pattern(text: &mut String, l: Lid, bar: &Bar) -> Result<(), AllocError>
    ensures { OnOk result (string_bytes text.new
        ≡ string_bytes text.old ++ pattern l bar.now.x bar.now.y bar.now.width) }
{
    if l.0 < 8 {
        return Ok(());
    }
    put_rect(text, pattern_class(l), bar.x, bar.y, bar.width, 18)
}

/// Appends a hold of a lock.
pub fn put_hold(text: &mut String, name: &str, l: Lid, bar: &Bar) -> Result<(), AllocError>
    ensures { OnOk result (string_bytes text.new
        ≡ string_bytes text.old ++ hold name.now l bar.now.x bar.now.y bar.now.width) }
{
    put_rect(text, "hold", bar.x, bar.y, bar.width, 18)?;
    put_pattern(text, l, bar)?;
    put_named(text, "in", bar, name)
}

/// Appends a wait for a lock. One that lasts more than a step has the lock's name.
pub fn put_wait(text: &mut String, name: &str, bar: &Bar, lasts: bool) -> Result<(), AllocError>
    ensures { OnOk result (string_bytes text.new
        ≡ string_bytes text.old ++ wait name.now bar.now.x bar.now.y bar.now.width lasts) }
{
    put_rect(text, "wait", bar.x, bar.y, bar.width, 18)?;
    if !lasts {
        return Ok(());
    }
    put_named(text, "out", bar, name)
}

/// Appends a Yield, with its signature's number.
pub fn put_yield(text: &mut String, sig: u32, bar: &Bar) -> Result<(), AllocError>
    ensures { OnOk result (string_bytes text.new
        ≡ string_bytes text.old ++ yielding sig bar.now.x bar.now.y bar.now.width) }
{
    put_rect(text, "yield", bar.x, bar.y, bar.width, 18)?;
    open_words(text, "sig", bar.x + 5, bar.y + 13)?;
    if bar.width >= 46 {
        text.push_str("sig ")?;
    }
    write!(text, "{sig}</text>")
}

/// Appends a Break, and the wait that it begins.
pub fn put_break(text: &mut String, name: &str, bar: &Bar, lasts: bool) -> Result<(), AllocError>
    ensures { OnOk result (string_bytes text.new
        ≡ string_bytes text.old ++ broken name.now bar.now.x bar.now.y bar.now.width lasts) }
{
    put_wait(text, name, bar, lasts)?;
    put_sign(text, "break", bar.x, bar.y + 1, "l8 8l-8 8l-8 -8z")
}

/// Appends the end of a hold.
pub fn put_freed(text: &mut String, bar: &Bar) -> Result<(), AllocError>
    ensures { OnOk result
        (string_bytes text.new ≡ string_bytes text.old ++ freed bar.now.x bar.now.y) }
{
    put_rect(text, "free", bar.x.saturating_sub(3), bar.y, 3, 18)
}

/// Appends a Miss, with the lock's name where it fits.
pub fn put_missed(text: &mut String, name: &str, bar: &Bar) -> Result<(), AllocError>
    ensures { OnOk result (string_bytes text.new
        ≡ string_bytes text.old ++ missed name.now bar.now.x bar.now.y bar.now.width) }
{
    put_sign(text, "miss", bar.x, bar.y + 4, "l10 10m0 -10l-10 10")?;
    if name.len() as u64 > bar.width.saturating_sub(18) / 7 {
        return Ok(());
    }
    put_words(text, "miss", bar.x + 14, bar.y + 13, name)
}

/// Appends why a thread ended.
fn put_why(text: &mut String, why: Why) -> Result<(), AllocError>
    ensures { OnOk result (string_bytes text.new ≡ string_bytes text.old ++ why_words why) }
{
    match why {
        Why::Done => text.push_str("done"),
        Why::Trapped { trap } => write!(text, "trap {trap}"),
        Why::Spent => text.push_str("spent"),
    }
}

/// Appends the end of a thread.
pub fn put_ended(text: &mut String, why: Why, bar: &Bar) -> Result<(), AllocError>
    ensures { OnOk result
        (string_bytes text.new ≡ string_bytes text.old ++ ended why bar.now.x bar.now.y) }
{
    put_rect(text, "end", bar.x, bar.y + 4, 10, 10)?;
    open_words(text, "out", bar.x + 14, bar.y + 13)?;
    put_why(text, why)?;
    text.push_str("</text>")
}
