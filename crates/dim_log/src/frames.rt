//! The stack that a text spells.
ghost use Rattle.std.specs.Prelude.{◌≡◌, ◌<◌, ◌≤◌, ◌+◌, ◌^◌, ◌∷◌, Some, Ok, IfOk, OnOk, length, map};
ghost use Rattle.std.specs.Option.{option_map};
ghost use Rattle.std.specs.Str.{bytes_eq};
ghost use Rattle.dim_text.specs.Cuts.{words_of};
ghost use Rattle.dim_text.specs.Reading.{Gives};
ghost use Rattle.dim_text.specs.Stops.{kind_of};
ghost use Rattle.dim_log.specs.Tables.{with_new, with_all, functions_of};
ghost use Rattle.dim_log.specs.Saying.{a_frame, last_sides, frame_of, frames_of};
ghost use Rattle.dim_log.specs.Seen.{said_frame, said_stack, AreSpotsWithin};

use crate::table::Table;
use crate::{LogFaultKind, Spot};
use dim_text::{Parts, Stop, number, unless};
use memchr::memrchr;
use std::alloc::Global;

// The part of a word before its last colon, and the one behind it.
#[tactic(auto, using(crate::proofs::Colons::sides_some, crate::proofs::Colons::sides_none))]
fn last_sides(word: &[u8]) -> Option<(&[u8], &[u8])>
    ensures { option_map (λ sides. (sides.0.now, sides.1.now)) result ≡ last_sides word.now }
{
    match memrchr(b':', word) {
        Some(at) => Some((&word[..at], &word[at + 1..])),
        None => None,
    }
}

// The function and the line of a frame.
#[tactic(auto, unfolding(crate::specs::Saying::frame_of))]
fn frame(word: &[u8]) -> Result<(&[u8], u32), LogFaultKind>
    ensures { Gives Some (λ f. a_frame f.0.now f.1) result (frame_of word.now) }
{
    unless(word.is_empty(), LogFaultKind::Short)?;
    let (function, line) = last_sides(word).ok_or(LogFaultKind::Frame)?;
    unless(function.is_empty(), LogFaultKind::Frame)?;
    let line = number(line, u32::MAX).ok_or(LogFaultKind::Frame)?;
    Ok((function, line))
}

// The spot that a word spells.
fn spot<'a>(functions: &mut Table<'a>, word: &'a [u8]) -> Result<Spot, Stop<LogFaultKind>>
    requires room { length functions.old < 2 ^ 31 }
    ensures value { Gives kind_of (said_frame functions.new) result (frame_of word.now) }
    ensures functions { IfOk result (λ s. functions.new
        ≡ with_new bytes_eq functions.old (said_frame functions.new s).function) }
    ensures within { IfOk result (λ s. s.function < length functions.new) }
{
    let (function, line) = frame(word)?;
    let function = functions.number(function)?;
    Ok(Spot { function, line })
}

/// The stack that a text spells. Its functions are added to the table.
#[tactic(auto, using(crate::proofs::Framing::bind_same))]
pub fn spots<'a>(
    alloc: Global,
    functions: &mut Table<'a>,
    text: &'a [u8],
) -> Result<Vec<Spot>, Stop<LogFaultKind>>
    requires room { length functions.old + length (words_of text.now) ≤ 2 ^ 31 }
    ensures value { Gives kind_of (λ spots. said_stack functions.new spots.items) result
        (frames_of (words_of text.now)) }
    ensures functions { IfOk result (λ spots. functions.new
        ≡ with_all bytes_eq functions.old (functions_of (said_stack functions.new spots.items))) }
    ensures within { IfOk result (λ spots. AreSpotsWithin functions.new spots.items) }
{
    let mut spots = Vec::new(alloc);
    let mut words = Parts::words(text);
    while let Some(word) = words.next_part() {
        spots.push(spot(functions, word)?)?;
    }
    Ok(spots)
}
