//! The stack that a line spells.
ghost use Rattle.std.specs.Prelude.{◌≡◌, ◌<◌, ◌≤◌, Err, Some, nat_lt, length, map, IfOk, IfSome, OnOk};
ghost use Rattle.std.specs.List.{list_all};
ghost use Rattle.dim_text.specs.Reading.{Gives};
ghost use Rattle.dim_text.specs.Cuts.{words_of};
ghost use Rattle.dim_text.specs.Naming.{IsName};
ghost use Rattle.dim_text.specs.Words.{has_sides};
ghost use Rattle.dim_stack.specs.Names.{IsNamedBy, HasNames, name_number};
ghost use Rattle.dim_history_file.specs.Value.{named_frame, named_stack};
ghost use Rattle.dim_history_file.specs.Judging.{frame_of, frames_of, stack_of};
ghost use Rattle.dim_history_file.specs.Naming.{names_in_word, names_in_words, names_in_line};

use crate::FileKind;
use crate::recent::Recent;
use arrayvec::ArrayVec;
use dim_stack::{Frame, MOST_FRAMES, Names, Stack};
use dim_text::{Parts, frame_sides, number};

const LAST_OFFSET: u32 = 65535;

// Whether each word has exactly one colon.
fn are_frames(mut words: Parts) -> bool
    ensures { result ≡ list_all has_sides words.entry }
{
    while let Some(word) = words.next_part() {
        if frame_sides(word).is_none() {
            return false;
        }
    }
    true
}

// Whether there are more words than a stack has frames.
fn are_many(mut words: Parts) -> bool
    ensures { result ≡ nat_lt 32 (length words.entry) }
{
    let mut count = 0;
    while words.next_part().is_some() {
        if count == MOST_FRAMES {
            return true;
        }
        count += 1;
    }
    false
}

// The frame that a word spells, where the table has the name.
#[tactic(auto, unfolding(crate::specs::Judging::frame_of))]
fn frame(names: &Names, recent: &mut Recent, word: &[u8]) -> Result<Frame, FileKind>
    requires { HasNames names.now (names_in_word word.now) }
    ensures value { Gives Some (named_frame names.now) result (frame_of word.now) }
    ensures named { IfOk result (λ f. f.func < length names.now) }
{
    let (name, offset) = frame_sides(word).ok_or(FileKind::Line)?;
    let func = found(names, recent, name).ok_or(FileKind::Name)?;
    let at = number(offset, LAST_OFFSET).ok_or(FileKind::Number)?;
    Ok(Frame { func, at })
}

// The number of a name.
fn found(names: &Names, recent: &mut Recent, name: &[u8]) -> Option<u32>
    ensures number { result ≡ name_number names.now name.now }
    ensures name { IfSome result (λ _. IsName name.now) }
{
    let _table = names.len();
    let number = recent.find(names, name)?;
    Some(number)
}

// Puts the frames that words spell, of which there may be 32, in the place of others.
fn put_frames(
    names: &Names,
    recent: &mut Recent,
    mut words: Parts,
    frames: &mut ArrayVec<Frame, MOST_FRAMES>,
) -> Result<(), FileKind>
    requires { HasNames names.now (names_in_words words) }
    ensures value { length words.entry ≤ 32
        → Gives Some (λ _. map (named_frame names.now) frames.new.items) result
        (frames_of words.entry) }
    ensures named { OnOk result (IsNamedBy names.now frames.new.items) }
    ensures len { OnOk result (length frames.new.items ≡ length words.entry) }
{
    frames.clear();
    while let Some(word) = words.next_part() {
        if frames.is_full() {
            return Err(FileKind::Limit);
        }
        frames.push(frame(names, recent, word)?);
    }
    Ok(())
}

// The kind of fault of a line that spells no stack. It is this one where the fault is that of a
// frame.
#[tactic(auto, unfolding(crate::specs::Judging::stack_of))]
fn fault_of_line(line: &[u8], kind: FileKind) -> FileKind
    requires { length (words_of line.now) ≤ 32 → frames_of (words_of line.now) ≡ Err kind }
    ensures { stack_of (words_of line.now) ≡ Err result }
{
    if !are_frames(Parts::words(line)) {
        FileKind::Line
    } else if are_many(Parts::words(line)) {
        FileKind::Limit
    } else {
        kind
    }
}

/// The stack that a line spells, where the table has its names.
#[tactic(auto, unfolding(crate::specs::Judging::stack_of))]
pub fn stack(names: &Names, recent: &mut Recent, line: &[u8]) -> Result<Stack, FileKind>
    requires { HasNames names.now (names_in_line line.now) }
    ensures value { Gives Some (named_stack names.now) result (stack_of (words_of line.now)) }
    ensures named { IfOk result (IsNamedBy names.now) }
{
    let mut frames = ArrayVec::new();
    match put_frames(names, recent, Parts::words(line), &mut frames) {
        Ok(()) => Ok(Stack::new(frames.as_slice())),
        Err(kind) => Err(fault_of_line(line, kind)),
    }
}
