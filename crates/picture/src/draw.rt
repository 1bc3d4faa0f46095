//! Draws what the words say.
ghost use Rattle.std.specs.Prelude.{◌≡◌, ◌≤◌, length, Some, IfOk, OnOk};
ghost use Rattle.dim_base.specs.Files.{with_file};
ghost use Rattle.dim_trace.specs.Grammar.{IsTrace};
ghost use Rattle.dim_words.specs.Commands.{check_words};
ghost use Rattle.dim_inquiry.specs.Course.{WhereTold};
ghost use Rattle.dim_inquiry.specs.Judging.{given_of, IsExecuted};
ghost use Rattle.picture.specs.Drawn.{IsDrawn, behind_of, first_of, is_long, picture_of, range_of, within};

use crate::stop::Stop;
use crate::words::Command;
use dim_base::{Bytes, Files, OutOfMemory, Store, Word};
use dim_inquiry::inputs::Inputs;
use dim_inquiry::judging::{Given, judged};
use dim_picture::{drawn, picture_text};
use std::alloc::Global;

/// So many entries are drawn where no range is given.
const MOST_ENTRIES: u32 = 1000;

/// Whether so many entries are too many to be drawn without a range.
fn is_long(from: Option<u32>, to: Option<u32>, count: u32) -> bool
    ensures { result ≡ is_long from to count }
{
    from.is_none() && to.is_none() && count > MOST_ENTRIES
}

/// The first place of a range.
fn first_of(from: Option<u32>) -> u32
    ensures { result ≡ first_of from }
{
    match from {
        Some(place) => place,
        None => 0,
    }
}

/// The place behind the last one of a range of so many.
fn behind_of(to: Option<u32>, count: u32) -> u64
    ensures { result ≡ behind_of to count }
{
    match to {
        Some(place) => u64::from(place) + 1,
        None => u64::from(count),
    }
}

/// The range from a place on and before another, where it has places and all are among so many.
fn within(first: u32, behind: u64, count: u32) -> Option<(u32, u32)>
    ensures { result ≡ within first behind count }
{
    if u64::from(first) < behind && behind <= u64::from(count) {
        Some((first, behind as u32))
    } else {
        None
    }
}

/// The range that is drawn of so many entries: its first place, and the one behind its last.
fn range_of(from: Option<u32>, to: Option<u32>, count: u32) -> Result<(u32, u32), Stop>
    ensures { IfOk result (λ range. range_of from to count ≡ Some range) }
{
    if is_long(from, to, count) {
        return Err(Stop::LongTrace(count));
    }
    match within(first_of(from), behind_of(to, count), count) {
        Some(range) => Ok(range),
        None => Err(Stop::NoRange(count)),
    }
}

/// The picture of a trace, which executes its program on its history, in a range.
fn picture_of(alloc: Global, given: &Given, from: u32, to: u32) -> Result<Bytes, OutOfMemory>
    requires few { length given.now.both.history.catalogue.sigs ≤ 4080 }
    requires executed { IsExecuted (given_of given.now) }
    requires trace { IsTrace given.now.both.program given.now.both.history.names given.now.trace }
    ensures { IfOk result (λ text. text ≡ picture_of (given_of given.now) from to) }
{
    let Inputs { program, history } = &given.both;
    let drawing = drawn(alloc, program, history, &given.trace)?;
    let names = &history.names;
    picture_text(alloc, program, names, &given.trace, &drawing, from, to)
}

/// Stores a picture.
fn store<F: Files>(alloc: Global, files: &mut F, name: &Word, text: &Bytes) -> Result<(), Stop>
    ensures { OnOk result (WhereTold (F.told files.old)
        (λ before. F.told files.new ≡ Some (with_file before name.now (Some text.now)))) }
{
    match files.store(alloc, name, text.as_slice()) {
        Ok(()) => Ok(()),
        Err(Store::Failed) => Err(Stop::Store),
        Err(Store::OutOfMemory) => Err(Stop::from(OutOfMemory)),
    }
}

/// Fetches and reads a program, a history and a trace as `check` does, stores the picture of the
/// trace in the range that the words say, and gives the number of its entries. What `check` refuses
/// is refused so; a trace of more than 1,000 entries without a range, and a range that isn't in the
/// trace, have refusals of their own.
pub fn draw<F: Files>(alloc: Global, command: &Command<'_>, files: &mut F) -> Result<u32, Stop>
    ensures { IfOk result (λ count. WhereTold (F.told files.old)
        (IsDrawn (check_words command.now.judged) command.now.picture.now command.now.from
        command.now.to count (F.told files.new))) }
{
    let given = judged(alloc, &command.judged, files)?;
    let count = given.trace.len();
    let (from, to) = range_of(command.from, command.to, count)?;
    let text = picture_of(alloc, &given, from, to)?;
    store(alloc, files, command.picture, &text)?;
    Ok(count)
}
