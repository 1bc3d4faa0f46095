//! The program, from its words to its status.
ghost use Rattle.std.specs.Prelude.{◌≡◌, ℕ, List, IfErr, Ok};
ghost use Rattle.dim_base.specs.Causes.{Rose};
ghost use Rattle.dim_text.specs.Reading.{Gives};
ghost use Rattle.dim_merge.specs.Course.{course, makes_of};
ghost use Rattle.dim_merge.specs.Ending.{Ends, Performs, sink_at};
ghost use Rattle.dim_merge.specs.Files.{StopCause, WhereTold};
ghost use Rattle.dim_merge.specs.Made.{made_of};
ghost use Rattle.dim_merge.specs.Sources.{texts_of};
ghost use Rattle.dim_merge.specs.Stops.{IsNoFault, refusal_of};

use crate::lines::{put_report, put_stop};
use crate::making::{Made, make};
use crate::sources::{Texts, fetch, read_both};
use crate::stop::{Place, Refusal, Stop};
use crate::words::merge_words;
use dim_base::{Bytes, Files, Sink, Store, Word};
use std::alloc::Global;

// What is made of two texts.
#[tactic(auto, unfolding(crate::specs::Course::makes_of))]
fn make_of(alloc: Global, texts: &Texts) -> Result<Made, Stop>
    ensures made { (name : List ℕ)
        → Gives refusal_of (made_of name) result (makes_of name (texts_of texts.now)) }
    ensures faultless { IfErr result IsNoFault }
{
    let both = read_both(alloc, texts)?;
    make(alloc, both)
}

// Stores what was made, and gives the report.
fn store<F: Files>(alloc: Global, files: &mut F, name: &Word, made: Made) -> Result<Bytes, Stop>
    ensures performs { WhereTold (F.told files.old) (λ before.
        Performs (Ok (made_of name.now made)) before result (F.told files.new)) }
    ensures cause { StopCause (F.faults files.old) (F.faults files.new) result }
{
    match files.store(alloc, name, made.text.as_slice()) {
        Ok(()) => Ok(made.report),
        Err(Store::Failed) => Err(Stop::Fault(Place::NewHistory)),
        Err(Store::OutOfMemory) => Err(Stop::OutOfMemory),
    }
}

// Does what the words say, up to the report.
fn perform<F: Files>(alloc: Global, words: &[Word], files: &mut F) -> Result<Bytes, Stop>
    ensures performs { WhereTold (F.told files.old) (λ before.
        Performs (course before words.now) before result (F.told files.new)) }
    ensures cause { StopCause (F.faults files.old) (F.faults files.new) result }
{
    let words = match merge_words(words) {
        Some(words) => words,
        None => return Err(Stop::Refused(Refusal::Words)),
    };
    let texts = fetch(alloc, files, &words)?;
    let made = make_of(alloc, &texts)?;
    store(alloc, files, words.new_history, made)
}

/// Makes one history of two, and answers the status: all that the program does.
///
/// `words` are those after the program's name: `FIRST SECOND NEWHISTORY`. docs/merging.md has the
/// statuses and the lines. Status 0 comes only where the file NEWHISTORY then is the text of the
/// merged history and all other files are as they were, 8 where only the report couldn't be put, 7
/// only where a file call failed, and 9 where memory ran out; with any status but 0, 8 and 7 all
/// files are as they were.
///
/// The clause `ends` speaks where the files and the sink tell what they hold. The true ones tell
/// nothing.
pub fn merge_files<F: Files, S: Sink>(
    alloc: Global,
    words: &[Word],
    files: &mut F,
    out: &mut S,
) -> u8
    ensures ends { WhereTold (F.told files.old) (λ before.
        Ends (course before words.now) before result (F.told files.new)
        (sink_at S.Sink out.old) (sink_at S.Sink out.new)) }
    ensures fault { result ≡ 7 → Rose (F.faults files.old) (F.faults files.new) }
{
    match perform(alloc, words, files) {
        Ok(report) => put_report(alloc, out, report.as_slice()),
        Err(stop) => put_stop(alloc, out, stop),
    }
}
