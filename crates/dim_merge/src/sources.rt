//! The two histories that the words name: fetched, and read.
ghost use Rattle.std.specs.Prelude.{◌≡◌, IfErr, IfOk};
ghost use Rattle.dim_text.specs.Reading.{Gives};
ghost use Rattle.dim_history_file.specs.Seen.{value_of};
ghost use Rattle.dim_merge.specs.Course.{histories, reads, text_at, texts};
ghost use Rattle.dim_merge.specs.Files.{StopCause, WhereTold, fetch_stop};
ghost use Rattle.dim_merge.specs.Sources.{IsRead, texts_of, values_of};
ghost use Rattle.dim_merge.specs.Stops.{IsNoFault, refusal_of};
ghost use Rattle.dim_merge.specs.Words.{words_of};

use crate::stop::{Place, Refusal, Stop};
use crate::words::{MergeWords, is_dash};
use dim_base::{Bytes, Fetch, Files, Word};
use dim_history_file::{History, ReadFault, read};
use std::alloc::Global;

/// The most bytes of a history that are fetched.
const LIMIT: u64 = 8_388_608;

/// The text of the history that knows no signature.
const EMPTY_HISTORY: &[u8] = b"dim history 2\nend 0\n";

/// The texts of two histories.
#[derive(Drop)]
pub struct Texts {
    pub first: Bytes,
    pub second: Bytes,
}

/// Two histories that were read.
#[derive(Drop)]
pub struct Histories {
    pub first: History,
    pub second: History,
}

fn stop_of_fetch(place: Place, e: Fetch) -> Stop
    ensures { result ≡ fetch_stop place e }
{
    match e {
        Fetch::Failed => Stop::Fault(place),
        Fetch::Long { .. } => Stop::Refused(Refusal::Long(place)),
        Fetch::Absent => Stop::Refused(Refusal::Absent(place)),
        Fetch::OutOfMemory => Stop::OutOfMemory,
    }
}

// Fetches the history that a word names. For `-` it is the text of the one that knows no signature.
fn fetch_at<F: Files>(
    alloc: Global,
    files: &mut F,
    place: Place,
    name: &Word,
) -> Result<Bytes, Stop>
    ensures text { WhereTold (F.told files.old) (λ before.
        Gives refusal_of (λ bytes. bytes) result (text_at before place name.now)) }
    ensures kept { F.told files.new ≡ F.told files.old }
    ensures cause { StopCause (F.faults files.old) (F.faults files.new) result }
{
    if is_dash(name) {
        return Ok(Bytes::of(alloc, EMPTY_HISTORY)?);
    }
    match files.fetch(alloc, name, LIMIT) {
        Ok(bytes) => Ok(bytes),
        Err(e) => Err(stop_of_fetch(place, e)),
    }
}

/// Fetches both histories, the first before the second.
#[tactic(auto, unfolding(crate::specs::Course::texts))]
pub fn fetch<F: Files>(alloc: Global, files: &mut F, words: &MergeWords<'_>) -> Result<Texts, Stop>
    ensures texts { WhereTold (F.told files.old) (λ before.
        Gives refusal_of texts_of result (texts before (words_of words.now))) }
    ensures kept { F.told files.new ≡ F.told files.old }
    ensures cause { StopCause (F.faults files.old) (F.faults files.new) result }
{
    let first = fetch_at(alloc, files, Place::First, words.first)?;
    let second = fetch_at(alloc, files, Place::Second, words.second)?;
    Ok(Texts { first, second })
}

fn read_at(alloc: Global, place: Place, bytes: &Bytes) -> Result<History, Stop>
    ensures value { Gives refusal_of value_of result (reads place bytes.now) }
    ensures read { IfOk result IsRead }
    ensures faultless { IfErr result IsNoFault }
{
    match read(alloc, bytes.as_slice()) {
        Ok(history) => Ok(history),
        Err(ReadFault::OutOfMemory) => Err(Stop::OutOfMemory),
        Err(ReadFault::Bad(fault)) => Err(Stop::Refused(Refusal::Bad(place, fault))),
    }
}

/// Reads both histories, the first before the second.
#[tactic(auto, unfolding(crate::specs::Course::histories))]
pub fn read_both(alloc: Global, texts: &Texts) -> Result<Histories, Stop>
    ensures values { Gives refusal_of values_of result (histories (texts_of texts.now)) }
    ensures first { IfOk result (λ both. IsRead both.first) }
    ensures second { IfOk result (λ both. IsRead both.second) }
    ensures faultless { IfErr result IsNoFault }
{
    let first = read_at(alloc, Place::First, &texts.first)?;
    let second = read_at(alloc, Place::Second, &texts.second)?;
    Ok(Histories { first, second })
}
