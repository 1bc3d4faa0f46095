//! The functions of the workers, by their names.

use crate::refusal::Refusal;
use dim_base::{OutOfMemory, Word};
use dim_history_file::{History, rename};
use dim_stack::{Names, merged_law};
use std::alloc::Global;

/// The function in which the first worker takes its locks.
pub const GIVE: &str = "give";

/// The function in which the second worker takes its locks.
pub const TAKE: &str = "take";

/// So many names has a history at most that the workers load.
const MOST_NAMES: u32 = 4_194_304;

/// The names of the workers' functions.
fn own_names(alloc: Global) -> Result<Names, OutOfMemory> {
    let words = [Word::of(alloc, GIVE)?, Word::of(alloc, TAKE)?];
    Names::of(alloc, &words)
}

/// The same history, in whose table the workers' functions stand too. It is refused where it has
/// too many names.
pub fn named(alloc: Global, history: History) -> Result<History, Refusal> {
    merged_law();
    let own = own_names(alloc)?;
    if own.len() > 2 || history.names.len() > MOST_NAMES {
        return Err(Refusal::Full);
    }
    let names = Names::merge(alloc, &own, &history.names)?;
    Ok(rename(alloc, history, &names)?)
}
