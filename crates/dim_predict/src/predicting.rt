//! The candidates of a trace.
ghost use Rattle.std.specs.Prelude.{◌≡◌, ◌≤◌, ◌<◌, ◌^◌, ◌++◌, All, IfOk, length, map};
ghost use Rattle.dim_signature.specs.Sig.{fresh};
ghost use Rattle.dim_predict.specs.declared.key.Key.{Key};
ghost use Rattle.dim_predict.specs.Pairs.{AreWithin, stacks_of_places};
ghost use Rattle.dim_predict.specs.Candidates.{AreTooMany, candidates_of};
ghost use Rattle.dim_predict.specs.Adopted.{AreDifferent};
ghost use Rattle.dim_predict.specs.Legal.{IsLegalOn};

use crate::key::Key;
use crate::places::Places;
use crate::search::{Search, searched};
use dim_base::OutOfMemory;
use dim_gate::laws::legal_law;
use dim_history_file::History;
use dim_rag::{Entry, EntryRef};
use dim_signature::{SigFault, Signature};
use dim_trace::KeptTrace;
use std::alloc::{AllocError, AllocFailed, Global};

/// How many threads and how many locks there may be.
const MOST_THREADS: u32 = 32;

const MOST_LOCKS: u32 = 256;

/// Why there is no list of candidates.
#[derive(Clone, Copy, Debug, PartialEq, Eq)]
pub enum Predict {
    /// The nestings say more than 4,096 different things.
    TooMany,
    OutOfMemory,
}

impl From<AllocError> for Predict {
    ghost use Rattle.std.specs.Prelude.{◌≡◌};
    ghost use Rattle.dim_predict.specs.declared.predicting.Predict.TheVariants as predict;

    ghost from_gives = { λ _ e. e ≡ predict.OutOfMemory };

    fn from(_e: AllocError) -> Predict {
        Predict::OutOfMemory
    }
}

impl<T: Drop> From<AllocFailed<T>> for Predict {
    ghost use Rattle.std.specs.Prelude.{◌≡◌};
    ghost use Rattle.dim_predict.specs.declared.predicting.Predict.TheVariants as predict;

    ghost from_gives = { λ _ e. e ≡ predict.OutOfMemory };

    fn from(_e: AllocFailed<T>) -> Predict {
        Predict::OutOfMemory
    }
}

impl From<OutOfMemory> for Predict {
    ghost use Rattle.std.specs.Prelude.{◌≡◌};
    ghost use Rattle.dim_predict.specs.declared.predicting.Predict.TheVariants as predict;

    ghost from_gives = { λ _ e. e ≡ predict.OutOfMemory };

    fn from(_e: OutOfMemory) -> Predict {
        Predict::OutOfMemory
    }
}

/// The signature of a pair, with a depth from 1 to 32.
fn signature_of(
    alloc: Global,
    keys: &[Key],
    pair: &Places,
    depth: u8,
) -> Result<Signature, OutOfMemory>
    requires low { 1 ≤ depth }
    requires high { depth ≤ 32 }
    requires within { AreWithin (length keys.now) pair.now }
    ensures { IfOk result (λ s. (d : Key)
        → s ≡ fresh depth (stacks_of_places keys.now d pair.now)) }
{
    let stacks = [
        keys[pair.earlier as usize].stack,
        keys[pair.later as usize].stack,
    ];
    match Signature::new(alloc, depth, &stacks) {
        Ok(sig) => Ok(sig),
        Err(SigFault::OutOfMemory) => Err(OutOfMemory),
        Err(_) => unreachable!(),
    }
}

/// The signatures of some pairs, with a depth from 1 to 32.
pub(crate) fn signatures_of(
    alloc: Global,
    keys: &[Key],
    pairs: &[Places],
    depth: u8,
) -> Result<Vec<Signature>, OutOfMemory>
    requires low { 1 ≤ depth }
    requires high { depth ≤ 32 }
    requires within { All (AreWithin (length keys.now)) pairs.now }
    ensures { IfOk result (λ found. (d : Key)
        → found.items ≡ map (fresh depth) (map (stacks_of_places keys.now d) pairs.now)) }
{
    let mut signatures = Vec::with_capacity(alloc, pairs.len())?;
    for pair in pairs {
        signatures.push(signature_of(alloc, keys, pair, depth)?)?;
    }
    Ok(signatures)
}

/// The signatures of the deadlocks that the nestings of a trace could make.
///
/// A nesting is a Go or a Break by which a thread is allowed on a lock while it holds another. Two
/// are opposed where their threads differ, each one's held lock is the other's wanted one, and no
/// further lock was held at both. A candidate has the stacks of the hold edges of two opposed
/// nestings and this depth, from 1 to 32. The candidates come by the place of the earlier nesting,
/// the birth of its hold edge, the place of the later one and the birth of its hold edge, without
/// those whose stacks a signature of the history has or an earlier candidate. docs/rules.md has the
/// rule.
///
/// `TooMany` comes exactly where the nestings say more than 4,096 different things (thread, locks,
/// stack and guards), unless memory runs out. The entries are legal on the history for at most 32
/// threads and 256 locks, some depth and some cap. Its time goes with the number of entries, that
/// of nestings, and that of opposed pairs of different nestings.
pub fn candidates_kept(
    alloc: Global,
    history: &History,
    trace: &KeptTrace,
    depth: u8,
) -> Result<Vec<Signature>, Predict>
    requires low { 1 ≤ depth }
    requires high { depth ≤ 32 }
    requires legal { IsLegalOn history.now.catalogue.sigs trace.now.entries }
    ensures found { IfOk result
        (λ found. found.items ≡ candidates_of history.now.catalogue.sigs depth trace.now.entries) }
    ensures different { IfOk result
        (λ found. AreDifferent (history.now.catalogue.sigs ++ found.items)) }
    ensures few { IfOk result (λ _. AreTooMany trace.now.entries → ⊥) }
    ensures many { result ≡ Err Predict.TooMany → AreTooMany trace.now.entries }
{
    legal_law();
    let _known = history.catalogue.len(); // for the contract: no two have the same stacks
    let known = &history.catalogue;
    let search = searched(alloc, known, trace, MOST_THREADS, MOST_LOCKS)?;
    let Search { keys, pairs } = search;
    Ok(signatures_of(alloc, &keys, &pairs, depth)?)
}

/// What `candidates_kept` says of a trace whose entries are in a list, oldest first, of which it
/// makes a brief copy. There are fewer than 2^32.
pub fn candidates(
    alloc: Global,
    history: &History,
    entries: &[Entry],
    depth: u8,
) -> Result<Vec<Signature>, Predict>
    requires low { 1 ≤ depth }
    requires high { depth ≤ 32 }
    requires short { length entries.now < 2 ^ 32 }
    requires legal { IsLegalOn history.now.catalogue.sigs entries.now }
    ensures found { IfOk result
        (λ found. found.items ≡ candidates_of history.now.catalogue.sigs depth entries.now) }
    ensures different { IfOk result
        (λ found. AreDifferent (history.now.catalogue.sigs ++ found.items)) }
    ensures few { IfOk result (λ _. AreTooMany entries.now → ⊥) }
    ensures many { result ≡ Err Predict.TooMany → AreTooMany entries.now }
{
    candidates_kept(alloc, history, &kept_of(alloc, entries)?, depth)
}

/// A trace with these entries.
fn kept_of(alloc: Global, entries: &[Entry]) -> Result<KeptTrace, OutOfMemory>
    requires { length entries.now < 2 ^ 32 }
    ensures { IfOk result (λ kept. kept.entries ≡ entries.now) }
{
    let mut kept = KeptTrace::new(alloc);
    for entry in entries {
        kept.add(&EntryRef::of(entry))?;
    }
    Ok(kept)
}
