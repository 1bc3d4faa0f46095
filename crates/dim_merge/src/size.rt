//! How large a history would be.
ghost use Rattle.std.specs.Prelude.{◌≡◌, ◌∷◌, [], ◌≤◌, IfOk, OnOk, length};
ghost use Rattle.dim_text.specs.Reading.{Gives};
ghost use Rattle.dim_history_file.specs.Spelling.{EndLine, history_text, lines_before_end, text_of};
ghost use Rattle.dim_history_file.specs.declared.version.Version.TheVariants.{Two};
ghost use Rattle.dim_history_file.specs.Seen.{value_of};
ghost use Rattle.dim_merge.specs.Merging.{loadable, told_size};
ghost use Rattle.dim_merge.specs.Parts.{sigs_of};

use crate::MergeFault;
use crate::parted::Parts;
use dim_base::OutOfMemory;
use dim_history_file::{History, write};
use dim_signature::MOST_SIGNATURES;
use std::alloc::Global;

/// How many bytes a history has at most that a run loads.
const MOST_BYTES: u64 = 6_291_456;

/// How many bytes the first line of each text takes.
const HEAD_BYTES: u64 = 14;

// How many bytes the end line of a text takes that has so many signatures.
fn end_bytes(alloc: Global, count: u32) -> Result<u64, OutOfMemory>
    ensures bytes { IfOk result (λ n. n ≡ length (text_of (EndLine count ∷ []))) }
    ensures few { IfOk result (λ n. n ≤ 15) }
{
    let text = format!(in alloc; "end {count}\n")?;
    Ok(text.len() as u64)
}

// How many bytes the text of a history takes before its end line.
fn bytes_before_end(alloc: Global, history: &History) -> Result<u64, OutOfMemory>
    ensures bytes { IfOk result
        (λ n. n ≡ length (text_of (lines_before_end Two (value_of history.now)))) }
    ensures few { IfOk result (λ n. n ≤ 9223372036854775807) }
    ensures head { IfOk result (λ n. 14 ≤ n) }
{
    let text = write(alloc, history)?;
    let end = end_bytes(alloc, history.catalogue.len())?;
    Ok(text.as_slice().len() as u64 - end)
}

// How many bytes the text of both parts would take, one behind the other.
fn bytes_of(alloc: Global, parts: &Parts, signatures: u32) -> Result<u64, OutOfMemory>
    requires { signatures ≡ length (sigs_of parts.now) }
    ensures { IfOk result (λ n. n ≡ length (history_text (sigs_of parts.now))) }
{
    let known = bytes_before_end(alloc, &parts.known)?;
    let added = bytes_before_end(alloc, &parts.added)? - HEAD_BYTES;
    let end = end_bytes(alloc, signatures)?;
    Ok(known + added + end)
}

/// Refuses two parts that together are more than a history that a run loads.
pub fn check_size(alloc: Global, parts: &Parts) -> Result<(), MergeFault>
    ensures exact { Gives told_size (λ _. sigs_of parts.now) result (loadable (sigs_of parts.now)) }
    ensures few { OnOk result (length (sigs_of parts.now) ≤ 4096) }
{
    let signatures = parts.known.catalogue.len() + parts.added.catalogue.len();
    let bytes = bytes_of(alloc, parts, signatures)?;
    if signatures > MOST_SIGNATURES || bytes > MOST_BYTES {
        return Err(MergeFault::Full { signatures, bytes });
    }
    Ok(())
}
