//! A history with candidates.
ghost use Rattle.std.specs.Prelude.{◌≡◌, ◌+◌, ◌∷◌, ◌++◌, [], ◌<◌, All, IfOk, length};
ghost use Rattle.dim_stack.specs.Names.{IsNamedBy};
ghost use Rattle.dim_history_file.specs.Spelling.{lines_before_end, sig_lines, text_of, EndLine};
ghost use Rattle.dim_history_file.specs.declared.version.Version.TheVariants.{Two};
ghost use Rattle.dim_history_file.specs.Value.{AreNamed, named, named_sig};
ghost use Rattle.dim_predict.specs.Adopted.{AreDifferent, adopted};

use dim_base::OutOfMemory;
use dim_history_file::{History, put_signature, write};
use dim_signature::Signature;
use dim_stack::Names;
use std::alloc::Global;

/// How many signatures a history has at most that a command can load, and how many bytes its text.
pub const MOST_SIGNATURES: u32 = 4080;

const MOST_BYTES: usize = 6_291_456;

/// How many bytes the end line of a text takes that has so many signatures.
fn end_bytes(alloc: Global, count: u32) -> Result<usize, OutOfMemory>
    ensures { IfOk result (λ n. n ≡ length (text_of (EndLine count ∷ []))) }
{
    let text = format!(in alloc; "end {count}\n")?;
    Ok(text.len())
}

/// How many bytes the lines of a signature take, each of whose functions stands in the table.
fn signature_bytes(alloc: Global, names: &Names, sig: &Signature) -> Result<usize, OutOfMemory>
    requires { All (IsNamedBy names.now) sig.now.stacks }
    ensures { IfOk result
        (λ n. n ≡ length (text_of (sig_lines Two (named_sig names.now sig.now)))) }
{
    let mut text = String::new(alloc);
    put_signature(&mut text, names, sig)?;
    Ok(text.len())
}

/// How many bytes the text of a history takes before its end line.
fn bytes_before_end(alloc: Global, history: &History) -> Result<usize, OutOfMemory>
    ensures { IfOk result (λ n. n ≡ length (text_of (lines_before_end Two
        (named history.now.names history.now.catalogue.sigs)))) }
{
    let text = write(alloc, history)?;
    let end = end_bytes(alloc, history.catalogue.len())?;
    Ok(text.as_slice().len() - end)
}

/// The history with signatures added, in order, while it has fewer than 4,080 and its text, in
/// version 2, stays at most 6,291,456 bytes; and how many were added. The first that doesn't fit
/// ends it. Its names stay.
///
/// No two of the history's signatures and these may have the same stacks, and each function of
/// these stands in the history's table. Its time goes with the length of the text.
pub fn adopt(
    alloc: Global,
    history: History,
    found: &[Signature],
) -> Result<(History, u32), OutOfMemory>
    requires different { AreDifferent (history.catalogue.sigs ++ found.now) }
    requires named { AreNamed history.names found.now }
    ensures names { IfOk result (λ r. r.0.names ≡ history.names) }
    ensures adopted { IfOk result (λ r. r.0.catalogue.sigs
        ≡ adopted history.names history.catalogue.sigs found.now) }
    ensures number { IfOk result (λ r. length history.catalogue.sigs + r.1
        ≡ length r.0.catalogue.sigs) }
{
    let mut bytes = bytes_before_end(alloc, &history)?;
    let History {
        names,
        mut catalogue,
        ..
    } = history;
    let mut added = 0;
    for sig in found {
        let count = catalogue.len();
        let more = bytes.saturating_add(signature_bytes(alloc, &names, sig)?);
        let all = more.saturating_add(end_bytes(alloc, count + 1)?);
        if count >= MOST_SIGNATURES || all > MOST_BYTES {
            break;
        }
        catalogue.add_new(alloc, sig)?;
        bytes = more;
        added += 1;
    }
    Ok((History { names, catalogue }, added))
}
