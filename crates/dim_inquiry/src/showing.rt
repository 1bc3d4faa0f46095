//! The report of `show`.
ghost use Rattle.std.specs.Prelude.{◌≡◌, ◌++◌, All, IfOk, OnOk};
ghost use Rattle.std.specs.String.{string_bytes};
ghost use Rattle.dim_stack.specs.Names.{IsNamedBy};
ghost use Rattle.dim_history_file.specs.Seen.{value_of};
ghost use Rattle.dim_history_file.specs.Value.{named_sig};
ghost use Rattle.dim_inquiry.specs.Show.{shown_line, shown_sig, shown_text, shown};

use crate::report::{Ending, Report};
use dim_base::{Bytes, OutOfMemory};
use dim_history_file::{History, put_stack};
use dim_signature::Signature;
use dim_stack::Names;
use dim_text::state_word;
use std::alloc::{AllocError, Global};
use std::fmt::Write;

// Appends the first line of the signature of this number.
#[tactic(auto, unfolding(crate::specs::Show::shown_line))]
fn put_line(text: &mut String, i: u32, sig: &Signature) -> Result<(), AllocError>
    ensures { OnOk result (string_bytes text.new
        ≡ string_bytes text.old ++ shown_line i sig.now.depth sig.now.on sig.now.yields) }
{
    let depth = sig.depth();
    let state = state_word(sig.on());
    let yields = sig.yields();
    writeln!(text, "signature {i} depth {depth} {state} yields {yields}")
}

// Appends the lines of the signature of this number.
fn put_signature(
    text: &mut String,
    i: u32,
    names: &Names,
    sig: &Signature,
) -> Result<(), AllocError>
    requires { All (IsNamedBy names.now) sig.now.stacks }
    ensures { OnOk result
        (string_bytes text.new
        ≡ string_bytes text.old ++ shown_sig i (named_sig names.now sig.now)) }
{
    put_line(text, i, sig)?;
    for stack in sig.as_slice() {
        put_stack(text, names, stack)?;
    }
    Ok(())
}

fn shown_text(alloc: Global, h: &History) -> Result<String, AllocError>
    ensures { IfOk result (λ text. string_bytes text ≡ shown_text (value_of h.now)) }
{
    h.law();
    let mut text = String::new(alloc);
    let count = h.catalogue.len();
    for i in 0..count {
        put_signature(&mut text, i, &h.names, h.catalogue.get(i))?;
    }
    writeln!(text, "signatures {count}")?;
    Ok(text)
}

/// The report of `show`: the signatures of a history.
pub fn shown(alloc: Global, h: &History) -> Result<Report, OutOfMemory>
    ensures { IfOk result (λ r. r ≡ shown (value_of h.now)) }
{
    let text = shown_text(alloc, h)?;
    Ok(Report {
        ending: Ending::Done,
        text: Bytes::from_vec(text.into_bytes()),
    })
}
