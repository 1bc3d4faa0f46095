//! From a history to its text.
ghost use Rattle.std.specs.Prelude.{◌≡◌, ◌++◌, All, IfOk, OnOk, Ok};
ghost use Rattle.std.specs.String.{string_bytes};
ghost use Rattle.dim_text.specs.Cuts.{ended};
ghost use Rattle.dim_stack.specs.Names.{IsNamedBy};
ghost use Rattle.dim_history_file.specs.Value.{named_stack, named_sig};
ghost use Rattle.dim_history_file.specs.Judging.{history_of};
ghost use Rattle.dim_history_file.specs.Spelling.{StackLine, spelled, sig_lines, text_of, history_text, gap};
ghost use Rattle.dim_history_file.specs.declared.version.Version.TheVariants.{Two};
ghost use Rattle.dim_history_file.specs.Grammar.{AreNear, AreSized, IsHistory, IsSized};
ghost use Rattle.dim_history_file.specs.Seen.{value_of};

use crate::History;
use dim_base::{Bytes, OutOfMemory};
use dim_signature::Signature;
use dim_stack::{Names, Stack};
use dim_text::state_word;
use std::alloc::{AllocError, Global};
use std::fmt::Write;

// What stands before the frame at a place.
fn gap(i: u32) -> &'static str
    ensures { result.now ≡ gap i }
{
    if i == 0 { "" } else { " " }
}

/// Appends the line of a stack, each of whose functions has to stand in the table.
pub fn put_stack(text: &mut String, names: &Names, stack: &Stack) -> Result<(), AllocError>
    requires { IsNamedBy names.now stack.now }
    ensures sized { IsSized stack.now }
    ensures line { OnOk result
        (string_bytes text.new
        ≡ string_bytes text.old ++ ended (spelled (StackLine (named_stack names.now stack.now)))) }
{
    for i in 0..stack.len() {
        let gap = gap(i);
        let frame = stack.frame(i);
        let name = names.name(frame.func).as_str();
        let at = frame.at;
        write!(text, "{gap}{name}:{at}")?;
    }
    text.push('\n')
}

/// Appends the lines of a signature, in version 2. Each of its functions has to stand in the table.
pub fn put_signature(text: &mut String, names: &Names, sig: &Signature) -> Result<(), AllocError>
    requires { All (IsNamedBy names.now) sig.now.stacks }
    ensures sized { OnOk result (All IsSized sig.now.stacks) }
    ensures lines { OnOk result
        (string_bytes text.new
        ≡ string_bytes text.old ++ text_of (sig_lines Two (named_sig names.now sig.now))) }
{
    let depth = sig.depth();
    let count = sig.len();
    let state = state_word(sig.on());
    let yields = sig.yields();
    writeln!(text, "signature {depth} {count} {state} {yields}")?;
    for stack in sig.as_slice() {
        put_stack(text, names, stack)?;
    }
    Ok(())
}

// The lines of the head, of the signatures and of the end.
fn text_of_history(alloc: Global, h: &History) -> Result<String, AllocError>
    ensures text { IfOk result (λ text. string_bytes text ≡ history_text (value_of h.now)) }
    ensures sized { IfOk result (λ _. AreSized h.now.catalogue.sigs) }
{
    let mut text = String::from_str(alloc, "dim history 2\n")?;
    let count = h.catalogue.len();
    for i in 0..count {
        put_signature(&mut text, &h.names, h.catalogue.get(i))?;
    }
    writeln!(text, "end {count}")?;
    Ok(text)
}

/// The text of a history, in version 2. Where no offset is above 65,535, it is read again as the
/// same history.
pub fn write(alloc: Global, h: &History) -> Result<Bytes, OutOfMemory>
    ensures text { IfOk result (λ text. text ≡ history_text (value_of h.now)) }
    ensures history { IfOk result (λ _. AreNear h.now.catalogue.sigs → IsHistory (value_of h.now)) }
    ensures again { IfOk result (λ text. AreNear h.now.catalogue.sigs
        → history_of text ≡ Ok (value_of h.now)) }
{
    let text = text_of_history(alloc, h)?;
    h.law();
    Ok(Bytes::from_vec(text.into_bytes()))
}
