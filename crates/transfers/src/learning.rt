//! What a domain leaves, as a history for the next start.
ghost use Rattle.std.specs.Prelude.{◌≡◌, ◌<◌, All, true, length};
ghost use Rattle.dim_stack.specs.Names.{IsNamedBy};
ghost use Rattle.dim_history_file.specs.Value.{AreNamed};

use crate::refusal::Refusal;
use dim_history_file::History;
use dim_mutex::Closed;
use dim_rag::Tables;
use dim_signature::{Catalogue, Signature};
use dim_stack::{Frame, Names, Stack};

/// Whether the function of a frame has a name.
fn has_name(names: &Names, frame: Frame) -> bool
    ensures { result ≡ true → frame.func < length names.now }
{
    frame.func < names.len()
}

/// Whether each function of a stack has a name.
fn is_named(names: &Names, stack: &Stack) -> bool
    ensures { result ≡ true → IsNamedBy names.now stack.now }
{
    for i in 0..stack.len() {
        if !has_name(names, stack.frame(i)) {
            return false;
        }
    }
    true
}

/// Whether each function of a signature has a name.
fn is_spelled(names: &Names, sig: &Signature) -> bool
    ensures { result ≡ true → All (IsNamedBy names.now) sig.now.stacks }
{
    for i in 0..sig.len() {
        if !is_named(names, sig.stack(i)) {
            return false;
        }
    }
    true
}

/// Whether each function of each signature has a name.
fn are_spelled(names: &Names, catalogue: &Catalogue) -> bool
    ensures { result ≡ true → AreNamed names.now catalogue.now.sigs }
{
    for i in 0..catalogue.len() {
        if !is_spelled(names, catalogue.get(i)) {
            return false;
        }
    }
    true
}

/// Counts each Yield for the signature that it names.
fn count_yields(tables: &Tables, catalogue: &mut Catalogue) {
    for place in 0..tables.len() {
        if let Some(i) = tables.yielded(place) {
            if i < catalogue.len() {
                catalogue.count(i, 1);
            }
        }
    }
}

/// The history of what a domain knows when it is closed, with this table of names, and with its
/// Yields counted. It is refused where a function of a signature has no name there.
pub fn learnt(names: Names, closed: Closed) -> Result<History, Refusal> {
    let Closed {
        tables,
        mut catalogue,
    } = closed;
    count_yields(&tables, &mut catalogue);
    if !are_spelled(&names, &catalogue) {
        return Err(Refusal::Nameless);
    }
    Ok(History { names, catalogue })
}
