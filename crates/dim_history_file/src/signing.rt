//! Signatures of stacks that stand in order, and a catalogue that takes them.
ghost use Rattle.std.specs.Prelude.{◌≡◌, ◌<◌, length, IfOk};
ghost use Rattle.dim_text.specs.Reading.{Leaves};
ghost use Rattle.dim_signature.specs.Sig.{IsSig};
ghost use Rattle.dim_signature.specs.Sorted.{AreSorted};
ghost use Rattle.dim_text.specs.Stops.{kind_of};
ghost use Rattle.dim_history_file.specs.Signing.{entered, opened};

use crate::FileKind;
use crate::opening::Opening;
use dim_base::OutOfMemory;
use dim_signature::{Add, Catalogue, SigFault, Signature};
use dim_stack::Stack;
use dim_text::Stop;
use std::alloc::Global;

/// The signature that a line with a depth from 1 to 32 opens, with 2 to 32 stacks in order.
pub fn signature(
    alloc: Global,
    opening: Opening,
    stacks: &[Stack],
) -> Result<Signature, OutOfMemory>
    requires in_range { IsSig (opened opening stacks.now) }
    requires sorted { AreSorted stacks.now }
    ensures { IfOk result (λ s. s ≡ opened opening stacks.now) }
{
    match Signature::new(alloc, opening.depth, stacks) {
        Ok(sig) => Ok(sig.noted(opening.on, opening.yields)),
        Err(SigFault::OutOfMemory) => Err(OutOfMemory),
        Err(_) => unreachable!(),
    }
}

/// Appends a signature to fewer than 4,096, or finds that one has the same stacks.
pub fn enter(catalogue: &mut Catalogue, sig: Signature) -> Result<(), Stop<FileKind>>
    requires { length catalogue.old.sigs < 4096 }
    ensures { Leaves kind_of catalogue.new.sigs result (entered catalogue.old.sigs sig) }
{
    match catalogue.add(sig) {
        Ok(_) => Ok(()),
        Err(Add::Known { .. }) => Err(Stop::Bad(FileKind::Double)),
        Err(Add::OutOfMemory) => Err(Stop::OutOfMemory),
        Err(Add::Full) => unreachable!(),
    }
}
