//! The numbers of signatures, filed by the innermost frames of their stacks.
ghost use Rattle.std.specs.Prelude.{◌≡◌, true, slice_get, IfOk, IsTrue, OnOk, Some};
ghost use Rattle.dim_rag.specs.Born.{In};
ghost use Rattle.dim_tune.specs.Innermost.{AreFiled, Gains, GainsNumber, IsFiled, filed};

use dim_base::OutOfMemory;
use dim_signature::{Catalogue, Signature};
use dim_stack::{Frame, Stack};
use std::alloc::Global;
use std::collections::BTreeMap;

/// The numbers of the switched-on signatures that have a stack with this innermost frame, by such
/// frames.
#[derive(Drop)]
pub struct Innermost {
    files: BTreeMap<Frame, Vec<u32>>,
}

impl Innermost {
    /// Those of a catalogue. A signature that is switched off is not among them.
    pub fn of(alloc: Global, loaded: &Catalogue) -> Result<Innermost, OutOfMemory>
        ensures { IfOk result (λ x. AreFiled x.files loaded.now.sigs) }
    {
        let mut files = BTreeMap::new(alloc);
        for i in 0..loaded.len() {
            file_if_on(alloc, &mut files, i, loaded.get(i))?;
        }
        Ok(Innermost { files })
    }

    /// The numbers of those with this innermost frame.
    pub fn at(&self, frame: &Frame) -> &[u32]
        ensures { result.now ≡ filed self.now.files frame.now }
    {
        match self.files.get(frame) {
            Some(numbers) => numbers.as_slice(),
            None => &[],
        }
    }
}

/// Files the number of a signature that is switched on, and passes over one that is off.
fn file_if_on(
    alloc: Global,
    files: &mut BTreeMap<Frame, Vec<u32>>,
    i: u32,
    sig: &Signature,
) -> Result<(), OutOfMemory>
    ensures gains { OnOk result (Gains files.old files.new i) }
    ensures filed { OnOk result (sig.now.on ≡ true → IsFiled files.new i sig.now.stacks) }
{
    if !sig.on() {
        return Ok(());
    }
    for j in 0..sig.len() {
        file(alloc, files, first_frame(sig.stack(j)), i)?;
    }
    Ok(())
}

/// Files a number by a frame.
fn file(
    alloc: Global,
    files: &mut BTreeMap<Frame, Vec<u32>>,
    frame: Frame,
    i: u32,
) -> Result<(), OutOfMemory>
    ensures gains { OnOk result (Gains files.old files.new i) }
    ensures own { OnOk result (In i (filed files.new frame)) }
{
    let mut numbers = files.remove(&frame).unwrap_or(Vec::new(alloc));
    add(&mut numbers, i)?;
    files.insert(frame, numbers)?;
    Ok(())
}

/// Adds a number behind others, unless it is the last of them.
fn add(numbers: &mut Vec<u32>, i: u32) -> Result<(), OutOfMemory>
    ensures gains { OnOk result (GainsNumber numbers.old.items numbers.new.items i) }
    ensures own { OnOk result (In i numbers.new.items) }
{
    if !is_last(numbers, i) {
        numbers.push(i)?;
    }
    Ok(())
}

/// Whether a number is the last of some.
fn is_last(numbers: &[u32], i: u32) -> bool
    ensures { IsTrue result → In i numbers.now }
{
    match numbers.last() {
        Some(last) => *last == i,
        None => false,
    }
}

/// The innermost frame of a stack.
fn first_frame(stack: &Stack) -> Frame
    ensures { slice_get stack.now 0 ≡ Some result }
{
    let _some = stack.len(); // for the contract: it has a frame
    stack.frame(0)
}
