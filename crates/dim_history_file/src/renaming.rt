//! A history in another table of names.
ghost use Rattle.std.specs.Prelude.{◌≡◌, ◌++◌, ◌∷◌, [], IfOk, None, OnOk, map};
ghost use Rattle.dim_stack.specs.Names.{HasNames, name_number};
ghost use Rattle.dim_signature.specs.Catalogue.{IsCatalogue};
ghost use Rattle.dim_signature.specs.Refusal.{refusal_of};
ghost use Rattle.dim_history_file.specs.Value.{AreNumbersIn, named, AreNamed};
ghost use Rattle.dim_history_file.specs.Grammar.{AreNear};
ghost use Rattle.dim_history_file.specs.Seen.{value_of};

use crate::History;
use crate::opening::Opening;
use crate::signing::signature;
use arrayvec::ArrayVec;
use dim_base::{OutOfMemory, Word};
use dim_signature::{Add, Catalogue, Signature};
use dim_stack::{Frame, MOST_FRAMES, Names, Stack};
use dim_text::is_word;
use std::alloc::Global;

// A table with the same names.
fn copied(alloc: Global, names: &Names) -> Result<Names, OutOfMemory>
    ensures { IfOk result (λ n. n ≡ names.now) }
{
    let _few = names.len();
    let none = Names::of(alloc, &[])?;
    Names::merge(alloc, names, &none)
}

// Two tables of names, and for each name of the first its number in the second.
#[derive(Drop)]
struct Renaming<'a> {
    from: &'a Names,
    to: &'a Names,
    numbers: Vec<u32>,
    ghost right: { AreNumbersIn to.now from.now numbers.items },
}

// The number of a name, which is found at once where it is the guess.
fn number_in(names: &Names, name: &Word, guess: u32) -> Option<u32>
    ensures { result ≡ name_number names.now name.now }
{
    if guess < names.len() && is_word(names.name(guess).as_slice(), name.as_slice()) {
        return Some(guess);
    }
    names.number(name)
}

// The number of each name in another table, in which it has to stand. Both tables are in order, so
// it mostly follows that of the name before.
fn numbers_in(alloc: Global, from: &Names, to: &Names) -> Result<Vec<u32>, OutOfMemory>
    requires { HasNames to.now from.now }
    ensures { IfOk result (λ ns. AreNumbersIn to.now from.now ns.items) }
{
    let mut numbers = Vec::with_capacity(alloc, from.len() as usize)?;
    let mut guess = 0;
    for n in 0..from.len() {
        let found = number_in(to, from.name(n), guess).unwrap();
        numbers.push(found)?;
        guess = found.wrapping_add(1);
    }
    Ok(numbers)
}

impl<'a> Renaming<'a> {
    ghost use Rattle.std.specs.Prelude.{◌≡◌, ◌<◌, All, IfOk, OnOk, length, map};
    ghost use Rattle.dim_stack.specs.Names.{IsNamedBy, HasNames};
    ghost use Rattle.dim_history_file.specs.Value.{named_frame, named_stack, named_sig};

    fn new(alloc: Global, from: &'a Names, to: &'a Names) -> Result<Renaming<'a>, OutOfMemory>
        requires { HasNames to.now from.now }
        ensures from { IfOk result (λ r. r.from.now ≡ from.now) }
        ensures to { IfOk result (λ r. r.to.now ≡ to.now) }
    {
        let numbers = numbers_in(alloc, from, to)?;
        Ok(Renaming { from, to, numbers })
    }

    // A frame of the same function and offset.
    fn frame(&self, frame: Frame) -> Frame
        requires { frame.func < length self.now.from.now }
        ensures same { named_frame self.now.to.now result ≡ named_frame self.now.from.now frame }
        ensures within { result.func < length self.now.to.now }
    {
        Frame {
            func: self.numbers[frame.func as usize],
            at: frame.at,
        }
    }

    fn stack(&self, stack: &Stack) -> Stack
        requires { IsNamedBy self.now.from.now stack.now }
        ensures same { named_stack self.now.to.now result
            ≡ named_stack self.now.from.now stack.now }
        ensures named { IsNamedBy self.now.to.now result }
    {
        let _some = stack.len();
        let mut frames = ArrayVec::<Frame, MOST_FRAMES>::new();
        for frame in stack.as_slice() {
            frames.push(self.frame(*frame));
        }
        Stack::new(frames.as_slice())
    }

    // Puts the same stacks in the place of others.
    fn stacks(&self, stacks: &[Stack], renamed: &mut Vec<Stack>) -> Result<(), OutOfMemory>
        requires { All (IsNamedBy self.now.from.now) stacks.now }
        ensures same { OnOk result (map (named_stack self.now.to.now) renamed.new.items
            ≡ map (named_stack self.now.from.now) stacks.now) }
        ensures named { OnOk result (All (IsNamedBy self.now.to.now) renamed.new.items) }
    {
        renamed.clear();
        for stack in stacks {
            renamed.push(self.stack(stack))?;
        }
        Ok(())
    }

    // The same signature. Its stacks are made in a vector that may be used again, and its memory is
    // given back before any is asked for.
    fn sig(
        &self,
        alloc: Global,
        sig: Signature,
        stacks: &mut Vec<Stack>,
    ) -> Result<Signature, OutOfMemory>
        requires { All (IsNamedBy self.now.from.now) sig.stacks }
        ensures same { IfOk result
            (λ s. named_sig self.now.to.now s ≡ named_sig self.now.from.now sig) }
        ensures named { IfOk result (λ s. All (IsNamedBy self.now.to.now) s.stacks) }
    {
        let _tables = (self.from.len(), self.to.len());
        self.stacks(sig.as_slice(), stacks)?;
        let opening = Opening::of(&sig);
        drop(sig);
        signature(alloc, opening, stacks)
    }
}

// Appends a signature whose stacks no other has, to fewer than 4,096.
fn append(catalogue: &mut Catalogue, sig: Signature) -> Result<(), OutOfMemory>
    requires { refusal_of catalogue.old.sigs sig.stacks ≡ None }
    ensures { OnOk result (catalogue.new.sigs ≡ catalogue.old.sigs ++ sig ∷ []) }
{
    match catalogue.add(sig) {
        Ok(_) => Ok(()),
        Err(Add::OutOfMemory) => Err(OutOfMemory),
        Err(_) => unreachable!(),
    }
}

// The same signatures in another table. They differ there as they did, so each is appended.
fn renamed_catalogue(
    alloc: Global,
    sigs: Vec<Signature>,
    from: &Names,
    to: &Names,
) -> Result<Catalogue, OutOfMemory>
    requires names { HasNames to.now from.now }
    requires catalogue { IsCatalogue sigs.items }
    requires named { AreNamed from.now sigs.items }
    ensures same { IfOk result (λ c. named to.now c.sigs ≡ named from.now sigs.items) }
    ensures named { IfOk result (λ c. AreNamed to.now c.sigs) }
{
    let _tables = (from.len(), to.len());
    let renaming = Renaming::new(alloc, from, to)?;
    let mut catalogue = Catalogue::new(alloc);
    let mut stacks = Vec::new(alloc);
    for sig in sigs {
        let sig = renaming.sig(alloc, sig, &mut stacks)?;
        append(&mut catalogue, sig)?;
    }
    Ok(catalogue)
}

/// The same history with this table of names, in which each of its names has to stand: depths,
/// states and yields stay.
pub fn rename(alloc: Global, h: History, names: &Names) -> Result<History, OutOfMemory>
    requires { HasNames names.now h.names }
    ensures names { IfOk result (λ r. r.names ≡ names.now) }
    ensures value { IfOk result (λ r. value_of r ≡ value_of h) }
    ensures near { AreNear h.catalogue.sigs → IfOk result (λ r. AreNear r.catalogue.sigs) }
    ensures depths { IfOk result (λ r. map (λ s. s.depth) r.catalogue.sigs
        ≡ map (λ s. s.depth) h.catalogue.sigs) }
{
    let names = copied(alloc, names)?;
    rename_into(alloc, h, names)
}

/// The same history with this table of names, in which each of its names has to stand: depths,
/// states and yields stay. The table is taken as it is, so that no name is copied.
pub fn rename_into(alloc: Global, h: History, names: Names) -> Result<History, OutOfMemory>
    requires { HasNames names h.names }
    ensures names { IfOk result (λ r. r.names ≡ names) }
    ensures value { IfOk result (λ r. value_of r ≡ value_of h) }
    ensures near { AreNear h.catalogue.sigs → IfOk result (λ r. AreNear r.catalogue.sigs) }
    ensures depths { IfOk result (λ r. map (λ s. s.depth) r.catalogue.sigs
        ≡ map (λ s. s.depth) h.catalogue.sigs) }
{
    let sigs = h.catalogue.into_list();
    let catalogue = renamed_catalogue(alloc, sigs, &h.names, &names)?;
    Ok(History { names, catalogue })
}
