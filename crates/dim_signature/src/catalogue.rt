//! Signatures by their numbers.
ghost use Rattle.std.specs.Prelude.{◌≡◌, ◌⊎◌, ◌<◌, ◌≤◌, ◌++◌, ◌∷◌, ◌+◌, ◌-◌, [], All, length, max, slice_get, vec_capacity, IfOk, IfErr, IfSome, OnOk, OnErr, Some, None};
ghost use Rattle.dim_signature.specs.Sig.{IsSig, counted, fresh, switched};
ghost use Rattle.dim_signature.specs.Sorted.{AreSorted};
ghost use Rattle.dim_signature.specs.Catalogue.{CountedLaw, FoundLaw, IsCatalogue, MissingLaw, OwnLaw, SwitchedLaw, changed_at, signature_number};
ghost use Rattle.dim_signature.specs.Order.{IsRoom};
ghost use Rattle.dim_signature.specs.Refusal.{refusal_of};

use crate::Signature;
use crate::order::{append, search};
use dim_base::OutOfMemory;
use dim_stack::Stack;
use std::alloc::{AllocError, Global};
use std::marker::Model;

/// How many signatures a catalogue has at most.
pub const MOST_SIGNATURES: u32 = 4096;

/// How many stacks a signature has at most.
const MOST_STACKS: usize = 32;

/// Why a catalogue does not take a signature. It is as before then.
#[derive(Clone, Copy, Debug, PartialEq, Eq)]
pub enum Add {
    /// The signature with this number has the same stacks.
    Known { index: u32 },
    /// There are 4,096 signatures, and none has the same stacks.
    Full,
    OutOfMemory,
}

impl From<AllocError> for Add {
    ghost use Rattle.std.specs.Prelude.{◌≡◌};
    ghost use Rattle.dim_signature.specs.declared.catalogue.Add.TheVariants as add;

    ghost from_gives = { λ _ e. e ≡ add.OutOfMemory };

    fn from(_e: AllocError) -> Add {
        Add::OutOfMemory
    }
}

/// At most 4,096 signatures by their numbers, of which no two have the same stacks, and room for
/// some to be learnt.
#[derive(Debug, Drop)]
pub struct Catalogue {
    list: Vec<Signature>,
    // The numbers in the order of the stacks.
    order: Vec<u32>,
    // For each signature to be learnt, room for its stacks.
    rooms: Vec<Vec<Stack>>,
}

impl Model for Catalogue {
    ghost use Rattle.std.specs.Prelude.{length};
    ghost use Rattle.dim_signature.specs.Catalogue.{Contents};
    ghost use Rattle.dim_signature.specs.Order.{AreNumbered};

    ghost Value = { Contents };

    ghost view = { λ c. record { sigs = c.list.items; spare = length c.rooms.items } };

    ghost invariant = { λ c. AreNumbered c.list c.order c.rooms };
}

impl Catalogue {
    /// No signatures, and no room.
    pub fn new(alloc: Global) -> Catalogue
        ensures { result ≡ record { sigs = []; spare = 0 } }
    {
        Catalogue {
            list: Vec::new(alloc),
            order: Vec::new(alloc),
            rooms: Vec::new(alloc),
        }
    }

    /// How many signatures there are, at most 4,096.
    pub fn len(&self) -> u32
        ensures len { result ≡ length self.now.sigs }
        ensures catalogue { IsCatalogue self.now.sigs }
    {
        self.list.len() as u32
    }

    /// The signature with a number. It needs `i` below the length.
    pub fn get(&self, i: u32) -> &Signature
        requires { i < length self.now.sigs }
        ensures value { slice_get self.now.sigs i ≡ Some result.now }
        ensures signature { IsSig result.now }
        ensures ordered { AreSorted result.now.stacks }
    {
        &self.list[i as usize]
    }

    /// The number of the signature with these stacks in this order, and None where there is none.
    pub fn find(&self, sorted: &[Stack]) -> Option<u32>
        ensures { result ≡ signature_number self.now.sigs sorted.now }
    {
        search(&self.list, &self.order, sorted).ok()
    }

    /// Appends a signature, and answers its number. The room for signatures to be learnt stays.
    pub fn add(&mut self, sig: Signature) -> Result<u32, Add>
        ensures number { IfOk result (λ n. n ≡ length self.old.sigs) }
        ensures added { OnOk result
            (self.new ≡ record self.old { sigs = self.old.sigs ++ sig ∷ [] }) }
        ensures err { OnErr result (self.new ≡ self.old) }
        ensures refusal { IfSome (refusal_of self.old.sigs sig.stacks) (λ e. result ≡ Err e) }
        ensures cause { IfErr result (λ e. (e ≡ Add.OutOfMemory)
            ⊎ (refusal_of self.old.sigs sig.stacks ≡ Some e)) }
    {
        match search(&self.list, &self.order, sig.as_slice()) {
            Ok(index) => Err(Add::Known { index }),
            Err(_) if self.list.len() == MOST_SIGNATURES as usize => Err(Add::Full),
            Err(place) => {
                let more = self.rooms.len() + 1;
                self.list.reserve(more)?;
                self.order.reserve(more)?;
                Ok(append(&mut self.list, &mut self.order, place, sig))
            }
        }
    }

    /// Appends a copy of a signature whose stacks none has, where there are fewer than 4,096.
    pub fn add_new(&mut self, alloc: Global, sig: &Signature) -> Result<(), OutOfMemory>
        requires few { length self.old.sigs < 4096 }
        requires new { signature_number self.old.sigs sig.now.stacks ≡ None }
        ensures added { OnOk result (self.new.sigs ≡ self.old.sigs ++ sig.now ∷ []) }
        ensures err { OnErr result (self.new ≡ self.old) }
    {
        match self.add(sig.copy(alloc)?) {
            Ok(_) => Ok(()),
            Err(Add::OutOfMemory) => Err(OutOfMemory),
            Err(Add::Known { .. } | Add::Full) => unreachable!(),
        }
    }

    /// Makes room for this many signatures to be learnt. Where memory runs out, there may be more
    /// room than before.
    pub fn reserve(&mut self, places: u32) -> Result<(), OutOfMemory>
        ensures sigs { self.new.sigs ≡ self.old.sigs }
        ensures ok { OnOk result (self.new.spare ≡ max self.old.spare places) }
        ensures grows { self.old.spare ≤ self.new.spare }
    {
        self.list.reserve(places as usize)?;
        self.order.reserve(places as usize)?;
        let alloc = *self.list.allocator();
        add_rooms(alloc, &mut self.rooms, places as usize)
    }

    /// Appends the signature of these stacks, on and with 0 yields, in the room that is there, and
    /// answers its number. It takes no memory.
    pub fn learn(&mut self, depth: u8, sorted: &[Stack]) -> u32
        requires room { 1 ≤ self.old.spare }
        requires few { length self.old.sigs < 4096 }
        requires signature { IsSig (fresh depth sorted.now) }
        requires ordered { AreSorted sorted.now }
        requires unknown { signature_number self.old.sigs sorted.now ≡ None }
        ensures number { result ≡ length self.old.sigs }
        ensures learnt { self.new ≡ record {
          sigs = self.old.sigs ++ fresh depth sorted.now ∷ [];
          spare = self.old.spare - 1;
        } }
    {
        let place = search(&self.list, &self.order, sorted).unwrap_err();
        let room = self.rooms.pop().unwrap();
        let sig = Signature::in_room(room, depth, sorted);
        append(&mut self.list, &mut self.order, place, sig)
    }

    /// Puts the signature with a number into this state, and changes nothing else. It needs `i`
    /// below the length, and takes no memory.
    pub fn switch(&mut self, i: u32, on: bool)
        requires { i < length self.old.sigs }
        ensures { self.new ≡ record self.old { sigs = changed_at i (switched on) self.old.sigs } }
    {
        self.list[i as usize].switch(on);
    }

    /// Counts so many yields more for the signature with a number, up to 4,294,967,295, and changes
    /// nothing else. It needs `i` below the length, and takes no memory.
    pub fn count(&mut self, i: u32, more: u32)
        requires { i < length self.old.sigs }
        ensures { self.new ≡ record self.old { sigs = changed_at i (counted more) self.old.sigs } }
    {
        self.list[i as usize].count(more);
    }

    /// The signatures by their numbers. The room for others goes.
    pub fn into_list(self) -> Vec<Signature>
        ensures list { result.items ≡ self.sigs }
        ensures catalogue { IsCatalogue self.sigs }
    {
        self.list
    }

    /// A catalogue with the same signatures in the same order, equal in all that they hold, and no
    /// room.
    pub fn copy(&self, alloc: Global) -> Result<Catalogue, OutOfMemory>
        ensures { IfOk result (λ c. c ≡ record { sigs = self.now.sigs; spare = 0 }) }
    {
        let mut list = Vec::with_capacity(alloc, self.list.len())?;
        for sig in &self.list {
            list.push(sig.copy(alloc)?)?;
        }
        Ok(Catalogue {
            list,
            order: Vec::from_slice(alloc, &self.order)?,
            rooms: Vec::new(alloc),
        })
    }
}

// Makes rooms until there are so many.
fn add_rooms(alloc: Global, rooms: &mut Vec<Vec<Stack>>, places: usize) -> Result<(), OutOfMemory>
    requires { All IsRoom rooms.old.items }
    ensures rooms { All IsRoom rooms.new.items }
    ensures ok { OnOk result (length rooms.new.items ≡ max (length rooms.old.items) places) }
    ensures grows { length rooms.old.items ≤ length rooms.new.items }
    ensures bound { length rooms.new.items ≤ max (length rooms.old.items) places }
{
    for _ in rooms.len()..places {
        rooms.push(Vec::with_capacity(alloc, MOST_STACKS)?)?;
    }
    Ok(())
}

/// What the number is that `find` answers: that of the one signature with the stacks.
pub fn number_law()
    ensures found { FoundLaw }
    ensures missing { MissingLaw }
    ensures own { OwnLaw }
{}

/// What a change of state or of yields leaves: the numbers of all stacks.
pub fn change_law()
    ensures switched { SwitchedLaw }
    ensures counted { CountedLaw }
{}
