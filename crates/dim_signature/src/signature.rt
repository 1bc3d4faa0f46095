//! One signature.
ghost use Rattle.std.specs.Prelude.{◌≡◌, ◌⊎◌, ◌<◌, ◌≤◌, ◌^◌, length, slice_get, IfOk, IfErr, IfSome, Some};
ghost use Rattle.dim_signature.specs.Sig.{IsSig, counted, fresh, switched};
ghost use Rattle.dim_signature.specs.Sorted.{AreSorted, sorted};
ghost use Rattle.dim_signature.specs.Order.{IsRoom};
ghost use Rattle.dim_signature.specs.Refusal.{fault_of};

use crate::sort_stacks;
use dim_base::OutOfMemory;
use dim_stack::Stack;
use std::alloc::{AllocError, Global};
use std::marker::Model;

/// Why stacks and a depth make no signature. The first cause that applies is answered.
#[derive(Clone, Copy, Debug, PartialEq, Eq)]
pub enum SigFault {
    /// There are fewer than 2 stacks.
    TooFew { count: u32 },
    /// There are more than 32 stacks.
    TooMany { count: u32 },
    /// The depth is not from 1 to 32.
    BadDepth { depth: u8 },
    OutOfMemory,
}

impl From<AllocError> for SigFault {
    ghost use Rattle.std.specs.Prelude.{◌≡◌};
    ghost use Rattle.dim_signature.specs.declared.signature.SigFault.TheVariants as fault;

    ghost from_gives = { λ _ e. e ≡ fault.OutOfMemory };

    fn from(_e: AllocError) -> SigFault {
        SigFault::OutOfMemory
    }
}

/// A depth from 1 to 32, and 2 to 32 stacks in order; whether it is switched on, and how many
/// yields were counted, up to 4,294,967,295.
#[derive(Debug, Drop)]
pub struct Signature {
    depth: u8,
    stacks: Vec<Stack>,
    on: bool,
    yields: u32,
}

impl Model for Signature {
    ghost use Rattle.dim_signature.specs.Sig.{Sig, IsSig};
    ghost use Rattle.dim_signature.specs.Sorted.{AreSorted};

    ghost Value = { Sig };

    ghost view = { λ s. record { depth = s.depth; stacks = s.stacks.items; on = s.on; yields = s.yields } };

    ghost invariant = { λ s. IsSig record { depth = s.depth; stacks = s.stacks.items; on = s.on; yields = s.yields } × AreSorted s.stacks.items };
}

impl Signature {
    /// The signature of these stacks, which it puts in order, with this depth. It is switched on
    /// and has 0 yields.
    pub fn new(alloc: Global, depth: u8, stacks: &[Stack]) -> Result<Signature, SigFault>
        requires { length stacks.now < 2 ^ 32 }
        ensures ok { IfOk result (λ s. s ≡ fresh depth (sorted stacks.now)) }
        ensures fault { IfSome (fault_of depth (length stacks.now)) (λ fault. result ≡ Err fault) }
        ensures cause { IfErr result (λ e. (e ≡ SigFault.OutOfMemory)
            ⊎ (fault_of depth (length stacks.now) ≡ Some e)) }
    {
        if let Some(fault) = fault(depth, stacks.len() as u32) {
            return Err(fault);
        }
        let mut stacks = Vec::from_slice(alloc, stacks)?;
        sort_stacks(&mut stacks);
        Ok(Signature::fresh(depth, stacks))
    }

    // The signature of stacks that stand in order, on and with 0 yields.
    fn fresh(depth: u8, stacks: Vec<Stack>) -> Signature
        requires signature { IsSig (fresh depth stacks.items) }
        requires ordered { AreSorted stacks.items }
        ensures { result ≡ fresh depth stacks.items }
    {
        Signature {
            depth,
            stacks,
            on: true,
            yields: 0,
        }
    }

    /// How many frames must agree, from 1 to 32.
    pub fn depth(&self) -> u8
        ensures depth { result ≡ self.now.depth }
        ensures low { 1 ≤ result }
        ensures high { result ≤ 32 }
    {
        self.depth
    }

    /// Whether it is switched on.
    pub fn on(&self) -> bool
        ensures { result ≡ self.now.on }
    {
        self.on
    }

    /// How many yields were counted; 4,294,967,295 stands for so many or more.
    pub fn yields(&self) -> u32
        ensures { result ≡ self.now.yields }
    {
        self.yields
    }

    /// How many stacks it has, from 2 to 32.
    pub fn len(&self) -> u32
        ensures len { result ≡ length self.now.stacks }
        ensures few { result ≤ 32 }
        ensures some { 2 ≤ result }
    {
        self.stacks.len() as u32
    }

    /// The stack at a position. It needs `i` below the length.
    pub fn stack(&self, i: u32) -> &Stack
        requires { i < length self.now.stacks }
        ensures { slice_get self.now.stacks i ≡ Some result.now }
    {
        &self.stacks[i as usize]
    }

    /// The stacks in order.
    pub fn as_slice(&self) -> &[Stack]
        ensures stacks { result.now ≡ self.now.stacks }
        ensures signature { IsSig self.now }
        ensures ordered { AreSorted self.now.stacks }
    {
        &self.stacks
    }

    /// A signature that is equal in all that it holds.
    pub fn copy(&self, alloc: Global) -> Result<Signature, OutOfMemory>
        ensures { IfOk result (λ s. s ≡ self.now) }
    {
        Ok(Signature {
            depth: self.depth,
            stacks: Vec::from_slice(alloc, &self.stacks)?,
            on: self.on,
            yields: self.yields,
        })
    }

    /// The same signature in this state and with so many yields.
    pub fn noted(self, on: bool, yields: u32) -> Signature
        ensures { result ≡ record self { on = on; yields = yields } }
    {
        let mut sig = self;
        sig.on = on;
        sig.yields = yields;
        sig
    }

    // Puts it into this state.
    pub(crate) fn switch(&mut self, on: bool)
        ensures { self.new ≡ switched on self.old }
    {
        self.on = on;
    }

    // Counts so many yields more, up to the highest number.
    pub(crate) fn count(&mut self, more: u32)
        ensures { self.new ≡ counted more self.old }
    {
        self.yields = self.yields.saturating_add(more);
    }

    // The signature of these stacks, which stand in order, in a room for 32 of them.
    pub(crate) fn in_room(room: Vec<Stack>, depth: u8, sorted: &[Stack]) -> Signature
        requires room { IsRoom room }
        requires signature { IsSig (fresh depth sorted.now) }
        requires ordered { AreSorted sorted.now }
        ensures { result ≡ fresh depth sorted.now }
    {
        let mut stacks = room;
        stacks.extend_from_slice(sorted).unwrap();
        Signature::fresh(depth, stacks)
    }
}

// Why this depth and so many stacks make no signature.
fn fault(depth: u8, count: u32) -> Option<SigFault>
    ensures { result ≡ fault_of depth count }
{
    match count {
        0..2 => Some(SigFault::TooFew { count }),
        33.. => Some(SigFault::TooMany { count }),
        _ if depth < 1 || 32 < depth => Some(SigFault::BadDepth { depth }),
        _ => None,
    }
}
