//! Numbers for stacks.
ghost use Rattle.std.specs.Prelude.{◌≡◌, ◌≤◌, ◌∷◌, [], IfOk, length};
ghost use Rattle.dim_predict.specs.Numbered.{IsNumbered, IsNumberedTo, pair_in};

use crate::key::Key;
use dim_base::OutOfMemory;
use dim_signature::Signature;
use dim_stack::Stack;
use std::alloc::{AllocFailed, Global};
use std::collections::BTreeMap;

/// A number for each stack of some contents: the place of the first content with it. And for each
/// content the number of its stack.
#[derive(Drop)]
pub struct Numbers {
    firsts: BTreeMap<Stack, u32>,
    list: Vec<u32>,
}

impl Numbers {
    /// The numbers of the stacks of some contents, of which there are at most 4,096. Two are the
    /// same exactly where the stacks are equal.
    pub fn of(alloc: Global, keys: &[Key]) -> Result<Numbers, OutOfMemory>
        requires { length keys.now ≤ 4096 }
        ensures { IfOk result (λ n. IsNumberedTo keys.now (length keys.now) n.firsts n.list.items) }
    {
        let mut firsts = BTreeMap::new(alloc);
        let mut list = Vec::new(alloc);
        for i in 0..keys.len() {
            let number = number_at(&mut firsts, &keys[i].stack, i as u32)?;
            list.push(number)?;
        }
        Ok(Numbers { firsts, list })
    }

    /// The numbers of the stacks of a signature, if it has two and both have one.
    pub fn pair_of(&self, sig: &Signature) -> Option<(u32, u32)>
        ensures { result ≡ pair_in self.now.firsts sig.now.stacks }
    {
        match sig.as_slice() {
            [first, second] => self.both(first, second),
            _ => None,
        }
    }

    /// The number of each content.
    pub fn into_list(self) -> Vec<u32>
        ensures { result.items ≡ self.list.items }
    {
        let Numbers {
            firsts: _firsts,
            list,
        } = self;
        list
    }

    /// The numbers of two stacks, if both have one.
    fn both(&self, first: &Stack, second: &Stack) -> Option<(u32, u32)>
        ensures { result ≡ pair_in self.now.firsts (first.now ∷ second.now ∷ []) }
    {
        let a = self.firsts.get(first)?;
        let b = self.firsts.get(second)?;
        Some((*a, *b))
    }
}

/// The number that a map has for a stack. Where it has none, it has this one from now on.
fn number_at(
    firsts: &mut BTreeMap<Stack, u32>,
    stack: &Stack,
    here: u32,
) -> Result<u32, AllocFailed<(Stack, u32)>>
    ensures { IfOk result (λ n. IsNumbered firsts.old firsts.new stack.now here n) }
{
    match firsts.get(stack) {
        Some(number) => Ok(*number),
        None => {
            firsts.insert(*stack, here)?;
            Ok(here)
        }
    }
}
