//! The numbers of signatures in the order of their stacks.
ghost use Rattle.std.specs.Prelude.{◌≡◌, ◌++◌, ◌∷◌, ◌+◌, ◌<◌, ◌≤◌, [], length, IfErr, IsTrue, vec_capacity};
ghost use Rattle.std.specs.Result.{result_ok};
ghost use Rattle.dim_signature.specs.Catalogue.{signature_number};
ghost use Rattle.dim_signature.specs.Order.{BelongsAt, IsOrder, stacks_at, stacks_cmp};

use crate::Signature;
use dim_stack::Stack;
use std::cmp::Ordering;

/// The number of the signature with these stacks, or the place in the order where they belong.
pub fn search(list: &[Signature], order: &[u32], stacks: &[Stack]) -> Result<u32, usize>
    requires { IsOrder list.now order.now }
    ensures number { result_ok result ≡ signature_number list.now stacks.now }
    ensures place { IfErr result (BelongsAt list.now order.now stacks.now) }
{
    if are_last(list, order, stacks) {
        return Err(order.len());
    }
    search_all(list, order, stacks)
}

// Whether these stacks belong behind all in the order, as where signatures come in order.
fn are_last(list: &[Signature], order: &[u32], stacks: &[Stack]) -> bool
    requires { IsOrder list.now order.now }
    ensures { IsTrue result → BelongsAt list.now order.now stacks.now (length order.now) }
{
    match order.len() {
        0 => true,
        n => compare_at(list, order, n - 1, stacks).is_lt(),
    }
}

// What `search` answers, by halves.
fn search_all(list: &[Signature], order: &[u32], stacks: &[Stack]) -> Result<u32, usize>
    requires { IsOrder list.now order.now }
    ensures number { result_ok result ≡ signature_number list.now stacks.now }
    ensures place { IfErr result (BelongsAt list.now order.now stacks.now) }
{
    let mut low = 0;
    let mut high = order.len();
    while low < high {
        let middle = low + (high - low) / 2;
        match compare_at(list, order, middle, stacks) {
            Ordering::Less => low = middle + 1,
            Ordering::Equal => return Ok(order[middle]),
            Ordering::Greater => high = middle,
        }
    }
    Err(low)
}

// How the stacks of the signature at a place of the order compare with these.
fn compare_at(list: &[Signature], order: &[u32], place: usize, stacks: &[Stack]) -> Ordering
    requires ordered { IsOrder list.now order.now }
    requires within { place < length order.now }
    ensures { result ≡ stacks_cmp (stacks_at list.now order.now place) stacks.now }
{
    list[order[place] as usize].as_slice().cmp(stacks)
}

/// Appends a signature, and puts its number into the order at the place where its stacks belong.
pub fn append(list: &mut Vec<Signature>, order: &mut Vec<u32>, place: usize, sig: Signature) -> u32
    requires ordered { IsOrder list.old.items order.old.items }
    requires place { BelongsAt list.old.items order.old.items sig.stacks place }
    requires few { length list.old.items < 4096 }
    requires room { length list.old.items < vec_capacity list.old }
    requires order_room { length list.old.items < vec_capacity order.old }
    ensures number { result ≡ length list.old.items }
    ensures appended { list.new.items ≡ list.old.items ++ sig ∷ [] }
    ensures ordered { IsOrder list.new.items order.new.items }
    ensures room { vec_capacity list.new ≡ vec_capacity list.old }
    ensures order_room { vec_capacity order.old ≤ vec_capacity order.new }
{
    let number = list.len() as u32;
    list.push_reserved(sig);
    order.insert(place, number).unwrap();
    number
}
