//! The opposed pairs whose stacks are new.
ghost use Rattle.std.specs.Prelude.{◌≡◌, ℕ, ◌≤◌, ◌<◌, ◌∷◌, ◌++◌, ◌+◌, ◌*◌, ◌||◌, [], All, IfOk, OnOk, List, Some, cond, length, map, drop, slice_index, slice_index_or};
ghost use Rattle.std.specs.BTreeMap.{get};
ghost use Rattle.std.specs.List.{list_any};
ghost use Rattle.dim_stack.specs.declared.Frame.{Frame};
ghost use Rattle.dim_signature.specs.Sig.{Sig};
ghost use Rattle.dim_signature.specs.Sorted.{stack_cmp};
ghost use Rattle.dim_predict.specs.declared.key.Key.{Key};
ghost use Rattle.dim_predict.specs.Candidates.{candidate_stacks, row_of};
ghost use Rattle.dim_predict.specs.Keys.{IsKey, content_of};
ghost use Rattle.dim_predict.specs.Numbered.{is_at, pair_in};
ghost use Rattle.dim_predict.specs.Pairs.{AreLinksFrom, AreNumbers, AreWithin, IsAdded, IsSearched, has_come, pair_slot, stacks_of_places};

use crate::key::{Key, is_opposed};
use crate::links::{Links, links_of};
use crate::numbers::Numbers;
use crate::places::Places;
use crate::seen::Seen;
use dim_base::OutOfMemory;
use dim_signature::Catalogue;
use std::alloc::Global;

/// Puts in the pairs of those signatures that have two stacks which have numbers. The numbers are
/// below `count`, for which there is room.
fn see_known(seen: &mut Seen, numbers: &Numbers, catalogue: &Catalogue, count: usize)
    requires few { count ≤ 4096 }
    requires room { length seen.old.table.items ≡ count * 4096 }
    requires numbers { (s : List Frame) (n : ℕ) → get stack_cmp numbers.now.firsts s ≡ Some n
        → n < count }
    ensures room { length seen.new.table.items ≡ length seen.old.table.items }
    ensures seen { (a b : ℕ) → a < 4096 → b < 4096
        → has_come seen.new.table.items a b
        ≡ (list_any (λ s. is_at (pair_slot a b) (pair_in numbers.now.firsts s.stacks))
        catalogue.now.sigs || has_come seen.old.table.items a b) }
{
    for i in 0..catalogue.len() {
        seen.add_if(numbers.pair_of(catalogue.get(i)));
    }
}

/// What has been found of some contents, with numbers for their stacks.
#[derive(Drop)]
struct Found {
    numbers: Vec<u32>,
    seen: Seen,
    pairs: Vec<Places>,
}

impl Found {
    /// Nothing, of at most 4,096 contents, where the stacks of these signatures are known.
    fn new(alloc: Global, keys: &[Key], catalogue: &Catalogue) -> Result<Found, OutOfMemory>
        requires { length keys.now ≤ 4096 }
        ensures numbers { IfOk result (λ f. AreNumbers keys.now (length keys.now) f.numbers.items) }
        ensures searched { IfOk result (λ f. IsSearched catalogue.now.sigs keys.now
            f.numbers.items [] f.seen.table.items f.pairs.items) }
    {
        let _known = catalogue.len(); // for the contract: the stacks of each are in order
        let numbers = Numbers::of(alloc, keys)?;
        let mut seen = Seen::new(alloc, keys.len())?;
        see_known(&mut seen, &numbers, catalogue, keys.len());
        Ok(Found {
            numbers: numbers.into_list(),
            seen,
            pairs: Vec::new(alloc),
        })
    }

    /// Takes a pair of contents, by their places, if its stacks are new.
    fn note(&mut self, i: u32, j: u32) -> Result<(), OutOfMemory>
        requires first { i < length self.old.numbers.items }
        requires second { j < length self.old.numbers.items }
        requires low { slice_index self.old.numbers.items i < 4096 }
        requires low_other { slice_index self.old.numbers.items j < 4096 }
        requires room { pair_slot (slice_index self.old.numbers.items i)
            (slice_index self.old.numbers.items j) < length self.old.seen.table.items }
        ensures kept { self.new.numbers.items ≡ self.old.numbers.items }
        ensures added { IsAdded self.old.seen.table.items self.new.seen.table.items
            (slice_index self.old.numbers.items i) (slice_index self.old.numbers.items j) }
        ensures pairs { OnOk result (self.new.pairs.items
            ≡ cond (has_come self.old.seen.table.items (slice_index self.old.numbers.items i)
            (slice_index self.old.numbers.items j)) self.old.pairs.items
            (self.old.pairs.items ++ record { earlier = i; later = j } ∷ [])) }
    {
        let first = self.numbers[i as usize];
        let second = self.numbers[j as usize];
        if self.seen.add(first, second) {
            self.pairs.push(Places {
                earlier: i,
                later: j,
            })?;
        }
        Ok(())
    }

    /// Looks at the pairs of a content and those behind it.
    fn row(&mut self, keys: &[Key], links: &Links, i: u32) -> Result<(), OutOfMemory>
        requires few { length keys.now ≤ 4096 }
        requires keys { All IsKey keys.now }
        requires first { i < length keys.now }
        requires links { AreLinksFrom keys.now 0 links.now.opposite.items links.now.next.items }
        requires room { length self.old.seen.table.items ≡ length keys.now * 4096 }
        requires numbers { AreNumbers keys.now (length keys.now) self.old.numbers.items }
        ensures kept { self.new.numbers.items ≡ self.old.numbers.items }
        ensures room { length self.new.seen.table.items ≡ length self.old.seen.table.items }
        ensures step { OnOk result ((loaded : List Sig) (come : List (List (List Frame))) (d : Key)
            → IsSearched loaded keys.now self.old.numbers.items come
            self.old.seen.table.items self.old.pairs.items
            → IsSearched loaded keys.now self.old.numbers.items
            (come ++ row_of (content_of (slice_index_or keys.now i d))
            (map content_of (drop (i + 1) keys.now)))
            self.new.seen.table.items self.new.pairs.items) }
    {
        let mut j = links.opposite[i as usize];
        while (j as usize) < keys.len() {
            if is_opposed(&keys[i as usize], &keys[j as usize]) {
                self.note(i, j)?;
            }
            j = links.next[j as usize];
        }
        Ok(())
    }
}

/// The opposed pairs of some contents, of which there are at most 4,096, by the earlier place and
/// then by the later one, without those whose stacks a signature has or a pair before them.
pub fn new_pairs(
    alloc: Global,
    keys: &[Key],
    catalogue: &Catalogue,
) -> Result<Vec<Places>, OutOfMemory>
    requires few { length keys.now ≤ 4096 }
    requires keys { All IsKey keys.now }
    ensures within { IfOk result (λ pairs. All (AreWithin (length keys.now)) pairs.items) }
    ensures found { IfOk result (λ pairs. (d : Key) → map (stacks_of_places keys.now d) pairs.items
        ≡ candidate_stacks catalogue.now.sigs (map content_of keys.now)) }
{
    let links = links_of(alloc, keys)?;
    let mut found = Found::new(alloc, keys, catalogue)?;
    for i in 0..keys.len() {
        found.row(keys, &links, i as u32)?;
    }
    Ok(found.pairs)
}
