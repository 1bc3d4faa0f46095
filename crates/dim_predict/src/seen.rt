//! Which pairs of stacks have come.
ghost use Rattle.std.specs.Prelude.{◌≡◌, ◌<◌, ◌≤◌, ◌*◌, ◌||◌, ℕ, not, true, false, IfOk, IfSome, length};
ghost use Rattle.dim_predict.specs.Numbered.{is_at};
ghost use Rattle.dim_predict.specs.Pairs.{has_come, pair_slot};

use dim_base::OutOfMemory;
use std::alloc::Global;

/// How many numbers of stacks there may be.
const WIDTH: usize = 4096;

/// A set of pairs of numbers, in which the order of the two doesn't matter.
#[derive(Drop)]
pub struct Seen {
    table: Vec<bool>,
}

/// The place of two numbers in the table.
fn slot(a: u32, b: u32) -> usize
    ensures { result ≡ pair_slot a b }
{
    a.max(b) as usize * WIDTH + a.min(b) as usize
}

impl Seen {
    /// No pairs, with room for those of numbers below `count`, which is at most 4,096.
    pub fn new(alloc: Global, count: usize) -> Result<Seen, OutOfMemory>
        requires { count ≤ 4096 }
        ensures size { IfOk result (λ seen. length seen.table.items ≡ count * 4096) }
        ensures empty { IfOk result (λ seen. (a b : ℕ) → has_come seen.table.items a b ≡ false) }
    {
        let table = vec![in alloc; false; count * WIDTH]?;
        Ok(Seen { table })
    }

    /// Puts a pair in, and answers whether it is new. The numbers are below those for which there
    /// is room.
    pub fn add(&mut self, a: u32, b: u32) -> bool
        requires first { a < 4096 }
        requires second { b < 4096 }
        requires room { pair_slot a b < length self.old.table.items }
        ensures new { result ≡ not (has_come self.old.table.items a b) }
        ensures size { length self.new.table.items ≡ length self.old.table.items }
        ensures here { has_come self.new.table.items a b ≡ true }
        ensures others { (c d : ℕ) → c < 4096 → d < 4096
            → (pair_slot c d ≡ pair_slot a b → ⊥)
            → has_come self.new.table.items c d ≡ has_come self.old.table.items c d }
    {
        let at = slot(a, b);
        let new = !self.table[at];
        self.table[at] = true;
        new
    }

    /// Puts a pair in, if there is one. Its numbers are below those for which there is room.
    pub fn add_if(&mut self, pair: Option<(u32, u32)>)
        requires { IfSome pair (λ p. (p.0 < 4096) × (p.1 < 4096)
            × (pair_slot p.0 p.1 < length self.old.table.items)) }
        ensures size { length self.new.table.items ≡ length self.old.table.items }
        ensures seen { (c d : ℕ) → c < 4096 → d < 4096
            → has_come self.new.table.items c d
            ≡ (is_at (pair_slot c d) pair || has_come self.old.table.items c d) }
    {
        if let Some((a, b)) = pair {
            self.add(a, b);
        }
    }
}
