//! The operands of a machine.
ghost use Rattle.std.specs.Prelude.{◌≡◌, ◌<◌, ◌≤◌, [], ◌∷◌, length, IsTrue, ◌↔◌, IfOk};
ghost use Rattle.dim_vm.specs.Operands as operands;
ghost use Rattle.dim_vm.specs.Tops.{rest};
ghost use Rattle.dim_vm.specs.Trap.{Leaves};

use crate::trap::Trap;
use std::marker::Model;

/// How many operands there may be.
const CAPACITY: usize = 256;

/// Up to 256 operands, of which contracts see the newest first.
#[derive(Drop)]
pub struct Operands {
    len: usize,
    cells: [i64; 256],
}

impl Model for Operands {
    ghost use Rattle.std.specs.Prelude.{◌≡◌, ◌≤◌, List, ℤ, length, take, reverse};

    ghost Value = { List ℤ };

    ghost view = { λ s. reverse (take s.len s.cells) };

    ghost invariant = { λ s. (s.len ≤ 256) × (length s.cells ≡ 256) };
}

/// 1 for yes and 0 for no.
fn one_if(yes: bool) -> i64
    ensures { result ≡ operands.one_if yes }
{
    if yes { 1 } else { 0 }
}

impl Operands {
    /// One operand.
    pub fn one(n: i64) -> Operands
        ensures { result ≡ n ∷ [] }
    {
        let mut cells = [0i64; 256];
        cells[0] = n;
        Operands { len: 1, cells }
    }

    /// Whether there is no room.
    pub fn is_full(&self) -> bool
        ensures full { IsTrue result ↔ (256 ≤ length self.now) }
        ensures few { length self.now ≤ 256 }
    {
        self.len >= CAPACITY
    }

    /// The newest.
    pub fn top(&self) -> Result<i64, Trap>
        ensures { result ≡ operands.top self.now }
    {
        if self.len == 0 {
            return Err(Trap::Under);
        }
        Ok(self.cells[self.len - 1])
    }

    /// The two newest, the older one first.
    fn pair(&self) -> Result<(i64, i64), Trap>
        ensures value { result ≡ operands.pair self.now }
        ensures two { IfOk result (λ _. 2 ≤ length self.now) }
    {
        if self.len <= 1 {
            return Err(Trap::Under);
        }
        Ok((self.cells[self.len - 2], self.cells[self.len - 1]))
    }

    /// Takes the newest off.
    pub fn pop(&mut self) -> Result<i64, Trap>
        ensures result { result ≡ operands.top self.old }
        ensures left { self.new ≡ rest self.old }
        ensures few { length self.old ≤ 256 }
    {
        if self.len == 0 {
            return Err(Trap::Under);
        }
        self.len -= 1;
        Ok(self.cells[self.len])
    }

    /// Puts a number on top, for which there is room.
    pub fn put(&mut self, n: i64)
        requires { length self.old < 256 }
        ensures { self.new ≡ n ∷ self.old }
    {
        self.cells[self.len] = n;
        self.len += 1;
    }

    /// Puts a number in the place of the two newest.
    fn replace_pair(&mut self, n: i64)
        requires { 2 ≤ length self.old }
        ensures value { self.new ≡ n ∷ rest (rest self.old) }
        ensures few { length self.new < 256 }
    {
        self.len -= 2;
        self.put(n);
    }
}

/// The instructions that work on the operands alone.
impl Operands {
    /// PUSH.
    pub fn push(&mut self, n: i64) -> Result<(), Trap>
        ensures { Leaves (operands.push n self.old) self.old result self.new }
    {
        if self.is_full() {
            return Err(Trap::Over);
        }
        self.put(n);
        Ok(())
    }

    /// POP.
    pub fn drop_top(&mut self) -> Result<(), Trap>
        ensures { Leaves (operands.pop self.old) self.old result self.new }
    {
        self.pop()?;
        Ok(())
    }

    /// DUP.
    pub fn duplicate(&mut self) -> Result<(), Trap>
        ensures { Leaves (operands.duplicate self.old) self.old result self.new }
    {
        let n = self.top()?;
        self.push(n)
    }

    /// SWAP.
    pub fn swap(&mut self) -> Result<(), Trap>
        ensures { Leaves (operands.swap self.old) self.old result self.new }
    {
        let (a, b) = self.pair()?;
        self.replace_pair(b);
        self.put(a);
        Ok(())
    }

    /// ADD.
    pub fn add(&mut self) -> Result<(), Trap>
        ensures { Leaves (operands.calculate operands.sum self.old) self.old result self.new }
    {
        let (a, b) = self.pair()?;
        let Some(n) = a.checked_add(b) else {
            return Err(Trap::Sum);
        };
        self.replace_pair(n);
        Ok(())
    }

    /// SUB.
    pub fn subtract(&mut self) -> Result<(), Trap>
        ensures { Leaves (operands.calculate operands.difference self.old) self.old result
            self.new }
    {
        let (a, b) = self.pair()?;
        let Some(n) = a.checked_sub(b) else {
            return Err(Trap::Sum);
        };
        self.replace_pair(n);
        Ok(())
    }

    /// LT.
    pub fn compare_less(&mut self) -> Result<(), Trap>
        ensures { Leaves (operands.calculate operands.is_less self.old) self.old result self.new }
    {
        let (a, b) = self.pair()?;
        self.replace_pair(one_if(a < b));
        Ok(())
    }

    /// EQ.
    pub fn compare_equal(&mut self) -> Result<(), Trap>
        ensures { Leaves (operands.calculate operands.is_equal self.old) self.old result self.new }
    {
        let (a, b) = self.pair()?;
        self.replace_pair(one_if(a == b));
        Ok(())
    }
}
