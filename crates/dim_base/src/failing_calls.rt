//! The calls of an object in memory that are to fail.
ghost use Rattle.std.specs.Prelude.{◌≡◌, ◌↔◌, IsTrue, IfOk, Contains};
ghost use Rattle.dim_base.specs.FailingCalls.{next_call};

use crate::OutOfMemory;
use std::alloc::Global;

/// The numbers of the calls that are to fail, counted from 1, and how many calls there were.
#[derive(Drop)]
pub struct FailingCalls {
    pub numbers: Vec<u32>,
    pub made: u32,
}

impl FailingCalls {
    /// No call was made yet.
    pub fn new(alloc: Global, numbers: &[u32]) -> Result<FailingCalls, OutOfMemory>
        ensures numbers { IfOk result (λ c. c.numbers.items ≡ numbers.now) }
        ensures made { IfOk result (λ c. c.made ≡ 0) }
    {
        Ok(FailingCalls {
            numbers: Vec::from_slice(alloc, numbers)?,
            made: 0,
        })
    }

    /// Counts the call that comes now, and answers whether it is to fail.
    pub fn next_fails(&mut self) -> bool
        ensures fails { IsTrue result ↔ Contains self.old.numbers.items self.new.made }
        ensures counted { self.new.made ≡ next_call self.old.made }
        ensures numbers { self.new.numbers ≡ self.old.numbers }
    {
        self.made = self.made.saturating_add(1);
        self.numbers.contains(&self.made)
    }
}
