//! Code of functions that is being made.
use dim_base::OutOfMemory;
use std::alloc::Global;

/// An instruction. The one local is 0, and functions are told by their numbers.
#[derive(Clone, Copy, Debug, PartialEq, Eq)]
pub enum Instruction {
    Push { n: usize },
    Pop,
    Swap,
    PutL,
    GetL,
    Lt,
    Jmp { k: usize },
    Jz { k: usize },
    Call { f: usize },
    Ret,
    LockX,
    UnlockX,
    TryLock { l: usize },
}

/// The code of a function that goes by its argument, a number from 0, to one of its leaves, and
/// where each of these begins.
#[derive(Drop)]
pub struct Tree {
    pub code: Vec<Instruction>,
    pub starts: Vec<usize>,
}

impl Tree {
    /// The tree of some leaves, each of which is to end by a RET.
    pub fn of(alloc: Global, leaves: &[Vec<Instruction>]) -> Result<Tree, OutOfMemory> {
        let mut tree = Tree {
            code: Vec::new(alloc),
            starts: Vec::new(alloc),
        };
        tree.code.push(Instruction::PutL)?;
        tree.put_branch(leaves)?;
        Ok(tree)
    }

    /// Appends the branch of the next leaves.
    fn put_branch(&mut self, leaves: &[Vec<Instruction>]) -> Result<(), OutOfMemory> {
        if leaves.len() <= 1 {
            return self.put_leaf(leaves);
        }
        let (low, high) = leaves.split_at(leaves.len() / 2);
        let jump = self.put_test(low.len())?;
        self.put_branch(low)?;
        self.aim(jump);
        self.put_branch(high)
    }

    /// Appends a leaf, if there is one.
    fn put_leaf(&mut self, leaves: &[Vec<Instruction>]) -> Result<(), OutOfMemory> {
        if let Some(leaf) = leaves.first() {
            self.starts.push(self.code.len())?;
            for instruction in leaf.iter() {
                self.code.push(*instruction)?;
            }
        }
        Ok(())
    }

    /// Appends the test whether the argument is one of the next so many leaves, and answers where
    /// the jump stands that is made where it isn't.
    fn put_test(&mut self, low: usize) -> Result<usize, OutOfMemory> {
        let bound = self.starts.len().saturating_add(low);
        self.code.push(Instruction::GetL)?;
        self.code.push(Instruction::Push { n: bound })?;
        self.code.push(Instruction::Lt)?;
        let jump = self.code.len();
        self.code.push(Instruction::Jz { k: 0 })?;
        Ok(jump)
    }

    /// Lets a jump lead to what is appended next.
    fn aim(&mut self, jump: usize) {
        let k = self.code.len();
        if let Some(instruction) = self.code.get_mut(jump) {
            *instruction = Instruction::Jz { k };
        }
    }
}
