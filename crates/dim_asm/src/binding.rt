//! Numbers of functions, from a table of names.
ghost use Rattle.std.specs.Prelude.{◌≡◌, ◌≤◌, length, map, IfOk};
ghost use Rattle.dim_stack.specs.Names.{HasNames};
ghost use Rattle.dim_asm.specs.Code.{func_names};
ghost use Rattle.dim_asm.specs.Bound.{own_names, IsBound, numbered, bound, SameButNumbers, KeptLaw, NumbersLaw, LastLaw, OwnNamesLaw};

use crate::Program;
use crate::program::Function;
use dim_base::{OutOfMemory, Word};
use dim_stack::Names;
use std::alloc::Global;

impl Program {
    /// The table of its function names.
    pub fn names(&self, alloc: Global) -> Result<Names, OutOfMemory>
        ensures table { IfOk result (λ names. names ≡ own_names self.now) }
        ensures known { IfOk result (λ names. HasNames names (func_names self.now.funcs)) }
        ensures few { IfOk result (λ names. length names ≤ 256) }
    {
        let words = words_of(alloc, &self.funcs)?;
        Names::of(alloc, &words)
    }

    /// Binds it to a table of names, in which each of its function names has to stand: the number
    /// of a function is then that of its name in the table. It takes no memory, and nothing else
    /// changes.
    pub fn bind(&mut self, names: &Names)
        requires { HasNames names.now (func_names self.old.funcs) }
        ensures bound { self.new ≡ bound names.now self.old }
        ensures numbers { IsBound names.now self.new }
        ensures kept { SameButNumbers self.old self.new }
    {
        number_all(&mut self.funcs, names);
    }
}

impl Function {
    // Takes the number of its name in a table, and 0 where it isn't there.
    fn take_number(&mut self, names: &Names)
        ensures { self.new ≡ numbered names.now self.old }
    {
        self.number = names.number(&self.name).unwrap_or(0);
    }
}

// Each function takes its number in a table.
fn number_all(funcs: &mut [Function], names: &Names)
    ensures { funcs.new ≡ map (numbered names.now) funcs.old }
{
    for func in funcs.iter_mut() {
        func.take_number(names);
    }
}

// The names of functions.
fn words_of(alloc: Global, funcs: &[Function]) -> Result<Vec<Word>, OutOfMemory>
    ensures { IfOk result (λ words. words.items ≡ func_names funcs.now) }
{
    let mut words = Vec::new(alloc);
    for func in funcs {
        words.push(Word::of(alloc, func.name.as_str())?)?;
    }
    Ok(words)
}

/// What it means to bind a program to a table of names: nothing but numbers changes, they are those
/// of the table where it has all names, and the last table counts. The table of a program's own
/// names has all of them.
pub fn bind_law()
    ensures kept { KeptLaw }
    ensures numbers { NumbersLaw }
    ensures last { LastLaw }
    ensures own { OwnNamesLaw }
{}
