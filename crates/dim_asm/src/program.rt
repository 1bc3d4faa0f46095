//! Programs, as those see them who run them.
ghost use Rattle.std.specs.Prelude.{◌≡◌, ◌<◌, ◌≤◌, length, slice_get, option_copied, IfSome};
ghost use Rattle.std.specs.Option.{option_map};
ghost use Rattle.dim_asm.specs.Code.{lock_count, func_count, thread_count, op_at, locals_of, function_number, start_of, lock_name_of, func_name_of, place_of, IsFine, IsFunction};

use crate::symbols::Symbols;
use crate::{Op, Start};
use dim_base::{Lid, Tid, Word};
use std::marker::Model;

/// A function of a program.
#[derive(Drop)]
pub struct Function {
    pub name: Word,
    pub locals: u32,
    pub number: u32,
    pub ops: Vec<Op>,
}

impl Model for Function {
    ghost use Rattle.dim_asm.specs.Code.{Function};

    ghost Value = { Function };

    ghost view = { λ f. record { name = f.name; locals = f.locals; number = f.number; ops = f.ops.items } };
}

impl Function {
    fn op(&self, at: u32) -> Option<Op>
        ensures { result ≡ slice_get self.now.ops at }
    {
        self.ops.get(at as usize).copied()
    }
}

/// A program: its locks, functions and threads, each numbered from 0 in the order of their lines.
#[derive(Drop)]
pub struct Program {
    pub(crate) locks: Symbols,
    pub(crate) funcs: Vec<Function>,
    pub(crate) threads: Vec<Start>,
}

impl Model for Program {
    ghost use Rattle.dim_asm.specs.Code.{Code, IsProgram};

    ghost Value = { Code };

    ghost view = { λ p. record { locks = p.locks; funcs = p.funcs.items; threads = p.threads.items } };

    ghost invariant = { λ p. IsProgram (record { locks = p.locks; funcs = p.funcs.items; threads = p.threads.items }) };
}

impl Program {
    ghost use Rattle.dim_asm.specs.Code.{IsProgram};

    /// A law: what holds of every program. It has nothing to do.
    pub fn law(&self)
        ensures { IsProgram self.now }
    {
        let _threads = &self.threads;
    }

    /// How many threads there are.
    pub fn threads(&self) -> u32
        ensures value { result ≡ thread_count self.now }
        ensures some { 1 ≤ result }
        ensures few { result ≤ 32 }
    {
        self.threads.len() as u32
    }

    /// How many locks there are.
    pub fn locks(&self) -> u32
        ensures value { result ≡ lock_count self.now }
        ensures few { result ≤ 256 }
    {
        self.locks.len() as u32
    }

    /// How many functions there are.
    pub fn funcs(&self) -> u32
        ensures value { result ≡ func_count self.now }
        ensures some { 1 ≤ result }
        ensures few { result ≤ 256 }
    {
        self.funcs.len() as u32
    }

    /// The function of a thread, and its argument.
    pub fn start(&self, t: Tid) -> (u32, i64)
        requires { t.0 < thread_count self.now }
        ensures value { result ≡ ((start_of self.now t.0).func, (start_of self.now t.0).argument) }
        ensures func { result.0 < func_count self.now }
    {
        let start = self.threads[t.0 as usize];
        (start.func, start.argument)
    }

    // A function, if there is one of this number.
    fn func(&self, f: u32) -> Option<&Function>
        ensures func { option_copied result ≡ slice_get self.now.funcs f }
        ensures sound { IfSome result
            (λ func. IsFunction (lock_count self.now) (func_count self.now) func.now) }
        ensures short { IfSome result (λ func. length func.now.ops ≤ 65536) }
        ensures locks { lock_count self.now ≤ 256 }
    {
        self.funcs.get(f as usize)
    }

    /// The instruction of a function at an offset, or `None` past its last one.
    pub fn op(&self, f: u32, at: u32) -> Option<Op>
        ensures value { result ≡ op_at self.now f at }
        ensures fine { IfSome result (IsFine (lock_count self.now) (func_count self.now)) }
        ensures at { IfSome result (λ _. at < 65536) }
        ensures locks { lock_count self.now ≤ 256 }
    {
        match self.func(f) {
            Some(func) => func.op(at),
            None => None,
        }
    }

    /// How many locals a function has, at most 16.
    pub fn locals(&self, f: u32) -> u32
        ensures value { result ≡ locals_of self.now f }
        ensures few { result ≤ 16 }
    {
        match self.func(f) {
            Some(func) => func.locals,
            None => 0,
        }
    }

    /// A function's number in the table of names to which the program is bound.
    pub fn number(&self, f: u32) -> u32
        ensures { result ≡ function_number self.now f }
    {
        match self.func(f) {
            Some(func) => func.number,
            None => 0,
        }
    }

    /// The lock of a name, or `None` where no lock has it.
    pub fn find_lock(&self, name: &str) -> Option<Lid>
        ensures value { option_map (λ l. l.0) result ≡ place_of self.now.locks name.now }
        ensures within { IfSome result (λ l. l.0 < lock_count self.now) }
    {
        let l = self.locks.find(name)?;
        Some(Lid(l))
    }

    /// The name of a lock.
    pub fn lock_name(&self, l: Lid) -> &Word
        requires { l.0 < lock_count self.now }
        ensures { result.now ≡ lock_name_of self.now l.0 }
    {
        self.locks.name(l.0 as usize)
    }

    /// The name of a function.
    pub fn func_name(&self, f: u32) -> &Word
        requires { f < func_count self.now }
        ensures { result.now ≡ func_name_of self.now f }
    {
        let func = &self.funcs[f as usize];
        &func.name
    }
}
