//! The first pass: what has been read so far, and one line more.
ghost use Rattle.std.specs.Prelude.{◌≡◌, ◌<◌, false, Some, OnOk, length, vec_len};
ghost use Rattle.dim_text.specs.Reading.{Gives, Leaves, in_line};
ghost use Rattle.dim_asm.specs.Judging.{stage_after, step, at_end, after, nothing};
ghost use Rattle.dim_asm.specs.Code.{has_name};
ghost use Rattle.dim_asm.specs.Source.{with_statement, FuncLine, OpLine, ThreadLine};
ghost use Rattle.dim_asm.specs.Faults.{fault, fault_of};
ghost use Rattle.dim_asm.specs.Seen.{seen_draft, seen_statement};

use crate::draft::{Draft, DraftFunction, DraftStart};
use crate::fault::in_line;
use crate::statement::Statement;
use crate::symbols::Symbols;
use crate::{AsmError, AsmKind};
use dim_base::OutOfMemory;
use dim_text::unless;
use std::alloc::Global;

/// How far the reading has come.
#[derive(Clone, Copy, Debug, PartialEq, Eq)]
pub enum Stage {
    /// At the first line.
    Head,
    /// Behind the head or a lock.
    Locks,
    /// In a function.
    Function,
    /// Behind the end of a function.
    Functions,
    /// Behind a thread.
    Threads,
    /// Behind the end of the program.
    Closed,
}

fn stage_after(statement: &Statement) -> Stage
    ensures { result ≡ stage_after (seen_statement statement.now) }
{
    match statement {
        Statement::Head | Statement::Lock(_) => Stage::Locks,
        Statement::Func { .. } | Statement::Op(_) => Stage::Function,
        Statement::End => Stage::Functions,
        Statement::Thread { .. } => Stage::Threads,
        Statement::Close => Stage::Closed,
    }
}

/// What has been read so far.
#[derive(Drop)]
pub struct Reader<'a> {
    pub stage: Stage,
    pub locks: Symbols,
    // The names of the functions.
    pub names: Symbols,
    pub funcs: Vec<DraftFunction<'a>>,
    pub threads: Vec<DraftStart<'a>>,
    // How many instructions all functions have.
    pub ops: usize,
}

impl<'a> Reader<'a> {
    ghost use Rattle.dim_asm.specs.Reader.{read, state_of, IsCounted, HasRoom};
    ghost use Rattle.dim_asm.specs.Grammar.{FitsStage};

    /// Nothing yet.
    pub fn new(alloc: Global) -> Reader<'a>
        ensures state { state_of result ≡ record { stage = Stage.Head; source = nothing } }
        ensures counted { IsCounted result }
    {
        Reader {
            stage: Stage::Head,
            locks: Symbols::new(alloc),
            names: Symbols::new(alloc),
            funcs: Vec::new(alloc),
            threads: Vec::new(alloc),
            ops: 0,
        }
    }

    // A function without instructions so far.
    fn take_func(&mut self, alloc: Global, name: &'a str, locals: u32) -> Result<(), OutOfMemory>
        requires counted { IsCounted self.old }
        requires free { has_name self.old.names name.now ≡ false }
        requires few { length self.old.names < 256 }
        ensures taken { OnOk result
            (read self.new ≡ with_statement (FuncLine name.now locals) (read self.old)) }
        ensures counted { OnOk result (IsCounted self.new) }
    {
        self.names.add(alloc, name)?;
        self.funcs.push(DraftFunction {
            name,
            locals,
            drafts: Vec::new(alloc),
        })?;
        Ok(())
    }

    // An instruction of the last function.
    fn take_op(&mut self, draft: Draft<'a>) -> Result<(), OutOfMemory>
        requires counted { IsCounted self.old }
        requires some { 0 < vec_len self.old.funcs }
        requires few { self.old.ops < 65536 }
        ensures taken { OnOk result
            (read self.new ≡ with_statement (OpLine (seen_draft draft.entry)) (read self.old)) }
        ensures counted { OnOk result (IsCounted self.new) }
    {
        let last = self.funcs.len() - 1;
        let func = &mut self.funcs[last];
        func.push(draft)?;
        self.ops += 1;
        Ok(())
    }

    fn take_thread(&mut self, func: &'a str, argument: i64) -> Result<(), OutOfMemory>
        ensures taken { OnOk result
            (read self.new ≡ with_statement (ThreadLine func.now argument) (read self.old)) }
        ensures counted { IsCounted self.old → IsCounted self.new }
    {
        self.threads.push(DraftStart { func, argument })?;
        Ok(())
    }

    // What a line says, but for where the reading stands then.
    fn grow(&mut self, alloc: Global, statement: Statement<'a>) -> Result<(), OutOfMemory>
        requires counted { IsCounted self.old }
        requires room { HasRoom (seen_statement statement) (read self.old) }
        ensures taken { OnOk result
            (read self.new ≡ with_statement (seen_statement statement.entry) (read self.old)) }
        ensures counted { OnOk result (IsCounted self.new) }
    {
        match statement {
            Statement::Lock(name) => self.locks.add(alloc, name),
            Statement::Func { name, locals } => self.take_func(alloc, name, locals),
            Statement::Op(draft) => self.take_op(draft),
            Statement::Thread { func, argument } => self.take_thread(func, argument),
            Statement::Head | Statement::End | Statement::Close => Ok(()),
        }
    }

    // Takes what a line says.
    fn take(&mut self, alloc: Global, statement: Statement<'a>) -> Result<(), OutOfMemory>
        requires counted { IsCounted self.old }
        requires room { HasRoom (seen_statement statement) (read self.old) }
        ensures taken { OnOk result
            (state_of self.new ≡ after (seen_statement statement.entry) (state_of self.old)) }
        ensures counted { OnOk result (IsCounted self.new) }
    {
        self.grow(alloc, statement)?;
        self.stage = stage_after(&statement);
        Ok(())
    }

    /// Reads the line of this number.
    #[tactic(auto, unfolding(crate::specs::Judging::step))]
    pub fn step(&mut self, alloc: Global, number: u32, line: &'a [u8]) -> Result<(), AsmError>
        requires counted { IsCounted self.old }
        requires fits { FitsStage (state_of self.old) }
        ensures step { Leaves fault_of (state_of self.new) result
            (in_line fault number (step (state_of self.old) line.now)) }
        ensures counted { OnOk result (IsCounted self.new) }
    {
        let statement = in_line(number, self.judge(line))?;
        self.take(alloc, statement)?;
        Ok(())
    }

    /// Whether the text may end here.
    #[tactic(auto, unfolding(crate::specs::Judging::at_end))]
    pub fn finish(&self, last: &[u8]) -> Result<(), AsmKind>
        ensures { Gives Some (λ _. read self.now) result (at_end (state_of self.now) last.now) }
    {
        unless(
            self.stage != Stage::Closed || !last.is_empty(),
            AsmKind::Word,
        )
    }
}
